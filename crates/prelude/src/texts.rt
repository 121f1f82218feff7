//! The classes of the prelude as assembly texts.
ghost use Rattle.std.specs.Prelude.{◌≡◌, IfOk, length, map};
ghost use Rattle.std.specs.List.{flat_map};
ghost use Rattle.prelude.specs.Texts.{object_text, string_text, runnable_text, thread_text, throwable_text, exception_text, exceptions as exception_rows};

use jo_ids::Memory;
use std::alloc::Global;

const OBJECT: &str = "class java/lang/Object super java/lang/Object flags 0x0021
method <init> ()V flags 0x0001 stack 0 locals 1
return
end
method equals (Ljava/lang/Object;)Z flags 0x0001 stack 2 locals 2
aload_0
aload_1
if_acmpne L9
iconst_1
goto L10
L9:
iconst_0
L10:
ireturn
end
";

const STRING: &str = "class java/lang/String super java/lang/Object flags 0x0021
";

const RUNNABLE: &str = "class java/lang/Runnable super java/lang/Object flags 0x0601
method run ()V flags 0x0401
";

const THREAD: &str = "class java/lang/Thread super java/lang/Object flags 0x0021
implements java/lang/Runnable
field target Ljava/lang/Runnable; flags 0x0001
method <init> ()V flags 0x0001 stack 1 locals 1
aload_0
invokespecial java/lang/Object.<init>()V
return
end
method <init> (Ljava/lang/Runnable;)V flags 0x0001 stack 2 locals 2
aload_0
invokespecial java/lang/Object.<init>()V
aload_0
aload_1
putfield java/lang/Thread.target:Ljava/lang/Runnable;
return
end
method run ()V flags 0x0001 stack 1 locals 1
aload_0
getfield java/lang/Thread.target:Ljava/lang/Runnable;
ifnull L16
aload_0
getfield java/lang/Thread.target:Ljava/lang/Runnable;
invokeinterface java/lang/Runnable.run()V
L16:
return
end
method start ()V flags 0x0001
method join ()V flags 0x0001
";

const THROWABLE: &str = "class java/lang/Throwable super java/lang/Object flags 0x0021
field message Ljava/lang/String; flags 0x0001
method <init> ()V flags 0x0001 stack 1 locals 1
aload_0
invokespecial java/lang/Object.<init>()V
return
end
method <init> (Ljava/lang/String;)V flags 0x0001 stack 2 locals 2
aload_0
invokespecial java/lang/Object.<init>()V
aload_0
aload_1
putfield java/lang/Throwable.message:Ljava/lang/String;
return
end
method getMessage ()Ljava/lang/String; flags 0x0001 stack 1 locals 1
aload_0
getfield java/lang/Throwable.message:Ljava/lang/String;
areturn
end
";

/// The classes below java/lang/Throwable, each with its superclass, all of them in java/lang.
#[rattlefmt::skip]
const EXCEPTIONS: [(&str, &str); 18] = [
    ("Exception", "Throwable"),
    ("Error", "Throwable"),
    ("RuntimeException", "Exception"),
    ("ArithmeticException", "RuntimeException"),
    ("NullPointerException", "RuntimeException"),
    ("ClassCastException", "RuntimeException"),
    ("IndexOutOfBoundsException", "RuntimeException"),
    ("ArrayStoreException", "RuntimeException"),
    ("NegativeArraySizeException", "RuntimeException"),
    ("IllegalArgumentException", "RuntimeException"),
    ("IllegalStateException", "RuntimeException"),
    ("IllegalMonitorStateException", "RuntimeException"),
    ("UnsupportedOperationException", "RuntimeException"),
    ("ArrayIndexOutOfBoundsException", "IndexOutOfBoundsException"),
    ("IllegalThreadStateException", "IllegalArgumentException"),
    ("InterruptedException", "Exception"),
    ("LinkageError", "Error"),
    ("IncompatibleClassChangeError", "LinkageError"),
];

pub fn object() -> &'static [u8]
    ensures { result.now ≡ object_text }
{
    OBJECT.as_bytes()
}

pub fn string() -> &'static [u8]
    ensures { result.now ≡ string_text }
{
    STRING.as_bytes()
}

pub fn runnable() -> &'static [u8]
    ensures { result.now ≡ runnable_text }
{
    RUNNABLE.as_bytes()
}

pub fn thread() -> &'static [u8]
    ensures { result.now ≡ thread_text }
{
    THREAD.as_bytes()
}

pub fn throwable() -> &'static [u8]
    ensures { result.now ≡ throwable_text }
{
    THROWABLE.as_bytes()
}

pub fn exceptions() -> &'static [(&'static str, &'static str)]
    ensures rows { map (λ row. (row.0.now, row.1.now)) result.now ≡ exception_rows }
    ensures count { length result.now ≡ 18 }
{
    &EXCEPTIONS
}

/// The pieces one behind another.
fn joined(alloc: Global, pieces: &[&str]) -> Result<Vec<u8>, Memory>
    ensures { IfOk result (λ text. text.items ≡ flat_map (λ piece. piece.now) pieces.now) }
{
    let mut text = Vec::new(alloc);
    for piece in pieces {
        text.extend_from_slice(piece.as_bytes())?;
    }
    Ok(text)
}

/// A class below java/lang/Throwable.
pub fn exception(alloc: Global, name: &str, above: &str) -> Result<Vec<u8>, Memory>
    ensures { IfOk result (λ text. text.items ≡ exception_text (name.now, above.now)) }
{
    joined(
        alloc,
        &[
            "class java/lang/",
            name,
            " super java/lang/",
            above,
            " flags 0x0021
method <init> ()V flags 0x0001 stack 1 locals 1
aload_0
invokespecial java/lang/",
            above,
            ".<init>()V
return
end
method <init> (Ljava/lang/String;)V flags 0x0001 stack 2 locals 2
aload_0
aload_1
invokespecial java/lang/",
            above,
            ".<init>(Ljava/lang/String;)V
return
end
",
        ],
    )
}
