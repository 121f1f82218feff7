//! Which classes of a program are those of its files.
ghost use Rattle.std.specs.Prelude.{◌≡◌, map};
ghost use Rattle.std.specs.List.{list_any};
ghost use Rattle.std.specs.Option.{option_copied};
ghost use Rattle.std.specs.Str.{bytes_eq};
ghost use Rattle.jo_prog.specs.FileClasses.{is_prelude_name, is_file_class as file_class, is_of_files};

use crate::lookups::class_at;
use crate::program::{Class, Method, Program};

/// The names of the prelude's classes, in the order of their numbers.
const PRELUDE: [&str; 23] = [
    "java/lang/Object",
    "java/lang/String",
    "java/lang/Runnable",
    "java/lang/Thread",
    "java/lang/Throwable",
    "java/lang/Exception",
    "java/lang/Error",
    "java/lang/RuntimeException",
    "java/lang/ArithmeticException",
    "java/lang/NullPointerException",
    "java/lang/ClassCastException",
    "java/lang/IndexOutOfBoundsException",
    "java/lang/ArrayStoreException",
    "java/lang/NegativeArraySizeException",
    "java/lang/IllegalArgumentException",
    "java/lang/IllegalStateException",
    "java/lang/IllegalMonitorStateException",
    "java/lang/UnsupportedOperationException",
    "java/lang/ArrayIndexOutOfBoundsException",
    "java/lang/IllegalThreadStateException",
    "java/lang/InterruptedException",
    "java/lang/LinkageError",
    "java/lang/IncompatibleClassChangeError",
];

/// Whether the text is one of the names.
fn is_among(names: &[&str], text: &[u8]) -> bool
    ensures { result ≡ list_any (λ name. bytes_eq name text.now) (map (λ name. name.now) names.now) }
{
    for name in names {
        if name.as_bytes() == text {
            return true;
        }
    }
    false
}

/// Whether a class of the prelude has this name.
#[tactic(auto, unfolding(crate::specs::FileClasses::is_prelude_name))]
pub fn is_prelude_name(text: &[u8]) -> bool
    ensures { result ≡ is_prelude_name text.now }
{
    is_among(&PRELUDE, text)
}

/// Whether the class is there, and is one of the files.
fn is_file_class(class: Option<&Class>) -> bool
    ensures { result ≡ file_class (option_copied class.entry) }
{
    match class {
        Some(class) => !is_prelude_name(class.name.as_slice()),
        None => false,
    }
}

/// Whether the method stands in a class of the files.
pub fn is_of_files(program: &Program, method: &Method) -> bool
    ensures { result ≡ is_of_files program.now method.now }
{
    is_file_class(class_at(program, method.class))
}
