//! The classes against their table, written by hand.
use crate::classes;
use class_pool::{ClassFile, MethodInfo, class_name_at, utf8_at};
use std::test::Fail;

/// The names of the classes and of their superclasses, in java/lang.
#[rattlefmt::skip]
const NAMES: [(&str, &str); 23] = [
    ("java/lang/Object", ""),
    ("java/lang/String", "java/lang/Object"),
    ("java/lang/Runnable", "java/lang/Object"),
    ("java/lang/Thread", "java/lang/Object"),
    ("java/lang/Throwable", "java/lang/Object"),
    ("java/lang/Exception", "java/lang/Throwable"),
    ("java/lang/Error", "java/lang/Throwable"),
    ("java/lang/RuntimeException", "java/lang/Exception"),
    ("java/lang/ArithmeticException", "java/lang/RuntimeException"),
    ("java/lang/NullPointerException", "java/lang/RuntimeException"),
    ("java/lang/ClassCastException", "java/lang/RuntimeException"),
    ("java/lang/IndexOutOfBoundsException", "java/lang/RuntimeException"),
    ("java/lang/ArrayStoreException", "java/lang/RuntimeException"),
    ("java/lang/NegativeArraySizeException", "java/lang/RuntimeException"),
    ("java/lang/IllegalArgumentException", "java/lang/RuntimeException"),
    ("java/lang/IllegalStateException", "java/lang/RuntimeException"),
    ("java/lang/IllegalMonitorStateException", "java/lang/RuntimeException"),
    ("java/lang/UnsupportedOperationException", "java/lang/RuntimeException"),
    ("java/lang/ArrayIndexOutOfBoundsException", "java/lang/IndexOutOfBoundsException"),
    ("java/lang/IllegalThreadStateException", "java/lang/IllegalArgumentException"),
    ("java/lang/InterruptedException", "java/lang/Exception"),
    ("java/lang/LinkageError", "java/lang/Error"),
    ("java/lang/IncompatibleClassChangeError", "java/lang/LinkageError"),
];

fn is_named(class: &ClassFile, name: &str, above: &str) -> bool {
    let pool = class.pool.as_slice();
    class_name_at(pool, class.this_class).unwrap_or(b"") == name.as_bytes()
        && class_name_at(pool, class.super_class).unwrap_or(b"") == above.as_bytes()
}

fn are_named(classes: &[ClassFile], names: &[(&str, &str)]) -> bool {
    for (class, row) in classes.iter().zip(names) {
        if !is_named(class, row.0, row.1) {
            return false;
        }
    }
    true
}

/// Whether the class has these flags, and so many fields and methods.
fn has(class: Option<&ClassFile>, flags: u16, fields: usize, methods: usize) -> bool {
    match class {
        Some(class) => {
            class.flags == flags
                && class.fields.as_slice().len() == fields
                && class.methods.as_slice().len() == methods
        }
        None => false,
    }
}

/// Whether a method of the class has this name, these limits and this code.
fn has_code(class: &ClassFile, name: &str, limits: (u16, u16), bytes: &[u8]) -> bool {
    for method in class.methods.as_slice() {
        if is_coded(class, method, name, limits, bytes) {
            return true;
        }
    }
    false
}

fn is_coded(
    class: &ClassFile,
    method: &MethodInfo,
    name: &str,
    limits: (u16, u16),
    bytes: &[u8],
) -> bool {
    match &method.code {
        Some(code) => {
            utf8_at(class.pool.as_slice(), method.name).unwrap_or(b"") == name.as_bytes()
                && code.max_stack == limits.0
                && code.max_locals == limits.1
                && code.bytes.as_slice() == bytes
        }
        None => false,
    }
}

#[test]
fn the_classes_of_the_table(rt: HostRuntime) -> Result<(), Fail> {
    let classes = classes(rt.alloc())?;
    let classes = classes.as_slice();
    assert_eq!(rt; classes.len(), 23);
    assert!(rt; are_named(classes, &NAMES));
    assert!(rt; has(classes.first(), 0x0021, 0, 2));
    assert!(rt; has(classes.get(1), 0x0021, 0, 0));
    assert!(rt; has(classes.get(2), 0x0601, 0, 1));
    assert!(rt; has(classes.get(3), 0x0021, 1, 5));
    assert!(rt; has(classes.get(4), 0x0021, 1, 3));
    assert!(rt; has(classes.get(5), 0x0021, 0, 2));
    assert!(rt; has(classes.last(), 0x0021, 0, 2));
    Ok(())
}

#[test]
fn the_code_of_equals(rt: HostRuntime) -> Result<(), Fail> {
    let classes = classes(rt.alloc())?;
    let object = classes.as_slice().first().ok_or("there is a class")?;
    assert!(rt; has_code(object, "<init>", (0, 1), &[0xb1]));
    let equals = [0x2a, 0x2b, 0xa6, 0, 7, 4, 0xa7, 0, 4, 3, 0xac];
    assert!(rt; has_code(object, "equals", (2, 2), &equals));
    Ok(())
}
