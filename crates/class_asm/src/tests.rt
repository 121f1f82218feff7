use crate::{AsmFault, assemble};
use class_pool::{ClassFile, PoolEntry};
use std::test::Fail;

/// The bytes of the code of the one method.
fn code_of(class: &ClassFile) -> &[u8] {
    match class.methods.as_slice() {
        [method] => match &method.code {
            Some(code) => code.bytes.as_slice(),
            None => b"",
        },
        _ => b"",
    }
}

/// Whether an invokeinterface of a method with this descriptor has this count behind its index.
fn is_counted(rt: &impl AllocGlobal, desc: &str, count: u8) -> Result<bool, Fail> {
    let text = format!(in rt.alloc();
        "class A super B flags 0x0021\nmethod m ()V flags 0x0008 stack 9 locals 9\ninvokeinterface I.f{desc}\nend\n"
    )?;
    let class = assemble(rt.alloc(), text.as_bytes())
        .ok()
        .ok_or("it is a class")?;
    Ok(matches!(code_of(&class), [185, _, _, words, 0] if *words == count))
}

/// Whether the text is refused by the fault of this code, A1 to A3, in this line; 0 stands for no fault.
fn is_refused(rt: &impl AllocGlobal, text: &str, code: u8, line: u32) -> bool {
    match assemble(rt.alloc(), text.as_bytes()) {
        Ok(_) => code == 0,
        Err(AsmFault::Line(at)) => code == 1 && at == line,
        Err(AsmFault::Label(at)) => code == 2 && at == line,
        Err(AsmFault::Range(at)) => code == 3 && at == line,
        Err(AsmFault::Memory) => false,
    }
}

/// The same of a class with one method of this code, which begins in line 3.
fn is_code_refused(rt: &impl AllocGlobal, code: &str, cause: u8, line: u32) -> Result<bool, Fail> {
    let text = format!(in rt.alloc();
        "class A super B flags 0x0021\nmethod m ()V flags 0x0008 stack 9 locals 9\n{code}\nend\n"
    )?;
    Ok(is_refused(rt, text.as_str(), cause, line))
}

fn is_text(entry: &PoolEntry, text: &str) -> bool {
    matches!(entry, PoolEntry::Utf8(name) if name.as_slice() == text.as_bytes())
}

#[test]
fn a_class_has_its_entries(rt: HostRuntime) -> Result<(), Fail> {
    let text = b"class E super java/lang/Object flags 0x0020";
    let class = assemble(rt.alloc(), text).ok().ok_or("it is a class")?;
    assert_eq!(rt; class.flags, 0x20);
    assert_eq!(rt; class.this_class, 2);
    assert_eq!(rt; class.super_class, 4);
    let pool = class.pool.as_slice();
    assert_eq!(rt; pool.len(), 4);
    let texts = pool.iter().filter(|entry| is_text(entry, "E")).count();
    assert_eq!(rt; texts, 1);
    Ok(())
}

#[test]
fn lines_outside_the_grammar(rt: HostRuntime) {
    assert!(rt; is_refused(&rt, "class A super B flags 0x0021", 0, 0));
    assert!(rt; is_refused(&rt, "", 1, 1));
    assert!(rt; is_refused(&rt, "\n \n", 1, 3));
    assert!(rt; is_refused(&rt, "class A super B flags 0x0021 ", 1, 1));
    assert!(rt; is_refused(&rt, "class A super B flags 0x0021\r\n", 1, 1));
    assert!(rt; is_refused(&rt, "class\tA super B flags 0x0021\n", 1, 1));
    assert!(rt; is_refused(&rt, "class A super B flags 0x0021\nmetod", 1, 2));
    assert!(rt;
        is_refused(
            &rt,
            "class A super B flags 0x0021\nmethod m ()V flags 0x0008 stack 1 locals 1\nreturn",
            1,
            4
        )
    );
}

#[test]
fn faults_of_labels(rt: HostRuntime) -> Result<(), Fail> {
    assert!(rt; is_code_refused(&rt, "L:\nL:\nreturn", 2, 4)?);
    assert!(rt; is_code_refused(&rt, "goto L", 2, 3)?);
    assert!(rt; is_code_refused(&rt, "goto L\nL:", 0, 0)?);
    assert!(rt; is_code_refused(&rt, "goto L\nmetod\nL:", 1, 4)?);
    assert!(rt; is_code_refused(&rt, "goto L\nbipush 128", 2, 3)?);
    assert!(rt; is_code_refused(&rt, "tableswitch 2147483648 L L", 2, 3)?);
    assert!(rt; is_code_refused(&rt, "L:\ncatch L L L any\nreturn", 1, 5)?);
    Ok(())
}

#[test]
fn numbers_past_their_fields(rt: HostRuntime) -> Result<(), Fail> {
    assert!(rt; is_code_refused(&rt, "bipush 127", 0, 0)?);
    assert!(rt; is_code_refused(&rt, "bipush -129", 3, 3)?);
    assert!(rt; is_code_refused(&rt, "wide iload 65535", 0, 0)?);
    assert!(rt; is_code_refused(&rt, "wide iload 65536\nmetod", 3, 3)?);
    assert!(rt; is_code_refused(&rt, "iinc 0 128", 3, 3)?);
    assert!(rt; is_code_refused(&rt, "ldc \"a b%25\"", 0, 0)?);
    assert!(rt; is_code_refused(&rt, "ldc \"a b%2c\"", 1, 3)?);
    Ok(())
}

#[test]
fn long_arguments_count_twice(rt: HostRuntime) -> Result<(), Fail> {
    assert!(rt; is_counted(&rt, "()V", 1)?);
    assert!(rt; is_counted(&rt, "(J)V", 3)?);
    assert!(rt; is_counted(&rt, "(ID[J[[DLJ;J)D", 9)?);
    Ok(())
}
