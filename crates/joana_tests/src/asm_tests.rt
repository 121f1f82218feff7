//! The command `asm`.
use crate::runs::{Answer, NONE_FAILS, Stored, answer_to};
use joana_top::{InputFault, LimitKind, Status};
use samples::{listing_of_a, worked_class};
use std::alloc::Global;
use std::test::Fail;

const E: &str = "class E super java/lang/Object flags 0x0020";

/// The class file of that text.
const E_CLASS: [u8; 53] = [
    0xca, 0xfe, 0xba, 0xbe, 0, 0, 0, 0x34, 0, 5, 1, 0, 1, b'E', 7, 0, 1, 1, 0, 16, b'j', b'a',
    b'v', b'a', b'/', b'l', b'a', b'n', b'g', b'/', b'O', b'b', b'j', b'e', b'c', b't', 7, 0, 3, 0,
    0x20, 0, 2, 0, 4, 0, 0, 0, 0, 0, 0, 0, 0,
];

const WORKED: &str = "class Main super java/lang/Object flags 0x0020
method secret ()I flags 0x0108
method get ()I flags 0x0108
method show (I)V flags 0x0108
method main ()V flags 0x0008 stack 2 locals 2
invokestatic Main.get()I
istore_0
invokestatic Main.secret()I
istore_1
iload_0
iconst_1
iadd
invokestatic Main.show(I)V
return
end
";

/// What a command answers on a file with these bytes.
fn run(alloc: Global, word: &str, bytes: &[u8]) -> Result<Answer, Fail> {
    let stored = Stored {
        policy: "",
        list: "",
        class: bytes.to_vec(alloc)?,
    };
    Ok(answer_to(alloc, &[word, "c"], stored, NONE_FAILS)?)
}

#[test]
fn texts_are_assembled(rt: HostRuntime) -> Result<(), Fail> {
    let alloc = rt.alloc();
    let small = run(alloc, "asm", E.as_bytes())?;
    assert!(rt; matches!(small.status, Status::Done));
    assert_eq!(rt; small.out.as_slice(), E_CLASS.as_slice());
    let worked = run(alloc, "asm", WORKED.as_bytes())?;
    assert_eq!(rt; worked.out.as_slice(), worked_class().as_slice());
    assert_eq!(rt; worked.notes.len(), 0);
    Ok(())
}

#[test]
fn a_listing_is_assembled_again(rt: HostRuntime) -> Result<(), Fail> {
    let alloc = rt.alloc();
    let class = run(alloc, "asm", listing_of_a().as_bytes())?;
    assert!(rt; matches!(class.status, Status::Done));
    let listed = run(alloc, "dis", class.out.as_slice())?;
    assert_eq!(rt; listed.out.as_slice(), listing_of_a().as_bytes());
    Ok(())
}

#[test]
fn texts_are_refused(rt: HostRuntime) -> Result<(), Fail> {
    let alloc = rt.alloc();
    let line = format!(in alloc; "{E}\nmetod\n")?;
    let faulty = run(alloc, "asm", line.as_bytes())?;
    assert!(rt; matches!(faulty.status, Status::Input(InputFault::Asm(_))));
    assert_eq!(rt; faulty.out.len(), 0);
    assert_eq!(rt; faulty.notes.as_slice(), b"joana: input A1 2\n".as_slice());
    let large = run(alloc, "asm", vec![in alloc; b'\n'; 1_048_577]?.as_slice())?;
    assert!(rt; matches!(large.status, Status::Limit(LimitKind::M2)));
    Ok(())
}
