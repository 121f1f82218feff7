//! The commands on class A, whole and spoiled.
use crate::runs::{Answer, Failing, NONE_FAILS, Stored, answer_to, changed};
use joana_top::{InputFault, LimitKind, OutsideFault, Status};
use samples::{class_a, listing_of_a, policy_of_a};
use std::alloc::Global;
use std::test::Fail;

/// A Long behind the pool's last entry.
const LONG: [u8; 9] = [5, 0, 0, 0, 0, 0, 0, 0, 1];

/// What the words answer over the policy of class A, the list and the class file.
fn run(
    alloc: Global,
    words: &[&str],
    list: &str,
    class: Vec<u8>,
    failing: Failing,
) -> Result<Answer, Fail> {
    let stored = Stored {
        policy: policy_of_a(),
        list,
        class,
    };
    Ok(answer_to(alloc, words, stored, failing)?)
}

/// A read with this number, the first put of the output, or the first one of the notes is to fail.
fn failing(read: Option<u32>, out: Option<u32>, notes: Option<u32>) -> Failing {
    Failing { read, out, notes }
}

fn dis(alloc: Global, class: Vec<u8>) -> Result<Answer, Fail> {
    run(alloc, &["dis", "c"], "", class, NONE_FAILS)
}

/// Whether the file of `dis` is refused with this line.
fn is_noted(alloc: Global, class: Vec<u8>, line: &str) -> Result<bool, Fail> {
    let found = dis(alloc, class)?;
    let is_input = matches!(found.status, Status::Input(InputFault::Class(0, _)));
    Ok(is_input && found.out.is_empty() && found.notes.as_slice() == line.as_bytes())
}

/// Class A with another byte at a place.
fn with_byte(alloc: Global, place: usize, byte: u8) -> Result<Vec<u8>, Fail> {
    Ok(changed(class_a().to_vec(alloc)?, place, byte))
}

/// Class A with these bytes behind its pool, whose count is then another.
fn with_entry(alloc: Global, count: u8, entry: &[u8]) -> Result<Vec<u8>, Fail> {
    let mut class = Vec::new(alloc);
    class.extend_from_slice(&class_a()[..9])?;
    class.push(count)?;
    class.extend_from_slice(&class_a()[10..180])?;
    class.extend_from_slice(entry)?;
    class.extend_from_slice(&class_a()[180..])?;
    Ok(class)
}

#[test]
fn class_a_is_listed(rt: HostRuntime) -> Result<(), Fail> {
    let alloc = rt.alloc();
    let found = dis(alloc, class_a().to_vec(alloc)?)?;
    assert!(rt; matches!(found.status, Status::Done));
    assert_eq!(rt; found.out.as_slice(), listing_of_a().as_bytes());
    assert_eq!(rt; found.notes.len(), 0);
    Ok(())
}

#[test]
fn other_sizes_are_at_fault(rt: HostRuntime) -> Result<(), Fail> {
    let alloc = rt.alloc();
    for length in 0..319 {
        let line = format!(in alloc; "joana: input C1 0 {length}\n")?;
        let class = class_a()[..length].to_vec(alloc)?;
        assert!(rt; is_noted(alloc, class, line.as_str())?, "{length}");
    }
    let mut longer = class_a().to_vec(alloc)?;
    longer.push(0)?;
    assert!(rt; is_noted(alloc, longer, "joana: input C10 0 319\n")?);
    Ok(())
}

#[test]
fn faults_have_their_codes_and_places(rt: HostRuntime) -> Result<(), Fail> {
    let alloc = rt.alloc();
    let no_index = with_byte(alloc, 27, 0)?;
    assert!(rt; is_noted(alloc, no_index, "joana: input C5 0 25\n")?);
    let second_half = changed(with_entry(alloc, 25, &LONG)?, 27, 24);
    assert!(rt; is_noted(alloc, second_half, "joana: input C5 0 25\n")?);
    let magic = with_byte(alloc, 0, 0)?;
    assert!(rt; is_noted(alloc, magic, "joana: input C2 0 0\n")?);
    let synchronized = with_byte(alloc, 236, 0x28)?;
    assert!(rt; is_noted(alloc, synchronized, "joana: input C11 0 235 synchronized\n")?);
    Ok(())
}

#[test]
fn what_the_profile_cuts_is_told(rt: HostRuntime) -> Result<(), Fail> {
    let alloc = rt.alloc();
    let added = with_byte(alloc, 279, 0x62)?;
    assert!(rt; is_noted(alloc, added, "joana: input C11 0 279 opcode 98\n")?);
    let dynamic = with_byte(alloc, 280, 0xba)?;
    assert!(rt; is_noted(alloc, dynamic, "joana: input C11 0 280 opcode 186\n")?);
    let constant = changed(with_byte(alloc, 279, 0x12)?, 280, 4);
    assert!(rt; is_noted(alloc, constant, "joana: input C11 0 279 constant 4\n")?);
    let wide = with_byte(alloc, 82, b'J')?;
    assert!(rt; is_noted(alloc, wide, "joana: input C11 0 235 type\n")?);
    let unused = dis(alloc, with_entry(alloc, 24, &[4, 0, 0, 0, 0])?)?;
    assert_eq!(rt; unused.out.as_slice(), listing_of_a().as_bytes());
    Ok(())
}

#[test]
fn a_file_may_have_one_mebibyte(rt: HostRuntime) -> Result<(), Fail> {
    let alloc = rt.alloc();
    let greatest = vec![in alloc; 0; 1_048_576]?;
    assert!(rt; is_noted(alloc, greatest, "joana: input C2 0 0\n")?);
    let larger = dis(alloc, vec![in alloc; 0; 1_048_577]?)?;
    assert!(rt; matches!(larger.status, Status::Limit(LimitKind::M2)));
    assert_eq!(rt; larger.notes.as_slice(), b"joana: limit M2\n".as_slice());
    Ok(())
}

#[test]
fn failures_of_the_outside_are_told(rt: HostRuntime) -> Result<(), Fail> {
    let alloc = rt.alloc();
    let words = ["dis", "c"];
    let read = run(
        alloc,
        &words,
        "",
        class_a().to_vec(alloc)?,
        failing(Some(0), None, None),
    )?;
    assert!(rt; matches!(read.status, Status::Outside(OutsideFault::File(0))));
    assert_eq!(rt; read.notes.as_slice(), b"joana: outside c\n".as_slice());
    let put = run(
        alloc,
        &words,
        "",
        class_a().to_vec(alloc)?,
        failing(None, Some(0), None),
    )?;
    assert!(rt; matches!(put.status, Status::Outside(OutsideFault::Output)));
    assert_eq!(rt; put.out.as_slice(), b"c".as_slice());
    let notes = run(
        alloc,
        &words,
        "",
        with_byte(alloc, 0, 0)?,
        failing(None, None, Some(0)),
    )?;
    assert!(rt; matches!(notes.status, Status::Outside(OutsideFault::Notes)));
    Ok(())
}

#[test]
fn a_check_is_refused_in_its_order(rt: HostRuntime) -> Result<(), Fail> {
    let alloc = rt.alloc();
    let words = ["check", "l", "p"];
    // the second file is at fault as the first is, and both have one name
    let faulty = run(
        alloc,
        &words,
        "c\nc\n",
        with_byte(alloc, 279, 0x62)?,
        NONE_FAILS,
    )?;
    assert_eq!(rt;
        faulty.notes.as_slice(),
        b"joana: input C11 0 279 opcode 98\n".as_slice()
    );
    // the list is at fault as a class file
    let second = run(
        alloc,
        &words,
        "c\nl\n",
        class_a().to_vec(alloc)?,
        NONE_FAILS,
    )?;
    assert_eq!(rt;
        second.notes.as_slice(),
        b"joana: input C2 1 0\n".as_slice()
    );
    let branch = run(alloc, &words, "c\n", class_a().to_vec(alloc)?, NONE_FAILS)?;
    assert_eq!(rt;
        branch.notes.as_slice(),
        b"joana: input NotBuilt\n".as_slice()
    );
    let large = run(
        alloc,
        &words,
        "c\nl\n",
        vec![in alloc; 0; 1_048_577]?,
        NONE_FAILS,
    )?;
    assert_eq!(rt; large.notes.as_slice(), b"joana: limit M2\n".as_slice());
    Ok(())
}

#[test]
fn files_are_read_before_they_are_refused(rt: HostRuntime) -> Result<(), Fail> {
    let alloc = rt.alloc();
    let large = vec![in alloc; 0; 1_048_577]?;
    let policy = run(
        alloc,
        &["check", "l", "c"],
        "p\n",
        large,
        failing(Some(1), None, None),
    )?;
    assert!(rt; matches!(policy.status, Status::Outside(OutsideFault::File(1))));
    let words = ["check", "l", "p"];
    let second_fails = failing(Some(3), None, None);
    let large = vec![in alloc; 0; 1_048_577]?;
    for class in [large, with_byte(alloc, 0, 0)?] {
        let found = run(alloc, &words, "c\nl\n", class, second_fails)?;
        assert!(rt; matches!(found.status, Status::Outside(OutsideFault::File(3))));
    }
    Ok(())
}

#[test]
fn a_policy_may_have_one_mebibyte(rt: HostRuntime) -> Result<(), Fail> {
    let alloc = rt.alloc();
    let words = ["check", "l", "c"];
    let greatest = vec![in alloc; b' '; 1_048_576]?;
    let found = run(alloc, &words, "p\n", greatest, NONE_FAILS)?;
    assert_eq!(rt; found.notes.as_slice(), b"joana: input C2 0 0\n".as_slice());
    let larger = vec![in alloc; b' '; 1_048_577]?;
    let found = run(alloc, &words, "p\n", larger, NONE_FAILS)?;
    assert_eq!(rt; found.notes.as_slice(), b"joana: limit M2\n".as_slice());
    Ok(())
}
