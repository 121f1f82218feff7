//! `check` on the worked class, whole and changed, and words that are no command.
use crate::runs::{Answer, Failing, NONE_FAILS, Stored, answer_to, changed, told};
use joana_top::{OutsideFault, Status};
use samples::{worked_class, worked_head, worked_labels, worked_report};
use std::alloc::Global;
use std::test::Fail;

const CHECK: [&str; 3] = ["check", "l", "p"];

const DONE: &str = "0 ";

const REFUSED: &str = "1 ";

const NOT_BUILT: &str = "3 joana: input NotBuilt\n";

// The class with these bytes in the place of `count` bytes.
fn edited(alloc: Global, at: usize, count: usize, bytes: &[u8]) -> Result<Vec<u8>, Fail> {
    let mut class = Vec::new(alloc);
    for (place, byte) in worked_class().iter().enumerate() {
        if place == at {
            class.extend_from_slice(bytes)?;
        }
        if place < at || place - at >= count {
            class.push(*byte)?;
        }
    }
    Ok(class)
}

fn check(alloc: Global, policy: &str, list: &str, class: Vec<u8>) -> Result<Answer, Fail> {
    let stored = Stored {
        policy,
        list,
        class,
    };
    Ok(answer_to(alloc, &CHECK, stored, NONE_FAILS)?)
}

fn good_policy(alloc: Global) -> Result<String, Fail> {
    let (head, labels) = (worked_head(), worked_labels());
    Ok(format!(in alloc; "{head}{labels}")?)
}

fn with_good_policy(alloc: Global, class: Vec<u8>) -> Result<String, Fail> {
    let policy = good_policy(alloc)?;
    let found = check(alloc, policy.as_str(), "c\n", class)?;
    told(alloc, &found)
}

// What is answered where the class has other bytes at a place.
fn with_class(alloc: Global, at: usize, count: usize, bytes: &[u8]) -> Result<String, Fail> {
    with_good_policy(alloc, edited(alloc, at, count, bytes)?)
}

fn with_policy(alloc: Global, head: &str, labels: &str, list: &str) -> Result<String, Fail> {
    let policy = format!(in alloc; "{head}{labels}")?;
    let found = check(alloc, policy.as_str(), list, edited(alloc, 0, 0, &[])?)?;
    told(alloc, &found)
}

#[test]
fn the_public_input_is_accepted(rt: HostRuntime) -> Result<(), Fail> {
    let alloc = rt.alloc();
    let policy = good_policy(alloc)?;
    let found = check(alloc, policy.as_str(), "c", edited(alloc, 0, 0, &[])?)?;
    assert!(rt; matches!(found.status, Status::Done));
    assert_eq!(rt; found.out.as_slice(), b"accepted\n".as_slice());
    assert_eq!(rt; found.notes.len(), 0);
    Ok(())
}

#[test]
fn the_secret_is_refused(rt: HostRuntime) -> Result<(), Fail> {
    let alloc = rt.alloc();
    let policy = good_policy(alloc)?;
    let found = check(
        alloc,
        policy.as_str(),
        "\r\nc\r\n\n",
        edited(alloc, 193, 1, &[0x1b])?,
    )?;
    assert!(rt; matches!(found.status, Status::Refused));
    assert_eq!(rt; found.out.as_slice(), worked_report().as_bytes());
    assert_eq!(rt; found.notes.len(), 0);
    Ok(())
}

#[test]
fn what_a_local_holds_decides(rt: HostRuntime) -> Result<(), Fail> {
    let alloc = rt.alloc();
    // secret into local 0, get into local 1, local 0 shown; then get into local 0 over it
    let swapped = [0x10u8, 0x3b, 0xb8, 0, 0x0e, 0x3c];
    assert_eq!(rt; with_class(alloc, 187, 6, &swapped)?.as_str(), REFUSED);
    let overwritten = [0x10u8, 0x3b, 0xb8, 0, 0x0e, 0x3b];
    assert_eq!(rt; with_class(alloc, 187, 6, &overwritten)?.as_str(), DONE);
    Ok(())
}

#[test]
fn levels_decide(rt: HostRuntime) -> Result<(), Fail> {
    let alloc = rt.alloc();
    let apart = "levels = [\"low\", \"high\"]\nentry = \"Main.main()V\"\n";
    assert_eq!(rt;
        with_policy(alloc, apart, worked_labels(), "c")?.as_str(),
        DONE
    );
    let high_sink =
        "[sources]\n\"Main.get()I\" = \"low\"\n\"Main.secret()I\" = \"high\"\n[sinks]\n\"Main.show(I)V\" = \"high\"\n";
    assert_eq!(rt;
        with_policy(alloc, worked_head(), high_sink, "c")?.as_str(),
        DONE
    );
    assert_eq!(rt;
        with_policy(alloc, apart, high_sink, "c")?.as_str(),
        REFUSED
    );
    Ok(())
}

#[test]
fn each_sink_has_its_level(rt: HostRuntime) -> Result<(), Fail> {
    let alloc = rt.alloc();
    // a native secret(I)V before the others
    let more = [0u8, 5, 1, 8, 0, 5, 0, 9, 0, 0];
    let sinks = "\"Main.secret(I)V\" = \"high\"\n";
    let (head, labels) = (worked_head(), worked_labels());
    let policy = format!(in alloc; "{head}{labels}{sinks}")?;
    let public = check(alloc, policy.as_str(), "c", edited(alloc, 137, 2, &more)?)?;
    assert!(rt; matches!(public.status, Status::Done));
    let turned =
        "[sources]\n\"Main.get()I\" = \"high\"\n\"Main.secret()I\" = \"low\"\n[sinks]\n\"Main.show(I)V\" = \"low\"\n";
    let policy = format!(in alloc; "{head}{turned}{sinks}")?;
    let secret = check(alloc, policy.as_str(), "c", edited(alloc, 137, 2, &more)?)?;
    assert!(rt; matches!(secret.status, Status::Refused));
    Ok(())
}

#[test]
fn other_classes_are_not_built(rt: HostRuntime) -> Result<(), Fail> {
    let alloc = rt.alloc();
    // an opcode outside plain code, a return in the middle
    assert_eq!(rt; with_class(alloc, 195, 1, &[0x68])?.as_str(), NOT_BUILT);
    assert_eq!(rt;
        with_class(alloc, 193, 3, &[0xb1, 0xb1, 0xb1])?.as_str(),
        NOT_BUILT
    );
    // athrow behind the return, and a row of the exception table that leads there
    let row = [0xbf, 0, 1, 0, 0, 0, 3, 0, 15, 0, 0];
    let longer = changed(edited(alloc, 200, 2, &row)?, 184, 16);
    assert_eq!(rt;
        with_good_policy(alloc, changed(longer, 176, 0x24))?.as_str(),
        NOT_BUILT
    );
    // a second method with code, which never runs: secret()V
    let method = [
        0u8, 5, 0, 8, 0, 5, 0, 11, 0, 1, 0, 12, 0, 0, 0, 13, 0, 0, 0, 0, 0, 0, 0, 1, 0xb1, 0, 0, 0,
        0,
    ];
    assert_eq!(rt; with_class(alloc, 137, 2, &method)?.as_str(), DONE);
    Ok(())
}

#[test]
fn faults_of_typing_are_told(rt: HostRuntime) -> Result<(), Fail> {
    let alloc = rt.alloc();
    // istore_0 of nothing, iload_1 of a local that isn't set
    assert_eq!(rt;
        with_class(alloc, 193, 1, &[0x3b])?.as_str(),
        "3 joana: input Y1 Main.main()V 8\n"
    );
    assert_eq!(rt;
        with_class(alloc, 192, 2, &[0x3b, 0x1b])?.as_str(),
        "3 joana: input Y4 Main.main()V 8\n"
    );
    // iconst_1 in the place of the return
    assert_eq!(rt;
        with_class(alloc, 199, 1, &[4])?.as_str(),
        "3 joana: input Y5 Main.main()V 14\n"
    );
    // a handler at pc 0, where the stack is empty
    let row = [0, 1, 0, 0, 0, 3, 0, 0, 0, 0];
    let caught = changed(edited(alloc, 200, 2, &row)?, 176, 0x23);
    assert_eq!(rt;
        with_good_policy(alloc, caught)?.as_str(),
        "3 joana: input Y3 Main.main()V 0\n"
    );
    // one int on the stack at most, and one local
    assert_eq!(rt;
        with_class(alloc, 178, 1, &[1])?.as_str(),
        "3 joana: input Y2 Main.main()V 9\n"
    );
    assert_eq!(rt;
        with_class(alloc, 180, 1, &[1])?.as_str(),
        "3 joana: input Y6 Main.main()V 7\n"
    );
    Ok(())
}

#[test]
fn a_class_alone_may_not_link(rt: HostRuntime) -> Result<(), Fail> {
    let alloc = rt.alloc();
    // itself as its superclass, an abstract method that is called
    assert_eq!(rt;
        with_class(alloc, 131, 2, &[0, 2])?.as_str(),
        "3 joana: input L3 Main\n"
    );
    assert_eq!(rt;
        with_class(alloc, 139, 2, &[4, 8])?.as_str(),
        "3 joana: input L5 Main\n"
    );
    Ok(())
}

#[test]
fn faulty_classes_are_refused(rt: HostRuntime) -> Result<(), Fail> {
    let alloc = rt.alloc();
    // a field with a method's descriptor, an int in the place of this class, a native method with code, a byte too many
    assert_eq!(rt;
        with_class(alloc, 135, 2, &[0, 1, 0, 8, 0, 5, 0, 6, 0, 0])?.as_str(),
        "3 joana: input C7 0 141\n"
    );
    assert_eq!(rt;
        with_class(alloc, 17, 3, &[3, 0, 0, 0, 0])?.as_str(),
        "3 joana: input C5 0 104\n"
    );
    assert_eq!(rt;
        with_class(alloc, 163, 2, &[1, 8])?.as_str(),
        "3 joana: input C8 0 163\n"
    );
    assert_eq!(rt;
        with_class(alloc, 205, 1, &[0, 0])?.as_str(),
        "3 joana: input C10 0 206\n"
    );
    Ok(())
}

#[test]
fn attributes_and_other_characters_are_taken(rt: HostRuntime) -> Result<(), Fail> {
    let alloc = rt.alloc();
    // an attribute of the class, and a character of two bytes in the name of secret
    let attribute = [0, 1, 0, 5, 0, 0, 0, 0];
    assert_eq!(rt; with_class(alloc, 204, 2, &attribute)?.as_str(), DONE);
    let labels =
        "[sources]\n\"Main.get()I\" = \"low\"\n\"Main.sec%C3%A9t()I\" = \"high\"\n[sinks]\n\"Main.show(I)V\" = \"low\"\n";
    let head = worked_head();
    let policy = format!(in alloc; "{head}{labels}")?;
    let named = check(
        alloc,
        policy.as_str(),
        "c",
        edited(alloc, 48, 2, &[0xc3, 0xa9])?,
    )?;
    assert!(rt; matches!(named.status, Status::Done));
    Ok(())
}

#[test]
fn policies_may_be_any(rt: HostRuntime) -> Result<(), Fail> {
    let alloc = rt.alloc();
    // three levels, a level that flows to itself, contexts, an observer
    let three = "levels = [\"low\", \"high\", \"top\"]\nentry = \"Main.main()V\"\n";
    assert_eq!(rt;
        with_policy(alloc, three, worked_labels(), "c")?.as_str(),
        DONE
    );
    let two =
        "levels = [\"low\", \"high\"]\nflows = [[\"low\", \"high\"], [\"low\", \"low\"]]\nentry = \"Main.main()V\"\n";
    assert_eq!(rt;
        with_policy(alloc, two, worked_labels(), "c")?.as_str(),
        DONE
    );
    let keys =
        "levels = [\"low\", \"high\"]\nentry = \"Main.main()V\"\ncontexts = \"none\"\nobservers = [\"high\"]\n";
    assert_eq!(rt;
        with_policy(alloc, keys, worked_labels(), "c")?.as_str(),
        DONE
    );
    Ok(())
}

#[test]
fn faults_of_policies_are_told(rt: HostRuntime) -> Result<(), Fail> {
    let alloc = rt.alloc();
    let head = worked_head();
    let labels = worked_labels();
    let unlabelled =
        "[sources]\n\"Main.secret()I\" = \"high\"\n[sinks]\n\"Main.show(I)V\" = \"low\"\n";
    let missing =
        "[sources]\n\"Main.get()I\" = \"low\"\n\"Main.s%()I\" = \"high\"\n[sinks]\n\"Main.show(I)V\" = \"low\"\n";
    let other_level = "[sources]\n\"Main.get()I\" = \"a b\"\n";
    for (head, labels, line) in [
        ("", "no toml", "3 joana: input P1\n"),
        ("[levels]\n", "", "3 joana: input P2 levels\n"),
        (head, other_level, "3 joana: input P3 a%20b\n"),
        (head, missing, "3 joana: input P5 Main.s%25()I\n"),
        (head, unlabelled, "3 joana: input P7 Main.get()I\n"),
    ] {
        assert_eq!(rt; with_policy(alloc, head, labels, "c")?.as_str(), line);
    }
    let cycle =
        "levels = [\"l\", \"h\"]\nflows = [[\"l\", \"h\"], [\"h\", \"l\"]]\nentry = \"Main.main()V\"\n";
    assert_eq!(rt;
        with_policy(alloc, cycle, "", "c")?.as_str(),
        "3 joana: input P4 l h\n"
    );
    let entry = "levels = [\"low\", \"high\"]\nentry = \"Main.get()I\"\n";
    assert_eq!(rt;
        with_policy(alloc, entry, labels, "c")?.as_str(),
        "3 joana: input P11\n"
    );
    // of no class nothing is labelled
    assert_eq!(rt;
        with_policy(alloc, head, labels, "\n")?.as_str(),
        "3 joana: input P5 Main.get()I\n"
    );
    Ok(())
}

// The same where a read or a put fails, with this list.
fn with_failures(
    alloc: Global,
    words: &[&str],
    failing: Failing,
    list: &str,
) -> Result<Answer, Fail> {
    let policy = good_policy(alloc)?;
    let class = edited(alloc, 0, 0, &[])?;
    let stored = Stored {
        policy: policy.as_str(),
        list,
        class,
    };
    Ok(answer_to(alloc, words, stored, failing)?)
}

// The answer of words over three good files.
fn with_words(alloc: Global, words: &[&str]) -> Result<Answer, Fail> {
    with_failures(alloc, words, NONE_FAILS, "c")
}

#[test]
fn other_words_are_no_command(rt: HostRuntime) -> Result<(), Fail> {
    let alloc = rt.alloc();
    assert_eq!(rt;
        with_words(alloc, &[])?.notes.as_slice(),
        b"joana: words\n".as_slice()
    );
    assert!(rt; matches!(with_words(alloc, &["check", "l"])?.status, Status::Words));
    assert!(rt;
        matches!(
            with_words(alloc, &["check", "l", "p", "c"])?.status,
            Status::Words
        )
    );
    assert!(rt;
        matches!(
            with_words(alloc, &["Check", "l", "p"])?.status,
            Status::Words
        )
    );
    assert!(rt;
        matches!(
            with_words(alloc, &["check", "l", "p"])?.status,
            Status::Done
        )
    );
    Ok(())
}

fn failing(read: Option<u32>, out: bool, notes: bool) -> Failing {
    Failing {
        read,
        out: if out { Some(0) } else { None },
        notes: if notes { Some(0) } else { None },
    }
}

#[test]
fn failures_of_the_outside_are_told(rt: HostRuntime) -> Result<(), Fail> {
    let alloc = rt.alloc();
    let policy = with_failures(alloc, &CHECK, failing(Some(0), false, false), "c")?;
    assert!(rt; matches!(policy.status, Status::Outside(OutsideFault::File(0))));
    assert_eq!(rt; policy.notes.as_slice(), b"joana: outside p\n".as_slice());
    let list = with_failures(alloc, &CHECK, failing(Some(1), false, true), "c")?;
    assert!(rt; matches!(list.status, Status::Outside(OutsideFault::File(1))));
    let class = with_failures(alloc, &CHECK, failing(Some(2), false, false), "c")?;
    assert_eq!(rt; class.notes.as_slice(), b"joana: outside c\n".as_slice());
    let second = with_failures(alloc, &CHECK, failing(Some(3), false, false), "c\nc")?;
    assert!(rt; matches!(second.status, Status::Outside(OutsideFault::File(3))));
    let out = with_failures(alloc, &CHECK, failing(None, true, false), "c")?;
    assert!(rt; matches!(out.status, Status::Outside(OutsideFault::Output)));
    assert_eq!(rt; out.out.as_slice(), b"a".as_slice());
    assert_eq!(rt; out.notes.as_slice(), b"joana: outside output\n".as_slice());
    let notes = with_failures(alloc, &CHECK, failing(None, false, true), "c\nc")?;
    assert!(rt; matches!(notes.status, Status::Outside(OutsideFault::Notes)));
    Ok(())
}
