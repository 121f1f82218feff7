//! `check` on lists of many class files.
use crate::runs::{Answer, NONE_FAILS, Stored, answer_over, answer_to, told};
use samples::{worked_class, worked_head, worked_labels};
use std::alloc::Global;
use std::test::Fail;

/// A class with a field, a method without code, and none that may be run.
const BOX: &str = "class Box super java/lang/Object flags 0x0421
field v I flags 0x0001
method get ()I flags 0x0401
";

/// It is above itself.
const LOOP: &str = "class Loop super Loop flags 0x0021\n";

/// It has a class initializer. Its name is B#x.
const INIT: &str = "class B%23x super java/lang/Object flags 0x0021
method <clinit> ()V flags 0x0008 stack 0 locals 0
return
end
";

/// Its superclass isn't there.
const NEEDY: &str = "class Needy super Gone flags 0x0021\n";

/// Two ways lead to pc 6, with different heights of the stack. A later method pops what isn't there.
const HEIGHTS: &str = "class Main super java/lang/Object flags 0x0021
method main ()V flags 0x0009 stack 2 locals 0
iconst_1
iconst_0
ifeq L
iconst_2
L:
pop
return
end
method next ()V flags 0x0009 stack 1 locals 0
pop
return
end
";

/// The class file of a text.
fn class_of(alloc: Global, text: &str) -> Result<Vec<u8>, Fail> {
    let stored = Stored {
        policy: "",
        list: "",
        class: text.as_bytes().to_vec(alloc)?,
    };
    let made = answer_to(alloc, &["asm", "c"], stored, NONE_FAILS)?;
    Ok(made.out)
}

/// What `check` answers over this list. Its paths may be Main, Box, Loop, Init, Needy and Heights.
fn check(alloc: Global, list: &[u8]) -> Result<Answer, Fail> {
    let (head, labels) = (worked_head(), worked_labels());
    let policy = format!(in alloc; "{head}{labels}")?;
    let mut pairs = Vec::new(alloc);
    pairs.push(("p".to_string(alloc)?, policy.as_bytes().to_vec(alloc)?))?;
    pairs.push(("l".to_string(alloc)?, list.to_vec(alloc)?))?;
    pairs.push(("Main".to_string(alloc)?, worked_class().to_vec(alloc)?))?;
    pairs.push(("Box".to_string(alloc)?, class_of(alloc, BOX)?))?;
    pairs.push(("Loop".to_string(alloc)?, class_of(alloc, LOOP)?))?;
    pairs.push(("Init".to_string(alloc)?, class_of(alloc, INIT)?))?;
    pairs.push(("Needy".to_string(alloc)?, class_of(alloc, NEEDY)?))?;
    pairs.push(("Heights".to_string(alloc)?, class_of(alloc, HEIGHTS)?))?;
    Ok(answer_over(alloc, &["check", "l", "p"], pairs, NONE_FAILS)?)
}

/// The code of the status and the notes.
fn told_of(alloc: Global, list: &[u8]) -> Result<String, Fail> {
    told(alloc, &check(alloc, list)?)
}

/// A list of so many lines.
fn repeated(alloc: Global, line: &[u8], count: usize) -> Result<Vec<u8>, Fail> {
    let mut list = Vec::new(alloc);
    for _ in 0..count {
        list.extend_from_slice(line)?;
    }
    Ok(list)
}

#[test]
fn two_classes_are_accepted(rt: HostRuntime) -> Result<(), Fail> {
    let alloc = rt.alloc();
    for list in ["Main\nBox\n", "Box\r\n\nMain"] {
        let found = check(alloc, list.as_bytes())?;
        assert_eq!(rt; told(alloc, &found)?.as_str(), "0 ");
        assert_eq!(rt; found.out.as_slice(), b"accepted\n".as_slice());
    }
    Ok(())
}

#[test]
fn faults_of_linking_are_told(rt: HostRuntime) -> Result<(), Fail> {
    let alloc = rt.alloc();
    assert_eq!(rt;
        told_of(alloc, b"Box\nBox\n")?.as_str(),
        "3 joana: input L1 Box\n"
    );
    assert_eq!(rt;
        told_of(alloc, b"Needy\n")?.as_str(),
        "3 joana: input L2 Needy\n"
    );
    assert_eq!(rt;
        told_of(alloc, b"Main\nLoop\n")?.as_str(),
        "3 joana: input L3 Loop\n"
    );
    assert_eq!(rt;
        told_of(alloc, b"Init\nMain\n")?.as_str(),
        "3 joana: input L7 B%23x\n"
    );
    Ok(())
}

#[test]
fn the_first_kind_of_fault_is_told(rt: HostRuntime) -> Result<(), Fail> {
    let alloc = rt.alloc();
    assert_eq!(rt;
        told_of(alloc, b"Init\nLoop\n")?.as_str(),
        "3 joana: input L3 Loop\n"
    );
    assert_eq!(rt;
        told_of(alloc, b"Loop\nNeedy\n")?.as_str(),
        "3 joana: input L2 Needy\n"
    );
    assert_eq!(rt;
        told_of(alloc, b"Needy\nMain\nMain\n")?.as_str(),
        "3 joana: input L1 Main\n"
    );
    // a file that is no class comes before them
    assert_eq!(rt;
        told_of(alloc, b"Loop\np\n")?.as_str(),
        "3 joana: input C2 1 0\n"
    );
    Ok(())
}

#[test]
fn the_first_method_with_a_fault_is_told(rt: HostRuntime) -> Result<(), Fail> {
    let alloc = rt.alloc();
    // before the policy, which names methods that aren't there
    assert_eq!(rt;
        told_of(alloc, b"Heights\n")?.as_str(),
        "3 joana: input Y3 Main.main()V 6\n"
    );
    // behind a fault of linking
    assert_eq!(rt;
        told_of(alloc, b"Heights\nLoop\n")?.as_str(),
        "3 joana: input L3 Loop\n"
    );
    Ok(())
}

#[test]
fn a_list_is_text(rt: HostRuntime) -> Result<(), Fail> {
    let alloc = rt.alloc();
    assert_eq!(rt;
        told_of(alloc, b"\xff\n")?.as_str(),
        "3 joana: input B1 0\n"
    );
    assert_eq!(rt;
        told_of(alloc, b"Main\n\xc3(")?.as_str(),
        "3 joana: input B1 6\n"
    );
    // a list without a path is one, but no method of the policy is in its program
    assert_eq!(rt;
        told_of(alloc, b"\n")?.as_str(),
        "3 joana: input P5 Main.get()I\n"
    );
    Ok(())
}

#[test]
fn a_list_may_have_512_paths(rt: HostRuntime) -> Result<(), Fail> {
    let alloc = rt.alloc();
    let most = repeated(alloc, b"Box\n", 512)?;
    assert_eq!(rt;
        told_of(alloc, most.as_slice())?.as_str(),
        "3 joana: input L1 Box\n"
    );
    // one more, and the files aren't looked for
    let more = repeated(alloc, b"gone\n", 513)?;
    assert_eq!(rt;
        told_of(alloc, more.as_slice())?.as_str(),
        "4 joana: limit M1\n"
    );
    // a list that is no text has no paths
    let mut no_text = more;
    no_text.push(0xff)?;
    assert_eq!(rt;
        told_of(alloc, no_text.as_slice())?.as_str(),
        "3 joana: input B1 2565\n"
    );
    Ok(())
}
