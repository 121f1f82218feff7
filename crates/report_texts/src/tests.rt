//! Reports by hand, and the places at which texts stop being one.
ghost use Rattle.std.specs.Prelude.{◌<◌, ◌^◌, length};

use crate::{ReadFault, ReportLine, read_report};
use dep_nodes::Word;
use std::test::Fail;

/// The place at which the text stops being a report.
fn stop_of(rt: &impl AllocGlobal, text: &[u8]) -> Option<u32>
    requires { length text.now < 2 ^ 32 }
{
    match read_report(rt.alloc(), text) {
        Err(ReadFault::Text(place)) => Some(place),
        _ => None,
    }
}

fn is_report(rt: &impl AllocGlobal, text: &[u8]) -> bool
    requires { length text.now < 2 ^ 32 }
{
    read_report(rt.alloc(), text).is_ok()
}

#[test]
fn the_lines_of_a_chain(rt: HostRuntime) -> Result<(), Fail> {
    let text =
        b"joana report 1\nrefused chain\nobserver \nfrom m [] entry\npass a/B.c:()V [string,d@7!E] poll 10 0\nend\n";
    let report = read_report(rt.alloc(), text).ok().ok_or("it is a report")?;
    let lines = report.as_slice();
    assert_eq!(rt; lines.len(), 6);
    assert!(rt; matches!(&lines[2], ReportLine::Observer(level) if level.as_slice().is_empty()));
    assert!(rt;
        matches!(&lines[3], ReportLine::From(node) if node.as_slice() == b"m [] entry".as_slice())
    );
    assert!(rt;
        matches!(&lines[4], ReportLine::Step(Word::Pass, node) if node.as_slice() == b"a/B.c:()V [string,d@7!E] poll 10 0".as_slice())
    );
    assert!(rt; matches!(&lines[5], ReportLine::End));
    Ok(())
}

#[test]
fn conflicts_are_read(rt: HostRuntime) {
    assert!(rt;
        is_report(
            &rt,
            b"joana report 1\nrefused conflict order\nobserver low\nfork m [] call 3\nin n [m@3] instr 0\nafter m [] instr 5\nend\n"
        )
    );
    // A conflict of data has two chains.
    assert_eq!(rt;
        stop_of(
            &rt,
            b"joana report 1\nrefused conflict data\nobserver low\nfork m [] call 3\nin n [m@3] instr 0\nafter m [] instr 5\nfrom n [m@3] instr 0\nend\n"
        ),
        Some(126)
    );
    assert!(rt;
        is_report(
            &rt,
            b"joana report 1\nrefused conflict data\nobserver low\nfork m [] call 3\nin n [m@3] instr 0\nafter m [] instr 5\nfrom n [m@3] instr 0\nheap n [args] value\nfrom m [] instr 5\nend\n"
        )
    );
}

#[test]
fn a_text_that_stops_too_early_stops_at_its_end(rt: HostRuntime) {
    assert_eq!(rt; stop_of(&rt, b""), Some(0));
    assert_eq!(rt; stop_of(&rt, b"joana report 1\n"), Some(15));
    assert_eq!(rt; stop_of(&rt, b"joana report 1\nrefused c"), Some(24));
    assert_eq!(rt;
        stop_of(&rt, b"joana report 1\nrefused chain\nobserver %"),
        Some(39)
    );
    assert_eq!(rt;
        stop_of(
            &rt,
            b"joana report 1\nrefused chain\nobserver l\nfrom m [] entry\nend"
        ),
        Some(59)
    );
}

#[test]
fn the_first_wrong_byte_is_found(rt: HostRuntime) {
    assert_eq!(rt; stop_of(&rt, b"joana report 2\n"), Some(13));
    assert_eq!(rt;
        stop_of(&rt, b"joana report 1\nrefused conflict both\n"),
        Some(32)
    );
    // Digits in lower case, an escape that isn't needed, and one of which no byte has the first digit.
    assert_eq!(rt;
        stop_of(&rt, b"joana report 1\nrefused chain\nobserver %c3\n"),
        Some(39)
    );
    assert_eq!(rt;
        stop_of(&rt, b"joana report 1\nrefused chain\nobserver %41\n"),
        Some(40)
    );
    assert_eq!(rt;
        stop_of(&rt, b"joana report 1\nrefused chain\nobserver %3F\n"),
        Some(39)
    );
    assert_eq!(rt;
        stop_of(&rt, b"joana report 1\nrefused chain\nobserver l\nfork"),
        Some(41)
    );
    assert_eq!(rt;
        stop_of(&rt, b"joana report 1\nrefused chain\nobserver l\nfrom  []"),
        Some(45)
    );
    assert_eq!(rt;
        stop_of(
            &rt,
            b"joana report 1\nrefused chain\nobserver l\nfrom m [strin]"
        ),
        Some(53)
    );
    assert_eq!(rt;
        stop_of(
            &rt,
            b"joana report 1\nrefused chain\nobserver l\nfrom m [args,args,"
        ),
        Some(57)
    );
    assert_eq!(rt;
        stop_of(
            &rt,
            b"joana report 1\nrefused chain\nobserver l\nfrom m [] throwm"
        ),
        Some(55)
    );
    assert_eq!(rt;
        stop_of(
            &rt,
            b"joana report 1\nrefused chain\nobserver l\nfrom m [] instr 01\n"
        ),
        Some(57)
    );
    assert_eq!(rt;
        stop_of(
            &rt,
            b"joana report 1\nrefused chain\nobserver l\nfrom m [] entry\nend\n\n"
        ),
        Some(60)
    );
}
