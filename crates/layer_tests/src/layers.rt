//! A policy is read, methods and nodes are spelled, the class is typed and run.
use crate::given::{add, gives, plain, shown};
use chain_report::nodes::push_node;
use class_read::read_class;
use dep_nodes::{NodeKind, NodeName, SiteList};
use hierarchy::{Hierarchy, has_its_parents};
use jo_ids::{Id, List, Memory};
use jo_policy::{Policy, PolicyFault, read_policy};
use jo_prog::jvm_typing::{is_plain, is_typed};
use jo_prog::labels::Labels;
use jo_prog::program::Program;
use jo_prog::runner::run;
use jo_prog::runs::Inputs;
use jo_prog::spelling::push_method;
use linker::link;
use samples::worked_class;
use std::alloc::Global;
use std::process::Abort;
use std::test::Fail;

// Behind the 47 methods of the prelude stand Main's: secret, get, show and main.
fn program(alloc: Global) -> Result<Option<Program>, Memory> {
    let mut classes = Vec::new(alloc);
    match read_class(alloc, worked_class()) {
        Ok(class) => classes.push(class)?,
        Err(_) => return Ok(None),
    }
    Ok(link(alloc, classes).ok())
}

const LEVELS: &str = "levels = [\"low\", \"high\"]";

const FLOWS: &str = "flows = [[\"low\", \"high\"]]";

const ENTRY: &str = "entry = \"Main.main()V\"";

const SOURCES: &str = "\"Main.secret()I\" = \"high\"\n\"Main.get()I\" = \"low\"";

const SINKS: &str = "\"Main.show(I)V\" = \"low\"";

// The policy that a text gives the program, which has 24 classes and 51 methods; none where it has a fault.
fn read(
    rt: &impl Abort,
    alloc: Global,
    text: &[u8],
    program: &Program,
) -> Result<Option<Policy>, Fail> {
    assert_eq!(rt; program.classes.as_slice().len(), 24);
    assert_eq!(rt; program.methods.as_slice().len(), 51);
    if !has_its_parents(program) {
        return Err(Fail::from("a parent is missing"));
    }
    let Ok(hierarchy) = Hierarchy::build(alloc, program) else {
        return Err(Fail::from("no hierarchy"));
    };
    match read_policy(alloc, text, program, &hierarchy) {
        Ok(policy) => Ok(Some(policy)),
        Err(PolicyFault::Memory) => Err(Fail::from("no memory")),
        Err(_) => Ok(None),
    }
}

// A policy with these labels: get gives low ints, secret high ones, and show takes low ones.
fn small_policy(rt: &impl Abort, alloc: Global, program: &Program) -> Result<Policy, Fail> {
    let text = format!(in alloc;
        "{LEVELS}\n{FLOWS}\n{ENTRY}\n[sources]\n{SOURCES}\n[sinks]\n{SINKS}\n"
    )?;
    match read(rt, alloc, text.as_bytes(), program)? {
        Some(policy) => Ok(policy),
        None => Err(Fail::from("no policy")),
    }
}

#[test]
fn a_small_policy_is_read(rt: HostRuntime) -> Result<(), Fail> {
    let alloc = rt.alloc();
    let program = program(alloc)?.ok_or("a class")?;
    let policy = small_policy(&rt, alloc, &program)?;
    let labels = policy.labels();
    assert_eq!(rt; labels.levels.as_slice().len(), 2);
    assert_eq!(rt; labels.flows.as_slice(), [(0u32, 1u32)].as_slice());
    assert_eq!(rt; labels.observers.as_slice().len(), 2);
    assert_eq!(rt; labels.entry.number(), 50);
    let wanted = [(47u32, "source", 1u32), (48, "source", 0), (49, "sink", 0)];
    assert_eq!(rt; labels.labelled.as_slice().len(), wanted.len());
    for (item, wanted) in labels.labelled.as_slice().iter().zip(wanted.iter()) {
        let (number, word, level) = plain(item);
        assert_eq!(rt; number, wanted.0);
        assert_eq!(rt; word, wanted.1);
        assert_eq!(rt; level, wanted.2);
    }
    Ok(())
}

#[test]
fn a_policy_with_a_fault_is_none(rt: HostRuntime) -> Result<(), Fail> {
    let alloc = rt.alloc();
    let program = program(alloc)?.ok_or("a class")?;
    for (fault, levels, flows, entry, sources, sinks) in [
        (
            "levels that flow to each other",
            LEVELS,
            "flows = [[\"low\", \"high\"], [\"high\", \"low\"]]",
            ENTRY,
            SOURCES,
            SINKS,
        ),
        (
            "an unknown key",
            LEVELS,
            "flows = []\nreleases = []",
            ENTRY,
            SOURCES,
            SINKS,
        ),
        ("no levels", "levels = []", "flows = []", ENTRY, "", ""),
        (
            "a level twice",
            "levels = [\"low\", \"low\"]",
            "flows = []",
            ENTRY,
            "\"Main.secret()I\" = \"low\"\n\"Main.get()I\" = \"low\"",
            SINKS,
        ),
        (
            "an unknown level",
            LEVELS,
            FLOWS,
            ENTRY,
            "\"Main.secret()I\" = \"top\"\n\"Main.get()I\" = \"low\"",
            SINKS,
        ),
        (
            "a missing method",
            LEVELS,
            FLOWS,
            ENTRY,
            SOURCES,
            "\"Main.show(I)V\" = \"low\"\n\"Main.none(I)V\" = \"low\"",
        ),
        (
            "a method in both tables",
            LEVELS,
            FLOWS,
            ENTRY,
            SOURCES,
            "\"Main.show(I)V\" = \"low\"\n\"Main.get()I\" = \"low\"",
        ),
        (
            "a sink with a result",
            LEVELS,
            FLOWS,
            ENTRY,
            "\"Main.secret()I\" = \"high\"",
            "\"Main.show(I)V\" = \"low\"\n\"Main.get()I\" = \"low\"",
        ),
        ("an unlabelled native", LEVELS, FLOWS, ENTRY, SOURCES, ""),
        (
            "an entry that is native",
            LEVELS,
            FLOWS,
            "entry = \"Main.get()I\"",
            SOURCES,
            SINKS,
        ),
        ("no TOML", "levels = [", FLOWS, ENTRY, SOURCES, SINKS),
    ] {
        let text = format!(in alloc;
            "{levels}\n{flows}\n{entry}\n[sources]\n{sources}\n[sinks]\n{sinks}\n"
        )?;
        assert!(rt;
            read(&rt, alloc, text.as_bytes(), &program)?.is_none(),
            "{fault}"
        );
    }
    assert!(rt;
        read(&rt, alloc, b"levels = [\"\xff\"]".as_slice(), &program)?.is_none(),
        "no UTF-8"
    );
    Ok(())
}

#[test]
fn methods_and_nodes_are_spelled(rt: HostRuntime) -> Result<(), Fail> {
    let alloc = rt.alloc();
    let program = program(alloc)?.ok_or("a class")?;
    for (number, wanted) in [
        (0, "java/lang/Object.<init>()V"),
        (49, "Main.show(I)V"),
        (50, "Main.main()V"),
        (60, ""),
    ] {
        let mut text = Vec::new(alloc);
        push_method(&mut text, &program, Id::of(number))?;
        assert_eq!(rt; text.as_slice(), wanted.as_bytes(), "method {number}");
    }
    for (kind, wanted) in [
        (NodeKind::Entry, "Main.main()V [] entry"),
        (NodeKind::Exit, "Main.main()V [] "),
        (NodeKind::RetVal(30), "Main.main()V [] retval 30"),
        (NodeKind::Arg(7, 0), "Main.main()V [] arg 7 0"),
        (NodeKind::Thrown, "Main.main()V [] thrown"),
    ] {
        let name = NodeName {
            method: Id::of(50),
            sites: SiteList {
                len: 0,
                first: Id::of(0),
                second: Id::of(0),
            },
            kind,
            resolved: None,
        };
        let mut text = Vec::new(alloc);
        push_node(alloc, &mut text, &program, &name)?;
        assert_eq!(rt; text.as_slice(), wanted.as_bytes());
    }
    Ok(())
}

// What a run shows where get gives the int, if there is one, and secret gives 7, and whether it ended.
fn outcome(
    alloc: Global,
    program: &Program,
    labels: &Labels,
    got: Option<i32>,
    schedule: &[u32],
) -> Result<(Option<(u32, i32)>, bool), Fail> {
    let mut inputs: Inputs = List::new(alloc);
    add(&mut inputs, gives(alloc, 48, got)?)?;
    add(&mut inputs, gives(alloc, 47, Some(7))?)?;
    let trace = run(alloc, program, labels, &inputs, schedule)?;
    let shown = shown(&trace).ok_or("more than one event, or a release")?;
    Ok((shown, trace.ended))
}

#[test]
fn a_class_is_typed(rt: HostRuntime) -> Result<(), Fail> {
    let alloc = rt.alloc();
    let program = program(alloc)?.ok_or("a class")?;
    let policy = small_policy(&rt, alloc, &program)?;
    let labels = policy.labels();
    assert!(rt; is_plain(&program, labels));
    assert!(rt; is_typed(alloc, &program, labels)?);
    Ok(())
}

#[test]
fn a_class_is_run(rt: HostRuntime) -> Result<(), Fail> {
    let alloc = rt.alloc();
    let program = program(alloc)?.ok_or("a class")?;
    let policy = small_policy(&rt, alloc, &program)?;
    let labels = policy.labels();
    let numbers = [0, 7, 1, 4294967295, 2, 0, 3, 5, 0];
    assert_eq!(rt;
        outcome(alloc, &program, labels, Some(5), &numbers)?,
        (Some((49, 6)), true)
    );
    assert_eq!(rt;
        outcome(alloc, &program, labels, Some(5), &numbers[..7])?,
        (None, false)
    );
    assert_eq!(rt;
        outcome(alloc, &program, labels, Some(5), &numbers[..8])?,
        (Some((49, 6)), false)
    );
    assert_eq!(rt;
        outcome(alloc, &program, labels, Some(5), &[9; 12])?,
        (Some((49, 6)), true)
    );
    assert_eq!(rt;
        outcome(alloc, &program, labels, Some(i32::MAX), &numbers)?,
        (Some((49, i32::MIN)), true)
    );
    assert_eq!(rt;
        outcome(alloc, &program, labels, None, &numbers)?,
        (Some((49, 1)), true)
    );
    Ok(())
}
