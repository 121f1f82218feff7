//! Run files of one small program.
use crate::{RunFileFault, read_run};
use hierarchy::{Hierarchy, has_its_parents};
use jo_ids::{Id, List, Memory};
use jo_policy::{Policy, PolicyFault, read_policy};
use jo_prog::lists::add;
use jo_prog::program::{Class, Code, Method, Program};
use jo_text::Name;
use std::alloc::Global;
use std::test::Fail;

fn name(alloc: Global, text: &str) -> Result<Name, Memory> {
    let mut name = Name::new(alloc);
    name.append(text.as_bytes())?;
    Ok(name)
}

fn empty_code(alloc: Global) -> Code {
    Code {
        max_stack: 0,
        max_locals: 0,
        bytes: Name::new(alloc),
        rows: List::new(alloc),
    }
}

/// A static method, native where it has no code.
fn method(alloc: Global, called: &str, desc: &str, code: Option<Code>) -> Result<Method, Memory> {
    let flags = if code.is_some() { 0x0008 } else { 0x0108 };
    Ok(Method {
        class: Id::of(0),
        name: name(alloc, called)?,
        desc: name(alloc, desc)?,
        flags,
        code,
    })
}

/// One class with a source, a sink and an entry.
fn program(alloc: Global) -> Result<Program, Memory> {
    let mut methods = List::new(alloc);
    add(&mut methods, method(alloc, "get", "()I", None)?)?;
    add(&mut methods, method(alloc, "put", "(I)V", None)?)?;
    add(
        &mut methods,
        method(alloc, "main", "()V", Some(empty_code(alloc)))?,
    )?;
    let own = Class {
        name: name(alloc, "A")?,
        flags: 0,
        superclass: None,
        interfaces: List::new(alloc),
        fields: List::new(alloc),
        methods: List::new(alloc),
        operands: List::new(alloc),
    };
    let mut classes = List::new(alloc);
    add(&mut classes, own)?;
    Program::build(alloc, classes, List::new(alloc), methods)
}

/// What a policy's text gives to a program.
fn read(alloc: Global, program: &Program, text: &[u8]) -> Result<Policy, PolicyFault> {
    if program.methods.as_slice().len() > 100 {
        return Err(PolicyFault::Memory);
    }
    if program.classes.as_slice().len() > 100 {
        return Err(PolicyFault::Memory);
    }
    if !has_its_parents(program) {
        return Err(PolicyFault::Memory);
    }
    let Ok(hierarchy) = Hierarchy::build(alloc, program) else {
        return Err(PolicyFault::Memory);
    };
    read_policy(alloc, text, program, &hierarchy)
}

const POLICY: &str =
    "levels = ['low']\nentry = 'A.main()V'\n[sources]\n'A.get()I' = 'low'\n[sinks]\n'A.put(I)V' = 'low'\n";

/// What a run file is told: the number of its fault, 0 where it has none, and how long its inputs and its schedule are.
fn planned(alloc: Global, text: &str) -> Result<(u32, usize, usize), Memory> {
    let program = program(alloc)?;
    let policy = match read(alloc, &program, POLICY.as_bytes()) {
        Ok(policy) => policy,
        Err(_) => return Err(Memory),
    };
    if program.methods.as_slice().len() > 100 {
        return Err(Memory);
    }
    match read_run(alloc, text.as_bytes(), &program, &policy) {
        Ok(plan) => Ok((
            0,
            plan.inputs.as_slice().len(),
            plan.schedule.as_slice().len(),
        )),
        Err(RunFileFault::NotToml) => Ok((1, 0, 0)),
        Err(RunFileFault::Key) => Ok((2, 0, 0)),
        Err(RunFileFault::Source) => Ok((3, 0, 0)),
        Err(RunFileFault::Range) => Ok((4, 0, 0)),
        Err(RunFileFault::Memory) => Err(Memory),
    }
}

#[test]
fn run_files_are_read(rt: HostRuntime) -> Result<(), Fail> {
    let alloc = rt.alloc();
    assert_eq!(rt;
        planned(
            alloc,
            "steps = 10000000\nschedule = [0, 2147483647]\n[inputs]\n'A.get()I' = [-2147483648]\n"
        )?,
        (0, 1, 2)
    );
    assert_eq!(rt; planned(alloc, "steps = 1\nsteps = 2\n")?, (1, 0, 0));
    assert_eq!(rt; planned(alloc, "steps = 9223372036854775808\n")?, (1, 0, 0));
    assert_eq!(rt; planned(alloc, "steps = -1\ninputs = 1\n")?, (2, 0, 0));
    assert_eq!(rt; planned(alloc, "schedule = [-1]\n")?, (2, 0, 0));
    assert_eq!(rt;
        planned(alloc, "steps = -1\n[inputs]\n'A.put(I)V' = []\n")?,
        (3, 0, 0)
    );
    assert_eq!(rt;
        planned(alloc, "steps = 0\n[inputs]\n'A.set()I' = [2147483648]\n")?,
        (3, 0, 0)
    );
    assert_eq!(rt; planned(alloc, "steps = 10000001\n")?, (4, 0, 0));
    assert_eq!(rt;
        planned(alloc, "steps = 0\n[inputs]\n'A.get()I' = [2147483648]\n")?,
        (4, 0, 0)
    );
    Ok(())
}
