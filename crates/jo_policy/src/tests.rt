//! Policies of one small program.
use crate::{LevelFault, Policy, PolicyFault, read_policy};
use hierarchy::{Hierarchy, has_its_parents};
use jo_ids::{Id, List, Memory};
use jo_prog::lists::add;
use jo_prog::program::{Class, Code, MemberRef, Method, Operand, Program, TypeRef};
use jo_text::Name;
use std::alloc::Global;
use std::test::Fail;

fn name(alloc: Global, text: &str) -> Result<Name, Memory> {
    let mut name = Name::new(alloc);
    name.append(text.as_bytes())?;
    Ok(name)
}

fn empty_code(alloc: Global) -> Code {
    Code {
        max_stack: 0,
        max_locals: 0,
        bytes: Name::new(alloc),
        rows: List::new(alloc),
    }
}

/// A static method, native where it has no code.
fn method(alloc: Global, called: &str, desc: &str, code: Option<Code>) -> Result<Method, Memory> {
    let flags = if code.is_some() { 0x0008 } else { 0x0108 };
    Ok(Method {
        class: Id::of(0),
        name: name(alloc, called)?,
        desc: name(alloc, desc)?,
        flags,
        code,
    })
}

fn class(
    alloc: Global,
    called: &str,
    superclass: Option<u32>,
    methods: &[u32],
) -> Result<Class, Memory> {
    let mut numbers = List::new(alloc);
    for method in methods {
        add(&mut numbers, Id::of(*method))?;
    }
    Ok(Class {
        name: name(alloc, called)?,
        flags: 0,
        superclass: match superclass {
            Some(superclass) => Some(Id::of(superclass)),
            None => None,
        },
        interfaces: List::new(alloc),
        fields: List::new(alloc),
        methods: numbers,
        operands: List::new(alloc),
    })
}

/// One class with a source, a sink, a release and two entries.
fn program(alloc: Global) -> Result<Program, Memory> {
    let mut methods = List::new(alloc);
    add(&mut methods, method(alloc, "get", "()I", None)?)?;
    add(&mut methods, method(alloc, "put", "(I)V", None)?)?;
    add(&mut methods, method(alloc, "r%l", "(I)I", None)?)?;
    add(
        &mut methods,
        method(alloc, "main", "()V", Some(empty_code(alloc)))?,
    )?;
    add(
        &mut methods,
        method(
            alloc,
            "with",
            "([Ljava/lang/String;)V",
            Some(empty_code(alloc)),
        )?,
    )?;
    let mut classes = List::new(alloc);
    add(&mut classes, class(alloc, "A", None, &[])?)?;
    Program::build(alloc, classes, List::new(alloc), methods)
}

fn thread_member(alloc: Global, owner: u32, called: &str) -> Result<Operand, Memory> {
    Ok(Operand::Member(MemberRef {
        owner: TypeRef::Class(Id::of(owner)),
        name: name(alloc, called)?,
        desc: name(alloc, "()V")?,
    }))
}

/// A class below Thread with a native method of this descriptor, and a method that calls a member of a class with this opcode. Class 0 is
/// java/lang/Object, 3 Thread, 4 the class itself and 5 one with a method `start` of its own.
fn with_call(
    alloc: Global,
    desc: &str,
    op: u8,
    owner: u32,
    called: &str,
) -> Result<Program, Memory> {
    let mut methods = List::new(alloc);
    let start = Method {
        class: Id::of(3),
        name: name(alloc, "start")?,
        desc: name(alloc, "()V")?,
        flags: 1,
        code: None,
    };
    add(&mut methods, start)?;
    let mut native = method(alloc, "r", desc, None)?;
    native.class = Id::of(4);
    add(&mut methods, native)?;
    let mut bytes = Name::new(alloc);
    bytes.append(&[0, op, 0, 1, 177])?;
    let code = Code {
        max_stack: 1,
        max_locals: 1,
        bytes,
        rows: List::new(alloc),
    };
    let mut main = method(alloc, "main", "()V", Some(code))?;
    main.class = Id::of(4);
    add(&mut methods, main)?;
    let mut other = method(alloc, "start", "()V", Some(empty_code(alloc)))?;
    other.class = Id::of(5);
    other.flags = 1;
    add(&mut methods, other)?;
    let mut classes = List::new(alloc);
    add(&mut classes, class(alloc, "java/lang/Object", None, &[])?)?;
    add(
        &mut classes,
        class(alloc, "java/lang/String", Some(0), &[])?,
    )?;
    add(
        &mut classes,
        class(alloc, "java/lang/Runnable", Some(0), &[])?,
    )?;
    add(
        &mut classes,
        class(alloc, "java/lang/Thread", Some(0), &[0])?,
    )?;
    let mut own = class(alloc, "A", Some(3), &[1, 2])?;
    add(&mut own.operands, Operand::Unused)?;
    add(&mut own.operands, thread_member(alloc, owner, called)?)?;
    add(&mut classes, own)?;
    add(&mut classes, class(alloc, "B", Some(3), &[3])?)?;
    Program::build(alloc, classes, List::new(alloc), methods)
}

/// The number of a fault.
fn code_of(fault: &PolicyFault) -> u32 {
    match fault {
        PolicyFault::NotToml => 1,
        PolicyFault::Key(_) => 2,
        PolicyFault::UnknownLevel(_) => 3,
        PolicyFault::Order(_) => 4,
        PolicyFault::MissingMethod(_) => 5,
        PolicyFault::WrongShape(_) => 6,
        PolicyFault::UnlabelledNative(_) => 7,
        PolicyFault::TwiceLabelled(_) => 8,
        PolicyFault::ReleaseUpward(_) => 9,
        PolicyFault::ReleaseWithThreads(_, _) => 10,
        PolicyFault::Entry => 11,
        PolicyFault::Memory => 12,
    }
}

/// The number of the method that a fault carries.
fn method_of(fault: &PolicyFault) -> Option<u32> {
    match fault {
        PolicyFault::WrongShape(method) => Some(method.number()),
        PolicyFault::UnlabelledNative(method) => Some(method.number()),
        PolicyFault::TwiceLabelled(method) => Some(method.number()),
        PolicyFault::ReleaseUpward(method) => Some(method.number()),
        PolicyFault::ReleaseWithThreads(method, _) => Some(method.number()),
        _ => None,
    }
}

/// The name that a fault carries; of a method the digit of its number.
fn text_of(fault: &PolicyFault) -> &[u8] {
    match fault {
        PolicyFault::Key(name) => name.as_slice(),
        PolicyFault::UnknownLevel(name) => name.as_slice(),
        PolicyFault::Order(LevelFault::Twice(name)) => name.as_slice(),
        PolicyFault::Order(LevelFault::Cycle(low, _)) => low.as_slice(),
        PolicyFault::MissingMethod(name) => name.as_slice(),
        _ => digit(method_of(fault)),
    }
}

fn digit(method: Option<u32>) -> &'static [u8] {
    match method {
        None => "".as_bytes(),
        Some(0) => "0".as_bytes(),
        Some(1) => "1".as_bytes(),
        Some(2) => "2".as_bytes(),
        Some(_) => "more".as_bytes(),
    }
}

fn joined(alloc: Global, head: &str, tables: &str) -> Result<Vec<u8>, Memory> {
    let mut text = Vec::new(alloc);
    text.extend_from_slice(head.as_bytes())?;
    text.extend_from_slice(tables.as_bytes())?;
    Ok(text)
}

/// What a policy's text gives to a program.
fn read(alloc: Global, program: &Program, text: &[u8]) -> Result<Policy, PolicyFault> {
    if program.methods.as_slice().len() > 100 {
        return Err(PolicyFault::Memory);
    }
    if program.classes.as_slice().len() > 100 {
        return Err(PolicyFault::Memory);
    }
    if !has_its_parents(program) {
        return Err(PolicyFault::Memory);
    }
    let Ok(hierarchy) = Hierarchy::build(alloc, program) else {
        return Err(PolicyFault::Memory);
    };
    read_policy(alloc, text, program, &hierarchy)
}

/// Whether a policy's text is told this fault with this text, 0 where it has none.
fn is_told_of(
    alloc: Global,
    program: &Program,
    policy: &[u8],
    code: u32,
    text: &str,
) -> Result<bool, Memory> {
    Ok(match read(alloc, program, policy) {
        Ok(_) => code == 0,
        Err(fault) => code_of(&fault) == code && text_of(&fault) == text.as_bytes(),
    })
}

fn is_told(alloc: Global, head: &str, tables: &str, code: u32, text: &str) -> Result<bool, Memory> {
    let program = program(alloc)?;
    let policy = joined(alloc, head, tables)?;
    is_told_of(alloc, &program, policy.as_slice(), code, text)
}

const HEAD: &str =
    "levels = ['low', 'mid', 'top']\nflows = [['low', 'mid'], ['mid', 'top']]\nentry = 'A.main()V'\n";

const TABLES: &str =
    "[sources]\n'A.get()I' = 'top'\n[sinks]\n'A.put(I)V' = 'low'\n[releases]\n'A.r%25l(I)I' = { from = 'top', to = 'low' }\n";

#[test]
fn policies_are_read(rt: HostRuntime) -> Result<(), Fail> {
    let alloc = rt.alloc();
    assert!(rt; is_told(alloc, HEAD, TABLES, 0, "")?);
    let keys =
        "observers = ['top', 'low', 'top']\nentry = 'A.with([Ljava/lang/String;)V'\ncontexts = 'object2'\nlevels = ['top', 'low']\nflows = [['low', 'top']]\n";
    assert!(rt; is_told(alloc, keys, TABLES, 0, "")?);
    assert!(rt; is_told(alloc, "= 1\n", TABLES, 1, "")?);
    assert!(rt; is_told(alloc, HEAD, "x = 99999999999999999999\n", 1, "")?);
    Ok(())
}

#[test]
fn keys_are_told_in_order(rt: HostRuntime) -> Result<(), Fail> {
    let alloc = rt.alloc();
    assert!(rt; is_told(alloc, "", TABLES, 2, "levels")?);
    assert!(rt; is_told(alloc, "levels = []\nflows = 1\n", TABLES, 2, "levels")?);
    assert!(rt;
        is_told(
            alloc,
            "z = 1\nlevels = ['a']\nflows = [['a']]\n",
            "",
            2,
            "flows"
        )?
    );
    assert!(rt;
        is_told(
            alloc,
            "z = 1\nlevels = ['a']\nobservers = []\n",
            "",
            2,
            "observers"
        )?
    );
    assert!(rt;
        is_told(
            alloc,
            "levels = ['a']\ncontexts = 'object3'\n",
            "",
            2,
            "contexts"
        )?
    );
    assert!(rt;
        is_told(
            alloc,
            "z = 1\nb = 1\nlevels = ['a', 'a']\nentry = 'e'\n",
            "",
            2,
            "b"
        )?
    );
    assert!(rt; is_told(alloc, HEAD, "[sources]\nm = 1\n", 2, "m")?);
    assert!(rt; is_told(alloc, HEAD, "[releases.m]\nfrom = 'low'\nby = 1\n", 2, "to")?);
    Ok(())
}

#[test]
fn levels_are_told_in_order(rt: HostRuntime) -> Result<(), Fail> {
    let alloc = rt.alloc();
    let twice = "levels = ['a', 'b', 'b', 'a']\nentry = 'e'\n[sinks]\nm = 'c'\n";
    assert!(rt; is_told(alloc, twice, "", 4, "b")?);
    let unknown =
        "levels = ['a', 'b']\nflows = [['a', 'b'], ['b', 'a']]\nentry = 'e'\n[sinks]\nm = 'c'\n";
    assert!(rt; is_told(alloc, unknown, "", 3, "c")?);
    assert!(rt;
        is_told(
            alloc,
            "levels = ['a', 'b']\nobservers = ['a', '']\nentry = 'e'\n",
            "",
            3,
            ""
        )?
    );
    let pair =
        "levels = ['a', 'b', 'c']\nflows = [['a', 'c'], ['b', 'c'], ['c', 'b']]\nentry = 'e'\n";
    assert!(rt; is_told(alloc, pair, "", 4, "b")?);
    assert!(rt;
        is_told(
            alloc,
            "levels = ['b', '', 'b']\nflows = [['b', 'c']]\nentry = 'e'\n",
            "",
            4,
            "b"
        )?
    );
    let cycle =
        "levels = ['a', 'b', 'c']\nflows = [['c', 'b'], ['b', 'a'], ['a', 'c']]\nentry = 'e'\n[sinks]\nm = 'c'\n";
    assert!(rt; is_told(alloc, cycle, "", 4, "a")?);
    Ok(())
}

#[test]
fn methods_are_told_in_order(rt: HostRuntime) -> Result<(), Fail> {
    let alloc = rt.alloc();
    assert!(rt;
        is_told(
            alloc,
            HEAD,
            "[sinks]\n'A.get()V' = 'low'\n'A.get()I' = 'low'\n",
            5,
            "A.get()V"
        )?
    );
    assert!(rt;
        is_told(
            alloc,
            HEAD,
            "[sinks]\n'%41.get()I' = 'low'\n",
            5,
            "%41.get()I"
        )?
    );
    let both = "[sources]\n'A.get()I' = 'low'\n'A.put(I)V' = 'low'\n[sinks]\n'A.get()I' = 'low'\n";
    assert!(rt; is_told(alloc, HEAD, both, 8, "0")?);
    assert!(rt; is_told(alloc, HEAD, "[sources]\n'A.put(I)V' = 'low'\n", 6, "1")?);
    assert!(rt; is_told(alloc, HEAD, "[sources]\n'A.get()I' = 'low'\n", 7, "1")?);
    let upward =
        "[sources]\n'A.get()I' = 'top'\n[sinks]\n'A.put(I)V' = 'low'\n[releases]\n'A.r%25l(I)I' = { from = 'low', to = 'top' }\n";
    assert!(rt; is_told(alloc, HEAD, upward, 9, "2")?);
    let sink_too =
        "[sinks]\n'A.put(I)V' = 'low'\n[releases]\n'A.put(I)V' = { from = 'top', to = 'low' }\n";
    assert!(rt; is_told(alloc, HEAD, sink_too, 8, "1")?);
    assert!(rt; is_told(alloc, HEAD, "[sinks]\n'A.main()V' = 'low'\n", 6, "more")?);
    let no_release = "[sources]\n'A.get()I' = 'top'\n[sinks]\n'A.put(I)V' = 'low'\n";
    assert!(rt; is_told(alloc, HEAD, no_release, 7, "2")?);
    let aside =
        "[sources]\n'A.get()I' = 'top'\n[sinks]\n'A.put(I)V' = 'low'\n[releases]\n'A.r%25l(I)I' = { from = 'low', to = 'mid' }\n";
    assert!(rt; is_told(alloc, HEAD, aside, 9, "2")?);
    assert!(rt;
        is_told(
            alloc,
            "levels = ['low', 'top']\nentry = 'A.main()I'\n",
            "[sources]\n'A.get()I' = 'top'\n[sinks]\n'A.put(I)V' = 'low'\n[releases]\n'A.r%25l(I)I' = { from = 'low', to = 'low' }\n",
            11,
            ""
        )?
    );
    assert!(rt;
        is_told(
            alloc,
            "levels = ['low', 'top']\nflows = [['low', 'top']]\nentry = 'A.get()I'\n",
            TABLES,
            11,
            ""
        )?
    );
    Ok(())
}

/// So many levels with names of two bytes, and an entry that no method has.
fn many_levels(alloc: Global, count: u8) -> Result<Vec<u8>, Memory> {
    let mut text = Vec::new(alloc);
    text.extend_from_slice(b"entry = 'e'\nlevels = [")?;
    for i in 0..count.min(100) {
        text.extend_from_slice(&[b'\'', b'0' + i / 10, b'0' + i % 10, b'\'', b','])?;
    }
    text.extend_from_slice(b"]\n")?;
    Ok(text)
}

#[test]
fn levels_are_at_most_64(rt: HostRuntime) -> Result<(), Fail> {
    let alloc = rt.alloc();
    let program = program(alloc)?;
    let most = many_levels(alloc, 64)?;
    assert!(rt; is_told_of(alloc, &program, most.as_slice(), 7, "0")?);
    let more = many_levels(alloc, 65)?;
    assert!(rt; is_told_of(alloc, &program, more.as_slice(), 4, "")?);
    Ok(())
}

const RELEASE: &str =
    "levels = ['low']\nentry = 'A.main()V'\n[releases]\n'A.r(I)I' = { from = 'low', to = 'low' }\n";

/// What a policy with a release is told of a program with this call: 0 for nothing, or the number of a fault and the pc of a
/// call that may start a thread.
fn told_of_call(alloc: Global, op: u8, owner: u32, called: &str) -> Result<(u32, u32), Memory> {
    let program = with_call(alloc, "(I)I", op, owner, called)?;
    let answer = read(alloc, &program, RELEASE.as_bytes());
    match &answer {
        Ok(_) => Ok((0, 0)),
        Err(PolicyFault::ReleaseWithThreads(method, pc)) => {
            if method.number() == 2 {
                Ok((10, *pc))
            } else {
                Ok((10, 99))
            }
        }
        Err(fault) => Ok((code_of(fault), 0)),
    }
}

#[test]
fn releases_stand_beside_no_threads(rt: HostRuntime) -> Result<(), Fail> {
    let alloc = rt.alloc();
    assert_eq!(rt; told_of_call(alloc, 182, 4, "start")?, (10, 1));
    assert_eq!(rt; told_of_call(alloc, 182, 3, "start")?, (10, 1));
    assert_eq!(rt; told_of_call(alloc, 183, 3, "start")?, (10, 1));
    assert_eq!(rt; told_of_call(alloc, 182, 5, "start")?, (0, 0));
    assert_eq!(rt; told_of_call(alloc, 182, 4, "stop")?, (0, 0));
    assert_eq!(rt; told_of_call(alloc, 178, 4, "start")?, (0, 0));
    Ok(())
}

/// A policy without releases asks nothing of calls.
#[test]
fn threads_may_start_without_releases(rt: HostRuntime) -> Result<(), Fail> {
    let alloc = rt.alloc();
    let program = with_call(alloc, "()I", 182, 4, "start")?;
    let text = "levels = ['low']\nentry = 'A.main()V'\n[sources]\n'A.r()I' = 'low'\n";
    assert!(rt; is_told_of(alloc, &program, text.as_bytes(), 0, "")?);
    Ok(())
}
