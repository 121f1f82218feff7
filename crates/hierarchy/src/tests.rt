//! Small programs: which methods their classes resolve and select.
use super::*;
use jo_ids::Id;
use jo_prog::program::Method;
use jo_text::Name;
use std::test::Fail;

/// A class: its superclass, its interfaces, and for each method m()V whether it is static.
type Row<'a> = (Option<u32>, &'a [u32], &'a [bool]);

const NAME: &[u8] = b"m";

const DESC: &[u8] = b"()V";

fn named(alloc: Global, text: &[u8]) -> Result<Name, Memory> {
    let mut name = Name::new(alloc);
    name.append(text)?;
    Ok(name)
}

fn method_of(alloc: Global, is_static: bool) -> Result<Method, Memory> {
    Ok(Method {
        class: Id::of(0),
        name: named(alloc, NAME)?,
        desc: named(alloc, DESC)?,
        flags: if is_static { 0x0008 } else { 0 },
        code: None,
    })
}

fn add_class(
    alloc: Global,
    classes: &mut List<Class>,
    all: &mut List<Method>,
    row: &Row,
) -> Result<(), Memory> {
    let mut interfaces = List::new(alloc);
    for interface in row.1 {
        add(&mut interfaces, Id::of(*interface))?;
    }
    let mut methods = List::new(alloc);
    for is_static in row.2 {
        let number = all.as_slice().len().min(1000) as u32;
        add(&mut methods, Id::of(number))?;
        add(all, method_of(alloc, *is_static)?)?;
    }
    let class = Class {
        name: Name::new(alloc),
        flags: 0,
        superclass: match row.0 {
            Some(superclass) => Some(Id::of(superclass)),
            None => None,
        },
        interfaces,
        fields: List::new(alloc),
        methods,
        operands: List::new(alloc),
    };
    add(classes, class)
}

fn program_of(alloc: Global, rows: &[Row]) -> Result<Program, Memory> {
    let mut classes = List::new(alloc);
    let mut methods = List::new(alloc);
    for row in rows {
        add_class(alloc, &mut classes, &mut methods, row)?;
    }
    Program::build(alloc, classes, List::new(alloc), methods)
}

/// What a class makes of m()V: the number of the method that it resolves, and of the one that a search from it finds. None where a
/// class isn't there.
fn found(alloc: Global, rows: &[Row], class: u32) -> Result<Option<(u32, u32)>, HierarchyFault> {
    let program = program_of(alloc, rows)?;
    if program.classes.as_slice().len() > 1000 {
        return Ok(None);
    }
    if !has_its_parents(&program) {
        return Ok(None);
    }
    let hierarchy = Hierarchy::build(alloc, &program)?;
    let resolved = hierarchy.resolve(&program, Id::of(class), NAME, DESC);
    let selected = hierarchy.search_from(&program, Id::of(class), NAME, DESC);
    Ok(Some((number_of(resolved), number_of(selected))))
}

/// The number of a method, 99 for none.
fn number_of(method: Option<MethodId>) -> u32 {
    match method {
        Some(method) => method.number(),
        None => 99,
    }
}

/// Object; interfaces I with m, J under I, K with m; class L with J and K; class M with m; class N under M with I; class O
/// under L with K; class P under M with a static m before another.
const ROWS: [Row<'static>; 9] = [
    (None, &[], &[]),
    (Some(0), &[], &[false]),
    (Some(0), &[1], &[]),
    (Some(0), &[], &[false]),
    (Some(0), &[2, 3], &[]),
    (Some(0), &[], &[false]),
    (Some(5), &[1], &[]),
    (Some(4), &[3], &[]),
    (Some(5), &[], &[true, false]),
];

/// The number of the method that a class resolves and of the one that it selects, as one number of two digits each.
fn numbers(alloc: Global, rows: &[Row], class: u32) -> u32 {
    match found(alloc, rows, class) {
        Ok(Some((resolved, selected))) if resolved < 100 && selected < 100 => {
            100 * resolved + selected
        }
        _ => 0,
    }
}

#[test]
fn interfaces_have_their_order(rt: HostRuntime) {
    assert_eq!(rt; numbers(rt.alloc(), &ROWS, 4), 99);
    assert_eq!(rt; numbers(rt.alloc(), &ROWS, 6), 202);
    assert_eq!(rt; numbers(rt.alloc(), &ROWS, 7), 199);
}

#[test]
fn the_first_of_two_counts(rt: HostRuntime) {
    assert_eq!(rt; numbers(rt.alloc(), &ROWS, 8), 302);
}

/// Whether there is no hierarchy, since that class is the first above itself.
fn is_refused(alloc: Global, rows: &[Row], class: u32) -> bool {
    match found(alloc, rows, 0) {
        Ok(_) => false,
        Err(fault) => fault == HierarchyFault::Cyclic(Id::of(class)),
    }
}

#[test]
fn a_class_above_itself_is_refused(rt: HostRuntime) {
    let rows: [Row; 4] = [
        (None, &[], &[]),
        (Some(3), &[], &[]),
        (Some(0), &[3], &[]),
        (Some(0), &[2], &[]),
    ];
    assert!(rt; is_refused(rt.alloc(), &rows, 2));
}
