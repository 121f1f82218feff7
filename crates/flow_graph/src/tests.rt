//! Wide graphs of small methods, with each node in its place.
use crate::wide::{FlowFault, wide_of};
use dep_nodes::NodeKind;
use dependence::flow::Place;
use dependence::flows::Flow;
use hierarchy::{Hierarchy, has_its_parents};
use jo_ids::{ClassId, LimitKind, List, Memory, MethodId};
use jo_prog::lists::add;
use jo_prog::program::{Class, Code, MemberRef, Method, Operand, Program, Row, TypeRef};
use jo_prog::typed::Typed;
use jo_text::Name;
use std::alloc::Global;
use std::test::Fail;

/// The flags of a static method, and of a native one.
const STATIC: u16 = 0x0008;

const NATIVE: u16 = 0x0108;

fn named(alloc: Global, text: &[u8]) -> Result<Name, Memory> {
    let mut name = Name::new(alloc);
    name.append(text)?;
    Ok(name)
}

/// A row over the pcs from the first to before the second, which catches all with the third as its handler.
fn row_of(row: &(u16, u16, u16)) -> Row {
    Row {
        start: row.0,
        end: row.1,
        handler: row.2,
        catches: None,
    }
}

fn code_of(alloc: Global, bytes: &[u8], rows: &[(u16, u16, u16)]) -> Result<Code, Memory> {
    let mut list = List::new(alloc);
    for row in rows {
        add(&mut list, row_of(row))?;
    }
    Ok(Code {
        max_stack: 8,
        max_locals: 8,
        bytes: named(alloc, bytes)?,
        rows: list,
    })
}

fn method_of(
    alloc: Global,
    name: &[u8],
    desc: &[u8],
    flags: u16,
    code: Option<Code>,
) -> Result<Method, Memory> {
    Ok(Method {
        class: ClassId::of(0),
        name: named(alloc, name)?,
        desc: named(alloc, desc)?,
        flags,
        code,
    })
}

/// The name of a method of the class.
fn member(alloc: Global, name: &[u8], desc: &[u8]) -> Result<Operand, Memory> {
    Ok(Operand::Member(MemberRef {
        owner: TypeRef::Class(ClassId::of(0)),
        name: named(alloc, name)?,
        desc: named(alloc, desc)?,
    }))
}

/// The program with one class, which has these methods and operands.
fn program_of(
    alloc: Global,
    methods: List<Method>,
    operands: List<Operand>,
) -> Result<Program, Memory> {
    let mut numbers = List::new(alloc);
    for number in 0..methods.as_slice().len().min(1000) as u32 {
        add(&mut numbers, MethodId::of(number))?;
    }
    let class = Class {
        name: named(alloc, b"A")?,
        flags: 0x0021,
        superclass: None,
        interfaces: List::new(alloc),
        fields: List::new(alloc),
        methods: numbers,
        operands,
    };
    let mut classes = List::new(alloc);
    add(&mut classes, class)?;
    Program::build(alloc, classes, List::new(alloc), methods)
}

/// The program with one method that calls nothing.
fn alone(
    alloc: Global,
    desc: &[u8],
    flags: u16,
    bytes: &[u8],
    rows: &[(u16, u16, u16)],
) -> Result<Program, Memory> {
    let mut methods = List::new(alloc);
    let code = code_of(alloc, bytes, rows)?;
    add(
        &mut methods,
        method_of(alloc, b"f", desc, flags, Some(code))?,
    )?;
    program_of(alloc, methods, List::new(alloc))
}

/// The wide graph of the first method, at these heights.
fn wide(alloc: Global, program: &Program, heights: &[Option<u16>]) -> Result<Flow, FlowFault> {
    if program.classes.as_slice().len() > 1000 {
        return Err(FlowFault::Memory);
    }
    if !has_its_parents(program) {
        return Err(FlowFault::Memory);
    }
    let hierarchy = match Hierarchy::build(alloc, program) {
        Ok(hierarchy) => hierarchy,
        Err(_) => return Err(FlowFault::Memory),
    };
    let mut list = Vec::new(alloc);
    list.extend_from_slice(heights)?;
    wide_of(
        alloc,
        program,
        &hierarchy,
        &Typed::of(list),
        MethodId::of(0),
    )
}

fn kinds_of(alloc: Global, flow: &Flow) -> Result<Vec<NodeKind>, Memory> {
    let mut kinds = Vec::new(alloc);
    for n in 0..flow.len() {
        kinds.push(flow.node(n).kind)?;
    }
    Ok(kinds)
}

fn add_edges(edges: &mut Vec<(u32, u32)>, from: u32, ends: &[u32]) -> Result<(), Memory> {
    for end in ends {
        edges.push((from, *end))?;
    }
    Ok(())
}

fn edges_of(alloc: Global, flow: &Flow) -> Result<Vec<(u32, u32)>, Memory> {
    let mut edges = Vec::new(alloc);
    for n in 0..flow.len() {
        add_edges(&mut edges, n, flow.successors(n))?;
    }
    Ok(edges)
}

fn reads(flow: &Flow, n: u32) -> &[Place] {
    if n < flow.len() { flow.reads(n) } else { &[] }
}

fn writes(flow: &Flow, n: u32) -> &[Place] {
    if n < flow.len() { flow.writes(n) } else { &[] }
}

/// Whether the node reads and writes these places.
fn uses(flow: &Flow, n: u32, read: &[Place], written: &[Place]) -> bool {
    reads(flow, n) == read && writes(flow, n) == written
}

/// 0 invokestatic secret, 3 istore_0, 4 iload_0, 5 ifeq 14, 8 iinc 0 -1, 11 goto 4, 14 iconst_1, 15 invokestatic show, 18 return.
const LOOP: [u8; 19] = [
    0xb8, 0, 1, 0x3b, 0x1a, 0x99, 0, 9, 0x84, 0, 0xff, 0xa7, 0xff, 0xf9, 0x04, 0xb8, 0, 2, 0xb1,
];

/// A loop that counts a secret down, between a native source and a native sink.
fn loop_program(alloc: Global) -> Result<Program, Memory> {
    let mut methods = List::new(alloc);
    let code = code_of(alloc, &LOOP, &[])?;
    add(
        &mut methods,
        method_of(alloc, b"f", b"()V", STATIC, Some(code))?,
    )?;
    add(
        &mut methods,
        method_of(alloc, b"secret", b"()I", NATIVE, None)?,
    )?;
    add(
        &mut methods,
        method_of(alloc, b"show", b"(I)V", NATIVE, None)?,
    )?;
    let mut operands = List::new(alloc);
    add(&mut operands, Operand::Unused)?;
    add(&mut operands, member(alloc, b"secret", b"()I")?)?;
    add(&mut operands, member(alloc, b"show", b"(I)V")?)?;
    program_of(alloc, methods, operands)
}

/// Height 0 at the first pc of each of these instructions but the second, the fourth and that of the sink's call.
fn loop_heights(alloc: Global) -> Result<Vec<Option<u16>>, Memory> {
    let mut heights = vec![in alloc; Some(0u16); 19]?;
    heights[3] = Some(1);
    heights[5] = Some(1);
    heights[15] = Some(1);
    Ok(heights)
}

#[test]
fn a_loop_polls(rt: HostRuntime) -> Result<(), Fail> {
    let alloc = rt.alloc();
    let program = loop_program(alloc)?;
    let heights = loop_heights(alloc)?;
    let flow = wide(alloc, &program, heights.as_slice())
        .ok()
        .ok_or("no graph")?;
    let kinds = kinds_of(alloc, &flow)?;
    let expected = [
        NodeKind::Entry,
        NodeKind::Call(0),
        NodeKind::Exit,
        NodeKind::RetVal(0),
        NodeKind::Instr(3),
        NodeKind::Instr(4),
        NodeKind::Instr(5),
        NodeKind::Instr(8),
        NodeKind::Instr(14),
        NodeKind::Instr(11),
        NodeKind::Call(15),
        NodeKind::Poll(11, 4),
        NodeKind::RetVal(15),
        NodeKind::Instr(18),
    ];
    assert!(rt; kinds.as_slice() == expected.as_slice());
    let edges = edges_of(alloc, &flow)?;
    let steps = [
        (0, 1),
        (0, 2),
        (1, 3),
        (3, 4),
        (4, 5),
        (5, 6),
        (6, 7),
        (6, 8),
        (7, 9),
        (8, 10),
        (9, 11),
        (10, 12),
        (11, 2),
        (11, 5),
        (12, 13),
        (13, 2),
    ];
    assert!(rt; edges.as_slice() == steps.as_slice());
    Ok(())
}

#[test]
fn a_loop_uses_its_counter(rt: HostRuntime) -> Result<(), Fail> {
    let alloc = rt.alloc();
    let program = loop_program(alloc)?;
    let heights = loop_heights(alloc)?;
    let flow = wide(alloc, &program, heights.as_slice())
        .ok()
        .ok_or("no graph")?;
    assert!(rt; uses(&flow, 0, &[], &[]));
    assert!(rt; uses(&flow, 3, &[], &[Place::Stack(0)]));
    assert!(rt; uses(&flow, 4, &[Place::Stack(0)], &[Place::Local(0)]));
    assert!(rt; uses(&flow, 6, &[Place::Stack(0)], &[]));
    assert!(rt; uses(&flow, 7, &[Place::Local(0)], &[Place::Local(0)]));
    assert!(rt; uses(&flow, 10, &[Place::Stack(0)], &[]));
    assert!(rt; uses(&flow, 12, &[], &[]));
    Ok(())
}

/// As many nops, and a return.
fn nops(alloc: Global, count: usize) -> Result<Program, Memory> {
    let mut bytes = vec![in alloc; 0u8; count]?;
    bytes.push(0xb1)?;
    alone(alloc, b"()V", STATIC, bytes.as_slice(), &[])
}

#[test]
fn a_graph_of_the_limit_is_made(rt: HostRuntime) -> Result<(), Fail> {
    let alloc = rt.alloc();
    let program = nops(alloc, 16_381)?;
    let flow = wide(alloc, &program, &[]).ok().ok_or("no graph")?;
    assert_eq!(rt; flow.len(), 16_384);
    Ok(())
}

#[test]
fn one_more_is_the_limit(rt: HostRuntime) -> Result<(), Fail> {
    let alloc = rt.alloc();
    let program = nops(alloc, 16_382)?;
    let fault = wide(alloc, &program, &[]).err();
    assert!(rt; fault == Some(FlowFault::Limit(LimitKind::M6)));
    Ok(())
}

/// 0 iload_0, 1 invokestatic half, 4 ifgt 0, 7 iconst_0, 8 ireturn, 9 athrow. The first exception handler covers 0 to 3, the second 9; both begin at 9.
const GUARDED: [u8; 10] = [0x1a, 0xb8, 0, 1, 0x9d, 0xff, 0xfc, 0x03, 0xac, 0xbf];

fn guarded_program(alloc: Global) -> Result<Program, Memory> {
    let mut methods = List::new(alloc);
    let code = code_of(alloc, &GUARDED, &[(0, 4, 9), (9, 10, 9)])?;
    add(
        &mut methods,
        method_of(alloc, b"f", b"(I)I", STATIC, Some(code))?,
    )?;
    let half = code_of(alloc, &[0x03, 0xac], &[])?;
    add(
        &mut methods,
        method_of(alloc, b"half", b"(I)I", STATIC, Some(half))?,
    )?;
    let mut operands = List::new(alloc);
    add(&mut operands, Operand::Unused)?;
    add(&mut operands, member(alloc, b"half", b"(I)I")?)?;
    program_of(alloc, methods, operands)
}

const GUARDED_HEIGHTS: [Option<u16>; 10] = [
    Some(0),
    Some(1),
    None,
    None,
    Some(1),
    None,
    None,
    Some(0),
    Some(1),
    Some(1),
];

#[test]
fn each_kind_of_node_has_its_steps(rt: HostRuntime) -> Result<(), Fail> {
    let alloc = rt.alloc();
    let program = guarded_program(alloc)?;
    let flow = wide(alloc, &program, &GUARDED_HEIGHTS)
        .ok()
        .ok_or("no graph")?;
    let kinds = kinds_of(alloc, &flow)?;
    let expected = [
        NodeKind::Entry,
        NodeKind::Instr(0),
        NodeKind::Exit,
        NodeKind::Call(1),
        NodeKind::RetKind(1),
        NodeKind::RetVal(1),
        NodeKind::Throw(1),
        NodeKind::Instr(4),
        NodeKind::Catch(0),
        NodeKind::Instr(7),
        NodeKind::Poll(4, 0),
        NodeKind::Instr(9),
        NodeKind::Instr(8),
        NodeKind::Throw(9),
        NodeKind::XPoll(9, 1),
        NodeKind::Catch(1),
    ];
    assert!(rt; kinds.as_slice() == expected.as_slice());
    let edges = edges_of(alloc, &flow)?;
    let steps = [
        (0, 1),
        (0, 2),
        (1, 3),
        (3, 4),
        (4, 2),
        (4, 5),
        (4, 6),
        (5, 7),
        (6, 2),
        (6, 8),
        (7, 9),
        (7, 10),
        (8, 11),
        (9, 12),
        (10, 1),
        (10, 2),
        (11, 13),
        (12, 2),
        (13, 2),
        (13, 14),
        (14, 2),
        (14, 15),
        (15, 11),
    ];
    assert!(rt; edges.as_slice() == steps.as_slice());
    Ok(())
}

#[test]
fn each_kind_of_node_has_its_places(rt: HostRuntime) -> Result<(), Fail> {
    let alloc = rt.alloc();
    let program = guarded_program(alloc)?;
    let flow = wide(alloc, &program, &GUARDED_HEIGHTS)
        .ok()
        .ok_or("no graph")?;
    assert!(rt; uses(&flow, 0, &[], &[Place::Local(0)]));
    assert!(rt; uses(&flow, 1, &[Place::Local(0)], &[Place::Stack(0)]));
    assert!(rt; uses(&flow, 3, &[Place::Stack(0)], &[]));
    assert!(rt; uses(&flow, 4, &[], &[]));
    assert!(rt; uses(&flow, 5, &[], &[Place::Stack(0)]));
    assert!(rt; uses(&flow, 6, &[], &[Place::Pending]));
    assert!(rt; uses(&flow, 8, &[Place::Pending], &[Place::Stack(0)]));
    assert!(rt; uses(&flow, 11, &[Place::Stack(0)], &[]));
    Ok(())
}

/// 0 iconst_1, 1 iconst_0, 2 idiv, 3 ireturn, 4 pop, 5 iconst_2, 6 ireturn. The first exception handler ends before the division, the two behind it cover it.
#[test]
fn rows_cover_from_start_to_before_their_end(rt: HostRuntime) -> Result<(), Fail> {
    let alloc = rt.alloc();
    let bytes = [0x04, 0x03, 0x6c, 0xac, 0x57, 0x05, 0xac];
    let rows = [(0, 2, 4), (2, 3, 4), (0, 7, 4)];
    let program = alone(alloc, b"()I", STATIC, &bytes, &rows)?;
    let flow = wide(alloc, &program, &[]).ok().ok_or("no graph")?;
    let kinds = kinds_of(alloc, &flow)?;
    let expected = [
        NodeKind::Entry,
        NodeKind::Instr(0),
        NodeKind::Exit,
        NodeKind::Instr(1),
        NodeKind::Instr(2),
        NodeKind::Instr(3),
        NodeKind::Throw(2),
        NodeKind::Catch(1),
        NodeKind::Catch(2),
        NodeKind::Instr(4),
        NodeKind::Instr(5),
        NodeKind::Instr(6),
    ];
    assert!(rt; kinds.as_slice() == expected.as_slice());
    let edges = edges_of(alloc, &flow)?;
    let steps = [
        (0, 1),
        (0, 2),
        (1, 3),
        (3, 4),
        (4, 5),
        (4, 6),
        (5, 2),
        (6, 2),
        (6, 7),
        (6, 8),
        (7, 9),
        (8, 9),
        (9, 10),
        (10, 11),
        (11, 2),
    ];
    assert!(rt; edges.as_slice() == steps.as_slice());
    Ok(())
}

/// 0 iconst_0, 1 tableswitch 0 to 2: to 28, 29 and 28, else to 28; 28 return, 29 return.
#[test]
fn equal_targets_are_one_step(rt: HostRuntime) -> Result<(), Fail> {
    let alloc = rt.alloc();
    let bytes = [
        0x03, 0xaa, 0, 0, 0, 0, 0, 27, 0, 0, 0, 0, 0, 0, 0, 2, 0, 0, 0, 27, 0, 0, 0, 28, 0, 0, 0,
        27, 0xb1, 0xb1,
    ];
    let program = alone(alloc, b"()V", STATIC, &bytes, &[])?;
    let flow = wide(alloc, &program, &[]).ok().ok_or("no graph")?;
    let kinds = kinds_of(alloc, &flow)?;
    let expected = [
        NodeKind::Entry,
        NodeKind::Instr(0),
        NodeKind::Exit,
        NodeKind::Instr(1),
        NodeKind::Instr(28),
        NodeKind::Instr(29),
    ];
    assert!(rt; kinds.as_slice() == expected.as_slice());
    let edges = edges_of(alloc, &flow)?;
    let steps = [(0, 1), (0, 2), (1, 3), (3, 4), (3, 5), (4, 2), (5, 2)];
    assert!(rt; edges.as_slice() == steps.as_slice());
    Ok(())
}

#[test]
fn parameters_are_locals(rt: HostRuntime) -> Result<(), Fail> {
    let alloc = rt.alloc();
    let places = [
        Place::Local(0),
        Place::Local(1),
        Place::Local(2),
        Place::Local(3),
    ];
    let own = alone(alloc, b"(I[ILA;)V", 0, &[0xb1], &[])?;
    let flow = wide(alloc, &own, &[Some(0)]).ok().ok_or("no graph")?;
    assert!(rt; uses(&flow, 0, &[], &places));
    let of_class = alone(alloc, b"(I[ILA;)V", STATIC, &[0xb1], &[])?;
    let flow = wide(alloc, &of_class, &[Some(0)]).ok().ok_or("no graph")?;
    assert!(rt; writes(&flow, 0) == &places[..3]);
    Ok(())
}

/// 0 iconst_1, 1 iconst_2, 2 dup, 3 dup_x1, 4 pop, 5 dup2, 6 swap, 7 return.
#[test]
fn dup_writes_new_places_alone(rt: HostRuntime) -> Result<(), Fail> {
    let alloc = rt.alloc();
    let bytes = [0x04, 0x05, 0x59, 0x5a, 0x57, 0x5c, 0x5f, 0xb1];
    let heights = [
        Some(0),
        Some(1),
        Some(2),
        Some(3),
        Some(4),
        Some(3),
        Some(5),
        Some(5),
    ];
    let program = alone(alloc, b"()V", STATIC, &bytes, &[])?;
    let flow = wide(alloc, &program, &heights).ok().ok_or("no graph")?;
    let one = Place::Stack(1);
    let two = Place::Stack(2);
    let three = Place::Stack(3);
    let four = Place::Stack(4);
    assert!(rt; uses(&flow, 4, &[one], &[two]));
    assert!(rt; uses(&flow, 5, &[one, two], &[one, two, three]));
    assert!(rt; uses(&flow, 6, &[three], &[]));
    assert!(rt; uses(&flow, 7, &[one, two], &[three, four]));
    assert!(rt; uses(&flow, 8, &[three, four], &[three, four]));
    Ok(())
}
