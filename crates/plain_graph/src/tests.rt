//! The graph of the worked program `int i = get(); int s = secret(); show(i + 1);`, where `secret` is a high source, `get`
//! a low one and `show` a low sink, and two walks in it.
ghost use Rattle.std.specs.Prelude.{◌≡◌, ◌<◌, ◌^◌, ◌++◌, ◌∷◌, [], length, IfOk, IfSome, OnOk, Some, replicate};
ghost use Rattle.jo_prog.specs.Worked.{native, member, worked_code, worked_class, worked_program, worked_labels};
ghost use Rattle.jo_prog.specs.PreludeClasses.{object_class};
ghost use Rattle.plain_graph.specs.Slices.{HasEdgesInside};

use crate::sdg::build;
use crate::slicer::find_walk;
use dep_nodes::{Graph, NodeKind};
use jo_ids::{ClassId, LevelId, List, Memory, MethodId, NodeId};
use jo_prog::labels::{Label, Labels};
use jo_prog::program::{Class, Code, MemberRef, Method, Operand, Program, TypeRef};
use jo_text::Name;
use std::alloc::Global;
use std::test::Fail;

/// 0 invokestatic get, 3 istore_0, 4 invokestatic secret, 7 istore_1, 8 iload_0, 9 iconst_1, 10 iadd, 11 invokestatic
/// show, 14 return.
const CODE: [u8; 15] = [
    0xb8, 0, 14, 0x3b, 0xb8, 0, 16, 0x3c, 0x1a, 0x04, 0x60, 0xb8, 0, 18, 0xb1,
];

fn add<T: Drop>(list: &mut List<T>, item: T) -> Result<(), Memory>
    ensures { OnOk result (list.new ≡ list.old ++ item ∷ []) }
{
    match list.push(item) {
        Ok(()) => Ok(()),
        Err((item, memory)) => {
            drop(item);
            Err(memory)
        }
    }
}

fn named(alloc: Global, text: &[u8]) -> Result<Name, Memory>
    ensures { IfOk result (λ name. name ≡ text.now) }
{
    let mut name = Name::new(alloc);
    name.append(text)?;
    Ok(name)
}

fn native(alloc: Global, name: &[u8], desc: &[u8]) -> Result<Method, Memory>
    ensures { IfOk result (λ method. method ≡ native name.now desc.now) }
{
    Ok(Method {
        class: ClassId::of(1),
        name: named(alloc, name)?,
        desc: named(alloc, desc)?,
        flags: 0x0108,
        code: None,
    })
}

fn member(alloc: Global, name: &[u8], desc: &[u8]) -> Result<Operand, Memory>
    ensures { IfOk result (λ operand. operand ≡ member name.now desc.now) }
{
    Ok(Operand::Member(MemberRef {
        owner: TypeRef::Class(ClassId::of(1)),
        name: named(alloc, name)?,
        desc: named(alloc, desc)?,
    }))
}

fn code(alloc: Global) -> Result<Code, Memory>
    ensures { IfOk result (λ code. code ≡ worked_code) }
{
    Ok(Code {
        max_stack: 2,
        max_locals: 2,
        bytes: named(alloc, &CODE)?,
        rows: List::new(alloc),
    })
}

fn methods(alloc: Global) -> Result<List<Method>, Memory>
    ensures { IfOk result (λ methods. methods ≡ worked_program.methods) }
{
    let mut methods = List::new(alloc);
    add(&mut methods, native(alloc, b"secret", b"()I")?)?;
    add(&mut methods, native(alloc, b"get", b"()I")?)?;
    add(&mut methods, native(alloc, b"show", b"(I)V")?)?;
    let main = Method {
        class: ClassId::of(1),
        name: named(alloc, b"main")?,
        desc: named(alloc, b"()V")?,
        flags: 0x0008,
        code: Some(code(alloc)?),
    };
    add(&mut methods, main)?;
    Ok(methods)
}

fn unused(alloc: Global) -> Result<List<Operand>, Memory>
    ensures { IfOk result (λ operands. operands ≡ replicate 14 Operand.Unused) }
{
    let mut operands = List::new(alloc);
    for _ in 0..14u32 {
        add(&mut operands, Operand::Unused)?;
    }
    Ok(operands)
}

fn operands(alloc: Global) -> Result<List<Operand>, Memory>
    ensures { IfOk result (λ operands. operands ≡ worked_class.operands) }
{
    let mut operands = unused(alloc)?;
    add(&mut operands, member(alloc, b"get", b"()I")?)?;
    add(&mut operands, Operand::Unused)?;
    add(&mut operands, member(alloc, b"secret", b"()I")?)?;
    add(&mut operands, Operand::Unused)?;
    add(&mut operands, member(alloc, b"show", b"(I)V")?)?;
    Ok(operands)
}

fn class(alloc: Global) -> Result<Class, Memory>
    ensures { IfOk result (λ class. class ≡ worked_class) }
{
    let mut methods = List::new(alloc);
    add(&mut methods, MethodId::of(0))?;
    add(&mut methods, MethodId::of(1))?;
    add(&mut methods, MethodId::of(2))?;
    add(&mut methods, MethodId::of(3))?;
    Ok(Class {
        name: named(alloc, b"Main")?,
        flags: 0x0020,
        superclass: Some(ClassId::of(0)),
        interfaces: List::new(alloc),
        fields: List::new(alloc),
        methods,
        operands: operands(alloc)?,
    })
}

fn object(alloc: Global) -> Result<Class, Memory>
    ensures { IfOk result (λ class. class ≡ object_class) }
{
    Ok(Class {
        name: named(alloc, b"java/lang/Object")?,
        flags: 0x0021,
        superclass: None,
        interfaces: List::new(alloc),
        fields: List::new(alloc),
        methods: List::new(alloc),
        operands: List::new(alloc),
    })
}

fn classes(alloc: Global) -> Result<List<Class>, Memory>
    ensures { IfOk result (λ classes. classes ≡ worked_program.classes) }
{
    let mut classes = List::new(alloc);
    add(&mut classes, object(alloc)?)?;
    add(&mut classes, class(alloc)?)?;
    Ok(classes)
}

fn program(alloc: Global) -> Result<Program, Memory>
    ensures { IfOk result (λ program. program ≡ worked_program) }
{
    let classes = classes(alloc)?;
    let fields = List::new(alloc);
    let methods = methods(alloc)?;
    let program = Program::build(alloc, classes, fields, methods)?;
    Ok(program)
}

fn labels(alloc: Global) -> Result<Labels, Memory>
    ensures { IfOk result (λ labels. labels ≡ worked_labels) }
{
    let mut levels = List::new(alloc);
    add(&mut levels, named(alloc, b"low")?)?;
    add(&mut levels, named(alloc, b"high")?)?;
    let mut flows = List::new(alloc);
    add(&mut flows, (0, 1))?;
    let mut observers = List::new(alloc);
    add(&mut observers, LevelId::of(0))?;
    let mut labelled = List::new(alloc);
    add(
        &mut labelled,
        (MethodId::of(0), Label::Source(LevelId::of(1))),
    )?;
    add(
        &mut labelled,
        (MethodId::of(1), Label::Source(LevelId::of(0))),
    )?;
    add(
        &mut labelled,
        (MethodId::of(2), Label::Sink(LevelId::of(0))),
    )?;
    Ok(Labels {
        levels,
        flows,
        observers,
        entry: MethodId::of(3),
        labelled,
    })
}

/// The number of the first node of that kind.
fn number_of(graph: &Graph, kind: NodeKind) -> Option<NodeId>
    requires { length graph.now.nodes < 2 ^ 32 }
    ensures { IfSome result (λ n. n < length graph.now.nodes) }
{
    for (number, name) in graph.nodes.as_slice().iter().enumerate() {
        if name.kind == kind {
            return Some(NodeId::of(number as u32));
        }
    }
    None
}

/// The kinds along a walk from one node to another.
fn walk(
    alloc: Global,
    graph: &Graph,
    from: NodeKind,
    to: NodeKind,
) -> Result<Option<List<NodeKind>>, Memory>
    requires small { length graph.now.nodes < 2 ^ 32 }
    requires edges { HasEdgesInside graph.now }
{
    let (Some(from), Some(to)) = (number_of(graph, from), number_of(graph, to)) else {
        return Ok(None);
    };
    let Some(chain) = find_walk(alloc, graph, &[from], &[to])? else {
        return Ok(None);
    };
    let mut kinds = List::new(alloc);
    for number in [chain.start]
        .iter()
        .chain(chain.steps.as_slice().iter().map(|step| &step.to))
    {
        if let Some(name) = graph.nodes.as_slice().get(number.number() as usize) {
            add(&mut kinds, name.kind)?;
        }
    }
    Ok(Some(kinds))
}

#[test]
fn what_the_low_source_gives_is_shown(rt: HostRuntime) -> Result<(), Fail> {
    let alloc = rt.alloc();
    let program = program(alloc)?;
    let labels = labels(alloc)?;
    let graph = build(alloc, &program, &labels)?;
    assert_eq!(rt; graph.nodes.as_slice().len(), 17);
    assert_eq!(rt; graph.edges.as_slice().len(), 22);
    let low = walk(alloc, &graph, NodeKind::RetVal(0), NodeKind::Call(11))?;
    let kinds = low.ok_or("no walk")?;
    let expected = [
        NodeKind::RetVal(0),
        NodeKind::Instr(3),
        NodeKind::Instr(8),
        NodeKind::Instr(10),
        NodeKind::Arg(11, 0),
        NodeKind::Call(11),
    ];
    assert!(rt; kinds.as_slice() == expected.as_slice());
    let high = walk(alloc, &graph, NodeKind::RetVal(4), NodeKind::Call(11))?;
    assert!(rt; high.is_none());
    Ok(())
}
