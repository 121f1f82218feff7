//! What stands at nodes, and what instructions name.
ghost use Rattle.std.specs.Prelude.{◌≡◌, ℕ, Some};
ghost use Rattle.std.specs.Option.{option_copied};
ghost use Rattle.jo_prog.specs.Calls;
ghost use Rattle.jo_prog.specs.Program.{operand_at as operand_found};
ghost use Rattle.dependence.specs.FlowGraph;
ghost use Rattle.dependence.specs.NodePlaces;
ghost use Rattle.dependence.specs.WideGraph;
ghost use Rattle.method_views.specs.Standing;

use dep_nodes::NodeKind;
use dependence::flow::Place;
use dependence::flows::FlowNode;
use jo_ids::{ClassId, Id, MethodId};
use jo_insn::Insn;
use jo_prog::program::{MemberRef, Operand, Program, TypeRef, class_at, method_at};

// ---- nodes

/// The definition that a node makes of a place: Entry stands for the parameters.
pub fn named_by(kind: NodeKind, place: Place) -> NodeKind
    ensures { result ≡ NodePlaces.named_by kind place }
{
    match kind {
        NodeKind::Entry => match place {
            Place::Local(k) => NodeKind::Param(u32::from(k)),
            _ => kind,
        },
        _ => kind,
    }
}

/// The instruction that stands at a node, with its pc.
pub fn standing(node: &FlowNode) -> Option<(u32, Insn)>
    ensures { result ≡ Standing.standing_by node.now.kind node.now.insn }
{
    let pc = match node.kind {
        NodeKind::Instr(pc) => pc,
        NodeKind::Call(pc) => pc,
        _ => return None,
    };
    match node.insn {
        Some(insn) => Some((pc, insn)),
        None => None,
    }
}

// ---- what an instruction names

/// What an instruction names by a pool index.
fn operand_by(program: &Program, method: MethodId, index: u16) -> Option<&Operand>
    ensures { option_copied result ≡ operand_found program.now method index }
{
    let class = class_at(program, method_at(program, method)?.class)?;
    class.operands.as_slice().get(index as usize)
}

/// What the instruction of a method names.
pub fn operand_of(program: &Program, method: MethodId, insn: Insn) -> Option<&Operand>
    ensures { (next : ℕ) → option_copied result ≡ WideGraph.operand_of program.now method (Some (insn, next)) }
{
    let Insn::Pooled { index, .. } = insn else {
        return None;
    };
    operand_by(program, method, index)
}

fn type_in(operand: Option<&Operand>) -> Option<&TypeRef>
    ensures { option_copied result ≡ FlowGraph.type_in (option_copied operand.entry) }
{
    let Some(Operand::OfType(named)) = operand else {
        return None;
    };
    Some(named)
}

fn member_in(operand: Option<&Operand>) -> Option<&MemberRef>
    ensures { option_copied result ≡ Standing.ref_in (option_copied operand.entry) }
{
    let Some(Operand::Member(member)) = operand else {
        return None;
    };
    Some(member)
}

/// The type that the instruction of a method names.
pub fn type_named(program: &Program, method: MethodId, insn: Insn) -> Option<&TypeRef>
    ensures { (next : ℕ) → option_copied result ≡ FlowGraph.type_in (WideGraph.operand_of program.now method (Some (insn, next))) }
{
    let operand = operand_of(program, method, insn);
    let named = type_in(operand);
    named
}

/// The member that the instruction of a method names.
pub fn member_named(program: &Program, method: MethodId, insn: Insn) -> Option<&MemberRef>
    ensures { (next : ℕ) → option_copied result ≡ Standing.ref_in (WideGraph.operand_of program.now method (Some (insn, next))) }
{
    let operand = operand_of(program, method, insn);
    let named = member_in(operand);
    named
}

/// The class in which methods of a receiver of this type are looked for.
pub fn receiver_class(own: &TypeRef) -> ClassId
    ensures { result ≡ Calls.receiver_class own.now }
{
    match own {
        TypeRef::Class(class) => *class,
        TypeRef::Array(_) => Id::of(0),
    }
}
