//! The flow graph of an instance.
ghost use Rattle.std.specs.Prelude.{◌≡◌, ℕ, ◌<◌, ◌^◌, length, Some, IfOk, IfSome, IfNone};
ghost use Rattle.dep_nodes.specs.OnceLists.{IsOnceEach};
ghost use Rattle.dependence.specs.FlowData.{AreUses};
ghost use Rattle.hierarchy.specs.Hierarchies.{IsHierarchyOf};
ghost use Rattle.dep_nodes.specs.declared.kinds.NodeKind.TheVariants.{Entry};
ghost use Rattle.dependence.specs.GraphsAsData.{kind_at};
ghost use Rattle.instance_flows.specs.InstanceFlow.{IsWideOf, IsTypingOf, IsFlowOf};

use crate::keeping::kept_of;
use crate::nulls::{is_entry, nulls_of};
use crate::parts::part_of;
use crate::raising::raising_of;
use dependence::flows::{Flow, Use};
use fact_sets::facts::Facts;
use hierarchy::Hierarchy;
use jo_ids::{InstanceId, Memory};
use jo_prog::program::Program;
use jo_prog::typed::Typed;
use std::alloc::Global;
use std::hash::Hash;

/// The number of Entry.
fn entry_of(wide: &Flow) -> u32
    requires { (n : ℕ) × (kind_at wide.now n ≡ Some Entry) }
    ensures { kind_at wide.now result ≡ Some Entry }
{
    for n in 0..wide.len() {
        if is_entry(wide.node(n).kind) {
            return n;
        }
    }
    0
}

/// No instance has two numbers.
fn numbered_once<C: Copy + Ord + Hash>(facts: &Facts<C>)
    ensures { IsOnceEach facts.now.instances }
{
    let _count = facts.instances();
}

/// The flow graph of the instance with that number, by the facts that are kept: the wide graph of its method without the exception
/// edges that no fact asks for, as far as Entry then reaches. Its nodes stand in the order of the wide graph, and the successors
/// of a node in the order of their numbers. The heights are those of the method's typing, and the uses those of the wide graph: a
/// caller has them once a method. It looks at each node, edge, use and object that a node holds once.
pub fn flow_of<C: Copy + Ord + Hash>(
    alloc: Global,
    program: &Program,
    hierarchy: &Hierarchy,
    typed: &Typed,
    wide: &Flow,
    uses: &[Use],
    facts: &Facts<C>,
    instance: InstanceId,
) -> Result<Flow, Memory>
    requires kept { IsHierarchyOf program.now hierarchy.now }
    requires short { length program.now.classes < 2 ^ 32 }
    requires named { instance < length facts.now.instances }
    requires wide { IsWideOf program.now facts.now typed.now instance wide.now }
    requires uses { AreUses wide.now uses.now }
    requires typed { IsTypingOf program.now facts.now instance typed.now }
    ensures { IfOk result (λ flow. IsFlowOf program.now facts.now instance flow) }
{
    let method = facts.instance(instance).method;
    numbered_once(facts);
    let null = nulls_of(alloc, program, method, wide, uses)?;
    let raising = raising_of(
        alloc, program, hierarchy, method, typed, wide, uses, &null, facts, instance,
    )?;
    let kept = kept_of(
        alloc, program, hierarchy, method, wide, &raising, facts, instance,
    )?;
    part_of(alloc, wide, &kept, entry_of(wide))
}
