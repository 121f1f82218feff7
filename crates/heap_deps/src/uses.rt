//! Accesses that nodes make by the definitions of their bases.
ghost use Rattle.std.specs.Prelude.{◌≡◌, ◌<◌, ◌+◌, ◌≤◌, ℕ, length, option_map, slice_get, Some};
ghost use Rattle.dep_nodes.specs.OnceLists.{IsOnceEach};
ghost use Rattle.fact_sets.specs.FactLists.{IsInstance};
ghost use Rattle.fact_sets.specs.Seen.{Known, instance_seen};
ghost use Rattle.heap_deps.specs.Items.{GrowsOrStops};
ghost use Rattle.heap_deps.specs.Accesses.{UseMakes};

use crate::instructions::base_access;
use crate::objects::add_part_accesses;
use contexts::Contexts;
use dep_nodes::{DependenceGraph, GraphFault};
use dependence::facts::InstKey;
use dependence::flows::{Flow, Use};
use fact_sets::facts::Facts;
use fact_sets::numbered::Holder;
use jo_ids::{Id, InstanceId, NodeId};
use jo_prog::typed::Typed;
use method_views::bases::is_below;
use method_views::operands::named_by;

/// The number in the dependence graph of a node of a flow graph whose first node has that number there.
pub(crate) fn node_at(graph: &DependenceGraph, first: NodeId, n: u32) -> NodeId
    requires { first + n < length graph.now }
    ensures { result ≡ first + n }
{
    let _count = graph.len();
    Id::of(first.number() + n)
}

/// Adds the accesses that a node makes by a use of its base.
pub(crate) fn add_use_accesses<X: Contexts>(
    contexts: &X,
    facts: &Facts<X::C>,
    instance: InstanceId,
    key: &InstKey<X::C>,
    typed: &Typed,
    flow: &Flow,
    first: NodeId,
    u: &Use,
    graph: &mut DependenceGraph,
) -> Result<(), GraphFault>
    requires is { IsInstance facts.now.instances instance key.now }
    requires node { u.now.node < length flow.now }
    requires from { u.now.from < length flow.now }
    requires there { first + length flow.now ≤ length graph.old }
    ensures { GrowsOrStops result graph.old graph.new (UseMakes (Known X.list facts.now) (instance_seen X.list key.now) typed.now flow.now first u.now) }
{
    let _count = facts.instances();
    let Some(access) = base_access(flow.node(u.node)) else {
        return Ok(());
    };
    if !is_below(typed, access.pc, access.depth, u.place) {
        return Ok(());
    }
    let kind = named_by(flow.node(u.from).kind, u.place);
    let held = facts.held(&Holder::Node(instance, kind));
    let node = node_at(graph, first, u.node);
    add_part_accesses(contexts, facts, held, node, &access, graph)
}
