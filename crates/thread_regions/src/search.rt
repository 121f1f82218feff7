//! The graph in which regions are searched. Beside the nodes it has a spot for the end of each instance and one for the
//! way back to each call, so that it stays as small as the dependence graph, and two for each fork where its searches begin.
ghost use Rattle.std.specs.Prelude.{◌≡◌, ◌*◌, ◌+◌, ◌<◌, ◌^◌, ℕ, length, All, IfOk, OnOk};
ghost use Rattle.thread_regions.specs.Searches.{number_of, AddsSpots, Just, ForEach, FlowPart, EdgePart, KindPart, NodePart, IsSearchGraph, AreGroups, EndsBelow, IsInsideAt};

use crate::places::{Group, first_nodes};
use dep_nodes::{DependenceGraph, EdgeKind, NodeKind};
use jo_graph::Digraph;
use jo_ids::{Id, Memory, NodeId};
use std::alloc::Global;

/// How many spots there are for each node.
pub const SPOTS: u32 = 5;

/// A spot of the search.
#[derive(Clone, Copy)]
pub enum Spot {
    /// A node.
    Node(u32),
    /// The end of the instance whose first node this is.
    EndOf(u32),
    /// The way back to the call whose first node this is.
    BackAt(u32),
    /// Where the search of a fork's child region begins.
    ChildOf(u32),
    /// Where the search of a fork's after region begins.
    AfterOf(u32),
}

impl Spot {
    pub fn number(self) -> u32
        requires { number_of self < 2 ^ 32 }
        ensures { result ≡ number_of self }
    {
        match self {
            Spot::Node(n) => SPOTS * n,
            Spot::EndOf(n) => SPOTS * n + 1,
            Spot::BackAt(n) => SPOTS * n + 2,
            Spot::ChildOf(n) => SPOTS * n + 3,
            Spot::AfterOf(n) => SPOTS * n + 4,
        }
    }
}

/// The search graph of a dependence graph.
pub fn search_graph(alloc: Global, graph: &DependenceGraph) -> Result<Digraph, Memory>
    requires { 5 * length graph.now < 2 ^ 32 }
    ensures { IfOk result (λ search. IsSearchGraph graph.now search) }
{
    let ends = first_nodes(alloc, graph, Group::Instances)?;
    let calls = first_nodes(alloc, graph, Group::Calls)?;
    let mut search = Digraph::new(alloc, SPOTS * graph.len())?;
    for n in 0..graph.len() {
        add_node(&mut search, graph, n, ends.as_slice(), calls.as_slice())?;
    }
    Ok(search)
}

/// Adds what leads on from a node, what leads to it in calls and threads, and its way back to a call.
fn add_node(
    search: &mut Digraph,
    graph: &DependenceGraph,
    n: u32,
    ends: &[u32],
    calls: &[u32],
) -> Result<(), Memory>
    requires node { n < length graph.now }
    requires size { length search.old ≡ 5 * length graph.now }
    requires room { length search.old < 2 ^ 32 }
    requires groups { AreGroups graph.now ends.now calls.now }
    ensures adds { OnOk result (AddsSpots search.old search.new (NodePart graph.now ends.now calls.now n)) }
    ensures inside { OnOk result (IsInsideAt graph.now n) }
{
    add_flows(search, n, graph.flows_from(Id::of(n)))?;
    add_edges(search, n, graph.edges_into(Id::of(n)), ends, calls)?;
    add_return(search, n, graph.node(Id::of(n)).kind, ends, calls)
}

/// Adds the flow edges from a node, also from where the search of its after region begins.
fn add_flows(search: &mut Digraph, n: u32, flows: &[NodeId]) -> Result<(), Memory>
    requires room { length search.old < 2 ^ 32 }
    requires node { 5 * n + 4 < length search.old }
    requires inside { All (λ to. 5 * to + 4 < length search.old) flows.now }
    ensures { OnOk result (AddsSpots search.old search.new (ForEach flows.now (FlowPart n))) }
{
    for to in flows {
        add_flow(search, n, to.number())?;
    }
    Ok(())
}

fn add_flow(search: &mut Digraph, n: u32, to: u32) -> Result<(), Memory>
    requires room { length search.old < 2 ^ 32 }
    requires node { 5 * n + 4 < length search.old }
    requires inside { 5 * to + 4 < length search.old }
    ensures { OnOk result (AddsSpots search.old search.new (FlowPart n to)) }
{
    connect(search, Spot::Node(n), Spot::Node(to))?;
    connect(search, Spot::AfterOf(n), Spot::Node(to))
}

/// Adds what the dependence edges into a node say of calls and threads.
fn add_edges(
    search: &mut Digraph,
    n: u32,
    edges: &[(NodeId, EdgeKind)],
    ends: &[u32],
    calls: &[u32],
) -> Result<(), Memory>
    requires room { length search.old < 2 ^ 32 }
    requires node { 5 * n + 4 < length search.old }
    requires inside { All (λ edge. 5 * edge.0 + 4 < length search.old) edges.now }
    requires ends { EndsBelow ends.now (length search.old) }
    requires calls { EndsBelow calls.now (length search.old) }
    ensures { OnOk result (AddsSpots search.old search.new (ForEach edges.now (EdgePart ends.now calls.now n))) }
{
    for (from, kind) in edges {
        add_edge(search, n, from.number(), *kind, ends, calls)?;
    }
    Ok(())
}

fn add_edge(
    search: &mut Digraph,
    n: u32,
    from: u32,
    kind: EdgeKind,
    ends: &[u32],
    calls: &[u32],
) -> Result<(), Memory>
    requires room { length search.old < 2 ^ 32 }
    requires node { 5 * n + 4 < length search.old }
    requires inside { 5 * from + 4 < length search.old }
    requires ends { EndsBelow ends.now (length search.old) }
    requires calls { EndsBelow calls.now (length search.old) }
    ensures { OnOk result (AddsSpots search.old search.new (EdgePart ends.now calls.now n (from, kind))) }
{
    match kind {
        EdgeKind::Call => {
            connect(search, Spot::Node(from), Spot::Node(n))?;
            connect(
                search,
                Spot::EndOf(ends[n as usize]),
                Spot::BackAt(calls[from as usize]),
            )
        }
        EdgeKind::Fork => {
            let start = Spot::Node(n);
            connect(search, Spot::Node(from), start)?;
            connect(search, Spot::ChildOf(from), start)
        }
        _ => Ok(()),
    }
}

/// Adds the way from an Exit to the end of its instance, or to a RetKind from the way back to its call.
fn add_return(
    search: &mut Digraph,
    n: u32,
    kind: NodeKind,
    ends: &[u32],
    calls: &[u32],
) -> Result<(), Memory>
    requires room { length search.old < 2 ^ 32 }
    requires node { 5 * n + 4 < length search.old }
    requires ends { EndsBelow ends.now (length search.old) }
    requires calls { EndsBelow calls.now (length search.old) }
    ensures { OnOk result (AddsSpots search.old search.new (KindPart ends.now calls.now n kind)) }
{
    match kind {
        NodeKind::Exit => connect(search, Spot::Node(n), Spot::EndOf(ends[n as usize])),
        NodeKind::RetKind(_) => connect(search, Spot::BackAt(calls[n as usize]), Spot::Node(n)),
        _ => Ok(()),
    }
}

fn connect(search: &mut Digraph, from: Spot, to: Spot) -> Result<(), Memory>
    requires room { length search.old < 2 ^ 32 }
    requires from { number_of from < length search.old }
    requires to { number_of to < length search.old }
    ensures { OnOk result (AddsSpots search.old search.new (Just from to)) }
{
    search.add(from.number(), to.number())
}
