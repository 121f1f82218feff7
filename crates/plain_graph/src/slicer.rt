//! Walks of a graph to its criteria, found backwards along its edges.
ghost use Rattle.std.specs.Prelude.{◌≡◌, ◌↔◌, ◌+◌, ◌++◌, ◌∷◌, [], OnOk, ◌<◌, ◌^◌, ℕ, List as Items, length, replicate, Contains, IsTrue, IfOk, IfSome, IfNone, true, false};
ghost use Rattle.std.specs.Bool.{OnFalse, OnTrue};
ghost use Rattle.dep_nodes.specs.Graphs.{EdgeAt, IsWalk, WalksTo, walk_end};
ghost use Rattle.plain_graph.specs.Slices.{mark_at, is_marked, IsMarkedAt, distance_of, unmarked_count, IsMarking, OnlyGrows, IsClosedAt, IsClosed, HasEdgesInside, AreInside, HasNoStep, AreMarkedAs, FitsGraph, IsMarked, IsSliceOf, IsFirstWith};

use dep_nodes::{Chain, Edge, Graph, Step, Word};
use jo_ids::{List, Memory, NodeId};
use std::alloc::{AllocError, Global};

/// How a node comes to a criterion.
#[derive(Clone, Copy)]
enum Mark {
    /// No walk to one is known.
    Unmarked,
    /// It is one itself.
    Criterion,
    /// By a step to a marked node, and in no more steps than `distance`.
    Next { step: Step, distance: u32 },
}

/// From which nodes of a graph a walk leads to the criteria, and how it goes on there.
#[derive(Drop)]
pub struct Slicer {
    marks: Vec<Mark>,
}

impl Mark {
    fn is_marked(&self) -> bool
        ensures { result ≡ is_marked self.now }
    {
        match self {
            Mark::Unmarked => false,
            Mark::Criterion => true,
            Mark::Next { .. } => true,
        }
    }

    fn distance(&self) -> u32
        ensures { result ≡ distance_of self.now }
    {
        match self {
            Mark::Unmarked => 0,
            Mark::Criterion => 0,
            Mark::Next { distance, .. } => *distance,
        }
    }
}

/// The mark of a node.
fn mark_of(marks: &[Mark], node: NodeId) -> Mark
    ensures { result ≡ mark_at marks.now node }
{
    match marks.get(node.number() as usize) {
        Some(mark) => *mark,
        None => Mark::Unmarked,
    }
}

/// Marks the begin of an edge whose end is marked, and says whether that was news.
fn follow_back(graph: &Graph, marks: &mut Vec<Mark>, edge: Edge) -> bool
    requires small { length graph.now.nodes < 2 ^ 32 }
    requires marking { IsMarking graph.now marks.old.items }
    requires of_graph { EdgeAt graph.now edge.from edge.kind edge.to }
    requires inside { edge.from < length graph.now.nodes }
    ensures marking { IsMarking graph.now marks.new.items }
    ensures grows { OnlyGrows marks.old.items marks.new.items }
    ensures news { OnTrue result (unmarked_count marks.new.items < unmarked_count marks.old.items) }
    ensures none { OnFalse result (marks.new.items ≡ marks.old.items) }
    ensures closed { IsClosedAt marks.new.items edge }
{
    let Edge { from, kind, to } = edge;
    let end = mark_of(marks.as_slice(), to);
    if !end.is_marked() || mark_of(marks.as_slice(), from).is_marked() {
        return false;
    }
    let word = Word::Edge(kind);
    let distance = end.distance() + 1;
    let step = Step { word, to };
    let next = Mark::Next { step, distance };
    marks[from.number() as usize] = next;
    true
}

/// Follows each edge back once, and says whether a mark was news.
fn follow_all_back(graph: &Graph, marks: &mut Vec<Mark>) -> bool
    requires small { length graph.now.nodes < 2 ^ 32 }
    requires marking { IsMarking graph.now marks.old.items }
    requires inside { HasEdgesInside graph.now }
    ensures marking { IsMarking graph.now marks.new.items }
    ensures grows { OnlyGrows marks.old.items marks.new.items }
    ensures news { OnTrue result (unmarked_count marks.new.items < unmarked_count marks.old.items) }
    ensures closed { OnFalse result (IsClosed graph.now marks.new.items) }
{
    let mut news = false;
    for edge in graph.edges.as_slice() {
        if follow_back(graph, marks, *edge) {
            news = true;
        }
    }
    news
}

/// Follows edges back until no mark is news.
fn spread(graph: &Graph, marks: &mut Vec<Mark>)
    requires small { length graph.now.nodes < 2 ^ 32 }
    requires marking { IsMarking graph.now marks.old.items }
    requires inside { HasEdgesInside graph.now }
    ensures marking { IsMarking graph.now marks.new.items }
    ensures grows { OnlyGrows marks.old.items marks.new.items }
    ensures closed { IsClosed graph.now marks.new.items }
{
    loop {
        if !follow_all_back(graph, marks) {
            return;
        }
    }
}

/// Forgets all marks.
fn clear(marks: &mut Vec<Mark>)
    ensures { marks.new.items ≡ replicate (length marks.old.items) Mark.Unmarked }
{
    for mark in marks.iter_mut() {
        *mark = Mark::Unmarked;
    }
}

/// Marks the criteria.
fn mark_criteria(marks: &mut Vec<Mark>, criteria: &[NodeId])
    requires inside { (n : ℕ) → Contains criteria.now n → n < length marks.old.items }
    requires empty { (n : ℕ) → mark_at marks.old.items n ≡ Mark.Unmarked }
    ensures same_length { length marks.new.items ≡ length marks.old.items }
    ensures marked { AreMarkedAs marks.new.items criteria.now }
    ensures no_other { (n : ℕ) → HasNoStep (mark_at marks.new.items n) }
{
    for criterion in criteria {
        marks[criterion.number() as usize] = Mark::Criterion;
    }
}

/// Adds a step to a list of steps.
fn push_step(steps: &mut List<Step>, step: Step) -> Result<(), Memory>
    ensures { OnOk result (steps.new ≡ steps.old ++ step ∷ []) }
{
    match steps.push(step) {
        Ok(()) => Ok(()),
        Err((_, memory)) => Err(memory),
    }
}

/// The walk that the marks give from a marked node.
fn follow(alloc: Global, graph: &Graph, marks: &[Mark], from: NodeId) -> Result<List<Step>, Memory>
    requires marking { IsMarking graph.now marks.now }
    requires marked { IsMarkedAt marks.now from }
    ensures walk { IfOk result (λ steps. IsWalk graph.now from steps) }
    ensures short { IfOk result (λ steps. length steps < length graph.now.nodes) }
    ensures criterion { IfOk result (λ steps. mark_at marks.now (walk_end from steps) ≡ Mark.Criterion) }
{
    let mut steps = List::new(alloc);
    let mut at = from;
    loop {
        match mark_of(marks, at) {
            Mark::Next { step, .. } => {
                at = step.to;
                push_step(&mut steps, step)?;
            }
            _ => return Ok(steps),
        }
    }
}

impl Slicer {
    /// A slicer for the graph, that has marked no node.
    pub fn new(alloc: Global, graph: &Graph) -> Result<Slicer, Memory>
        ensures fits { IfOk result (λ slicer. FitsGraph slicer graph.now) }
        ensures none { IfOk result (λ slicer. (n : ℕ) → IsMarked slicer n → ⊥) }
    {
        let count = graph.nodes.as_slice().len();
        let marks = vec![in alloc; Mark::Unmarked; count]?;
        Ok(Slicer { marks })
    }

    /// Marks the nodes from which a walk leads to a criterion, and forgets older marks. It follows the edges in rounds
    /// until no mark is news.
    pub fn mark(&mut self, graph: &Graph, criteria: &[NodeId])
        requires small { length graph.now.nodes < 2 ^ 32 }
        requires fits { FitsGraph self.old graph.now }
        requires edges { HasEdgesInside graph.now }
        requires criteria { AreInside graph.now criteria.now }
        ensures { IsSliceOf self.new graph.now criteria.now }
    {
        clear(&mut self.marks);
        mark_criteria(&mut self.marks, criteria);
        spread(graph, &mut self.marks);
    }

    /// Whether the node is marked.
    pub fn marked(&self, node: NodeId) -> bool
        ensures { IsTrue result ↔ IsMarked self.now node }
    {
        mark_of(self.marks.as_slice(), node).is_marked()
    }

    /// A walk from a marked node to one of the criteria for which the nodes were marked.
    pub fn chain(&self, alloc: Global, graph: &Graph, from: NodeId) -> Result<Chain, Memory>
        requires slice { (criteria : Items ℕ) × IsSliceOf self.now graph.now criteria }
        requires marked { IsMarked self.now from }
        ensures start { IfOk result (λ c. c.start ≡ from) }
        ensures walk { IfOk result (λ c. IsWalk graph.now from c.steps) }
        ensures end { IfOk result (λ c. (criteria : Items ℕ) → IsSliceOf self.now graph.now criteria
            → Contains criteria (walk_end from c.steps)) }
        ensures short { IfOk result (λ c. length c.steps < length graph.now.nodes) }
    {
        let steps = follow(alloc, graph, self.marks.as_slice(), from)?;
        Ok(Chain { start: from, steps })
    }
}

/// A walk from the first of the nodes that has one to a criterion. None where none of them has one.
pub fn find_walk(
    alloc: Global,
    graph: &Graph,
    from: &[NodeId],
    criteria: &[NodeId],
) -> Result<Option<Chain>, Memory>
    requires small { length graph.now.nodes < 2 ^ 32 }
    requires edges { HasEdgesInside graph.now }
    requires criteria { AreInside graph.now criteria.now }
    ensures found { IfOk result (λ o. IfSome o (λ c. Contains from.now c.start
        × IsWalk graph.now c.start c.steps × Contains criteria.now (walk_end c.start c.steps))) }
    ensures first { IfOk result (λ o. IfSome o (λ c. IsFirstWith graph.now criteria.now from.now c.start)) }
    ensures short { IfOk result (λ o. IfSome o (λ c. length c.steps < length graph.now.nodes)) }
    ensures none { IfOk result (λ o. IfNone o
        ((n : ℕ) → Contains from.now n → WalksTo graph.now criteria.now n → ⊥)) }
{
    let mut slicer = Slicer::new(alloc, graph)?;
    slicer.mark(graph, criteria);
    for node in from {
        if slicer.marked(*node) {
            return Ok(Some(slicer.chain(alloc, graph, *node)?));
        }
    }
    Ok(None)
}
