//! The first number of a graph that is on a cycle.
ghost use Rattle.std.specs.Prelude.{◌≡◌, ◌↔◌, ◌<◌, ◌^◌, ℕ, length, IfOk, OnOk, IsTrue};
ghost use Rattle.std.specs.List.{Contains};
ghost use Rattle.hierarchy.specs.Orders.{LeadsInside};
ghost use Rattle.hierarchy.specs.Cycles.{AddsEdges, HasEdgesOf, LeadsTo, IsFirstOnCycle};

use crate::orders::edges_at;
use jo_graph::{Digraph, Work};
use jo_ids::{BitRow, ClassId, Id, List, Memory};
use std::alloc::Global;

fn add_edges(graph: &mut Digraph, number: u32, next: &[ClassId]) -> Result<(), Memory>
    requires from { number < length graph.old }
    requires to { (p : ℕ) → Contains next.now p → p < length graph.old }
    ensures { OnOk result (AddsEdges graph.old graph.new number next.now) }
{
    for class in next {
        graph.add(number, class.number())?;
    }
    Ok(())
}

fn digraph_of(alloc: Global, graph: &[List<ClassId>]) -> Result<Digraph, Memory>
    requires short { length graph.now < 2 ^ 32 }
    requires inside { LeadsInside graph.now }
    ensures { IfOk result (λ made. HasEdgesOf graph.now made (length graph.now)) }
{
    let count = graph.len() as u32;
    let mut made = Digraph::new(alloc, count)?;
    for number in 0..count {
        add_edges(&mut made, number, edges_at(graph, number))?;
    }
    Ok(made)
}

/// Whether a way leads from one of the parents to a number.
fn leads_to(
    graph: &Digraph,
    parents: &[ClassId],
    number: u32,
    found: &mut BitRow,
    work: &mut Work,
) -> bool
    requires number { number < length graph.now }
    requires parents { (p : ℕ) → Contains parents.now p → p < length graph.now }
    requires found { length found.old ≡ length graph.now }
    requires work { work.old ≡ length graph.now }
    ensures leads { IsTrue result ↔ LeadsTo graph.now parents.now number }
    ensures found { length found.new ≡ length graph.now }
    ensures work { work.new ≡ length graph.now }
{
    for parent in parents {
        graph.reach(parent.number(), found, work);
        if found.has(number) {
            return true;
        }
    }
    false
}

/// The first number that is on a cycle.
pub(crate) fn first_on_cycle(
    alloc: Global,
    graph: &[List<ClassId>],
) -> Result<Option<ClassId>, Memory>
    requires short { length graph.now < 2 ^ 32 }
    requires inside { LeadsInside graph.now }
    ensures { IfOk result (λ found. IsFirstOnCycle graph.now found) }
{
    let made = digraph_of(alloc, graph)?;
    let count = graph.len() as u32;
    let mut found = BitRow::with_len(alloc, count)?;
    let mut work = Work::with_len(alloc, count)?;
    for number in 0..count {
        let parents = edges_at(graph, number);
        if leads_to(&made, parents, number, &mut found, &mut work) {
            return Ok(Some(Id::of(number)));
        }
    }
    Ok(None)
}
