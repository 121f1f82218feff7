//! The closure: each call that leads through is led over.
ghost use Rattle.std.specs.Prelude.{◌≡◌, ◌≢◌, ◌↔◌, ◌<◌, length, Contains, IfOk, OnOk};
ghost use Rattle.jo_graph.specs.Graphs.{IsReach};
ghost use Rattle.summary_edges.specs.Levels.{AreLevels, AreMatched, AreClosed, IsJoin, Leading, IsRound};
ghost use Rattle.summary_edges.specs.declared.joins.Join.{Join as JoinOf};

use crate::joins::Join;
use dep_nodes::DependenceGraph;
use jo_graph::{Digraph, Work};
use jo_ids::{BitRow, Memory};
use std::alloc::Global;

/// Finds what the node reaches, unless it is the last one, for which that is found.
fn reach_anew(levels: &Digraph, start: u32, last: u32, found: &mut BitRow, work: &mut Work)
    requires start { start < length levels.now }
    requires found { length found.old ≡ length levels.now }
    requires work { work.old ≡ length levels.now }
    ensures anew { start ≢ last → IsReach levels.now start found.new }
    ensures same { start ≡ last → found.new ≡ found.old }
    ensures length { length found.new ≡ length found.old }
    ensures work { work.new ≡ work.old }
{
    if start != last {
        levels.reach(start, found, work);
    }
}

/// Leads over the call of a join that leads through, or keeps the join among those that are left.
fn lead(
    levels: &mut Digraph,
    join: &Join,
    through: bool,
    left: &mut Vec<Join>,
) -> Result<(), Memory>
    requires from { join.now.from < length levels.old }
    requires to { join.now.to < length levels.old }
    ensures ok { OnOk result (Leading through join.now levels.old levels.new left.old.items left.new.items) }
    ensures length { length levels.new ≡ length levels.old }
{
    if through {
        levels.add(join.to.number(), join.from.number())?;
    } else {
        left.push(*join)?;
    }
    Ok(())
}

/// Leads over each of these calls that leads through, and gives the joins that are left. While none is led over, what was
/// reached from a node is kept for the joins that follow with the same one.
fn lead_over(
    alloc: Global,
    graph: &DependenceGraph,
    levels: &mut Digraph,
    joins: &[Join],
    found: &mut BitRow,
    work: &mut Work,
) -> Result<Vec<Join>, Memory>
    requires count { length levels.old ≡ length graph.now }
    requires matched { AreMatched graph.now levels.old }
    requires joins { (j : JoinOf) → Contains joins.now j → IsJoin graph.now j }
    requires found { length found.old ≡ length graph.now }
    requires work { work.old ≡ length graph.now }
    ensures round { IfOk result (λ left. IsRound graph.now joins.now levels.old levels.new left.items) }
    ensures found { length found.new ≡ length found.old }
    ensures work { work.new ≡ work.old }
{
    let mut left = Vec::new(alloc);
    let mut last = graph.len();
    for join in joins {
        let out = join.out.number();
        reach_anew(levels, out, last, found, work);
        last = out;
        let through = found.has(join.into.number());
        lead(levels, join, through, &mut left)?;
    }
    Ok(left)
}

/// Leads over every call that leads through, until none is left that does.
pub fn close(
    alloc: Global,
    graph: &DependenceGraph,
    levels: &mut Digraph,
    joins: Vec<Join>,
) -> Result<(), Memory>
    requires levels { AreLevels graph.now levels.old }
    requires joins { (j : JoinOf) → Contains joins.items j ↔ IsJoin graph.now j }
    ensures { OnOk result (AreClosed graph.now levels.new) }
{
    let mut found = BitRow::with_len(alloc, graph.len())?;
    let mut work = Work::with_len(alloc, graph.len())?;
    let mut joins = joins;
    loop {
        let left = lead_over(
            alloc,
            graph,
            levels,
            joins.as_slice(),
            &mut found,
            &mut work,
        )?;
        if left.len() == joins.len() {
            return Ok(());
        }
        joins = left;
    }
}
