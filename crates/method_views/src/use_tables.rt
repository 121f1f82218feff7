//! Uses by their nodes.
ghost use Rattle.std.specs.Prelude.{◌≡◌, ◌↔◌, ℕ, ◌<◌, [], length, replicate, Contains, IfOk, OnOk};
ghost use Rattle.dependence.specs.declared.flows.Use.{Use as AUse};
ghost use Rattle.dependence.specs.FlowData.{AreUses};
ghost use Rattle.method_views.specs.UseTables.{AddsUse, IsUseTable, StandsAt};

use dependence::flows::{Flow, Use};
use jo_ids::{List, Memory};
use std::alloc::Global;
use std::marker::Model;

/// The uses of a flow graph, which contracts see as the list of those of each node.
#[derive(Drop)]
pub struct UseTable {
    rows: Vec<List<Use>>,
}

impl Model for UseTable {
    ghost use Rattle.std.specs.Prelude.{List as Items};
    ghost use Rattle.dependence.specs.declared.flows.Use.{Use};

    ghost Value = { Items (Items Use) };

    ghost view = { λ t. t.rows.items };
}

impl UseTable {
    /// The table of these uses.
    pub fn build(alloc: Global, wide: &Flow, uses: &[Use]) -> Result<UseTable, Memory>
        requires { AreUses wide.now uses.now }
        ensures { IfOk result (λ table. IsUseTable wide.now table) }
    {
        let mut rows = empty_rows(alloc, wide.len())?;
        for u in uses {
            add_use(&mut rows, u)?;
        }
        Ok(UseTable { rows })
    }

    /// The uses at a node, none where there is no such node.
    pub fn at(&self, node: u32) -> &[Use]
        ensures { (u : AUse) → Contains result.now u ↔ StandsAt self.now node u }
    {
        match self.rows.as_slice().get(node as usize) {
            Some(uses) => uses.as_slice(),
            None => &[],
        }
    }
}

/// So many rows without uses.
fn empty_rows(alloc: Global, count: u32) -> Result<Vec<List<Use>>, Memory>
    ensures { IfOk result (λ rows. rows.items ≡ replicate count []) }
{
    let mut rows = Vec::new(alloc);
    for _ in 0..count {
        rows.push(List::new(alloc))?;
    }
    Ok(rows)
}

/// Adds a use to the row of its node.
fn add_use(rows: &mut Vec<List<Use>>, u: &Use) -> Result<(), Memory>
    requires { u.now.node < length rows.old.items }
    ensures same { length rows.new.items ≡ length rows.old.items }
    ensures ok { OnOk result (AddsUse rows.old.items rows.new.items u.now) }
{
    match rows[u.node as usize].push(*u) {
        Ok(()) => Ok(()),
        Err(_) => Err(Memory),
    }
}
