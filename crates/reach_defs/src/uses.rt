//! The uses with their definitions, by a search from each definition.
ghost use Rattle.std.specs.Prelude.{◌≡◌, ◌↔◌, ◌<◌, length, IfOk, IsTrue, OnOk, Some};
ghost use Rattle.dependence.specs.FlowData.{AreUses, WritesIn};
ghost use Rattle.dependence.specs.Behind.{AreBehind};
ghost use Rattle.reach_defs.specs.Uses.{AddsUsesFrom, AddsUsesOf, IsReader};

use dependence::flow::Place;
use dependence::flows::{Flow, Use, Uses};
use dependence::searches::reach_behind;
use jo_ids::{BitRow, List, Memory};
use std::alloc::Global;

/// The uses of a flow graph, each with a definition that reaches it, for each such definition once. It takes a search for
/// each place that a node writes, up to the next writers of that place.
pub fn sources(alloc: Global, flow: &Flow) -> Result<Uses, Memory>
    ensures { IfOk result (λ uses. AreUses flow.now uses) }
{
    let mut found = BitRow::with_len(alloc, flow.len())?;
    let mut places = vec![in alloc; 0; flow.len() as usize]?;
    let queue = places.as_mut_slice();
    let mut uses = List::new(alloc);
    for d in 0..flow.len() {
        add_uses_from(flow, d, &mut found, queue, &mut uses)?;
    }
    Ok(uses)
}

/// Adds the uses that the definitions at a node reach.
fn add_uses_from(
    flow: &Flow,
    d: u32,
    found: &mut BitRow,
    queue: &mut [u32],
    uses: &mut Uses,
) -> Result<(), Memory>
    requires d { d < length flow.now }
    requires found { length found.old ≡ length flow.now }
    requires queue { length queue.old ≡ length flow.now }
    ensures uses { OnOk result (AddsUsesFrom flow.now d uses.old uses.new) }
    ensures found { length found.new ≡ length flow.now }
    ensures queue { length queue.new ≡ length flow.now }
{
    let written = flow.writes(d);
    for place in written {
        reach_behind(flow, d, Some(*place), found, queue);
        add_readers(flow, d, *place, found, uses)?;
    }
    Ok(())
}

/// Adds the uses of a place among what was found behind its definition.
fn add_readers(
    flow: &Flow,
    d: u32,
    place: Place,
    found: &BitRow,
    uses: &mut Uses,
) -> Result<(), Memory>
    requires writes { WritesIn flow.now d place }
    requires found { AreBehind flow.now (Some place) d found.now }
    ensures { OnOk result (AddsUsesOf flow.now d place uses.old uses.new) }
{
    for node in 0..flow.len() {
        if is_reader(flow, found, node, place) {
            let reader = Use {
                node,
                place,
                from: d,
            };
            match uses.push(reader) {
                Ok(()) => {}
                Err((_, memory)) => return Err(memory),
            }
        }
    }
    Ok(())
}

/// Whether the node was found and reads the place.
fn is_reader(flow: &Flow, found: &BitRow, node: u32, place: Place) -> bool
    requires node { node < length flow.now }
    requires found { length found.now ≡ length flow.now }
    ensures { IsTrue result ↔ IsReader flow.now found.now node place }
{
    found.has(node) && flow.reads(node).contains(&place)
}
