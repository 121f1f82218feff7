//! The pairs, by a search from each branching node.
ghost use Rattle.std.specs.Prelude.{◌≡◌, ◌↔◌, ◌<◌, length, IfOk, IsTrue, OnOk};
ghost use Rattle.dep_nodes.specs.OnceLists.{IsOnceEach};
ghost use Rattle.dependence.specs.FlowData.{AreControls};
ghost use Rattle.control_dep.specs.Pairs.{HasTwo, AreControlled, AddsPairsFrom, IsControlled};

use dep_nodes::NodeKind;
use dependence::flows::{Controls, Flow};
use dependence::searches::reach_behind;
use jo_ids::{BitRow, List, Memory};
use std::alloc::Global;

/// The pairs of nodes of a flow graph, the first of which controls the second, each once. It takes a search of the graph for
/// each node with two successors, and time for each pair.
pub fn controllers(alloc: Global, flow: &Flow) -> Result<Controls, Memory>
    ensures { IfOk result (λ pairs. AreControls flow.now pairs) }
{
    let mut found = BitRow::with_len(alloc, flow.len())?;
    let mut places = vec![in alloc; 0; flow.len() as usize]?;
    let queue = places.as_mut_slice();
    let mut pairs = List::new(alloc);
    for b in 0..flow.len() {
        add_pairs_from(flow, b, &mut found, queue, &mut pairs)?;
    }
    Ok(pairs)
}

/// Adds the pairs of a node with what it controls.
fn add_pairs_from(
    flow: &Flow,
    b: u32,
    found: &mut BitRow,
    queue: &mut [u32],
    pairs: &mut Controls,
) -> Result<(), Memory>
    requires b { b < length flow.now }
    requires found { length found.old ≡ length flow.now }
    requires queue { length queue.old ≡ length flow.now }
    ensures pairs { OnOk result (AddsPairsFrom flow.now b pairs.old pairs.new) }
    ensures found { length found.new ≡ length flow.now }
    ensures queue { length queue.new ≡ length flow.now }
{
    if !branches(flow.successors(b)) {
        return Ok(());
    }
    reach_behind(flow, b, None, found, queue);
    add_controlled(flow, b, found, pairs)
}

/// Whether two of the successors differ.
fn branches(successors: &[u32]) -> bool
    requires { IsOnceEach successors.now }
    ensures { IsTrue result ↔ HasTwo successors.now }
{
    successors.len() > 1
}

/// Adds the pairs of a branching node with what was found behind it.
fn add_controlled(flow: &Flow, b: u32, found: &BitRow, pairs: &mut Controls) -> Result<(), Memory>
    requires found { AreControlled flow.now b found.now }
    ensures { OnOk result (AddsPairsFrom flow.now b pairs.old pairs.new) }
{
    for n in 0..flow.len() {
        if is_controlled(flow, found, n) {
            match pairs.push((b, n)) {
                Ok(()) => {}
                Err((_, memory)) => return Err(memory),
            }
        }
    }
    Ok(())
}

/// Whether the node was found and is no exit.
fn is_controlled(flow: &Flow, found: &BitRow, n: u32) -> bool
    requires n { n < length flow.now }
    requires found { length found.now ≡ length flow.now }
    ensures { IsTrue result ↔ IsControlled flow.now found.now n }
{
    found.has(n) && !is_exit(flow.node(n).kind)
}

fn is_exit(kind: NodeKind) -> bool
    ensures { IsTrue result ↔ (kind ≡ NodeKind.Exit) }
{
    kind == NodeKind::Exit
}
