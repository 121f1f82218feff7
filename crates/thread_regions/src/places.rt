//! The instances and the calls to which nodes belong, each by the number of its first node.
ghost use Rattle.std.specs.Prelude.{◌≡◌, ◌<◌, ◌^◌, length, map, IfOk, OnOk, unwrap_or};
ghost use Rattle.std.specs.HashMap.{get};
ghost use Rattle.dep_nodes.specs.Nodes.{pc_of};
ghost use Rattle.thread_regions.specs.Places.{place_of, same_place, Notes, AreFirsts};

use dep_nodes::{DependenceGraph, NodeKind, NodeName};
use jo_ids::{Id, Memory};
use std::alloc::Global;
use std::collections::HashMap;

/// What nodes are grouped by.
#[derive(Clone, Copy)]
pub enum Group {
    Instances,
    Calls,
}

/// An instance, or a call at a pc of one, in one form each.
#[derive(Clone, Copy, PartialEq, Eq, Hash)]
pub struct Place {
    method: u32,
    first: Option<u32>,
    second: Option<u32>,
    pc: Option<u32>,
}

/// The instance or the call of a node.
fn make_place(name: &NodeName, group: Group) -> Place
    ensures { result ≡ place_of group name.now }
{
    let sites = name.sites;
    Place {
        method: name.method.number(),
        first: if sites.len > 0 {
            Some(sites.first.number())
        } else {
            None
        },
        second: if sites.len > 1 {
            Some(sites.second.number())
        } else {
            None
        },
        pc: match group {
            Group::Instances => None,
            Group::Calls => pc(name.kind),
        },
    }
}

/// The pc of a node that has one.
fn pc(kind: NodeKind) -> Option<u32>
    ensures { result ≡ pc_of kind }
{
    match kind {
        NodeKind::Instr(pc) => Some(pc),
        NodeKind::Call(pc) => Some(pc),
        NodeKind::RetVal(pc) => Some(pc),
        NodeKind::RetKind(pc) => Some(pc),
        NodeKind::Throw(pc) => Some(pc),
        NodeKind::Poll(pc, _) => Some(pc),
        NodeKind::XPoll(pc, _) => Some(pc),
        NodeKind::Arg(pc, _) => Some(pc),
        _ => None,
    }
}

/// The number under which the place is known, or the given one, under which it is known then.
fn note(known: &mut HashMap<Place, u32>, place: &Place, number: u32) -> Result<u32, Memory>
    ensures { IfOk result (λ first. Notes (get same_place known.old) (get same_place known.new) place.now number first) }
{
    match known.get(place) {
        Some(first) => Ok(*first),
        None => {
            known.insert(*place, number)?;
            Ok(number)
        }
    }
}

/// For each node the number of the first node with the same instance or call.
pub fn first_nodes(alloc: Global, graph: &DependenceGraph, group: Group) -> Result<Vec<u32>, Memory>
    ensures { IfOk result (λ firsts. AreFirsts (map (λ n. place_of group n.name) graph.now) firsts.items) }
{
    let mut known = HashMap::new(alloc);
    let mut firsts = Vec::new(alloc);
    for n in 0..graph.len() {
        let place = make_place(graph.node(Id::of(n)), group);
        let first = note(&mut known, &place, n)?;
        firsts.push(first)?;
    }
    Ok(firsts)
}
