//! Nodes that may run on the two sides of a fork.
ghost use Rattle.std.specs.Prelude.{◌≡◌};
ghost use Rattle.jo_ids.specs.Rows.{has_number};
ghost use Rattle.conflicts.specs.Sides.{side_of, IsSeenOn};

use jo_ids::{BitRow, Id, NodeId};
use thread_regions::ForkRegions;

/// The thread that a fork starts, or what runs on behind it.
#[derive(Clone, Copy)]
pub enum Side {
    Child,
    After,
}

/// Whether the node may run on that side of the fork.
pub fn is_on(regions: &ForkRegions, side: Side, node: NodeId) -> bool
    ensures { result ≡ has_number (side_of regions.now side) node }
{
    match side {
        Side::Child => regions.in_child(node),
        Side::After => regions.in_after(node),
    }
}

/// The first node of the set that may run on that side.
pub fn first_seen(regions: &ForkRegions, side: Side, set: &BitRow) -> Option<NodeId>
    ensures { IsSeenOn (side_of regions.now side) set.now result }
{
    for n in 0..set.len() {
        if set.has(n) && is_on(regions, side, Id::of(n)) {
            return Some(Id::of(n));
        }
    }
    None
}
