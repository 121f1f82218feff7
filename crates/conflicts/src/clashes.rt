//! Accessors of one cell on the two sides of a fork, one of them writing.
ghost use Rattle.std.specs.Prelude.{◌≡◌, ◌↔◌, IsTrue};
ghost use Rattle.conflicts.specs.Sides.{side_of};
ghost use Rattle.conflicts.specs.Clashes.{counts, IsOn, IsAccessorOn, IsOnBoth, IsClash};

use crate::sides::{Side, is_on};
use dep_nodes::Accessor;
use jo_ids::BitRow;
use thread_regions::ForkRegions;

/// Which accesses of a cell are looked for.
#[derive(Clone, Copy)]
pub enum Wanted {
    Any,
    Write,
}

/// An accessor that the fork's thread may run and one that may run behind the fork; both lead on, and one writes. Linear in
/// the accessors, which are those of one cell.
pub fn clash(
    regions: &ForkRegions,
    leads: &BitRow,
    accessors: &[Accessor],
) -> Option<(Accessor, Accessor)>
    ensures { IsClash regions.now leads.now accessors.now result }
{
    match on_both(regions, leads, accessors, Wanted::Write, Wanted::Any) {
        Some(both) => Some(both),
        None => on_both(regions, leads, accessors, Wanted::Any, Wanted::Write),
    }
}

/// The first of these accessors on each side of the fork.
fn on_both(
    regions: &ForkRegions,
    leads: &BitRow,
    accessors: &[Accessor],
    inside: Wanted,
    after: Wanted,
) -> Option<(Accessor, Accessor)>
    ensures { IsOnBoth regions.now leads.now inside after accessors.now result }
{
    let first = first_on(regions, Side::Child, leads, accessors, inside)?;
    let second = first_on(regions, Side::After, leads, accessors, after)?;
    Some((first, second))
}

/// The first wanted accessor that leads on and may run on that side.
fn first_on(
    regions: &ForkRegions,
    side: Side,
    leads: &BitRow,
    accessors: &[Accessor],
    wanted: Wanted,
) -> Option<Accessor>
    ensures { IsAccessorOn (side_of regions.now side) leads.now wanted accessors.now result }
{
    for accessor in accessors {
        if is_found(regions, side, leads, accessor, wanted) {
            return Some(*accessor);
        }
    }
    None
}

/// Whether the accessor is such a one.
fn is_found(
    regions: &ForkRegions,
    side: Side,
    leads: &BitRow,
    accessor: &Accessor,
    wanted: Wanted,
) -> bool
    ensures { IsTrue result ↔ IsOn (side_of regions.now side) leads.now wanted accessor.now }
{
    let number = accessor.node.number();
    number < leads.len()
        && leads.has(number)
        && is_on(regions, side, accessor.node)
        && is_wanted(accessor, wanted)
}

/// Whether the access is wanted.
fn is_wanted(accessor: &Accessor, wanted: Wanted) -> bool
    ensures { result ≡ counts wanted accessor.now.write }
{
    match wanted {
        Wanted::Any => true,
        Wanted::Write => accessor.write,
    }
}
