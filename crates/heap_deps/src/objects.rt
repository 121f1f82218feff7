//! Accesses to parts of objects that a node holds.
ghost use Rattle.std.specs.Prelude.{◌≡◌, ◌<◌, ℕ, length, Contains};
ghost use Rattle.fact_sets.specs.Seen.{object_seen};
ghost use Rattle.heap_deps.specs.Adds.{From};
ghost use Rattle.heap_deps.specs.Items.{GrowsOrStops};
ghost use Rattle.heap_deps.specs.ObjectCells;
ghost use Rattle.heap_deps.specs.ObjectCells.{OfObject, IsPartAccess};

use crate::additions::add_access;
use crate::instructions::{BaseAccess, Part};
use contexts::Contexts;
use dep_nodes::{Cell, DependenceGraph, GraphFault, ObjName};
use fact_sets::facts::Facts;
use jo_ids::{NodeId, ObjKey, ObjectId};

/// The one name of an object.
pub(crate) fn name_of<X: Contexts>(contexts: &X, object: ObjKey<X::C>) -> ObjName
    ensures { result ≡ ObjectCells.name_of (object_seen X.list object) }
{
    ObjName {
        site: object.site,
        sites: contexts.sites(object.context),
    }
}

fn cell_of(part: &Part, object: ObjName) -> Cell
    ensures { result ≡ ObjectCells.cell_of part.now object }
{
    match part {
        Part::Field(field) => Cell::Field(*field, object),
        Part::Elements => Cell::Elements(object),
    }
}

/// Adds the access of a node to a part of each of these objects.
pub(crate) fn add_part_accesses<X: Contexts>(
    contexts: &X,
    facts: &Facts<X::C>,
    held: &[ObjectId],
    node: NodeId,
    access: &BaseAccess,
    graph: &mut DependenceGraph,
) -> Result<(), GraphFault>
    requires node { node < length graph.old }
    requires there { (o : ℕ) → Contains held.now o → o < length facts.now.objects }
    ensures { GrowsOrStops result graph.old graph.new (From held.now (OfObject X.list facts.now.objects (IsPartAccess node access.now.part access.now.write))) }
{
    for id in held {
        let name = name_of(contexts, facts.object(*id));
        add_access(graph, node, cell_of(&access.part, name), access.write)?;
    }
    Ok(())
}
