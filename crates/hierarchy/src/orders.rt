//! For each number of a graph the order of a walk from there, with each number once.
ghost use Rattle.std.specs.Prelude.{◌≡◌, ◌↔◌, ◌<◌, ◌^◌, ◌++◌, ◌∷◌, [], length, IfOk, OnOk, IsTrue};
ghost use Rattle.std.specs.List.{Contains};
ghost use Rattle.jo_prog.specs.Walks.{IsAcyclic};
ghost use Rattle.hierarchy.specs.Orders.{SameFirst, edges, IsMade, LeadsInside, AreRight, IsOrderOf, Visits, GoesOn, AreWalks};

use jo_ids::{ClassId, Id, List, Memory};
use jo_prog::lists::add;
use std::alloc::Global;

/// The numbers to which edges lead from a number, or the order that it has; none where the number isn't there.
pub(crate) fn edges_at(graph: &[List<ClassId>], number: u32) -> &[ClassId]
    ensures { result.now ≡ edges graph.now number }
{
    match graph.get(number as usize) {
        Some(row) => row.as_slice(),
        None => &[],
    }
}

/// Whether a number has its order.
fn is_made(orders: &[List<ClassId>], number: u32) -> bool
    ensures { IsTrue result ↔ IsMade orders.now number }
{
    edges_at(orders, number).len() > 0
}

/// Whether the class is in the order.
pub(crate) fn has_class(order: &[ClassId], class: ClassId) -> bool
    ensures { IsTrue result ↔ Contains order.now class }
{
    order.contains(&class)
}

/// Adds a class, if it isn't there yet.
fn add_one(order: &mut List<ClassId>, class: ClassId) -> Result<(), Memory>
    ensures { OnOk result (SameFirst order.new (order.old ++ class ∷ [])) }
{
    if has_class(order.as_slice(), class) {
        return Ok(());
    }
    add(order, class)
}

/// Adds those that aren't there yet.
pub(crate) fn add_new(order: &mut List<ClassId>, more: &[ClassId]) -> Result<(), Memory>
    ensures { OnOk result (SameFirst order.new (order.old ++ more.now)) }
{
    for class in more {
        add_one(order, *class)?;
    }
    Ok(())
}

/// The order of a number, if there are those of all to which edges lead from it.
fn order_of(
    alloc: Global,
    number: u32,
    next: &[ClassId],
    orders: &[List<ClassId>],
) -> Result<Option<List<ClassId>>, Memory>
    ensures { IfOk result (λ order. IsOrderOf number next.now orders.now order) }
{
    let mut order = List::new(alloc);
    add(&mut order, Id::of(number))?;
    for class in next {
        let place = class.number();
        if !is_made(orders, place) {
            return Ok(None);
        }
        add_new(&mut order, edges_at(orders, place))?;
    }
    Ok(Some(order))
}

/// Makes the order of a number, if it isn't there and can be made.
fn visit(
    alloc: Global,
    graph: &[List<ClassId>],
    number: u32,
    orders: &mut Vec<List<ClassId>>,
) -> Result<(), Memory>
    requires number { number < length graph.now }
    requires inside { LeadsInside graph.now }
    requires acyclic { IsAcyclic (edges graph.now) }
    requires right { AreRight graph.now orders.old.items }
    ensures { OnOk result (Visits graph.now orders.old.items orders.new.items number) }
{
    let items = orders.as_slice();
    if is_made(items, number) {
        return Ok(());
    }
    let next = edges_at(graph, number);
    match order_of(alloc, number, next, items)? {
        Some(order) => {
            orders[number as usize] = order;
            Ok(())
        }
        None => Ok(()),
    }
}

/// Makes the orders that can be made.
fn round(
    alloc: Global,
    graph: &[List<ClassId>],
    orders: &mut Vec<List<ClassId>>,
) -> Result<(), Memory>
    requires short { length graph.now < 2 ^ 32 }
    requires inside { LeadsInside graph.now }
    requires acyclic { IsAcyclic (edges graph.now) }
    requires right { AreRight graph.now orders.old.items }
    ensures { OnOk result (GoesOn graph.now orders.old.items orders.new.items) }
{
    for number in 0..graph.len() as u32 {
        visit(alloc, graph, number, orders)?;
    }
    Ok(())
}

fn no_orders(alloc: Global, graph: &[List<ClassId>]) -> Result<Vec<List<ClassId>>, Memory>
    ensures { IfOk result (λ orders. AreRight graph.now orders.items) }
{
    let mut orders = Vec::new(alloc);
    for _ in graph {
        orders.push(List::new(alloc))?;
    }
    Ok(orders)
}

/// The orders of a graph without a cycle. Each edge is looked at once, and each number once a round.
pub(crate) fn walks(alloc: Global, graph: &[List<ClassId>]) -> Result<Vec<List<ClassId>>, Memory>
    requires short { length graph.now < 2 ^ 32 }
    requires inside { LeadsInside graph.now }
    requires acyclic { IsAcyclic (edges graph.now) }
    ensures { IfOk result (λ orders. AreWalks graph.now orders.items) }
{
    let mut orders = no_orders(alloc, graph)?;
    for _ in 0..graph.len() + 1 {
        round(alloc, graph, &mut orders)?;
    }
    Ok(orders)
}
