//! The order in which methods are looked for.
ghost use Rattle.std.specs.Prelude.{◌++◌, IfOk, OnOk};
ghost use Rattle.std.specs.List.{flat_map};
ghost use Rattle.hierarchy.specs.Orders.{SameFirst, edges};
ghost use Rattle.hierarchy.specs.Hierarchies.{methods_by, AreMethodsBy};

use crate::orders::{add_new, edges_at};
use jo_ids::{ClassId, List, Memory};
use std::alloc::Global;

/// Adds the orders of these interfaces.
fn add_interfaces(
    order: &mut List<ClassId>,
    walks: &[List<ClassId>],
    interfaces: &[ClassId],
) -> Result<(), Memory>
    ensures { OnOk result (SameFirst order.new (order.old ++ flat_map (edges walks.now) interfaces.now)) }
{
    for interface in interfaces {
        add_new(order, edges_at(walks, interface.number()))?;
    }
    Ok(())
}

/// The order for a class with these superclasses, itself the first of them.
fn method_order(
    alloc: Global,
    interfaces: &[List<ClassId>],
    walks: &[List<ClassId>],
    superclasses: &[ClassId],
) -> Result<List<ClassId>, Memory>
    ensures { IfOk result (λ order. SameFirst order (methods_by interfaces.now walks.now superclasses.now)) }
{
    let mut order = List::new(alloc);
    add_new(&mut order, superclasses)?;
    for class in superclasses {
        add_interfaces(&mut order, walks, edges_at(interfaces, class.number()))?;
    }
    Ok(order)
}

/// The orders for all classes.
pub(crate) fn method_orders(
    alloc: Global,
    interfaces: &[List<ClassId>],
    walks: &[List<ClassId>],
    superclasses: &[List<ClassId>],
) -> Result<Vec<List<ClassId>>, Memory>
    ensures { IfOk result (λ orders. AreMethodsBy interfaces.now walks.now superclasses.now orders.items) }
{
    let mut orders = Vec::new(alloc);
    for above in superclasses {
        let order = method_order(alloc, interfaces, walks, above.as_slice())?;
        orders.push(order)?;
    }
    Ok(orders)
}
