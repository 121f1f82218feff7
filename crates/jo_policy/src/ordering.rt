//! The order of levels, and what is wrong with it.
ghost use Rattle.std.specs.Prelude.{◌≡◌, ◌⊎◌, ◌<◌, ◌^◌, length, Some, IfOk};
ghost use Rattle.jo_order.specs.Orders.{GiveOrder};
ghost use Rattle.jo_order.specs.Flowing.{FlowsBy};
ghost use Rattle.jo_policy.specs.Policies.{Answers, named_fault, IsOrderFault};

use crate::numbering::copy_name;
use jo_order::{Levels, OrderFault};
use jo_text::Name;
use policy_tree::{LevelFault, PolicyFault};
use std::alloc::Global;

/// How many names and pairs have numbers. A text that had more would be longer than any list of 32-bit numbers.
const MOST: usize = 1 << 31;

fn cycle_of(alloc: Global, low: &Name, high: &Name) -> PolicyFault
    ensures { (result ≡ PolicyFault.Memory) ⊎ (result ≡ PolicyFault.Order
        (LevelFault.Cycle low.now high.now)) }
{
    match copy_name(alloc, low.as_slice()) {
        Ok(low) => match copy_name(alloc, high.as_slice()) {
            Ok(high) => PolicyFault::Order(LevelFault::Cycle(low, high)),
            Err(_) => PolicyFault::Memory,
        },
        Err(_) => PolicyFault::Memory,
    }
}

fn twice_of(alloc: Global, name: &Name) -> PolicyFault
    ensures { (result ≡ PolicyFault.Memory) ⊎ (result ≡ PolicyFault.Order (LevelFault.Twice name.now)) }
{
    match copy_name(alloc, name.as_slice()) {
        Ok(name) => PolicyFault::Order(LevelFault::Twice(name)),
        Err(_) => PolicyFault::Memory,
    }
}

/// The fault of an order with names in the place of numbers.
fn name_fault(alloc: Global, names: &[Name], fault: OrderFault) -> PolicyFault
    ensures { (result ≡ PolicyFault.Memory) ⊎ (named_fault names.now fault ≡ Some result) }
{
    match fault {
        OrderFault::TwiceNamed(place) => match names.get(place as usize) {
            Some(name) => twice_of(alloc, name),
            None => PolicyFault::Memory,
        },
        OrderFault::TooMany => PolicyFault::Order(LevelFault::TooMany),
        OrderFault::Cycle(a, b) => match (names.get(a as usize), names.get(b as usize)) {
            (Some(low), Some(high)) => cycle_of(alloc, low, high),
            _ => PolicyFault::Memory,
        },
        _ => PolicyFault::Memory,
    }
}

/// The levels in their order, or why they have none.
pub fn put_in_order(
    alloc: Global,
    names: &[Name],
    pairs: &[(u32, u32)],
) -> Result<Levels, PolicyFault>
    ensures answers { Answers (λ order. GiveOrder names.now pairs.now × FlowsBy pairs.now order)
        (IsOrderFault names.now pairs.now) result }
    ensures few { IfOk result (λ order. length names.now < 2 ^ 32) }
{
    if names.len() > MOST || pairs.len() > MOST {
        return Err(PolicyFault::Memory);
    }
    match Levels::build(alloc, names, pairs) {
        Ok(order) => Ok(order),
        Err(fault) => Err(name_fault(alloc, names, fault)),
    }
}
