//! Levels, and which of them flow to which.
#![tactic(auto)]

mod closing;
pub mod laws;
mod naming;

ghost use Rattle.std.specs.Prelude.{◌≡◌, ◌⊎◌, ◌<◌, ◌^◌, ℕ, Bool, true, length, IfOk, IfErr, OnOk};
ghost use Rattle.jo_order.specs.LevelRows.{IsOrder};

use closing::{closed_rows, first_mutual, first_unknown, row_flows};
use jo_ids::LevelId;
pub use jo_ids::Memory;
use jo_text::Name;
use naming::first_repeated;
use std::alloc::Global;

/// What is wrong with names and pairs that give no order.
#[derive(Clone, Copy, PartialEq, Eq, Debug)]
pub enum OrderFault {
    /// The name at that place stands at an earlier one, too.
    TwiceNamed(u32),
    /// There are more than 64 names.
    TooMany,
    /// The pair at that place has a number that is no level's.
    Unknown(u32),
    /// These two levels flow to each other.
    Cycle(u32, u32),
    Memory,
}

impl From<Memory> for OrderFault {
    ghost use Rattle.jo_order.specs.declared.OrderFault.TheVariants.{Memory as NoMemory};

    ghost from_gives = { λ _ fault. fault ≡ NoMemory };

    fn from(_: Memory) -> OrderFault {
        OrderFault::Memory
    }
}

/// Levels in an order.
pub trait Order {
    ghost flows: { Self → ℕ → ℕ → Bool };

    /// Whether what is at level `a` may flow to level `b`.
    fn flows(&self, a: LevelId, b: LevelId) -> bool
        ensures { result ≡ flows self.now a b };

    ghost reflexive: { (o : Self) (a : ℕ) → flows o a a ≡ true };

    ghost transitive: { (o : Self) (a b c : ℕ) → flows o a b ≡ true → flows o b c ≡ true → flows o a c ≡ true };

    ghost antisymmetric: { (o : Self) (a b : ℕ) → flows o a b ≡ true → flows o b a ≡ true → a ≡ b };
}

/// The levels of a policy, by their places in the list of their names: at most 64.
#[derive(Drop)]
pub struct Levels {
    /// For each level those that it flows to.
    rows: Vec<u64>,
    ghost ordered: { IsOrder rows.items },
}

impl Order for Levels {
    ghost use Rattle.jo_order.specs.Flowing.{flows as flows_in};
    ghost use Rattle.jo_order.specs.FlowLaws.{row_flows-self};

    ghost flows = { flows_in };

    ghost reflexive = { λ levels a. row_flows-self levels.rows.items a };

    ghost transitive = { λ levels. levels.ordered.transitive };

    ghost antisymmetric = { λ levels. levels.ordered.antisymmetric };

    fn flows(&self, a: LevelId, b: LevelId) -> bool {
        row_flows(self.rows.as_slice(), a.number(), b.number())
    }
}

impl Levels {
    ghost use Rattle.jo_order.specs.Orders.{GiveOrder, OrderFaultOf};
    ghost use Rattle.jo_order.specs.Flowing.{FlowsBy};

    /// The levels with these names, of which each flows to itself and wherever the pairs lead. The first of a pair flows
    /// to the second; both are places of names.
    pub fn build(alloc: Global, names: &[Name], pairs: &[(u32, u32)]) -> Result<Levels, OrderFault>
        requires names { length names.now < 2 ^ 32 }
        requires pairs { length pairs.now < 2 ^ 32 }
        ensures order { OnOk result (GiveOrder names.now pairs.now) }
        ensures flows { IfOk result (FlowsBy pairs.now) }
        ensures fault { IfErr result (λ fault. (fault ≡ OrderFault.Memory) ⊎ OrderFaultOf names.now pairs.now fault) }
    {
        let repeated = first_repeated(alloc, names)?;
        if let Some(place) = repeated {
            return Err(OrderFault::TwiceNamed(place));
        }
        if names.len() > 64 {
            return Err(OrderFault::TooMany);
        }
        let count = names.len() as u32;
        if let Some(place) = first_unknown(pairs, count) {
            return Err(OrderFault::Unknown(place));
        }
        let rows = closed_rows(alloc, pairs, count)?;
        if let Some((a, b)) = first_mutual(rows.as_slice()) {
            return Err(OrderFault::Cycle(a, b));
        }
        Ok(Levels { rows })
    }
}

#[cfg(test)]
mod tests;
