//! The relation of levels, a machine word a level, closed over the pairs.
ghost use Rattle.std.specs.Prelude.{◌≡◌, ◌<◌, ◌≤◌, ◌^◌, ◌&&◌, ◌||◌, ℕ, true, length, IfOk, IfSome, IfNone};
ghost use Rattle.jo_order.specs.LevelRows.{row_has, row_flows, AreMutual};
ghost use Rattle.jo_order.specs.Orders.{IsLeast, IsUnknown, AreKnown};
ghost use Rattle.jo_order.specs.Closing.{IsClosed, AreInside, HasPairs, IsClosureOf, IsFirstMutual};

use jo_ids::Memory;
use jo_ids::words::{has_bit, with_bit};
use std::alloc::Global;

/// Whether the first level flows to the second.
pub fn row_flows(rows: &[u64], a: u32, b: u32) -> bool
    ensures { result ≡ row_flows rows.now a b }
{
    if a == b {
        return true;
    }
    match rows.get(a as usize) {
        Some(row) => b < 64 && has_bit(*row, b),
        None => false,
    }
}

/// The first place of a pair with a number that isn't below the count.
pub fn first_unknown(pairs: &[(u32, u32)], count: u32) -> Option<u32>
    requires { length pairs.now < 2 ^ 32 }
    ensures found { IfSome result (IsLeast (IsUnknown count pairs.now)) }
    ensures none { IfNone result (AreKnown count pairs.now) }
{
    for (place, (a, b)) in pairs.iter().enumerate() {
        if *a >= count || *b >= count {
            return Some(place as u32);
        }
    }
    None
}

/// The rows of the closure of the pairs.
pub fn closed_rows(alloc: Global, pairs: &[(u32, u32)], count: u32) -> Result<Vec<u64>, Memory>
    requires few { count ≤ 64 }
    requires known { AreKnown count pairs.now }
    ensures len { IfOk result (λ rows. length rows.items ≡ count) }
    ensures closed { IfOk result (λ rows. IsClosed pairs.now rows.items) }
{
    let mut rows = vec![in alloc; 0; count as usize]?;
    mark_pairs(rows.as_mut_slice(), pairs);
    close(rows.as_mut_slice());
    Ok(rows)
}

/// Adds the second level of each pair to the row of the first.
fn mark_pairs(rows: &mut [u64], pairs: &[(u32, u32)])
    requires few { length rows.old ≤ 64 }
    requires inside { AreInside (length rows.old) pairs.now }
    ensures { HasPairs pairs.now rows.old rows.new }
{
    for (a, b) in pairs {
        let row = &mut rows[*a as usize];
        *row = with_bit(*row, *b);
    }
}

/// Adds to each row the rows of the levels that it has (after Warshall 1962).
fn close(rows: &mut [u64])
    requires few { length rows.old ≤ 64 }
    ensures { IsClosureOf rows.old rows.new }
{
    for level in 0..rows.len() as u32 {
        join_through(rows, level);
    }
}

/// Adds the row of a level to each row that has the level.
fn join_through(rows: &mut [u64], level: u32)
    requires few { length rows.old ≤ 64 }
    requires inside { level < length rows.old }
    ensures { (a b : ℕ) → row_has rows.new a b ≡ (row_has rows.old a b || (row_has rows.old a level && row_has rows.old level b)) }
{
    let through = rows[level as usize];
    for row in rows.iter_mut() {
        if has_bit(*row, level) {
            *row |= through;
        }
    }
}

/// The first two levels whose rows have each other: the least, and then the least above it.
pub fn first_mutual(rows: &[u64]) -> Option<(u32, u32)>
    requires { length rows.now ≤ 64 }
    ensures found { IfSome result (λ found. IsFirstMutual rows.now found.0 found.1) }
    ensures none { IfNone result ((a b : ℕ) → AreMutual rows.now a b → ⊥) }
{
    for a in 0..rows.len() as u32 {
        if let Some(b) = first_mutual_above(rows, a) {
            return Some((a, b));
        }
    }
    None
}

/// The first level above `a` whose row has `a`, and which the row of `a` has.
fn first_mutual_above(rows: &[u64], a: u32) -> Option<u32>
    requires few { length rows.now ≤ 64 }
    requires inside { a < length rows.now }
    ensures found { IfSome result (IsLeast (AreMutual rows.now a)) }
    ensures none { IfNone result ((b : ℕ) → AreMutual rows.now a b → ⊥) }
{
    for b in a + 1..rows.len() as u32 {
        if has_bit(rows[a as usize], b) && has_bit(rows[b as usize], a) {
            return Some(b);
        }
    }
    None
}
