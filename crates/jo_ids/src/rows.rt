//! Sets of the numbers below a length.
ghost use Rattle.std.specs.Prelude.{◌≡◌, ◌↔◌, ℕ, ◌<◌, ◌||◌, false, true, not, length, replicate, slice_set, IfOk, IsTrue};
ghost use Rattle.std.specs.Bool.{OnFalse};
ghost use Rattle.jo_ids.specs.Rows.{has_number, in_words, IsUnion, IsNew, IsNewIn};

use crate::Memory;
use crate::words::{has_bit, with_bit};
use std::alloc::Global;
use std::marker::Model;

/// A set of the numbers below a length, which contracts see as the list that says of each number whether it is in.
#[derive(Drop)]
pub struct BitRow {
    /// The numbers in order, 64 a word; those past the last of them are never in.
    words: Vec<u64>,
    len: u32,
}

impl Model for BitRow {
    ghost use Rattle.std.specs.Prelude.{List as Items, Bool};
    ghost use Rattle.jo_ids.specs.Rows.{row_of, FitsLength};

    ghost Value = { Items Bool };

    ghost view = { λ r. row_of r.words.items r.len };

    ghost invariant = { λ r. FitsLength r.words.items r.len };
}

impl BitRow {
    /// The empty set over the numbers below `len`.
    pub fn with_len(alloc: Global, len: u32) -> Result<BitRow, Memory>
        ensures { IfOk result (λ row. row ≡ replicate len false) }
    {
        let words = vec![in alloc; 0; len.div_ceil(64) as usize]?;
        Ok(BitRow { words, len })
    }

    /// The length: all numbers of the set are below it.
    pub fn len(&self) -> u32
        ensures { result ≡ length self.now }
    {
        self.len
    }

    /// Whether the number is in the set.
    pub fn has(&self, i: u32) -> bool
        requires { i < length self.now }
        ensures { result ≡ has_number self.now i }
    {
        has_bit(self.words[(i / 64) as usize], i % 64)
    }

    /// Adds the number, and says whether it was new.
    pub fn set(&mut self, i: u32) -> bool
        requires { i < length self.old }
        ensures set { self.new ≡ slice_set self.old i true }
        ensures new { result ≡ not (has_number self.old i) }
    {
        let place = (i / 64) as usize;
        let word = self.words[place];
        self.words[place] = with_bit(word, i % 64);
        !has_bit(word, i % 64)
    }

    /// Makes the set empty.
    pub fn clear(&mut self)
        ensures { self.new ≡ replicate (length self.old) false }
    {
        self.words.fill(0);
    }

    /// Adds the numbers of the other set, and says whether one was new.
    pub fn union_from(&mut self, other: &BitRow) -> bool
        requires { length self.old ≡ length other.now }
        ensures union { IsUnion self.old other.now self.new }
        ensures added { IsTrue result ↔ ((i : ℕ) × IsNew self.old other.now i) }
        ensures same { OnFalse result (self.new ≡ self.old) }
    {
        join_words(self.words.as_mut_slice(), other.words.as_slice())
    }
}

/// Makes each word its union with the other word at its place, and says whether one changed.
fn join_words(words: &mut [u64], others: &[u64]) -> bool
    requires { length words.old ≡ length others.now }
    ensures joined { (i : ℕ) → in_words words.new i ≡ (in_words words.old i || in_words others.now i) }
    ensures changed { IsTrue result ↔ ((i : ℕ) × IsNewIn words.old others.now i) }
    ensures same { OnFalse result (words.new ≡ words.old) }
{
    let mut changed = false;
    for (i, other) in others.iter().enumerate() {
        let word = words[i];
        let joined = word | *other;
        if joined != word {
            words[i] = joined;
            changed = true;
        }
    }
    changed
}

#[cfg(test)]
mod tests {
    use super::*;
    use std::test::Fail;

    fn add(row: &mut BitRow, i: u32) -> bool {
        i < row.len() && row.set(i)
    }

    fn has(row: &BitRow, i: u32) -> bool {
        i < row.len() && row.has(i)
    }

    fn union(row: &mut BitRow, other: &BitRow) -> bool {
        row.len() == other.len() && row.union_from(other)
    }

    /// Whether a set of that length takes its last number once, and has none before it.
    fn takes_its_last(alloc: Global, len: u32) -> Result<bool, Memory> {
        let mut row = BitRow::with_len(alloc, len)?;
        let last = len.saturating_sub(1);
        let new = !has(&row, last) && add(&mut row, last) && !add(&mut row, last);
        let alone = has(&row, last) && (len < 2 || !has(&row, len - 2)) && !has(&row, len);
        row.clear();
        Ok(new && alone && !has(&row, last) && row.len() == len)
    }

    #[test]
    fn sets_end_at_their_length(rt: HostRuntime) -> Result<(), Fail> {
        assert!(rt; !takes_its_last(rt.alloc(), 0)?);
        assert!(rt; takes_its_last(rt.alloc(), 1)?);
        assert!(rt; takes_its_last(rt.alloc(), 63)?);
        assert!(rt; takes_its_last(rt.alloc(), 64)?);
        assert!(rt; takes_its_last(rt.alloc(), 65)?);
        Ok(())
    }

    #[test]
    fn a_union_tells_what_is_new(rt: HostRuntime) -> Result<(), Fail> {
        let mut row = BitRow::with_len(rt.alloc(), 130)?;
        let mut other = BitRow::with_len(rt.alloc(), 130)?;
        assert!(rt; add(&mut row, 0) && add(&mut row, 63));
        assert!(rt; !union(&mut row, &other));
        assert!(rt; add(&mut other, 63));
        assert!(rt; !union(&mut row, &other));
        assert!(rt; add(&mut other, 129));
        assert!(rt; union(&mut row, &other));
        assert!(rt; !union(&mut row, &other));
        assert!(rt; has(&row, 0) && has(&row, 63) && has(&row, 129) && !has(&row, 65));
        Ok(())
    }
}
