//! Facts that are found by their pc and place, without going over all.
ghost use Rattle.std.specs.Prelude.{◌≡◌, ◌<◌, ◌++◌, ◌∷◌, [], ℕ, length, replicate, slice_set, IfOk, OnOk, OnErr};
ghost use Rattle.jvm_typing.specs.Slots.{slot_of, numbers_in, ListsPlace};

use crate::facts::Fact;
use jo_ids::{List, Memory};
use std::alloc::Global;
use std::marker::Model;

/// Facts in the order of finding, which contracts see as their list.
#[derive(Drop)]
pub(crate) struct FactTable {
    facts: Vec<Fact>,
    /// For each slot the numbers of the facts in it.
    slots: Vec<List<usize>>,
}

impl Model for FactTable {
    ghost use Rattle.std.specs.Prelude.{List as Items};
    ghost use Rattle.jvm_typing.specs.declared.facts.Fact.{Fact};
    ghost use Rattle.jvm_typing.specs.Slots.{AreListed};

    ghost Value = { Items Fact };

    ghost view = { λ t. t.facts.items };

    ghost invariant = { λ t. AreListed t.facts.items t.slots.items };
}

impl FactTable {
    /// No facts, and room for about so many.
    pub(crate) fn new(alloc: Global, room: usize) -> Result<FactTable, Memory>
        ensures { IfOk result (λ table. table ≡ []) }
    {
        let slots = no_numbers(alloc, room.max(1))?;
        Ok(FactTable {
            facts: Vec::new(alloc),
            slots,
        })
    }

    /// Adds the fact at the end.
    pub(crate) fn push(&mut self, fact: Fact) -> Result<(), Memory>
        ensures { OnOk result (self.new ≡ self.old ++ fact ∷ []) }
    {
        let number = self.facts.len();
        let slot = slot(self.slots.len(), fact.pc, fact.place);
        note(&mut self.slots, slot, number)?;
        self.facts.push(fact)?;
        Ok(())
    }

    /// Where all facts of that place at that pc stand, and few others.
    pub(crate) fn numbers(&self, pc: u32, place: usize) -> &[usize]
        ensures { ListsPlace self.now pc place result.now }
    {
        let slot = slot(self.slots.len(), pc, place);
        numbers_in(self.slots.as_slice(), slot)
    }

    /// The facts alone.
    pub(crate) fn into_facts(self) -> Vec<Fact>
        ensures { result.items ≡ self }
    {
        self.facts
    }

    /// The facts.
    pub(crate) fn as_slice(&self) -> &[Fact]
        ensures { result.now ≡ self.now }
    {
        self.facts.as_slice()
    }
}

fn slot(slots: usize, pc: u32, place: usize) -> usize
    requires some { 0 < slots }
    ensures value { result ≡ slot_of slots pc place }
    ensures within { result < slots }
{
    let key = u64::from(pc) * 2654435761 + (place % 4294967296) as u64;
    (key % slots as u64) as usize
}

fn no_numbers(alloc: Global, slots: usize) -> Result<Vec<List<usize>>, Memory>
    ensures { IfOk result (λ numbers. length numbers.items ≡ slots) }
{
    let mut numbers = Vec::with_capacity(alloc, slots)?;
    for _ in 0..slots {
        numbers.push(List::new(alloc))?;
    }
    Ok(numbers)
}

fn note(slots: &mut Vec<List<usize>>, slot: usize, number: usize) -> Result<(), Memory>
    requires { slot < length slots.old.items }
    ensures ok { OnOk result (slots.new.items ≡ slice_set slots.old.items slot (numbers_in slots.old.items slot ++ number ∷ [])) }
    ensures err { OnErr result (slots.new.items ≡ slots.old.items) }
{
    match slots[slot].push(number) {
        Ok(()) => Ok(()),
        Err((_, memory)) => Err(memory),
    }
}

fn numbers_in(slots: &[List<usize>], slot: usize) -> &[usize]
    ensures { result.now ≡ numbers_in slots.now slot }
{
    match slots.get(slot) {
        Some(numbers) => numbers.as_slice(),
        None => &[],
    }
}
