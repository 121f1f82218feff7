//! Which kinds places may hold at a pc: facts that grow in number.
ghost use Rattle.std.specs.Prelude.{◌≡◌, true, Contains, slice_get, IfOk, OnOk};
ghost use Rattle.std.specs.Option.{option_copied};
ghost use Rattle.typing_effects.specs.Kinds.{kind_in};
ghost use Rattle.jvm_typing.specs.KindPasses.{Item, items_of, Grows};

use crate::fact_tables::FactTable;
use jo_ids::Memory;
use jo_prog::program::TypeRef;
use jo_text::{Base, FieldDesc};
use std::alloc::Global;
use typing_effects::kinds::{Kind, copy_kind};

/// A kind that a place may hold at a pc. The locals come first, then the stack from its top.
#[derive(Drop)]
pub(crate) struct Fact {
    pub(crate) pc: u32,
    pub(crate) place: usize,
    pub(crate) kind: Kind,
}

fn same_base(a: &Base, b: &Base) -> bool
    ensures { result ≡ true → a.now ≡ b.now }
{
    match a {
        Base::Byte => matches!(b, Base::Byte),
        Base::Char => matches!(b, Base::Char),
        Base::Double => matches!(b, Base::Double),
        Base::Float => matches!(b, Base::Float),
        Base::Int => matches!(b, Base::Int),
        Base::Long => matches!(b, Base::Long),
        Base::Short => matches!(b, Base::Short),
        Base::Boolean => matches!(b, Base::Boolean),
        Base::Class(a) => match b {
            Base::Class(b) => a.as_slice() == b.as_slice(),
            _ => false,
        },
    }
}

fn same_desc(a: &FieldDesc, b: &FieldDesc) -> bool
    ensures { result ≡ true → a.now ≡ b.now }
{
    if a.dims != b.dims {
        return false;
    }
    same_base(&a.base, &b.base)
}

fn same_type(a: &TypeRef, b: &TypeRef) -> bool
    ensures { result ≡ true → a.now ≡ b.now }
{
    match a {
        TypeRef::Class(a) => match b {
            TypeRef::Class(b) => a.number() == b.number(),
            TypeRef::Array(_) => false,
        },
        TypeRef::Array(a) => match b {
            TypeRef::Class(_) => false,
            TypeRef::Array(b) => same_desc(a, b),
        },
    }
}

fn same_kind(a: &Kind, b: &Kind) -> bool
    ensures { result ≡ true → a.now ≡ b.now }
{
    match a {
        Kind::Int => matches!(b, Kind::Int),
        Kind::Null => matches!(b, Kind::Null),
        Kind::Ref(a) => match b {
            Kind::Ref(b) => same_type(a, b),
            _ => false,
        },
        Kind::Unset => matches!(b, Kind::Unset),
    }
}

fn is_fact(fact: &Fact, pc: u32, place: usize, kind: &Kind) -> bool
    ensures { result ≡ true → fact.now ≡ record { pc = pc; place = place; kind = kind.now } }
{
    if fact.pc != pc {
        return false;
    }
    if fact.place != place {
        return false;
    }
    same_kind(&fact.kind, kind)
}

fn fact_at(facts: &[Fact], number: usize) -> Option<&Fact>
    ensures { option_copied result ≡ slice_get facts.now number }
{
    facts.get(number)
}

fn is_fact_at(facts: &[Fact], number: usize, pc: u32, place: usize, kind: &Kind) -> bool
    ensures { result ≡ true → Contains facts.now (record { pc = pc; place = place; kind = kind.now }) }
{
    match fact_at(facts, number) {
        Some(fact) => is_fact(fact, pc, place, kind),
        None => false,
    }
}

fn has_fact(facts: &FactTable, pc: u32, place: usize, kind: &Kind) -> bool
    ensures { result ≡ true → Contains facts.now (record { pc = pc; place = place; kind = kind.now }) }
{
    let numbers = facts.numbers(pc, place);
    for number in numbers {
        if is_fact_at(facts.as_slice(), *number, pc, place, kind) {
            return true;
        }
    }
    false
}

/// Adds that, unless it is there.
pub(crate) fn add_fact(
    facts: &mut FactTable,
    pc: u32,
    place: usize,
    kind: Kind,
) -> Result<(), Memory>
    ensures { OnOk result (Grows (λ (x : Item). x ≡ record { pc = pc; place = place; kind = kind_in kind }) (items_of facts.old) (items_of facts.new)) }
{
    if has_fact(facts, pc, place, &kind) {
        return Ok(());
    }
    facts.push(Fact { pc, place, kind })?;
    Ok(())
}

/// The fact with that number.
pub(crate) fn copy_fact(
    alloc: Global,
    facts: &[Fact],
    number: usize,
) -> Result<Option<Fact>, Memory>
    ensures { IfOk result (λ copy. copy ≡ slice_get facts.now number) }
{
    match fact_at(facts, number) {
        Some(fact) => {
            let kind = copy_kind(alloc, &fact.kind)?;
            Ok(Some(Fact {
                pc: fact.pc,
                place: fact.place,
                kind,
            }))
        }
        None => Ok(None),
    }
}
