//! Checks what the entries of a pool refer to.
ghost use Rattle.std.specs.Prelude.{◌≡◌, ◌∷◌, [], ◌||◌};
ghost use Rattle.jo_text.specs.Tests.{is_field_desc as passes_field, is_method_desc as passes_method};
ghost use Rattle.class_pool.specs.Pool.{entry_size as size_of_entry, questions, first_failing, reference_fault as first_fault, is_text, is_text_that, is_class as is_class_entry, is_name_and_type as is_type_entry, entry_at as entry_with, utf8_at as utf8_with};
ghost use Rattle.class_pool.specs.declared.faults.ClassCode.TheVariants.{PoolIndex, BadDescriptor};

use crate::entries::{PoolEntry, entry_at, utf8_at};
use crate::faults::{ClassCode, ClassFault};
use crate::items::place_of;
use crate::known::KnownPool;
use jo_insn::behind;

/// The code where not all indices that an entry names fit, or else where not all texts do.
fn fault_unless(there: bool, fits: bool) -> Option<ClassCode>
    ensures { result ≡ first_failing ((there, PoolIndex) ∷ (fits, BadDescriptor) ∷ []) }
{
    if !there {
        Some(ClassCode::PoolIndex)
    } else if !fits {
        Some(ClassCode::BadDescriptor)
    } else {
        None
    }
}

fn names_text(pool: &KnownPool, index: u16) -> bool
    ensures { result ≡ is_text (utf8_with pool.now index) }
{
    utf8_at(pool.entries(), index).is_some()
}

fn names_desc(pool: &KnownPool, index: u16) -> bool
    ensures { result ≡ is_text_that (λ text. passes_field text || passes_method text) (utf8_with pool.now index) }
{
    let facts = pool.facts_at(index);
    facts.is_field_desc || facts.is_method_desc
}

fn is_class(pool: &KnownPool, index: u16) -> bool
    ensures { result ≡ is_class_entry (entry_with pool.now index) }
{
    matches!(entry_at(pool.entries(), index), Some(PoolEntry::Class(_)))
}

fn is_name_and_type(pool: &KnownPool, index: u16) -> bool
    ensures { result ≡ is_type_entry (entry_with pool.now index) }
{
    matches!(
        entry_at(pool.entries(), index),
        Some(PoolEntry::NameAndType(_, _))
    )
}

/// What is at fault in what an entry refers to.
fn entry_fault(pool: &KnownPool, entry: &PoolEntry) -> Option<ClassCode>
    ensures { result ≡ first_failing (questions pool.now entry.now) }
{
    match entry {
        PoolEntry::Class(name) => fault_unless(
            names_text(pool, *name),
            pool.facts_at(*name).is_class_or_array,
        ),
        PoolEntry::Text(text) => fault_unless(names_text(pool, *text), true),
        PoolEntry::FieldRef(class, kind) => fault_unless(
            is_class(pool, *class) && is_name_and_type(pool, *kind),
            pool.desc_facts_at(*kind).is_field_desc,
        ),
        PoolEntry::MethodRef(class, kind) | PoolEntry::InterfaceMethodRef(class, kind) => {
            fault_unless(
                is_class(pool, *class) && is_name_and_type(pool, *kind),
                pool.desc_facts_at(*kind).is_method_desc,
            )
        }
        PoolEntry::NameAndType(name, desc) => fault_unless(
            names_text(pool, *name) && names_text(pool, *desc),
            pool.facts_at(*name).is_member_name && names_desc(pool, *desc),
        ),
        _ => None,
    }
}

/// How many bytes spell an entry, its tag included.
fn entry_size(entry: &PoolEntry) -> usize
    ensures { result ≡ size_of_entry entry.now }
{
    match entry {
        PoolEntry::Second => 0,
        PoolEntry::Utf8(text) => 3 + text.as_slice().len(),
        PoolEntry::Class(_) | PoolEntry::Text(_) | PoolEntry::MethodType(_) => 3,
        PoolEntry::MethodHandle(_, _) => 4,
        PoolEntry::Integer(_)
        | PoolEntry::Float(_)
        | PoolEntry::FieldRef(_, _)
        | PoolEntry::MethodRef(_, _)
        | PoolEntry::InterfaceMethodRef(_, _)
        | PoolEntry::NameAndType(_, _)
        | PoolEntry::InvokeDynamic(_, _) => 5,
        PoolEntry::Long(_) | PoolEntry::Double(_) => 9,
    }
}

/// The first entry that refers to something wrong. The rest of the file begins with the pool's entries.
#[tactic(auto, unfolding(crate::specs::Pool::reference_fault))]
pub fn reference_fault(size: u32, pool: &KnownPool, rest: &[u8]) -> Option<ClassFault>
    ensures { result ≡ first_fault size pool.now rest.now pool.now }
{
    let mut rest = rest;
    for entry in pool.entries() {
        if let Some(code) = entry_fault(pool, entry) {
            return Some(ClassFault {
                code,
                place: place_of(size, rest),
            });
        }
        rest = behind(rest, entry_size(entry));
    }
    None
}
