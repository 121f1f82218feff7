//! Reads fields (JVM Specification SE 8, 4.5 and 4.7.2).
ghost use Rattle.std.specs.Prelude.{◌≡◌, Some, None};
ghost use Rattle.class_pool.specs.Items.{many};
ghost use Rattle.class_pool.specs.Pool.{entry_at as entry_with, utf8_at as utf8_with, is_text_that};
ghost use Rattle.class_pool.specs.ClassOrder.{fits_constant as passes_constant, constant_value as read_constant, field_attribute as read_attribute, field_attributes as read_attributes, read_field};
ghost use Rattle.class_pool.specs.Outcomes.{Gives};

use crate::parts::{head, is_named, text_index};
use class_pool::items::{bytes_of, fault_at, number_of_four, number_of_two, place_of};
use class_pool::{ClassCode, FieldInfo, KnownPool, MemberKind, PoolEntry, Stop, entry_at, utf8_at};
use jo_ids::List;
use jo_insn::{ACC_STATIC, has_flag};
use std::alloc::Global;

/// Whether a field with this descriptor may have the constant.
fn fits_constant(desc: &[u8], entry: &PoolEntry) -> bool
    ensures { result ≡ passes_constant desc.now (Some entry.now) }
{
    match entry {
        PoolEntry::Integer(_) => {
            desc == b"I".as_slice()
                || desc == b"B".as_slice()
                || desc == b"C".as_slice()
                || desc == b"S".as_slice()
                || desc == b"Z".as_slice()
        }
        PoolEntry::Float(_) => desc == b"F".as_slice(),
        PoolEntry::Long(_) => desc == b"J".as_slice(),
        PoolEntry::Double(_) => desc == b"D".as_slice(),
        PoolEntry::Text(_) => desc == b"Ljava/lang/String;".as_slice(),
        _ => false,
    }
}

/// Whether a field whose descriptor has the index `desc` may have the constant with that index.
fn is_constant(pool: &KnownPool, desc: u16, index: u16) -> bool
    ensures { result ≡ is_text_that (λ text. passes_constant text (entry_with pool.now index)) (utf8_with pool.now desc) }
{
    match utf8_at(pool.entries(), desc) {
        Some(text) => match entry_at(pool.entries(), index) {
            Some(entry) => fits_constant(text, entry),
            None => false,
        },
        None => false,
    }
}

/// The value of a ConstantValue behind its length `count`, which stands at `place`, and what follows.
fn constant_value<'a>(
    size: u32,
    pool: &KnownPool,
    desc: u16,
    known: Option<u16>,
    place: u32,
    count: u32,
    rest: &'a [u8],
) -> Result<(Option<u16>, &'a [u8]), Stop>
    ensures { Gives (λ x. (x.0, x.1.now)) result (read_constant size pool.now desc known place count rest.now) }
{
    if count != 2 || known.is_some() {
        return Err(fault_at(ClassCode::CodeBounds, place));
    }
    let (index, behind) = number_of_two(size, rest)?;
    if !is_constant(pool, desc, index) {
        return Err(fault_at(ClassCode::PoolIndex, place_of(size, rest)));
    }
    Ok((Some(index), behind))
}

/// The constant that is known behind an attribute, and what follows.
#[tactic(auto, unfolding(class_pool::specs::ClassOrder::field_attribute))]
fn field_attribute<'a>(
    size: u32,
    pool: &KnownPool,
    head: (u16, u16, u16),
    known: Option<u16>,
    rest: &'a [u8],
) -> Result<(Option<u16>, &'a [u8]), Stop>
    ensures { Gives (λ x. (x.0, x.1.now)) result (read_attribute size pool.now head known rest.now) }
{
    let (flags, _, desc) = head;
    let (name, count_rest) = text_index(size, pool, rest)?;
    let (count, rest) = number_of_four(size, count_rest)?;
    if has_flag(ACC_STATIC, flags) && is_named(pool, b"ConstantValue", name) {
        return constant_value(
            size,
            pool,
            desc,
            known,
            place_of(size, count_rest),
            count,
            rest,
        );
    }
    let (_, rest) = bytes_of(size, count as usize, rest)?;
    Ok((known, rest))
}

/// The constant of so many attributes, and what follows.
fn field_attributes<'a>(
    size: u32,
    pool: &KnownPool,
    head: (u16, u16, u16),
    count: u16,
    rest: &'a [u8],
) -> Result<(Option<u16>, &'a [u8]), Stop>
    ensures { Gives (λ x. (x.0, x.1.now)) result (read_attributes size pool.now head count None rest.now) }
{
    let mut known = None;
    let mut rest = rest;
    for _ in 0..count {
        (known, rest) = field_attribute(size, pool, head, known, rest)?;
    }
    Ok((known, rest))
}

#[tactic(auto, unfolding(class_pool::specs::ClassOrder::read_field))]
fn field<'a>(size: u32, pool: &KnownPool, rest: &'a [u8]) -> Result<(FieldInfo, &'a [u8]), Stop>
    ensures { Gives (λ x. (x.0, x.1.now)) result (read_field size pool.now rest.now) }
{
    let (head, rest) = head(size, pool, MemberKind::Field, rest)?;
    let (count, rest) = number_of_two(size, rest)?;
    let (constant, rest) = field_attributes(size, pool, head, count, rest)?;
    let (flags, name, desc) = head;
    let field = FieldInfo {
        flags,
        name,
        desc,
        constant,
    };
    Ok((field, rest))
}

/// So many fields, and what follows.
pub fn fields<'a>(
    alloc: Global,
    size: u32,
    pool: &KnownPool,
    count: u16,
    rest: &'a [u8],
) -> Result<(List<FieldInfo>, &'a [u8]), Stop>
    ensures { Gives (λ x. (x.0, x.1.now)) result (many (read_field size pool.now) count rest.now) }
{
    let mut fields = List::new(alloc);
    let mut rest = rest;
    for _ in 0..count {
        let (found, behind) = field(size, pool, rest)?;
        fields.push(found)?;
        rest = behind;
    }
    Ok((fields, rest))
}
