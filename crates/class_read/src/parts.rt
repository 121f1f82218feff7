//! Reads what fields, methods and attributes begin with.
ghost use Rattle.std.specs.Prelude.{◌≡◌};
ghost use Rattle.std.specs.Str.{bytes_eq};
ghost use Rattle.class_pool.specs.Pool.{is_text, is_text_that, utf8_at as utf8_with};
ghost use Rattle.class_pool.specs.Code.{dims_of as count_dims, has_dims_that, dims_at as dims_with};
ghost use Rattle.class_pool.specs.ClassOrder.{class_index as index_of_class, text_index as index_of_text, fits_kind as passes_kind, read_head, attribute_head as head_of_attribute, skip_attribute as past_attribute, skip_attributes as past_attributes, is_named as has_name};
ghost use Rattle.class_pool.specs.Outcomes.{Gives};

use class_pool::items::{bytes_of, fault_at, number_of_four, number_of_two, place_of};
use class_pool::{ClassCode, KnownPool, MemberKind, Stop, class_name_at, utf8_at};

/// How many array dimensions a name of a Class entry has.
pub fn dims_of(name: &[u8]) -> usize
    ensures { result ≡ count_dims name.now }
{
    for (dims, byte) in name.iter().enumerate() {
        if *byte != b'[' {
            return dims;
        }
    }
    name.len()
}

/// How many array dimensions the Class entry with that index has.
pub fn dims_at(pool: &KnownPool, index: u16) -> Option<usize>
    ensures { result ≡ dims_with pool.now index }
{
    Some(dims_of(class_name_at(pool.entries(), index)?))
}

/// The index of a class that is no array, and what follows.
pub fn class_index<'a>(size: u32, pool: &KnownPool, rest: &'a [u8]) -> Result<(u16, &'a [u8]), Stop>
    ensures { Gives (λ x. (x.0, x.1.now)) result (index_of_class size pool.now rest.now) }
{
    let (index, behind) = number_of_two(size, rest)?;
    if dims_at(pool, index) == Some(0) {
        Ok((index, behind))
    } else {
        Err(fault_at(ClassCode::PoolIndex, place_of(size, rest)))
    }
}

/// The index of a text, and what follows.
pub fn text_index<'a>(size: u32, pool: &KnownPool, rest: &'a [u8]) -> Result<(u16, &'a [u8]), Stop>
    ensures { Gives (λ x. (x.0, x.1.now)) result (index_of_text size pool.now rest.now) }
{
    let (index, behind) = number_of_two(size, rest)?;
    if utf8_at(pool.entries(), index).is_some() {
        Ok((index, behind))
    } else {
        Err(fault_at(ClassCode::PoolIndex, place_of(size, rest)))
    }
}

fn names_desc(pool: &KnownPool, kind: MemberKind, index: u16) -> bool
    ensures { result ≡ is_text_that (passes_kind kind) (utf8_with pool.now index) }
{
    let facts = pool.facts_at(index);
    match kind {
        MemberKind::Field => facts.is_field_desc,
        MemberKind::Method => facts.is_method_desc,
    }
}

/// Flags, name and descriptor of a field or a method, and what follows.
#[tactic(auto, unfolding(class_pool::specs::ClassOrder::read_head))]
pub fn head<'a>(
    size: u32,
    pool: &KnownPool,
    kind: MemberKind,
    rest: &'a [u8],
) -> Result<((u16, u16, u16), &'a [u8]), Stop>
    ensures { Gives (λ x. (x.0, x.1.now)) result (read_head size pool.now kind rest.now) }
{
    let (flags, name_rest) = number_of_two(size, rest)?;
    let (name, desc_rest) = text_index(size, pool, name_rest)?;
    let (desc, behind) = text_index(size, pool, desc_rest)?;
    if !pool.facts_at(name).is_member_name {
        return Err(fault_at(ClassCode::BadDescriptor, place_of(size, name_rest)));
    }
    if !names_desc(pool, kind, desc) {
        return Err(fault_at(ClassCode::BadDescriptor, place_of(size, desc_rest)));
    }
    Ok(((flags, name, desc), behind))
}

/// The name and the length of an attribute, and what follows.
pub fn attribute_head<'a>(
    size: u32,
    pool: &KnownPool,
    rest: &'a [u8],
) -> Result<((u16, u32), &'a [u8]), Stop>
    ensures { Gives (λ x. (x.0, x.1.now)) result (head_of_attribute size pool.now rest.now) }
{
    let (name, rest) = text_index(size, pool, rest)?;
    let (count, rest) = number_of_four(size, rest)?;
    Ok(((name, count), rest))
}

/// What follows an attribute.
#[tactic(auto, unfolding(class_pool::specs::ClassOrder::skip_attribute))]
fn skip_attribute<'a>(size: u32, pool: &KnownPool, rest: &'a [u8]) -> Result<&'a [u8], Stop>
    ensures { Gives (λ x. (tt, x.now)) result (past_attribute size pool.now rest.now) }
{
    let ((_, count), rest) = attribute_head(size, pool, rest)?;
    let (_, rest) = bytes_of(size, count as usize, rest)?;
    Ok(rest)
}

/// What follows attributes with their count.
pub fn skip_attributes<'a>(size: u32, pool: &KnownPool, rest: &'a [u8]) -> Result<&'a [u8], Stop>
    ensures { Gives (λ x. x.now) result (past_attributes size pool.now rest.now) }
{
    let (count, mut behind) = number_of_two(size, rest)?;
    for _ in 0..count {
        behind = skip_attribute(size, pool, behind)?;
    }
    Ok(behind)
}

/// Whether the text with that index is this name.
pub fn is_named(pool: &KnownPool, name: &[u8], index: u16) -> bool
    ensures { result ≡ has_name name.now (utf8_with pool.now index) }
{
    match utf8_at(pool.entries(), index) {
        Some(text) => name == text,
        None => false,
    }
}
