//! Reads the constant pool.
ghost use Rattle.std.specs.Prelude.{◌≡◌, ◌<◌, ◌^◌, None, length};
ghost use Rattle.class_pool.specs.Pool.{read_utf8, read_indices, read_tagged, read_handle, read_entry, read_entries, owed_by, read_pool_from as pool_from, pool_and_place};
ghost use Rattle.class_pool.specs.Outcomes.{Gives, Answers};

use crate::entries::{Pool, PoolEntry};
use crate::faults::{ClassCode, ClassFault, Stop};
use crate::items::{
    bytes_of, fault_at, number_of_eight, number_of_four, number_of_one, number_of_two, place_of,
    two_numbers,
};
use crate::known::KnownPool;
use crate::references::reference_fault;
use jo_ids::List;
use jo_insn::behind;
use jo_text::{Name, is_mutf8};
use std::alloc::Global;

#[tactic(auto, unfolding(crate::specs::Pool::read_utf8))]
fn utf8_entry(alloc: Global, size: u32, place: u32, rest: &[u8]) -> Result<(PoolEntry, &[u8]), Stop>
    ensures { Gives (λ x. (x.0, x.1.now)) result (read_utf8 size place rest.now) }
{
    let (count, rest) = number_of_two(size, rest)?;
    let (text, rest) = bytes_of(size, usize::from(count), rest)?;
    if !is_mutf8(text) {
        return Err(fault_at(ClassCode::BadText, place));
    }
    let mut name = Name::new(alloc);
    name.append(text)?;
    Ok((PoolEntry::Utf8(name), rest))
}

fn handle_entry(size: u32, rest: &[u8]) -> Result<(PoolEntry, &[u8]), Stop>
    ensures { Gives (λ x. (x.0, x.1.now)) result (read_handle size rest.now) }
{
    let (kind, rest) = number_of_one(size, rest)?;
    let (target, rest) = number_of_two(size, rest)?;
    Ok((PoolEntry::MethodHandle(kind, target), rest))
}

/// An entry of pool indices behind its tag, which stands at this place.
#[tactic(auto, unfolding(crate::specs::Pool::read_indices))]
fn indices_entry(size: u32, place: u32, tag: u8, rest: &[u8]) -> Result<(PoolEntry, &[u8]), Stop>
    ensures { Gives (λ x. (x.0, x.1.now)) result (read_indices size place tag rest.now) }
{
    match tag {
        7 => {
            let (index, rest) = number_of_two(size, rest)?;
            Ok((PoolEntry::Class(index), rest))
        }
        8 => {
            let (index, rest) = number_of_two(size, rest)?;
            Ok((PoolEntry::Text(index), rest))
        }
        9 => {
            let ((first, second), rest) = two_numbers(size, rest)?;
            Ok((PoolEntry::FieldRef(first, second), rest))
        }
        10 => {
            let ((first, second), rest) = two_numbers(size, rest)?;
            Ok((PoolEntry::MethodRef(first, second), rest))
        }
        11 => {
            let ((first, second), rest) = two_numbers(size, rest)?;
            Ok((PoolEntry::InterfaceMethodRef(first, second), rest))
        }
        12 => {
            let ((first, second), rest) = two_numbers(size, rest)?;
            Ok((PoolEntry::NameAndType(first, second), rest))
        }
        16 => {
            let (index, rest) = number_of_two(size, rest)?;
            Ok((PoolEntry::MethodType(index), rest))
        }
        18 => {
            let ((first, second), rest) = two_numbers(size, rest)?;
            Ok((PoolEntry::InvokeDynamic(first, second), rest))
        }
        _ => Err(fault_at(ClassCode::PoolTag, place)),
    }
}

/// An entry behind its tag, which stands at this place.
#[tactic(auto, unfolding(crate::specs::Pool::read_tagged))]
fn tagged_entry(
    alloc: Global,
    size: u32,
    place: u32,
    tag: u8,
    rest: &[u8],
) -> Result<(PoolEntry, &[u8]), Stop>
    ensures { Gives (λ x. (x.0, x.1.now)) result (read_tagged size place tag rest.now) }
{
    match tag {
        1 => utf8_entry(alloc, size, place, rest),
        3 => {
            let (bits, rest) = number_of_four(size, rest)?;
            Ok((PoolEntry::Integer(bits.cast_signed()), rest))
        }
        4 => {
            let (bits, rest) = number_of_four(size, rest)?;
            Ok((PoolEntry::Float(bits), rest))
        }
        5 => {
            let (bits, rest) = number_of_eight(size, rest)?;
            Ok((PoolEntry::Long(bits), rest))
        }
        6 => {
            let (bits, rest) = number_of_eight(size, rest)?;
            Ok((PoolEntry::Double(bits), rest))
        }
        15 => handle_entry(size, rest),
        _ => indices_entry(size, place, tag, rest),
    }
}

#[tactic(auto, unfolding(crate::specs::Pool::read_entry))]
fn entry(alloc: Global, size: u32, rest: &[u8]) -> Result<(PoolEntry, &[u8]), Stop>
    ensures { Gives (λ x. (x.0, x.1.now)) result (read_entry size rest.now) }
{
    let (tag, behind) = number_of_one(size, rest)?;
    tagged_entry(alloc, size, place_of(size, rest), tag, behind)
}

/// The place of an entry that is owed a second index.
fn owed_by(entry: &PoolEntry, place: u32) -> Option<u32>
    ensures { result ≡ owed_by entry.now place }
{
    match entry {
        PoolEntry::Long(_) | PoolEntry::Double(_) => Some(place),
        _ => None,
    }
}

/// The entries of so many indices, and what follows.
fn entries(alloc: Global, size: u32, count: u16, rest: &[u8]) -> Result<(Pool, &[u8]), Stop>
    ensures { Gives (λ x. (x.0, x.1.now)) result (read_entries size None count rest.now) }
{
    let mut entries = List::new(alloc);
    let mut owed = None;
    let mut rest = rest;
    for _ in 0..count {
        if owed.is_some() {
            entries.push(PoolEntry::Second)?;
            owed = None;
        } else {
            let (found, behind) = entry(alloc, size, rest)?;
            owed = owed_by(&found, place_of(size, rest));
            entries.push(found)?;
            rest = behind;
        }
    }
    match owed {
        Some(place) => Err(fault_at(ClassCode::PoolIndex, place)),
        None => Ok((entries, rest)),
    }
}

/// The pool that begins the rest, with its count, and what follows. `size` is the length of the whole file.
#[tactic(auto, unfolding(crate::specs::Pool::read_pool_from))]
pub fn read_pool_from(alloc: Global, size: u32, rest: &[u8]) -> Result<(KnownPool, &[u8]), Stop>
    ensures { Gives (λ x. (x.0, x.1.now)) result (pool_from size rest.now) }
{
    let (count, behind) = number_of_two(size, rest)?;
    if count == 0 {
        return Err(fault_at(ClassCode::PoolIndex, place_of(size, rest)));
    }
    let (entries, end) = entries(alloc, size, count - 1, behind)?;
    let pool = KnownPool::of(alloc, entries)?;
    match reference_fault(size, &pool, behind) {
        Some(fault) => Err(Stop::Fault(fault)),
        None => Ok((pool, end)),
    }
}

/// The pool of a file, and the first place after it. The pool, with its count, begins at byte 8, and nothing else of the
/// file is read.
#[tactic(auto, using(crate::proofs::PoolStops::stop_answers))]
pub fn read_pool(alloc: Global, bytes: &[u8]) -> Result<(Pool, u32), ClassFault>
    requires { length bytes.now < 2 ^ 31 }
    ensures { Answers (λ x. x) result (pool_and_place bytes.now) }
{
    let size = bytes.len() as u32;
    let (pool, rest) = read_pool_from(alloc, size, behind(bytes, 8))?;
    Ok((pool.into_pool(), place_of(size, rest)))
}
