//! Reads a whole class file (JVM Specification SE 8, 4.1).
ghost use Rattle.std.specs.Prelude.{◌≡◌, ◌<◌, ◌^◌, IfOk, IfErr, length};
ghost use Rattle.class_pool.specs.Items.{many};
ghost use Rattle.class_pool.specs.ClassOrder.{class_index as index_of_class, read_behind, class_of};
ghost use Rattle.class_pool.specs.ClassGrammar.{IsClass};
ghost use Rattle.class_pool.specs.Outcomes.{Gives};
ghost use Rattle.class_read.specs.Versions.{read_version};
ghost use Rattle.class_read.specs.Faults.{IsFault};

use crate::fields::fields;
use crate::methods::methods;
use crate::parts::{class_index, skip_attributes};
use class_pool::items::{fault_at, number_of_four, number_of_two, place_of};
use class_pool::{ClassCode, ClassFault, ClassFile, KnownPool, Stop, read_pool_from};
use jo_ids::List;
use std::alloc::Global;

const MAGIC: u32 = 0xcafebabe;

/// The versions that are read.
const OLDEST: u16 = 45;

const NEWEST: u16 = 52;

/// The version behind the magic number, and what follows.
fn version(size: u32, rest: &[u8]) -> Result<((u16, u16), &[u8]), Stop>
    ensures { Gives (λ x. (x.0, x.1.now)) result (read_version size rest.now) }
{
    let (minor, major_rest) = number_of_two(size, rest)?;
    let (major, behind) = number_of_two(size, major_rest)?;
    if major < OLDEST || NEWEST < major {
        return Err(fault_at(ClassCode::Version, place_of(size, major_rest)));
    }
    Ok(((minor, major), behind))
}

/// The indices of so many interfaces, and what follows.
fn interfaces<'a>(
    alloc: Global,
    size: u32,
    pool: &KnownPool,
    count: u16,
    rest: &'a [u8],
) -> Result<(List<u16>, &'a [u8]), Stop>
    ensures { Gives (λ x. (x.0, x.1.now)) result (many (index_of_class size pool.now) count rest.now) }
{
    let mut interfaces = List::new(alloc);
    let mut rest = rest;
    for _ in 0..count {
        let (found, behind) = class_index(size, pool, rest)?;
        interfaces.push(found)?;
        rest = behind;
    }
    Ok((interfaces, rest))
}

/// The class behind its pool.
#[tactic(auto, unfolding(class_pool::specs::ClassOrder::read_behind))]
fn class_behind(
    alloc: Global,
    size: u32,
    version: (u16, u16),
    pool: KnownPool,
    rest: &[u8],
) -> Result<ClassFile, Stop>
    ensures { Gives (λ class. class) result (read_behind size version pool rest.now) }
{
    let (minor, major) = version;
    let (flags, rest) = number_of_two(size, rest)?;
    let (this_class, rest) = class_index(size, &pool, rest)?;
    let (super_class, rest) = class_index(size, &pool, rest)?;
    let (count, rest) = number_of_two(size, rest)?;
    let (interfaces, rest) = interfaces(alloc, size, &pool, count, rest)?;
    let (count, rest) = number_of_two(size, rest)?;
    let (fields, rest) = fields(alloc, size, &pool, count, rest)?;
    let (count, rest) = number_of_two(size, rest)?;
    let (methods, rest) = methods(alloc, size, &pool, count, rest)?;
    let end = skip_attributes(size, &pool, rest)?;
    if !end.is_empty() {
        return Err(fault_at(ClassCode::Trailing, place_of(size, end)));
    }
    Ok(ClassFile {
        minor,
        major,
        pool: pool.into_pool(),
        flags,
        this_class,
        super_class,
        interfaces,
        fields,
        methods,
    })
}

/// The class that the bytes are.
#[tactic(auto, unfolding(class_pool::specs::ClassOrder::class_of))]
fn whole(alloc: Global, bytes: &[u8]) -> Result<ClassFile, Stop>
    requires { length bytes.now < 2 ^ 31 }
    ensures { Gives (λ class. class) result (class_of bytes.now) }
{
    let size = bytes.len() as u32;
    let (magic, rest) = number_of_four(size, bytes)?;
    if magic != MAGIC {
        return Err(fault_at(ClassCode::Magic, 0));
    }
    let (version, rest) = version(size, rest)?;
    let (pool, rest) = read_pool_from(alloc, size, rest)?;
    class_behind(alloc, size, version, pool, rest)
}

/// The class that the bytes are, all of them, or their first fault in the order of reading.
///
/// Attributes that mean nothing to a run aren't kept. In the code that is kept the padding of switches is zero, and the
/// two bytes behind the index of an invokeinterface are its count of argument words and a zero. Want of memory is the
/// code `Memory`, with place 0.
pub fn read_class(alloc: Global, bytes: &[u8]) -> Result<ClassFile, ClassFault>
    requires { length bytes.now < 2 ^ 31 }
    ensures class { IfOk result (λ class. IsClass bytes.now class) }
    ensures fault { IfErr result (λ fault. IsFault bytes.now fault) }
{
    Ok(whole(alloc, bytes)?)
}
