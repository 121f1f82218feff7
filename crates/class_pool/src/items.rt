//! Items of a class file, read from left to right. `rest` is what the file has from some item on, and `size` the file's
//! length: an item's place is what the two differ by.
ghost use Rattle.std.specs.Prelude.{◌≡◌};
ghost use Rattle.class_pool.specs.Items.{number, bytes_of, two_numbers, place_of, fault};
ghost use Rattle.class_pool.specs.Outcomes.{Gives};
ghost use Rattle.class_pool.specs.declared.faults.ClassCode.TheVariants.{Truncated};
ghost use Rattle.class_pool.specs.declared.faults.Stop.TheVariants.{Fault};

use crate::faults::{ClassCode, ClassFault, Stop};
use byteorder::{BigEndian, ByteOrder};

/// The place of the item that begins the rest.
pub fn place_of(size: u32, rest: &[u8]) -> u32
    ensures { result ≡ place_of size rest.now }
{
    (size as usize).saturating_sub(rest.len()) as u32
}

/// The stop at a fault with that code and place.
pub fn fault_at(code: ClassCode, place: u32) -> Stop
    ensures { result ≡ Fault (fault code place) }
{
    Stop::Fault(ClassFault { code, place })
}

/// The byte that begins the rest, and what follows.
pub fn number_of_one(size: u32, rest: &[u8]) -> Result<(u8, &[u8]), Stop>
    ensures { Gives (λ x. (x.0, x.1.now)) result (number size 1 rest.now) }
{
    match rest {
        [] => Err(fault_at(ClassCode::Truncated, size)),
        [byte, rest @ ..] => Ok((*byte, rest)),
    }
}

/// The number in the two bytes that begin the rest, and what follows.
pub fn number_of_two(size: u32, rest: &[u8]) -> Result<(u16, &[u8]), Stop>
    ensures { Gives (λ x. (x.0, x.1.now)) result (number size 2 rest.now) }
{
    if rest.len() < 2 {
        return Err(fault_at(ClassCode::Truncated, size));
    }
    Ok((BigEndian::read_u16(rest), &rest[2..]))
}

/// The number in the four bytes that begin the rest, and what follows.
pub fn number_of_four(size: u32, rest: &[u8]) -> Result<(u32, &[u8]), Stop>
    ensures { Gives (λ x. (x.0, x.1.now)) result (number size 4 rest.now) }
{
    if rest.len() < 4 {
        return Err(fault_at(ClassCode::Truncated, size));
    }
    Ok((BigEndian::read_u32(rest), &rest[4..]))
}

/// The number in the eight bytes that begin the rest, and what follows.
pub fn number_of_eight(size: u32, rest: &[u8]) -> Result<(u64, &[u8]), Stop>
    ensures { Gives (λ x. (x.0, x.1.now)) result (number size 8 rest.now) }
{
    if rest.len() < 8 {
        return Err(fault_at(ClassCode::Truncated, size));
    }
    Ok((BigEndian::read_u64(rest), &rest[8..]))
}

/// Two numbers of two bytes, and what follows.
pub fn two_numbers(size: u32, rest: &[u8]) -> Result<((u16, u16), &[u8]), Stop>
    ensures { Gives (λ x. (x.0, x.1.now)) result (two_numbers size rest.now) }
{
    let (first, rest) = number_of_two(size, rest)?;
    let (second, rest) = number_of_two(size, rest)?;
    Ok(((first, second), rest))
}

/// So many bytes, and what follows.
pub fn bytes_of(size: u32, count: usize, rest: &[u8]) -> Result<(&[u8], &[u8]), Stop>
    ensures { Gives (λ x. (x.0.now, x.1.now)) result (bytes_of size count rest.now) }
{
    if rest.len() < count {
        return Err(fault_at(ClassCode::Truncated, size));
    }
    Ok(rest.split_at(count))
}
