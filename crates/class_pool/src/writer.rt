//! Writes the constant pool.
ghost use Rattle.std.specs.Prelude.{◌≡◌, ◌<◌, ◌^◌, ◌∷◌, ◌++◌, length, OnOk, OnErr};
ghost use Rattle.std.specs.Io.{StartsWith};
ghost use Rattle.byteorder.specs.Endian.{big_bytes};
ghost use Rattle.class_pool.specs.Writing.{spelled_entry, spelled_pool, FitsEntry, FitsPool};

use crate::entries::{Pool, PoolEntry};
use jo_ids::Memory;

/// Adds the count and the entries of a pool. A refusal leaves the bytes as they were.
pub fn write_pool(pool: &Pool, bytes: &mut Vec<u8>) -> Result<(), Memory>
    requires { FitsPool pool.now }
    ensures ok { OnOk result (bytes.new.items ≡ bytes.old.items ++ spelled_pool pool.now) }
    ensures err { OnErr result (bytes.new.items ≡ bytes.old.items) }
{
    let before = bytes.len();
    let written = add_pool(pool.as_slice(), bytes);
    if written.is_err() {
        bytes.truncate(before);
    }
    written
}

/// The same, where a refusal may leave some entries.
fn add_pool(pool: &[PoolEntry], bytes: &mut Vec<u8>) -> Result<(), Memory>
    requires { FitsPool pool.now }
    ensures ok { OnOk result (bytes.new.items ≡ bytes.old.items ++ spelled_pool pool.now) }
    ensures err { OnErr result (StartsWith bytes.new.items bytes.old.items) }
{
    let count = pool.len() as u16 + 1;
    bytes.extend_from_slice(&count.to_be_bytes())?;
    for entry in pool {
        add_entry(entry, bytes)?;
    }
    Ok(())
}

/// Adds the bytes of an entry: its tag, and what stands behind it. A refusal leaves the bytes as they were.
pub fn add_entry(entry: &PoolEntry, bytes: &mut Vec<u8>) -> Result<(), Memory>
    requires { FitsEntry entry.now }
    ensures ok { OnOk result (bytes.new.items ≡ bytes.old.items ++ spelled_entry entry.now) }
    ensures err { OnErr result (bytes.new.items ≡ bytes.old.items) }
{
    match entry {
        PoolEntry::Second => Ok(()),
        PoolEntry::Utf8(text) => add_text(text.as_slice(), bytes),
        PoolEntry::Integer(number) => add_four(3, number.cast_unsigned(), bytes),
        PoolEntry::Float(bits) => add_four(4, *bits, bytes),
        PoolEntry::Long(bits) => add_eight(5, *bits, bytes),
        PoolEntry::Double(bits) => add_eight(6, *bits, bytes),
        PoolEntry::Class(name) => add_index(7, *name, bytes),
        PoolEntry::Text(text) => add_index(8, *text, bytes),
        PoolEntry::FieldRef(class, kind) => add_indices(9, *class, *kind, bytes),
        PoolEntry::MethodRef(class, kind) => add_indices(10, *class, *kind, bytes),
        PoolEntry::InterfaceMethodRef(class, kind) => add_indices(11, *class, *kind, bytes),
        PoolEntry::NameAndType(name, desc) => add_indices(12, *name, *desc, bytes),
        PoolEntry::MethodHandle(kind, target) => {
            let [high, low] = target.to_be_bytes();
            bytes.extend_from_slice(&[15, *kind, high, low])
        }
        PoolEntry::MethodType(desc) => add_index(16, *desc, bytes),
        PoolEntry::InvokeDynamic(method, kind) => add_indices(18, *method, *kind, bytes),
    }
}

fn add_text(text: &[u8], bytes: &mut Vec<u8>) -> Result<(), Memory>
    requires { length text.now < 2 ^ 16 }
    ensures ok { OnOk result (bytes.new.items ≡ bytes.old.items ++ (1 ∷ big_bytes 2 (length text.now) ++ text.now)) }
    ensures err { OnErr result (bytes.new.items ≡ bytes.old.items) }
{
    let [high, low] = (text.len() as u16).to_be_bytes();
    bytes.reserve(3 + text.len())?;
    bytes.extend_from_slice(&[1, high, low])?;
    bytes.extend_from_slice(text)
}

fn add_four(tag: u8, number: u32, bytes: &mut Vec<u8>) -> Result<(), Memory>
    ensures ok { OnOk result (bytes.new.items ≡ bytes.old.items ++ tag ∷ big_bytes 4 number) }
    ensures err { OnErr result (bytes.new.items ≡ bytes.old.items) }
{
    let [b0, b1, b2, b3] = number.to_be_bytes();
    bytes.extend_from_slice(&[tag, b0, b1, b2, b3])
}

fn add_eight(tag: u8, number: u64, bytes: &mut Vec<u8>) -> Result<(), Memory>
    ensures ok { OnOk result (bytes.new.items ≡ bytes.old.items ++ tag ∷ big_bytes 8 number) }
    ensures err { OnErr result (bytes.new.items ≡ bytes.old.items) }
{
    let [b0, b1, b2, b3, b4, b5, b6, b7] = number.to_be_bytes();
    bytes.extend_from_slice(&[tag, b0, b1, b2, b3, b4, b5, b6, b7])
}

fn add_index(tag: u8, index: u16, bytes: &mut Vec<u8>) -> Result<(), Memory>
    ensures ok { OnOk result (bytes.new.items ≡ bytes.old.items ++ tag ∷ big_bytes 2 index) }
    ensures err { OnErr result (bytes.new.items ≡ bytes.old.items) }
{
    let [high, low] = index.to_be_bytes();
    bytes.extend_from_slice(&[tag, high, low])
}

fn add_indices(tag: u8, first: u16, second: u16, bytes: &mut Vec<u8>) -> Result<(), Memory>
    ensures ok { OnOk result (bytes.new.items ≡ bytes.old.items ++ (tag ∷ big_bytes 2 first ++ big_bytes 2 second)) }
    ensures err { OnErr result (bytes.new.items ≡ bytes.old.items) }
{
    let [first_high, first_low] = first.to_be_bytes();
    let [second_high, second_low] = second.to_be_bytes();
    bytes.extend_from_slice(&[tag, first_high, first_low, second_high, second_low])
}
