//! The entries of the constant pool (JVM Specification SE 8, 4.4).
ghost use Rattle.std.specs.Prelude.{◌≡◌};
ghost use Rattle.std.specs.Option.{option_copied};
ghost use Rattle.class_pool.specs.Pool.{entry_at, utf8_at, class_name_at, desc_at};

use jo_ids::List;
use jo_text::Name;

/// The constant pool. Its item k, counted from 0, has the index k + 1.
pub type Pool = List<PoolEntry>;

/// A constant pool entry. Every `u16` is a pool index, but for the first number of `InvokeDynamic`.
#[derive(Drop)]
pub enum PoolEntry {
    /// The second place of a `Long` or `Double`.
    Second,
    Utf8(Name),
    Integer(i32),
    Float(u32),
    Long(u64),
    Double(u64),
    Class(u16),
    Text(u16),
    FieldRef(u16, u16),
    MethodRef(u16, u16),
    InterfaceMethodRef(u16, u16),
    NameAndType(u16, u16),
    MethodHandle(u8, u16),
    MethodType(u16),
    InvokeDynamic(u16, u16),
}

/// The entry with that index.
pub fn entry_at(pool: &[PoolEntry], index: u16) -> Option<&PoolEntry>
    ensures { option_copied result ≡ entry_at pool.now index }
{
    if index == 0 {
        return None;
    }
    pool.get(usize::from(index) - 1)
}

/// The text of the Utf8 entry with that index.
pub fn utf8_at(pool: &[PoolEntry], index: u16) -> Option<&[u8]>
    ensures { option_copied result ≡ utf8_at pool.now index }
{
    match entry_at(pool, index)? {
        PoolEntry::Utf8(text) => Some(text.as_slice()),
        _ => None,
    }
}

/// The name of the Class entry with that index.
pub fn class_name_at(pool: &[PoolEntry], index: u16) -> Option<&[u8]>
    ensures { option_copied result ≡ class_name_at pool.now index }
{
    match entry_at(pool, index)? {
        PoolEntry::Class(name) => utf8_at(pool, *name),
        _ => None,
    }
}

/// The descriptor of the NameAndType entry with that index.
pub fn desc_at(pool: &[PoolEntry], index: u16) -> Option<&[u8]>
    ensures { option_copied result ≡ desc_at pool.now index }
{
    match entry_at(pool, index)? {
        PoolEntry::NameAndType(_, desc) => utf8_at(pool, *desc),
        _ => None,
    }
}
