//! Numbers and texts as a class file spells them.
ghost use Rattle.std.specs.Prelude.{◌≡◌, ◌<◌, ◌++◌, length, OnOk};
ghost use Rattle.class_pool.specs.ClassGrammar.{u2, u4};
ghost use Rattle.class_write.specs.Spelling.{is_text_of, text_index as index_of_text};

use class_pool::PoolEntry;
use jo_ids::Memory;

pub fn add_two(number: u16, out: &mut Vec<u8>) -> Result<(), Memory>
    ensures { OnOk result (out.new.items ≡ out.old.items ++ u2 number) }
{
    out.extend_from_slice(&number.to_be_bytes())
}

pub fn add_four(number: u32, out: &mut Vec<u8>) -> Result<(), Memory>
    ensures { OnOk result (out.new.items ≡ out.old.items ++ u4 number) }
{
    out.extend_from_slice(&number.to_be_bytes())
}

fn is_text(entry: &PoolEntry, text: &[u8]) -> bool
    ensures { result ≡ is_text_of text.now entry.now }
{
    match entry {
        PoolEntry::Utf8(other) => other.as_slice() == text,
        _ => false,
    }
}

/// The index of the first Utf8 entry that spells the text, 0 where there is none.
pub fn text_index(pool: &[PoolEntry], text: &[u8]) -> u16
    requires { length pool.now < 65535 }
    ensures { result ≡ index_of_text pool.now text.now }
{
    let mut index = 1;
    for entry in pool {
        if is_text(entry, text) {
            return index;
        }
        index += 1;
    }
    0
}
