//! The words of a listing. A refusal may leave a part of a word.
ghost use Rattle.std.specs.Prelude.{◌≡◌, ◌++◌, ◌∷◌, ◌<◌, OnOk};
ghost use Rattle.std.specs.Fmt.{decimal, signed_decimal};
ghost use Rattle.std.specs.Option.{option_copied};
ghost use Rattle.jo_text.specs.Escapes.{escaped};
ghost use Rattle.class_pool.specs.Pool.{entry_at as entry_with};
ghost use Rattle.class_dis.specs.Words.{low_digit as digit_of, hex, label, text_of, name_word, class_word, member_name_at as member_name_with, field_word, method_word, text_word, entry_word};

use class_pool::{PoolEntry, class_name_at, desc_at, entry_at, utf8_at};
use jo_text::{Memory, push_escaped, push_quoted};
use std::alloc::Global;

pub fn push_number(alloc: Global, out: &mut Vec<u8>, n: u32) -> Result<(), Memory>
    ensures { OnOk result (out.new.items ≡ out.old.items ++ decimal n) }
{
    let digits = n.to_string(alloc)?;
    out.extend_from_slice(digits.as_bytes())
}

pub fn push_signed(alloc: Global, out: &mut Vec<u8>, n: i64) -> Result<(), Memory>
    ensures { OnOk result (out.new.items ≡ out.old.items ++ signed_decimal n) }
{
    let digits = n.to_string(alloc)?;
    out.extend_from_slice(digits.as_bytes())
}

/// A digit to the base sixteen, in lower case.
fn low_digit(n: u8) -> u8
    requires { n < 16 }
    ensures { result ≡ digit_of n }
{
    if n < 10 { b'0' + n } else { b'a' - 10 + n }
}

/// Flags, in four digits to the base sixteen.
pub fn push_hex(out: &mut Vec<u8>, n: u16) -> Result<(), Memory>
    ensures { OnOk result (out.new.items ≡ out.old.items ++ hex n) }
{
    let digits = [
        b'0',
        b'x',
        low_digit((n / 4096 % 16) as u8),
        low_digit((n / 256 % 16) as u8),
        low_digit((n / 16 % 16) as u8),
        low_digit((n % 16) as u8),
    ];
    out.extend_from_slice(&digits)
}

/// The label of a pc.
pub fn push_label(alloc: Global, out: &mut Vec<u8>, pc: i64) -> Result<(), Memory>
    ensures { OnOk result (out.new.items ≡ out.old.items ++ label pc) }
{
    out.push(b'L')?;
    push_signed(alloc, out, pc)
}

fn push_text(out: &mut Vec<u8>, text: Option<&[u8]>) -> Result<(), Memory>
    ensures { OnOk result (out.new.items ≡ out.old.items ++ escaped (text_of (option_copied text.entry))) }
{
    match text {
        Some(text) => push_escaped(out, text),
        None => Ok(()),
    }
}

/// A name or a descriptor.
pub fn push_name(out: &mut Vec<u8>, pool: &[PoolEntry], index: u16) -> Result<(), Memory>
    ensures { OnOk result (out.new.items ≡ out.old.items ++ name_word pool.now index) }
{
    push_text(out, utf8_at(pool, index))
}

/// A class or an array.
pub fn push_class(out: &mut Vec<u8>, pool: &[PoolEntry], index: u16) -> Result<(), Memory>
    ensures { OnOk result (out.new.items ≡ out.old.items ++ class_word pool.now index) }
{
    push_text(out, class_name_at(pool, index))
}

/// The name of the NameAndType entry with that index.
fn member_name_at(pool: &[PoolEntry], index: u16) -> Option<&[u8]>
    ensures { option_copied result ≡ member_name_with pool.now index }
{
    match entry_at(pool, index)? {
        PoolEntry::NameAndType(name, _) => utf8_at(pool, *name),
        _ => None,
    }
}

/// A class and a member's name, with a full stop between the two.
fn push_member(out: &mut Vec<u8>, pool: &[PoolEntry], class: u16, kind: u16) -> Result<(), Memory>
    ensures { OnOk result (out.new.items ≡ out.old.items ++ (class_word pool.now class ++ 46 ∷ escaped (text_of (member_name_with pool.now kind)))) }
{
    push_class(out, pool, class)?;
    out.push(b'.')?;
    push_text(out, member_name_at(pool, kind))
}

fn push_field(out: &mut Vec<u8>, pool: &[PoolEntry], class: u16, kind: u16) -> Result<(), Memory>
    ensures { OnOk result (out.new.items ≡ out.old.items ++ field_word pool.now class kind) }
{
    push_member(out, pool, class, kind)?;
    out.push(b':')?;
    push_text(out, desc_at(pool, kind))
}

fn push_method(out: &mut Vec<u8>, pool: &[PoolEntry], class: u16, kind: u16) -> Result<(), Memory>
    ensures { OnOk result (out.new.items ≡ out.old.items ++ method_word pool.now class kind) }
{
    push_member(out, pool, class, kind)?;
    push_text(out, desc_at(pool, kind))
}

/// A text in quotes.
fn push_text_constant(out: &mut Vec<u8>, pool: &[PoolEntry], text: u16) -> Result<(), Memory>
    ensures { OnOk result (out.new.items ≡ out.old.items ++ text_word pool.now text) }
{
    push_quoted(out, utf8_at(pool, text).unwrap_or(&[]))
}

/// What an instruction names.
pub fn push_entry(
    alloc: Global,
    out: &mut Vec<u8>,
    pool: &[PoolEntry],
    index: u16,
) -> Result<(), Memory>
    ensures { OnOk result (out.new.items ≡ out.old.items ++ entry_word pool.now (entry_with pool.now index)) }
{
    let Some(entry) = entry_at(pool, index) else {
        return Ok(());
    };
    match entry {
        PoolEntry::Integer(number) => push_signed(alloc, out, i64::from(*number)),
        PoolEntry::Text(text) => push_text_constant(out, pool, *text),
        PoolEntry::Class(name) => push_name(out, pool, *name),
        PoolEntry::FieldRef(class, kind) => push_field(out, pool, *class, *kind),
        PoolEntry::MethodRef(class, kind) | PoolEntry::InterfaceMethodRef(class, kind) => {
            push_method(out, pool, *class, *kind)
        }
        _ => Ok(()),
    }
}
