//! A constant pool with what is asked of its texts. Each text is looked at once, however many entries, members and
//! instructions name it.
ghost use Rattle.std.specs.Prelude.{◌≡◌, ◌≤◌, false, Some, IfOk};
ghost use Rattle.std.specs.Option.{option_copied};
ghost use Rattle.class_pool.specs.Code;
ghost use Rattle.class_pool.specs.Pool.{utf8_at as utf8_with, desc_at as desc_with};
ghost use Rattle.class_pool.specs.Known.{facts_of, entry_facts, all_facts, at_index};

use crate::entries::{Pool, PoolEntry, entry_at};
use jo_ids::Memory;
use jo_text::{is_class_or_array, is_field_desc, is_member_name, is_method_desc};
use std::alloc::Global;
use std::marker::Model;

/// What is asked of a text, all of it false or 0 where there is none.
#[derive(Clone, Copy)]
pub struct TextFacts {
    pub is_class_or_array: bool,
    pub is_member_name: bool,
    pub is_field_desc: bool,
    pub is_method_desc: bool,
    /// Whether a base type of the descriptor is double, float or long.
    pub is_wide: bool,
    /// How many words the arguments of a call with this descriptor take, its receiver included, modulo 256.
    pub argument_words: u8,
}

const NO_TEXT: TextFacts = TextFacts {
    is_class_or_array: false,
    is_member_name: false,
    is_field_desc: false,
    is_method_desc: false,
    is_wide: false,
    argument_words: 0,
};

/// A pool whose texts have been looked at.
#[derive(Drop)]
pub struct KnownPool {
    pool: Pool,
    facts: Vec<TextFacts>,
}

impl Model for KnownPool {
    ghost use Rattle.std.specs.Prelude.{◌≡◌, List as Items};
    ghost use Rattle.class_pool.specs.declared.entries.PoolEntry.{PoolEntry};
    ghost use Rattle.class_pool.specs.Known.{all_facts};

    ghost Value = { Items PoolEntry };

    ghost view = { λ known. known.pool };

    ghost invariant = { λ known. known.facts.items ≡ all_facts known.pool };
}

impl KnownPool {
    /// The pool with these entries.
    pub fn of(alloc: Global, pool: Pool) -> Result<KnownPool, Memory>
        ensures { IfOk result (λ known. known ≡ pool) }
    {
        let facts = all_facts(alloc, pool.as_slice())?;
        Ok(KnownPool { pool, facts })
    }

    /// The entries.
    pub fn entries(&self) -> &[PoolEntry]
        ensures { result.now ≡ self.now }
    {
        self.pool.as_slice()
    }

    /// The pool alone.
    pub fn into_pool(self) -> Pool
        ensures { result ≡ self }
    {
        self.pool
    }

    /// What is asked of the text of the Utf8 entry with that index.
    pub fn facts_at(&self, index: u16) -> TextFacts
        ensures { result ≡ facts_of (utf8_with self.now index) }
    {
        match at_index(self.facts.as_slice(), index) {
            Some(facts) => *facts,
            None => NO_TEXT,
        }
    }

    /// What is asked of the descriptor of the NameAndType entry with that index.
    pub fn desc_facts_at(&self, index: u16) -> TextFacts
        ensures { result ≡ facts_of (desc_with self.now index) }
    {
        match entry_at(self.entries(), index) {
            Some(PoolEntry::NameAndType(_, desc)) => self.facts_at(*desc),
            _ => NO_TEXT,
        }
    }
}

/// What stands at that pool index, which is counted from 1.
fn at_index(facts: &[TextFacts], index: u16) -> Option<&TextFacts>
    ensures { option_copied result ≡ at_index facts.now index }
{
    if index == 0 {
        return None;
    }
    facts.get(usize::from(index) - 1)
}

/// Whether a descriptor has a base type double, float or long.
fn names_wide(desc: &[u8]) -> bool
    ensures { result ≡ Code.names_wide false desc.now }
{
    let mut in_name = false;
    for byte in desc {
        if in_name {
            in_name = *byte != b';';
        } else if matches!(*byte, b'D' | b'F' | b'J') {
            return true;
        } else {
            in_name = *byte == b'L';
        }
    }
    false
}

/// How many words a parameter takes whose base type has this letter: a long or a double two.
fn words_of(in_array: bool, letter: u8) -> usize
    ensures words { result ≡ Code.words_of in_array letter }
    ensures few { result ≤ 2 }
{
    if !in_array && matches!(letter, b'J' | b'D') {
        2
    } else {
        1
    }
}

/// How many words the arguments of a call with this descriptor take, its receiver included.
pub fn argument_words(desc: &[u8]) -> usize
    ensures { result ≡ Code.argument_words desc.now }
{
    let mut count = 0;
    let mut in_array = false;
    let mut in_name = false;
    for byte in desc {
        if in_name {
            in_name = *byte != b';';
            in_array = false;
        } else if *byte == b')' {
            return 1 + count;
        } else if matches!(*byte, b'(' | b'[') {
            in_array = *byte == b'[';
        } else {
            count += words_of(in_array, *byte);
            in_array = false;
            in_name = *byte == b'L';
        }
    }
    1 + count
}

fn text_facts(text: &[u8]) -> TextFacts
    ensures { result ≡ facts_of (Some text.now) }
{
    TextFacts {
        is_class_or_array: is_class_or_array(text),
        is_member_name: is_member_name(text),
        is_field_desc: is_field_desc(text),
        is_method_desc: is_method_desc(text),
        is_wide: names_wide(text),
        argument_words: (argument_words(text) % 256) as u8,
    }
}

fn entry_facts(entry: &PoolEntry) -> TextFacts
    ensures { result ≡ entry_facts entry.now }
{
    match entry {
        PoolEntry::Utf8(text) => text_facts(text.as_slice()),
        _ => NO_TEXT,
    }
}

fn all_facts(alloc: Global, entries: &[PoolEntry]) -> Result<Vec<TextFacts>, Memory>
    ensures { IfOk result (λ facts. facts.items ≡ all_facts entries.now) }
{
    let mut facts = Vec::with_capacity(alloc, entries.len())?;
    for entry in entries {
        facts.push(entry_facts(entry))?;
    }
    Ok(facts)
}
