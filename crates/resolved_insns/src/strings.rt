//! The string constants of a program: one object for each distinct text.
ghost use Rattle.std.specs.Prelude.{◌≡◌, ℕ, ◌++◌, ◌∷◌, [], List as Items, length, map, IfOk, OnOk};
ghost use Rattle.std.specs.List.{flat_map};
ghost use Rattle.jo_prog.specs.declared.program.Class.{Class as OfClass};
ghost use Rattle.jo_prog.specs.declared.program.Field.{Field as OfField};
ghost use Rattle.jo_prog.specs.Constants;
ghost use Rattle.jo_prog.specs.Constants.{text_of, constant_text, distinct, string_constants, string_address};
ghost use Rattle.resolved_insns.specs.Strings.{lent, texts_in, AreStringsOf};

use indexmap::IndexSet;
use jo_ids::Memory;
use jo_prog::program::{Class, Field, Operand, Program};
use jvm_values::Address;
use std::alloc::{AllocError, Global};

/// The texts that instructions name and fields start with, each once, in the order in which they are found first.
#[derive(Drop)]
pub struct Strings {
    texts: IndexSet<Vec<u8>>,
}

fn add_text<'p>(texts: &mut Vec<&'p [u8]>, operand: &'p Operand) -> Result<(), Memory>
    ensures { OnOk result (lent texts.new.items ≡ lent texts.old.items ++ text_of operand.now) }
{
    if let Operand::Text(text) = operand {
        texts.push(text.as_slice())?;
    }
    Ok(())
}

fn add_operands<'p>(texts: &mut Vec<&'p [u8]>, operands: &'p [Operand]) -> Result<(), Memory>
    ensures { OnOk result (lent texts.new.items ≡ lent texts.old.items ++ flat_map text_of operands.now) }
{
    for operand in operands {
        add_text(texts, operand)?;
    }
    Ok(())
}

fn add_classes<'p>(texts: &mut Vec<&'p [u8]>, classes: &'p [Class]) -> Result<(), Memory>
    ensures { OnOk result (lent texts.new.items ≡ lent texts.old.items ++ flat_map (λ (class : OfClass). flat_map text_of class.operands) classes.now) }
{
    for class in classes {
        add_operands(texts, class.operands.as_slice())?;
    }
    Ok(())
}

fn add_constant<'p>(texts: &mut Vec<&'p [u8]>, field: &'p Field) -> Result<(), Memory>
    ensures { OnOk result (lent texts.new.items ≡ lent texts.old.items ++ constant_text field.now.constant) }
{
    match &field.constant {
        Some(operand) => {
            add_text(texts, operand)?;
            Ok(())
        }
        None => Ok(()),
    }
}

fn add_fields<'p>(texts: &mut Vec<&'p [u8]>, fields: &'p [Field]) -> Result<(), Memory>
    ensures { OnOk result (lent texts.new.items ≡ lent texts.old.items ++ flat_map (λ (field : OfField). constant_text field.constant) fields.now) }
{
    for field in fields {
        add_constant(texts, field)?;
    }
    Ok(())
}

fn texts_of(alloc: Global, program: &Program) -> Result<Vec<&[u8]>, Memory>
    ensures { IfOk result (λ texts. lent texts.items ≡ Constants.texts_of program.now) }
{
    let mut texts = Vec::new(alloc);
    add_classes(&mut texts, program.classes.as_slice())?;
    add_fields(&mut texts, program.fields.as_slice())?;
    Ok(texts)
}

/// Adds a text where it isn't there.
fn put_text(alloc: Global, strings: &mut Strings, text: &[u8]) -> Result<(), Memory>
    ensures { OnOk result ((before : Items (Items ℕ)) → texts_in strings.old ≡ distinct before → texts_in strings.new ≡ distinct (before ++ text.now ∷ [])) }
{
    let mut key = Vec::new(alloc);
    key.extend_from_slice(text)?;
    match strings.texts.insert(key) {
        Ok(_) => return Ok(()),
        Err(_) => return Err(AllocError),
    }
}

fn distinct_texts(alloc: Global, texts: &[&[u8]]) -> Result<Strings, Memory>
    ensures { IfOk result (λ strings. texts_in strings ≡ distinct (lent texts.now)) }
{
    let mut strings = Strings {
        texts: IndexSet::new(alloc),
    };
    for text in texts {
        put_text(alloc, &mut strings, *text)?;
    }
    Ok(strings)
}

impl Strings {
    /// The string constants of a program. Where there are 2^32 or more, memory is said to be wanting.
    pub fn build(alloc: Global, program: &Program) -> Result<Strings, Memory>
        ensures { IfOk result (AreStringsOf program.now) }
    {
        let texts = texts_of(alloc, program)?;
        let strings = distinct_texts(alloc, texts.as_slice())?;
        if strings.texts.len() > u32::MAX as usize {
            return Err(AllocError);
        }
        Ok(strings)
    }

    /// How many there are.
    pub fn count(&self, program: &Program) -> u32
        requires { AreStringsOf program.now self.now }
        ensures { result ≡ length (string_constants program.now) }
    {
        self.texts.len() as u32
    }

    /// The address of a text's object.
    pub fn address(&self, program: &Program, text: &[u8]) -> Option<Address>
        requires { AreStringsOf program.now self.now }
        ensures { result ≡ string_address program.now text.now }
    {
        match self.texts.get_index_of(text) {
            Some(place) => Some(place as u32),
            None => None,
        }
    }
}
