//! The methods of the files, by their spellings.
ghost use Rattle.std.specs.Prelude.{◌≡◌, ◌<◌, ◌^◌, ℕ, List as Items, length, map, IfOk, OnOk, IfSome, Some, option_map};
ghost use Rattle.jo_prog.specs.Program.{method_at as method_with};
ghost use Rattle.jo_policy.specs.FileMethods.{method_named, entry_of, entries_in, with_entry, with_method, IsIndexOf, is_entry as can_be_entry, entry_named};

use indexmap::IndexMap;
use jo_ids::{Id, Memory};
use jo_insn::{ACC_STATIC, has_flag};
use jo_prog::files::is_of_files;
use jo_prog::program::{Method, Program, method_at};
use jo_prog::spelling::push_spelled;
use std::alloc::{AllocError, Global};

/// The methods of the files by their spellings: of two with one spelling the first.
#[derive(Drop)]
pub struct MethodIndex {
    places: IndexMap<Vec<u8>, u32>,
}

/// The place at a spelling.
#[tactic(auto, using(crate::proofs::MethodEntries::found))]
fn place_at(index: &MethodIndex, spelling: &[u8]) -> Option<u32>
    ensures { result ≡ entry_of (entries_in index.now) spelling.now }
{
    index.places.get(spelling).copied()
}

/// Adds a spelling, unless it is there.
fn add_spelling(index: &mut MethodIndex, spelling: Vec<u8>, place: u32) -> Result<(), Memory>
    ensures { OnOk result (entries_in index.new ≡ with_entry
        (entries_in index.old) spelling.items place) }
{
    if place_at(index, spelling.as_slice()).is_some() {
        return Ok(());
    }
    match index.places.insert(spelling, place) {
        Ok(_) => return Ok(()),
        Err(_) => return Err(AllocError),
    }
}

/// Adds the spelling of a method of the files.
fn add_method(
    alloc: Global,
    index: &mut MethodIndex,
    program: &Program,
    method: &Method,
    place: u32,
) -> Result<(), Memory>
    ensures { OnOk result (entries_in index.new ≡ with_method program.now
        (entries_in index.old) method.now place) }
{
    if !is_of_files(program, method) {
        return Ok(());
    }
    let mut spelling = Vec::new(alloc);
    push_spelled(&mut spelling, program, method)?;
    add_spelling(index, spelling, place)
}

/// The index of a program's methods.
pub fn index_methods(alloc: Global, program: &Program) -> Result<MethodIndex, Memory>
    requires { length program.now.methods < 2 ^ 32 }
    ensures { IfOk result (λ index. IsIndexOf program.now index) }
{
    let mut index = MethodIndex {
        places: IndexMap::new(alloc),
    };
    for (i, method) in program.methods.as_slice().iter().enumerate() {
        add_method(alloc, &mut index, program, method, i as u32)?;
    }
    Ok(index)
}

/// The method that a text spells, with its number.
pub fn find_method<'p>(
    program: &'p Program,
    index: &MethodIndex,
    text: &[u8],
) -> Option<(u32, &'p Method)>
    requires { IsIndexOf program.now index.now }
    ensures number { option_map
        (λ found. found.0) result ≡ method_named program.now text.now }
    ensures method { IfSome result (λ found. method_with program.now found.0 ≡ Some found.1.now) }
{
    let number = place_at(index, text)?;
    let method = method_at(program, Id::of(number))?;
    Some((number, method))
}

fn is_entry(method: &Method) -> bool
    ensures { result ≡ can_be_entry method.now }
{
    has_flag(ACC_STATIC, method.flags)
        && method.code.is_some()
        && (method.desc.as_slice() == b"()V".as_slice()
            || method.desc.as_slice() == b"([Ljava/lang/String;)V".as_slice())
}

/// The entry that a text spells.
pub fn find_entry(program: &Program, index: &MethodIndex, text: &[u8]) -> Option<u32>
    requires { IsIndexOf program.now index.now }
    ensures { result ≡ entry_named program.now text.now }
{
    let (number, method) = find_method(program, index, text)?;
    if is_entry(method) { Some(number) } else { None }
}
