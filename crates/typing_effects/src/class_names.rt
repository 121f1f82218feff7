//! The classes of a program by their names.
ghost use Rattle.std.specs.Prelude.{◌≡◌, ◌<◌, ◌^◌, ℕ, List as Items, length, Some, if◌then◌else◌, IfOk, OnOk};
ghost use Rattle.std.specs.Str.{bytes_eq};
ghost use Rattle.jo_prog.specs.Types;
ghost use Rattle.typing_effects.specs.ClassNames.{class_by, AreNamesOf};

use indexmap::IndexMap;
use jo_ids::{ClassId, Id, Memory};
use jo_prog::program::{Class, Program};
use std::alloc::{AllocError, Global};

/// The classes of a program by their names: of two with one name the first. Made once for a program, so that no name is looked for among all
/// classes.
#[derive(Drop)]
pub struct ClassNames {
    numbers: IndexMap<Vec<u8>, ClassId>,
}

/// Puts a class in the place of one with its name.
fn put_name(alloc: Global, names: &mut ClassNames, class: &Class, number: u32) -> Result<(), Memory>
    ensures { OnOk result ((text : Items ℕ) → class_by names.new text ≡
        (if bytes_eq class.now.name text then Some number else class_by names.old text)) }
{
    let mut key = Vec::new(alloc);
    key.extend_from_slice(class.name.as_slice())?;
    match names.numbers.insert(key, Id::of(number)) {
        Ok(_) => return Ok(()),
        Err(_) => return Err(AllocError),
    }
}

/// The names of the classes. The last classes come first, so that of two the first stays.
pub fn class_names(alloc: Global, classes: &[Class]) -> Result<ClassNames, Memory>
    requires { length classes.now < 2 ^ 32 }
    ensures { IfOk result (λ names. AreNamesOf classes.now names) }
{
    let mut names = ClassNames {
        numbers: IndexMap::new(alloc),
    };
    let mut left = classes.len();
    while left > 0 {
        left -= 1;
        put_name(alloc, &mut names, &classes[left], left as u32)?;
    }
    Ok(names)
}

/// The first class with that name.
pub(crate) fn class_named(program: &Program, names: &ClassNames, name: &[u8]) -> Option<ClassId>
    requires { AreNamesOf program.now.classes names.now }
    ensures { result ≡ Types.class_named program.now name.now }
{
    names.numbers.get(name).copied()
}
