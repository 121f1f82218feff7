//! The names of classes, each of which stands for the number of its class.
ghost use Rattle.std.specs.Prelude.{◌≡◌, ◌↔◌, ◌<◌, ◌^◌, ◌++◌, ◌∷◌, [], ℕ, length, position, IfErr, IfOk, OnOk, IsTrue};
ghost use Rattle.std.specs.List.{Contains};
ghost use Rattle.std.specs.Str.{bytes_eq};
ghost use Rattle.linker.specs.LinkFaults.{class_names, is_known, IsTwiceDefined};
ghost use Rattle.linker.specs.Linking.{this_name, number_of};
ghost use Rattle.linker.specs.KnownNames.{IsTwiceFault};

use class_pool::{ClassFile, class_name_at};
use indexmap::IndexSet;
use jo_ids::{ClassId, Memory as NoMemory};
use std::alloc::{AllocError, Global};
use std::marker::Model;

/// The names of classes, in the order of their numbers. No two are the same.
#[derive(Drop)]
pub struct ClassNames {
    names: IndexSet<Vec<u8>>,
}

impl Model for ClassNames {
    ghost use Rattle.std.specs.Prelude.{List as Items, ℕ, map};
    ghost use Rattle.linker.specs.KnownNames.{text_in};

    ghost Value = { Items (Items ℕ) };

    ghost view = { λ n. map text_in n.names.keys };
}

/// Why classes have no list of names.
#[derive(Clone, Copy)]
pub enum TwiceDefined {
    /// The class has the name of an earlier one.
    Of(ClassId),
    Memory,
}

impl From<AllocError> for TwiceDefined {
    ghost use Rattle.std.specs.Prelude.{◌≡◌};
    ghost use Rattle.linker.specs.declared.names.TwiceDefined.TheVariants.{Memory};

    ghost from_gives = { λ _ fault. fault ≡ Memory };

    fn from(_e: AllocError) -> TwiceDefined {
        TwiceDefined::Memory
    }
}

impl ClassNames {
    /// No names.
    fn new(alloc: Global) -> ClassNames
        ensures { result ≡ [] }
    {
        ClassNames {
            names: IndexSet::new(alloc),
        }
    }

    /// Whether a class has this name.
    pub fn has(&self, name: &[u8]) -> bool
        ensures known { result ≡ is_known self.now name.now }
        ensures there { IsTrue result ↔ Contains self.now name.now }
    {
        self.names.contains(name)
    }

    /// The number of the class with this name.
    pub fn number_of(&self, name: &[u8]) -> Option<ClassId>
        requires { length self.now < 2 ^ 32 }
        ensures { result ≡ number_of self.now name.now }
    {
        match self.names.get_index_of(name) {
            Some(place) => Some(ClassId::of(place as u32)),
            None => None,
        }
    }

    /// Adds a name that isn't there.
    fn add(&mut self, alloc: Global, name: &[u8]) -> Result<(), NoMemory>
        requires { Contains self.old name.now → ⊥ }
        ensures { OnOk result (self.new ≡ self.old ++ name.now ∷ []) }
    {
        let mut text = Vec::new(alloc);
        text.extend_from_slice(name)?;
        match self.names.insert(text) {
            Ok(_) => return Ok(()),
            Err(_) => return Err(AllocError),
        }
    }
}

/// The name of a class: empty where its pool has none.
pub(crate) fn name_of(class: &ClassFile) -> &[u8]
    ensures { result.now ≡ this_name class.now }
{
    class_name_at(class.pool.as_slice(), class.this_class).unwrap_or(b"")
}

/// The names of the classes, or the first class that has an earlier one's name.
pub fn names_of(alloc: Global, classes: &[ClassFile]) -> Result<ClassNames, TwiceDefined>
    requires few { length classes.now < 2 ^ 32 }
    ensures names { IfOk result (λ names. names ≡ class_names classes.now) }
    ensures once { IfOk result (λ names. (k : ℕ) → IsTwiceDefined names k → ⊥) }
    ensures twice { IfErr result (λ fault. IsTwiceFault (class_names classes.now) fault) }
{
    let mut names = ClassNames::new(alloc);
    for (number, class) in classes.iter().enumerate() {
        let name = name_of(class);
        if names.has(name) {
            return Err(TwiceDefined::Of(ClassId::of(number as u32)));
        }
        names.add(alloc, name)?;
    }
    Ok(names)
}
