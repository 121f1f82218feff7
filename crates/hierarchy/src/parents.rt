//! Whether the classes of a program have their superclasses and interfaces in it.
ghost use Rattle.std.specs.Prelude.{◌≡◌, ◌↔◌, ◌<◌, ℕ, Some, IsTrue};
ghost use Rattle.std.specs.List.{Contains};
ghost use Rattle.hierarchy.specs.Hierarchies.{HasItsParents, IsInside};

use jo_ids::ClassId;
use jo_prog::program::{Class, Program};

fn all_below(classes: &[ClassId], count: usize) -> bool
    ensures { IsTrue result ↔ ((c : ℕ) → Contains classes.now c → c < count) }
{
    for class in classes {
        if class.number() as usize >= count {
            return false;
        }
    }
    true
}

/// Whether there is no superclass, or one below the count.
fn superclass_below(superclass: Option<ClassId>, count: usize) -> bool
    ensures { IsTrue result ↔ ((s : ℕ) → superclass ≡ Some s → s < count) }
{
    match superclass {
        Some(superclass) => (superclass.number() as usize) < count,
        None => true,
    }
}

fn is_inside(class: &Class, count: usize) -> bool
    ensures { IsTrue result ↔ IsInside count class.now }
{
    if !superclass_below(class.superclass, count) {
        return false;
    }
    all_below(class.interfaces.as_slice(), count)
}

/// Whether each superclass and interface of a class is a class of the program.
pub fn has_its_parents(program: &Program) -> bool
    ensures { IsTrue result ↔ HasItsParents program.now }
{
    let classes = program.classes.as_slice();
    for class in classes {
        if !is_inside(class, classes.len()) {
            return false;
        }
    }
    true
}
