//! The classes of the prelude, which come first in each program: those of the package java/lang that the Java Virtual
//! Machine and the profile speak of, with few members.
#![tactic(auto)]

pub mod laws;
#[cfg(test)]
mod tests;
mod texts;

ghost use Rattle.std.specs.Prelude.{◌≡◌, ◌+◌, ◌++◌, ◌∷◌, [], length, IfOk, OnOk};
ghost use Rattle.std.specs.List.{flat_map};
ghost use Rattle.prelude.specs.Texts.{exception_text};
ghost use Rattle.prelude.specs.Classes.{class_of_text, object_classes, prelude_classes};

use class_asm::assemble;
use class_pool::ClassFile;
use jo_ids::{List, Memory};
use std::alloc::{AllocError, Global};

/// The class that a text says. Each text of the prelude says one, so a refusal is want of memory.
#[tactic(auto, unfolding(crate::specs::Classes::class_of_text))]
fn class_of(alloc: Global, text: &[u8]) -> Result<ClassFile, Memory>
    ensures { IfOk result (λ class. class_of_text text.now ≡ class ∷ []) }
{
    match assemble(alloc, text) {
        Ok(class) => Ok(class),
        Err(_) => Err(AllocError),
    }
}

fn add(classes: &mut List<ClassFile>, class: ClassFile) -> Result<(), Memory>
    ensures added { OnOk result (classes.new ≡ classes.old ++ class ∷ []) }
    ensures count { OnOk result (length classes.new ≡ length classes.old + 1) }
{
    match classes.push(class) {
        Ok(()) => Ok(()),
        Err((_class, memory)) => Err(memory),
    }
}

/// Adds the class that a text says.
fn add_text(alloc: Global, classes: &mut List<ClassFile>, text: &[u8]) -> Result<(), Memory>
    ensures added { OnOk result (classes.new ≡ classes.old ++ class_of_text text.now) }
    ensures count { OnOk result (length classes.new ≡ length classes.old + 1) }
{
    let class = class_of(alloc, text)?;
    add(classes, class)
}

/// java/lang/Object, whose text has itself in the place of a superclass.
fn object(alloc: Global) -> Result<ClassFile, Memory>
    ensures { IfOk result (λ class. object_classes ≡ class ∷ []) }
{
    let mut class = class_of(alloc, texts::object())?;
    class.super_class = 0;
    Ok(class)
}

/// Adds the class of each row, which has its name and that of its superclass.
fn add_exceptions(
    alloc: Global,
    classes: &mut List<ClassFile>,
    rows: &[(&str, &str)],
) -> Result<(), Memory>
    ensures added { OnOk result (classes.new ≡ classes.old
        ++ flat_map (λ row. class_of_text (exception_text (row.0.now, row.1.now))) rows.now) }
    ensures count { OnOk result (length classes.new ≡ length classes.old + length rows.now) }
{
    for row in rows {
        let text = texts::exception(alloc, row.0, row.1)?;
        add_text(alloc, classes, text.as_slice())?;
    }
    Ok(())
}

/// The classes of the prelude in their order. Want of memory is the one refusal.
pub fn classes(alloc: Global) -> Result<List<ClassFile>, Memory>
    ensures classes { IfOk result (λ classes. classes ≡ prelude_classes) }
    ensures count { IfOk result (λ classes. length classes ≡ 23) }
{
    let mut classes = List::new(alloc);
    add(&mut classes, object(alloc)?)?;
    add_text(alloc, &mut classes, texts::string())?;
    add_text(alloc, &mut classes, texts::runnable())?;
    add_text(alloc, &mut classes, texts::thread())?;
    add_text(alloc, &mut classes, texts::throwable())?;
    add_exceptions(alloc, &mut classes, texts::exceptions())?;
    Ok(classes)
}
