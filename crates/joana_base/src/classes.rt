//! The classes of files that were read.
ghost use Rattle.std.specs.Prelude.{◌≡◌, ◌<◌, ◌^◌, false, length, IfOk};
ghost use Rattle.std.specs.List.{list_any};
ghost use Rattle.class_pool.specs.ClassOrder.{class_of};
ghost use Rattle.class_pool.specs.ClassGrammar.{IsClass};
ghost use Rattle.class_pool.specs.Fitting.{FitsClass};
ghost use Rattle.joana_base.specs.Files.{is_large as is_too_large, listed, class_numbered, file_class, text_class, classes_from, classes_of as classes_in};
ghost use Rattle.joana_base.specs.Reading.{all_bytes, third_bytes, AreClasses, IsUnlessMemory, AreUnlessMemory};

use crate::answers::Stop;
use crate::reading::is_large;
use crate::status::{InputFault, LimitKind, Refusal};
use class_asm::{AsmFault, assemble};
use class_pool::{ClassCode, ClassFile};
use class_read::read_class;
use std::alloc::Global;

/// Whether one of the files is too large.
fn has_large(files: &[Vec<u8>]) -> bool
    ensures { result ≡ list_any is_too_large (all_bytes files.now) }
{
    for file in files {
        if is_large(file.as_slice()) {
            return true;
        }
    }
    false
}

/// The class of the file with that number.
fn class_in(alloc: Global, number: u32, file: &[u8]) -> Result<ClassFile, Stop>
    requires { is_too_large file.now ≡ false }
    ensures value { IsUnlessMemory result (class_numbered number (class_of file.now)) }
    ensures class { IfOk result (IsClass file.now) }
{
    match read_class(alloc, file) {
        Ok(class) => Ok(class),
        Err(fault) => match fault.code {
            ClassCode::Memory => Err(Stop::Memory),
            _ => Err(Stop::Faulty(Refusal::Input(InputFault::Class(number, fault)))),
        },
    }
}

/// The classes of files that aren't too large.
fn classes_in_order(alloc: Global, files: &[Vec<u8>]) -> Result<Vec<ClassFile>, Stop>
    requires few { length files.now < 2 ^ 32 }
    requires small { list_any is_too_large (all_bytes files.now) ≡ false }
    ensures value { AreUnlessMemory result (classes_from 0 (all_bytes files.now)) }
    ensures classes { IfOk result (λ classes. AreClasses (all_bytes files.now) classes.items) }
{
    let mut classes = Vec::new(alloc);
    for (number, file) in files.iter().enumerate() {
        match class_in(alloc, number as u32, file.as_slice()) {
            Ok(class) => match classes.push(class) {
                Ok(()) => {}
                Err(_) => return Err(Stop::Memory),
            },
            Err(stop) => return Err(stop),
        }
    }
    Ok(classes)
}

fn is_third_large(third: &Option<Vec<u8>>) -> bool
    ensures { result ≡ list_any is_too_large (listed (third_bytes third.now)) }
{
    match third {
        Some(file) => is_large(file.as_slice()),
        None => false,
    }
}

/// The classes of the files, in their order, where neither one of them nor the third file is too large.
pub fn classes_of(
    alloc: Global,
    third: &Option<Vec<u8>>,
    files: &[Vec<u8>],
) -> Result<Vec<ClassFile>, Stop>
    requires { length files.now < 2 ^ 32 }
    ensures value { AreUnlessMemory result (classes_in (third_bytes third.now) (all_bytes files.now)) }
    ensures classes { IfOk result (λ classes. AreClasses (all_bytes files.now) classes.items) }
{
    if is_third_large(third) || has_large(files) {
        return Err(Stop::Faulty(Refusal::Limit(LimitKind::M2)));
    }
    classes_in_order(alloc, files)
}

/// The class of the one file of a command.
pub fn class_of_file(alloc: Global, file: &[u8]) -> Result<ClassFile, Stop>
    ensures value { IsUnlessMemory result (file_class file.now) }
    ensures class { IfOk result (IsClass file.now) }
{
    if is_large(file) {
        return Err(Stop::Faulty(Refusal::Limit(LimitKind::M2)));
    }
    class_in(alloc, 0, file)
}

/// The class that the one text of a command says.
pub fn class_of_text(alloc: Global, text: &[u8]) -> Result<ClassFile, Stop>
    ensures value { IsUnlessMemory result (text_class text.now) }
    ensures fits { IfOk result (λ class. FitsClass class) }
{
    if is_large(text) {
        return Err(Stop::Faulty(Refusal::Limit(LimitKind::M2)));
    }
    match assemble(alloc, text) {
        Ok(class) => Ok(class),
        Err(AsmFault::Memory) => Err(Stop::Memory),
        Err(fault) => Err(Stop::Faulty(Refusal::Input(InputFault::Asm(fault)))),
    }
}
