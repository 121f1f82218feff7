//! `asm FILE`: the class file of an assembly text.
ghost use Rattle.joana_base.specs.Reading.{files_change, AfterReads};
ghost use Rattle.joana_top.specs.Answers.{IsOutcome, IsReadOutcome};
ghost use Rattle.joana_top.specs.OneFile.{IsOnlyRead};
ghost use Rattle.joana_top.specs.Asm.{IsAssemblyOf, IsTextRefusal, IsAsmAnswer, AsmRefuses};

use class_write::write_class;
use jo_io::Files;
use joana_base::{Answer, Stop, class_of_text, read_file};
use std::alloc::Global;

/// The class file of a text that was read.
fn assemble_file(alloc: Global, text: &[u8]) -> Result<Answer, Stop>
    ensures { IsReadOutcome (IsAssemblyOf text.now) (IsTextRefusal text.now) result }
{
    let class = match class_of_text(alloc, text) {
        Ok(class) => class,
        Err(stop) => return Err(stop),
    };
    match write_class(alloc, &class) {
        Ok(bytes) => Ok(Answer::Yes(bytes)),
        Err(_) => Err(Stop::Memory),
    }
}

/// What `asm` comes to.
pub fn run<F: Files>(alloc: Global, files: &mut F, name: &str) -> Result<Answer, Stop>
    ensures after { AfterReads (IsOnlyRead name.now) result
        (files_change F.held F.faults F.failed files.old files.new) }
    ensures outcome { IsOutcome (IsAsmAnswer (F.held files.old) name.now)
        (AsmRefuses (F.held files.old) name.now) result }
{
    match read_file(alloc, files, 0, name) {
        Ok(text) => assemble_file(alloc, text.as_slice()),
        Err(stop) => Err(stop),
    }
}
