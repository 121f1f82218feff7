//! `dis FILE`: the listing of a class file.
ghost use Rattle.joana_base.specs.Reading.{files_change, AfterReads};
ghost use Rattle.joana_top.specs.Answers.{IsOutcome, IsReadOutcome};
ghost use Rattle.joana_top.specs.OneFile.{IsOnlyRead};
ghost use Rattle.joana_top.specs.Dis.{IsListingOf, IsClassRefusal, IsDisAnswer, DisRefuses};

use class_dis::laws::what_is_read_is_short;
use class_dis::listing;
use jo_io::Files;
use joana_base::{Answer, Stop, class_of_file, read_file};
use std::alloc::Global;

/// The listing of a file that was read.
fn list_file(alloc: Global, file: &[u8]) -> Result<Answer, Stop>
    ensures { IsReadOutcome (IsListingOf file.now) (IsClassRefusal file.now) result }
{
    let class = match class_of_file(alloc, file) {
        Ok(class) => class,
        Err(stop) => return Err(stop),
    };
    what_is_read_is_short();
    match listing(alloc, &class) {
        Ok(text) => Ok(Answer::Yes(text)),
        Err(_) => Err(Stop::Memory),
    }
}

/// What `dis` comes to.
pub fn run<F: Files>(alloc: Global, files: &mut F, name: &str) -> Result<Answer, Stop>
    ensures after { AfterReads (IsOnlyRead name.now) result
        (files_change F.held F.faults F.failed files.old files.new) }
    ensures outcome { IsOutcome (IsDisAnswer (F.held files.old) name.now)
        (DisRefuses (F.held files.old) name.now) result }
{
    match read_file(alloc, files, 0, name) {
        Ok(file) => list_file(alloc, file.as_slice()),
        Err(stop) => Err(stop),
    }
}
