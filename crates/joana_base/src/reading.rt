//! The files of a command, read in their order.
ghost use Rattle.std.specs.Prelude.{◌≡◌, ◌+◌, ◌^◌, ◌<◌, ◌++◌, false, length, option_map, ℕ, List};
ghost use Rattle.std.specs.List.{AllByRecursion};
ghost use Rattle.std.specs.Str.{IsUtf8};
ghost use Rattle.joana_base.specs.Files.{is_large as is_too_large, names_of, listed};
ghost use Rattle.joana_base.specs.Reading.{files_change, StopsAt, AfterRead, AfterReadsFrom, AfterListReads, AfterProgramReads, ReadsFile, ReadsThird, ReadsPaths, ReadsBehind, ReadsList, ReadsProgram};

use crate::answers::{Stop, Unread};
use crate::status::{InputFault, LimitKind, Refusal};
use jo_io::{FileFault, Files};
use jo_text::{ListFault, Name, split_lines};
use std::alloc::Global;

/// How many bytes a file may have.
const LARGEST: usize = 1_048_576;

/// How many paths a class list may have.
const MOST_PATHS: usize = 512;

/// Whether a file has more bytes than it may have.
pub fn is_large(bytes: &[u8]) -> bool
    ensures { result ≡ is_too_large bytes.now }
{
    bytes.len() > LARGEST
}

/// The names of the files that make a program and say what it may show, and of the third file of a command that has one.
#[derive(Clone, Copy)]
pub struct ProgramNames<'a> {
    pub classes: &'a str,
    pub policy: &'a str,
    pub third: Option<&'a str>,
}

/// These files, the class files in the order of the list.
#[derive(Drop)]
pub struct ProgramFiles {
    pub policy: Vec<u8>,
    pub list: Vec<u8>,
    pub third: Option<Vec<u8>>,
    pub classes: Vec<Vec<u8>>,
}

/// The files that are read behind the class list.
#[derive(Drop)]
struct FilesBehind {
    third: Option<Vec<u8>>,
    classes: Vec<Vec<u8>>,
}

/// The stop at a read with that number and name.
fn stop_at(alloc: Global, number: u32, name: &str, fault: FileFault) -> Stop
    ensures { StopsAt number name.now fault result }
{
    match fault {
        FileFault::Failed => match String::from_str(alloc, name) {
            Ok(name) => Stop::Unread(Unread { number, name }),
            Err(_) => Stop::Memory,
        },
        FileFault::Memory => Stop::Memory,
    }
}

/// Reads the file with that name, which is the read with this number.
pub fn read_file<F: Files>(
    alloc: Global,
    files: &mut F,
    number: u32,
    name: &str,
) -> Result<Vec<u8>, Stop>
    ensures after { AfterRead number name.now result
        (files_change F.held F.faults F.failed files.old files.new) }
    ensures read { ReadsFile (F.held files.old) name.now result }
    ensures held { (other : List ℕ) → F.held files.new other ≡ F.held files.old other }
{
    match files.read(alloc, name) {
        Ok(bytes) => Ok(bytes),
        Err(fault) => Err(stop_at(alloc, number, name, fault)),
    }
}

/// Reads the file with that path, which is a line of a text.
fn read_path<F: Files>(
    alloc: Global,
    files: &mut F,
    number: u32,
    path: &[u8],
) -> Result<Vec<u8>, Stop>
    requires { IsUtf8 path.now }
    ensures after { AfterRead number path.now result
        (files_change F.held F.faults F.failed files.old files.new) }
    ensures read { ReadsFile (F.held files.old) path.now result }
    ensures held { (other : List ℕ) → F.held files.new other ≡ F.held files.old other }
{
    let name = unsafe { std::str::from_utf8_unchecked(path) };
    read_file(alloc, files, number, name)
}

/// Reads the third file of a command that has one.
fn read_third<F: Files>(
    alloc: Global,
    files: &mut F,
    third: Option<&str>,
) -> Result<Option<Vec<u8>>, Stop>
    ensures after { AfterReadsFrom 2 (listed (option_map (λ name. name.now) third.entry)) result
        (files_change F.held F.faults F.failed files.old files.new) }
    ensures read { ReadsThird (F.held files.old) (option_map (λ name. name.now) third.entry) result }
    ensures held { (other : List ℕ) → F.held files.new other ≡ F.held files.old other }
{
    match third {
        Some(name) => match read_file(alloc, files, 2, name) {
            Ok(bytes) => Ok(Some(bytes)),
            Err(stop) => Err(stop),
        },
        None => Ok(None),
    }
}

/// The number of the read of the first path.
fn first_of_paths(third: Option<&str>) -> u32
    ensures value { result ≡ 2 + length (listed (option_map (λ name. name.now) third.entry)) }
    ensures small { result < 4 }
{
    match third {
        Some(_) => 3,
        None => 2,
    }
}

/// Reads the file of each path in turn. The first read has the number `first`.
fn read_paths<F: Files>(
    alloc: Global,
    files: &mut F,
    first: u32,
    paths: &[Name],
) -> Result<Vec<Vec<u8>>, Stop>
    requires few { length paths.now + first < 2 ^ 32 }
    requires texts { AllByRecursion IsUtf8 paths.now }
    ensures after { AfterReadsFrom first paths.now result
        (files_change F.held F.faults F.failed files.old files.new) }
    ensures read { ReadsPaths (F.held files.old) paths.now result }
{
    let mut classes = Vec::new(alloc);
    for (place, path) in paths.iter().enumerate() {
        match read_path(alloc, files, place as u32 + first, path.as_slice()) {
            Ok(bytes) => match classes.push(bytes) {
                Ok(()) => {}
                Err(_) => return Err(Stop::Memory),
            },
            Err(stop) => return Err(stop),
        }
    }
    Ok(classes)
}

/// Reads the third file, then those of the paths.
fn read_behind<F: Files>(
    alloc: Global,
    files: &mut F,
    third: Option<&str>,
    paths: &[Name],
) -> Result<FilesBehind, Stop>
    requires few { length paths.now + 4 < 2 ^ 32 }
    requires texts { AllByRecursion IsUtf8 paths.now }
    ensures after { AfterReadsFrom 2 (listed (option_map (λ name. name.now) third.entry) ++ paths.now) result
        (files_change F.held F.faults F.failed files.old files.new) }
    ensures read { ReadsBehind (F.held files.old) (option_map (λ name. name.now) third.entry) paths.now result }
{
    let third_file = match read_third(alloc, files, third) {
        Ok(file) => file,
        Err(stop) => return Err(stop),
    };
    match read_paths(alloc, files, first_of_paths(third), paths) {
        Ok(classes) => Ok(FilesBehind {
            third: third_file,
            classes,
        }),
        Err(stop) => Err(stop),
    }
}

/// Reads the third file and the class files of a list.
fn read_list<F: Files>(
    alloc: Global,
    files: &mut F,
    third: Option<&str>,
    list: &[u8],
) -> Result<FilesBehind, Stop>
    requires { is_too_large list.now ≡ false }
    ensures after { AfterListReads (option_map (λ name. name.now) third.entry) list.now result
        (files_change F.held F.faults F.failed files.old files.new) }
    ensures read { ReadsList (F.held files.old) (option_map (λ name. name.now) third.entry) list.now result }
{
    let paths = match split_lines(alloc, list) {
        Ok(paths) => paths,
        Err(ListFault::NotUtf8(place)) => {
            return Err(Stop::Faulty(Refusal::Input(InputFault::ClassList(place))));
        }
        Err(ListFault::Memory) => return Err(Stop::Memory),
    };
    if paths.as_slice().len() > MOST_PATHS {
        return Err(Stop::Faulty(Refusal::Limit(LimitKind::M1)));
    }
    read_behind(alloc, files, third, paths.as_slice())
}

/// Reads the policy, the class list, and the third file and the class files where neither of the two is too large and the list is
/// UTF-8 with no more paths than it may have.
pub fn read_program<F: Files>(
    alloc: Global,
    files: &mut F,
    names: ProgramNames<'_>,
) -> Result<ProgramFiles, Stop>
    ensures after { AfterProgramReads (names_of names.entry) result
        (files_change F.held F.faults F.failed files.old files.new) }
    ensures read { ReadsProgram (F.held files.old) (names_of names.entry) result }
{
    let policy = match read_file(alloc, files, 0, names.policy) {
        Ok(policy) => policy,
        Err(stop) => return Err(stop),
    };
    let list = match read_file(alloc, files, 1, names.classes) {
        Ok(list) => list,
        Err(stop) => return Err(stop),
    };
    if is_large(policy.as_slice()) || is_large(list.as_slice()) {
        return Err(Stop::Faulty(Refusal::Limit(LimitKind::M2)));
    }
    match read_list(alloc, files, names.third, list.as_slice()) {
        Ok(behind) => Ok(ProgramFiles {
            policy,
            list,
            third: behind.third,
            classes: behind.classes,
        }),
        Err(stop) => Err(stop),
    }
}
