//! Runs of the top call over files and two sinks in memory.
ghost use Rattle.std.specs.Prelude.{◌≡◌, ◌++◌, List, ℕ, IfOk, map, slice_set, string_bytes};
ghost use Rattle.std.specs.Borrow.{Bor};
ghost use Rattle.jo_io.specs.MemoryFiles.{pair_of, bytes_under};
ghost use Rattle.joana_base.specs.Status.{code_of};
ghost use Rattle.joana_top.specs.Words.{command_in};
ghost use Rattle.joana_top.specs.Top.{FitsWords, IsSecureIfAccepted};
ghost use Rattle.joana_tests.specs.Runs.{listed, line_of as line_with, three_files};

use jo_io::{Memory, MemoryFiles, MemorySink};
use joana_top::{Status, joana};
use std::alloc::Global;
#[cfg(test)]
use std::str;
#[cfg(test)]
use std::test::Fail;

/// What a run answers and puts.
#[derive(Drop)]
pub struct Answer {
    pub status: Status,
    pub out: Vec<u8>,
    pub notes: Vec<u8>,
}

/// The files `p`, `l` and `c`: a policy, a class list and a class file.
#[derive(Drop)]
pub struct Stored<'a> {
    pub policy: &'a str,
    pub list: &'a str,
    pub class: Vec<u8>,
}

/// The numbers of the read and of the puts that are to fail.
#[derive(Clone, Copy)]
pub struct Failing {
    pub read: Option<u32>,
    pub out: Option<u32>,
    pub notes: Option<u32>,
}

pub const NONE_FAILS: Failing = Failing {
    read: None,
    out: None,
    notes: None,
};

fn numbers(alloc: Global, failing: Option<u32>) -> Result<Vec<u32>, Memory>
    ensures { IfOk result (λ numbers. numbers.items ≡ listed failing) }
{
    let mut numbers = Vec::new(alloc);
    if let Some(number) = failing {
        numbers.push(number)?;
    }
    Ok(numbers)
}

/// The words as the process has them.
pub fn owned(alloc: Global, words: &[&str]) -> Result<Vec<String>, Memory>
    ensures { IfOk result (λ owned. map string_bytes owned.items ≡ map (λ (word : Bor (List ℕ)). word.now) words.now) }
{
    let mut owned = Vec::new(alloc);
    for word in words {
        owned.push(word.to_string(alloc)?)?;
    }
    Ok(owned)
}

/// What the words answer over files with these names.
pub fn run_over(
    alloc: Global,
    words: &[String],
    pairs: Vec<(String, Vec<u8>)>,
    failing: Failing,
) -> Result<Answer, Memory>
    ensures words { IfOk result (λ answer. FitsWords (command_in words.now) answer.status) }
    ensures secure { IfOk result (λ answer. IsSecureIfAccepted
        (bytes_under (map pair_of pairs.items)) (command_in words.now) answer.status) }
{
    let mut files = MemoryFiles::new(pairs, numbers(alloc, failing.read)?);
    let mut out = MemorySink::new(alloc, 1000, numbers(alloc, failing.out)?)?;
    let mut notes = MemorySink::new(alloc, 1000, numbers(alloc, failing.notes)?)?;
    let status = joana(alloc, words, &mut files, &mut out, &mut notes);
    Ok(Answer {
        status,
        out: out.bytes().to_vec(alloc)?,
        notes: notes.bytes().to_vec(alloc)?,
    })
}

/// What the words answer over files with these names.
pub fn answer_over(
    alloc: Global,
    words: &[&str],
    pairs: Vec<(String, Vec<u8>)>,
    failing: Failing,
) -> Result<Answer, Memory> {
    let words = owned(alloc, words)?;
    run_over(alloc, words.as_slice(), pairs, failing)
}

/// The files with their names.
pub fn named(alloc: Global, stored: Stored<'_>) -> Result<Vec<(String, Vec<u8>)>, Memory>
    ensures { IfOk result (λ pairs. map pair_of pairs.items ≡ three_files stored.entry.policy.now stored.entry.list.now stored.entry.class.items) }
{
    let mut pairs = Vec::new(alloc);
    pairs.push((
        "p".to_string(alloc)?,
        stored.policy.as_bytes().to_vec(alloc)?,
    ))?;
    pairs.push(("l".to_string(alloc)?, stored.list.as_bytes().to_vec(alloc)?))?;
    pairs.push(("c".to_string(alloc)?, stored.class))?;
    Ok(pairs)
}

/// What the words answer over the files.
pub fn answer_to(
    alloc: Global,
    words: &[&str],
    stored: Stored<'_>,
    failing: Failing,
) -> Result<Answer, Memory> {
    let pairs = named(alloc, stored)?;
    answer_over(alloc, words, pairs, failing)
}

/// The code of the status, and what the notes took.
pub fn line_of(alloc: Global, answer: &Answer) -> Result<Vec<u8>, Memory>
    ensures { IfOk result (λ line. line.items ≡ line_with (code_of answer.now.status) answer.now.notes.items) }
{
    let code = answer.status.code();
    let front = format!(in alloc; "{code} ")?;
    let mut line = Vec::new(alloc);
    line.extend_from_slice(front.as_bytes())?;
    line.extend_from_slice(answer.notes.as_slice())?;
    Ok(line)
}

/// The code of the status, and what the notes took, which is text.
#[cfg(test)]
pub fn told(alloc: Global, answer: &Answer) -> Result<String, Fail> {
    let line = line_of(alloc, answer)?;
    let text = str::from_utf8(line.as_slice())
        .ok()
        .ok_or("the notes are text")?;
    Ok(text.to_string(alloc)?)
}

/// The class with another byte at a place.
pub fn changed(mut class: Vec<u8>, place: usize, byte: u8) -> Vec<u8>
    ensures { result.items ≡ slice_set class.items place byte }
{
    if let Some(old) = class.get_mut(place) {
        *old = byte;
    }
    class
}
