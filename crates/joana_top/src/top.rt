//! The top call: words in, files read, one text out, and a status.
ghost use Rattle.std.specs.Prelude.{◌≡◌};
ghost use Rattle.joana_base.specs.Reading.{files_change};
ghost use Rattle.joana_base.specs.declared.answers.Stop.TheVariants.{Faulty, Unread as Failed};
ghost use Rattle.joana_top.specs.Words.{command_in};
ghost use Rattle.joana_top.specs.Sinks.{sink_change, TookAllOrPart};
ghost use Rattle.joana_top.specs.Answers.{IsWordless, IsPut, NotesOfPut, IsNoted};
ghost use Rattle.joana_top.specs.Top.{FitsWords, FitsReads, FitsOutput, FitsNotes, FitsRefusals, FitsVerdict, IsSecureIfAccepted, FitsTrace, FitsAssembly, FitsListing};

use crate::commands::run_command;
use crate::words;
use jo_io::{Files, Sink};
use joana_base::{Answer, OutsideFault, Refusal, Status, Stop, Unread, refusal_line};
use std::alloc::Global;

/// Tries a line to the notes; whether it was taken decides nothing.
fn try_line<N: Sink>(notes: &mut N, line: &[u8])
    ensures { TookAllOrPart (sink_change N.given N.faults notes.old notes.new) line.now }
{
    match notes.put(line) {
        Ok(()) => (),
        Err(_) => (),
    }
}

/// The status of words that are no command.
fn no_words<N: Sink>(notes: &mut N) -> Status
    ensures { IsWordless result (sink_change N.given N.faults notes.old notes.new) }
{
    match notes.put(b"joana: words\n") {
        Ok(()) => Status::Words,
        Err(_) => Status::Outside(OutsideFault::Notes),
    }
}

/// The status of a command whose files are refused.
fn refused<N: Sink>(alloc: Global, notes: &mut N, refusal: Refusal) -> Status
    ensures { IsNoted (Faulty refusal) result (sink_change N.given N.faults notes.old notes.new) }
{
    let line = match refusal_line(alloc, &refusal) {
        Ok(line) => line,
        Err(_) => return Status::Memory,
    };
    match notes.put(line.as_slice()) {
        Ok(()) => refusal.status(),
        Err(_) => Status::Outside(OutsideFault::Notes),
    }
}

/// The status of a read that failed. A line to the notes is tried.
fn unread<N: Sink>(alloc: Global, notes: &mut N, unread: &Unread) -> Status
    ensures { IsNoted (Failed unread.now) result (sink_change N.given N.faults notes.old notes.new) }
{
    let name = unread.name.as_str();
    match format!(in alloc; "joana: outside {name}\n") {
        Ok(line) => {
            try_line(notes, line.as_bytes());
            Status::Outside(OutsideFault::File(unread.number))
        }
        Err(_) => Status::Memory,
    }
}

/// The status of a command that shows nothing.
fn stopped<N: Sink>(alloc: Global, notes: &mut N, stop: Stop) -> Status
    ensures { IsNoted stop result (sink_change N.given N.faults notes.old notes.new) }
{
    match stop {
        Stop::Faulty(refusal) => refused(alloc, notes, refusal),
        Stop::Unread(failed) => unread(alloc, notes, &failed),
        Stop::Memory => Status::Memory,
    }
}

/// Puts the one text of an answer.
fn put_answer<S: Sink, N: Sink>(out: &mut S, notes: &mut N, answer: &Answer) -> Status
    ensures output { IsPut answer.now result (sink_change S.given S.faults out.old out.new) }
    ensures notes { NotesOfPut result (sink_change N.given N.faults notes.old notes.new) }
{
    match out.put(answer.text()) {
        Ok(()) => answer.status(),
        Err(_) => {
            try_line(notes, b"joana: outside output\n");
            Status::Outside(OutsideFault::Output)
        }
    }
}

/// The program over files and sinks: the first word names the command, the others its files.
///
/// `check CLASSES POLICY` reads POLICY first, then CLASSES, then each path of the class list; `run CLASSES POLICY RUNFILE` reads
/// RUNFILE before these paths; `asm FILE` and `dis FILE` read FILE; `help` reads nothing. `out` is given the whole answer in one put, `notes` a line where there is no
/// answer. With `Memory` nothing is put.
pub fn joana<F: Files, S: Sink, N: Sink>(
    alloc: Global,
    words: &[String],
    files: &mut F,
    out: &mut S,
    notes: &mut N,
) -> Status
    // `Words` exactly where the words are no command.
    ensures words { FitsWords (command_in words.now) result }
    // The files' count rises where the answer is a failed read, which is the last that failed.
    ensures reads { FitsReads (command_in words.now) result
        (files_change F.held F.faults F.failed files.old files.new) }
    // What the two sinks were given.
    ensures output { FitsOutput (command_in words.now) result (sink_change S.given S.faults out.old out.new) }
    ensures notes { FitsNotes (command_in words.now) result (F.failed files.new)
        (sink_change N.given N.faults notes.old notes.new) }
    // Of bytes that are the files' wherever they tell them: what refuses them,
    ensures refusals { FitsRefusals (F.held files.old) (command_in words.now) result
        (sink_change N.given N.faults notes.old notes.new) }
    // the verdict on the program that they make,
    ensures verdict { FitsVerdict (F.held files.old) (command_in words.now) result
        (sink_change S.given S.faults out.old out.new) }
    // that an accepted program is secure,
    ensures secure { IsSecureIfAccepted (F.held files.old) (command_in words.now) result }
    // the trace of the run that they ask for,
    ensures trace { FitsTrace (F.held files.old) (command_in words.now) result
        (sink_change S.given S.faults out.old out.new) }
    // the class file of the text that they are,
    ensures assembly { FitsAssembly (F.held files.old) (command_in words.now) result
        (sink_change S.given S.faults out.old out.new) }
    // and the listing of the class that they are.
    ensures listing { FitsListing (F.held files.old) (command_in words.now) result
        (sink_change S.given S.faults out.old out.new) }
{
    let command = match words::command_of(words) {
        Some(command) => command,
        None => return no_words(notes),
    };
    match run_command(alloc, files, command) {
        Ok(answer) => put_answer(out, notes, &answer),
        Err(stop) => stopped(alloc, notes, stop),
    }
}
