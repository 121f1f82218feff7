//! Runs each command line of the file `lines` over the files beside it, and prints what it puts and the code of its status.
#![tactic(auto)]

ghost use Rattle.std.specs.Prelude.{◌≡◌, ◌<◌, List, ℕ, [], ◌∷◌, ◌++◌, IfOk, OnOk, map, string_bytes};
ghost use Rattle.std.specs.Str.{IsUtf8};
ghost use Rattle.stored_runs.specs.Shown.{digit as digit_of, two_digits, digits_line, told_as};

use jo_io::{Files, Memory, MemorySink, StdFiles};
use joana_top::joana;
use std::alloc::Global;
use std::{io, str};

/// How many bytes a sink takes.
const ROOM: u32 = 10_000;

/// What bytes say, which are texts here.
fn text_of(bytes: &[u8]) -> io::Result<&str>
    ensures { IfOk result (λ text. text.now ≡ bytes.now) }
{
    match str::from_utf8(bytes) {
        Ok(text) => Ok(text),
        Err(_) => Err(io::Error::from(io::ErrorKind::InvalidData)),
    }
}

fn sink(alloc: Global) -> io::Result<MemorySink> {
    Ok(MemorySink::new(alloc, ROOM, Vec::new(alloc))?)
}

fn digit(n: u8) -> u8
    requires { n < 16 }
    ensures { result ≡ digit_of n }
{
    if n < 10 { b'0' + n } else { b'a' + (n - 10) }
}

fn push_digits(out: &mut Vec<u8>, byte: u8) -> Result<(), Memory>
    ensures { OnOk result (out.new.items ≡ out.old.items ++ two_digits byte) }
{
    out.extend_from_slice(&[digit(byte / 16), digit(byte % 16)])
}

/// The bytes to the base sixteen, on a line.
fn digits_of(alloc: Global, bytes: &[u8]) -> Result<Vec<u8>, Memory>
    ensures { IfOk result (λ line. line.items ≡ digits_line bytes.now) }
{
    let mut line = Vec::new(alloc);
    for byte in bytes {
        push_digits(&mut line, *byte)?;
    }
    line.push(b'\n')?;
    Ok(line)
}

/// How bytes are shown: a text as it is, and others by their digits.
fn shown(alloc: Global, bytes: &[u8]) -> Result<Vec<u8>, Memory>
    ensures text { IsUtf8 bytes.now → IfOk result (λ shown. shown.items ≡ bytes.now) }
    ensures other { (IsUtf8 bytes.now → ⊥) → IfOk result (λ shown. shown.items ≡ digits_line bytes.now) }
{
    match str::from_utf8(bytes) {
        Ok(_) => bytes.to_vec(alloc),
        Err(_) => digits_of(alloc, bytes),
    }
}

/// What a run is told as.
fn told(alloc: Global, line: &str, shown: &[u8], notes: &[u8], code: u8) -> Result<Vec<u8>, Memory>
    ensures { IfOk result (λ text. text.items ≡ told_as line.now shown.now notes.now code) }
{
    let head = format!(in alloc; "$ joana {line}\n")?;
    let status = format!(in alloc; "status {code}\n")?;
    let mut text = Vec::new(alloc);
    text.extend_from_slice(head.as_bytes())?;
    text.extend_from_slice(shown)?;
    text.extend_from_slice(notes)?;
    text.extend_from_slice(status.as_bytes())?;
    Ok(text)
}

/// The words between the spaces of a line.
fn words_of(alloc: Global, line: &str) -> Result<Vec<String>, Memory> {
    let mut words = Vec::new(alloc);
    for word in line.split(' ') {
        words.push(word.to_string(alloc)?)?;
    }
    Ok(words)
}

/// Runs the words of a line.
fn run_line(rt: &HostRuntime, line: &str) -> io::Result<()> {
    let alloc = rt.alloc();
    let words = words_of(alloc, line)?;
    let mut files = StdFiles::new(rt);
    let mut out = sink(alloc)?;
    let mut notes = sink(alloc)?;
    let status = joana(alloc, words.as_slice(), &mut files, &mut out, &mut notes);
    let shown = shown(alloc, out.bytes())?;
    let told = told(alloc, line, shown.as_slice(), notes.bytes(), status.code())?;
    print!(rt; "{}", text_of(told.as_slice())?)
}

fn main(rt: HostRuntime) -> io::Result<()> {
    let lines = match StdFiles::new(&rt).read(rt.alloc(), "lines") {
        Ok(lines) => lines,
        Err(_) => return Err(io::Error::from(io::ErrorKind::NotFound)),
    };
    for line in text_of(lines.as_slice())?.lines() {
        run_line(&rt, line)?;
    }
    Ok(())
}
