//! The lines of a text.
ghost use Rattle.std.specs.Prelude.{◌≡◌, MatchResult, IfOk, IfErr};
ghost use Rattle.std.specs.Int.{is_in_range};
ghost use Rattle.std.specs.List.{AllByRecursion};
ghost use Rattle.std.specs.Str.{IsUtf8};
ghost use Rattle.jo_text.specs.Lines.{lines_of, IsStop};
ghost use Rattle.jo_text.specs.Texts.{StopsAt};

use crate::texts::{Memory, Name};
use std::alloc::Global;

/// Why a text has no lines.
#[derive(Drop)]
pub enum ListFault {
    /// The place of the first byte that no UTF-8 continues, or the length where the text only stops too early. A place
    /// past 2^32 - 1 stands as that number.
    NotUtf8(u32),
    Memory,
}

/// Whether a character of more than one byte begins with the byte.
fn is_lead(byte: u8) -> bool
    ensures { result ≡ is_in_range 0xC2 0xF4 byte }
{
    matches!(byte, 0xC2..=0xF4)
}

/// The text that the bytes are, or the place of the first byte that no UTF-8 continues.
fn read_text(bytes: &[u8]) -> Result<&str, usize>
    ensures { MatchResult result (λ text. text.now ≡ bytes.now) (λ place. StopsAt IsUtf8 bytes.now place) }
{
    let fault = match str::from_utf8(bytes) {
        Ok(text) => return Ok(text),
        Err(fault) => fault,
    };
    let start = fault.valid_up_to();
    match fault.error_len() {
        None => Err(bytes.len()),
        Some(len) if is_lead(bytes[start]) => Err(start + len),
        // No character begins with the byte at `start`, and the fault is that byte alone.
        Some(_) => Err(start),
    }
}

/// Copies the lines of a text, without the empty ones.
fn copy_lines(alloc: Global, text: &str) -> Result<Vec<Name>, Memory>
    ensures lines { IfOk result (λ found. found.items ≡ lines_of text.now) }
    ensures texts { IfOk result (λ found. AllByRecursion IsUtf8 found.items) }
{
    let mut found = Vec::new(alloc);
    for line in text.lines() {
        if !line.is_empty() {
            let mut name = Name::new(alloc);
            name.append(line.as_bytes())?;
            found.push(name)?;
        }
    }
    Ok(found)
}

/// The lines of a text, without their ends and without the empty ones.
pub fn split_lines(alloc: Global, bytes: &[u8]) -> Result<Vec<Name>, ListFault>
    ensures lines { IfOk result (λ found. found.items ≡ lines_of bytes.now) }
    ensures text { IfOk result (λ found. IsUtf8 bytes.now) }
    ensures texts { IfOk result (λ found. AllByRecursion IsUtf8 found.items) }
    ensures stop { IfErr result (λ fault. IsStop bytes.now fault) }
{
    match read_text(bytes) {
        Ok(text) => copy_lines(alloc, text).map_err(|_| ListFault::Memory),
        Err(place) => Err(ListFault::NotUtf8(place.min(u32::MAX as usize) as u32)),
    }
}

#[cfg(test)]
mod tests {
    use super::*;
    use std::test::Fail;

    /// The lines of the text, with a bar behind each.
    fn barred(rt: &impl AllocGlobal, text: &[u8]) -> Result<Vec<u8>, Fail> {
        let mut all = Vec::new(rt.alloc());
        for line in &split_lines(rt.alloc(), text).ok().ok_or("it is UTF-8")? {
            all.extend_from_slice(line.as_slice())?;
            all.push(b'|')?;
        }
        Ok(all)
    }

    /// The place at which the bytes stop being UTF-8.
    fn stop_of(rt: &impl AllocGlobal, bytes: &[u8]) -> Option<u32> {
        match split_lines(rt.alloc(), bytes) {
            Err(ListFault::NotUtf8(place)) => Some(place),
            _ => None,
        }
    }

    #[test]
    fn lines_are_split(rt: HostRuntime) -> Result<(), Fail> {
        assert_eq!(rt; barred(&rt, b"")?.as_slice(), b"".as_slice());
        assert_eq!(rt; barred(&rt, b"a\nbc\n")?.as_slice(), b"a|bc|".as_slice());
        assert_eq!(rt; barred(&rt, b"a\r\nbc")?.as_slice(), b"a|bc|".as_slice());
        assert_eq!(rt;
            barred(&rt, b"a\rb\r\r\nc\r")?.as_slice(),
            b"a\rb\r|c\r|".as_slice()
        );
        assert_eq!(rt; barred(&rt, b"\n\r\n\na\n\n")?.as_slice(), b"a|".as_slice());
        assert_eq!(rt;
            barred(&rt, b"\xC3\xA9\n\xF0\x9F\x98\x80")?.as_slice(),
            b"\xC3\xA9|\xF0\x9F\x98\x80|".as_slice()
        );
        Ok(())
    }

    #[test]
    fn the_first_wrong_byte_is_found(rt: HostRuntime) {
        assert_eq!(rt; stop_of(&rt, b"a\n\xC3("), Some(3));
        assert_eq!(rt; stop_of(&rt, b"\xE2\x82("), Some(2));
        assert_eq!(rt; stop_of(&rt, b"\xF0\x9F\x98("), Some(3));
        assert_eq!(rt; stop_of(&rt, b"\xED\xA0\x80"), Some(1));
        assert_eq!(rt; stop_of(&rt, b"\xF4\x90\x80\x80"), Some(1));
        assert_eq!(rt; stop_of(&rt, b"\xFF"), Some(0));
        assert_eq!(rt; stop_of(&rt, b"ab\x80"), Some(2));
        assert_eq!(rt; stop_of(&rt, b"\xC0\x80"), Some(0));
    }

    #[test]
    fn a_text_that_stops_too_early_stops_at_its_end(rt: HostRuntime) {
        assert_eq!(rt; stop_of(&rt, b"a\xC3"), Some(2));
        assert_eq!(rt; stop_of(&rt, b"\xE2\x82"), Some(2));
        assert_eq!(rt; stop_of(&rt, b"ab\xF0\x9F\x98"), Some(5));
    }
}
