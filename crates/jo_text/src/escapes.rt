//! The spelling of names and of quoted texts.
ghost use Rattle.std.specs.Prelude.{◌≡◌, ◌<◌, ◌^◌, ◌++◌, ℕ, List, IfOk, IfErr, OnOk, MatchOption};
ghost use Rattle.std.specs.List.{AllByRecursion};
ghost use Rattle.jo_text.specs.Escapes.{hex_digit as digit_of, is_escaped as must_escape, is_escaped_in_quotes as must_escape_in_quotes, escaped_byte_where, escaped_where, escaped, quoted};
ghost use Rattle.jo_text.specs.EscapeScan.{escapes_in, IsNoDigit, IsDigitOf, BeginsNoByte, BeginsByte};
ghost use Rattle.jo_text.specs.declared.texts.DescFault.TheVariants.{Bad};

use crate::texts::{DescFault, Memory, Name};
use std::alloc::Global;

/// Which bytes are escaped.
#[derive(Clone, Copy)]
enum Spelling {
    /// Those of names.
    Bare,
    /// Those of texts between double quotes.
    Quoted,
}

impl Spelling {
    fn escapes(self, byte: u8) -> bool
        ensures { result ≡ escapes_in self byte }
    {
        match self {
            Spelling::Bare => is_escaped(byte),
            Spelling::Quoted => is_escaped_in_quotes(byte),
        }
    }
}

fn is_escaped(byte: u8) -> bool
    ensures { result ≡ must_escape byte }
{
    byte < 0x21 || 0x7e < byte || b"%,]@!#\"".contains(&byte)
}

fn is_escaped_in_quotes(byte: u8) -> bool
    ensures { result ≡ must_escape_in_quotes byte }
{
    byte < 0x20 || 0x7e < byte || b"%\"".contains(&byte)
}

fn hex_digit(n: u8) -> u8
    requires { n < 16 }
    ensures { result ≡ digit_of n }
{
    if n < 10 { b'0' + n } else { b'A' - 10 + n }
}

/// The value of a digit to the base sixteen.
fn hex_value(digit: u8) -> Option<u8>
    ensures { MatchOption result (IsNoDigit digit) (IsDigitOf digit) }
{
    match digit {
        b'0'..=b'9' => Some(digit - b'0'),
        b'A'..=b'F' => Some(digit - b'A' + 10),
        _ => None,
    }
}

fn push_byte(out: &mut Vec<u8>, spelling: Spelling, byte: u8) -> Result<(), Memory>
    ensures { OnOk result (out.new.items ≡ out.old.items ++ escaped_byte_where (escapes_in spelling) byte) }
{
    if spelling.escapes(byte) {
        out.extend_from_slice(&[b'%', hex_digit(byte / 16), hex_digit(byte % 16)])
    } else {
        out.push(byte)?;
        Ok(())
    }
}

fn push_bytes(out: &mut Vec<u8>, spelling: Spelling, text: &[u8]) -> Result<(), Memory>
    ensures { OnOk result (out.new.items ≡ out.old.items ++ escaped_where (escapes_in spelling) text.now) }
{
    for byte in text {
        push_byte(out, spelling, *byte)?;
    }
    Ok(())
}

/// Adds the name's spelling. A refusal may leave a part of it.
pub fn push_escaped(out: &mut Vec<u8>, name: &[u8]) -> Result<(), Memory>
    ensures { OnOk result (out.new.items ≡ out.old.items ++ escaped name.now) }
{
    push_bytes(out, Spelling::Bare, name)
}

/// The name's spelling: `%` and two digits in the place of each byte that a spelling can't hold.
pub fn escape(alloc: Global, name: &[u8]) -> Result<Name, Memory>
    ensures { IfOk result (λ text. text ≡ escaped name.now) }
{
    let mut text = Vec::new(alloc);
    push_escaped(&mut text, name)?;
    Ok(Name::from(text))
}

/// Adds the text between double quotes, with `%` and two digits in the place of each byte that can't stand there. A
/// refusal may leave a part of it.
pub fn push_quoted(out: &mut Vec<u8>, text: &[u8]) -> Result<(), Memory>
    ensures { OnOk result (out.new.items ≡ out.old.items ++ quoted text.now) }
{
    out.push(b'"')?;
    push_bytes(out, Spelling::Quoted, text)?;
    out.push(b'"')?;
    Ok(())
}

/// The byte whose spelling begins the text, and what follows.
fn first_byte(spelling: Spelling, text: &[u8]) -> Option<(u8, &[u8])>
    ensures { MatchOption result (BeginsNoByte (escapes_in spelling) text.now) (λ first. BeginsByte (escapes_in spelling) text.now first.0 first.1.now) }
{
    match text {
        [b'%', high, low, rest @ ..] => {
            let byte = hex_value(*high)? * 16 + hex_value(*low)?;
            if !spelling.escapes(byte) {
                return None;
            }
            Some((byte, rest))
        }
        [byte, rest @ ..] if !spelling.escapes(*byte) => Some((*byte, rest)),
        _ => None,
    }
}

/// The bytes that are spelled so.
fn read_bytes(alloc: Global, spelling: Spelling, text: &[u8]) -> Result<Name, DescFault>
    ensures name { IfOk result (λ name. text.now ≡ escaped_where (escapes_in spelling) name) }
    ensures bytes { IfOk result (λ name. AllByRecursion (λ byte. byte < 2 ^ 8) name) }
    ensures bad { IfErr result (λ fault. fault ≡ Bad → (name : List ℕ) → AllByRecursion (λ byte. byte < 2 ^ 8) name → text.now ≡ escaped_where (escapes_in spelling) name → ⊥) }
{
    let mut name = Vec::new(alloc);
    let mut rest = text;
    while let Some((byte, after)) = first_byte(spelling, rest) {
        name.push(byte).map_err(|_| DescFault::Memory)?;
        rest = after;
    }
    if rest.is_empty() {
        Ok(Name::from(name))
    } else {
        Err(DescFault::Bad)
    }
}

/// The name with that spelling. `Bad` says that it is no name's.
pub fn unescape(alloc: Global, text: &[u8]) -> Result<Name, DescFault>
    ensures name { IfOk result (λ name. text.now ≡ escaped name) }
    ensures bytes { IfOk result (λ name. AllByRecursion (λ byte. byte < 2 ^ 8) name) }
    ensures bad { IfErr result (λ fault. fault ≡ Bad → (name : List ℕ) → AllByRecursion (λ byte. byte < 2 ^ 8) name → text.now ≡ escaped name → ⊥) }
{
    read_bytes(alloc, Spelling::Bare, text)
}

/// What stands between the quotes. `Bad` says that it is no quoted text.
pub fn unquote(alloc: Global, text: &[u8]) -> Result<Name, DescFault>
    ensures name { IfOk result (λ name. text.now ≡ quoted name) }
    ensures bytes { IfOk result (λ name. AllByRecursion (λ byte. byte < 2 ^ 8) name) }
    ensures bad { IfErr result (λ fault. fault ≡ Bad → (name : List ℕ) → AllByRecursion (λ byte. byte < 2 ^ 8) name → text.now ≡ quoted name → ⊥) }
{
    match text {
        [b'"', inside @ .., b'"'] => read_bytes(alloc, Spelling::Quoted, inside),
        _ => Err(DescFault::Bad),
    }
}

#[cfg(test)]
mod tests {
    use super::*;
    use std::test::Fail;

    /// The spelling of a name of one byte.
    fn spelling(alloc: Global, byte: u8) -> Result<String, Memory> {
        let letter = char::from(byte);
        if byte.is_ascii_graphic() && !"%,]@!#\"".contains(letter) {
            format!(in alloc; "{letter}")
        } else {
            format!(in alloc; "%{byte:02X}")
        }
    }

    fn is_bad(alloc: Global, text: &[u8]) -> bool {
        matches!(unescape(alloc, text), Err(DescFault::Bad))
    }

    #[test]
    fn each_byte_is_spelled_and_read(rt: HostRuntime) -> Result<(), Fail> {
        let alloc = rt.alloc();
        for byte in 0..=255 {
            let text = escape(alloc, &[byte])?;
            assert_eq!(rt; text.as_slice(), spelling(alloc, byte)?.as_bytes());
            let name = unescape(alloc, text.as_slice())?;
            assert_eq!(rt; name.as_slice(), [byte].as_slice());
        }
        Ok(())
    }

    #[test]
    fn names_are_spelled_and_read(rt: HostRuntime) -> Result<(), Fail> {
        let alloc = rt.alloc();
        for (name, wanted) in [
            ("", ""),
            ("[Ljava/lang/String;", "[Ljava/lang/String;"),
            ("50% off, really", "50%25%20off%2C%20really"),
            ("<init>@\u{e9}]", "<init>%40%C3%A9%5D"),
        ] {
            let text = escape(alloc, name.as_bytes())?;
            assert_eq!(rt; text.as_slice(), wanted.as_bytes());
            let read = unescape(alloc, text.as_slice())?;
            assert_eq!(rt; read.as_slice(), name.as_bytes());
        }
        Ok(())
    }

    #[test]
    fn a_spelling_is_added(rt: HostRuntime) -> Result<(), Fail> {
        let mut out = b"x: ".to_vec(rt.alloc())?;
        push_escaped(&mut out, b"a#b")?;
        assert_eq!(rt; out.as_slice(), b"x: a%23b".as_slice());
        Ok(())
    }

    #[test]
    fn other_texts_are_bad(rt: HostRuntime) {
        let alloc = rt.alloc();
        // Escapes that aren't needed, with digits in lower case, cut off, and without digits.
        for text in [
            "%41", "%2A", "%2F", "%c3", "%7f", "%", "ab%", "%2", "%G0", "%0:", "% 9", "%%25",
        ] {
            assert!(rt; is_bad(alloc, text.as_bytes()), "{text}");
        }
        // Bytes that need an escape.
        for text in [
            " ", "a b", "\t", "a,", "]", "@", "!", "#", "\"", "\u{7f}", "\u{e9}",
        ] {
            assert!(rt; is_bad(alloc, text.as_bytes()), "{text}");
        }
        assert!(rt; !is_bad(alloc, b"%C3"));
    }

    /// The quoted text of one byte.
    fn quoted_byte(alloc: Global, byte: u8) -> Result<String, Memory> {
        let letter = char::from(byte);
        if letter == ' ' || byte.is_ascii_graphic() && letter != '%' && letter != '"' {
            format!(in alloc; "\"{letter}\"")
        } else {
            format!(in alloc; "\"%{byte:02X}\"")
        }
    }

    fn quote(alloc: Global, text: &[u8]) -> Result<Vec<u8>, Memory> {
        let mut out = Vec::new(alloc);
        push_quoted(&mut out, text)?;
        Ok(out)
    }

    #[test]
    fn each_byte_is_quoted_and_read(rt: HostRuntime) -> Result<(), Fail> {
        let alloc = rt.alloc();
        for byte in 0..=255 {
            let text = quote(alloc, &[byte])?;
            assert_eq!(rt; text.as_slice(), quoted_byte(alloc, byte)?.as_bytes());
            let read = unquote(alloc, text.as_slice())?;
            assert_eq!(rt; read.as_slice(), [byte].as_slice());
        }
        Ok(())
    }

    #[test]
    fn texts_are_quoted_and_read(rt: HostRuntime) -> Result<(), Fail> {
        let alloc = rt.alloc();
        for (text, wanted) in [
            ("", "\"\""),
            ("two words, [and] #1@!", "\"two words, [and] #1@!\""),
            ("5% \"off\"\n\u{e9}", "\"5%25 %22off%22%0A%C3%A9\""),
        ] {
            let spelled = quote(alloc, text.as_bytes())?;
            assert_eq!(rt; spelled.as_slice(), wanted.as_bytes());
            let read = unquote(alloc, wanted.as_bytes())?;
            assert_eq!(rt; read.as_slice(), text.as_bytes());
        }
        Ok(())
    }

    #[test]
    fn other_texts_are_not_quoted(rt: HostRuntime) {
        let alloc = rt.alloc();
        // Quotes that are missing, escapes that aren't needed, with digits in lower case, cut off, and bytes that need one.
        for text in [
            "",
            "\"",
            "a",
            "a\"",
            "\"a",
            " \"a\"",
            "\"a\" ",
            "\"%20\"",
            "\"%41\"",
            "\"%2C\"",
            "\"%0a\"",
            "\"%\"",
            "\"%2\"",
            "\"%22",
            "\"a\"b\"",
            "\"\"\"",
            "\"\t\"",
            "\"\u{7f}\"",
            "\"\u{e9}\"",
        ] {
            assert!(rt;
                matches!(unquote(alloc, text.as_bytes()), Err(DescFault::Bad)),
                "{text}"
            );
        }
        assert!(rt; unquote(alloc, b"\"%22\"").is_ok());
    }
}
