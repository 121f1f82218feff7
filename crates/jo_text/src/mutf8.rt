//! Modified UTF-8 (JVM Specification SE 8, 4.4.7).
ghost use Rattle.std.specs.Prelude.{◌≡◌, ◌<◌, ◌^◌, ◌↔◌, ℕ, List, [], length, MatchOption, IsTrue};
ghost use Rattle.jo_text.specs.Texts.{StopsAt};
ghost use Rattle.jo_text.specs.Mutf8.{IsMutf8};
ghost use Rattle.jo_text.specs.CharScan.{continued, mutf8_lead, Awaits, GoesOn};
ghost use Rattle.jo_text.specs.Tests.{is_mutf8};

/// The bytes that a character still lacks: how many, and the range of the first. Each other one is a continuation byte.
#[derive(Clone, Copy)]
struct Awaited {
    count: u8,
    least: u8,
    most: u8,
}

/// So many continuation bytes.
fn continued(count: u8) -> Awaited
    ensures { result ≡ continued count }
{
    Awaited {
        count,
        least: 0x80,
        most: 0xBF,
    }
}

/// What a character lacks behind its first byte. `None` says that no character begins with the byte.
fn after_lead(lead: u8) -> Option<Awaited>
    ensures { result ≡ mutf8_lead lead }
{
    match lead {
        0x01..=0x7F => Some(continued(0)),
        0xC0 => Some(Awaited {
            count: 1,
            least: 0x80,
            most: 0x80,
        }),
        0xC2..=0xDF => Some(continued(1)),
        0xE0 => Some(Awaited {
            count: 2,
            least: 0xA0,
            most: 0xBF,
        }),
        0xE1..=0xEF => Some(continued(2)),
        _ => None,
    }
}

/// What is lacking behind one byte more. `None` says that no text goes on with the byte.
fn after_byte(awaited: Awaited, byte: u8) -> Option<Awaited>
    ensures { (front : List ℕ) → Awaits IsMutf8 front awaited → GoesOn IsMutf8 front byte result }
{
    if awaited.count == 0 {
        after_lead(byte)
    } else if awaited.least <= byte && byte <= awaited.most {
        Some(continued(awaited.count - 1))
    } else {
        None
    }
}

/// Where the bytes stop being modified UTF-8, as `check_mutf8` says.
fn stop_of(bytes: &[u8]) -> Option<usize>
    ensures { MatchOption result (IsMutf8 bytes.now) (λ place. StopsAt IsMutf8 bytes.now place) }
{
    let mut awaited = continued(0);
    for (place, byte) in bytes.iter().enumerate() {
        match after_byte(awaited, *byte) {
            Some(next) => awaited = next,
            None => return Some(place),
        }
    }
    if awaited.count == 0 {
        None
    } else {
        Some(bytes.len())
    }
}

/// The place of the first byte that no modified UTF-8 continues, or the length where the bytes only stop too early.
/// `None` says that they are modified UTF-8.
pub fn check_mutf8(bytes: &[u8]) -> Option<u32>
    requires { length bytes.now < 2 ^ 31 }
    ensures { MatchOption result (IsMutf8 bytes.now) (λ place. StopsAt IsMutf8 bytes.now place) }
{
    let place = stop_of(bytes)?;
    Some(place as u32)
}

/// Whether the bytes are modified UTF-8.
pub fn is_mutf8(bytes: &[u8]) -> bool
    ensures grammar { IsTrue result ↔ IsMutf8 bytes.now }
    ensures test { result ≡ is_mutf8 bytes.now }
{
    stop_of(bytes).is_none()
}

#[cfg(test)]
mod tests {
    use super::*;

    #[test]
    fn modified_utf8_is_told(rt: HostRuntime) {
        assert_eq!(rt; check_mutf8(b""), None);
        assert_eq!(rt; check_mutf8(b"\x01a\x7F"), None);
        assert_eq!(rt; check_mutf8(b"\xC0\x80a"), None);
        assert_eq!(rt; check_mutf8(b"\xC2\x80\xDF\xBF"), None);
        assert_eq!(rt; check_mutf8(b"\xE0\xA0\x80\xEF\xBF\xBF"), None);
        assert_eq!(rt;
            check_mutf8(b"\xED\xA0\x80"),
            None,
            "a surrogate that stands alone"
        );
        assert_eq!(rt;
            check_mutf8(b"\xED\xA0\xBD\xED\xB8\x80"),
            None,
            "a pair of surrogates"
        );
    }

    #[test]
    fn the_first_wrong_byte_is_found(rt: HostRuntime) {
        assert_eq!(rt; check_mutf8(b"a\x00"), Some(1));
        assert_eq!(rt; check_mutf8(b"\xC0\x81"), Some(1));
        assert_eq!(rt; check_mutf8(b"\xC1\x80"), Some(0));
        assert_eq!(rt; check_mutf8(b"\xC2a"), Some(1));
        assert_eq!(rt; check_mutf8(b"\xE0\x9F\x80"), Some(1));
        assert_eq!(rt; check_mutf8(b"\xE1\x80\xC0"), Some(2));
        assert_eq!(rt; check_mutf8(b"a\xF0\x9F\x98\x80"), Some(1));
        assert_eq!(rt; check_mutf8(b"ab\x80"), Some(2));
    }

    #[test]
    fn bytes_that_stop_too_early_stop_at_their_end(rt: HostRuntime) {
        assert_eq!(rt; check_mutf8(b"a\xC2"), Some(2));
        assert_eq!(rt; check_mutf8(b"\xE0"), Some(1));
        assert_eq!(rt; check_mutf8(b"\xE1\x80"), Some(2));
    }
}
