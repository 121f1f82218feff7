//! Numbers in texts.
ghost use Rattle.std.specs.Prelude.{◌↔◌, ℤ, MatchOption, IsTrue};
ghost use Rattle.jo_text.specs.Numbers.{IsNumber};
ghost use Rattle.jo_text.specs.NumberScan.{IsPlain};

/// Whether the text has no plus sign, no zero before other digits and no minus sign before a zero.
fn is_plain(text: &[u8]) -> bool
    ensures { IsTrue result ↔ IsPlain text.now }
{
    !matches!(text, [b'+', ..] | [b'0', _, ..] | [b'-', b'0', ..])
}

/// The number of 32 bits that the text spells, without a plus sign and without leading zeros. `None` for any other text.
pub fn read_number(text: &[u8]) -> Option<i32>
    ensures { MatchOption result ((number : ℤ) → IsNumber text.now number → ⊥) (λ number. IsNumber text.now number) }
{
    // `parse` takes a plus sign, leading zeros and `-0` too.
    if !is_plain(text) {
        return None;
    }
    match std::str::from_utf8(text) {
        Ok(text) => text.parse().ok(),
        Err(_) => None,
    }
}

#[cfg(test)]
mod tests {
    use super::*;

    fn read(text: &str) -> Option<i32> {
        read_number(text.as_bytes())
    }

    #[test]
    fn numbers_are_read(rt: HostRuntime) {
        for (text, number) in [
            ("0", 0),
            ("7", 7),
            ("-1", -1),
            ("1000000000", 1_000_000_000),
            ("2147483647", i32::MAX),
            ("-2147483648", i32::MIN),
        ] {
            assert_eq!(rt; read(text), Some(number), "{text}");
        }
    }

    #[test]
    fn other_texts_are_none(rt: HostRuntime) {
        for text in [
            "",
            "-",
            "+",
            "00",
            "01",
            "-0",
            "-01",
            "+1",
            "--1",
            "-+1",
            "1-",
            "1a",
            "a",
            " 1",
            "1 ",
            "1_000",
            "0x1",
            "2147483648",
            "-2147483649",
            "-99999999999999999999999999999999",
        ] {
            assert!(rt; read(text).is_none(), "{text}");
        }
        assert!(rt; read_number(&[0x31, 0xff]).is_none());
    }
}
