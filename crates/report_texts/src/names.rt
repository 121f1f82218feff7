//! Names as reports spell them.
ghost use Rattle.std.specs.Prelude.{◌≡◌, ◌<◌, IfSome};
ghost use Rattle.jo_text.specs.Escapes.{is_escaped as must_escape};
ghost use Rattle.report_texts.specs.Reading.{Leaves, hex_value as value_of, begins_escape as can_begin, is_escape as makes_escape, turn as turn_of, name, some_name};

/// What has been read of a byte's spelling.
#[derive(Clone, Copy)]
pub enum Escape {
    Plain,
    Percent,
    /// The first digit of two.
    High(u8),
}

/// What a byte is to a name.
#[derive(Clone, Copy)]
pub enum Turn {
    GoesOn(Escape),
    /// It stands behind the name.
    Ends,
    /// No name goes on so, and none ends before it.
    Breaks,
}

fn is_escaped(byte: u8) -> bool
    ensures { result ≡ must_escape byte }
{
    byte < 0x21 || 0x7e < byte || b"%,]@!#\"".contains(&byte)
}

/// The value of a digit to the base sixteen.
fn hex_value(digit: u8) -> Option<u8>
    ensures value { result ≡ value_of digit }
    ensures small { IfSome result (λ value. value < 16) }
{
    match digit {
        b'0'..=b'9' => Some(digit - b'0'),
        b'A'..=b'F' => Some(digit - (b'A' - 10)),
        _ => None,
    }
}

/// Whether an escape may begin with the digit: some byte that needs one has it first.
fn begins_escape(digit: u8) -> bool
    ensures { result ≡ can_begin (value_of digit) }
{
    match hex_value(digit) {
        Some(high) => high < 3 || high == 4 || high == 5 || 6 < high,
        None => false,
    }
}

/// Whether the digits are those of a byte that needs an escape.
fn is_escape(high: u8, low: u8) -> bool
    ensures { result ≡ makes_escape (value_of high) (value_of low) }
{
    match hex_value(high) {
        Some(high) => match hex_value(low) {
            Some(low) => is_escaped(high * 16 + low),
            None => false,
        },
        None => false,
    }
}

fn turn_at(escape: Escape, byte: u8) -> Turn
    ensures { result ≡ turn_of escape byte }
{
    match escape {
        Escape::Plain if byte == b'%' => Turn::GoesOn(Escape::Percent),
        Escape::Plain if is_escaped(byte) => Turn::Ends,
        Escape::Plain => Turn::GoesOn(Escape::Plain),
        Escape::Percent if begins_escape(byte) => Turn::GoesOn(Escape::High(byte)),
        Escape::High(high) if is_escape(high, byte) => Turn::GoesOn(Escape::Plain),
        Escape::Percent | Escape::High(_) => Turn::Breaks,
    }
}

/// What follows the longest name that begins the text, which may be empty. `Err` has what is left at the first byte that
/// no name's spelling continues.
#[tactic(auto, unfolding(crate::specs::Reading::name_from))]
pub fn after_name(text: &[u8]) -> Result<&[u8], &[u8]>
    ensures { Leaves result (name text.now) }
{
    let mut escape = Escape::Plain;
    let mut rest = text;
    while let [byte, after @ ..] = rest {
        match turn_at(escape, *byte) {
            Turn::GoesOn(next) => {
                escape = next;
                rest = after;
            }
            Turn::Ends => return Ok(rest),
            Turn::Breaks => return Err(rest),
        }
    }
    match escape {
        Escape::Plain => Ok(rest),
        _ => Err(rest),
    }
}

/// The same, where the name has at least one byte.
pub fn after_some_name(text: &[u8]) -> Result<&[u8], &[u8]>
    ensures { Leaves result (some_name text.now) }
{
    let rest = after_name(text)?;
    if rest.len() == text.len() {
        Err(text)
    } else {
        Ok(rest)
    }
}
