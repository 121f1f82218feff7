//! Numbers as reports spell them.
ghost use Rattle.std.specs.Prelude.{◌≡◌};
ghost use Rattle.report_texts.specs.Reading.{Leaves, digits, number};

#[tactic(auto, unfolding(crate::specs::Reading::digits))]
fn after_digits(text: &[u8]) -> &[u8]
    ensures { result.now ≡ digits text.now }
{
    let mut rest = text;
    while let [b'0'..=b'9', after @ ..] = rest {
        rest = after;
    }
    rest
}

/// What follows the longest number that begins the text. `Err` has the text where no number begins it.
#[tactic(auto, unfolding(crate::specs::Reading::number))]
pub fn after_number(text: &[u8]) -> Result<&[u8], &[u8]>
    ensures { Leaves result (number text.now) }
{
    match text {
        [b'0', rest @ ..] => Ok(rest),
        [b'1'..=b'9', rest @ ..] => Ok(after_digits(rest)),
        _ => Err(text),
    }
}
