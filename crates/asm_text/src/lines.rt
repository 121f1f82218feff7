//! The lines of a text, and the items of a line.
ghost use Rattle.std.specs.Prelude.{◌≡◌, ◌≢◌, ◌≤◌, false, not, ◌==◌, length, option_map, slice_index};
ghost use Rattle.std.specs.List.{prefix_len};
ghost use Rattle.asm_text.specs.Lines.{lines_of, items_of, is_parting as parts_items, quoted_behind as quotes_after, ends_in_space as ends_so};
ghost use Rattle.asm_text.specs.ItemScan.{item_length as length_with, first_of};

use jo_insn::behind;

/// The first line of a text, without its end, and what follows.
#[tactic(auto, using(crate::proofs::LineSteps::next_line, crate::proofs::LineSteps::no_line))]
pub fn next_line(text: &[u8]) -> Option<(&[u8], &[u8])>
    ensures { option_map (λ r. (r.0.now, lines_of r.1.now)) result ≡ first_of (lines_of text.now) }
{
    if text.is_empty() {
        return None;
    }
    let end = line_length(text);
    Some((&text[..end], behind(text, end + 1)))
}

/// How many bytes stand before the first LF, or how many there are.
fn line_length(text: &[u8]) -> usize
    ensures value { result ≡ prefix_len (λ b. not (b == 10)) text.now }
    ensures within { result ≤ length text.now }
{
    for (place, byte) in text.iter().enumerate() {
        if *byte == b'\n' {
            return place;
        }
    }
    text.len()
}

/// The first item of a line, and what follows.
#[tactic(auto, using(crate::proofs::LineSteps::next_item, crate::proofs::LineSteps::no_item))]
pub fn next_item(line: &[u8]) -> Option<(&[u8], &[u8])>
    ensures { option_map (λ r. (r.0.now, items_of r.1.now)) result ≡ first_of (items_of line.now) }
{
    let line = behind_spaces(line);
    if line.is_empty() {
        return None;
    }
    let end = item_length(line);
    Some((&line[..end], behind(line, end + 1)))
}

/// What follows the spaces that begin a line.
#[tactic(auto, using(crate::proofs::LineSteps::space_parts))]
fn behind_spaces(line: &[u8]) -> &[u8]
    ensures items { items_of result.now ≡ items_of line.now }
    ensures other { slice_index result.now 0 ≢ 32 }
{
    let mut rest = line;
    while matches!(rest, [b' ', ..]) {
        rest = behind(rest, 1);
    }
    rest
}

fn is_parting(quoted: bool, byte: u8) -> bool
    ensures { result ≡ parts_items quoted byte }
{
    byte == b' ' && !quoted
}

fn quoted_behind(quoted: bool, byte: u8) -> bool
    ensures { result ≡ quotes_after quoted byte }
{
    if byte == b'"' { !quoted } else { quoted }
}

/// The length of the item that begins the line.
fn item_length(line: &[u8]) -> usize
    ensures value { result ≡ length_with false line.now }
    ensures within { result ≤ length line.now }
{
    let mut quoted = false;
    for (place, byte) in line.iter().enumerate() {
        if is_parting(quoted, *byte) {
            return place;
        }
        quoted = quoted_behind(quoted, *byte);
    }
    line.len()
}

/// Whether the last byte is a space.
pub fn ends_in_space(line: &[u8]) -> bool
    ensures { result ≡ ends_so line.now }
{
    matches!(line, [.., b' '])
}
