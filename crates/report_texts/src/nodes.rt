//! Nodes as reports spell them, each up to the end of its line.
ghost use Rattle.std.specs.Prelude.{◌≡◌};
ghost use Rattle.report_texts.specs.Reading.{Leaves, begins_with as has_first, raised, before as stands_before, is_constant as names_constant, behind_site_name, site, last_site, behind_site, behind_bracket, context, numbers_line, kind_line, node_line, level_line};

use crate::names::{after_name, after_some_name};
use crate::numbers::after_number;
use crate::words::{Numbers, after_one_of, after_word, kinds};

fn begins_with(byte: u8, text: &[u8]) -> bool
    ensures { result ≡ has_first byte text.now }
{
    match text {
        [first, ..] => *first == byte,
        [] => false,
    }
}

/// What follows the class that is raised at a pc, where there is one.
#[tactic(auto, unfolding(crate::specs::Reading::raised))]
fn after_raised(text: &[u8]) -> Result<&[u8], &[u8]>
    ensures { Leaves result (raised text.now) }
{
    if begins_with(b'!', text) {
        let class = after_word(b"!", text)?;
        after_some_name(class)
    } else {
        Ok(text)
    }
}

/// What stands before the rest of a text.
fn before<'a>(rest: &[u8], text: &'a [u8]) -> &'a [u8]
    ensures { result.now ≡ stands_before rest.now text.now }
{
    &text[..text.len().saturating_sub(rest.len())]
}

/// Whether the site is one of those that stand in no method.
fn is_constant(site: &[u8]) -> bool
    ensures { result ≡ names_constant site.now }
{
    site == b"string".as_slice() || site == b"args".as_slice()
}

#[tactic(auto, unfolding(crate::specs::Reading::behind_site_name))]
fn after_site_name<'a>(text: &'a [u8], rest: &'a [u8]) -> Result<&'a [u8], &'a [u8]>
    ensures { Leaves result (behind_site_name text.now rest.now) }
{
    if is_constant(before(rest, text)) && !begins_with(b'@', rest) {
        return Ok(rest);
    }
    let pc = after_word(b"@", rest)?;
    let rest = after_number(pc)?;
    after_raised(rest)
}

#[tactic(auto, unfolding(crate::specs::Reading::site))]
fn after_site(text: &[u8]) -> Result<&[u8], &[u8]>
    ensures { Leaves result (site text.now) }
{
    let rest = after_some_name(text)?;
    after_site_name(text, rest)
}

/// What follows the second site of a context, with the signs around it.
#[tactic(auto, unfolding(crate::specs::Reading::last_site))]
fn after_last_site(text: &[u8]) -> Result<&[u8], &[u8]>
    ensures { Leaves result (last_site text.now) }
{
    let second = after_word(b",", text)?;
    let rest = after_site(second)?;
    after_word(b"]", rest)
}

#[tactic(auto, unfolding(crate::specs::Reading::behind_site))]
fn after_sites(text: &[u8]) -> Result<&[u8], &[u8]>
    ensures { Leaves result (behind_site text.now) }
{
    if begins_with(b',', text) {
        after_last_site(text)
    } else {
        after_word(b"]", text)
    }
}

#[tactic(auto, unfolding(crate::specs::Reading::behind_bracket))]
fn after_bracket(text: &[u8]) -> Result<&[u8], &[u8]>
    ensures { Leaves result (behind_bracket text.now) }
{
    if begins_with(b']', text) {
        return after_word(b"]", text);
    }
    let rest = after_site(text)?;
    after_sites(rest)
}

#[tactic(auto, unfolding(crate::specs::Reading::context))]
fn after_context(text: &[u8]) -> Result<&[u8], &[u8]>
    ensures { Leaves result (context text.now) }
{
    let rest = after_word(b"[", text)?;
    after_bracket(rest)
}

#[tactic(auto, unfolding(crate::specs::Reading::numbers_line))]
fn after_numbers(numbers: Numbers, text: &[u8]) -> Result<&[u8], &[u8]>
    ensures { Leaves result (numbers_line numbers text.now) }
{
    match numbers {
        Numbers::Zero => Ok(text),
        Numbers::One => {
            let rest = after_number(text)?;
            after_word(b"\n", rest)
        }
        Numbers::Two => {
            let rest = after_number(text)?;
            let second = after_word(b" ", rest)?;
            let rest = after_number(second)?;
            after_word(b"\n", rest)
        }
    }
}

#[tactic(auto, unfolding(crate::specs::Reading::kind_line))]
fn after_kind(text: &[u8]) -> Result<&[u8], &[u8]>
    ensures { Leaves result (kind_line text.now) }
{
    let (numbers, rest) = after_one_of(kinds(), text)?;
    after_numbers(numbers, rest)
}

/// What follows the node that begins the text, and a line feed. `Err` has what is left where the text breaks off.
#[tactic(auto, unfolding(crate::specs::Reading::node_line))]
pub fn after_node(text: &[u8]) -> Result<&[u8], &[u8]>
    ensures { Leaves result (node_line text.now) }
{
    let rest = after_some_name(text)?;
    let context = after_word(b" ", rest)?;
    let rest = after_context(context)?;
    let kind = after_word(b" ", rest)?;
    after_kind(kind)
}

/// What follows the level that begins the text, and a line feed. `Err` has what is left where the text breaks off.
#[tactic(auto, unfolding(crate::specs::Reading::level_line))]
pub fn after_level(text: &[u8]) -> Result<&[u8], &[u8]>
    ensures { Leaves result (level_line text.now) }
{
    let rest = after_name(text)?;
    after_word(b"\n", rest)
}
