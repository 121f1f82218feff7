//! The lines of a text with their numbers.
ghost use Rattle.std.specs.Prelude.{◌≡◌, ◌<◌, ◌^◌, length, IfOk};
ghost use Rattle.asm_text.specs.Lines.{lines_of};
ghost use Rattle.asm_text.specs.Numbered.{numbered};

use crate::lines::next_line;
use crate::reading::read_line;
use crate::statements::Statement;
use crate::stops::Stop;
use jo_ids::Memory;
use std::alloc::{AllocError, Global};

/// A line that says something, or is outside the grammar. The first of a text has the number 1.
#[derive(Drop)]
pub struct NumberedLine {
    pub number: usize,
    pub said: Option<Statement>,
}

/// The lines of a text that aren't empty, and how many it has in all.
#[derive(Drop)]
pub struct TextLines {
    pub lines: Vec<NumberedLine>,
    pub count: usize,
}

/// The lines of a text.
#[tactic(auto, using(crate::proofs::Behind::line_outside, crate::proofs::Behind::line_empty, crate::proofs::Behind::line_said, crate::proofs::Behind::fewer, crate::proofs::Behind::no_more, crate::proofs::Behind::few_lines))]
pub fn read_lines(alloc: Global, text: &[u8]) -> Result<TextLines, Memory>
    ensures lines { IfOk result (λ r. r.lines.items ≡ numbered 1 (lines_of text.now)) }
    ensures count { IfOk result (λ r. r.count ≡ length (lines_of text.now)) }
    ensures small { IfOk result (λ r. r.count < 2 ^ 63) }
{
    let mut lines = Vec::new(alloc);
    let mut count = 0;
    let mut rest = text;
    while let Some((line, after)) = next_line(rest) {
        count += 1;
        match read_line(alloc, line) {
            Ok(None) => {}
            Ok(Some(statement)) => lines.push(NumberedLine {
                number: count,
                said: Some(statement),
            })?,
            Err(Stop::Outside) => lines.push(NumberedLine {
                number: count,
                said: None,
            })?,
            Err(Stop::Memory) => return Err(AllocError),
        }
        rest = after;
    }
    Ok(TextLines { lines, count })
}
