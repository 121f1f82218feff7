//! Reading reports.
ghost use Rattle.std.specs.Prelude.{◌≡◌, ◌<◌, ◌^◌, length, IfOk, IfErr, OnOk};
ghost use Rattle.report_texts.specs.Reading.{Leaves, LeavesLine, tail, scan, shown as shown_in, line_of as line_with, ends, IsRead};
ghost use Rattle.report_texts.specs.Reports.{IsReport, IsFault};

use crate::lines::{ReportLine, ReportText};
use crate::nodes::{after_level, after_node};
use crate::words::{Awaited, Head, after_one_of, behind, rows_of};
use jo_text::{Memory, Name};
use std::alloc::Global;

/// Why a text wasn't read.
#[derive(Debug, Drop)]
pub enum ReadFault {
    /// The place of the first byte that no report continues, or the length where the text only stops too early.
    Text(u32),
    Memory,
}

/// A line as it stands in a text.
#[derive(Clone, Copy)]
struct Scanned<'a> {
    head: Head,
    /// What stands behind the head, up to the text's end.
    tail: &'a [u8],
    rest: &'a [u8],
}

/// What a text says, or what is left where it stops being a report.
#[derive(Drop)]
enum Reading<'a> {
    Whole(ReportText),
    Stops(&'a [u8]),
}

#[tactic(auto, unfolding(crate::specs::Reading::tail))]
fn after_tail(head: Head, text: &[u8]) -> Result<&[u8], &[u8]>
    ensures { Leaves result (tail head text.now) }
{
    match head {
        Head::Title | Head::Refused(_) | Head::End => Ok(text),
        Head::Observer => after_level(text),
        Head::Fork | Head::In | Head::After | Head::From | Head::Step(_) => after_node(text),
    }
}

/// The line that begins the text. `Err` has what is left where the text breaks it off.
#[tactic(auto, unfolding(crate::specs::Reading::scan))]
fn scan_line(awaited: Awaited, text: &[u8]) -> Result<Scanned<'_>, &[u8]>
    ensures { LeavesLine result (scan awaited text.now) }
{
    let (head, tail) = after_one_of(rows_of(awaited), text)?;
    let rest = after_tail(head, tail)?;
    Ok(Scanned { head, tail, rest })
}

/// The level or the node that a tail shows, up to its line feed.
fn shown<'a>(tail: &'a [u8], rest: &[u8]) -> &'a [u8]
    ensures { result.now ≡ shown_in tail.now rest.now }
{
    let end = tail.len().saturating_sub(rest.len()).saturating_sub(1);
    &tail[..end]
}

fn line_of(alloc: Global, head: Head, text: &[u8]) -> Result<ReportLine, Memory>
    ensures { IfOk result (λ line. line ≡ line_with head text.now) }
{
    let mut name = Name::new(alloc);
    name.append(text)?;
    Ok(match head {
        Head::Title => ReportLine::Title,
        Head::Refused(kind) => ReportLine::Refused(kind),
        Head::Observer => ReportLine::Observer(name),
        Head::Fork => ReportLine::Fork(name),
        Head::In => ReportLine::In(name),
        Head::After => ReportLine::After(name),
        Head::From => ReportLine::From(name),
        Head::Step(word) => ReportLine::Step(word, name),
        Head::End => ReportLine::End,
    })
}

fn is_last(awaited: Awaited) -> bool
    ensures { result ≡ ends awaited }
{
    matches!(awaited, Awaited::Nothing)
}

fn read_lines(alloc: Global, text: &[u8]) -> Result<Reading<'_>, Memory>
    ensures { IfOk result (λ reading. IsRead text.now reading) }
{
    let mut lines = Vec::new(alloc);
    let mut awaited = Awaited::Title;
    let mut rest = text;
    while !is_last(awaited) {
        let line = match scan_line(awaited, rest) {
            Ok(line) => line,
            Err(stop) => return Ok(Reading::Stops(stop)),
        };
        lines.push(line_of(alloc, line.head, shown(line.tail, line.rest))?)?;
        awaited = behind(awaited, line.head);
        rest = line.rest;
    }
    if rest.is_empty() {
        Ok(Reading::Whole(ReportText::from(lines)))
    } else {
        Ok(Reading::Stops(rest))
    }
}

/// The report that the text is. `Err` with a place says where the text stops being one.
pub fn read_report(alloc: Global, text: &[u8]) -> Result<ReportText, ReadFault>
    requires { length text.now < 2 ^ 32 }
    ensures report { IfOk result (λ lines. IsReport lines text.now) }
    ensures fault { IfErr result (λ fault. IsFault text.now fault) }
{
    match read_lines(alloc, text) {
        Ok(Reading::Whole(report)) => Ok(report),
        Ok(Reading::Stops(rest)) => Err(ReadFault::Text((text.len() - rest.len()) as u32)),
        Err(_) => Err(ReadFault::Memory),
    }
}
