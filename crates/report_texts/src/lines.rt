//! What a report says.
ghost use Rattle.std.specs.Prelude.{◌≡◌};

use dep_nodes::Word;
use jo_text::Name;
use std::marker::Model;

/// What a report was made for.
#[derive(Clone, Copy, PartialEq, Eq)]
pub enum ReportKind {
    /// An illegal chain.
    Chain,
    /// A conflict by the order of two nodes.
    Order,
    /// A conflict by the data that two nodes pass on.
    Data,
}

/// A line of a report. Levels and nodes stand as the report spells them.
#[derive(Drop)]
pub enum ReportLine {
    Title,
    Refused(ReportKind),
    Observer(Name),
    Fork(Name),
    In(Name),
    After(Name),
    From(Name),
    Step(Word, Name),
    End,
}

/// The lines of a report, in order.
#[derive(Drop)]
pub struct ReportText {
    lines: Vec<ReportLine>,
}

impl Model for ReportText {
    ghost use Rattle.std.specs.Prelude.{List as Items};
    ghost use Rattle.report_texts.specs.declared.lines.ReportLine.{ReportLine};

    ghost Value = { Items ReportLine };

    ghost view = { λ r. r.lines.items };
}

impl ReportText {
    /// The lines.
    pub fn as_slice(&self) -> &[ReportLine]
        ensures { result.now ≡ self.now }
    {
        self.lines.as_slice()
    }
}

impl From<Vec<ReportLine>> for ReportText {
    ghost from_gives = { λ lines report. report ≡ lines.items };

    fn from(lines: Vec<ReportLine>) -> ReportText {
        ReportText { lines }
    }
}
