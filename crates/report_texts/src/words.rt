//! The fixed words of reports, and which of them may come.
ghost use Rattle.std.specs.Prelude.{◌≡◌, map};
ghost use Rattle.report_texts.specs.Reading.{Leaves, LeavesRow, word as behind_word, among, closed_kinds, rows_of as rows_for, shorter as shorter_of};
ghost use Rattle.report_texts.specs.Reports.{behind as behind_head, behind_refusal as after_refusal, behind_observer as after_observer, behind_nodes as after_nodes, behind_first_step as after_first_step, behind_last_step as after_last_step};

use crate::lines::ReportKind;
use dep_nodes::{EdgeKind, Word};

/// How many numbers follow the word of a node's kind.
#[derive(Clone, Copy)]
pub enum Numbers {
    Zero,
    One,
    Two,
}

/// What a line begins with.
#[derive(Clone, Copy)]
pub enum Head {
    Title,
    Refused(ReportKind),
    Observer,
    Fork,
    In,
    After,
    From,
    Step(Word),
    End,
}

/// What the lines so far ask of the next one.
#[derive(Clone, Copy)]
pub enum Awaited {
    Title,
    Refused,
    Observer(ReportKind),
    Fork(ReportKind),
    In(ReportKind),
    After(ReportKind),
    /// The first of two chains.
    FirstChain,
    FirstSteps,
    LastChain,
    LastSteps,
    End,
    Nothing,
}

/// A word, and what it stands for.
pub struct Row<T> {
    word: &'static [u8],
    given: T,
}

/// What follows the word, which begins the text. `Err` has what is left where the text breaks off the word.
#[tactic(auto, unfolding(crate::specs::Reading::word))]
pub fn after_word<'a>(word: &[u8], text: &'a [u8]) -> Result<&'a [u8], &'a [u8]>
    ensures { Leaves result (behind_word word.now text.now) }
{
    let mut awaited = word;
    let mut rest = text;
    while let [byte, others @ ..] = awaited {
        match rest {
            [first, after @ ..] if first == byte => {
                awaited = others;
                rest = after;
            }
            _ => return Err(rest),
        }
    }
    Ok(rest)
}

fn shorter<'a>(one: &'a [u8], other: &'a [u8]) -> &'a [u8]
    ensures { result.now ≡ shorter_of one.now other.now }
{
    if other.len() < one.len() { other } else { one }
}

/// The row whose word begins the text, and what follows. `Err` has what is left where the text breaks off each word.
#[tactic(auto, unfolding(crate::specs::Reading::among))]
pub fn after_one_of<'a, T: Copy>(rows: &[Row<T>], text: &'a [u8]) -> Result<(T, &'a [u8]), &'a [u8]>
    ensures { LeavesRow result (among text.now (map (λ row. (row.word.now, row.given)) rows.now) text.now) }
{
    let mut stop = text;
    for row in rows {
        match after_word(row.word, text) {
            Ok(rest) => return Ok((row.given, rest)),
            Err(left) => stop = shorter(stop, left),
        }
    }
    Err(stop)
}

#[rattlefmt::skip]
static KINDS: [Row<Numbers>; 14] = [
    Row { word: b"entry\n", given: Numbers::Zero },
    Row { word: b"instr ", given: Numbers::One },
    Row { word: b"call ", given: Numbers::One },
    Row { word: b"arg ", given: Numbers::Two },
    Row { word: b"retkind ", given: Numbers::One },
    Row { word: b"retval ", given: Numbers::One },
    Row { word: b"throw ", given: Numbers::One },
    Row { word: b"catch ", given: Numbers::One },
    Row { word: b"poll ", given: Numbers::Two },
    Row { word: b"xpoll ", given: Numbers::Two },
    Row { word: b"param ", given: Numbers::One },
    Row { word: b"kind\n", given: Numbers::Zero },
    Row { word: b"value\n", given: Numbers::Zero },
    Row { word: b"thrown\n", given: Numbers::Zero },
];

static TITLE: [Row<Head>; 1] = [Row {
    word: b"joana report 1\n",
    given: Head::Title,
}];

#[rattlefmt::skip]
static REFUSALS: [Row<Head>; 3] = [
    Row { word: b"refused chain\n", given: Head::Refused(ReportKind::Chain) },
    Row { word: b"refused conflict order\n", given: Head::Refused(ReportKind::Order) },
    Row { word: b"refused conflict data\n", given: Head::Refused(ReportKind::Data) },
];

static OBSERVER: [Row<Head>; 1] = [Row {
    word: b"observer ",
    given: Head::Observer,
}];

static FORK: [Row<Head>; 1] = [Row {
    word: b"fork ",
    given: Head::Fork,
}];

static IN: [Row<Head>; 1] = [Row {
    word: b"in ",
    given: Head::In,
}];

static AFTER: [Row<Head>; 1] = [Row {
    word: b"after ",
    given: Head::After,
}];

static FROM: [Row<Head>; 1] = [Row {
    word: b"from ",
    given: Head::From,
}];

#[rattlefmt::skip]
static FIRST_STEPS: [Row<Head>; 10] = [
    Row { word: b"data ", given: Head::Step(Word::Edge(EdgeKind::Data)) },
    Row { word: b"control ", given: Head::Step(Word::Edge(EdgeKind::Control)) },
    Row { word: b"out ", given: Head::Step(Word::Edge(EdgeKind::Out)) },
    Row { word: b"arg ", given: Head::Step(Word::Edge(EdgeKind::Arg)) },
    Row { word: b"call ", given: Head::Step(Word::Edge(EdgeKind::Call)) },
    Row { word: b"ret ", given: Head::Step(Word::Edge(EdgeKind::Ret)) },
    Row { word: b"heap ", given: Head::Step(Word::Edge(EdgeKind::Heap)) },
    Row { word: b"fork ", given: Head::Step(Word::Edge(EdgeKind::Fork)) },
    Row { word: b"pass ", given: Head::Step(Word::Pass) },
    Row { word: b"from ", given: Head::From },
];

#[rattlefmt::skip]
static LAST_STEPS: [Row<Head>; 10] = [
    Row { word: b"data ", given: Head::Step(Word::Edge(EdgeKind::Data)) },
    Row { word: b"control ", given: Head::Step(Word::Edge(EdgeKind::Control)) },
    Row { word: b"out ", given: Head::Step(Word::Edge(EdgeKind::Out)) },
    Row { word: b"arg ", given: Head::Step(Word::Edge(EdgeKind::Arg)) },
    Row { word: b"call ", given: Head::Step(Word::Edge(EdgeKind::Call)) },
    Row { word: b"ret ", given: Head::Step(Word::Edge(EdgeKind::Ret)) },
    Row { word: b"heap ", given: Head::Step(Word::Edge(EdgeKind::Heap)) },
    Row { word: b"fork ", given: Head::Step(Word::Edge(EdgeKind::Fork)) },
    Row { word: b"pass ", given: Head::Step(Word::Pass) },
    Row { word: b"end\n", given: Head::End },
];

static END: [Row<Head>; 1] = [Row {
    word: b"end\n",
    given: Head::End,
}];

/// The words of kinds, each with the byte that follows it.
#[tactic(auto, unfolding(crate::specs::Reading::closed_kinds))]
pub fn kinds() -> &'static [Row<Numbers>]
    ensures { map (λ row. (row.word.now, row.given)) result.now ≡ closed_kinds }
{
    &KINDS
}

/// How the next line may begin.
#[tactic(auto, unfolding(crate::specs::Reading::rows_of))]
pub fn rows_of(awaited: Awaited) -> &'static [Row<Head>]
    ensures { map (λ row. (row.word.now, row.given)) result.now ≡ rows_for awaited }
{
    match awaited {
        Awaited::Title => &TITLE,
        Awaited::Refused => &REFUSALS,
        Awaited::Observer(_) => &OBSERVER,
        Awaited::Fork(_) => &FORK,
        Awaited::In(_) => &IN,
        Awaited::After(_) => &AFTER,
        Awaited::FirstChain | Awaited::LastChain => &FROM,
        Awaited::FirstSteps => &FIRST_STEPS,
        Awaited::LastSteps => &LAST_STEPS,
        Awaited::End => &END,
        Awaited::Nothing => &[],
    }
}

fn behind_refusal(head: Head) -> Awaited
    ensures { result ≡ after_refusal head }
{
    match head {
        Head::Refused(kind) => Awaited::Observer(kind),
        _ => Awaited::Nothing,
    }
}

fn behind_observer(kind: ReportKind) -> Awaited
    ensures { result ≡ after_observer kind }
{
    match kind {
        ReportKind::Chain => Awaited::LastChain,
        ReportKind::Order | ReportKind::Data => Awaited::Fork(kind),
    }
}

fn behind_nodes(kind: ReportKind) -> Awaited
    ensures { result ≡ after_nodes kind }
{
    match kind {
        ReportKind::Data => Awaited::FirstChain,
        ReportKind::Chain | ReportKind::Order => Awaited::End,
    }
}

fn behind_first_step(head: Head) -> Awaited
    ensures { result ≡ after_first_step head }
{
    match head {
        Head::From => Awaited::LastSteps,
        _ => Awaited::FirstSteps,
    }
}

fn behind_last_step(head: Head) -> Awaited
    ensures { result ≡ after_last_step head }
{
    match head {
        Head::End => Awaited::Nothing,
        _ => Awaited::LastSteps,
    }
}

/// What is awaited behind a line.
pub fn behind(awaited: Awaited, head: Head) -> Awaited
    ensures { result ≡ behind_head awaited head }
{
    match awaited {
        Awaited::Title => Awaited::Refused,
        Awaited::Refused => behind_refusal(head),
        Awaited::Observer(kind) => behind_observer(kind),
        Awaited::Fork(kind) => Awaited::In(kind),
        Awaited::In(kind) => Awaited::After(kind),
        Awaited::After(kind) => behind_nodes(kind),
        Awaited::FirstChain => Awaited::FirstSteps,
        Awaited::FirstSteps => behind_first_step(head),
        Awaited::LastChain => Awaited::LastSteps,
        Awaited::LastSteps => behind_last_step(head),
        Awaited::End | Awaited::Nothing => Awaited::Nothing,
    }
}
