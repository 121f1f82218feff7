//! A policy as its file says it, with names in the place of numbers.
use jo_ids::List;
use jo_text::Name;

/// How many call sites tell instances of a method apart.
#[derive(Clone, Copy, PartialEq, Eq)]
pub enum ContextsKey {
    NoContext,
    Object1,
    Object2,
}

/// What a table of the policy says of a method, by names of levels.
#[derive(Drop)]
pub enum NamedLabel {
    Source(Name),
    Sink(Name),
    Release { from: Name, to: Name },
}

/// The tables that give a method one level.
#[derive(Clone, Copy)]
pub enum LabelTable {
    Sources,
    Sinks,
}

/// A method's spelling, and its label.
#[derive(Drop)]
pub struct WrittenLabel {
    pub method: Name,
    pub label: NamedLabel,
}

/// `observers` is none where the file doesn't name them. `labels` has the sources first, then the sinks, then the releases,
/// in each table in the order of keys as bytes.
#[derive(Drop)]
pub struct WrittenPolicy {
    pub levels: List<Name>,
    pub flows: List<(Name, Name)>,
    pub observers: Option<List<Name>>,
    pub contexts: ContextsKey,
    pub entry: Name,
    pub labels: List<WrittenLabel>,
}
