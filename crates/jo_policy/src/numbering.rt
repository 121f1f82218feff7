//! Numbers of levels in the place of their names.
ghost use Rattle.std.specs.Prelude.{◌≡◌, ◌<◌, ◌^◌, length, IfOk};
ghost use Rattle.jo_prog.specs.Numbers.{count_from};
ghost use Rattle.policy_tree.specs.Outcomes.{Gives};
ghost use Rattle.jo_policy.specs.Numbering.{place_from, level_named as level_by, pairs_numbered, levels_numbered, observers_numbered, label_numbered, labels_numbered, numbered_of};

use jo_ids::{Id, LevelId, List, Memory};
use jo_prog::labels::Label;
use jo_prog::lists::add;
use jo_text::Name;
use policy_tree::{NamedLabel, PolicyFault, WrittenLabel, WrittenPolicy};
use std::alloc::Global;

/// A method's spelling, and its label.
#[derive(Drop)]
pub struct NumberedLabel {
    pub method: Name,
    pub label: Label,
}

/// What a policy says by numbers of levels.
#[derive(Drop)]
pub struct NumberedPolicy {
    pub flows: List<(u32, u32)>,
    pub observers: List<LevelId>,
    pub labels: List<NumberedLabel>,
}

pub(crate) fn copy_name(alloc: Global, text: &[u8]) -> Result<Name, Memory>
    ensures { IfOk result (λ name. name ≡ text.now) }
{
    let mut name = Name::new(alloc);
    name.append(text)?;
    Ok(name)
}

/// The number of the first name that is this text.
fn place_of(names: &[Name], text: &[u8]) -> Option<u32>
    requires { length names.now < 2 ^ 32 }
    ensures { result ≡ place_from 0 names.now text.now }
{
    for (i, name) in names.iter().enumerate() {
        if name.as_slice() == text {
            return Some(i as u32);
        }
    }
    None
}

/// The number of the level with this name.
fn level_named(alloc: Global, levels: &[Name], name: &Name) -> Result<u32, PolicyFault>
    requires { length levels.now < 2 ^ 32 }
    ensures { Gives (λ x. x) result (level_by levels.now name.now) }
{
    match place_of(levels, name.as_slice()) {
        Some(place) => Ok(place),
        None => {
            let unknown = copy_name(alloc, name.as_slice())?;
            Err(PolicyFault::UnknownLevel(unknown))
        }
    }
}

fn number_pairs(
    alloc: Global,
    levels: &[Name],
    pairs: &[(Name, Name)],
) -> Result<List<(u32, u32)>, PolicyFault>
    requires { length levels.now < 2 ^ 32 }
    ensures { Gives (λ x. x) result (pairs_numbered levels.now pairs.now) }
{
    let mut numbered = List::new(alloc);
    for (low, high) in pairs {
        let low = level_named(alloc, levels, low)?;
        let high = level_named(alloc, levels, high)?;
        numbered.push((low, high))?;
    }
    Ok(numbered)
}

fn number_levels(
    alloc: Global,
    levels: &[Name],
    names: &[Name],
) -> Result<List<LevelId>, PolicyFault>
    requires { length levels.now < 2 ^ 32 }
    ensures { Gives (λ x. x) result (levels_numbered levels.now names.now) }
{
    let mut numbered = List::new(alloc);
    for name in names {
        let level = level_named(alloc, levels, name)?;
        numbered.push(Id::of(level))?;
    }
    Ok(numbered)
}

fn count_levels(alloc: Global, count: u32) -> Result<List<LevelId>, Memory>
    ensures { IfOk result (λ levels. levels ≡ count_from 0 count) }
{
    let mut levels = List::new(alloc);
    for level in 0..count {
        add(&mut levels, Id::of(level))?;
    }
    Ok(levels)
}

fn number_observers(
    alloc: Global,
    levels: &[Name],
    observers: &Option<List<Name>>,
) -> Result<List<LevelId>, PolicyFault>
    requires { length levels.now < 2 ^ 32 }
    ensures { Gives (λ x. x) result (observers_numbered levels.now observers.now) }
{
    match observers {
        Some(names) => number_levels(alloc, levels, names.as_slice()),
        None => {
            let all = count_levels(alloc, levels.len() as u32)?;
            Ok(all)
        }
    }
}

#[tactic(auto, unfolding(crate::specs::Numbering::label_numbered))]
fn number_label(alloc: Global, levels: &[Name], label: &NamedLabel) -> Result<Label, PolicyFault>
    requires { length levels.now < 2 ^ 32 }
    ensures { Gives (λ x. x) result (label_numbered levels.now label.now) }
{
    match label {
        NamedLabel::Source(level) => {
            let level = level_named(alloc, levels, level)?;
            Ok(Label::Source(Id::of(level)))
        }
        NamedLabel::Sink(level) => {
            let level = level_named(alloc, levels, level)?;
            Ok(Label::Sink(Id::of(level)))
        }
        NamedLabel::Release { from, to } => {
            let from = level_named(alloc, levels, from)?;
            let to = level_named(alloc, levels, to)?;
            Ok(Label::Release {
                from: Id::of(from),
                to: Id::of(to),
            })
        }
    }
}

fn number_labels(
    alloc: Global,
    levels: &[Name],
    labels: &[WrittenLabel],
) -> Result<List<NumberedLabel>, PolicyFault>
    requires { length levels.now < 2 ^ 32 }
    ensures { Gives (λ x. x) result (labels_numbered levels.now labels.now) }
{
    let mut numbered = List::new(alloc);
    for written in labels {
        let label = number_label(alloc, levels, &written.label)?;
        let method = copy_name(alloc, written.method.as_slice())?;
        numbered.push(NumberedLabel { method, label })?;
    }
    Ok(numbered)
}

/// The policy by numbers, or the first name that is no level's.
pub fn number(alloc: Global, written: &WrittenPolicy) -> Result<NumberedPolicy, PolicyFault>
    requires { length written.now.levels < 2 ^ 32 }
    ensures { Gives (λ x. x) result (numbered_of written.now) }
{
    let levels = written.levels.as_slice();
    let flows = number_pairs(alloc, levels, written.flows.as_slice())?;
    let observers = number_observers(alloc, levels, &written.observers)?;
    let labels = number_labels(alloc, levels, written.labels.as_slice())?;
    Ok(NumberedPolicy {
        flows,
        observers,
        labels,
    })
}
