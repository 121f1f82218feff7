//! The plain part of a policy: its levels, and a label for each native method.

ghost use Rattle.std.specs.Prelude.{◌≡◌};
ghost use Rattle.jo_prog.specs.Labels.{flows, flows_by, label_of, label_among};

use jo_ids::{LevelId, List, MethodId};
use jo_text::Name;

/// What a native method is to the policy.
#[derive(Clone, Copy)]
pub enum Label {
    Source(LevelId),
    Sink(LevelId),
    Release { from: LevelId, to: LevelId },
}

/// The numbers of `flows` are places in `levels`, the first of a pair flows to the second. `labelled` is in order of
/// method numbers.
#[derive(Drop)]
pub struct Labels {
    pub levels: List<Name>,
    pub flows: List<(u32, u32)>,
    pub observers: List<LevelId>,
    pub entry: MethodId,
    pub labelled: List<(MethodId, Label)>,
}

/// Whether what is at level `a` may flow to level `b`, by the pairs of the policy.
pub fn flows(labels: &Labels, a: LevelId, b: LevelId) -> bool
    ensures { result ≡ flows labels.now a b }
{
    flows_by(labels.flows.as_slice(), a.number(), b.number())
}

fn flows_by(pairs: &[(u32, u32)], a: u32, b: u32) -> bool
    ensures { result ≡ flows_by pairs.now a b }
{
    match pairs {
        [] => a == b,
        [(low, high), rest @ ..] => {
            flows_by(rest, a, b) || (flows_by(rest, a, *low) && flows_by(rest, *high, b))
        }
    }
}

/// The label of a method, by the first item that names it.
pub fn label_of(labels: &Labels, method: MethodId) -> Option<Label>
    ensures { result ≡ label_of labels.now method }
{
    label_among(labels.labelled.as_slice(), method)
}

fn label_among(items: &[(MethodId, Label)], method: MethodId) -> Option<Label>
    ensures { result ≡ label_among items.now method }
{
    for (named, label) in items {
        if *named == method {
            return Some(*label);
        }
    }
    None
}
