//! The nodes of a graph by their spellings.
ghost use Rattle.std.specs.Prelude.{◌≡◌, ℕ, List as Items, length, Some, if◌then◌else◌, IfOk, OnOk};
ghost use Rattle.chain_report.specs.NodeTexts.{has_spelling, is_spelling, number_by, AreTextsOf};

use crate::nodes::push_node;
use dep_nodes::{DependenceGraph, NodeKind, NodeName};
use indexmap::IndexMap;
use jo_ids::{Id, Memory};
use jo_prog::program::Program;
use std::alloc::{AllocError, Global};

/// The numbers of a graph's nodes by their spellings: of two with one spelling the first.
#[derive(Drop)]
pub(crate) struct NodeTexts {
    numbers: IndexMap<Vec<u8>, u32>,
}

/// Whether such a node has a spelling.
fn has_spelling(kind: NodeKind) -> bool
    ensures { result ≡ has_spelling kind }
{
    !matches!(kind, NodeKind::Exit)
}

/// Puts a node in the place of one with its spelling.
fn put_text(
    alloc: Global,
    texts: &mut NodeTexts,
    program: &Program,
    name: &NodeName,
    number: u32,
) -> Result<(), Memory>
    ensures { OnOk result ((text : Items ℕ) → number_by texts.new text ≡
        (if is_spelling program.now name.now text then Some number else number_by texts.old text)) }
{
    if !has_spelling(name.kind) {
        return Ok(());
    }
    let mut key = Vec::new(alloc);
    push_node(alloc, &mut key, program, name)?;
    match texts.numbers.insert(key, number) {
        Ok(_) => return Ok(()),
        Err(_) => return Err(AllocError),
    }
}

/// The spellings of a graph's nodes. The last nodes come first, so that of two the first stays.
pub(crate) fn node_texts(
    alloc: Global,
    program: &Program,
    graph: &DependenceGraph,
) -> Result<NodeTexts, Memory>
    ensures { IfOk result (λ texts. AreTextsOf program.now graph.now texts) }
{
    let mut texts = NodeTexts {
        numbers: IndexMap::new(alloc),
    };
    let mut left = graph.len();
    while left > 0 {
        left -= 1;
        put_text(alloc, &mut texts, program, graph.node(Id::of(left)), left)?;
    }
    Ok(texts)
}

/// The number of the node with that spelling.
pub(crate) fn node_with(texts: &NodeTexts, text: &[u8]) -> Option<u32>
    ensures { result ≡ number_by texts.now text.now }
{
    texts.numbers.get(text).copied()
}
