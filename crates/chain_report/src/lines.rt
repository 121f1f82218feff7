//! Lines of reports.
ghost use Rattle.std.specs.Prelude.{◌≡◌, ◌++◌, Some, OnOk};
ghost use Rattle.dep_nodes.specs.Nodes.{node_named};
ghost use Rattle.chain_report.specs.Report.{heading, level_name, node_end, spelled_edge, spelled_word};

use crate::nodes::push_node;
use dep_nodes::{EdgeKind, NodeName, Word};
use jo_ids::LevelId;
use jo_prog::labels::Labels;
use jo_prog::program::Program;
use jo_text::push_escaped;
use std::alloc::{AllocError as Memory, Global};

fn push_edge(out: &mut Vec<u8>, kind: EdgeKind) -> Result<(), Memory>
    ensures { OnOk result (out.new.items ≡ out.old.items ++ spelled_edge kind) }
{
    let word: &[u8] = match kind {
        EdgeKind::Data => b"data",
        EdgeKind::Control => b"control",
        EdgeKind::Out => b"out",
        EdgeKind::Arg => b"arg",
        EdgeKind::Call => b"call",
        EdgeKind::Ret => b"ret",
        EdgeKind::Heap => b"heap",
        EdgeKind::Fork => b"fork",
    };
    out.extend_from_slice(word)
}

pub(crate) fn push_word(out: &mut Vec<u8>, word: Word) -> Result<(), Memory>
    ensures { OnOk result (out.new.items ≡ out.old.items ++ spelled_word word) }
{
    match word {
        Word::Edge(kind) => push_edge(out, kind),
        Word::Pass => out.extend_from_slice(b"pass"),
    }
}

pub(crate) fn push_level(out: &mut Vec<u8>, labels: &Labels, level: LevelId) -> Result<(), Memory>
    ensures { OnOk result (out.new.items ≡ out.old.items ++ level_name labels.now level) }
{
    match labels.levels.as_slice().get(level.number() as usize) {
        Some(name) => push_escaped(out, name.as_slice()),
        None => Ok(()),
    }
}

/// Adds the first lines of a report: what is refused, and for which observer.
pub(crate) fn push_heading(
    out: &mut Vec<u8>,
    refused: &[u8],
    labels: &Labels,
    observer: LevelId,
) -> Result<(), Memory>
    ensures { OnOk result (out.new.items ≡ out.old.items ++ heading refused.now labels.now observer) }
{
    out.extend_from_slice(b"joana report 1\nrefused ")?;
    out.extend_from_slice(refused)?;
    out.extend_from_slice(b"\nobserver ")?;
    push_level(out, labels, observer)?;
    out.push(b'\n')?;
    Ok(())
}

/// Adds a line: a space and the node behind what the line begins with.
pub(crate) fn push_node_end(
    alloc: Global,
    out: &mut Vec<u8>,
    program: &Program,
    name: &NodeName,
) -> Result<(), Memory>
    ensures { OnOk result (out.new.items ≡ out.old.items ++ node_end program.now (node_named name.now)) }
{
    out.push(b' ')?;
    push_node(alloc, out, program, name)?;
    out.push(b'\n')?;
    Ok(())
}
