//! The phase in which an edge is gone back.
ghost use Rattle.std.specs.Prelude.{◌≡◌};
ghost use Rattle.dep_nodes.specs.Nodes.{node_named};
ghost use Rattle.dep_nodes.specs.Chains.{goes_in as is_beginning, comes_out as is_outcome};
ghost use Rattle.slicer.specs.Phases.{before_call as phase_before_call, before_return as phase_before_return, phase_before as phase_behind};

use crate::finds::Phase;
use dep_nodes::{EdgeKind, NodeKind, NodeName};

/// Whether values go into a call at such a node.
fn goes_in(kind: NodeKind) -> bool
    ensures { result ≡ is_beginning kind }
{
    matches!(kind, NodeKind::Arg(..) | NodeKind::Call(_))
}

/// Whether a call comes out at such a node.
fn comes_out(kind: NodeKind) -> bool
    ensures { result ≡ is_outcome kind }
{
    matches!(
        kind,
        NodeKind::RetVal(_) | NodeKind::RetKind(_) | NodeKind::Throw(_)
    )
}

/// The phase before the begin of a call, at a node where values go into one or not.
fn before_call(goes_in: bool, phase: Phase) -> Option<Phase>
    ensures { result ≡ phase_before_call goes_in phase }
{
    match (goes_in, phase) {
        (true, Phase::First) => Some(Phase::First),
        (true, Phase::Second) => None,
        (false, _) => None,
    }
}

/// The phase before a return, to a node where a call comes out or not.
fn before_return(comes_out: bool) -> Option<Phase>
    ensures { result ≡ phase_before_return comes_out }
{
    if comes_out { Some(Phase::Second) } else { None }
}

/// The phase at the beginning of an edge, where that at its end is given; none where the edge is not gone back.
pub fn phase_before(kind: EdgeKind, from: &NodeName, to: &NodeName, phase: Phase) -> Option<Phase>
    ensures { result ≡ phase_behind kind (node_named from.now) (node_named to.now) phase }
{
    match kind {
        EdgeKind::Data | EdgeKind::Control | EdgeKind::Out => Some(phase),
        EdgeKind::Arg | EdgeKind::Call => before_call(goes_in(from.kind), phase),
        EdgeKind::Ret => before_return(comes_out(to.kind)),
        EdgeKind::Heap | EdgeKind::Fork => Some(Phase::First),
    }
}
