//! Pairs of nodes whose order may show.

use jo_ids::NodeId;

/// Two nodes that conflict at a fork: the one runs in what the fork starts, the other behind the fork.
#[derive(Clone, Copy)]
pub struct Conflict {
    /// Whether it is an order conflict; else it is a data conflict.
    pub order: bool,
    pub fork: NodeId,
    pub inside: NodeId,
    pub after: NodeId,
}
