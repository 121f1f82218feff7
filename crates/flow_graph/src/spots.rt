//! Nodes of a method as items of a list that holds each once.
ghost use Rattle.std.specs.Prelude.{◌≡◌};
ghost use Rattle.dep_nodes.specs.ItemKeys.{mixed_key};
ghost use Rattle.flow_graph.specs.Spots.{key_of, spot_key};

use dep_nodes::{Keyed, NodeKind};
use std::marker::Model;

/// A node, which contracts see as its kind.
#[derive(Clone, Copy, PartialEq, Eq)]
pub struct Spot {
    kind: NodeKind,
}

impl Model for Spot {
    ghost use Rattle.dep_nodes.specs.declared.kinds.NodeKind.{NodeKind};

    ghost Value = { NodeKind };

    ghost view = { λ s. s.kind };

    ghost inverse = { λ k. record { kind = k } };
}

impl Spot {
    pub(crate) fn of(kind: NodeKind) -> Spot
        ensures { result ≡ kind }
    {
        Spot { kind }
    }

    pub(crate) fn kind(self) -> NodeKind
        ensures { result ≡ self }
    {
        self.kind
    }
}

impl Keyed for Spot {
    ghost key = { spot_key };

    fn key(&self) -> u32 {
        match self.kind {
            NodeKind::Entry => key_of(0, 0, 0),
            NodeKind::Exit => key_of(1, 0, 0),
            NodeKind::Instr(pc) => key_of(2, pc, 0),
            NodeKind::Call(pc) => key_of(3, pc, 0),
            NodeKind::RetVal(pc) => key_of(4, pc, 0),
            NodeKind::RetKind(pc) => key_of(5, pc, 0),
            NodeKind::Throw(pc) => key_of(6, pc, 0),
            NodeKind::Catch(k) => key_of(7, k, 0),
            NodeKind::Poll(pc, target) => key_of(8, pc, target),
            NodeKind::XPoll(pc, k) => key_of(9, pc, k),
            NodeKind::Arg(pc, i) => key_of(10, pc, i),
            NodeKind::Param(i) => key_of(11, i, 0),
            NodeKind::Kind => key_of(12, 0, 0),
            NodeKind::Value => key_of(13, 0, 0),
            NodeKind::Thrown => key_of(14, 0, 0),
        }
    }

    fn is(&self, other: &Spot) -> bool {
        self.kind == other.kind
    }
}

fn mixed(first: u32, second: u32) -> u32
    ensures { result ≡ mixed_key first second }
{
    ((u64::from(first) * 2654435761 + u64::from(second)) % 4294967296) as u32
}

fn key_of(tag: u32, first: u32, second: u32) -> u32
    ensures { result ≡ key_of tag first second }
{
    mixed(mixed(mixed(first, second), tag), 0)
}
