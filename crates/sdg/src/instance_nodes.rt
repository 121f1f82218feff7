//! Nodes of instances that have numbers.
ghost use Rattle.std.specs.Prelude.{◌≡◌};
ghost use Rattle.fact_sets.specs.FactKeys.{holder_key, spread};
ghost use Rattle.fact_sets.specs.declared.numbered.Holder.TheVariants.{Node};

use dep_nodes::{Keyed, NodeKind};
use fact_sets::numbered::Holder;
use jo_ids::InstanceId;

/// A node of an instance, which stands for its number.
#[derive(Clone, Copy, PartialEq, Eq)]
pub struct InstanceNode {
    pub instance: InstanceId,
    pub kind: NodeKind,
}

impl Keyed for InstanceNode {
    ghost key = { λ node. spread (holder_key (Node node.instance node.kind)) };

    fn key(&self) -> u32 {
        Holder::Node(self.instance, self.kind).key()
    }

    fn is(&self, other: &InstanceNode) -> bool {
        *self == *other
    }
}
