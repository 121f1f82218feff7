//! The flow graphs of instances.
ghost use Rattle.std.specs.Prelude.{◌≡◌, ◌<◌, ◌++◌, ◌∷◌, [], length, slice_get, Some, OnErr, OnOk};

use dependence::flows::{Flow, Uses};
use jo_ids::{List, Memory, NodeId};
use std::alloc::Global;
use std::marker::Model;

/// The flow graph of an instance with the definitions of its uses, and the number of its first node in the dependence graph: the
/// others follow in order.
#[derive(Drop)]
pub struct InstanceFlow {
    pub flow: Flow,
    pub uses: Uses,
    pub first: NodeId,
}

/// One for each instance, by its number.
#[derive(Drop)]
pub struct FlowSet {
    flows: List<InstanceFlow>,
}

impl Model for FlowSet {
    ghost use Rattle.std.specs.Prelude.{List as Items};
    ghost use Rattle.heap_deps.specs.declared.flow_sets.InstanceFlow.{InstanceFlow};

    ghost Value = { Items InstanceFlow };

    ghost view = { λ s. s.flows };
}

impl FlowSet {
    /// None yet. It takes no memory.
    pub fn new(alloc: Global) -> FlowSet
        ensures { result ≡ [] }
    {
        FlowSet {
            flows: List::new(alloc),
        }
    }

    /// Adds that of the next instance.
    pub fn push(&mut self, flow: InstanceFlow) -> Result<(), Memory>
        ensures ok { OnOk result (self.new ≡ self.old ++ flow ∷ []) }
        ensures err { OnErr result (self.new ≡ self.old) }
    {
        match self.flows.push(flow) {
            Ok(()) => Ok(()),
            Err(_) => Err(Memory),
        }
    }

    /// That of the instance with that number.
    pub fn at(&self, n: u32) -> &InstanceFlow
        requires { n < length self.now }
        ensures { slice_get self.now n ≡ Some result.now }
    {
        &self.flows.as_slice()[n as usize]
    }
}
