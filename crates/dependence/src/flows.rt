//! Flow graphs as data: the nodes of a method in order, each with its successors and the places that it reads and writes.
ghost use Rattle.std.specs.Prelude.{◌≡◌, ◌↔◌, ◌++◌, ◌∷◌, [], ◌<◌, length, slice_get, option_map, All, Contains, Some, IfOk, IsTrue, OnErr, OnOk};
ghost use Rattle.dep_nodes.specs.OnceLists.{IsOnceEach};
ghost use Rattle.dep_nodes.specs.GrowingGraphs.{AppendsNew};
ghost use Rattle.dependence.specs.FlowData.{bare, IsFlow, AddsSuccessor, AddsRead, AddsWrite};

use crate::flow::Place;
use dep_nodes::NodeKind;
use jo_ids::{FieldId, List, Memory, MethodId};
use jo_insn::Insn;
use smallvec::SmallVec;
use std::alloc::Global;
use std::marker::Model;

/// A node: its kind, the instruction that stands there, and the field or the method that this resolves to.
#[derive(Clone, Copy)]
pub struct FlowNode {
    pub kind: NodeKind,
    pub insn: Option<Insn>,
    pub field: Option<FieldId>,
    pub method: Option<MethodId>,
}

/// Flow graphs by the numbers of their instances.
pub type FlowSet = List<Flow>;

/// A use of a place at a node, with a definition that reaches it.
#[derive(Clone, Copy, PartialEq, Eq)]
pub struct Use {
    pub node: u32,
    pub place: Place,
    pub from: u32,
}

/// The uses of a flow graph with their definitions.
pub type Uses = List<Use>;

/// Pairs of nodes, the first of which controls the second.
pub type Controls = List<(u32, u32)>;

/// A set of places, which contracts see as the list of them in order of adding. Few places need no memory of their own.
#[derive(Drop)]
pub struct Places {
    places: SmallVec<Place, 4>,
}

impl Model for Places {
    ghost use Rattle.std.specs.Prelude.{List as Items};
    ghost use Rattle.dep_nodes.specs.OnceLists.{IsOnceEach};
    ghost use Rattle.dependence.specs.declared.flow.Place.{Place};

    ghost Value = { Items Place };

    ghost view = { λ p. p.places.items };

    ghost invariant = { λ p. IsOnceEach p.places.items };
}

impl Places {
    /// No places. It takes no memory.
    pub fn new(alloc: Global) -> Places
        ensures { result ≡ [] }
    {
        Places {
            places: SmallVec::new(alloc),
        }
    }

    /// Adds the place at the end, unless it is there.
    pub fn add(&mut self, place: Place) -> Result<(), Memory>
        ensures ok { OnOk result (AppendsNew self.old place self.new) }
        ensures err { OnErr result (self.new ≡ self.old) }
    {
        if self.places.as_slice().contains(&place) {
            return Ok(());
        }
        match self.places.push(place) {
            Ok(()) => Ok(()),
            Err(_) => Err(Memory),
        }
    }

    /// The places.
    pub fn as_slice(&self) -> &[Place]
        ensures places { result.now ≡ self.now }
        ensures once { IsOnceEach result.now }
    {
        self.places.as_slice()
    }
}

/// A node with its successors and the places that it reads and writes.
#[derive(Drop)]
pub struct FlowRow {
    pub node: FlowNode,
    pub successors: List<u32>,
    pub reads: Places,
    pub writes: Places,
}

/// A flow graph, which contracts see as the list of its nodes.
#[derive(Drop)]
pub struct Flow {
    rows: Vec<FlowRow>,
    alloc: Global,
}

impl Model for Flow {
    ghost use Rattle.std.specs.Prelude.{List as Items};
    ghost use Rattle.dependence.specs.declared.flows.FlowRow.{FlowRow};
    ghost use Rattle.dependence.specs.FlowData.{IsFlow};

    ghost Value = { Items FlowRow };

    ghost view = { λ f. f.rows.items };

    ghost invariant = { λ f. IsFlow f.rows.items f.rows.len };
}

impl Flow {
    /// The graph without nodes. It takes no memory.
    pub fn new(alloc: Global) -> Flow
        ensures { result ≡ [] }
    {
        Flow {
            rows: Vec::new(alloc),
            alloc,
        }
    }

    /// The graph with these nodes. It takes no memory.
    pub fn of(alloc: Global, rows: Vec<FlowRow>) -> Flow
        requires { IsFlow rows.items rows.len }
        ensures { result ≡ rows.items }
    {
        Flow { rows, alloc }
    }

    /// Adds a node without successors and places at the end, and gives its number.
    pub fn add_node(&mut self, node: FlowNode) -> Result<u32, Memory>
        ensures ok { OnOk result (self.new ≡ self.old ++ bare node ∷ []) }
        ensures number { IfOk result (λ number. number ≡ length self.old) }
        ensures err { OnErr result (self.new ≡ self.old) }
    {
        let number = self.rows.len();
        if number >= u32::MAX as usize {
            return Err(Memory);
        }
        let row = FlowRow {
            node,
            successors: List::new(self.alloc),
            reads: Places::new(self.alloc),
            writes: Places::new(self.alloc),
        };
        match self.rows.push(row) {
            Ok(()) => Ok(number as u32),
            Err(_) => Err(Memory),
        }
    }

    /// Adds an edge behind those that begin at the same node, unless it is there.
    pub fn add_successor(&mut self, from: u32, to: u32) -> Result<(), Memory>
        requires begins { from < length self.old }
        requires ends { to < length self.old }
        ensures ok { OnOk result (AddsSuccessor self.old self.new from to) }
        ensures count { length self.new ≡ length self.old }
        ensures err { OnErr result (self.new ≡ self.old) }
    {
        let row = &mut self.rows[from as usize];
        if is_among(row.successors.as_slice(), to) {
            return Ok(());
        }
        match row.successors.push(to) {
            Ok(()) => Ok(()),
            Err((_, memory)) => Err(memory),
        }
    }

    /// Adds a place that the node reads, unless it is there.
    pub fn add_read(&mut self, n: u32, place: Place) -> Result<(), Memory>
        requires { n < length self.old }
        ensures ok { OnOk result (AddsRead self.old self.new n place) }
        ensures count { length self.new ≡ length self.old }
        ensures err { OnErr result (self.new ≡ self.old) }
    {
        self.rows[n as usize].reads.add(place)
    }

    /// Adds a place that the node writes, unless it is there.
    pub fn add_write(&mut self, n: u32, place: Place) -> Result<(), Memory>
        requires { n < length self.old }
        ensures ok { OnOk result (AddsWrite self.old self.new n place) }
        ensures count { length self.new ≡ length self.old }
        ensures err { OnErr result (self.new ≡ self.old) }
    {
        self.rows[n as usize].writes.add(place)
    }

    /// How many nodes there are.
    pub fn len(&self) -> u32
        ensures { result ≡ length self.now }
    {
        self.rows.len() as u32
    }

    /// A node.
    pub fn node(&self, n: u32) -> &FlowNode
        requires { n < length self.now }
        ensures { option_map (λ row. row.node) (slice_get self.now n) ≡ Some result.now }
    {
        &self.rows[n as usize].node
    }

    /// The successors of a node, each once, in order of adding.
    pub fn successors(&self, n: u32) -> &[u32]
        requires { n < length self.now }
        ensures successors { option_map (λ row. row.successors) (slice_get self.now n) ≡ Some result.now }
        ensures inside { All (λ to. to < length self.now) result.now }
        ensures once { IsOnceEach result.now }
    {
        self.rows[n as usize].successors.as_slice()
    }

    /// The places that a node reads, each once. At a Call they are those of its arguments.
    pub fn reads(&self, n: u32) -> &[Place]
        requires { n < length self.now }
        ensures reads { option_map (λ row. row.reads) (slice_get self.now n) ≡ Some result.now }
        ensures once { IsOnceEach result.now }
    {
        self.rows[n as usize].reads.as_slice()
    }

    /// The places that a node writes, each once.
    pub fn writes(&self, n: u32) -> &[Place]
        requires { n < length self.now }
        ensures writes { option_map (λ row. row.writes) (slice_get self.now n) ≡ Some result.now }
        ensures once { IsOnceEach result.now }
    {
        self.rows[n as usize].writes.as_slice()
    }
}

fn is_among(numbers: &[u32], number: u32) -> bool
    ensures { IsTrue result ↔ Contains numbers.now number }
{
    numbers.contains(&number)
}
