//! The dependence graph of a program as it grows.
ghost use Rattle.std.specs.Prelude.{◌≡◌, ◌<◌, ◌⊎◌, ◌∷◌, [], ◌++◌, length, slice_get, Contains, IfNone, IfOk, IfSome, IsTrue, OnErr, OnOk, Some};
ghost use Rattle.dep_nodes.specs.GrowingGraphs.{HasMostNodes};
ghost use Rattle.sdg.specs.Growing.{IsGrowing, AddsNode};
ghost use Rattle.sdg.specs.Links.{link, by_word, by_flow};
ghost use Rattle.sdg.specs.Growth.{LinksAdded, LimitOnlyWhere};

use crate::instance_nodes::InstanceNode;
use dep_nodes::{DependenceGraph, EdgeKind, GraphFault, NodeName, OnceList};
use jo_ids::{Id, NodeId};
use std::alloc::Global;
use std::marker::Model;

/// A dependence graph with the table of its nodes, in which a node is found by its instance and its kind.
#[derive(Drop)]
pub struct GrowingProgramGraph {
    graph: DependenceGraph,
    nodes: OnceList<InstanceNode>,
}

impl Model for GrowingProgramGraph {
    ghost use Rattle.sdg.specs.Growing.{Growing, IsGrowing};

    ghost Value = { Growing };

    ghost view = { λ g. record { rows = g.graph; nodes = g.nodes } };

    ghost invariant = { λ g. IsGrowing g.graph g.nodes };
}

impl GrowingProgramGraph {
    /// The graph without nodes. It takes no memory.
    pub fn new(alloc: Global) -> GrowingProgramGraph
        ensures { result ≡ record { rows = []; nodes = [] } }
    {
        GrowingProgramGraph {
            graph: DependenceGraph::new(alloc),
            nodes: OnceList::new(alloc),
        }
    }

    /// The graph, whose nodes have their places in the table as numbers.
    pub fn graph(&self) -> &DependenceGraph
        ensures rows { result.now ≡ self.now.rows }
        ensures growing { IsGrowing self.now.rows self.now.nodes }
    {
        &self.graph
    }

    /// The nodes, in order of adding.
    pub fn nodes(&self) -> &[InstanceNode]
        ensures { result.now ≡ self.now.nodes }
    {
        self.nodes.as_slice()
    }

    /// How many nodes there are.
    pub fn len(&self) -> u32
        ensures { result ≡ length self.now.nodes }
    {
        self.graph.len()
    }

    /// The node with that number.
    pub fn node(&self, number: u32) -> InstanceNode
        requires { number < length self.now.nodes }
        ensures { slice_get self.now.nodes number ≡ Some result }
    {
        self.nodes.as_slice()[number as usize]
    }

    /// The number of a node.
    pub fn number_of(&self, node: &InstanceNode) -> Option<NodeId>
        ensures found { IfSome result (λ number. slice_get self.now.nodes number ≡ Some node.now) }
        ensures within { IfSome result (λ number. number < length self.now.rows) }
        ensures absent { IfNone result (Contains self.now.nodes node.now → ⊥) }
    {
        let _count = self.graph.len();
        match self.nodes.find(node) {
            Some(place) => Some(Id::of(place as u32)),
            None => None,
        }
    }

    /// Adds a node under its name, unless it is there.
    pub fn add_node(&mut self, node: InstanceNode, name: NodeName) -> Result<(), GraphFault>
        ensures ok { OnOk result (AddsNode self.old self.new node name) }
        ensures err { OnErr result (self.new ≡ self.old) }
        ensures limit { LimitOnlyWhere result (HasMostNodes self.old.rows × (Contains self.old.nodes node → ⊥)) }
    {
        if self.nodes.has(&node) {
            return Ok(());
        }
        match self.nodes.push_new(node) {
            Ok(()) => {}
            Err(_) => return Err(GraphFault::Memory),
        }
        match self.graph.add_node(name) {
            Ok(_) => Ok(()),
            Err(fault) => {
                self.nodes.drop_last();
                Err(fault)
            }
        }
    }

    /// Adds an edge between two nodes where both are there, unless it is there.
    pub fn add_edge_between(
        &mut self,
        from: &InstanceNode,
        word: EdgeKind,
        to: &InstanceNode,
    ) -> Result<(), GraphFault>
        ensures { LinksAdded result self.old self.new (λ l. l ≡ link from.now (by_word word) to.now) }
    {
        let Some(begin) = self.number_of(from) else {
            return Ok(());
        };
        let Some(end) = self.number_of(to) else {
            return Ok(());
        };
        self.graph.add_edge(begin, word, end)
    }

    /// Adds a flow edge between two nodes where both are there, unless it is there.
    pub fn add_flow_between(
        &mut self,
        from: &InstanceNode,
        to: &InstanceNode,
    ) -> Result<(), GraphFault>
        ensures { LinksAdded result self.old self.new (λ l. l ≡ link from.now by_flow to.now) }
    {
        let Some(begin) = self.number_of(from) else {
            return Ok(());
        };
        let Some(end) = self.number_of(to) else {
            return Ok(());
        };
        match self.graph.add_flow(begin, end) {
            Ok(()) => Ok(()),
            Err(_) => Err(GraphFault::Memory),
        }
    }
}
