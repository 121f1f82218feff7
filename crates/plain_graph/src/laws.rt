//! What the definitions say together.
ghost use Rattle.std.specs.Prelude.{◌≡◌, ◌↔◌, ℕ, List as Items, [], ◌∷◌};
ghost use Rattle.jo_prog.specs.declared.program.Program.{Program};
ghost use Rattle.jo_prog.specs.declared.labels.Labels.{Labels};
ghost use Rattle.dep_nodes.specs.declared.chains.Step.{Step};
ghost use Rattle.dep_nodes.specs.declared.graphs.Graph.{Graph};
ghost use Rattle.dep_nodes.specs.Nodes.{Node};
ghost use Rattle.dep_nodes.specs.Graphs.{GraphEdge, HasNoFork, graph_node, IsWalk, walk_end, WalksTo, links_of};
ghost use Rattle.dep_nodes.specs.Chains.{Link, IsValidChain, HasChain, end_of};
ghost use Rattle.dependence.specs.Graph.{DependenceEdge};
ghost use Rattle.dependence.specs.GraphData.{IsDependenceGraph};
ghost use Rattle.plain_graph.specs.Slices.{HasEdgesInside};

/// A valid chain leads from one node to another exactly where a walk of the graph does.
pub fn chains_are_walks()
    ensures { (program : Program) (labels : Labels) (graph : Graph) (i j : ℕ) (a b : Node)
        → IsDependenceGraph program labels graph
        → graph_node graph i ≡ Some a → graph_node graph j ≡ Some b
        → HasChain (GraphEdge graph) a b ↔ WalksTo graph (j ∷ []) i }
{}

/// The links of a walk are a valid chain to the node at its end.
pub fn walks_are_chains()
    ensures valid { (program : Program) (labels : Labels) (graph : Graph) (i : ℕ) (a : Node) (steps : Items Step)
        → IsDependenceGraph program labels graph → graph_node graph i ≡ Some a → IsWalk graph i steps
        → IsValidChain (GraphEdge graph) a (links_of graph steps) }
    ensures end { (program : Program) (labels : Labels) (graph : Graph) (i : ℕ) (a : Node) (steps : Items Step)
        → IsDependenceGraph program labels graph → graph_node graph i ≡ Some a → IsWalk graph i steps
        → graph_node graph (walk_end i steps) ≡ Some (end_of a (links_of graph steps)) }
{}

/// The valid chains of a program's dependence graph are those along its dependence edges.
pub fn chains_are_of_the_program()
    ensures { (program : Program) (labels : Labels) (graph : Graph) (from : Node) (links : Items Link)
        → IsDependenceGraph program labels graph
        → IsValidChain (GraphEdge graph) from links ↔ IsValidChain (DependenceEdge program labels) from links }
{}

/// The edges of a dependence graph are between its nodes, as a search for walks wants them, and none is a fork's.
pub fn graphs_have_edges_inside()
    ensures inside { (program : Program) (labels : Labels) (graph : Graph) → IsDependenceGraph program labels graph → HasEdgesInside graph }
    ensures no_fork { (program : Program) (labels : Labels) (graph : Graph) → IsDependenceGraph program labels graph → HasNoFork graph }
{}
