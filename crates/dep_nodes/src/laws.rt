//! Laws of the definitions. Each function is empty: what it ensures is the law.
ghost use Rattle.std.specs.Prelude.{◌≡◌, ◌↔◌, ℕ, List, [], ◌∷◌, ◌++◌};
ghost use Rattle.std.specs.List.{AllByRecursion};
ghost use Rattle.dep_nodes.specs.declared.dependence_graph.GraphNode.{GraphNode};
ghost use Rattle.dep_nodes.specs.declared.graphs.Graph.{Graph};
ghost use Rattle.dep_nodes.specs.BalancedPaths.{Balanced};
ghost use Rattle.dep_nodes.specs.Chains.{LinkTo, HasChain, HasEdgeChain, IsChainOver, LeavesOpenOver, MatchedOver, IsMatchedOver, IsEdge, end_of, pass_to, path_links_over};
ghost use Rattle.dep_nodes.specs.Graphs.{GraphEdge};
ghost use Rattle.dep_nodes.specs.Nodes.{Node, CallSite};
ghost use Rattle.dep_nodes.specs.NumberedChains.{HasNumberedChain, HasNumberedEdgeChain};

/// Any nodes with names, and any edges between them.
pub trait Edges {
    ghost use Rattle.dep_nodes.specs.Nodes.{Node};
    ghost use Rattle.dep_nodes.specs.declared.kinds.EdgeKind.{EdgeKind};

    ghost name: { Self → Node };

    ghost leads: { Self → EdgeKind → Self → Type 0 };
}

/// A `pass` step says no more than edges do: where a valid chain leads from one node of a graph to another, one of edges
/// alone does.
pub fn passes_are_paths()
    ensures { (graph : Graph) (from to : Node) → HasChain (GraphEdge graph) from to → HasEdgeChain (GraphEdge graph) from to }
{}

/// The same from number to number of a graph that grows.
pub fn numbered_passes_are_paths()
    ensures { (nodes : List GraphNode) (from to : ℕ) → HasNumberedChain nodes from to → HasNumberedEdgeChain nodes from to }
{}

/// A chain, and one from its end on with the calls that it leaves open, are a chain.
pub fn chains_append<N: Edges>()
    ensures { (calls left : List CallSite) (from : N) (links more : List (LinkTo N)) → LeavesOpenOver N.name N.leads calls from links left → IsChainOver N.name N.leads left (end_of from links) more → IsChainOver N.name N.leads calls from (links ++ more) }
{}

/// A chain splits behind each of its steps: the rest goes on with the calls that are open there, and there is one list of
/// these.
pub fn chains_split<N: Edges>()
    ensures parts { (calls : List CallSite) (from : N) (links more : List (LinkTo N)) → IsChainOver N.name N.leads calls from (links ++ more) → (left : List CallSite) × LeavesOpenOver N.name N.leads calls from links left × IsChainOver N.name N.leads left (end_of from links) more }
    ensures once { (calls one two : List CallSite) (from : N) (links : List (LinkTo N)) → LeavesOpenOver N.name N.leads calls from links one → LeavesOpenOver N.name N.leads calls from links two → one ≡ two }
{}

/// The links of a matched path are edges, leave the calls open that were open before, and may stand in the place of a
/// `pass` step between the same nodes.
pub fn paths_stand_for_passes<N: Edges>()
    ensures edges { (from to : N) (path : IsMatchedOver N.name N.leads from to) → AllByRecursion IsEdge (path_links_over N.name N.leads [] from to path) }
    ensures ends { (from to : N) (path : IsMatchedOver N.name N.leads from to) → end_of from (path_links_over N.name N.leads [] from to path) ≡ to }
    ensures leaves { (calls : List CallSite) (from to : N) (path : IsMatchedOver N.name N.leads from to) → LeavesOpenOver N.name N.leads calls from (path_links_over N.name N.leads [] from to path) calls }
    ensures chain { (calls : List CallSite) (from to : N) (links more : List (LinkTo N)) (path : IsMatchedOver N.name N.leads (end_of from links) to) → IsChainOver N.name N.leads calls from (links ++ (pass_to to ∷ more)) → IsChainOver N.name N.leads calls from (links ++ (path_links_over N.name N.leads [] (end_of from links) to path ++ more)) }
{}

/// A matched path behind another is one; so is the rest of one with a path of the caller's behind it.
pub fn matched_paths_compose<N: Edges>()
    ensures paths { (a b c : N) → IsMatchedOver N.name N.leads a b → IsMatchedOver N.name N.leads b c → IsMatchedOver N.name N.leads a c }
    ensures rests { (calls under : List CallSite) (a b c : N) → MatchedOver N.name N.leads calls a b → MatchedOver N.name N.leads under b c → MatchedOver N.name N.leads (calls ++ under) a c }
{}

/// Matched paths are those of the grammar of brackets.
pub fn matched_paths_are_balanced<N: Edges>()
    ensures { (from to : N) → IsMatchedOver N.name N.leads from to ↔ Balanced N.name N.leads from to }
{}
