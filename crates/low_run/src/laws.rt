//! Laws of the definitions. Each function is empty: what it ensures is the law.
ghost use Rattle.std.specs.Prelude.{◌≢◌, ◌⊎◌, ◌↔◌, ℕ, ℤ, Bool, true, false, List, ◌∷◌, ◌++◌};
ghost use Rattle.jo_prog.specs.PlainCode.{IsPlainProgram};
ghost use Rattle.jo_prog.specs.Worked.{worked_labels, worked_program};
ghost use Rattle.jo_prog.specs.declared.labels.Labels.{Labels};
ghost use Rattle.jo_prog.specs.declared.program.Program.{Program};
ghost use Rattle.jo_prog.specs.declared.runs.Event.{Event};
ghost use Rattle.jo_prog.specs.declared.runs.Event.TheVariants.{Out};
ghost use Rattle.dep_nodes.specs.declared.graphs.Graph.{Graph};
ghost use Rattle.dep_nodes.specs.Chains.{Link};
ghost use Rattle.dep_nodes.specs.Nodes.{Node};
ghost use Rattle.dependence.specs.GraphData.{IsDependenceGraph};
ghost use Rattle.low_run.specs.Leak.{leaking_program};
ghost use Rattle.low_run.specs.ByEdges.{AllCleanByEdges, IllegalByEdges};
ghost use Rattle.low_run.specs.Verdict.{CleanForAll, IllegalChain};
ghost use Rattle.low_run.specs.Security.{Agree, Secure};

/// A plain program is secure whose dependence graph is clean for each of its observers; and one without an illegal chain
/// along its dependence edges is, whether there is a graph of it as data or not.
pub fn clean_is_secure()
    ensures graph { (program : Program) (labels : Labels) (graph : Graph)
        → IsPlainProgram program labels → IsDependenceGraph program labels graph → CleanForAll graph labels → Secure program labels }
    ensures edges { (program : Program) (labels : Labels) → IsPlainProgram program labels → AllCleanByEdges program labels → Secure program labels }
{}

/// The illegal chains of a program's dependence graph are those along its dependence edges.
pub fn illegal_chains_are_of_the_program()
    ensures { (program : Program) (labels : Labels) (graph : Graph) (observer : ℕ) (from : Node) (links : List Link)
        → IsDependenceGraph program labels graph
        → IllegalChain graph labels observer from links ↔ IllegalByEdges program labels observer from links }
{}

/// Security is no empty word: the worked program that shows its secret isn't secure.
pub fn worked_leak()
    ensures { Secure leaking_program worked_labels → ⊥ }
{}

/// The verdict tells programs apart: the worked program is clean, and the one that shows its secret isn't, along their
/// dependence edges as in each graph of them.
pub fn worked_verdicts()
    ensures clean_edges { AllCleanByEdges worked_program worked_labels }
    ensures clean_graph { (graph : Graph) → IsDependenceGraph worked_program worked_labels graph → CleanForAll graph worked_labels }
    ensures leak_edges { AllCleanByEdges leaking_program worked_labels → ⊥ }
    ensures leak_graph { (graph : Graph) → IsDependenceGraph leaking_program worked_labels graph → CleanForAll graph worked_labels → ⊥ }
{}

/// Agreement: a run that hasn't ended agrees with each that goes on from it; of two ended runs neither shows more; and where
/// they first differ it isn't at a sink. It is symmetric, and decidable.
pub fn agreement()
    ensures prefix { (labels : Labels) (observer : ℕ) (xs ys : List Event) (ended : Bool) → Agree labels observer xs false (xs ++ ys) ended }
    ensures longer { (labels : Labels) (observer : ℕ) (xs ys : List Event) (y : Event) → Agree labels observer xs true (xs ++ y ∷ ys) true → ⊥ }
    ensures out { (labels : Labels) (observer : ℕ) (xs ys zs : List Event) (sink : ℕ) (value : ℤ) (other : Event) (ended other_ended : Bool)
        → Out sink value ≢ other → Agree labels observer (xs ++ Out sink value ∷ ys) ended (xs ++ other ∷ zs) other_ended → ⊥ }
    ensures symmetric { (labels : Labels) (observer : ℕ) (xs ys : List Event) (ended other_ended : Bool)
        → Agree labels observer xs ended ys other_ended → Agree labels observer ys other_ended xs ended }
    ensures decidable { (labels : Labels) (observer : ℕ) (xs ys : List Event) (ended other_ended : Bool)
        → Agree labels observer xs ended ys other_ended ⊎ (Agree labels observer xs ended ys other_ended → ⊥) }
{}
