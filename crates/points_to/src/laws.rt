//! Laws of the definitions. Each function is empty: what it ensures is the law.
ghost use Rattle.std.specs.Prelude.{◌↔◌, ◌<◌, ℕ, List, Contains, length};
ghost use Rattle.contexts.specs.Policies.{ContextPolicy};
ghost use Rattle.jo_prog.specs.declared.program.Program.{Program};
ghost use Rattle.jo_prog.specs.TypingPaths.{HasHeightAt};
ghost use Rattle.dependence.specs.declared.facts.Fact.{Fact};
ghost use Rattle.dependence.specs.FactRules.{ByRule, Derivable};
ghost use Rattle.points_to.specs.Groups.{ByGroups};
ghost use Rattle.fact_sets.specs.FactLists.{FactLists};
ghost use Rattle.fact_sets.specs.Seen.{Known, fact_seen};
ghost use Rattle.points_to.specs.Additions.{IsFew, IsOver, TakesOnly};
ghost use Rattle.points_to.specs.Kept.{FactsOf, IsKept};
ghost use Rattle.points_to.specs.Limits.{HasMore, IsLimitOf, IsNamed, Runs};
ghost use Rattle.points_to.specs.Methods.{HasItsMethod};
ghost use Rattle.points_to.specs.NodesThere.{NodesAreThere};
ghost use Rattle.points_to.specs.declared.faults.SolveFault.{SolveFault as AFault};

use contexts::Contexts;

/// What follows from derivable facts by one rule follows by one of the groups of rules, and back.
pub fn rules_are_by_groups()
    ensures { (program : Program) (policy : ContextPolicy) (entry : ℕ) (g : Fact (List ℕ))
        → ByRule program policy (HasHeightAt program) entry (Derivable program policy (HasHeightAt program) entry) g
        ↔ ByGroups program policy (HasHeightAt program) entry (Derivable program policy (HasHeightAt program) entry) g }
{}

/// Derivable facts name nodes of wide graphs alone.
pub fn nodes_are_there()
    ensures { (program : Program) (policy : ContextPolicy) (entry : ℕ) (g : Fact (List ℕ))
        → Derivable program policy (HasHeightAt program) entry g → NodesAreThere program g }
{}

/// Facts that are kept stay kept as derivable ones are taken in; where there are more instances or objects than a limit, so many run or
/// are named; where all derivable facts are kept, and no more instances and objects than the limits, no more run or are named.
pub fn limits_are_of_derivable_facts<X: Contexts>()
    ensures kept { (program : Program) (policy : ContextPolicy) (entry : ℕ) (old new : FactLists X.C) (items : List (Fact X.C))
        → ((f : Fact X.C) → Contains items f → FactsOf program policy entry (fact_seen X.list f))
        → IsKept program policy entry X.list old → TakesOnly old new items → IsKept program policy entry X.list new }
    ensures limit { (program : Program) (policy : ContextPolicy) (entry : ℕ) (lists : FactLists X.C) (fault : AFault)
        → IsKept program policy entry X.list lists → IsOver lists fault → IsLimitOf program (FactsOf program policy entry) fault }
    ensures few_instances { (program : Program) (policy : ContextPolicy) (entry : ℕ) (lists : FactLists X.C)
        → ((g : Fact (List ℕ)) → FactsOf program policy entry g → Known X.list lists g) → IsFew lists → HasMore 20000 (Runs (FactsOf program policy entry)) → ⊥ }
    ensures few_objects { (program : Program) (policy : ContextPolicy) (entry : ℕ) (lists : FactLists X.C)
        → ((g : Fact (List ℕ)) → FactsOf program policy entry g → Known X.list lists g) → IsFew lists → HasMore 8192 (IsNamed (FactsOf program policy entry)) → ⊥ }
{}

/// Each instance that runs, and each target of a call, has a method of the program, where the entry is one.
pub fn methods_are_there()
    ensures { (program : Program) (policy : ContextPolicy) (entry : ℕ) (g : Fact (List ℕ)) → entry < length program.methods
        → Derivable program policy (HasHeightAt program) entry g → HasItsMethod program g }
{}
