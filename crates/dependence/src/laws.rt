//! Laws of the definitions. Each function is empty: what it ensures is the law.
ghost use Rattle.std.specs.Prelude.{◌≡◌, ◌↔◌, ℕ, List, true, Some, None};
ghost use Rattle.contexts.specs.Policies.{ContextPolicy};
ghost use Rattle.jo_insn.specs.declared.instructions.Insn.{Insn};
ghost use Rattle.jo_prog.specs.declared.program.Program.{Program};
ghost use Rattle.jo_ids.specs.declared.ObjKey.{ObjKey};
ghost use Rattle.jo_prog.specs.declared.program.Code.{Code};
ghost use Rattle.jo_prog.specs.declared.program.Row.{Row};
ghost use Rattle.jo_prog.specs.declared.program.TypeRef.TheVariants.{Class as OfClass};
ghost use Rattle.jo_prog.specs.Program.{code_at};
ghost use Rattle.jo_prog.specs.Rows.{row_for};
ghost use Rattle.jo_prog.specs.Sites.{opcode_of};
ghost use Rattle.jo_prog.specs.TypingPaths.{HasHeightAt};
ghost use Rattle.dependence.specs.declared.facts.Fact.{Fact};
ghost use Rattle.dependence.specs.FactRules.{ByRule, Derivable};
ghost use Rattle.dependence.specs.FlowGraph.{type_of_object, CatchesFirst, PassesAll};
ghost use Rattle.dependence.specs.WideGraph.{row_at, may_throw};
ghost use Rattle.dependence.specs.NodePlaces.{local_written};

/// No instruction that may raise an exception writes a local: what it would write reaches no handler.
pub fn throwers_write_no_local()
    ensures { (insn : Insn) → may_throw (opcode_of insn) ≡ true → local_written insn ≡ None }
{}

/// What follows from derivable facts by one rule is derivable, and each derivable fact follows so.
pub fn facts_follow()
    ensures closed { (program : Program) (policy : ContextPolicy) (entry : ℕ) (fact : Fact (List ℕ))
        → ByRule program policy (HasHeightAt program) entry (Derivable program policy (HasHeightAt program) entry) fact
        → Derivable program policy (HasHeightAt program) entry fact }
    ensures follows { (program : Program) (policy : ContextPolicy) (entry : ℕ) (fact : Fact (List ℕ))
        → Derivable program policy (HasHeightAt program) entry fact
        → ByRule program policy (HasHeightAt program) entry (Derivable program policy (HasHeightAt program) entry) fact }
{}

/// The row that catches an object of a class in a flow graph is the one that catches it in the machine.
pub fn rows_catch_alike()
    ensures first { (program : Program) (m pc c : ℕ) (o : ObjKey (List ℕ)) (code : Code) → code_at program m ≡ Some code → type_of_object program o ≡ Some (OfClass c)
        → (k : ℕ) (row : Row) → (row_for program code.rows pc c ≡ Some (k, row)) ↔ (CatchesFirst program m pc k o × (row_at program m k ≡ Some row)) }
    ensures none { (program : Program) (m pc c : ℕ) (o : ObjKey (List ℕ)) (code : Code) → code_at program m ≡ Some code → type_of_object program o ≡ Some (OfClass c)
        → (row_for program code.rows pc c ≡ None) ↔ PassesAll program m pc o }
{}
