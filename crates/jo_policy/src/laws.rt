//! Laws of the definitions. Each function is empty: what it ensures is the law.
ghost use Rattle.toml.specs.Data.{Members};
ghost use Rattle.jo_prog.specs.declared.labels.Labels.{Labels};
ghost use Rattle.jo_prog.specs.declared.program.Program.{Program};
ghost use Rattle.jo_prog.specs.PlainCode.{IsWellLabelled};
ghost use Rattle.policy_tree.specs.declared.written.ContextsKey.{ContextsKey};
ghost use Rattle.jo_policy.specs.Policies.{IsPolicy};

/// A policy without a fault labels its program well.
pub fn policies_label_well()
    ensures { (program : Program) (tree : Members) (labels : Labels) (contexts : ContextsKey)
        → IsPolicy program tree labels contexts → IsWellLabelled program labels }
{}
