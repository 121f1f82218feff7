//! Laws of what a file is read as. That it is at most one class is a law of `class_pool`.
ghost use Rattle.std.specs.Prelude.{◌≡◌, ℕ, List};
ghost use Rattle.class_pool.specs.ClassGrammar.{IsClass};
ghost use Rattle.class_pool.specs.declared.classes.ClassFile.{ClassFile};
ghost use Rattle.class_pool.specs.declared.faults.ClassFault.{ClassFault};
ghost use Rattle.class_read.specs.Faults.{ClassFaultOf};

/// A file has at most one first fault, and none where it is a class.
pub fn one_answer()
    ensures one_fault { (file : List ℕ) (fault other : ClassFault) → ClassFaultOf file fault → ClassFaultOf file other → fault ≡ other }
    ensures not_both { (file : List ℕ) (class : ClassFile) (fault : ClassFault) → IsClass file class → ClassFaultOf file fault → ⊥ }
{}
