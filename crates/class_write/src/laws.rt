//! Laws of the spelling of classes.
ghost use Rattle.std.specs.Prelude.{◌≡◌, ◌<◌, ◌^◌, ℕ, List, Ok};
ghost use Rattle.std.specs.List.{AllByRecursion};
ghost use Rattle.class_pool.specs.ClassGrammar.{IsClass};
ghost use Rattle.class_pool.specs.ClassOrder.{class_of};
ghost use Rattle.class_pool.specs.declared.classes.ClassFile.{ClassFile};
ghost use Rattle.class_write.specs.Spelling.{spelled_class};

/// What is written of a class that was read is that class, by the grammar and as it is read.
pub fn written_is_read()
    ensures grammar { (bytes : List ℕ) (c : ClassFile) → AllByRecursion (λ byte. byte < 2 ^ 8) bytes → IsClass bytes c → IsClass (spelled_class c) c }
    ensures reading { (bytes : List ℕ) (c : ClassFile) → AllByRecursion (λ byte. byte < 2 ^ 8) bytes → IsClass bytes c → class_of (spelled_class c) ≡ Ok c }
{}
