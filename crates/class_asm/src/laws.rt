//! Laws of assembly.
ghost use Rattle.std.specs.Prelude.{◌≡◌, ◌↔◌, ◌+◌, ℕ, List, length, Ok, Err};
ghost use Rattle.asm_text.specs.declared.statements.Operation.{Operation};
ghost use Rattle.class_pool.specs.declared.classes.ClassFile.{ClassFile};
ghost use Rattle.class_pool.specs.Fitting.{FitsClass};
ghost use Rattle.class_asm.specs.Layout.{Setting, pc_behind};
ghost use Rattle.class_asm.specs.Encoding.{operation_bytes};
ghost use Rattle.class_asm.specs.declared.causes.Fault.{Fault};
ghost use Rattle.class_asm.specs.Assembly.{assembled};
ghost use Rattle.class_asm.specs.Texts.{Says, IsFirstFault};

/// The bytes of an operation are as many as its size says.
pub fn operations_have_their_sizes()
    ensures { (settings : List Setting) (pc entry : ℕ) (operation : Operation) (bytes : List ℕ) → operation_bytes settings pc entry operation ≡ Ok bytes → pc + length bytes ≡ pc_behind pc operation }
{}

/// Each class that a text says can be written.
pub fn assembled_fits()
    ensures { (text : List ℕ) (class : ClassFile) → assembled text ≡ Ok class → FitsClass class }
{}

/// A text has the class that it says line by line, exactly where it says one; else its first fault.
pub fn assembled_is_by_lines()
    ensures class { (text : List ℕ) (class : ClassFile) → (assembled text ≡ Ok class) ↔ Says text class }
    ensures fault { (text : List ℕ) (fault : Fault) → (assembled text ≡ Err fault) ↔ IsFirstFault text fault }
{}
