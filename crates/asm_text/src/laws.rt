//! Laws of the grammar of lines.
ghost use Rattle.std.specs.Prelude.{◌≡◌, ◌↔◌, ℕ, List, [], Some, None};
ghost use Rattle.asm_text.specs.declared.statements.Statement.{Statement};
ghost use Rattle.asm_text.specs.Lines.{items_of};
ghost use Rattle.asm_text.specs.Statements.{statement_of};
ghost use Rattle.asm_text.specs.Grammar.{IsLine};

/// A line is read as a statement exactly where its items say that, and as none exactly where it has no items. All other
/// lines are outside the grammar.
pub fn lines_are_by_items()
    ensures empty { (line : List ℕ) → (statement_of line ≡ Some None) ↔ (items_of line ≡ []) }
    ensures statement { (line : List ℕ) (statement : Statement) → (statement_of line ≡ Some (Some statement)) ↔ IsLine line statement }
{}
