//! Laws of the definitions. Each function is empty: what it ensures is the law.
ghost use Rattle.std.specs.Prelude.{◌≡◌, ◌↔◌, ℕ, [], List, ◌∷◌, length};
ghost use Rattle.jo_prog.specs.declared.program.Program.{Program};
ghost use Rattle.jo_prog.specs.Typing.{Shape};
ghost use Rattle.jo_prog.specs.Shapes.{Effect, after};
ghost use Rattle.jo_prog.specs.TypingPaths.{Typable, Step, TypingPath, Prolongs, height_after};

/// Typing paths are made step by step: the empty one is one, and a longer one prolongs a typing path that goes on. The height that
/// an overflow is asked by is that of the shape after the instruction.
pub fn paths_go_on()
    ensures begins { (program : Program) (t : Typable) → TypingPath program t [] }
    ensures onward { (program : Program) (t : Typable) (step : Step) (path : List Step) → Prolongs program t (TypingPath program t) step path → TypingPath program t (step ∷ path) }
    ensures back { (program : Program) (t : Typable) (step : Step) (path : List Step) → TypingPath program t (step ∷ path) → Prolongs program t (TypingPath program t) step path }
    ensures heights { (program : Program) (effect : Effect) (s : Shape) → length (after program effect s).stack ≡ height_after effect (length s.stack) }
{}
