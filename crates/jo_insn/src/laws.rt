//! Laws of instructions: their spelling, their names, and where they start.
ghost use Rattle.std.specs.Prelude.{◌≡◌, ℕ, ◌+◌, ◌<◌, ◌^◌, ◌++◌, ℤ, List, length, Ok};
ghost use Rattle.std.specs.List.{AllByRecursion};
ghost use Rattle.std.specs.Option.{is_some};
ghost use Rattle.jo_insn.specs.ArrayKinds.{name_of_kind};
ghost use Rattle.jo_insn.specs.Instructions.{IsInsn, is_array_kind, spelled, decoded, IsReadAs};
ghost use Rattle.jo_insn.specs.Jumps.{IsPlacedIn, is_start};
ghost use Rattle.jo_insn.specs.Marks.{is_marked, starts_of as marks_of_starts};
ghost use Rattle.jo_insn.specs.declared.instructions.Insn.{Insn};
ghost use Rattle.jo_insn.specs.declared.jumps.Placed.{Placed};

/// What is spelled at a pc is read there, whatever follows.
pub fn spelled_is_decoded()
    ensures { (front rest table : List ℕ) (insn : Insn) → IsInsn (length front) insn table
        → decoded (front ++ spelled (length front) insn table ++ rest) (length front) ≡ Ok (insn, length front + length (spelled (length front) insn table)) }
{}

/// What is read at a pc is spelled there, but for the padding of a switch.
pub fn decoded_is_spelled()
    ensures { (code : List ℕ) (pc next : ℕ) (insn : Insn) → AllByRecursion (λ byte. byte < 2 ^ 8) code → decoded code pc ≡ Ok (insn, next) → IsReadAs code pc insn next }
{}

/// Exactly the array kinds of the profile have names.
pub fn kinds_have_names()
    ensures { (kind : ℕ) → is_some (name_of_kind kind) ≡ is_array_kind kind }
{}

/// The marks of instructions of some code are where they start.
pub fn marks_are_starts()
    ensures { (code : List ℕ) (insns : List Placed) (pc : ℤ) → AllByRecursion (IsPlacedIn code) insns → is_marked (marks_of_starts (length code) insns) pc ≡ is_start insns pc }
{}
