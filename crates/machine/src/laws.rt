//! Laws of the machine. Each function is empty: what it ensures is the law.
ghost use Rattle.std.specs.Prelude.{◌≡◌, ℕ, Bool, true, false, pos, negsuc, List, [], ◌∷◌, map, replicate, Option, Some, None};
ghost use Rattle.jo_prog.specs.declared.runs.Event.TheVariants.{Out};
ghost use Rattle.jo_prog.specs.declared.sites.Cause.TheVariants.{NullBase, BadIndex, WrongElement, MissingInterface, SecondStart};
ghost use Rattle.jo_prog.specs.Values.{Value, int, null, ref, Info};
ghost use Rattle.jo_text.specs.declared.descriptors.Base.TheVariants.{Byte, Short, Boolean};
ghost use Rattle.machine.specs.Arithmetic.{int_op, narrow, kept_by};
ghost use Rattle.machine.specs.Instructions.{Instruction, stores_element};
ghost use Rattle.machine.specs.Execution.{Ways, Fits, raises, only, exec, cell_read};
ghost use Rattle.machine.specs.Invocation.{Callee, fails, invoked};
ghost use Rattle.machine.specs.Runs.{run};
ghost use Rattle.machine.specs.Worked.{dividing_program, starting_program, shows_at, arrays_of_three, nothing_fits, starts_all};
ghost use Rattle.machine.specs.Renamings.{IsRenaming, Both, RenamedValue, RenamedValues, RenamedOutcome, RenamedCell, RenamedInvoked};

/// Addresses that others are renamed to, one to one.
pub trait RenamedFrom<A> {
    ghost renames: { A → Self → Type 0 };
}

/// An instruction that is no call looks at addresses through equality and what stands there alone: with addresses renamed one to one
/// it does the same, and reads the same cell.
pub fn instructions_do_not_see_addresses<A, B: RenamedFrom<A>>()
    ensures outcome { (one : Ways A) (other : Ways B) → IsRenaming B.renames one other → (fits : Fits) (instruction : Instruction) (c : Option (Value A)) (d : Option (Value B)) → Both (RenamedValue B.renames) c d → (vs : List (Value A)) (ws : List (Value B)) → RenamedValues B.renames vs ws → Both (RenamedOutcome B.renames) (exec one fits instruction c vs) (exec other fits instruction d ws) }
    ensures cell { (one : Ways A) (other : Ways B) → IsRenaming B.renames one other → (instruction : Instruction) (vs : List (Value A)) (ws : List (Value B)) → RenamedValues B.renames vs ws → Both (RenamedCell B.renames) (cell_read one.info instruction vs) (cell_read other.info instruction ws) }
{}

/// The same of a call.
pub fn calls_do_not_see_addresses<A, B: RenamedFrom<A>>()
    ensures { (one : Ways A) (other : Ways B) → IsRenaming B.renames one other → (callee : Callee) (started : A → Bool) (begun : B → Bool) → ((a : A) (b : B) → B.renames a b → started a ≡ begun b) → (vs : List (Value A)) (ws : List (Value B)) → RenamedValues B.renames vs ws → Both (RenamedInvoked B.renames) (invoked callee one.info started vs) (invoked callee other.info begun ws) }
{}

/// Runs compute: what is thrown is caught, and the schedule decides which of two threads shows first.
pub fn worked_runs()
    ensures caught { run dividing_program (shows_at 0 1) [] (replicate 8 0) ≡ record { events = Out 1 (pos 5) ∷ []; ended = true } }
    ensures first { run starting_program (shows_at 1 3) [] (replicate 8 0) ≡ record { events = Out 3 (pos 2) ∷ Out 3 (pos 1) ∷ []; ended = true } }
    ensures other { run starting_program (shows_at 1 3) [] (0 ∷ 0 ∷ 1 ∷ 1 ∷ 1 ∷ 0 ∷ 0 ∷ 0 ∷ []) ≡ record { events = Out 3 (pos 1) ∷ Out 3 (pos 2) ∷ []; ended = true } }
    ensures begun { run starting_program (shows_at 1 3) [] (0 ∷ []) ≡ record { events = []; ended = false } }
{}

/// Ints at their ends: the least by -1 is itself and leaves 0, a shift takes five bits, what narrows keeps low bits.
pub fn worked_ints()
    ensures quotients { map (λ op. int_op op (negsuc 2147483647) (negsuc 0)) (108 ∷ 112 ∷ []) ≡ Some (negsuc 2147483647) ∷ Some (pos 0) ∷ [] }
    ensures by_zero { map (λ op. int_op op (pos 7) (pos 0)) (108 ∷ 112 ∷ 104 ∷ []) ≡ None ∷ None ∷ Some (pos 0) ∷ [] }
    ensures signs { map (λ op. int_op op (negsuc 6) (pos 2)) (108 ∷ 112 ∷ []) ≡ Some (negsuc 2) ∷ Some (negsuc 0) ∷ [] }
    ensures wraps { map (λ op. int_op op (pos 2147483647) (pos 2)) (96 ∷ 100 ∷ 104 ∷ []) ≡ Some (negsuc 2147483646) ∷ Some (pos 2147483645) ∷ Some (negsuc 1) ∷ [] }
    ensures shifts { map (λ op. int_op op (negsuc 0) (pos 33)) (120 ∷ 122 ∷ 124 ∷ []) ≡ Some (negsuc 1) ∷ Some (negsuc 0) ∷ Some (pos 2147483647) ∷ [] }
    ensures bits { map (λ op. int_op op (pos 12) (pos 10)) (126 ∷ 128 ∷ 130 ∷ []) ≡ Some (pos 8) ∷ Some (pos 14) ∷ Some (pos 6) ∷ [] }
    ensures narrows { map (λ op. narrow op (pos 65535)) (145 ∷ 146 ∷ 147 ∷ []) ≡ negsuc 0 ∷ pos 65535 ∷ negsuc 0 ∷ [] }
    ensures kept { map (λ base. kept_by base (pos 258)) (Boolean ∷ Byte ∷ Short ∷ []) ≡ pos 0 ∷ pos 2 ∷ pos 258 ∷ [] }
{}

/// What is raised where several things are wrong: of a store the null array first, then the bad index, then the wrong element, and of
/// a call the null receiver, then the missing interface, then the second start.
pub fn worked_raises()
    ensures stores { map (exec arrays_of_three nothing_fits stores_element None) ((ref 0 ∷ int (pos 3) ∷ null ∷ []) ∷ (ref 0 ∷ int (pos 3) ∷ ref 1 ∷ []) ∷ (ref 0 ∷ int (pos 2) ∷ ref 1 ∷ []) ∷ []) ≡ only (raises NullBase) ∷ only (raises BadIndex) ∷ only (raises WrongElement) ∷ [] }
    ensures receivers { map (invoked (starts_all false) arrays_of_three.info (λ a. true)) ((null ∷ []) ∷ (ref 1 ∷ []) ∷ []) ≡ Some (fails NullBase) ∷ Some (fails MissingInterface) ∷ [] }
    ensures starts { invoked (starts_all true) arrays_of_three.info (λ a. true) (ref 1 ∷ []) ≡ Some (fails SecondStart) }
{}
