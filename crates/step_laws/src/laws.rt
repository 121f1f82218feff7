//! Laws of typed states and of typing on steps. Each function is empty: what it ensures is the law.
ghost use Rattle.std.specs.Prelude.{◌≡◌, ℕ, ℤ, true, false, List, ◌∷◌, Some, None, Ok, slice_get, FitsSigned};
ghost use Rattle.std.specs.Int.{w32};
ghost use Rattle.jo_text.specs.declared.descriptors.FieldDesc.{FieldDesc};
ghost use Rattle.jo_insn.specs.Instructions.{decoded, IsInsn};
ghost use Rattle.jo_insn.specs.declared.instructions.Insn.{Insn};
ghost use Rattle.jo_prog.specs.declared.program.Method.{Method};
ghost use Rattle.jo_prog.specs.Program.{method_at, code_at};
ghost use Rattle.jo_prog.specs.declared.program.Code.{Code};
ghost use Rattle.jo_prog.specs.declared.labels.Labels.{Labels};
ghost use Rattle.jo_prog.specs.declared.runs.SourceInput.{SourceInput};
ghost use Rattle.jo_prog.specs.InsnTyping.{effect_of};
ghost use Rattle.machine.specs.Arithmetic.{int_op, negated, kept_int, narrow};
ghost use Rattle.jo_prog.specs.declared.program.Program.{Program};
ghost use Rattle.jo_prog.specs.declared.program.TypeRef.{TypeRef};
ghost use Rattle.jo_prog.specs.Types.{type_fits};
ghost use Rattle.jo_prog.specs.Typing.{Kind, Int, Null, Ref, Shape};
ghost use Rattle.jo_prog.specs.Shapes.{Effect, Need, need_of, passes, takes_type};
ghost use Rattle.jo_prog.specs.Values.{Value, int, ref, Info, Cell};
ghost use Rattle.jo_prog.specs.Machine.{Frame, Thread, HeapObject, State, info_at, start};
ghost use Rattle.jo_prog.specs.TypingPaths.{IsTypedMethod, effect_at};
ghost use Rattle.machine.specs.Instructions.{Instruction, instruction_of};
ghost use Rattle.machine.specs.Execution.{cell_read, exec};
ghost use Rattle.machine.specs.Heaps.{new_object, with_new, with_content};
ghost use Rattle.machine.specs.Invocation.{type_of};
ghost use Rattle.machine.specs.Worked.{dividing_program, starting_program, shows_at};
ghost use Rattle.machine.specs.Steps.{ways, fits, read_from, fetched, executed, step};
ghost use Rattle.step_laws.specs.TypedStates.{HasKind, IsOnStack, IsReady, IsTypedState};
ghost use Rattle.step_laws.specs.Growth.{CanBeMade};
ghost use Rattle.step_laws.specs.Tables.{asks_nothing, is_call, IsSoundInsn, HasSoundCode, IsInstructionWith};
ghost use Rattle.step_laws.specs.Fetches.{IsGivenValues, HasStep};
ghost use Rattle.step_laws.specs.Effects.{HasEffect, AreGiven, TakesValue, GoesOnWith};
ghost use Rattle.step_laws.specs.Needs.{Meets, IsPlainNeed, HasDims, AreTypedObjects};
ghost use Rattle.step_laws.specs.Premises.{HasSoundHierarchy, IsBelowObject};

/// Subtypes of subtypes are subtypes, also where a type that is passed on may be an interface, which takes each object.
pub fn types_are_passed_on()
    ensures subtypes { (program : Program) → HasSoundHierarchy program → (a b c : TypeRef) → type_fits program a b ≡ true → type_fits program b c ≡ true → type_fits program a c ≡ true }
    ensures taken { (program : Program) → HasSoundHierarchy program → (a b c : TypeRef) → IsBelowObject program a → takes_type program a b ≡ true → takes_type program b c ≡ true → takes_type program a c ≡ true }
{}

/// Arithmetic on ints of 32 bits gives such an int, where it gives one, and so does what a field or a result keeps of an int.
pub fn ints_stay_ints()
    ensures two { (op : ℕ) (x y z : ℤ) → FitsSigned w32 x → FitsSigned w32 y → int_op op x y ≡ Some z → FitsSigned w32 z }
    ensures one { (x : ℤ) → FitsSigned w32 (negated x) }
    ensures kept { (type : FieldDesc) (z : ℤ) → FitsSigned w32 z → FitsSigned w32 (kept_int type z) }
    ensures narrowed { (op : ℕ) (z : ℤ) → FitsSigned w32 z → FitsSigned w32 (narrow op z) }
{}

/// A place whose kind passes holds a value that is as is asked; and a value that is as a kind asks, where values are passed on, is of
/// the kind.
pub fn values_meet_needs()
    ensures onward { (program : Program) → HasSoundHierarchy program → (heap : List HeapObject) → AreTypedObjects program heap → (need : Need) (kind : Kind) (v : Value ℕ) → IsPlainNeed need → passes program need kind ≡ true → IsOnStack program heap kind v → Meets program heap need v }
    ensures back { (program : Program) → HasSoundHierarchy program → (heap : List HeapObject) → AreTypedObjects program heap → (kind : Kind) (v : Value ℕ) → HasDims kind → Meets program heap (need_of kind) v → HasKind program heap kind v }
{}

/// An instruction that is no call goes on where it is given values of the kinds that its effect asks, and what comes of it is as its
/// effect says.
pub fn typed_instructions_go_on()
    ensures { (program : Program) → HasSoundHierarchy program → (s : State) → IsTypedState program s → (instruction : Instruction) (effect : Effect) → HasEffect program instruction effect → (shape : Shape) (vs : List (Value ℕ)) → AreGiven program s.heap effect.reads effect.pops shape vs → GoesOnWith program s instruction effect shape (exec (ways program s) (fits program) instruction (read_from s (cell_read (info_at s) instruction vs)) vs) }
{}

/// A typed state stays typed where a cell is written that takes the value.
pub fn written_cells_keep_typing()
    ensures { (program : Program) (s : State) → IsTypedState program s → (cell : Cell ℕ) (v : Value ℕ) → TakesValue program s cell v → IsTypedState program (with_content s cell v) }
{}

/// A typed state stays typed where an object of a class, or an array, is made.
pub fn new_objects_keep_typing()
    ensures { (program : Program) (s : State) → IsTypedState program s → (info : Info) → CanBeMade program info → IsTypedState program (with_new s (new_object program info)) }
{}

/// At a frame that is ready, in a method that is typed, an instruction that is no call has the values that typing's effect at its pc
/// asks, and the machine has a next state.
pub fn typed_frames_step()
    ensures values { (program : Program) (heap : List HeapObject) (f : Frame) → IsTypedMethod program f.method → (ready : IsReady program heap f) (instruction : Instruction)
        → HasEffect program instruction (effect_at program ready.has_shape.typable f.pc) → IsGivenValues program heap instruction (effect_at program ready.has_shape.typable f.pc) ready.shape f }
    ensures next { (program : Program) → HasSoundHierarchy program → (s : State) → IsTypedState program s → (f : Frame) → IsTypedMethod program f.method → (ready : IsReady program s.heap f) (instruction : Instruction)
        → HasEffect program instruction (effect_at program ready.has_shape.typable f.pc) → (t : ℕ) (below : List Frame) (after : ℕ) → HasStep (executed program s t f below after instruction (fetched instruction f)) }
{}

/// An instruction of a method that is no call, with operands that a linked program gives it, is one that the machine knows, with the
/// effect that typing gives it, unless that is wrong or asks for what no place has.
pub fn instructions_have_effects()
    ensures { (program : Program) (m : ℕ) (method : Method) → method_at program m ≡ Some method → (bytes : List ℕ) (pc : ℕ) (insn : Insn) (table : List ℕ) → IsInsn pc insn table
        → IsSoundInsn program m insn → is_call insn ≡ false → (effect_of program m method insn).wrong ≡ false → asks_nothing (effect_of program m method insn).pops ≡ false
        → IsInstructionWith program (instruction_of program m bytes pc insn) (effect_of program m method insn) }
{}

/// In a typed state a thread has a next step: where its top frame is in a typed method whose code has sound operands, and doesn't
/// stand at a call; and where an exception is on its way.
pub fn typed_threads_step()
    ensures instructions { (program : Program) (labels : Labels) (inputs : List SourceInput) → HasSoundHierarchy program → (s : State) → IsTypedState program s
        → (t : ℕ) (thread : Thread) (f : Frame) (below : List Frame) → slice_get s.threads t ≡ Some thread → thread.pending ≡ None → thread.frames ≡ f ∷ below
        → IsTypedMethod program f.method
        → ((code : Code) → code_at program f.method ≡ Some code → HasSoundCode program f.method code)
        → ((code : Code) (insn : Insn) (next : ℕ) → code_at program f.method ≡ Some code → decoded code.bytes f.pc ≡ Ok (insn, next) → is_call insn ≡ false)
        → HasStep (step program labels inputs s t) }
    ensures exceptions { (program : Program) (labels : Labels) (inputs : List SourceInput) (s : State) (t : ℕ) (thread : Thread) (f : Frame) (below : List Frame) (a : ℕ)
        → slice_get s.threads t ≡ Some thread → thread.pending ≡ Some a → thread.frames ≡ f ∷ below → HasStep (step program labels inputs s t) }
{}

/// A place of ints holds no reference, one of null holds none either, and one of references no int; a reference leads to an object
/// that its place may hold.
pub fn kinds_tell_values_apart()
    ensures ints { (program : Program) (heap : List HeapObject) (a : ℕ) → HasKind program heap Int (ref a) → ⊥ }
    ensures nulls { (program : Program) (heap : List HeapObject) (a : ℕ) → HasKind program heap Null (ref a) → ⊥ }
    ensures references { (program : Program) (heap : List HeapObject) (type : TypeRef) (z : ℤ) → HasKind program heap (Ref type) (int z) → ⊥ }
    ensures objects { (program : Program) (heap : List HeapObject) (type : TypeRef) (a : ℕ) (o : HeapObject) → HasKind program heap (Ref type) (ref a) → slice_get heap a ≡ Some o → takes_type program (type_of o.info) type ≡ true }
{}

/// The first states of the two worked programs are typed.
pub fn first_states_are_typed()
    ensures dividing { IsTypedState dividing_program (start dividing_program (shows_at 0 1)) }
    ensures starting { IsTypedState starting_program (start starting_program (shows_at 1 3)) }
{}
