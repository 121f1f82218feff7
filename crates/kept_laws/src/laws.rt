//! Laws of steps that keep states typed. Each function is empty: what it ensures is the law.
ghost use Rattle.std.specs.Prelude.{◌≡◌, ℕ, false, ◌==◌, ◌||◌, List, ◌∷◌, length, Contains, true, Option, Some, None, slice_get};
ghost use Rattle.jo_prog.specs.declared.labels.Labels.{Labels};
ghost use Rattle.jo_insn.specs.declared.jumps.Placed.{Placed};
ghost use Rattle.jo_prog.specs.declared.program.Code.{Code};
ghost use Rattle.jo_prog.specs.InsnTyping.{insn_at};
ghost use Rattle.jo_prog.specs.declared.program.Program.{Program};
ghost use Rattle.jo_prog.specs.declared.runs.SourceInput.{SourceInput};
ghost use Rattle.jo_prog.specs.Program.{method_at, code_at};
ghost use Rattle.jo_prog.specs.Machine.{Frame, Thread, HeapObject, State, popped};
ghost use Rattle.jo_prog.specs.InsnTyping.{throwable};
ghost use Rattle.jo_prog.specs.Values.{Value, ref};
ghost use mathlib.Core.List.{reverse};
ghost use Rattle.jo_prog.specs.TypingPaths.{Typable, Step, IsTypable, IsTypedMethod, TypingPath, TakesStep, HasHeightAt, arrives_at};
ghost use Rattle.jo_prog.specs.TypingPaths.{effect_at, leads_outside, successors_at};
ghost use Rattle.machine.specs.Instructions.{Instruction, calls, instruction_of, instruction_at, method_desc, result_of};
ghost use Rattle.machine.specs.Steps.{fetched, executed, called, step};
ghost use Rattle.step_laws.specs.TypedStates.{IsReady, AreWaiting, StandsAt, IsTypedState};
ghost use Rattle.step_laws.specs.Premises.{HasSoundHierarchy};
ghost use Rattle.step_laws.specs.Effects.{HasEffect};
ghost use Rattle.step_laws.specs.Tables.{HasSoundCode};
ghost use Rattle.kept_laws.specs.Going.{is_return, is_calling, LeadsOn, HasRaisedClasses};
ghost use Rattle.kept_laws.specs.Paths.{AreAllTyped, prolonged_by};
ghost use Rattle.typing_heights.specs.FirstPaths.{HasFirstPaths};
ghost use Rattle.kept_laws.specs.Kept.{HasTypedStep};
ghost use Rattle.kept_laws.specs.Premises.{HasPremises};
ghost use Rattle.kept_laws.specs.Calls.{ComesTo};
ghost use Rattle.jo_prog.specs.declared.program.TypeRef.{TypeRef};
ghost use Rattle.machine.specs.Runs.{enabled};

/// In a typed method each step that the code may take from the end of a typing path prolongs it.
pub fn typing_paths_go_on()
    ensures { (program : Program) (m : ℕ) → IsTypedMethod program m → HasFirstPaths program m → (t : Typable) → IsTypable program m t → (path : List Step) → TypingPath program t path → (row : Option ℕ) (to : ℕ) → TakesStep t.code (arrives_at path) row to → TypingPath program t (prolonged_by row to path) }
{}

/// A thread in which an exception is on its way has a next step, which leaves the state typed: at a handler with the exception alone on
/// the stack, or with its top frame dropped.
pub fn exceptions_keep_typing()
    ensures { (program : Program) (labels : Labels) (inputs : List SourceInput) (s : State) → IsTypedState program s → (t : ℕ) (thread : Thread) (f : Frame) (below : List Frame) (a : ℕ)
        → slice_get s.threads t ≡ Some thread → thread.pending ≡ Some a → thread.frames ≡ f ∷ below → IsTypedMethod program f.method → HasFirstPaths program f.method
        → HasTypedStep program (step program labels inputs s t) }
{}

/// An instruction that is no call and no return, at a frame that is ready in a typed method, has a next state, which is typed.
pub fn executed_instructions_keep_typing()
    ensures { (program : Program) → HasSoundHierarchy program → HasRaisedClasses program → (s : State) → IsTypedState program s → (t : ℕ) (thread : Thread) → slice_get s.threads t ≡ Some thread
        → (f : Frame) (below : List Frame) → IsTypedMethod program f.method → HasFirstPaths program f.method → (ready : IsReady program s.heap f) → AreWaiting program s.heap f.method below
        → (instruction : Instruction) (next : ℕ) → HasEffect program instruction (effect_at program ready.has_shape.typable f.pc) → LeadsOn ready.has_shape.typable.code f.pc next instruction
        → is_return instruction ≡ false → HasTypedStep program (executed program s t f below next instruction (fetched instruction f)) }
{}

/// Behind an instruction, and where it jumps, typing's paths go on, unless they lead out of the code.
pub fn instructions_lead_on()
    ensures { (program : Program) (m : ℕ) (code : Code) (placed : Placed) → insn_at code placed.pc ≡ Some placed → leads_outside code (successors_at code placed.pc) ≡ false
        → (instruction : Instruction) → instruction_of program m code.bytes placed.pc placed.insn ≡ Some instruction → LeadsOn code placed.pc placed.next instruction }
{}

/// A thread without an exception on its way, whose top frame stands at an instruction that is no call and no return, has a next step,
/// which leaves the state typed.
pub fn instructions_keep_typing()
    ensures { (program : Program) (labels : Labels) (inputs : List SourceInput) → HasSoundHierarchy program → HasRaisedClasses program → (s : State) → IsTypedState program s
        → (t : ℕ) (thread : Thread) (f : Frame) (below : List Frame) → slice_get s.threads t ≡ Some thread → thread.pending ≡ None → thread.frames ≡ f ∷ below
        → IsTypedMethod program f.method → HasFirstPaths program f.method → ((code : Code) → code_at program f.method ≡ Some code → HasSoundCode program f.method code)
        → (instruction : Instruction) (next : ℕ) → instruction_at program f.method f.pc ≡ Some (instruction, next) → is_calling instruction ≡ false → is_return instruction ≡ false
        → HasTypedStep program (step program labels inputs s t) }
{}

/// The same at a return: the frame below goes on behind its call with the result, and where there is none the thread ends.
pub fn returns_keep_typing()
    ensures { (program : Program) (labels : Labels) (inputs : List SourceInput) → HasSoundHierarchy program → AreAllTyped program → (s : State) → IsTypedState program s
        → (t : ℕ) (thread : Thread) (f : Frame) (below : List Frame) → slice_get s.threads t ≡ Some thread → thread.pending ≡ None → thread.frames ≡ f ∷ below
        → ((code : Code) → code_at program f.method ≡ Some code → HasSoundCode program f.method code)
        → (instruction : Instruction) (next : ℕ) → instruction_at program f.method f.pc ≡ Some (instruction, next) → is_return instruction ≡ true
        → HasTypedStep program (step program labels inputs s t) }
{}

/// A call in a typed state comes to something: a method with code begins with values of the kinds of its receiver and parameters, a thread
/// that wasn't started begins, a source, sink or release has its int, or the machine raises; the result is of the type that is named.
pub fn calls_come_to_something()
    ensures { (program : Program) (labels : Labels) (inputs : List SourceInput) → HasPremises program labels inputs → (s : State) → IsTypedState program s
        → (t : ℕ) (thread : Thread) (f : Frame) (below : List Frame) → slice_get s.threads t ≡ Some thread → thread.pending ≡ None → thread.frames ≡ f ∷ below
        → (op : ℕ) (owner : TypeRef) (named count next : ℕ) → instruction_at program f.method f.pc ≡ Some (calls op owner named count, next)
        → (values rest : List (Value ℕ)) → popped count f.stack ≡ Some (values, rest)
        → ComesTo program s (result_of (method_desc (method_at program named))) (called program labels s f.method op owner named values) }
{}

/// A thread whose top frame stands at a call has a next step, which leaves the state typed: of a method with code, which begins with its values while the frame waits; of a source, a sink or a release;
/// of `start` and `join`; and where the machine raises, as on a null receiver.
pub fn calls_keep_typing()
    ensures { (program : Program) (labels : Labels) (inputs : List SourceInput) → HasPremises program labels inputs → (s : State) → IsTypedState program s
        → (t : ℕ) (thread : Thread) (f : Frame) (below : List Frame) → slice_get s.threads t ≡ Some thread → thread.pending ≡ None → thread.frames ≡ f ∷ below
        → (op : ℕ) (owner : TypeRef) (named count next : ℕ) → instruction_at program f.method f.pc ≡ Some (calls op owner named count, next)
        → HasTypedStep program (step program labels inputs s t) }
{}

/// No typed step is stuck: in a typed state every thread that may step has a next state, which is typed.
pub fn typed_steps_go_on()
    ensures { (program : Program) (labels : Labels) (inputs : List SourceInput) → HasPremises program labels inputs → (s : State) → IsTypedState program s
        → (t : ℕ) → Contains (enabled program labels s) t → HasTypedStep program (step program labels inputs s t) }
{}

/// A receiver of invokevirtual (182) or invokespecial (183) that isn't null is of a class below the one that the call names.
pub fn receivers_are_of_named_types()
    ensures { (program : Program) (labels : Labels) (inputs : List SourceInput) → HasPremises program labels inputs → (s : State) → IsTypedState program s
        → (t : ℕ) (thread : Thread) (f : Frame) (below : List Frame) → slice_get s.threads t ≡ Some thread → thread.pending ≡ None → thread.frames ≡ f ∷ below
        → (op : ℕ) (owner : TypeRef) (named count next : ℕ) → instruction_at program f.method f.pc ≡ Some (calls op owner named count, next) → (op == 182 || op == 183) ≡ true
        → (values rest arguments : List (Value ℕ)) (a : ℕ) → popped count f.stack ≡ Some (values, rest) → reverse values ≡ ref a ∷ arguments → StandsAt program s.heap a owner }
{}

/// An exception that is on its way in a typed state is a Throwable.
pub fn thrown_objects_are_throwables()
    ensures { (program : Program) (s : State) → IsTypedState program s → (t : ℕ) (thread : Thread) (a : ℕ) → slice_get s.threads t ≡ Some thread → thread.pending ≡ Some a → StandsAt program s.heap a throwable }
{}

/// A typed method has one height at each pc, and a frame that goes on there has so many values on its stack.
pub fn heights_are_unique()
    ensures one { (program : Program) (m : ℕ) → IsTypedMethod program m → (pc h k : ℕ) → HasHeightAt program m pc h → HasHeightAt program m pc k → h ≡ k }
    ensures frames { (program : Program) (heap : List HeapObject) (f : Frame) → IsTypedMethod program f.method → IsReady program heap f → (height : ℕ) → HasHeightAt program f.method f.pc height → length f.stack ≡ height }
{}
