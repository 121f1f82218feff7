//! Laws of linked programs. Each function is empty: what it ensures is the law.
ghost use Rattle.std.specs.Prelude.{◌≡◌, ℕ, ◌<◌, ◌^◌, true, false, List, Some, Ok, Contains};
ghost use Rattle.std.specs.List.{AllByRecursion};
ghost use Rattle.jo_prog.specs.declared.labels.Labels.{Labels};
ghost use Rattle.jo_prog.specs.declared.program.Program.{Program};
ghost use Rattle.jo_prog.specs.declared.program.Code.{Code};
ghost use Rattle.jo_prog.specs.declared.program.Method.{Method};
ghost use Rattle.jo_insn.specs.Instructions.{decoded};
ghost use Rattle.jo_insn.specs.declared.instructions.Insn.{Insn};
ghost use Rattle.jo_prog.specs.Sites.{insns_in};
ghost use Rattle.jo_prog.specs.Program.{class_at, method_at};
ghost use Rattle.jo_prog.specs.declared.program.Class.{Class};
ghost use Rattle.jo_prog.specs.declared.program.TypeRef.TheVariants.{Class as OfClass};
ghost use Rattle.jo_prog.specs.Shapes.{is_interface};
ghost use Rattle.jo_prog.specs.Machine.{State, Stepped, start};
ghost use Rattle.machine.specs.Runs.{enabled};
ghost use Rattle.machine.specs.Steps.{step};
ghost use Rattle.linked_laws.specs.RunStates.{IsStateOfRun};
ghost use Rattle.jo_prog.specs.PlainCode.{IsEntry, IsWellLabelled};
ghost use Rattle.class_pool.specs.declared.classes.ClassFile.{ClassFile};
ghost use Rattle.class_pool.specs.ClassGrammar.{IsClass};
ghost use Rattle.linker.specs.Linking.{linked_classes, program_of};
ghost use Rattle.linker.specs.LinkOrder.{HasNoFault, HasNoProgramFault};
ghost use Rattle.step_laws.specs.Premises.{HasSoundHierarchy};
ghost use Rattle.step_laws.specs.Tables.{IsReached, HasSoundCode};
ghost use Rattle.step_laws.specs.TypedStates.{IsTypedState};
ghost use Rattle.kept_laws.specs.Going.{HasRaisedClasses};
ghost use Rattle.linked_laws.specs.Codes.{HasSoundPools, HasSoundMembers, HasSoundInsns, HasWholeInsns};
ghost use Rattle.linked_laws.specs.Files.{IsSoundFile, AreSoundFiles};
ghost use Rattle.hierarchy.specs.Hierarchies.{HasItsParents};
ghost use Rattle.program_faults.specs.SuperFaults.{HasMisplacedParent};
ghost use Rattle.program_faults.specs.BodyFaults.{IsNotImplemented};
ghost use Rattle.program_faults.specs.MemberFaults.{LacksMember};
ghost use Rattle.program_faults.specs.UsedOperands.{methods_of};
ghost use Rattle.kept_laws.specs.Premises.{HasSoundCalls, HasSoundMethods, HasThreadMethods, AreNativesLabelled, AreInts, HasPremises};
ghost use Rattle.kept_laws.specs.Paths.{AreAllTyped};
ghost use Rattle.jo_prog.specs.declared.runs.SourceInput.{SourceInput};
ghost use Rattle.linked_laws.specs.Bodies.{HasSoundBodies, HasPreludeMethods};

use jo_prog::laws::strings_have_objects;
use kept_laws::laws::typed_steps_go_on;
use prelude::laws::classes_fit;

/// A class file that was read is sound.
pub fn classes_are_sound()
    ensures { (bytes : List ℕ) (file : ClassFile) → AllByRecursion (λ byte. byte < 2 ^ 8) bytes → IsClass bytes file → IsSoundFile file }
{}

/// Sound files without a fault make a program in which no class is above itself, java/lang/Object is above each, and above an
/// interface stand interfaces and java/lang/Object alone.
pub fn linked_hierarchies_are_sound()
    ensures { (files : List ClassFile) → AreSoundFiles files → HasNoFault (linked_classes files) → HasSoundHierarchy (program_of files) }
{}

/// In the program of files without a fault the exceptions that the machine itself raises are of classes below java/lang/Throwable,
/// which may have objects.
pub fn linked_programs_raise_throwables()
    ensures { (files : List ClassFile) → HasNoFault (linked_classes files) → HasRaisedClasses (program_of files) }
{}

/// The first state of such a program is typed, whatever its entry is.
pub fn first_states_of_linked_programs_are_typed()
    ensures { (files : List ClassFile) → AreSoundFiles files → HasNoFault (linked_classes files) → (labels : Labels) → IsEntry (program_of files) labels.entry → IsTypedState (program_of files) (start (program_of files) labels) }
{
    strings_have_objects();
}

/// Where the instructions of a method stand one behind another, typing's paths arrive at them alone.
pub fn typing_paths_stand_at_instructions()
    ensures { (program : Program) (m : ℕ) (method : Method) (code : Code) → method_at program m ≡ Some method → method.code ≡ Some code → HasWholeInsns code
        → (pc next : ℕ) (insn : Insn) → IsReached program m pc → decoded code.bytes pc ≡ Ok (insn, next) → Contains (insns_in code.bytes) (record { pc = pc; insn = insn; next = next }) }
{}

/// In a program without a fault, whose pools, members and instructions are as the grammar of class files and linking give them, the
/// operands of each method's instructions are sound.
pub fn code_without_faults_is_sound()
    ensures { (program : Program) → HasSoundHierarchy program → HasNoProgramFault program → HasSoundPools program → HasSoundMembers program
        → (m : ℕ) (method : Method) (code : Code) → method_at program m ≡ Some method → method.code ≡ Some code → HasSoundInsns program m code → HasSoundCode program m code }
{
    strings_have_objects();
}

/// In the program of files without a fault each class lists its methods, and interfaces have static fields alone.
pub fn linked_programs_have_sound_members()
    ensures { (files : List ClassFile) → HasNoFault (linked_classes files) → HasSoundMembers (program_of files) }
{}

/// In the program of sound files without a fault the classes are there that pools name, and members have types.
pub fn linked_programs_have_sound_pools()
    ensures { (files : List ClassFile) → AreSoundFiles files → HasNoFault (linked_classes files) → HasSoundPools (program_of files) }
{
    classes_fit();
}

/// The instructions of the program of sound files stand one behind another, and `new` names no array.
pub fn linked_code_is_whole()
    ensures { (files : List ClassFile) → AreSoundFiles files → (m : ℕ) (method : Method) (code : Code) → method_at (program_of files) m ≡ Some method
        → method.code ≡ Some code → HasSoundInsns (program_of files) m code }
{}

/// Where they have no fault, its code is sound.
pub fn linked_code_is_sound()
    ensures { (files : List ClassFile) → AreSoundFiles files → HasNoFault (linked_classes files) → (m : ℕ) (method : Method) (code : Code) → method_at (program_of files) m ≡ Some method
        → method.code ≡ Some code → HasSoundCode (program_of files) m code }
{
    linked_hierarchies_are_sound();
    linked_programs_have_sound_members();
    linked_programs_have_sound_pools();
    code_without_faults_is_sound();
    linked_code_is_whole();
}

/// In a program without a fault, whose methods have bodies as the grammar of class files and linking give them, and whose natives are
/// labelled, a class that may have objects selects what can be taken for each instance method.
pub fn methods_without_faults_are_sound()
    ensures { (program : Program) (labels : Labels) → HasSoundHierarchy program → HasItsParents program → ((c : ℕ) → HasMisplacedParent program c → ⊥) → ((c : ℕ) → IsNotImplemented program c → ⊥)
        → HasSoundBodies program → AreNativesLabelled program labels → HasSoundMethods program }
{}

/// In a program without a fault each call that typing reaches names a method that it can take.
pub fn calls_without_faults_are_sound()
    ensures { (program : Program) → ((c : ℕ) → LacksMember program c → ⊥) → ((c : ℕ) → IsNotImplemented program c → ⊥)
        → (m : ℕ) (method : Method) → method_at program m ≡ Some method → (code : Code) → method.code ≡ Some code → Contains (methods_of program method.class) m → HasSoundInsns program m code → HasSoundCalls program m code }
{}

/// Under labels that fit the program each native is labelled, and a class of threads has a method run with code.
pub fn natives_and_threads_are_sound()
    ensures natives { (program : Program) (labels : Labels) → IsWellLabelled program labels → HasPreludeMethods program → AreNativesLabelled program labels }
    ensures threads { (program : Program) (labels : Labels) → HasSoundHierarchy program → HasSoundBodies program → HasSoundMethods program → AreNativesLabelled program labels → HasPreludeMethods program → HasThreadMethods program }
{}

/// In the program of files without a fault a method that a class lists is of that class, and no method of an interface has code.
pub fn linked_methods_are_of_their_classes()
    ensures classes { (files : List ClassFile) (c m : ℕ) (class : Class) (method : Method) → class_at (program_of files) c ≡ Some class → Contains class.methods m → method_at (program_of files) m ≡ Some method → method.class ≡ c }
    ensures interfaces { (files : List ClassFile) → HasNoFault (linked_classes files) → (m : ℕ) (method : Method) (code : Code) → method_at (program_of files) m ≡ Some method → method.code ≡ Some code → is_interface (program_of files) (OfClass method.class) ≡ false }
{}

/// In the program of sound files without a fault methods have bodies as linking asks.
pub fn linked_programs_have_sound_bodies()
    ensures { (files : List ClassFile) → AreSoundFiles files → HasNoFault (linked_classes files) → HasSoundBodies (program_of files) }
{}

/// In the program of files without a fault no method of the prelude is native, and those of java/lang/Thread are of instances, run
/// among them.
pub fn linked_programs_have_prelude_methods()
    ensures { (files : List ClassFile) → HasNoFault (linked_classes files) → HasPreludeMethods (program_of files) }
{}

/// The program of sound files without a fault, whose methods are all typed, has the premises of typed steps, under labels that fit
/// it and inputs of ints.
pub fn linked_programs_have_premises()
    ensures { (files : List ClassFile) → AreSoundFiles files → HasNoFault (linked_classes files) → (labels : Labels) → IsWellLabelled (program_of files) labels → AreAllTyped (program_of files)
        → (inputs : List SourceInput) → AreInts inputs → HasPremises (program_of files) labels inputs }
{
    linked_hierarchies_are_sound();
    linked_programs_raise_throwables();
    linked_programs_have_sound_members();
    linked_code_is_whole();
    linked_code_is_sound();
    linked_programs_have_sound_bodies();
    linked_programs_have_prelude_methods();
    natives_and_threads_are_sound();
    methods_without_faults_are_sound();
    calls_without_faults_are_sound();
}

/// No step of such a program is stuck: each state that a run comes to is typed, and each thread that may step there has a next step.
pub fn no_linked_step_is_stuck()
    ensures typed { (files : List ClassFile) → AreSoundFiles files → HasNoFault (linked_classes files) → (labels : Labels) → IsWellLabelled (program_of files) labels → AreAllTyped (program_of files)
        → (inputs : List SourceInput) → AreInts inputs → (s : State) → IsStateOfRun (program_of files) labels inputs s → IsTypedState (program_of files) s }
    ensures steps { (files : List ClassFile) → AreSoundFiles files → HasNoFault (linked_classes files) → (labels : Labels) → IsWellLabelled (program_of files) labels → AreAllTyped (program_of files)
        → (inputs : List SourceInput) → AreInts inputs → (s : State) → IsStateOfRun (program_of files) labels inputs s → (t : ℕ) → Contains (enabled (program_of files) labels s) t
        → (next : Stepped) × (step (program_of files) labels inputs s t ≡ Some next) }
{
    linked_programs_have_premises();
    first_states_of_linked_programs_are_typed();
    typed_steps_go_on();
}
