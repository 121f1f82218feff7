//! Laws of the definitions. Each function is empty: what it ensures is the law.
ghost use Rattle.std.specs.Prelude.{◌≡◌, ℕ, suc, false, pos, List, [], ◌∷◌, replicate, true, Some, None, slice_get, map, codes};
ghost use Rattle.std.specs.List.{Contains, flat_map};
ghost use Rattle.std.specs.Option.{option_or};
ghost use Rattle.jo_prog.specs.Constants.{texts_of, string_constants, string_address};
ghost use Rattle.jo_ids.specs.Closure.{Closure};
ghost use Rattle.jo_prog.specs.Hierarchy.{superclass_of, interfaces_of, parents_of, Subtype, HasNoCycle, is_subtype, supertypes, superclasses, superinterfaces, own_method, own_field, own_instance_method, method_order, resolve_method, resolve_field, search_from};
ghost use Rattle.jo_prog.specs.Labels.{flows_by};
ghost use Rattle.jo_prog.specs.Machine.{string_object, start};
ghost use Rattle.jo_prog.specs.Runs.{run, seen};
ghost use Rattle.jo_prog.specs.PreludeClasses.{object_name, object_number, string_name, string_class, thread_number, prelude_names};
ghost use Rattle.jo_prog.specs.Sites.{causes, class_raised, name_raised};
ghost use Rattle.jo_prog.specs.declared.sites.Cause.{Cause};
ghost use Rattle.jo_prog.specs.Types.{array_of, array_fits, base_fits, is_object};
ghost use Rattle.jo_text.specs.declared.descriptors.Base.{Base};
ghost use Rattle.jo_prog.specs.Walks.{first_found, IsFirst};
ghost use Rattle.jo_prog.specs.Worked.{worked_program, worked_labels, worked_inputs};
ghost use Rattle.jo_prog.specs.declared.labels.Labels.{Labels};
ghost use Rattle.jo_prog.specs.declared.program.Program.{Program};
ghost use Rattle.jo_prog.specs.declared.runs.Event.TheVariants.{Out};

/// The flow of labels is the reflexive and transitive closure of the policy's pairs.
pub fn flows_by_is_closure()
    ensures along { (pairs : List (ℕ × ℕ)) (a b : ℕ) → flows_by pairs a b ≡ true → Closure pairs a b }
    ensures every { (pairs : List (ℕ × ℕ)) (a b : ℕ) → Closure pairs a b → flows_by pairs a b ≡ true }
{}

/// String constants: each text that the program names has an address, where an object of java/lang/String stands at the start,
/// and no other text has that address.
pub fn strings_have_objects()
    ensures each { (program : Program) (k : ℕ) (text : List ℕ) → slice_get (texts_of program) k ≡ Some text → (address : ℕ) × (string_address program text ≡ Some address) }
    ensures text { (program : Program) (text : List ℕ) (address : ℕ) → string_address program text ≡ Some address → slice_get (string_constants program) address ≡ Some text }
    ensures one { (program : Program) (text : List ℕ) (address : ℕ) → slice_get (string_constants program) address ≡ Some text → string_address program text ≡ Some address }
    ensures object { (program : Program) (labels : Labels) (text : List ℕ) (address : ℕ) → string_address program text ≡ Some address → slice_get (start program labels).heap address ≡ Some string_object }
{}

/// A run computes: the worked program shows its low observer one more than what `get` gives, and ends in nine steps.
pub fn worked_run()
    ensures shown { seen worked_labels 0 (run worked_program worked_labels (worked_inputs (pos 5) (pos 7)) (replicate 9 0)).events ≡ Out 2 (pos 6) ∷ [] }
    ensures ended { (run worked_program worked_labels (worked_inputs (pos 5) (pos 7)) (replicate 9 0)).ended ≡ true }
{}

/// A class is a subtype of another exactly where superclasses and interfaces lead to it.
pub fn subtype_is_path()
    ensures along { (program : Program) (a b : ℕ) → is_subtype program a b ≡ true → Subtype program a b }
    ensures every { (program : Program) → HasNoCycle program → (a b : ℕ) → Subtype program a b
        → is_subtype program a b ≡ true }
{}

/// The orders in which members are looked for follow their rules, with no bound on their lengths, where no class is above itself.
pub fn search_orders()
    ensures superclasses { (program : Program) → HasNoCycle program → (c : ℕ)
        → superclasses program c ≡ c ∷ flat_map (superclasses program) (superclass_of program c) }
    ensures superinterfaces { (program : Program) → HasNoCycle program → (c : ℕ)
        → superinterfaces program c ≡ flat_map (λ i. i ∷ superinterfaces program i) (interfaces_of program c) }
    ensures supertypes { (program : Program) → HasNoCycle program → (c : ℕ)
        → supertypes program c ≡ c ∷ flat_map (supertypes program) (parents_of program c) }
    ensures field { (program : Program) → HasNoCycle program → (c : ℕ) (name desc : List ℕ)
        → resolve_field program c name desc
        ≡ option_or (own_field program name desc c) (first_found (λ k. resolve_field program k name desc) (parents_of program c)) }
{}

/// What is resolved or selected is the first in its order; nothing is, only where no class of the order has one.
pub fn first_members()
    ensures method { (program : Program) (c m : ℕ) (name desc : List ℕ) → resolve_method program c name desc ≡ Some m
        → IsFirst (own_method program name desc) (method_order program c) m }
    ensures no_method { (program : Program) (c k : ℕ) (name desc : List ℕ) → resolve_method program c name desc ≡ None
        → Contains (method_order program c) k → own_method program name desc k ≡ None }
    ensures field { (program : Program) (c f : ℕ) (name desc : List ℕ) → resolve_field program c name desc ≡ Some f
        → IsFirst (own_field program name desc) (supertypes program c) f }
    ensures no_field { (program : Program) (c k : ℕ) (name desc : List ℕ) → resolve_field program c name desc ≡ None
        → Contains (supertypes program c) k → own_field program name desc k ≡ None }
    ensures instance { (program : Program) (c m : ℕ) (name desc : List ℕ) → search_from program c name desc ≡ Some m
        → IsFirst (own_instance_method program name desc) (superclasses program c) m }
    ensures no_instance { (program : Program) (c k : ℕ) (name desc : List ℕ) → search_from program c name desc ≡ None
        → Contains (superclasses program c) k → own_instance_method program name desc k ≡ None }
{}

/// An array is a subtype of another exactly where its element type is one of the other's: both may be arrays again, or of the
/// two bases one is left under no more dimensions.
pub fn arrays_fit_by_elements()
    ensures elements { (program : Program) (a b : Base) (m n : ℕ)
        → array_fits program (array_of (suc m) a) (array_of (suc n) b) ≡ array_fits program (array_of m a) (array_of n b) }
    ensures bases { (program : Program) (a b : Base) → array_fits program (array_of 0 a) (array_of 0 b) ≡ base_fits program a b }
    ensures array { (program : Program) (a b : Base) (m : ℕ) → array_fits program (array_of (suc m) a) (array_of 0 b) ≡ is_object b }
    ensures no_array { (program : Program) (a b : Base) (n : ℕ) → array_fits program (array_of 0 a) (array_of (suc n) b) ≡ false }
{}

/// The numbers of the prelude's classes are their places among its names, and the causes stand in the order of these numbers.
pub fn prelude_numbers()
    ensures raised { (cause : Cause) → slice_get prelude_names (class_raised cause) ≡ Some (name_raised cause) }
    ensures object { slice_get prelude_names object_number ≡ Some object_name }
    ensures string { slice_get prelude_names string_class ≡ Some string_name }
    ensures thread { slice_get prelude_names thread_number ≡ Some (codes "java/lang/Thread") }
    ensures order { map class_raised causes ≡ 8 ∷ 9 ∷ 10 ∷ 12 ∷ 13 ∷ 18 ∷ 19 ∷ 22 ∷ [] }
{}
