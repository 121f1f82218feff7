//! Laws of the definitions. Each function is empty: what it ensures is the law.
ghost use Rattle.std.specs.Prelude.{◌≡◌, List, ◌∷◌, [], true, false, codes, Some};
ghost use Rattle.std.specs.List.{list_any};
ghost use Rattle.jo_prog.specs.PreludeClasses.{prelude_names};
ghost use Rattle.prelude.specs.Classes.{prelude_classes};
ghost use Rattle.class_pool.specs.declared.classes.ClassFile.{ClassFile};
ghost use Rattle.linker.specs.declared.causes.LinkFault.{LinkFault};
ghost use Rattle.linker.specs.Linking.{linked_classes};
ghost use Rattle.linker.specs.LinkOrder.{HasNoFault, IsLinkFault};
ghost use Rattle.linker.specs.LinkFaults.{is_known, has_interface_body, has_static_init};
ghost use Rattle.linker.specs.NeededClasses.{names_there, is_type_there, lacks_class};

/// Worked descriptors: the names in them, and those of arrays, are those between `L` and `;`.
pub fn worked_descriptors()
    ensures all { names_there (is_known (codes "p/L" ∷ codes "B" ∷ [])) (codes "([Lp/L;IZ)LB;") ≡ true }
    ensures first { names_there (is_known (codes "B" ∷ [])) (codes "([Lp/L;IZ)LB;") ≡ false }
    ensures last { names_there (is_known (codes "p/L" ∷ [])) (codes "([Lp/L;IZ)LB;") ≡ false }
    ensures none { names_there (is_known []) (codes "([[IZ)V") ≡ true }
    ensures class { is_type_there (is_known (codes "L" ∷ [])) (Some (codes "L")) ≡ true }
    ensures array { is_type_there (is_known (codes "L" ∷ [])) (Some (codes "[[LA;")) ≡ false }
{}

/// The classes of the prelude name classes of the prelude alone, no interface of them has code or fields of instances, and none
/// has a class initializer.
pub fn prelude_has_no_fault()
    ensures closed { list_any (lacks_class prelude_names) prelude_classes ≡ false }
    ensures bodies { list_any has_interface_body prelude_classes ≡ false }
    ensures inits { list_any has_static_init prelude_classes ≡ false }
{}

/// Of some files at most one fault is told, and none where no class has a fault.
pub fn one_fault()
    ensures one { (files : List ClassFile) (a b : LinkFault) → IsLinkFault files a → IsLinkFault files b → a ≡ b }
    ensures none { (files : List ClassFile) (fault : LinkFault) → HasNoFault (linked_classes files) → IsLinkFault files fault → ⊥ }
{}
