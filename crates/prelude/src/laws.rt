//! Laws of the definitions. Each function is empty but for the laws that it rests on: what it ensures is the law.
ghost use Rattle.std.specs.Prelude.{◌≡◌, true, map, Some};
ghost use Rattle.std.specs.List.{AllByRecursion};
ghost use Rattle.class_pool.specs.Fitting.{FitsClass};
ghost use Rattle.class_pool.specs.ClassGrammar.{IsClass};
ghost use Rattle.class_write.specs.Spelling.{spelled_class};
ghost use Rattle.class_asm.specs.Assembly.{assembled};
ghost use Rattle.jo_prog.specs.PreludeClasses.{prelude_names};
ghost use Rattle.prelude.specs.Texts.{texts};
ghost use Rattle.prelude.specs.Classes.{is_class, name_in, prelude_classes, file_classes};

use class_asm::laws::assembled_fits;

/// Each text says a class.
pub fn texts_are_classes()
    ensures { AllByRecursion (λ text. is_class (assembled text) ≡ true) texts }
{}

/// The classes have the names of the prelude's classes, in their order.
pub fn classes_have_names()
    ensures { map name_in prelude_classes ≡ map Some prelude_names }
{}

/// Each class of the prelude fits the format, so that it can be written.
pub fn classes_fit()
    ensures { AllByRecursion FitsClass prelude_classes }
{
    assembled_fits();
}

/// Each class that a class file can hold is, by the grammar of class files, what its canonical bytes say.
pub fn classes_are_read()
    ensures { AllByRecursion (λ class. IsClass (spelled_class class) class) file_classes }
{}
