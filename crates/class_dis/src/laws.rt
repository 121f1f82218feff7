//! Laws of listings.
ghost use Rattle.std.specs.Prelude.{◌<◌, ◌^◌, ℕ, List};
ghost use Rattle.std.specs.List.{AllByRecursion};
ghost use Rattle.class_pool.specs.ClassGrammar.{IsClass};
ghost use Rattle.class_pool.specs.declared.classes.ClassFile.{ClassFile};
ghost use Rattle.class_pool.specs.declared.classes.MethodInfo.{MethodInfo};
ghost use Rattle.class_dis.specs.Insns.{HasShortCodes, IsListedWhole};
ghost use Rattle.class_dis.specs.Names.{HasNames, HasOperands};

use class_pool::laws::what_is_read_fits;

/// What is read as a class can be listed.
pub fn what_is_read_is_short()
    ensures { (bytes : List ℕ) (c : ClassFile) → IsClass bytes c → HasShortCodes c }
{
    what_is_read_fits();
}

/// Of a class that was read the instructions of each method's code are listed from the first to the last, and no code is
/// empty.
pub fn instructions_are_all_listed()
    ensures { (bytes : List ℕ) (c : ClassFile) → AllByRecursion (λ byte. byte < 2 ^ 8) bytes → IsClass bytes c → AllByRecursion (λ (method : MethodInfo). IsListedWhole method.code) c.methods }
{}

/// The names of the lines of a class that was read, and of those of its members and rows, are in its pool.
pub fn names_are_there()
    ensures { (bytes : List ℕ) (c : ClassFile) → IsClass bytes c → HasNames c }
{}

/// The entries that the listed instructions of a class that was read name are in its pool, with the names in them.
pub fn operands_are_there()
    ensures { (bytes : List ℕ) (c : ClassFile) → AllByRecursion (λ byte. byte < 2 ^ 8) bytes → IsClass bytes c → AllByRecursion (λ (method : MethodInfo). HasOperands c.pool method.code) c.methods }
{}
