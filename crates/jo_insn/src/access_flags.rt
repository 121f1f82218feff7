//! The flags of classes, fields and methods that mean something to a run (JVM Specification SE 8, 4.1, 4.5 and 4.6).
ghost use Rattle.std.specs.Prelude.{◌≡◌};
ghost use Rattle.jo_insn.specs.AccessFlags;

/// A field or a method of the class itself, and of no instance (4.5, 4.6).
pub const ACC_STATIC: u16 = 0x0008;

/// A method that holds a monitor while it runs (4.6).
pub const ACC_SYNCHRONIZED: u16 = 0x0020;

/// A method whose code isn't in the class file (4.6).
pub const ACC_NATIVE: u16 = 0x0100;

/// A class or a method that is left to subclasses (4.1, 4.6).
pub const ACC_ABSTRACT: u16 = 0x0400;

/// Whether the flag is set.
pub fn has_flag(flag: u16, flags: u16) -> bool
    ensures { result ≡ AccessFlags.has_flag flag flags }
{
    flags & flag != 0
}

/// The constants have the numbers of the definitions.
pub fn flags_have_numbers()
    ensures static_number { ACC_STATIC ≡ AccessFlags.static_flag }
    ensures synchronized_number { ACC_SYNCHRONIZED ≡ AccessFlags.synchronized_flag }
    ensures native_number { ACC_NATIVE ≡ AccessFlags.native_flag }
    ensures abstract_number { ACC_ABSTRACT ≡ AccessFlags.abstract_flag }
{}
