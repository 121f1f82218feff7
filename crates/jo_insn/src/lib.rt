//! The instructions of the Java Virtual Machine that the profile has (JVM Specification SE 8, chapter 6): the tables of
//! opcodes and of array kinds, how instructions are read from code and written, and where they jump; and the access flags.
//!
//! `laws` has what holds of the definitions: what is read is spelled so, and what is spelled so is read.
#![tactic(auto)]

mod access_flags;
mod array_kinds;
mod decoder;
mod encoder;
mod instructions;
mod jumps;
pub mod laws;
mod marks;
mod opcodes;

pub use access_flags::{
    ACC_ABSTRACT, ACC_NATIVE, ACC_STATIC, ACC_SYNCHRONIZED, flags_have_numbers, has_flag,
};
pub use array_kinds::{kind_named, name_of_kind};
pub use decoder::{behind, decode};
pub use encoder::encode;
pub use instructions::{Insn, InsnFault, Memory};
pub use jumps::{Placed, targets_of};
pub use marks::{PcMarks, starts_of};
pub use opcodes::{Operands, name_of, opcode_named, operands_of};
