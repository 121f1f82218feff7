//! The parts of a class file, the grammar that relates them to bytes, and its constant pool read and written (JVM
//! Specification SE 8, 4.1 to 4.7).
#![tactic(auto)]

mod classes;
mod entries;
mod faults;
pub mod items;
mod known;
pub mod laws;
mod reader;
mod references;
#[cfg(test)]
mod tests;
mod writer;

pub use classes::{ClassFile, CodeInfo, FieldInfo, MemberKind, MethodInfo, RowInfo};
pub use entries::{Pool, PoolEntry, class_name_at, desc_at, entry_at, utf8_at};
pub use faults::{ClassCode, ClassFault, Cut, Stop};
pub use known::{KnownPool, TextFacts, argument_words};
pub use reader::{read_pool, read_pool_from};
pub use writer::{add_entry, write_pool};
