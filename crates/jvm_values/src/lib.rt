//! The values of the machine, arithmetic on its ints, its heap, the types of what stands there, and its
//! instructions with what they name looked up.
#![tactic(auto)]

mod arithmetic;
mod heap;
mod resolved;
mod types;
mod values;

pub use arithmetic::{int_op, int_test, kept_int, narrow, negated};
pub use heap::{Heap, default_value};
pub use resolved::{Case, Instruction, Resolved};
pub use types::{is_of_array, is_of_class, is_of_type};
pub use values::{Address, Info, InfoView, Length, Value};
