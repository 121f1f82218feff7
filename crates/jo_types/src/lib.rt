//! Types as values: copied, and read from descriptors.
#![tactic(auto)]

mod copies;
mod descriptors;

pub use copies::{copy_desc, copy_name, copy_type};
pub use descriptors::{field_type, method_type};
