//! Texts: names and descriptors of class files (JVM Specification SE 8, 4.2 and 4.3), modified UTF-8 (4.4.7), and the
//! lines, escapes, quoted texts and numbers of this project's own texts.
//!
//! `laws` has what holds of the grammars themselves.
#![tactic(auto)]

mod descriptors;
mod escapes;
pub mod laws;
mod lines;
mod mutf8;
mod numbers;
mod texts;

pub use descriptors::{
    Base, FieldDesc, MethodDesc, Params, is_class_name, is_class_or_array, is_field_desc,
    is_member_name, is_method_desc, read_field_desc, read_method_desc,
};
pub use escapes::{escape, push_escaped, push_quoted, unescape, unquote};
pub use lines::{ListFault, split_lines};
pub use mutf8::{check_mutf8, is_mutf8};
pub use numbers::read_number;
pub use texts::{DescFault, Memory, Name};
