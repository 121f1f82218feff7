//! What is wrong with classes of a program as classes of it: above itself, without a member that they take, without a body.
#![tactic(auto)]

pub mod bodies;
pub mod member_faults;
pub mod supers;
pub mod uses;
