//! What depends on what in a program: the definitions, and the types that they speak of.
#![tactic(auto)]

pub mod facts;
pub mod flow;
pub mod flows;
pub mod laws;
pub mod searches;
