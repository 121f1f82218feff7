//! What each instruction does to the kinds of places: what it asks of the stack and of locals, what it makes of them, and which kinds
//! have what is asked for (JVM Specification SE 8, 4.10).
#![tactic(auto)]

pub mod asks;
pub mod class_names;
pub mod effects;
pub mod forms;
pub mod kinds;
