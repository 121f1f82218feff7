//! Laws of linked programs: what linking gives to the laws of typed steps.
#![tactic(auto)]

pub mod laws;
