//! Tests of the layers below the commands on the worked class. Expected labels, texts and events are written by hand.
#![tactic(auto)]

pub mod given;
#[cfg(test)]
mod layers;
