//! The accesses of a dependence graph and its edges from what writes a cell to what reads it.
#![tactic(auto)]

pub mod accesses;
mod additions;
pub mod cell_edges;
pub mod flow_sets;
mod instances;
mod instructions;
mod nodes;
mod objects;
mod starts;
mod uses;
