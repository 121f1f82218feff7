//! The dependence graph of a program by facts: its nodes, its edges and its flow edges, rule by rule.
#![tactic(auto)]

pub mod flow_links;
pub mod growing;
pub mod instance_nodes;
pub mod target_links;
