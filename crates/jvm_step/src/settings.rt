//! What a run looks up and never changes.

use hierarchy::Hierarchy;
use jo_prog::labels::Labels;
use jo_prog::program::Program;
use jo_prog::runs::SourceInput;
use resolved_insns::{Instructions, Strings};

/// The program with its hierarchy, its string constants and its instructions looked up, the policy and the ints of the sources.
#[derive(Clone, Copy)]
pub struct Setting<'p> {
    pub program: &'p Program,
    pub hierarchy: &'p Hierarchy,
    pub labels: &'p Labels,
    pub inputs: &'p [SourceInput],
    pub strings: &'p Strings,
    pub instructions: &'p Instructions,
}
