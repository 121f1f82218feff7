//! What is known of a method.

use crate::use_tables::UseTable;
use dependence::flows::Flow;
use hierarchy::Hierarchy;
use jo_ids::MethodId;
use jo_prog::program::Program;
use jo_prog::typed::Typed;

/// A method of a program: the heights that typing gives, its wide graph, and the uses of this by their nodes.
#[derive(Clone, Copy)]
pub struct MethodView<'a> {
    pub program: &'a Program,
    pub hierarchy: &'a Hierarchy,
    pub method: MethodId,
    pub typed: &'a Typed,
    pub wide: &'a Flow,
    pub uses: &'a UseTable,
}
