//! The places that nodes of a flow graph read and write.

/// Where a value stands in a frame: a local, a height of the operand stack counted from 0, or the exception on its way.
#[derive(Clone, Copy, PartialEq, Eq, Default)]
pub enum Place {
    Local(u16),
    Stack(u16),
    #[default]
    Pending,
}
