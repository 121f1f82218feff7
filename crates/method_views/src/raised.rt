//! What may be raised in an instance.

use jo_prog::sites::Cause;

/// A pc, and the cause of an exception that the instruction there may raise.
#[derive(Clone, Copy, PartialEq, Eq)]
pub struct Raised {
    pub pc: u32,
    pub cause: Cause,
}
