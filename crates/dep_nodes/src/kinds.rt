//! Kinds of nodes and of dependence edges.

/// A node of a method. Numbers are pcs, then the target of a branch, a row of the exception table, or the place of an
/// argument or a parameter. The last five kinds stand in the dependence graph alone.
#[derive(Clone, Copy, PartialEq, Eq)]
pub enum NodeKind {
    Entry,
    Exit,
    Instr(u32),
    Call(u32),
    RetVal(u32),
    RetKind(u32),
    Throw(u32),
    Catch(u32),
    Poll(u32, u32),
    XPoll(u32, u32),
    Arg(u32, u32),
    Param(u32),
    Kind,
    Value,
    Thrown,
}

/// The words of dependence edges.
#[derive(Clone, Copy, PartialEq, Eq)]
pub enum EdgeKind {
    Data,
    Control,
    Out,
    Arg,
    Call,
    Ret,
    Heap,
    Fork,
}
