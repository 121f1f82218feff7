//! Instructions (JVM Specification SE 8, 6.5).
pub use std::alloc::AllocError as Memory;

/// An instruction as the class file spells it. `op` is its opcode, `index` a local's number or a pool index, and `by` a
/// step or the distance of a jump.
#[derive(Clone, Copy)]
pub enum Insn {
    Plain(u8),
    Local {
        op: u8,
        index: u16,
        wide: bool,
    },
    Iinc {
        index: u16,
        by: i16,
        wide: bool,
    },
    Push {
        op: u8,
        value: i32,
    },
    Pooled {
        op: u8,
        index: u16,
    },
    /// `newarray` of that kind.
    Array(u8),
    Jump {
        op: u8,
        by: i32,
    },
    /// `at` is the place of the offsets in the code, and `other` the default's.
    TableSwitch {
        other: i32,
        low: i32,
        high: i32,
        at: u32,
    },
    /// `at` is the place of the pairs in the code, and `other` the default's.
    LookupSwitch {
        other: i32,
        pairs: u32,
        at: u32,
    },
}

/// Why no instruction stands at a pc.
#[derive(Clone, Copy)]
pub enum InsnFault {
    /// The code ends before the instruction does.
    Cut,
    /// The number is past 201, the last opcode of an instruction.
    Unknown(u8),
    /// The profile leaves this opcode out, or what this opcode asks for.
    Outside(u8),
    /// A switch or an array kind that can't be.
    Malformed,
}
