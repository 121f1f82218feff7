//! What the lines of a text say.
use jo_ids::List;
use jo_text::Name;

/// A number in a text.
#[derive(Clone, Copy)]
pub enum Number {
    Of(i32),
    /// One of more than 32 bits, which fits no field.
    TooLarge,
}

/// What a field or an `ldc` names.
#[derive(Drop)]
pub enum Constant {
    Int(Number),
    Text(Name),
}

/// The limits of a method's code.
#[derive(Clone, Copy)]
pub struct Limits {
    pub stack: Number,
    pub locals: Number,
}

/// A member of a class.
#[derive(Drop)]
pub struct Member {
    pub class: Name,
    pub name: Name,
    pub desc: Name,
}

/// A key of a `lookupswitch` and its label.
#[derive(Drop)]
pub struct Case {
    pub key: Number,
    pub label: Name,
}

/// An instruction, with its operands as the text has them. `op` is its opcode.
#[derive(Drop)]
pub enum Operation {
    Plain(u8),
    Local {
        op: u8,
        index: Number,
        wide: bool,
    },
    Iinc {
        index: Number,
        by: Number,
        wide: bool,
    },
    Push {
        op: u8,
        value: Number,
    },
    Load {
        op: u8,
        constant: Constant,
    },
    OfClass {
        op: u8,
        class: Name,
    },
    OfMember {
        op: u8,
        member: Member,
    },
    NewArray(u8),
    Jump {
        op: u8,
        label: Name,
    },
    /// A label for each key from `low` on, and `other` for the default.
    TableSwitch {
        low: Number,
        other: Name,
        labels: List<Name>,
    },
    LookupSwitch {
        other: Name,
        cases: List<Case>,
    },
}

/// What a line says.
#[derive(Drop)]
pub enum Statement {
    Class {
        name: Name,
        superclass: Name,
        flags: u16,
    },
    Implements(Name),
    Field {
        name: Name,
        desc: Name,
        flags: u16,
        constant: Option<Constant>,
    },
    /// A method. With limits, its code follows.
    Method {
        name: Name,
        desc: Name,
        flags: u16,
        limits: Option<Limits>,
    },
    Label(Name),
    Instruction(Operation),
    /// A row of the exception table, which catches this class, or all.
    Catch {
        start: Name,
        end: Name,
        handler: Name,
        caught: Option<Name>,
    },
    End,
}
