//! What a run of the program answers.
use class_asm::AsmFault;
use class_pool::ClassFault;
pub use jo_ids::LimitKind;
use jo_text::Name;

/// How a run ended.
#[derive(Drop)]
pub enum Status {
    /// It did what was asked, and the answer is yes.
    Done,
    /// It did what was asked, and the answer is no.
    Refused,
    /// The words are no command.
    Words,
    /// Something is wrong with the input.
    Input(InputFault),
    /// The input is too large.
    Limit(LimitKind),
    /// A read or a write failed.
    Outside(OutsideFault),
    /// Memory was wanting.
    Memory,
}

/// Why class files make no program together: kinds of faults of a class, in the order in which they are told.
#[derive(Clone, Copy, PartialEq, Eq, Debug)]
pub enum LinkKind {
    /// The class has the name of an earlier one.
    TwiceDefined,
    /// It needs a class that isn't there.
    MissingClass,
    /// It is above itself, or a superclass or an interface stands in the place of the other.
    CyclicSuper,
    /// An instruction names a member that it can't take.
    MissingMember,
    /// A call would find no body, or an object's class can have none.
    NotImplemented,
    /// An interface has code or a field of its instances.
    InterfaceBody,
    /// It has a class initializer.
    StaticInit,
}

/// Kinds of faults of typing, in the order in which they are told of one pc.
#[derive(Clone, Copy, PartialEq, Eq, Debug)]
pub enum TypingKind {
    /// The instruction pops more than is there.
    Underflow,
    /// After the instruction the stack is higher than its bound.
    Overflow,
    /// Two paths arrive with different heights of the stack.
    HeightDiffers,
    /// A place isn't of the kind that is needed.
    WrongKind,
    /// The code may go on where none stands.
    FallsOff,
    /// The method has fewer locals.
    LocalRange,
}

/// A fault of typing.
#[derive(Drop)]
pub struct TypingFault {
    pub kind: TypingKind,
    /// The method as it is spelled.
    pub method: Name,
    pub pc: u32,
}

/// Kinds of faults of a policy.
#[derive(Clone, Copy, PartialEq, Eq, Debug)]
pub enum PolicyKind {
    NotToml,
    /// The key is unknown or missing, or its value is of another kind.
    Key,
    UnknownLevel,
    /// The levels make no order.
    Order,
    /// No method of the files is spelled so.
    MissingMethod,
    /// The method isn't a static native of its label's descriptor.
    WrongShape,
    UnlabelledNative,
    TwiceLabelled,
    /// The release's `to` doesn't flow to its `from`.
    ReleaseUpward,
    /// There is a release, and the call at that pc may start a thread.
    ReleaseWithThreads,
    Entry,
}

/// Kinds of faults of a run file, in the order in which they are told.
#[derive(Clone, Copy, PartialEq, Eq, Debug)]
pub enum RunFileKind {
    NotToml,
    /// A key is unknown or missing, or its value is of another kind.
    Key,
    /// A key of the inputs is no source.
    Source,
    /// An integer isn't in its range.
    Range,
}

/// What is wrong with the input.
#[derive(Drop)]
pub enum InputFault {
    /// The files are in no form that is built.
    NotBuilt,
    /// The place of the first byte of the class list that no UTF-8 continues.
    ClassList(u32),
    /// The first fault of the class file with that number, counted from 0 in the order of the class list.
    Class(u32, ClassFault),
    /// The class files make no program, for the class with this name.
    Link(LinkKind, Name),
    /// The first fault of the method with the least number that has one.
    Typing(TypingFault),
    /// The first fault of the policy, and what it carries as it is printed: names, levels, methods and pcs, each behind
    /// a space.
    Policy(PolicyKind, Name),
    /// The first fault of the run file.
    RunFile(RunFileKind),
    /// The first fault of an assembly text.
    Asm(AsmFault),
}

/// What failed outside of the program.
#[derive(Clone, Copy, PartialEq, Eq, Debug)]
pub enum OutsideFault {
    /// The read with that number, counted from 0 in the order of the reads.
    File(u32),
    Output,
    Notes,
}

/// What refuses the files of a command.
#[derive(Drop)]
pub enum Refusal {
    Input(InputFault),
    Limit(LimitKind),
}

ghost use Rattle.std.specs.Prelude.{◌≡◌};
ghost use Rattle.joana_base.specs.Status.{code_of, status_for};

impl Status {
    /// The exit status of the process.
    pub fn code(&self) -> u8
        ensures { result ≡ code_of self.now }
    {
        match self {
            Status::Done => 0,
            Status::Refused => 1,
            Status::Words => 2,
            Status::Input(_) => 3,
            Status::Limit(_) => 4,
            Status::Outside(_) => 5,
            Status::Memory => 6,
        }
    }
}

impl Refusal {
    /// The status that says so.
    pub fn status(self) -> Status
        ensures { result ≡ status_for self }
    {
        match self {
            Refusal::Input(fault) => Status::Input(fault),
            Refusal::Limit(kind) => Status::Limit(kind),
        }
    }
}
