//! Why class files make no program.
ghost use Rattle.std.specs.Prelude.{◌≡◌};

use jo_ids::ClassId;
use jo_text::Name;
use std::alloc::AllocError;

/// The kinds of faults, in the order in which they are told.
#[derive(Clone, Copy, PartialEq, Eq)]
pub enum LinkCode {
    /// The class has the name of an earlier one.
    TwiceDefined,
    /// It needs a class that isn't there.
    MissingClass,
    /// It is above itself, or a superclass or an interface stands in the place of the other.
    CyclicSuper,
    /// An instruction names a member that it can't take.
    MissingMember,
    /// A call would find no body, or an object's class can have none.
    NotImplemented,
    /// An interface has code or a field of its instances.
    InterfaceBody,
    /// It has a class initializer.
    StaticInit,
    Memory,
}

/// The first class with the first kind of fault, and its name. Where memory is wanting the class is 0 and the name empty.
#[derive(Drop)]
pub struct LinkFault {
    pub code: LinkCode,
    pub class: ClassId,
    pub name: Name,
}

/// The same without the name.
#[derive(Clone, Copy)]
pub struct LinkCause {
    pub code: LinkCode,
    pub class: ClassId,
}

impl From<AllocError> for LinkCause {
    ghost use Rattle.std.specs.Prelude.{◌≡◌};
    ghost use Rattle.linker.specs.declared.causes.LinkCode.TheVariants.{Memory};

    ghost from_gives = { λ _ cause. cause.code ≡ Memory };

    fn from(_e: AllocError) -> LinkCause {
        LinkCause {
            code: LinkCode::Memory,
            class: ClassId::of(0),
        }
    }
}
