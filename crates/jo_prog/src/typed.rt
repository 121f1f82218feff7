//! What typing a method answers: the height of the stack at each pc that a typing path reaches, or the first fault.
ghost use Rattle.std.specs.Prelude.{◌≡◌, slice_index_or, None};

use jo_ids::{Arena, Methods};
use std::alloc::AllocError;
use std::marker::Model;

/// The height of the stack at each pc of a method, which contracts see as a list.
#[derive(Drop)]
pub struct Typed {
    heights: Vec<Option<u16>>,
}

impl Model for Typed {
    ghost use Rattle.std.specs.Prelude.{List as Items, Option, ℕ};

    ghost Value = { Items (Option ℕ) };

    ghost view = { λ t. t.heights.items };
}

/// What `type_method` answered for each method of a program, under its number.
pub type Typings = Arena<Methods, Typed>;

/// Which fault a typing path meets.
#[derive(Clone, Copy, PartialEq, Eq, Debug)]
pub enum TypeCode {
    /// The instruction pops more than is there.
    Underflow,
    /// After the instruction the stack is higher than its bound.
    Overflow,
    /// Another path arrived first, with another height.
    HeightDiffers,
    /// An operand, a returned value, a thrown value or a catch class isn't of the kind that is needed.
    WrongKind,
    /// The code may go on where none stands.
    FallsOff,
    /// The method has fewer locals.
    LocalRange,
    Memory,
}

/// The least pc at which a typing path meets a fault, and the first fault there. The pc is 0 where memory was wanting.
#[derive(Clone, Copy, PartialEq, Eq, Debug)]
pub struct TypeFault {
    pub code: TypeCode,
    pub pc: u32,
}

impl From<AllocError> for TypeFault {
    ghost use Rattle.std.specs.Prelude.{◌≡◌};
    ghost use Rattle.jo_prog.specs.declared.typed.TypeCode.TheVariants.{Memory};

    ghost from_gives = { λ _ e. e.code ≡ Memory };

    fn from(_e: AllocError) -> TypeFault {
        TypeFault {
            code: TypeCode::Memory,
            pc: 0,
        }
    }
}

impl Typed {
    /// Takes the height at each pc, or none.
    pub fn of(heights: Vec<Option<u16>>) -> Typed
        ensures { result ≡ heights.items }
    {
        Typed { heights }
    }

    /// The height at that pc. `None` where no typing path arrives.
    pub fn height(&self, pc: u32) -> Option<u16>
        ensures { result ≡ slice_index_or self.now pc None }
    {
        self.heights.get(pc as usize).copied().flatten()
    }
}
