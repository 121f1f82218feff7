//! Values of the machine, and what stands at an address.
ghost use Rattle.std.specs.Prelude.{◌≡◌, ◌<◌, ◌^◌, pos, int_lt, unsigned_abs, if◌then◌else◌, Some, None};

use jo_ids::ClassId;
use jo_text::FieldDesc;
use std::marker::Model;

/// The number of an object or array on the heap.
pub type Address = u32;

/// What a local, a place of the stack or a cell holds.
#[derive(Clone, Copy, PartialEq, Eq)]
pub enum Value {
    Int(i32),
    Null,
    Ref(Address),
}

/// The length of an array, which fits an int.
#[derive(Clone, Copy, PartialEq, Eq)]
pub struct Length {
    count: u32,
}

impl Model for Length {
    ghost use Rattle.std.specs.Prelude.{ℕ, ◌<◌, ◌^◌};

    ghost Value = { ℕ };

    ghost view = { λ l. l.count };

    ghost invariant = { λ l. l.count < 2 ^ 31 };

    ghost inverse = { λ n. record { count = n } };
}

impl Length {
    /// The length that an int is. `None` for one below 0.
    pub fn of(count: i32) -> Option<Length>
        ensures { result ≡ (if int_lt count (pos 0) then None else Some (unsigned_abs count)) }
    {
        if count < 0 {
            None
        } else {
            Some(Length {
                count: count.unsigned_abs(),
            })
        }
    }

    pub fn count(self) -> u32
        ensures is { result ≡ self }
        ensures short { self < 2 ^ 31 }
    {
        self.count
    }

    pub fn as_int(self) -> i32
        ensures { result ≡ pos self }
    {
        self.count as i32
    }
}

/// What stands at an address: an object of a class, or an array of an element type with its length.
#[derive(Drop)]
pub enum Info {
    Object(ClassId),
    Array(FieldDesc, Length),
}

/// The same, with the element type lent.
#[derive(Clone, Copy)]
pub enum InfoView<'a> {
    Object(ClassId),
    Array(&'a FieldDesc, Length),
}
