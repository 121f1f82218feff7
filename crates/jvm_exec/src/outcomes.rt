//! What comes of an instruction that is no call.
ghost use Rattle.std.specs.Prelude.{◌≡◌, ◌≤◌, take, [], ◌∷◌, Some};
ghost use Rattle.jo_prog.specs.Values.{int};
ghost use Rattle.machine.specs.Execution.{pushes, puts, jumps, raises, throws_at, allocates, returns, only, pushes_one, writes};
ghost use Rattle.jvm_values.specs.Values.{value_of, popped_values};
ghost use Rattle.jvm_exec.specs.Outcomes.{cell_of, written_of, effect_of, outcome_of};

use jo_ids::FieldId;
use jo_prog::sites::Cause;
use jvm_values::{Address, InfoView, Value};
use std::marker::Model;

/// A field of an object, an element of an array, or a static field.
#[derive(Clone, Copy)]
pub enum Cell {
    Field(Address, FieldId),
    Element(Address, u32),
    Static(FieldId),
}

/// A cell with its new value.
#[derive(Clone, Copy)]
pub struct Write {
    pub cell: Cell,
    pub value: Value,
}

/// The values that an instruction pushes, the top of the stack last; contracts see the top first.
#[derive(Drop)]
pub struct Pushed {
    values: [Value; 6],
    count: u8,
}

impl Model for Pushed {
    ghost use Rattle.std.specs.Prelude.{ℕ, List, ◌≤◌, take};
    ghost use Rattle.jo_prog.specs.Values as machine;

    ghost Value = { List (machine.Value ℕ) };

    ghost use Rattle.jvm_values.specs.Values.{popped_values};

    ghost view = { λ p. popped_values (take p.count p.values) };

    ghost invariant = { λ p. p.count ≤ 6 };
}

/// What an instruction does to the top frame.
#[derive(Drop)]
pub enum Effect<'i> {
    Pushes(Pushed),
    /// Sets a local.
    Puts(u16, Value),
    Jumps(u32),
    /// An exception that the machine makes.
    Raises(Cause),
    ThrowsAt(Address),
    /// Makes an object or array, and pushes it.
    Allocates(InfoView<'i>),
    Returns(Option<Value>),
}

/// The effect, and the one cell that is written.
#[derive(Drop)]
pub struct Outcome<'i> {
    pub effect: Effect<'i>,
    pub written: Option<Write>,
}

impl Pushed {
    /// The values, the top of the stack last.
    pub fn as_slice(&self) -> &[Value]
        ensures { popped_values result.now ≡ self.now }
    {
        &self.values[..self.count as usize]
    }

    pub(crate) fn none() -> Pushed
        ensures { result ≡ [] }
    {
        Pushed {
            values: [Value::Null; 6],
            count: 0,
        }
    }

    pub(crate) fn one(value: Value) -> Pushed
        ensures { result ≡ value_of value ∷ [] }
    {
        Pushed {
            values: [value; 6],
            count: 1,
        }
    }

    /// As many of the values as the count says.
    pub(crate) fn first(values: [Value; 6], count: u8) -> Pushed
        requires { count ≤ 6 }
        ensures { result ≡ popped_values (take count values) }
    {
        Pushed { values, count }
    }
}

impl<'i> Outcome<'i> {
    /// Nothing but an effect.
    pub(crate) fn only(effect: Effect<'i>) -> Outcome<'i>
        ensures { Some (outcome_of result) ≡ only (effect_of effect.entry) }
    {
        Outcome {
            effect,
            written: None,
        }
    }

    pub(crate) fn pushes_none() -> Outcome<'i>
        ensures { Some (outcome_of result) ≡ only (pushes []) }
    {
        Outcome::only(Effect::Pushes(Pushed::none()))
    }

    pub(crate) fn pushes_one(value: Value) -> Outcome<'i>
        ensures { Some (outcome_of result) ≡ pushes_one (value_of value) }
    {
        Outcome::only(Effect::Pushes(Pushed::one(value)))
    }

    pub(crate) fn pushes_int(z: i32) -> Outcome<'i>
        ensures { Some (outcome_of result) ≡ pushes_one (int z) }
    {
        Outcome::pushes_one(Value::Int(z))
    }

    pub(crate) fn raises(cause: Cause) -> Outcome<'i>
        ensures { Some (outcome_of result) ≡ only (raises cause) }
    {
        Outcome::only(Effect::Raises(cause))
    }

    pub(crate) fn writes(cell: Cell, value: Value) -> Outcome<'i>
        ensures { Some (outcome_of result) ≡ writes (cell_of cell) (value_of value) }
    {
        Outcome {
            effect: Effect::Pushes(Pushed::none()),
            written: Some(Write { cell, value }),
        }
    }
}
