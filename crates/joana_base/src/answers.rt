//! What a command comes to before anything is put.
ghost use Rattle.std.specs.Prelude.{◌≡◌};
ghost use Rattle.joana_base.specs.Status.{status_of, text_of};

use crate::status::{Refusal, Status};
use std::alloc::AllocError;

/// What a command shows: the text of a yes, or of a no.
#[derive(Drop)]
pub enum Answer {
    Yes(Vec<u8>),
    No(Vec<u8>),
}

impl Answer {
    /// The status of a run that shows it.
    pub fn status(&self) -> Status
        ensures { result ≡ status_of self.now }
    {
        match self {
            Answer::Yes(_) => Status::Done,
            Answer::No(_) => Status::Refused,
        }
    }

    /// The text that is put.
    pub fn text(&self) -> &[u8]
        ensures { result.now ≡ text_of self.now }
    {
        match self {
            Answer::Yes(text) => text.as_slice(),
            Answer::No(text) => text.as_slice(),
        }
    }
}

/// A read that failed: its number, counted from 0 in the order of the reads, and its name.
#[derive(Drop)]
pub struct Unread {
    pub number: u32,
    pub name: String,
}

/// Why a command shows nothing.
#[derive(Drop)]
pub enum Stop {
    /// Its files are refused.
    Faulty(Refusal),
    Unread(Unread),
    Memory,
}

impl From<AllocError> for Stop {
    ghost use Rattle.std.specs.Prelude.{◌≡◌};
    ghost use Rattle.joana_base.specs.declared.answers.Stop.TheVariants.{Memory};

    ghost from_gives = { λ _ e. e ≡ Memory };

    fn from(_e: AllocError) -> Stop {
        Stop::Memory
    }
}
