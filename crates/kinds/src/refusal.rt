//! Why a call is refused.
ghost use Rattle.std.specs.Prelude.{◌≡◌, Some};
ghost use Rattle.kinds.specs.Refusals.{number, words};

use std::error::Error;
use std::fmt;

/// The cause of a refusal. Each cause has one number and one sentence.
#[derive(Clone, Copy, PartialEq, Eq, Debug)]
pub enum Refusal {
    /// Ill-formed UTF-8, in text or in a name or text value being made.
    IllFormedText = 1,
    /// No open place is free, and the id is not yet open.
    NoOpenPlace = 3,
    /// The id that is ended has no predecessor.
    NoPredecessor = 6,
    /// A clock has no number for the actor.
    ActorUnknown = 9,
    /// A house file, or the place of a text, is malformed.
    Malformed = 14,
    /// A name or byte value of more than 32 bytes.
    TooLong = 15,
}

impl Refusal {
    /// The number of the cause, which stays the same from version to version.
    pub fn number(self) -> u8
        ensures { result ≡ number self }
    {
        self as u8
    }

    /// The cause in one sentence.
    pub fn words(self) -> &'static str
        ensures { result.now ≡ words self }
    {
        // By hand: what a derive writes has no promise, and these words have one.
        match self {
            Refusal::IllFormedText => "The bytes are not well-formed UTF-8.",
            Refusal::NoOpenPlace => "No open place is free.",
            Refusal::NoPredecessor => "The id has no predecessor.",
            Refusal::ActorUnknown => "The clock has no number for the actor.",
            Refusal::Malformed => "The file or the place of a text is malformed.",
            Refusal::TooLong => "The content is longer than 32 bytes.",
        }
    }
}

impl fmt::Display for Refusal {
    ghost output = { λ cause. Some (words cause) };

    fn fmt<W: fmt::Write>(&self, f: &mut fmt::Formatter<W>) -> fmt::Result {
        f.write_str(self.words())
    }
}

impl Error for Refusal {}
