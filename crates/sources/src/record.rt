//! Records: what a journal is made of.
ghost use Rattle.std.specs.Prelude.{◌≡◌, Some};
ghost use Rattle.kinds.specs.Decoding.{Decodes};
ghost use Rattle.sources.specs.Tags.{tag_number, tag_name, tag_of, action_number, action_name, action_of};

use kinds::unknown::UnknownNumber;
use std::fmt;

/// On which side a record acts: both, the after side, or the before side.
#[derive(Clone, Copy, PartialEq, Eq, PartialOrd, Ord, Debug)]
pub enum Diff {
    Same = 0,
    Add = 1,
    Del = 2,
}

impl Diff {
    /// The number of the tag, from 0 to 2.
    pub fn number(self) -> u8
        ensures { result ≡ tag_number self }
    {
        self as u8
    }
}

impl TryFrom<u8> for Diff {
    type Error = UnknownNumber;

    ghost try_from_gives = { Decodes tag_number tag_of 2 };

    /// The tag of a number.
    fn try_from(number: u8) -> Result<Diff, UnknownNumber> {
        match number {
            0 => Ok(Diff::Same),
            1 => Ok(Diff::Add),
            2 => Ok(Diff::Del),
            _ => Err(UnknownNumber(number)),
        }
    }
}

impl fmt::Display for Diff {
    ghost output = { λ tag. Some (tag_name tag) };

    fn fmt<W: fmt::Write>(&self, f: &mut fmt::Formatter<W>) -> fmt::Result {
        // By hand: of the names that a derive prints nothing is promised.
        f.write_str(match self {
            Diff::Same => "Same",
            Diff::Add => "Add",
            Diff::Del => "Del",
        })
    }
}

/// What a record does.
#[derive(Clone, Copy, PartialEq, Eq, PartialOrd, Ord, Debug)]
pub enum Action {
    MakeMap = 0,
    MakeList = 1,
    MakeText = 2,
    Set = 3,
    Delete = 4,
    Increment = 5,
    MakeTable = 6,
    Mark = 7,
}

impl Action {
    /// The number of the action, from 0 to 7.
    pub fn number(self) -> u8
        ensures { result ≡ action_number self }
    {
        self as u8
    }
}

impl TryFrom<u8> for Action {
    type Error = UnknownNumber;

    ghost try_from_gives = { Decodes action_number action_of 7 };

    /// The action of a number.
    fn try_from(number: u8) -> Result<Action, UnknownNumber> {
        match number {
            0 => Ok(Action::MakeMap),
            1 => Ok(Action::MakeList),
            2 => Ok(Action::MakeText),
            3 => Ok(Action::Set),
            4 => Ok(Action::Delete),
            5 => Ok(Action::Increment),
            6 => Ok(Action::MakeTable),
            7 => Ok(Action::Mark),
            _ => Err(UnknownNumber(number)),
        }
    }
}

impl fmt::Display for Action {
    ghost output = { λ action. Some (action_name action) };

    fn fmt<W: fmt::Write>(&self, f: &mut fmt::Formatter<W>) -> fmt::Result {
        // By hand: of the names that a derive prints nothing is promised.
        f.write_str(match self {
            Action::MakeMap => "MakeMap",
            Action::MakeList => "MakeList",
            Action::MakeText => "MakeText",
            Action::Set => "Set",
            Action::Delete => "Delete",
            Action::Increment => "Increment",
            Action::MakeTable => "MakeTable",
            Action::Mark => "Mark",
        })
    }
}

/// A record as a source shows it; the bytes of its text are asked for one by one.
#[derive(Clone, Copy, Debug)]
pub struct Record<I, N, V> {
    /// Its number in the base list, from 0.
    pub row: u64,
    pub tag: Diff,
    pub action: Action,
    pub id: I,
    pub name: Option<N>,
    pub value: Option<V>,
    /// Whether it has a text, which may be empty.
    // A flag with no value beside it: a source is asked for the bytes one by one.
    pub has_text: bool,
}
