//! What is reported of a file that is refused.
ghost use Rattle.std.specs.Prelude.{◌≡◌};
ghost use Rattle.house.specs.Reports.{is_cut, refusal_of};

use kinds::refusal::Refusal;

/// The parts of a file: each field is one of these.
#[derive(Clone, Copy, PartialEq, Eq, Debug)]
pub enum Part {
    NamesCount,
    NameLength,
    NameBytes,
    ValuesCount,
    ValueKind,
    TypeCode,
    ValueLength,
    ValueBytes,
    RecordsCount,
    Tag,
    Action,
    NameNumber,
    ValueNumber,
    FirstZero,
    SecondZero,
    Counter,
    Actor,
    TextStart,
    TextLength,
    TextCount,
    Text,
    /// The end of the file, where the text ends.
    End,
}

// Not `Option<Refusal>`: that a field is cut is a finding too, and `None` would read as nothing wrong.

/// What is wrong with a field.
#[derive(Clone, Copy, PartialEq, Eq, Debug)]
pub enum Wrong {
    /// Bytes of it are missing.
    Cut,
    /// All its bytes are there, and break its rule, which is refused with this cause.
    Broken(Refusal),
}

/// The first field of a file that is bad or cut.
#[derive(Clone, Copy, PartialEq, Eq, Debug)]
pub struct BadFile {
    /// Which part of the file the field is.
    pub part: Part,
    pub wrong: Wrong,
    /// The first byte of the field.
    pub byte: usize,
}

impl BadFile {
    /// Whether bytes of the field are missing.
    pub fn is_cut(&self) -> bool
        ensures { result ≡ is_cut self.now }
    {
        self.wrong == Wrong::Cut
    }

    /// Why the file is refused: a cut field is malformed, whatever its rule.
    pub fn refusal(&self) -> Refusal
        ensures { result ≡ refusal_of self.now }
    {
        match self.wrong {
            Wrong::Cut => Refusal::Malformed,
            Wrong::Broken(cause) => cause,
        }
    }
}
