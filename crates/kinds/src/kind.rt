//! The kinds of value of the document kind.
ghost use Rattle.std.specs.Prelude.{Some};
ghost use Rattle.kinds.specs.Decoding.{Decodes};
ghost use Rattle.kinds.specs.Kinds.{code_of, kind_of, kind_name};

use crate::unknown::UnknownNumber;
use std::fmt;

/// The ten kinds of value, in the order of their numbers.
#[derive(Clone, Copy, PartialEq, Eq, PartialOrd, Ord, Debug)]
pub enum ValueKind {
    Bytes = 0,
    Str = 1,
    Int = 2,
    Uint = 3,
    F64 = 4,
    Counter = 5,
    Timestamp = 6,
    Boolean = 7,
    Unknown = 8,
    Null = 9,
}

impl TryFrom<u8> for ValueKind {
    type Error = UnknownNumber;

    ghost try_from_gives = { Decodes code_of kind_of 9 };

    /// The kind of a number.
    fn try_from(number: u8) -> Result<ValueKind, UnknownNumber> {
        match number {
            0 => Ok(ValueKind::Bytes),
            1 => Ok(ValueKind::Str),
            2 => Ok(ValueKind::Int),
            3 => Ok(ValueKind::Uint),
            4 => Ok(ValueKind::F64),
            5 => Ok(ValueKind::Counter),
            6 => Ok(ValueKind::Timestamp),
            7 => Ok(ValueKind::Boolean),
            8 => Ok(ValueKind::Unknown),
            9 => Ok(ValueKind::Null),
            _ => Err(UnknownNumber(number)),
        }
    }
}

impl fmt::Display for ValueKind {
    ghost output = { λ kind. Some (kind_name kind) };

    fn fmt<W: fmt::Write>(&self, f: &mut fmt::Formatter<W>) -> fmt::Result {
        // By hand: of the names that a derive prints nothing is promised.
        f.write_str(match self {
            ValueKind::Bytes => "Bytes",
            ValueKind::Str => "Str",
            ValueKind::Int => "Int",
            ValueKind::Uint => "Uint",
            ValueKind::F64 => "F64",
            ValueKind::Counter => "Counter",
            ValueKind::Timestamp => "Timestamp",
            ValueKind::Boolean => "Boolean",
            ValueKind::Unknown => "Unknown",
            ValueKind::Null => "Null",
        })
    }
}
