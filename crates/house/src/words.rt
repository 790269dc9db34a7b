//! Parts and reports in words.
ghost use Rattle.std.specs.Prelude.{◌≡◌, Some};
ghost use Rattle.house.specs.Words.{part_words, rule_words, bad_words};

use crate::bad::{BadFile, Part, Wrong};
use std::error::Error;
use std::fmt;

impl Part {
    /// What the part has to be.
    pub fn rule(self) -> &'static str
        ensures { result.now ≡ rule_words self }
    {
        // By hand: these words are promised.
        match self {
            Part::NameLength => "at most 32",
            Part::NameBytes => "well-formed UTF-8",
            Part::ValueKind => "0 to 9",
            Part::TypeCode => "0 unless the kind is Unknown",
            Part::ValueLength => "8 for a number, 1 for Boolean, 0 for Null, else at most 32",
            Part::ValueBytes => "well-formed UTF-8 for Str, 0 or 1 for Boolean",
            Part::Tag => "0 to 2",
            Part::Action => "0 to 7",
            Part::NameNumber => "65535, or for a Mark the number of a name",
            Part::ValueNumber =>
                "the number of a value for a Mark with a name, of one that is not Str or 65535 for a Set, else 65535",
            Part::FirstZero | Part::SecondZero => "0",
            Part::TextStart => "at most the text's count for a Set without a value, else 0",
            Part::TextLength => "within the text's count for a Set without a value, else 0",
            Part::End => "where the text ends",
            _ => "there",
        }
    }
}

impl fmt::Display for Part {
    ghost output = { λ part. Some (part_words part) };

    fn fmt<W: fmt::Write>(&self, f: &mut fmt::Formatter<W>) -> fmt::Result {
        // By hand: these words are promised.
        f.write_str(match self {
            Part::NamesCount => "the count of the names",
            Part::NameLength => "the length of a name",
            Part::NameBytes => "the bytes of a name",
            Part::ValuesCount => "the count of the values",
            Part::ValueKind => "the kind of a value",
            Part::TypeCode => "the type code of a value",
            Part::ValueLength => "the length of a value",
            Part::ValueBytes => "the bytes of a value",
            Part::RecordsCount => "the count of the records",
            Part::Tag => "the tag of a record",
            Part::Action => "the action of a record",
            Part::NameNumber => "the name number of a record",
            Part::ValueNumber => "the value number of a record",
            Part::FirstZero => "the first zero byte of a record",
            Part::SecondZero => "the second zero byte of a record",
            Part::Counter => "the counter of a record",
            Part::Actor => "the actor of a record",
            Part::TextStart => "the text start of a record",
            Part::TextLength => "the text length of a record",
            Part::TextCount => "the count of the text's bytes",
            Part::Text => "the text",
            Part::End => "the end of the file",
        })
    }
}

impl fmt::Display for BadFile {
    ghost output = { λ bad. Some (bad_words bad) };

    fn fmt<W: fmt::Write>(&self, f: &mut fmt::Formatter<W>) -> fmt::Result {
        let BadFile { part, wrong, byte } = *self;
        match wrong {
            Wrong::Cut => write!(f, "byte {byte}: the file ends within {part}"),
            Wrong::Broken(_) => {
                let rule = part.rule();
                write!(f, "byte {byte}: {part} has to be {rule}")
            }
        }
    }
}

impl Error for BadFile {}
