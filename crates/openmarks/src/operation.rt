//! Mark operations as they are written, a line each.
use crate::words::{Words, decimal, looks_like_integer};
use kinds::document::{OpId, ScalarValue, ShortStr};
use kinds::refusal::Refusal;
use measures::strings::text_from;
use thiserror::Error;

/// An operation on the open marks.
#[derive(Clone, Copy)]
pub(crate) enum Operation {
    Begin {
        id: OpId,
        name: ShortStr,
        value: ScalarValue,
    },
    End {
        id: OpId,
    },
}

/// Why a line is no operation.
#[derive(Clone, Copy, Debug, Error)]
pub(crate) enum Mistake {
    #[error("The line is empty.")]
    Empty,
    #[error("An operation begins with begin or end.")]
    UnknownWord,
    #[error("The id is missing.")]
    NoId,
    #[error("An id is counter@actor, two numbers of 32 bits.")]
    BadId,
    #[error("The name is missing.")]
    NoName,
    #[error("The value is missing.")]
    NoValue,
    #[error("The integer does not fit 64 bits.")]
    LargeInteger,
    #[error("More words follow than the operation has.")]
    MoreWords,
}

/// Why a line changes nothing: it is no operation, or the library refuses it.
#[derive(Clone, Copy, Debug, Error)]
pub(crate) enum Problem {
    #[error("no operation: {0}")]
    Mistaken(#[from] Mistake),
    #[error("refused with {}: {}", .0.number(), .0.words())]
    Refused(#[from] Refusal),
}

/// An id as `counter@actor`.
fn read_id(word: &[u8]) -> Result<OpId, Mistake> {
    let at = word.iter().position(|b| *b == b'@').ok_or(Mistake::BadId)?;
    let counter = decimal(&word[..at]).ok_or(Mistake::BadId)?;
    let actor = decimal(&word[at + 1..]).ok_or(Mistake::BadId)?;
    Ok(OpId { counter, actor })
}

/// The integer that a word spells.
fn read_integer(word: &[u8]) -> Option<i64> {
    text_from(word)?.parse().ok()
}

/// An integer, true, false, null, or else a word of text.
fn read_value(word: &[u8]) -> Result<ScalarValue, Problem> {
    if looks_like_integer(word) {
        let number = read_integer(word).ok_or(Mistake::LargeInteger)?;
        return Ok(ScalarValue::Int(number));
    }
    match word {
        b"true" => Ok(ScalarValue::Boolean(true)),
        b"false" => Ok(ScalarValue::Boolean(false)),
        b"null" => Ok(ScalarValue::Null),
        _ => Ok(ScalarValue::Str(ShortStr::new(word)?)),
    }
}

/// The operation that a line spells; the library judges its name and text.
pub(crate) fn read_operation(line: &[u8]) -> Result<Operation, Problem> {
    let mut words = Words::new(line);
    let operation = match words.next_word().ok_or(Mistake::Empty)? {
        b"begin" => {
            let id = read_id(words.next_word().ok_or(Mistake::NoId)?)?;
            let name = words.next_word().ok_or(Mistake::NoName)?;
            let value = words.next_word().ok_or(Mistake::NoValue)?;
            Operation::Begin {
                id,
                name: ShortStr::new(name)?,
                value: read_value(value)?,
            }
        }
        b"end" => Operation::End {
            id: read_id(words.next_word().ok_or(Mistake::NoId)?)?,
        },
        _ => return Err(Problem::Mistaken(Mistake::UnknownWord)),
    };
    match words.next_word() {
        Some(_) => Err(Problem::Mistaken(Mistake::MoreWords)),
        None => Ok(operation),
    }
}
