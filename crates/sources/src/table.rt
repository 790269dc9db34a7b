//! The table: records in lent memory, a source with nothing below it.
ghost use Rattle.std.specs.Prelude.{◌≡◌};
ghost use Rattle.sources.specs.Meaning.{byte_at};
ghost use Rattle.sources.specs.Table.{held, text_of, tabled, table_means, table_head};

use crate::fault::Fault;
use crate::record::{Action, Diff, Record};
use crate::source::Source;
use kinds::interfaces::{Id, Name, Value};
use kinds::refusal::Refusal;

/// Where a text lies in the table's memory.
// A start and a length, not a slice: the memory is the table's, and a record only points into it.
#[derive(Clone, Copy, Debug)]
pub struct TextPlace {
    pub start: usize,
    pub len: usize,
}

/// A record of a table; its row is its place in the table.
#[derive(Clone, Copy, Debug)]
pub struct TableRecord<I, N, V> {
    pub tag: Diff,
    pub action: Action,
    pub id: I,
    pub name: Option<N>,
    pub value: Option<V>,
    pub text: Option<TextPlace>,
}

/// The records of a table from the row `at` on, and the memory of their texts.
#[derive(Drop)]
pub struct Table<'a, I, N, V> {
    rows: &'a [TableRecord<I, N, V>],
    text: &'a [u8],
    at: usize,
}

/// Whether the memory holds the text at a place.
fn holds(memory: &[u8], text: Option<TextPlace>) -> bool
    ensures { result ≡ held memory.now text }
{
    text.is_none_or(|place| {
        place.start <= memory.len() && place.len <= memory.len() - place.start
    })
}

/// The byte at a place of a text, or none past its end.
pub fn byte_of(memory: &[u8], text: Option<TextPlace>, at: usize) -> Option<u8>
    ensures { result ≡ byte_at (text_of memory.now text) at }
{
    let place = text?;
    if at < place.len && place.start < memory.len() && at < memory.len() - place.start {
        Some(memory[place.start + at])
    } else {
        None
    }
}

impl<'a, I: Id, N: Name, V: Value> Table<'a, I, N, V> {
    /// The table of these records, whose texts lie in this memory.
    pub fn new(rows: &'a [TableRecord<I, N, V>], text: &'a [u8]) -> Table<'a, I, N, V>
        ensures { table_means result ≡ tabled text.now 0 rows.now }
    {
        Table { rows, text, at: 0 }
    }

    /// The record that is first now, or the fault that the list ends with.
    fn head(&self) -> Result<Option<TableRecord<I, N, V>>, Fault>
        ensures { result ≡ table_head self.now }
    {
        let Some(first) = self.rows.get(self.at) else {
            return Ok(None);
        };
        if holds(self.text, first.text) {
            Ok(Some(*first))
        } else {
            Err(Fault {
                refusal: Refusal::Malformed,
                row: self.at as u64,
                height: 0,
            })
        }
    }
}

impl<'a, I: Id, N: Name, V: Value> Source for Table<'a, I, N, V> {
    type I = I;

    type N = N;

    type V = V;

    ghost means = { table_means };

    /// A table has nothing below it.
    fn height(&mut self) -> u32 {
        0
    }

    fn look(&mut self) -> Result<Option<Record<I, N, V>>, Fault> {
        let Some(first) = self.head()? else {
            return Ok(None);
        };
        Ok(Some(Record {
            row: self.at as u64,
            tag: first.tag,
            action: first.action,
            id: first.id,
            name: first.name,
            value: first.value,
            has_text: first.text.is_some(),
        }))
    }

    fn text(&mut self, place: u64) -> Option<u8> {
        let first = self.head().ok()??;
        byte_of(self.text, first.text, place as usize)
    }

    fn step(&mut self) {
        if let Ok(Some(_first)) = self.head() {
            self.at += 1;
        }
    }
}
