//! What a source of records is.
ghost use Rattle.std.specs.Prelude.{◌≡◌, ℕ};
ghost use Rattle.sources.specs.Meaning.{Meaning, first, stepped, byte_at, first_text, nonempty, raised};

use crate::fault::Fault;
use crate::record::Record;
use kinds::interfaces::{Id, Name, Value};

// The clauses `same` compare a source with itself after the call, which no type can hold.

/// A source of records: it means a height, the records to come, and how they end.
pub trait Source {
    type I: Id;

    type N: Name;

    type V: Value;

    ghost means: { Self → Meaning Self.I Self.N Self.V };

    /// How many layers lie below, at most 4,294,967,295.
    fn height(&mut self) -> u32
        ensures answer { result ≡ (means self.old).height }
        ensures same { means self.new ≡ means self.old };

    /// The height of a layer that lies on this source: one more, at most 4,294,967,295.
    fn height_above(&mut self) -> u32
        ensures answer { result ≡ raised (means self.old).height }
        ensures same { means self.new ≡ means self.old }
    {
        self.height().saturating_add(1)
    }

    /// The first record, or how the empty list ends.
    fn look(&mut self) -> Result<Option<Record<Self::I, Self::N, Self::V>>, Fault>
        ensures answer { result ≡ first (means self.old).records (means self.old).ending }
        ensures same { means self.new ≡ means self.old };

    /// The byte at a place of the first record's text, or none past its end.
    fn text(&mut self, place: u64) -> Option<u8>
        ensures answer { result ≡ byte_at (first_text (means self.old).records) place }
        ensures same { means self.new ≡ means self.old };

    /// Drops the first record; nothing where there is none.
    fn step(&mut self)
        ensures { means self.new ≡ stepped (means self.old) };

    /// Whether a record is left.
    fn more(&mut self) -> bool
        ensures answer { result ≡ nonempty (means self.old).records }
        ensures same { means self.new ≡ means self.old }
    {
        matches!(self.look(), Ok(Some(_)))
    }
}
