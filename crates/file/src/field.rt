//! A field of a file: read, or reported as cut or broken.
ghost use Rattle.std.specs.Prelude.{◌≡◌, ℕ, ◌+◌, ◌<◌, ◌≤◌, length, MatchOption};
ghost use Rattle.kinds.specs.declared.refusal.Refusal.TheVariants.{Malformed};
ghost use Rattle.house.specs.Fields.{byte, slice, cut_at, broken_at};
ghost use Rattle.file.specs.Reads.{Reads, ReadsCase, Rules};

use crate::number::Number;
use house::bad::{BadFile, Part, Wrong};
use kinds::refusal::Refusal;

/// A field: which part of a file it is, and its first byte.
#[derive(Clone, Copy)]
pub(crate) struct Field<'a> {
    pub(crate) bytes: &'a [u8],
    pub(crate) at: usize,
    pub(crate) part: Part,
}

/// The `len` bytes at a place, if they are all there.
#[tactic(auto, using(crate::proofs::Tails::behind))]
fn slice_at(bytes: &[u8], at: usize, len: usize) -> Option<&[u8]>
    ensures { MatchOption result (length bytes.now < at + len) (λ s. (at + len ≤ length bytes.now) × (s.now ≡ slice bytes.now at len)) }
{
    bytes.get(at..)?.get(..len)
}

impl<'a> Field<'a> {
    /// The report that the field is cut.
    fn cut(&self) -> BadFile
        ensures { result ≡ cut_at self.now.part self.now.at }
    {
        BadFile {
            part: self.part,
            wrong: Wrong::Cut,
            byte: self.at,
        }
    }

    /// The report that the field breaks its rule.
    fn broken(&self, cause: Refusal) -> BadFile
        ensures { result ≡ broken_at self.now.part cause self.now.at }
    {
        BadFile {
            part: self.part,
            wrong: Wrong::Broken(cause),
            byte: self.at,
        }
    }

    /// The number that stands in the field.
    pub(crate) fn number<T: Number>(&self) -> Result<T, BadFile>
        ensures { Reads self.now.bytes.now self.now.at T.size self.now.part result (λ n. n ≡ T.standing self.now.bytes.now self.now.at) }
    {
        T::read(self.bytes, self.at).ok_or(self.cut())
    }

    /// The case whose number stands in the field; a number that no case has is malformed.
    pub(crate) fn case<T: TryFrom<u8>>(&self) -> Result<T, BadFile>
    where
        T::Error: Drop,
        ensures { ReadsCase self.now.bytes.now self.now.at self.now.part T.try_from_gives result }
    {
        // A `let` and not `map_err`, with which the report of its closure stayed open.
        let Ok(case) = T::try_from(self.number()?) else {
            return Err(self.broken(Refusal::Malformed));
        };
        Ok(case)
    }

    /// The `len` bytes of the field.
    pub(crate) fn slice(&self, len: usize) -> Result<&'a [u8], BadFile>
        ensures { Reads self.now.bytes.now self.now.at len self.now.part result (λ s. s.now ≡ slice self.now.bytes.now self.now.at len) }
    {
        slice_at(self.bytes, self.at, len).ok_or(self.cut())
    }

    /// Whether the field's rule is met, or the report that it is broken.
    pub(crate) fn rule(&self, met: bool, cause: Refusal) -> Result<(), BadFile>
        ensures { Rules met self.now.part cause self.now.at result }
    {
        if met { Ok(()) } else { Err(self.broken(cause)) }
    }

    /// The same, where a field that breaks the rule is malformed.
    pub(crate) fn form(&self, met: bool) -> Result<(), BadFile>
        ensures { Rules met self.now.part Malformed self.now.at result }
    {
        self.rule(met, Refusal::Malformed)
    }
}
