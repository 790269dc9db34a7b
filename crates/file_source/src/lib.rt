//! The records of a house file, as a source.
#![tactic(auto)]

ghost use Rattle.std.specs.Prelude.{◌≡◌};
ghost use Rattle.house.specs.Held.{filed, name_found, value_found, found_by};
ghost use Rattle.file.specs.Files.{file_bytes};
ghost use Rattle.file_source.specs.Filed.{file_means};

use file::house_file::HouseFile;
use kinds::document::{OpId, ScalarValue, ShortStr};
use sources::fault::Fault;
use sources::record::Record;
use sources::source::Source;
use sources::table::byte_of;

/// The records of a file from record `at` on.
#[derive(Drop)]
pub struct FileSource<'a> {
    file: HouseFile<'a>,
    at: u32,
}

impl<'a> FileSource<'a> {
    /// All records of the file.
    pub fn new(file: HouseFile<'a>) -> FileSource<'a>
        ensures { file_means result ≡ filed (file_bytes file.entry) 0 }
    {
        FileSource { file, at: 0 }
    }

    // A method in place of `and_then`: with that, what its closure answers stayed open, unless it repeats this clause.
    /// The name under a number, where there is one.
    fn name(&self, number: Option<u16>) -> Option<ShortStr>
        ensures { result ≡ found_by (name_found (file_bytes self.now.file)) number }
    {
        self.file.name(number?)
    }

    // As `name`.
    /// The value under a number, where there is one.
    fn value(&self, number: Option<u16>) -> Option<ScalarValue>
        ensures { result ≡ found_by (value_found (file_bytes self.now.file)) number }
    {
        self.file.value(number?)
    }
}

impl<'a> Source for FileSource<'a> {
    type I = OpId;

    type N = ShortStr;

    type V = ScalarValue;

    ghost means = { file_means };

    /// A file has nothing below it.
    fn height(&mut self) -> u32 {
        0
    }

    fn look(&mut self) -> Result<Option<Record<OpId, ShortStr, ScalarValue>>, Fault> {
        let Some(first) = self.file.record(self.at) else {
            return Ok(None);
        };
        Ok(Some(Record {
            row: u64::from(self.at),
            tag: first.tag,
            action: first.action,
            id: first.id,
            name: self.name(first.name),
            value: self.value(first.value),
            has_text: first.text.is_some(),
        }))
    }

    fn text(&mut self, place: u64) -> Option<u8> {
        let first = self.file.record(self.at)?;
        byte_of(self.file.text(), first.text, place as usize)
    }

    #[tactic(auto, using(crate::proofs::Filing::steps))]
    fn step(&mut self) {
        if self.at < self.file.records() {
            self.at += 1;
        }
    }
}
