//! A house file read, and asked for what it holds.
ghost use Rattle.std.specs.Prelude.{◌≡◌, List, [], replicate, MatchResult};
ghost use Rattle.house.specs.Fields.{Judged};
ghost use Rattle.house.specs.Held.{name_found, value_found};
ghost use Rattle.house.specs.Holds.{Holds};
ghost use Rattle.house.specs.House.{fields, text_at};
ghost use Rattle.house.specs.Names.{names_count};
ghost use Rattle.house.specs.Records.{records_count};
ghost use Rattle.house.specs.Values.{values_count};
ghost use Rattle.file.specs.Given.{record_found};
ghost use Rattle.file.specs.Files.{file_bytes, Kept};

use crate::check::check;
use crate::decode::record_of;
use crate::fields::FileRecord;
use crate::house_file::HouseFile;
use house::bad::BadFile;
use kinds::document::{ScalarValue, ShortStr};

/// The four counts of a file that holds nothing.
static EMPTY: [u8; 16] = [0; 16];

impl<'a> HouseFile<'a> {
    /// The file that holds nothing.
    pub fn empty() -> HouseFile<'a>
        ensures { file_bytes result ≡ replicate 16 0 }
    {
        // Named, so that its edit can put another good file in its place and is refused for what it holds.
        let file = check(&EMPTY).unwrap();
        file
    }

    /// Makes this the file of these bytes; where they are no good file, answers why and leaves it as it was.
    pub fn read(&mut self, bytes: &'a [u8]) -> Result<(), BadFile>
        ensures judged { Judged bytes.now (fields bytes.now) result (λ _. (file_bytes self.new ≡ bytes.now) × Holds bytes.now) }
        ensures kept { Kept result self.old self.new }
    {
        let file = check(bytes)?;
        *self = file;
        Ok(())
    }

    /// How many names there are.
    pub fn names(&self) -> u32
        ensures { result ≡ names_count (file_bytes self.now) }
    {
        self.names.count
    }

    /// How many values there are.
    pub fn values(&self) -> u32
        ensures { result ≡ values_count (file_bytes self.now) }
    {
        self.values.count
    }

    /// How many records there are.
    pub fn records(&self) -> u32
        ensures { result ≡ records_count (file_bytes self.now) }
    {
        self.records
    }

    /// Name `i`, or none past the last.
    pub fn name(&self, i: u16) -> Option<ShortStr>
        ensures { result ≡ name_found (file_bytes self.now) i }
    {
        self.names.get(i)
    }

    /// Value `i`, or none past the last.
    pub fn value(&self, i: u16) -> Option<ScalarValue>
        ensures { result ≡ value_found (file_bytes self.now) i }
    {
        self.values.get(i)
    }

    /// Record `i` with its fields taken apart, or none past the last.
    pub fn record(&self, i: u32) -> Option<FileRecord>
        ensures { result ≡ record_found (file_bytes self.now) i }
    {
        if i < self.records {
            let place = self.values.end.ahead(4 + 24 * i as usize);
            Some(record_of(&place))
        } else {
            None
        }
    }

    /// The text section.
    pub fn text(&self) -> &'a [u8]
        ensures { result.now ≡ text_at (file_bytes self.now) }
    {
        &self.bytes[self.text + 4..]
    }
}
