//! A house file that is good.
ghost use Rattle.std.specs.Prelude.{◌≡◌, length};
ghost use Rattle.house.specs.Fields.{AllGood};
ghost use Rattle.house.specs.House.{fields, file_end};
ghost use Rattle.house.specs.Records.{records_count, text_head};

use crate::names::NameItem;
use crate::seen::Section;
use crate::values::ValueItem;

/// A good house file: its bytes, and what is known of where things stand in them.
#[derive(Clone, Copy)]
pub struct HouseFile<'a> {
    pub(crate) bytes: &'a [u8],
    pub(crate) names: Section<'a, NameItem>,
    pub(crate) values: Section<'a, ValueItem>,
    /// How many records there are.
    pub(crate) records: u32,
    /// The place of the text's count.
    pub(crate) text: usize,
    ghost good: { ∥ AllGood bytes.now (fields bytes.now) ∥₁ },
    ghost named: { names.end.bytes.now ≡ bytes.now },
    ghost valued: { values.end.bytes.now ≡ bytes.now },
    ghost counted: { records ≡ records_count bytes.now },
    ghost placed: { text ≡ text_head bytes.now },
    ghost whole: { file_end bytes.now ≡ length bytes.now },
}
