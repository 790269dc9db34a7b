//! What the fields of a record are judged by.
ghost use Rattle.std.specs.Prelude.{◌≡◌};
ghost use Rattle.std.proofs.Props.{props};
ghost use Rattle.house.specs.Names.{names_count};
ghost use Rattle.file.specs.Frames.{Limit};

use crate::seen::Section;
use crate::values::ValueItem;

/// The parts of a file that its records speak of.
#[derive(Clone, Copy)]
pub(crate) struct Frame<'a> {
    pub(crate) bytes: &'a [u8],
    /// How many names there are.
    pub(crate) names: u32,
    pub(crate) values: &'a Section<'a, ValueItem>,
    /// How many bytes the text has, where the file reaches their count.
    pub(crate) limit: Option<u32>,
    ghost named: { names ≡ names_count bytes.now },
    ghost valued: { values.now.end.bytes.now ≡ bytes.now },
    ghost limited: { Limit bytes.now limit } by { Prim.hlevel props },
}
