//! The fields of a record as they stand in a file.
use kinds::document::OpId;
use sources::record::{Action, Diff};
use sources::table::TextPlace;

// Not `TableRecord<OpId, u16, u16>`: its name and value are numbers to look up, and it belongs to a file and no table.

/// A record of a file: its name and value go by number, its text by its place in the text section.
#[derive(Clone, Copy, Debug)]
pub struct FileRecord {
    pub tag: Diff,
    pub action: Action,
    pub name: Option<u16>,
    pub value: Option<u16>,
    pub id: OpId,
    pub text: Option<TextPlace>,
}
