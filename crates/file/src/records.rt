//! The check of the records.
ghost use Rattle.std.specs.Prelude.{◌≡◌, ℕ, ◌+◌, ◌*◌, ◌<◌, ◌≤◌, List, length};
ghost use Rattle.house.specs.Fields.{Judged};
ghost use Rattle.house.specs.Records.{records_fields, records_count, text_head};

use crate::frame::Frame;
use crate::names::NameItem;
use crate::number::Number;
use crate::record::Row;
use crate::seen::Section;
use crate::values::ValueItem;
use house::bad::{BadFile, Part};

/// Checks the records, whose count stands behind the values, and answers that count.
pub(crate) fn records(
    names: &Section<'_, NameItem>,
    values: &Section<'_, ValueItem>,
) -> Result<u32, BadFile>
    requires { names.now.end.bytes.now ≡ values.now.end.bytes.now }
    ensures { let d = values.now.end.bytes.now in Judged d (records_fields d) result (λ n. (n ≡ records_count d) × (text_head d ≤ length d)) }
{
    let head = values.end;
    let count: u32 = head.field(0, Part::RecordsCount).number()?;
    let first = head.at + 4;
    let frame = Frame {
        bytes: head.bytes,
        names: names.count,
        values,
        limit: u32::read(head.bytes, first + 24 * count as usize),
    };
    for i in 0..count {
        let row = Row {
            frame: &frame,
            at: first + 24 * i as usize,
        };
        row.check()?;
    }
    Ok(count)
}
