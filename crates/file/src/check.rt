//! The check of a whole file.
ghost use Rattle.std.specs.Prelude.{◌≡◌, ℕ, ◌+◌, ◌≤◌, List, length};
ghost use Rattle.house.specs.Fields.{Judged, le32};
ghost use Rattle.house.specs.House.{fields, end_fields};
ghost use Rattle.file.specs.Files.{file_bytes};

use crate::house_file::HouseFile;
use crate::place::Place;
use crate::records::records;
use crate::section::section;
use house::bad::{BadFile, Part};

/// Checks the text's count, the text, and that nothing stands behind it.
fn text(head: &Place<'_>) -> Result<(), BadFile>
    ensures { let d = head.now.bytes.now in Judged d (end_fields d head.now.at) result (λ _. head.now.at + 4 + le32 d head.now.at ≡ length d) }
{
    let count = head.field(0, Part::TextCount).number::<u32>()? as usize;
    let _text = head.field(4, Part::Text).slice(count)?;
    let end = head.ahead(4 + count);
    end.field(0, Part::End).form(end.at == end.bytes.len())
}

/// Checks a file, and answers it, or the report of its first bad or cut field.
pub(crate) fn check(bytes: &[u8]) -> Result<HouseFile<'_>, BadFile>
    ensures { Judged bytes.now (fields bytes.now) result (λ f. file_bytes f ≡ bytes.now) }
{
    let names = section(&Place { bytes, at: 0 })?;
    let values = section(&names.end)?;
    let records = records(&names, &values)?;
    let head = values.end.ahead(4 + 24 * records as usize);
    text(&head)?;
    Ok(HouseFile {
        bytes,
        names,
        values,
        records,
        text: head.at,
    })
}
