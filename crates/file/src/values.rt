//! Values as the items of a section.
ghost use Rattle.std.specs.Prelude.{◌≡◌, ℕ, ◌+◌, ◌≤◌, length};
ghost use Rattle.house.specs.declared.bad.Part.TheVariants.{ValuesCount};
ghost use Rattle.house.specs.Fields.{Judged, AllGood, byte};
ghost use Rattle.house.specs.Values.{value_fields, value_width, values_head};
ghost use Rattle.house.specs.Held.{value_standing};

use crate::contents::{content_of, kind_of};
use crate::item::Item;
use crate::place::Place;
use crate::rules::{code_fits, content_cause, content_fits, length_cause, length_fits};
use house::bad::{BadFile, Part};
use kinds::document::ScalarValue;
use kinds::kind::ValueKind;

/// The values of a file.
#[derive(Clone, Copy)]
pub(crate) struct ValueItem;

impl Item for ValueItem {
    type Held = ScalarValue;

    ghost count = { ValuesCount };

    ghost head = { values_head };

    ghost fields = { value_fields };

    ghost width = { value_width };

    ghost standing = { value_standing };

    fn part() -> Part {
        Part::ValuesCount
    }

    fn check<'a>(place: &Place<'a>) -> Result<Place<'a>, BadFile> {
        let kind: ValueKind = place.field(0, Part::ValueKind).case()?;
        let field = place.field(1, Part::TypeCode);
        field.form(code_fits(kind, field.number()?))?;
        let field = place.field(2, Part::ValueLength);
        let len: u8 = field.number()?;
        field.rule(length_fits(kind, len), length_cause(kind))?;
        let field = place.field(3, Part::ValueBytes);
        let content = field.slice(usize::from(len))?;
        field.rule(content_fits(kind, content), content_cause(kind))?;
        Ok(place.ahead(3 + usize::from(len)))
    }

    fn behind<'a>(place: &Place<'a>) -> Place<'a> {
        let len: u8 = place.number(2);
        place.ahead(3 + usize::from(len))
    }

    fn held(place: &Place<'_>) -> Option<ScalarValue> {
        content_of(kind_of(place.number(0)), place)
    }
}
