//! Names as the items of a section.
ghost use Rattle.std.specs.Prelude.{◌≡◌, ℕ, ◌+◌, ◌≤◌, length};
ghost use Rattle.house.specs.declared.bad.Part.TheVariants.{NamesCount};
ghost use Rattle.house.specs.Fields.{Judged, AllGood, byte};
ghost use Rattle.house.specs.Names.{name_fields, name_width};
ghost use Rattle.file.specs.Given.{name_standing};

use crate::item::Item;
use crate::place::Place;
use house::bad::{BadFile, Part};
use kinds::document::ShortStr;
use kinds::refusal::Refusal;
use measures::judge::well_formed;

/// The names of a file.
#[derive(Clone, Copy)]
pub(crate) struct NameItem;

impl Item for NameItem {
    type Held = ShortStr;

    ghost count = { NamesCount };

    ghost head = { λ _. 0 };

    ghost fields = { name_fields };

    ghost width = { name_width };

    ghost standing = { name_standing };

    fn part() -> Part {
        Part::NamesCount
    }

    fn check<'a>(place: &Place<'a>) -> Result<Place<'a>, BadFile> {
        let field = place.field(0, Part::NameLength);
        let len: u8 = field.number()?;
        field.rule(len <= 32, Refusal::TooLong)?;
        let field = place.field(1, Part::NameBytes);
        let text = field.slice(usize::from(len))?;
        field.rule(well_formed(text), Refusal::IllFormedText)?;
        Ok(place.ahead(1 + usize::from(len)))
    }

    fn behind<'a>(place: &Place<'a>) -> Place<'a> {
        let len: u8 = place.number(0);
        place.ahead(1 + usize::from(len))
    }

    fn held(place: &Place<'_>) -> Option<ShortStr> {
        let len: u8 = place.number(0);
        ShortStr::new(place.slice(1, len)).ok()
    }
}
