//! The check of a record.
ghost use Rattle.std.specs.Prelude.{◌≡◌, ℕ, ◌+◌, ◌*◌, ◌<◌, ◌≤◌, Decides, List, length};
ghost use Rattle.house.specs.Fields.{Judged, byte, le16, le32};
ghost use Rattle.house.specs.Records.{HasText, link_fields, id_fields, text_fields, record_fields};

use crate::decode::number_given;
use crate::frame::Frame;
use crate::place::Place;
use house::bad::{BadFile, Part};
use sources::record::{Action, Diff};

/// A record at a place, among the parts of the file that it speaks of.
#[derive(Clone, Copy)]
pub(crate) struct Row<'a> {
    pub(crate) frame: &'a Frame<'a>,
    pub(crate) at: usize,
    ghost within: { at ≤ length frame.now.bytes.now },
}

impl<'a> Row<'a> {
    /// The place of the record.
    fn place(&self) -> Place<'a>
        ensures bytes { result.bytes.now ≡ self.now.frame.now.bytes.now }
        ensures at { result.at ≡ self.now.at }
    {
        Place {
            bytes: self.frame.bytes,
            at: self.at,
        }
    }

    /// Checks tag, action, name number and value number, and answers whether the record has a text.
    fn links(&self) -> Result<bool, BadFile>
        ensures { let d = self.now.frame.now.bytes.now in Judged d (link_fields d self.now.at) result (λ t. (self.now.at + 6 ≤ length d) × Decides t (HasText (byte d (self.now.at + 1)) (le16 d (self.now.at + 4)))) }
    {
        let place = self.place();
        let _tag: Diff = place.field(0, Part::Tag).case()?;
        let action: Action = place.field(1, Part::Action).case()?;
        let field = place.field(2, Part::NameNumber);
        let name = number_given(field.number()?);
        field.form(self.frame.name_fits(action, name))?;
        let field = place.field(4, Part::ValueNumber);
        let value = number_given(field.number()?);
        field.form(self.frame.value_fits(action, name, value))?;
        Ok(action == Action::Set && value.is_none())
    }

    /// Checks the two zero bytes, counter and actor.
    fn id(&self) -> Result<(), BadFile>
        ensures { let d = self.now.frame.now.bytes.now in Judged d (id_fields d self.now.at) result (λ _. self.now.at + 16 ≤ length d) }
    {
        let place = self.place();
        let field = place.field(6, Part::FirstZero);
        field.form(field.number::<u8>()? == 0)?;
        let field = place.field(7, Part::SecondZero);
        field.form(field.number::<u8>()? == 0)?;
        let _counter: u32 = place.field(8, Part::Counter).number()?;
        let _actor: u32 = place.field(12, Part::Actor).number()?;
        Ok(())
    }

    /// Checks the start and the length of the text.
    fn text(&self, has_text: bool) -> Result<(), BadFile>
        requires { let d = self.now.frame.now.bytes.now in Decides has_text (HasText (byte d (self.now.at + 1)) (le16 d (self.now.at + 4))) }
        ensures { let d = self.now.frame.now.bytes.now in Judged d (text_fields d self.now.at) result (λ _. self.now.at + 24 ≤ length d) }
    {
        let place = self.place();
        let field = place.field(16, Part::TextStart);
        let start = u64::from(field.number::<u32>()?);
        field.form(if has_text {
            self.frame.within(start)
        } else {
            start == 0
        })?;
        let field = place.field(20, Part::TextLength);
        let len = u64::from(field.number::<u32>()?);
        field.form(if has_text {
            self.frame.within(start + len)
        } else {
            len == 0
        })?;
        Ok(())
    }

    /// Checks the record.
    pub(crate) fn check(&self) -> Result<(), BadFile>
        ensures { let d = self.now.frame.now.bytes.now in Judged d (record_fields d self.now.at) result (λ _. self.now.at + 24 ≤ length d) }
    {
        let has_text = self.links()?;
        self.id()?;
        self.text(has_text)
    }
}
