//! Sections of items behind a count: their check, and what each item holds.
ghost use Rattle.std.specs.Prelude.{◌≡◌, ℕ, ◌+◌, ◌<◌, ◌≤◌, List, length, cond, nat_lt, None};
ghost use Rattle.house.specs.Fields.{Judged, le32};
ghost use Rattle.house.specs.Items.{item_place, items_fields};

use crate::index::Index;
use crate::item::Item;
use crate::place::Place;
use crate::seen::Section;
use house::bad::BadFile;
use std::marker::PhantomData;

/// Checks the section whose count stands at a place.
pub(crate) fn section<'a, T: Item>(head: &Place<'a>) -> Result<Section<'a, T>, BadFile>
    requires { head.now.at ≡ T.head head.now.bytes.now }
    ensures { let d = head.now.bytes.now in Judged d (items_fields T.count T.fields T.width (T.head d) d) result (λ s. s.end.bytes.now ≡ d) }
{
    let count: u32 = head.field(0, T::part()).number()?;
    let mut place = head.ahead(4);
    let mut index = Index::empty();
    for i in 0..count {
        index.note(i, place.at);
        place = T::check(&place)?;
    }
    Ok(Section {
        count,
        end: place,
        index,
        items: PhantomData,
    })
}

impl<'a, T: Item> Section<'a, T> {
    /// The place of item `i`: from the index, or a walk of fewer than 256 items from a place there.
    pub(crate) fn place(&self, i: u16) -> Place<'a>
        requires { i < self.now.count }
        ensures bytes { result.bytes.now ≡ self.now.end.bytes.now }
        ensures at { let d = self.now.end.bytes.now in result.at ≡ item_place T.width (T.head d) d i }
    {
        if i < 256 {
            return self.end.to(self.index.near(i));
        }
        let mut place = self.end.to(self.index.far(i));
        // A `for` and not a fold, which would carry the same place; by a count from 0, of which the compiler takes several steps at once.
        for _ in 0..i % 256 {
            place = T::behind(&place);
        }
        place
    }

    /// What item `i` holds, or none past the last.
    pub(crate) fn get(&self, i: u16) -> Option<T::Held>
        ensures { let d = self.now.end.bytes.now in result ≡ cond (nat_lt i self.now.count) (T.standing d (item_place T.width (T.head d) d i)) None }
    {
        if u32::from(i) < self.count {
            T::held(&self.place(i))
        } else {
            None
        }
    }
}
