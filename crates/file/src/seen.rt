//! A section of a file that was checked.
ghost use Rattle.std.specs.Prelude.{◌≡◌, ⊤};
ghost use Rattle.house.specs.Fields.{AllGood, le32};
ghost use Rattle.house.specs.Items.{item_place, items_fields};
ghost use Rattle.file.specs.Indexed.{Indexed};

use crate::index::Index;
use crate::item::Item;
use crate::place::Place;
use std::alloc::AllocError;
use std::marker::PhantomData;

/// A section that was checked: its items are good, and stand behind their count.
pub(crate) struct Section<'a, T: Item> {
    /// How many items it has.
    pub(crate) count: u32,
    /// The place behind the last.
    pub(crate) end: Place<'a>,
    pub(crate) index: Index,
    pub(crate) items: PhantomData<T>,
    ghost counted: { count ≡ le32 end.bytes.now (T.head end.bytes.now) },
    ghost ended: { end.at ≡ item_place T.width (T.head end.bytes.now) end.bytes.now count },
    ghost indexed: { ∥ Indexed (item_place T.width (T.head end.bytes.now) end.bytes.now) count index ∥₁ },
    ghost good: { ∥ AllGood end.bytes.now (items_fields T.count T.fields T.width (T.head end.bytes.now) end.bytes.now) ∥₁ },
}

// By hand: no derive of `Clone` takes the ghost fields of a generic struct.
impl<'a, T: Item> Clone for Section<'a, T> {
    ghost is_clone = { λ section copy. copy ≡ section };

    ghost is_infallible = { λ _. ⊤ };

    fn clone(&self) -> Result<Section<'a, T>, AllocError> {
        Ok(*self)
    }
}

impl<'a, T: Item> Copy for Section<'a, T> {}
