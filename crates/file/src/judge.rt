//! What the fields of a record may be, by the parts of the file that they speak of.
ghost use Rattle.std.specs.Prelude.{◌≡◌, ℕ, ◌+◌, ◌<◌, ◌≤◌, Decides, List, length};
ghost use Rattle.sources.specs.Tags.{action_number};
ghost use Rattle.house.specs.Values.{kind_at, values_count};
ghost use Rattle.house.specs.Records.{NameRule, ValueRule, Within};
ghost use Rattle.house.specs.Held.{number_given};

use crate::contents::kind_of;
use crate::frame::Frame;
use kinds::kind::ValueKind;
use sources::record::Action;

impl<'a> Frame<'a> {
    /// Whether a record of the action may have the name number.
    pub(crate) fn name_fits(&self, action: Action, name: Option<u16>) -> bool
        ensures { (n : ℕ) → name ≡ number_given n → Decides result (NameRule self.now.bytes.now (action_number action) n) }
    {
        let Some(number) = name else {
            return true;
        };
        action == Action::Mark && u32::from(number) < self.names
    }

    /// The kind of value `i`.
    fn kind_at(&self, i: u16) -> ValueKind
        requires { i < values_count self.now.bytes.now }
        ensures { result ≡ kind_at self.now.bytes.now i }
    {
        kind_of(self.values.place(i).number(0))
    }

    /// Whether a record of the action with the name number may have the value number.
    pub(crate) fn value_fits(&self, action: Action, name: Option<u16>, value: Option<u16>) -> bool
        ensures { (n m : ℕ) → name ≡ number_given n → value ≡ number_given m → Decides result (ValueRule self.now.bytes.now (action_number action) n m) }
    {
        let named = action == Action::Mark && name.is_some();
        let Some(number) = value else {
            return !named;
        };
        if u32::from(number) >= self.values.count {
            return false;
        }
        named || action == Action::Set && self.kind_at(number) != ValueKind::Str
    }

    /// Whether a number is within the text, where the file reaches its count.
    pub(crate) fn within(&self, n: u64) -> bool
        ensures { Decides result (Within self.now.bytes.now n) }
    {
        self.limit.is_none_or(|count| n <= u64::from(count))
    }
}
