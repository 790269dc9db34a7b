//! A record of a good file, its fields taken apart.
ghost use Rattle.std.specs.Prelude.{◌≡◌, ℕ, ◌+◌, ◌≤◌, length};
ghost use Rattle.sources.specs.Tags.{tag_of, action_of};
ghost use Rattle.house.specs.Held.{number_given};
ghost use Rattle.file.specs.Given.{place_given, record_standing};

use crate::fields::FileRecord;
use crate::place::Place;
use kinds::document::OpId;
use sources::record::{Action, Diff};
use sources::table::TextPlace;

// A number and no case: it is the one in the file itself, read into an `Option` at once.
/// The number in a file that stands for no name and for no value.
const NONE: u16 = 65535;

// One line each, not one generic function: that would be told the last case, and promise no more.

/// The tag of a number; a number that no tag has counts as that of Del.
fn tag_of(number: u8) -> Diff
    ensures { result ≡ tag_of number }
{
    Diff::try_from(number).unwrap_or(Diff::Del)
}

/// The action of a number; a number that no action has counts as that of Mark.
fn action_of(number: u8) -> Action
    ensures { result ≡ action_of number }
{
    Action::try_from(number).unwrap_or(Action::Mark)
}

/// The number, unless it stands for none.
pub(crate) fn number_given(number: u16) -> Option<u16>
    ensures { result ≡ number_given number }
{
    (number != NONE).then_some(number)
}

/// Where the text of a record stands, if it has one.
fn place_given(action: Action, value: Option<u16>, start: u32, len: u32) -> Option<TextPlace>
    ensures { (a v : ℕ) → action ≡ action_of a → value ≡ number_given v → result ≡ place_given a v start len }
{
    let place = TextPlace {
        start: start as usize,
        len: len as usize,
    };
    (action == Action::Set && value.is_none()).then_some(place)
}

/// The record that stands at a place.
pub(crate) fn record_of(place: &Place<'_>) -> FileRecord
    requires { place.now.at + 24 ≤ length place.now.bytes.now }
    ensures { result ≡ record_standing place.now.bytes.now place.now.at }
{
    let action = action_of(place.number(1));
    let value = number_given(place.number(4));
    FileRecord {
        tag: tag_of(place.number(0)),
        action,
        name: number_given(place.number(2)),
        value,
        id: OpId {
            counter: place.number(8),
            actor: place.number(12),
        },
        text: place_given(action, value, place.number(16), place.number(20)),
    }
}
