//! The value that stands at a place of a good file.
ghost use Rattle.std.specs.Prelude.{◌≡◌, ◌+◌, ◌≤◌, length};
ghost use Rattle.kinds.specs.Kinds.{kind_of};
ghost use Rattle.house.specs.Fields.{byte};
ghost use Rattle.house.specs.Values.{LengthOf};
ghost use Rattle.house.specs.Held.{signed_at, value_of};

use crate::place::Place;
use kinds::document::{FloatBits, ScalarValue, ShortBytes, ShortStr};
use kinds::kind::ValueKind;

// As `tag_of` and `action_of`: one line each, not one generic function.

/// The kind of a number; a number that no kind has counts as that of Null.
pub(crate) fn kind_of(number: u8) -> ValueKind
    ensures { result ≡ kind_of number }
{
    ValueKind::try_from(number).unwrap_or(ValueKind::Null)
}

/// The signed number of eight bytes, where the content of a value at a place stands.
fn signed(place: &Place<'_>) -> i64
    requires { place.now.at + 11 ≤ length place.now.bytes.now }
    ensures { result ≡ signed_at place.now.bytes.now (place.now.at + 3) }
{
    place.number::<u64>(3).cast_signed()
}

/// The value of a kind that stands at a place.
pub(crate) fn content_of(kind: ValueKind, place: &Place<'_>) -> Option<ScalarValue>
    requires fits { LengthOf kind (byte place.now.bytes.now (place.now.at + 2)) }
    requires within { let d = place.now.bytes.now in place.now.at + 3 + byte d (place.now.at + 2) ≤ length d }
    ensures { let d = place.now.bytes.now in result ≡ value_of kind d (byte d (place.now.at + 1)) (place.now.at + 3) (byte d (place.now.at + 2)) }
{
    let content = place.slice(3, place.number(2));
    Some(match kind {
        ValueKind::Bytes => ScalarValue::Bytes(ShortBytes::new(content).ok()?),
        ValueKind::Str => ScalarValue::Str(ShortStr::new(content).ok()?),
        ValueKind::Int => ScalarValue::Int(signed(place)),
        ValueKind::Uint => ScalarValue::Uint(place.number(3)),
        ValueKind::F64 => ScalarValue::F64(FloatBits {
            bits: place.number(3),
        }),
        ValueKind::Counter => ScalarValue::Counter(signed(place)),
        ValueKind::Timestamp => ScalarValue::Timestamp(signed(place)),
        ValueKind::Boolean => ScalarValue::Boolean(place.number::<u8>(3) == 1),
        ValueKind::Unknown => ScalarValue::Unknown {
            type_code: place.number(1),
            bytes: ShortBytes::new(content).ok()?,
        },
        ValueKind::Null => ScalarValue::Null,
    })
}
