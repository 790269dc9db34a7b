//! What a value may be by its kind.
ghost use Rattle.std.specs.Prelude.{◌≡◌, ℕ, ◌≤◌, Decides, length};
ghost use Rattle.house.specs.Values.{CodeRule, LengthOf, length_cause, Content, content_cause};

use kinds::kind::ValueKind;
use kinds::refusal::Refusal;
use measures::judge::well_formed;

/// Whether a value of the kind may have the type code.
pub(crate) fn code_fits(kind: ValueKind, code: u8) -> bool
    ensures { Decides result (CodeRule kind code) }
{
    kind == ValueKind::Unknown || code == 0
}

/// Whether a value of the kind may have so many bytes.
pub(crate) fn length_fits(kind: ValueKind, len: u8) -> bool
    ensures { Decides result (LengthOf kind len) }
{
    match kind {
        ValueKind::Bytes | ValueKind::Str | ValueKind::Unknown => len <= 32,
        ValueKind::Boolean => len == 1,
        ValueKind::Null => len == 0,
        _ => len == 8,
    }
}

/// Why another length is refused.
pub(crate) fn length_cause(kind: ValueKind) -> Refusal
    ensures { result ≡ length_cause kind }
{
    match kind {
        ValueKind::Bytes | ValueKind::Str | ValueKind::Unknown => Refusal::TooLong,
        _ => Refusal::Malformed,
    }
}

/// Whether a value of the kind may have these bytes.
pub(crate) fn content_fits(kind: ValueKind, content: &[u8]) -> bool
    ensures { Decides result (Content kind content.now) }
{
    match kind {
        ValueKind::Str => well_formed(content),
        ValueKind::Boolean => matches!(content, [0 | 1]),
        _ => true,
    }
}

/// Why other bytes are refused.
pub(crate) fn content_cause(kind: ValueKind) -> Refusal
    ensures { result ≡ content_cause kind }
{
    match kind {
        ValueKind::Str => Refusal::IllFormedText,
        _ => Refusal::Malformed,
    }
}
