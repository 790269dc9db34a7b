//! The clock layer and the window in either order.
ghost use Rattle.piles.specs.Exchanged.{CoveredExchange, UnfilledExchange};

use kinds::interfaces::{Id, Name, Value};

/// States that the clock layer and the window may change places where the clock covers every record up to the window's end, and,
/// but for the height of a missing actor, where the window is longer than the list.
pub fn window_and_clock_exchange<I: Id, N: Name, V: Value>()
    ensures covered { CoveredExchange I.Id.actor I.Id.counter N V }
    ensures unfilled { UnfilledExchange I.Id.actor I.Id.counter N V }
{}
