//! Two clock layers.
ghost use Rattle.piles.specs.Clocks.{ClocksJoin};

use kinds::interfaces::{Id, Name, Value};

/// States that two clock layers keep what both clocks cover, and where they stop.
pub fn clocks_join<I: Id, N: Name, V: Value>()
    ensures { ClocksJoin I.Id.actor I.Id.counter N V }
{}
