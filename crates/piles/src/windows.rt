//! A window on a window.
ghost use Rattle.piles.specs.Windows.{WindowsJoin};

use kinds::interfaces::{Id, Name, Value};

/// States that a window on a window shows what one window shows, and when it ends so too.
pub fn windows_join<I: Id, N: Name, V: Value>()
    ensures { WindowsJoin I N V }
{}
