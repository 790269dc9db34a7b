//! Numbers that stand for nothing.
ghost use Rattle.std.specs.Prelude.{◌++◌, Some, codes, decimal};

use std::error::Error;
use std::fmt;

/// A number that no case has.
#[derive(Clone, Copy, PartialEq, Eq, Debug)]
pub struct UnknownNumber(pub u8);

impl fmt::Display for UnknownNumber {
    ghost output = { λ e. Some (codes "no case has the number " ++ decimal e.0) };

    fn fmt<W: fmt::Write>(&self, f: &mut fmt::Formatter<W>) -> fmt::Result {
        let number = self.0;
        write!(f, "no case has the number {number}")
    }
}

impl Error for UnknownNumber {}
