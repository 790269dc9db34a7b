//! A place in a file.
ghost use Rattle.std.specs.Prelude.{◌≡◌, ℕ, ◌+◌, ◌<◌, ◌≤◌, length};
ghost use Rattle.house.specs.Fields.{slice};

use crate::field::Field;
use crate::number::Number;
use house::bad::Part;

/// A place within the bytes of a file.
#[derive(Clone, Copy)]
pub(crate) struct Place<'a> {
    pub(crate) bytes: &'a [u8],
    pub(crate) at: usize,
    ghost within: { at ≤ length bytes.now },
}

impl<'a> Place<'a> {
    /// The field that begins some bytes ahead.
    pub(crate) fn field(&self, ahead: u8, part: Part) -> Field<'a>
        ensures bytes { result.bytes.now ≡ self.now.bytes.now }
        ensures at { result.at ≡ self.now.at + ahead }
        ensures part { result.part ≡ part }
    {
        Field {
            bytes: self.bytes,
            at: self.at + usize::from(ahead),
            part,
        }
    }

    /// Another place of the same file.
    pub(crate) fn to(&self, at: usize) -> Place<'a>
        requires { at ≤ length self.now.bytes.now }
        ensures bytes { result.bytes.now ≡ self.now.bytes.now }
        ensures at { result.at ≡ at }
    {
        Place {
            bytes: self.bytes,
            at,
        }
    }

    /// The place some bytes ahead, which the file reaches.
    pub(crate) fn ahead(&self, count: usize) -> Place<'a>
        requires { self.now.at + count ≤ length self.now.bytes.now }
        ensures bytes { result.bytes.now ≡ self.now.bytes.now }
        ensures at { result.at ≡ self.now.at + count }
    {
        self.to(self.at + count)
    }

    /// The number that stands some bytes ahead, where the file reaches its end.
    pub(crate) fn number<T: Number>(&self, ahead: u8) -> T
        requires { self.now.at + ahead + T.size ≤ length self.now.bytes.now }
        ensures { result ≡ T.standing self.now.bytes.now (self.now.at + ahead) }
    {
        T::found(self.bytes, self.at + usize::from(ahead))
    }

    /// The `len` bytes that stand some bytes ahead, where the file reaches their end.
    pub(crate) fn slice(&self, ahead: u8, len: u8) -> &'a [u8]
        requires { self.now.at + ahead + len ≤ length self.now.bytes.now }
        ensures { result.now ≡ slice self.now.bytes.now (self.now.at + ahead) len }
    {
        let start = self.at + usize::from(ahead);
        &self.bytes[start..start + usize::from(len)]
    }
}
