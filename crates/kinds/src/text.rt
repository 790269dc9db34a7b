//! Well-formed text of at most 32 bytes.
ghost use Rattle.kinds.specs.Contents.{content};
ghost use Rattle.measures.specs.Rfc3629.{Utf8Octets};

use crate::short::ShortBytes;

/// Short bytes that are well-formed text by RFC 3629.
#[derive(Clone, Copy, Debug)]
pub struct ShortStr {
    pub(crate) short: ShortBytes,
    ghost well: { ∥ Utf8Octets (content short) ∥₁ },
}
