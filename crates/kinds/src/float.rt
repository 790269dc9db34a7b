//! Floats by their bits.
ghost use Rattle.std.specs.Prelude.{◌≡◌, nat_eq};
ghost use Rattle.std.specs.Cmp.Rules.{comparing};
ghost use Rattle.std.specs.Ordering.{on};
ghost use Rattle.std.proofs.Common.{rules};
ghost use Rattle.kinds.specs.Floats.{one_zero};

/// The bits of -0.0.
const NEGATIVE_ZERO: u64 = 9223372036854775808;

/// A float of 64 bits. Equal bits are equal, also of what is no number, and the two zeros are.
#[derive(Clone, Copy, Debug)]
pub struct FloatBits {
    pub bits: u64,
}

/// The bits, with those of -0.0 made those of 0.0.
fn one_zero(bits: u64) -> u64
    ensures { result ≡ one_zero bits }
{
    if bits == NEGATIVE_ZERO { 0 } else { bits }
}

// The equality by hand: the two zeros are equal, and their bits are not.
impl PartialEq for FloatBits {
    ghost eq = { on (λ f. one_zero f.bits) nat_eq };

    ghost laws = { Prim.search (comparing, rules) };

    fn eq(&self, other: &FloatBits) -> bool {
        one_zero(self.bits) == one_zero(other.bits)
    }
}

impl Eq for FloatBits {
    ghost laws = { Prim.search (comparing, rules) };
}
