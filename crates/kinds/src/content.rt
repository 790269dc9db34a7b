//! Short bytes made and read.
ghost use Rattle.std.specs.Prelude.{◌≡◌, ◌<◌, ◌&&◌, length, nat_eq, Decides, MatchResult};
ghost use Rattle.kinds.specs.Contents.{content};
ghost use Rattle.kinds.specs.Making.{short_from};
ghost use Rattle.kinds.specs.declared.refusal.Refusal.TheVariants.{TooLong};
ghost use Rattle.std.specs.Result.{result_ok};
ghost use Rattle.std.specs.Cmp.Rules.{comparing};
ghost use Rattle.std.specs.Ordering.{on};
ghost use Rattle.std.specs.Cmp.Lexicographic.{pointwise};
ghost use Rattle.std.proofs.Common.{rules};

use crate::padded::padded;
use crate::refusal::Refusal;
use crate::short::ShortBytes;

impl ShortBytes {
    /// The bytes as given, at most 32; more are refused.
    pub fn new(bytes: &[u8]) -> Result<ShortBytes, Refusal>
        ensures content { MatchResult result (λ s. content s ≡ bytes.now) (λ e. (e ≡ TooLong) × (32 < length bytes.now)) }
        ensures made { result_ok result ≡ short_from bytes.now }
    {
        let Some(held) = padded(bytes, 0) else {
            return Err(Refusal::TooLong);
        };
        Ok(ShortBytes {
            held,
            len: bytes.len() as u8,
        })
    }

    /// The bytes in use.
    pub fn bytes(&self) -> &[u8]
        ensures { result.now ≡ content self.now }
    {
        let all: &[u8] = &self.held;
        &all[..usize::from(self.len)]
    }
}

// By hand: a derived equality would promise neither that it decides nor that it compares the contents.
impl PartialEq for ShortBytes {
    ghost eq = { λ a b. pointwise nat_eq a.held b.held && nat_eq a.len b.len };

    ghost laws = { Prim.search (comparing, rules) };

    fn eq(&self, other: &ShortBytes) -> bool
        ensures tests { result ≡ (pointwise nat_eq self.now.held other.now.held && nat_eq self.now.len other.now.len) }
        ensures gives { result ≡ on content (pointwise nat_eq) self.now other.now }
        ensures decides { Decides result (self.now ≡ other.now) }
    {
        self.held == other.held && self.len == other.len
    }
}

impl Eq for ShortBytes {
    ghost laws = { Prim.search (comparing, rules) };
}
