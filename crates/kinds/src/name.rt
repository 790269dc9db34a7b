//! Short texts made, read and ordered: the names of the document kind.
ghost use Rattle.std.specs.Prelude.{◌≡◌, nat_eq, Decides, MatchResult, refl};
ghost use Rattle.kinds.specs.Making.{text_from};
ghost use Rattle.kinds.specs.Names.{spelled, name_below, Unfit};
ghost use Rattle.measures.specs.Rfc3629.{Utf8Octets};
ghost use Rattle.std.specs.Result.{result_ok};
ghost use Rattle.std.specs.Cmp.{partial_order_from_agreeing_total};
ghost use Rattle.std.specs.Cmp.Rules.{comparing};
ghost use Rattle.std.specs.Ordering.{on, nat_cmp, as_partial_cmp};
ghost use Rattle.std.specs.Cmp.Lexicographic.{slice_cmp, pointwise};
ghost use Rattle.std.proofs.Common.{rules};
ghost use Rattle.kinds.specs.Spellings.{texts_ordered, ranked_names, ties_are_equal};

use crate::interfaces::{Name, Ordered};
use crate::refusal::Refusal;
use crate::short::ShortBytes;
use crate::text::ShortStr;
use measures::judge::well_formed;
use std::cmp::Ordering;
use std::str::from_utf8_unchecked;

impl ShortStr {
    /// The text of these bytes. More than 32 are refused first, then ill-formed ones.
    pub fn new(bytes: &[u8]) -> Result<ShortStr, Refusal>
        ensures spells { MatchResult result (λ s. spelled s ≡ bytes.now) (λ e. Unfit bytes.now e) }
        ensures made { result_ok result ≡ text_from bytes.now }
    {
        let short = ShortBytes::new(bytes)?;
        if !well_formed(bytes) {
            return Err(Refusal::IllFormedText);
        }
        Ok(ShortStr { short })
    }

    /// The bytes of the text, which are well-formed.
    pub fn bytes(&self) -> &[u8]
        ensures spells { result.now ≡ spelled self.now }
        ensures well { Utf8Octets result.now }
    {
        self.short.bytes()
    }

    /// The text as a `&str`.
    pub fn as_str(&self) -> &str
        ensures { result.now ≡ spelled self.now }
    {
        unsafe { from_utf8_unchecked(self.bytes()) }
    }
}

// By hand, as that of short bytes.
impl PartialEq for ShortStr {
    ghost eq = { λ a b. ⟦<ShortBytes as PartialEq>⟧.eq a.short b.short };

    ghost laws = { Prim.search (comparing, rules) };

    fn eq(&self, other: &ShortStr) -> bool
        ensures tests { result ≡ ⟦<ShortBytes as PartialEq>⟧.eq self.now.short other.now.short }
        ensures gives { result ≡ on spelled (pointwise nat_eq) self.now other.now }
        ensures decides { Decides result (self.now ≡ other.now) }
    {
        self.short == other.short
    }
}

impl Eq for ShortStr {
    ghost laws = { Prim.search (comparing, rules) };
}

// The order by hand: a derived one is the same, but that zeros behind the bytes change nothing is more to show than this is to write.
impl PartialOrd for ShortStr {
    ghost partial_cmp = { as_partial_cmp (on spelled (slice_cmp nat_cmp)) };

    ghost laws = { partial_order_from_agreeing_total (on spelled (slice_cmp nat_cmp)) (Prim.search (comparing, rules)) (λ _ _. refl) ties_are_equal };

    fn partial_cmp(&self, other: &ShortStr) -> Option<Ordering> {
        Some(self.cmp(other))
    }
}

impl Ord for ShortStr {
    ghost cmp = { on spelled (slice_cmp nat_cmp) };

    ghost total = { Prim.search (comparing, rules) };

    ghost matches_partial_cmp = { Prim.search (comparing, rules) };

    ghost matches_eq = { ties_are_equal };

    /// By bytes, a prefix first.
    fn cmp(&self, other: &ShortStr) -> Ordering {
        self.bytes().cmp(other.bytes())
    }
}

impl Ordered for ShortStr {
    ghost below = { name_below };

    ghost orders = { record {
      ordered = texts_ordered;
      answers = λ a b. ranked_names a b _ _ _ refl refl refl;
    } };
}

impl Name for ShortStr {
    ghost below = { name_below };

    ghost ordered = { texts_ordered };

    fn order(&self, other: &ShortStr) -> Ordering {
        self.cmp(other)
    }
}
