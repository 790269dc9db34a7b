//! The values of the document kind.
ghost use Rattle.std.specs.Prelude.{◌≡◌, Decides, refl};
ghost use Rattle.std.proofs.Common.{sym, ◌∙◌};
ghost use Rattle.kinds.specs.Equalities.{equal_decides};
ghost use Rattle.kinds.specs.Kinds.{scalar_kind};
ghost use Rattle.kinds.specs.Plain.{equal};
ghost use Rattle.kinds.specs.Values.{kind_number, unsigned_zero, value_equal};
ghost use Rattle.kinds.specs.declared.value.ScalarValue.TheVariants.{Null};

use crate::float::FloatBits;
use crate::interfaces::Value;
use crate::kind::ValueKind;
use crate::short::ShortBytes;
use crate::text::ShortStr;

/// A value of one of ten kinds.
#[derive(Clone, Copy, PartialEq, Eq, Debug)]
pub enum ScalarValue {
    Bytes(ShortBytes),
    Str(ShortStr),
    Int(i64),
    Uint(u64),
    F64(FloatBits),
    Counter(i64),
    Timestamp(i64),
    Boolean(bool),
    /// A value of a kind that is not known here.
    Unknown { type_code: u8, bytes: ShortBytes },
    Null,
}

impl ScalarValue {
    /// The kind of the value.
    pub fn kind(&self) -> ValueKind
        ensures { result ≡ scalar_kind self.now }
    {
        match self {
            ScalarValue::Bytes(_) => ValueKind::Bytes,
            ScalarValue::Str(_) => ValueKind::Str,
            ScalarValue::Int(_) => ValueKind::Int,
            ScalarValue::Uint(_) => ValueKind::Uint,
            ScalarValue::F64(_) => ValueKind::F64,
            ScalarValue::Counter(_) => ValueKind::Counter,
            ScalarValue::Timestamp(_) => ValueKind::Timestamp,
            ScalarValue::Boolean(_) => ValueKind::Boolean,
            ScalarValue::Unknown { .. } => ValueKind::Unknown,
            ScalarValue::Null => ValueKind::Null,
        }
    }

    /// The number of the kind, from 0 to 9.
    pub fn kind_number(&self) -> u8
        ensures { result ≡ kind_number self.now }
    {
        self.kind() as u8
    }
}

impl Value for ScalarValue {
    ghost equal = { value_equal };

    ghost null = { Null };

    ghost equality = { record {
      itself = λ x. (equal_decides x x).1 (refl, refl);
      turned = λ x y h. let e = (equal_decides x y).0 h in (equal_decides y x).1 (sym e.0, sym e.1);
      chained = λ x y z h k.
          let e = (equal_decides x y).0 h in
          let f = (equal_decides y z).0 k in
          (equal_decides x z).1 (e.0 ∙ f.0, e.1 ∙ f.1);
    } };

    /// Whether the kinds and the contents are the same; the two zeros of a float are.
    #[tactic(auto, using(crate::specs::Plain::equal_as_compared, crate::specs::Plain::equal_when_plain))]
    fn same(&self, other: &ScalarValue) -> bool
        ensures equal { result ≡ value_equal self.now other.now }
        ensures plainly { Decides result (unsigned_zero self.now ≡ unsigned_zero other.now) }
    {
        self == other
    }

    fn null() -> ScalarValue {
        Self::Null
    }

    /// Whether this is the case `Null`.
    fn is_null(&self) -> bool
        ensures equal { result ≡ value_equal self.now Null }
        ensures compared { result ≡ equal self.now Null }
        ensures only { Decides result (self.now ≡ Null) }
    {
        matches!(self, ScalarValue::Null)
    }
}
