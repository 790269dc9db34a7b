//! The grades of a detector, which are the values of its kind.
ghost use Rattle.kinds.specs.Detector.{grade_equal, no_grade};
ghost use Rattle.std.proofs.Common.{rules};

use crate::interfaces::Value;

/// How strongly a detector saw something; level 0 is the null.
#[derive(Clone, Copy, PartialEq, Eq, Debug)]
pub struct Grade {
    pub level: u32,
}

impl Value for Grade {
    ghost equal = { grade_equal };

    ghost null = { no_grade };

    ghost equality = { Prim.search rules };

    fn same(&self, other: &Grade) -> bool {
        self == other
    }

    fn null() -> Grade {
        Grade { level: 0 }
    }

    fn is_null(&self) -> bool {
        self.level == 0
    }
}
