ghost use Rattle.std.specs.Prelude.{◌≡◌, ℕ, Bool};
ghost use Rattle.engine.specs.Scales.{bays_of, no_bay, both, with_bay};
ghost use Rattle.std.proofs.Common.{rules};

use super::scale::Scale;
use grammar::Marks;

/// The bays, of 0 to 63, that every one of some readings asks for: a bit for each.
#[derive(Clone, Copy, Debug, PartialEq, Eq)]
pub struct Bays {
    bits: u64,
}

impl Bays {
    /// Whether a bay is among them.
    pub fn holds(&self, bay: u8) -> bool
        ensures { result ≡ bays_of self.now bay }
    {
        bay < 64 && (self.bits >> bay) & 1 == 1
    }
}

impl Scale for Bays {
    ghost Value = { ℕ → Bool };

    ghost value = { bays_of };

    ghost start = { no_bay };

    ghost join = { both };

    ghost extend = { with_bay };

    ghost idem = { Prim.search rules };

    ghost comm = { Prim.search rules };

    ghost assoc = { Prim.search rules };

    ghost spreads = { Prim.search rules };

    fn begin() -> Bays {
        Bays { bits: 0 }
    }

    fn joined(&self, other: &Bays) -> Bays {
        Bays {
            bits: self.bits & other.bits,
        }
    }

    fn extended(&self, marks: &Marks) -> Bays {
        match marks.bay {
            Some(b) if b < 64 => Bays {
                bits: self.bits | (1 << b),
            },
            _ => *self,
        }
    }
}
