ghost use Rattle.std.proofs.Common.{rules};

use super::scale::Scale;
use grammar::Marks;

/// Amounts in two scales side by side.
#[derive(Clone, Copy, Debug, PartialEq, Eq)]
pub struct Pair<A, B> {
    pub first: A,
    pub second: B,
}

impl<A: Scale, B: Scale> Scale for Pair<A, B> {
    ghost Value = { A.Scale.Value × B.Scale.Value };

    ghost value = { λ s. (A.Scale.value s.first, B.Scale.value s.second) };

    ghost start = { (A.Scale.start, B.Scale.start) };

    ghost join = { λ x y. (A.Scale.join x.0 y.0, B.Scale.join x.1 y.1) };

    ghost extend = { λ x m. (A.Scale.extend x.0 m, B.Scale.extend x.1 m) };

    ghost idem = { Prim.search rules };

    ghost comm = { Prim.search rules };

    ghost assoc = { Prim.search rules };

    ghost spreads = { Prim.search rules };

    fn begin() -> Pair<A, B> {
        Pair {
            first: A::begin(),
            second: B::begin(),
        }
    }

    fn joined(&self, other: &Pair<A, B>) -> Pair<A, B> {
        Pair {
            first: self.first.joined(&other.first),
            second: self.second.joined(&other.second),
        }
    }

    fn extended(&self, marks: &Marks) -> Pair<A, B> {
        Pair {
            first: self.first.extended(marks),
            second: self.second.extended(marks),
        }
    }
}
