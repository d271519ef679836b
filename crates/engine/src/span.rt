ghost use Rattle.std.specs.Prelude.{ℤ};
ghost use Rattle.engine.specs.Scales.{no_span, wider, moved_by};
ghost use Rattle.engine.specs.Signs.{int_min-assoc, int_max-assoc, int_min-spreads, int_max-spreads};
ghost use Rattle.std.proofs.Common.{rules};

use super::scale::Scale;
use grammar::Marks;

/// The least and the greatest sum of corrections over some readings.
#[derive(Clone, Copy, Debug, PartialEq, Eq)]
pub struct Span {
    pub low: i32,
    pub high: i32,
}

impl Scale for Span {
    ghost Value = { ℤ × ℤ };

    ghost value = { λ s. (s.low, s.high) };

    ghost start = { no_span };

    ghost join = { wider };

    ghost extend = { moved_by };

    ghost idem = { Prim.search rules };

    ghost comm = { Prim.search rules };

    ghost assoc = { λ x y z i. (int_min-assoc x.0 y.0 z.0 i, int_max-assoc x.1 y.1 z.1 i) };

    ghost spreads = { λ x y m i. (int_min-spreads x.0 y.0 m.correction i, int_max-spreads x.1 y.1 m.correction i) };

    fn begin() -> Span {
        Span { low: 0, high: 0 }
    }

    fn joined(&self, other: &Span) -> Span {
        Span {
            low: self.low.min(other.low),
            high: self.high.max(other.high),
        }
    }

    fn extended(&self, marks: &Marks) -> Span {
        let by = i32::from(marks.correction);
        Span {
            low: self.low.saturating_add(by),
            high: self.high.saturating_add(by),
        }
    }
}
