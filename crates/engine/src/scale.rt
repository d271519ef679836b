ghost use Rattle.std.specs.Prelude.{◌≡◌};
ghost use Rattle.grammar.specs.declared.leaf.Marks.{Marks};

use grammar::Marks;

/// What amounts are counted in. An amount means a value of a type that the scale chooses, and start, join and extension
/// are fixed on meanings.
pub trait Scale: Copy {
    // the type of what amounts mean
    ghost Value: { Type 0 };

    ghost value: { Self → Value };

    // where every reading starts
    ghost start: { Value };

    // what two readings come to together
    ghost join: { Value → Value → Value };

    // one leaf more
    ghost extend: { Value → Marks → Value };

    /// The amount that means the start.
    fn begin() -> Self
        ensures { value result ≡ start };

    /// The amount that means the join of two.
    fn joined(&self, other: &Self) -> Self
        ensures { value result ≡ join (value self.now) (value other.now) };

    /// The amount that means this one extended by a leaf's marks.
    fn extended(&self, marks: &Marks) -> Self
        ensures { value result ≡ extend (value self.now) marks.now };

    ghost idem: { (x : Value) → join x x ≡ x };

    ghost comm: { (x y : Value) → join x y ≡ join y x };

    ghost assoc: { (x y z : Value) → join (join x y) z ≡ join x (join y z) };

    ghost spreads: { (x y : Value) (m : Marks) → extend (join x y) m ≡ join (extend x m) (extend y m) };
}
