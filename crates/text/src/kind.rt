ghost use Rattle.std.specs.Prelude.{◌≡◌, ℕ, Bool, true, false, List, Decides, MatchOption};
ghost use Rattle.text.specs.Bytes.{Writes};
ghost use Rattle.text.specs.Names.{Shaped};

/// A sort of name. What a name means is its text, and which texts have a name is fixed with the kind.
pub trait Kind: Copy {
    // the text of a name
    ghost text: { Self → List ℕ };

    // the texts that have a name
    ghost has: { List ℕ → Bool };

    /// The name of a text, for exactly those texts that have one.
    fn of_text(bytes: &[u8]) -> Option<Self>
        ensures { MatchOption result (has bytes.now ≡ false) (λ x. text x ≡ bytes.now) };

    /// Writes the text of a name at the front of a buffer and answers how long it is;
    /// nothing is written where the buffer is shorter than that.
    fn write(&self, buffer: &mut [u8]) -> Option<usize>
        ensures { Writes (text self.now) buffer.old buffer.new result };

    /// Whether two names have the same text.
    // kept: `PartialEq` would say when two names are one, and a kind may have several names with one text
    fn same(&self, other: &Self) -> bool
        ensures { Decides result (text self.now ≡ text other.now) };

    ghost named: { (x : Self) → has (text x) ≡ true };

    ghost shaped: { (t : List ℕ) → has t ≡ true → Shaped t };
}
