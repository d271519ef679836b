//! Where runs of bytes end.
ghost use Rattle.std.specs.Prelude.{◌≡◌, ℕ, ◌≤◌, Bool, length};
ghost use Rattle.text.specs.Bytes.{Longest};

/// Where the longest run of bytes that pass a test ends, from a place of a text on.
pub fn run_end<F: Fn(u8) -> bool>(text: &[u8], at: usize, passes: F) -> usize
    requires callable { F.IsAlwaysCallable passes }
    requires within { at ≤ length text.now }
    ensures { (test : ℕ → Bool) → ((b : ℕ) (r : Bool) → F.post passes b r → r ≡ test b) → Longest test text.now at result }
{
    // kept: with `position` and `map_or` the longest run stays open, since the closure's answers stand behind two calls
    for (n, b) in text[at..].iter().enumerate() {
        if !passes(*b) {
            return at + n;
        }
    }
    text.len()
}
