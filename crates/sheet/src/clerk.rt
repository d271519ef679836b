ghost use Rattle.sheet.specs.declared.words.Answer.{Answer};
ghost use Rattle.sheet.specs.declared.words.Call.{Call};

use super::words::{Answer, Call};

/// Who asks: each call may be chosen by the answers before it. `asks c a k m` says what is known of a clerk `c` that is
/// told `a`: it asks for `k`, and is `m` then. An impl that leaves `asks` out may do anything.
pub trait Clerk<K, S> {
    ghost asks: { Self → Answer S → Call K → Self → Type 0 } = { λ _ _ _ _. Unit {0} };

    fn ask(&mut self, last: &Answer<S>) -> Call<K>
        ensures { asks self.old last.now result self.new };
}
