//! What a call on a sheet needs, and what it goes over.
ghost use Rattle.std.specs.Prelude.{◌≡◌, ◌≤◌, true, length, take, nat_lt};
ghost use Rattle.text.specs.Bytes.{every};
ghost use Rattle.sheet.specs.Calls.{Answered, shortage, short as lack, short_list as lack_list};
ghost use Rattle.sheet.specs.Views.{GoesOver, ground_of};

use super::page::Sheet;
use super::refusal::Refusal;
use engine::Search;
use text::Kind;

// How many names a call needs.
const NAMES: usize = 128;

// How long a list for results must be.
const LIST: usize = 128;

// How many numbers a call needs as scratch.
const NUMBERS: usize = 32768;

// How many amounts a call needs as scratch.
const AMOUNTS: usize = 8192;

// Refuses the first length that is too short, of lengths each with what is needed.
fn enough(lengths: &[(usize, usize)]) -> Result<(), Refusal>
    ensures { Answered (shortage lengths.now) (λ _. Unit {0}) (λ _. ⊥) result }
{
    for (len, needed) in lengths {
        if len < needed {
            return Err(Refusal::Short(*needed));
        }
    }
    Ok(())
}

impl<'a, K: Kind> Sheet<'a, K> {
    /// Refuses names, numbers and amounts where one of them is shorter than needed.
    pub(crate) fn room<S>(&self, numbers: &[u16], amounts: &[S]) -> Result<(), Refusal>
        ensures { Answered (lack (length (ground_of K.text self.now).texts) (length numbers.now) (length amounts.now)) (λ _. Unit {0}) (λ _. ⊥) result }
    {
        enough(&[
            (self.names.len(), NAMES),
            (numbers.len(), NUMBERS),
            (amounts.len(), AMOUNTS),
        ])
    }

    /// The same where there is a list for results, which comes behind the names.
    pub(crate) fn room_for_list<S>(
        &self,
        list: &[u16],
        numbers: &[u16],
        amounts: &[S],
    ) -> Result<(), Refusal>
        ensures { Answered (lack_list (length (ground_of K.text self.now).texts) (length list.now) (length numbers.now) (length amounts.now)) (λ _. Unit {0}) (λ _. ⊥) result }
    {
        enough(&[
            (self.names.len(), NAMES),
            (list.len(), LIST),
            (numbers.len(), NUMBERS),
            (amounts.len(), AMOUNTS),
        ])
    }

    /// The stamps that stand, as numbers of names.
    pub(crate) fn standing(&self) -> &[u8]
        ensures { result.now ≡ take self.now.count self.now.stamps }
    {
        &self.stamps[..self.count]
    }

    /// What a call goes over, with these stamps.
    pub(crate) fn search<'s>(&'s self, stamps: &'s [u8]) -> Search<'s, K>
        requires room { 128 ≤ length self.now.names.now }
        requires among { every (λ n. nat_lt n (length self.now.names.now)) stamps.now ≡ true }
        ensures { GoesOver self.now.plan.now self.now.names.now stamps.now result }
    {
        Search {
            moves: self.plan.moves(),
            leaves: self.plan.leaves(),
            names: self.names,
            stamps,
            rows: self.plan.rows(),
        }
    }
}
