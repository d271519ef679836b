ghost use Rattle.std.specs.Prelude.{◌≡◌, ◌-◌, map, reverse, length, Decides};
ghost use Rattle.sheet.specs.Calls.{Checks, short as lack};
ghost use Rattle.engine.specs.Fits.{fits as fits_number, stamped};
ghost use Rattle.engine.specs.Searches.{texts_of};
ghost use Rattle.sheet.specs.Views.{ground_of};
ghost use Rattle.engine.specs.Ways.{Way};

use super::page::Sheet;
use super::refusal::Refusal;
use engine::{Scale, Search, holds_row};
use text::Kind;

// kept: behind `get` and `is_some_and`, what `fits` ensures of the leaf is out of the proof's reach.
// Whether a stamp fits the leaf with this number, if there is one.
fn fits_leaf<K: Kind>(search: &Search<K>, l: usize, stamp: &K) -> bool
    ensures { result ≡ fits_number (texts_of K.text search.now) search.now.leaves.now (K.text stamp.now) l }
{
    l < search.leaves.len() && search.fits(&search.leaves[l], stamp)
}

// Whether a way to the last row reads just the leaves of a list, each of which fits its stamp.
fn is_way<K: Kind>(search: &Search<K>, stamps: &[K], list: &[u16]) -> bool
    requires { length list.now ≡ length stamps.now }
    ensures { Decides result (Way search.now.moves.now (stamped (texts_of K.text search.now) search.now.leaves.now (map K.text stamps.now)) (length stamps.now) (search.now.rows - 1) (reverse list.now)) }
{
    let mut here = search.first_rows();
    for (stamp, l) in stamps.iter().zip(list) {
        if !fits_leaf(search, *l as usize, stamp) {
            return false;
        }
        here = search.rows_after(&here, *l as u8);
    }
    holds_row(&here, 0, search.rows - 1)
}

impl<'a, K: Kind> Sheet<'a, K> {
    /// Whether a list of leaf numbers is a reading of a list of stamps, whatever stands on the sheet.
    pub fn check<S: Scale>(
        &self,
        stamps: &[K],
        leaves: &[u16],
        numbers: &mut [u16],
        amounts: &mut [S],
    ) -> Result<bool, Refusal>
        ensures { Checks (ground_of K.text self.now) (map K.text stamps.now) leaves.now (lack (length (ground_of K.text self.now).texts) (length numbers.old) (length amounts.old)) result }
    {
        self.room(numbers, amounts)?;
        let search = self.search(self.standing());
        if leaves.len() != stamps.len() || leaves.len() > search.leaves.len() {
            return Ok(false);
        }
        Ok(is_way(&search, stamps, leaves))
    }
}
