ghost use Rattle.std.specs.Prelude.{◌≡◌, ◌<◌, ◌≤◌, true, length, MatchOption, ◌==◌, slice_index};
ghost use Rattle.text.specs.Bytes.{digit, Longest};
ghost use Rattle.text.specs.Parts.{Run, number_may_begin, sign_byte as byte_of};
ghost use Rattle.reader.specs.Reading.{Sorted, Names};

use layout::Sort;
use text::{Part, Sign, part_at};

// kept: as at `name_end` of the crate text: a struct would be taken apart again at each `part_at`
/// The sort of bracket that begins at a place.
pub fn sort_at(text: &[u8], at: usize) -> Option<Sort>
    ensures { Sorted (slice_index text.now at) result }
{
    // kept: one match over the part takes four lines for each of three patterns
    let Part::Mark { sign, .. } = part_at(text, at) else {
        return None;
    };
    match sign {
        Sign::Lock => Some(Sort::Lock),
        Sign::Choice => Some(Sort::Choice),
        Sign::Interleave => Some(Sort::Interleave),
        _ => None,
    }
}

/// Whether a sign stands at a place.
pub fn stands(text: &[u8], at: usize, sign: Sign) -> bool
    ensures value { result ≡ ((slice_index text.now at) == byte_of sign) }
    ensures within { result ≡ true → at < length text.now }
{
    matches!(part_at(text, at), Part::Mark { sign: found, .. } if found == sign)
}

/// Where the name at a place ends.
pub fn name_at(text: &[u8], at: usize) -> Option<usize>
    ensures { Names text.now at result }
{
    match part_at(text, at) {
        Part::Name { run, .. } => Some(at + run.len()),
        _ => None,
    }
}

/// The digits at a place behind a mark.
pub fn digits_at(text: &[u8], at: usize) -> Option<&[u8]>
    ensures { MatchOption result (at ≤ length text.now → number_may_begin text.now at ≡ true → Longest digit text.now at at) (λ run. Run digit text.now at run.now) }
{
    match part_at(text, at) {
        Part::Digits { run, .. } => Some(run),
        _ => None,
    }
}
