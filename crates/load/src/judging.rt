//! One call that judges a whole load file.
ghost use Rattle.std.specs.Prelude.{◌≡◌, length, None, Err, MatchOption};
ghost use Rattle.std.specs.Result.{IsOk};
ghost use Rattle.sheet.specs.Views.{ground_over};
ghost use Rattle.load.specs.Files.{stamp_lines};
ghost use Rattle.load.specs.Judged.{Judging, LeftAlone, StampsJudged, lent_short};

use super::answers::answers;
use super::judgement::Judgement;
use super::opening::{Opening, open_file};
use super::refusal::{LoadError, LoadRefusal};
use super::stamps::stamp_lines;
use super::trailer::body_of;
use plan::Plan;
use sheet::{Bays, Pair, Sheet, Span};
use std::alloc::Global;
use text::Kind;

// How long each buffer must be.
const LIST: usize = 128;

const NUMBERS: usize = 32768;

const AMOUNTS: usize = 8192;

// kept: five lengths with two results among them; the check of `sheet` is of three or four, and told on a sheet
// Whether the buffers are as long as needed; or the length needed of the first that is shorter.
fn long_enough(
    names: usize,
    reading: usize,
    next: usize,
    numbers: usize,
    amounts: usize,
) -> Result<(), LoadRefusal>
    ensures { MatchOption (lent_short names reading next numbers amounts) (IsOk result) (λ n. result ≡ Err (LoadRefusal.Short n)) }
{
    if names < LIST || reading < LIST || next < LIST {
        Err(LoadRefusal::Short(LIST))
    } else if numbers < NUMBERS {
        Err(LoadRefusal::Short(NUMBERS))
    } else if amounts < AMOUNTS {
        Err(LoadRefusal::Short(AMOUNTS))
    } else {
        Ok(())
    }
}

// Judges the stamp lines of a file over its plan.
fn judge_stamps<'x, K: Kind>(
    file: &[u8],
    opening: Opening,
    plan: &'x Plan,
    names: &'x [K],
    reading: &mut [u16],
    next: &mut [u16],
    numbers: &mut [u16],
    amounts: &mut [Pair<Span, Bays>],
) -> Result<Judgement, LoadError>
    requires { lent_short (length names.now) (length reading.old) (length next.old) (length numbers.old) (length amounts.old) ≡ None }
    ensures { StampsJudged K.has (ground_over K.text plan.now names.now) (stamp_lines file.now opening.frame) opening.counts reading.old reading.new next.old next.new result }
{
    let counts = opening.counts;
    let from = opening.frame.stamps;
    let mut sheet = Sheet::open(plan, names);
    let stamps = stamp_lines(&mut sheet, body_of(file), from, numbers, amounts)?;
    Ok(answers(&sheet, stamps, counts, reading, next, numbers, amounts))
}

/// Judges a whole load file: reads its plan, with its names, into what is lent for them, stamps its lines, and answers all
/// that is printed of it, with the first reading and the names that may follow in the buffers for them.
pub fn judge<K: Kind>(
    heap: Global,
    file: &[u8],
    plan: &mut Plan,
    names: &mut [K],
    reading: &mut [u16],
    next: &mut [u16],
    numbers: &mut [u16],
    amounts: &mut [Pair<Span, Bays>],
) -> Result<Judgement, LoadError>
    ensures answer { Judging K.text K.has file.now names.old names.new plan.new reading.old reading.new next.old next.new (lent_short (length names.old) (length reading.old) (length next.old) (length numbers.old) (length amounts.old)) result }
    ensures kept { LeftAlone result reading.old reading.new next.old next.new }
{
    long_enough(
        names.len(),
        reading.len(),
        next.len(),
        numbers.len(),
        amounts.len(),
    )?;
    let opening = open_file(heap, file, plan, names)?;
    judge_stamps(file, opening, plan, names, reading, next, numbers, amounts)
}
