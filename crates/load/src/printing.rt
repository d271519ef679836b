//! What is printed of a judgement, or of a refusal.
ghost use Rattle.std.specs.Prelude.{◌≡◌, ℕ, ◌≤◌, List, map, take};
ghost use Rattle.engine.specs.Scales.{bays_of};
ghost use Rattle.load.specs.Printed.{Appends, finished_lines, report_bytes};
ghost use Rattle.load.specs.JudgementLines.{members, completed_lines, judged_bytes, judgement_bytes, refused_bytes};

use super::judgement::Judgement;
use super::names::write_next;
use super::refusal::LoadRefusal;
use super::report::{Finished, Report, write_refusal, write_report};
use sheet::Bays;
use std::alloc::AllocError;
use text::Kind;

// How many bays there may be.
const BAYS: u8 = 64;

// The first so many of a list, or all where it has no more.
fn front(list: &[u16], count: usize) -> &[u16]
    ensures { result.now ≡ take count list.now }
{
    &list[..count.min(list.len())]
}

// Writes the bays of a set, rising, to the front of a buffer, and says how many they are.
fn list_bays(bays: &Bays, list: &mut [u16; 64]) -> usize
    ensures within { result ≤ 64 }
    ensures listed { take result list.new ≡ members (bays_of bays.now) 64 }
{
    // kept: a list on the heap could fail where there is room for the printed lines
    let mut count = 0;
    for bay in 0..BAYS {
        if bays.holds(bay) {
            list[count] = u16::from(bay);
            count += 1;
        }
    }
    count
}

// The report of a judgement, with what its sheet has where it has a reading.
fn report_of<'a>(judgement: &Judgement, finished: Option<Finished<'a>>) -> Report<'a>
    ensures { (reading : List ℕ) → finished_lines finished.entry ≡ completed_lines reading judgement.now.finished
        → report_bytes result ≡ judged_bytes reading judgement.now }
{
    let counts = judgement.counts;
    Report {
        items: counts.items,
        vertices: counts.vertices,
        width: counts.width,
        cuts: counts.cuts,
        stamps: judgement.stamps,
        fewest: judgement.fewest,
        most: judgement.most,
        finished,
    }
}

// Puts the first five lines behind what is there.
fn write_judged(out: &mut Vec<u8>, judgement: &Judgement, reading: &[u16]) -> Result<(), AllocError>
    ensures { Appends (judged_bytes reading.now judgement.now) out.old out.new result }
{
    let mut list = [0; 64];
    // kept: of a `map` or an assignment the borrow checker does not follow `Finished`, whose two lists live for two lifetimes
    match &judgement.finished {
        Some(completed) => {
            let count = list_bays(&completed.amount.second, &mut list);
            let finished = Finished {
                low: completed.amount.first.low,
                high: completed.amount.first.high,
                bays: &list[..count],
                reading: front(reading, completed.leaves),
            };
            write_report(out, &report_of(judgement, Some(finished)))
        }
        None => write_report(out, &report_of(judgement, None)),
    }
}

/// Puts all six lines behind what is there, with the first reading and the names that may follow from their buffers.
pub fn write_judgement<K: Kind>(
    out: &mut Vec<u8>,
    judgement: &Judgement,
    names: &[K],
    reading: &[u16],
    next: &[u16],
) -> Result<(), AllocError>
    ensures { Appends (judgement_bytes reading.now (map K.text names.now) next.now judgement.now) out.old out.new result }
{
    write_judged(out, judgement, reading)?;
    write_next(out, names, front(next, judgement.next))
}

/// Puts the line of a refused file behind what is there: the refusal's number and its place.
pub fn write_refused(out: &mut Vec<u8>, refusal: LoadRefusal) -> Result<(), AllocError>
    ensures { Appends (refused_bytes refusal) out.old out.new result }
{
    let (number, place) = refusal.number_and_place();
    write_refusal(out, number, place)
}
