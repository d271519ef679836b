ghost use Rattle.std.specs.Prelude.{◌≡◌, ◌≤◌, length, min, MatchResult};
ghost use Rattle.grammar.specs.Faults.{First};
ghost use Rattle.reader.specs.Judged.{reach};
ghost use Rattle.reader.specs.Judging.{Judges, Granted};
ghost use Rattle.reader.specs.Reading.{any, drafts_of, Unread};

use super::branch::Branch;
use super::names::first_unnamed;
use super::reader::Reader;
use grammar::Refusal;
use text::Kind;

// How many vertices a cut has at the most.
const WIDTH: usize = 8;

// How many cuts a plan has at the most.
const CUTS: u32 = 4_096;

// Up to where names are looked at before a refusal.
fn limit(found: Refusal, len: usize) -> usize
    ensures { result ≡ min (reach found) len }
{
    match found {
        Refusal::Form(at) | Refusal::Mark(at) => at.min(len),
        Refusal::Depth(at) | Refusal::Many(at) => at.saturating_add(1).min(len),
        _ => 0,
    }
}

// The first refusal of all, where one is the first of those that do not depend on the kind.
fn first_refusal<K: Kind>(text: &[u8], found: Refusal) -> Refusal
    requires { First any text.now found }
    ensures { First K.has text.now result }
{
    first_unnamed::<K>(text, limit(found, text.len())).map_or(found, Refusal::NoName)
}

/// Reads a text, of which nothing was read before, and judges it: names, width and number of cuts too.
pub fn judge<K: Kind>(reader: &mut Reader) -> Result<Branch, Refusal>
    requires { Unread reader.old }
    ensures same { reader.new.text ≡ reader.old.text }
    ensures within { reader.new.at ≤ length reader.new.text.now }
    ensures judged { MatchResult result (λ b. Granted K.has reader.old.text.now (drafts_of reader.new) b) (λ f. Judges K.has reader.old.text.now f) }
{
    let plan = reader
        .read()
        .map_err(|found| first_refusal::<K>(reader.text, found))?;
    if let Some(at) = first_unnamed::<K>(reader.text, reader.text.len()) {
        return Err(Refusal::NoName(at));
    }
    let width = plan.size.width();
    if width > WIDTH {
        return Err(Refusal::Width(width));
    }
    if plan.size.cuts() > CUTS {
        return Err(Refusal::Cuts);
    }
    Ok(plan)
}
