ghost use Rattle.std.specs.Prelude.{◌≡◌, ℕ, ◌≤◌, false, List, length, IfOk, slice_index};
ghost use Rattle.text.specs.Bytes.{name_byte};
ghost use Rattle.grammar.specs.Machine.{Frame, naming};
ghost use Rattle.grammar.specs.Ranges.{BayInRange, InRange};
ghost use Rattle.reader.specs.Reading.{Onward, Here, Marked, Corrected, Housed, WholeLeaf, spot_at};

use super::look::{digits_at, stands};
use grammar::{Marks, Refusal};
use text::{Sign, bay, correction};

// kept: as at `name_end` of the crate text: a struct would be taken apart again at each `part_at`
// The correction at a place behind a name, 0 if there is none, and where it ends.
fn correction_at(text: &[u8], at: usize) -> Result<(i16, usize), Refusal>
    requires { at ≤ length text.now }
    ensures onward { IfOk result (λ x. Onward text.now at x.1) }
    ensures read { (n k : ℕ) (fs : List Frame) → Here (spot_at text.now at n k) fs naming → name_byte (slice_index text.now at) ≡ false → Corrected text.now at n k fs result }
{
    if !stands(text, at, Sign::Colon) {
        return Ok((0, at));
    }
    let mark = at + 1;
    let minus = stands(text, mark, Sign::Minus);
    let from = mark + usize::from(minus);
    let run = digits_at(text, from).ok_or(Refusal::Form(from))?;
    let kilograms = correction(minus, run).ok_or(Refusal::Mark(mark))?;
    Ok((kilograms, from + run.len()))
}

// The bay at a place behind a name or its correction, if there is one, and where it ends.
fn bay_at(text: &[u8], at: usize) -> Result<(Option<u8>, usize), Refusal>
    requires { at ≤ length text.now }
    ensures onward { IfOk result (λ x. Onward text.now at x.1) }
    ensures ranged { IfOk result (λ x. BayInRange x.0) }
    ensures read { (n k : ℕ) (fs : List Frame) → Marked (spot_at text.now at n k) fs → Housed text.now at n k fs result }
{
    if !stands(text, at, Sign::At) {
        return Ok((None, at));
    }
    let from = at + 1;
    let run = digits_at(text, from).ok_or(Refusal::Form(from))?;
    let number = bay(run).ok_or(Refusal::Mark(from))?;
    Ok((Some(number), from + run.len()))
}

/// The marks at a place behind a name, and where they end.
pub fn marks_at(text: &[u8], at: usize) -> Result<(Marks, usize), Refusal>
    requires { at ≤ length text.now }
    ensures onward { IfOk result (λ x. Onward text.now at x.1) }
    ensures ranged { IfOk result (λ x. InRange x.0) }
    ensures read { (n k : ℕ) (fs : List Frame) → Here (spot_at text.now at n k) fs naming → name_byte (slice_index text.now at) ≡ false → WholeLeaf text.now at n k fs result }
{
    let (correction, to) = correction_at(text, at)?;
    let (bay, to) = bay_at(text, to)?;
    Ok((Marks { correction, bay }, to))
}
