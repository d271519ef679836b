//! What a gate program prints of a load file, for every kind of name.
ghost use Rattle.std.specs.Prelude.{length, OnOk};
ghost use Rattle.load.specs.Gates.{Prints};
ghost use Rattle.load.specs.Judged.{lent_short};

use super::judging::judge;
use super::printing::{write_judgement, write_refused};
use super::refusal::LoadError;
use plan::Plan;
use sheet::{Bays, Pair, Scale, Span};
use std::alloc::{AllocError, Global};
use text::Kind;

// Judges a load file in what is lent, and puts what is printed of it behind what is there.
fn print_judged<K: Kind>(
    heap: Global,
    file: &[u8],
    plan: &mut Plan,
    names: &mut [K],
    reading: &mut [u16],
    next: &mut [u16],
    numbers: &mut [u16],
    amounts: &mut [Pair<Span, Bays>],
    out: &mut Vec<u8>,
) -> Result<(), AllocError>
    ensures { OnOk result (Prints K.text K.has file.now names.old (lent_short (length names.old) (length reading.old) (length next.old) (length numbers.old) (length amounts.old)) out.old.items out.new.items) }
{
    match judge(heap, file, plan, names, reading, next, numbers, amounts) {
        Ok(judgement) => write_judgement(out, &judgement, names, reading, next),
        Err(LoadError::Refused(refusal)) => write_refused(out, refusal),
        Err(LoadError::Memory(error)) => Err(error),
    }
}

/// Judges a load file and puts what is printed of it behind what is there: its six lines, or the line of its refusal. The
/// names buffer is working memory.
pub fn print_file<K: Kind>(
    heap: Global,
    file: &[u8],
    names: &mut [K],
    out: &mut Vec<u8>,
) -> Result<(), AllocError>
    ensures { OnOk result (Prints K.text K.has file.now names.old (lent_short (length names.old) 128 128 32768 8192) out.old.items out.new.items) }
{
    let mut plan = Plan::new(heap)?;
    let mut reading = [0; 128];
    let mut next = [0; 128];
    let mut numbers = [0; 32768];
    let mut amounts = [Pair::<Span, Bays>::begin(); 8192];
    print_judged(
        heap,
        file,
        &mut plan,
        names,
        &mut reading,
        &mut next,
        &mut numbers,
        &mut amounts,
        out,
    )
}
