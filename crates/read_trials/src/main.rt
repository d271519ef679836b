//! Reads plans' texts from standard input, one to a line behind `w` (words) or `b` (badges) and a blank, and prints what
//! reading each answers.
#![tactic(auto)]

use plan::parse;
use show::{Lines, show_counts, show_error};
use std::io;
use std::io::Read;
use text::{Badge, Kind, Word};

// What reading a plan answers.
fn show<K: Kind>(rt: &HostRuntime, text: &[u8], names: &mut [K]) -> io::Result<()> {
    match parse(rt.alloc(), text, names) {
        Ok(plan) => show_counts(rt, &plan.counts()),
        Err(error) => show_error(rt, error),
    }
}

// kept: an array needs no heap, which each line would ask for anew, and its names are of one kind
fn show_words(rt: &HostRuntime, text: &[u8]) -> io::Result<()> {
    let Some(name) = Word::of_text(b"a") else {
        return Ok(());
    };
    show(rt, text, &mut [name; 128])
}

// kept: as in `show_words`
fn show_badges(rt: &HostRuntime, text: &[u8]) -> io::Result<()> {
    let Some(name) = Badge::of_text(b"0") else {
        return Ok(());
    };
    show(rt, text, &mut [name; 128])
}

fn answer(rt: &HostRuntime, line: &[u8]) -> io::Result<()> {
    match line {
        [b'w', _, text @ ..] => show_words(rt, text),
        [_, _, text @ ..] => show_badges(rt, text),
        _ => println!(rt; "no kind"),
    }
}

fn main(rt: HostRuntime) -> io::Result<()> {
    let mut input = Vec::new(rt.alloc());
    rt.stdin().read_to_end(&mut input)?;
    for line in Lines::new(input.as_slice(), 0) {
        answer(&rt, line.text)?;
    }
    Ok(())
}
