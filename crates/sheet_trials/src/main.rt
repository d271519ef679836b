//! Reads blocks from standard input, each of a plan's text behind `w` (words) or `b` (badges) and a blank, call lines, and a
//! blank line, and prints for each block the plan's counts and every call with its answer.
#![tactic(auto)]

ghost use Rattle.std.specs.Prelude.{◌+◌, ◌≤◌, length};

use show::{Buffers, Line, Lines, line_at, names_of, run};
use std::io;
use std::io::Read;
use text::{Badge, Kind, Word};

#[cfg(test)]
mod rooms;

// Where a block ends: at a blank line, or with the text.
fn block_end(text: &[u8], from: usize) -> usize
    requires { from ≤ length text.now + 1 }
    ensures forward { from ≤ result + 1 }
    ensures within { result ≤ length text.now }
{
    for line in Lines::new(text, from) {
        if line.text.is_empty() {
            return line.at;
        }
    }
    text.len()
}

// A plan over the kind's names, with the call lines from a place on; a text whose name fills the room for names.
fn try_plan<K: Kind>(
    rt: &HostRuntime,
    filler: &[u8],
    plan: &[u8],
    text: &[u8],
    from: usize,
    buffers: &mut Buffers,
) -> io::Result<()> {
    let mut names = names_of::<K>(rt.alloc(), filler)?;
    run(rt, plan, text, from, names.as_mut_slice(), buffers)
}

// One block: the text ends with it.
fn try_block(rt: &HostRuntime, text: &[u8], first: &Line, buffers: &mut Buffers) -> io::Result<()> {
    if let Some(plan) = first.text.strip_prefix(b"w ") {
        try_plan::<Word>(rt, b"a", plan, text, first.next, buffers)
    } else if let Some(plan) = first.text.strip_prefix(b"b ") {
        try_plan::<Badge>(rt, b"0", plan, text, first.next, buffers)
    } else {
        println!(rt; "no kind")
    }
}

fn main(rt: HostRuntime) -> io::Result<()> {
    let mut input = Vec::new(rt.alloc());
    rt.stdin().read_to_end(&mut input)?;
    let mut buffers = Buffers::new(rt.alloc())?;
    let text = input.as_slice();
    let mut at = 0;
    // kept: only `main` goes over blocks, and an iterator for them alone is longer
    while let Some(line) = line_at(text, at) {
        let end = block_end(text, line.next);
        try_block(&rt, &text[..end], &line, &mut buffers)?;
        at = end + 1;
    }
    Ok(())
}
