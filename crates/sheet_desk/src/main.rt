//! Puts calls to a sheet: the first line of standard input is a plan's text, and each line behind it a call. Prints the plan's
//! counts, and each call with its answer.
#![tactic(auto)]

use show::{Buffers, line_at, run};
use std::io;
use std::io::Read;
use text::{Kind, Word};

const USAGE: &str =
    "sheet_desk: no input; the first line is a plan's text, and each further line one of: stamp NAME, strike, next, distance, amount, reading";

fn main(rt: HostRuntime) -> io::Result<()> {
    let mut input = Vec::new(rt.alloc());
    rt.stdin().read_to_end(&mut input)?;
    let text = input.as_slice();
    let Some(plan) = line_at(text, 0) else {
        return println!(rt; "{USAGE}");
    };
    // kept: an array needs no heap
    let Some(name) = Word::of_text(b"a") else {
        return Ok(());
    };
    let mut names = [name; 128];
    let mut buffers = Buffers::new(rt.alloc())?;
    run(&rt, plan.text, text, plan.next, &mut names, &mut buffers)
}
