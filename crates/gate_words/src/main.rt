//! Judges a load file with words for names, which is read from standard input, and prints its lines, or why it is refused.
#![tactic(auto)]

use show::gate;
use std::io;
use text::Word;

fn main(rt: HostRuntime) -> io::Result<()> {
    gate::<Word>(&rt, b"a")
}
