//! Judges a load file with badges for names, which is read from standard input, and prints its lines, or why it is refused.
#![tactic(auto)]

use show::gate;
use std::io;
use text::Badge;

fn main(rt: HostRuntime) -> io::Result<()> {
    gate::<Badge>(&rt, b"0")
}
