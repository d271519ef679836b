//! Reads load files from standard input, each behind a line with the kind of its names and its length in bytes, and prints
//! what the gate program for that kind prints of it.
#![tactic(auto)]

ghost use Rattle.std.specs.Prelude.{length};
ghost use Rattle.std.specs.Iterator.{at_most};

use load::next_line;
use show::judge_file;
use std::io;
use std::io::{Read, Write};
use text::{Badge, Word, number};

// kept: the input says which kind comes next, and a closure for each kind would only be picked by the same words
// The names of a load file.
#[derive(Clone, Copy)]
enum Names {
    Words,
    Badges,
}

// The load files of an input, one after another.
#[derive(Clone, Copy)]
struct Files<'a> {
    rest: &'a [u8],
}

impl<'a> Iterator for Files<'a> {
    type Item = (Names, &'a [u8]);

    ghost remaining = { λ s. at_most (length s.rest.now) };

    fn next(&mut self) -> Option<(Names, &'a [u8])> {
        let line = next_line(self.rest, 0)?;
        let (names, digits) = match line.text {
            [b'b', ..] => (Names::Badges, line.text.get(7..)?),
            _ => (Names::Words, line.text.get(6..)?),
        };
        let length = number(digits, 0, 65535)? as usize;
        let (file, rest) = self.rest[line.next..].split_at_checked(length)?;
        self.rest = rest;
        Some((names, file))
    }
}

fn main(rt: HostRuntime) -> io::Result<()> {
    let mut input = Vec::new(rt.alloc());
    rt.stdin().read_to_end(&mut input)?;
    let rest = input.as_slice();
    let mut out = Vec::new(rt.alloc());
    for (names, file) in (Files { rest }) {
        // kept: the kind of a name is a type, which a call has to spell out
        match names {
            Names::Words => judge_file::<Word>(&rt, b"a", file, &mut out)?,
            Names::Badges => judge_file::<Badge>(&rt, b"0", file, &mut out)?,
        }
    }
    rt.stdout().write_all(out.as_slice())
}
