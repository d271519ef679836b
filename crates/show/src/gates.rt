//! What a gate program does, for every kind of name.
ghost use Rattle.std.specs.Prelude.{List, length, OnOk};
ghost use Rattle.load.specs.Gates.{Prints};
ghost use Rattle.load.specs.Judged.{lent_short};
ghost use Rattle.show.specs.Rooms.{FilledWith};

use super::names::names_of;
use load::print_file;
use std::io;
use std::io::{Read, Write};
use text::Kind;

// A load file has at most 8,192 bytes: one more tells that it is too long.
const ENOUGH: u64 = 8193;

/// Judges a load file and puts what is printed of it behind what is there; a text whose name fills the room for names.
pub fn judge_file<K: Kind>(
    rt: &HostRuntime,
    filler: &[u8],
    file: &[u8],
    out: &mut Vec<u8>,
) -> io::Result<()>
    ensures { OnOk result ((names : List _) × FilledWith K.text K.has filler.now names
        × Prints K.text K.has file.now names (lent_short (length names) 128 128 32768 8192) out.old.items out.new.items) }
{
    let mut names = names_of::<K>(rt.alloc(), filler)?;
    print_file(rt.alloc(), file, names.as_mut_slice(), out)?;
    Ok(())
}

/// Judges the load file on standard input, and prints its lines, or why it is refused.
pub fn gate<K: Kind>(rt: &HostRuntime, filler: &[u8]) -> io::Result<()> {
    let mut file = Vec::new(rt.alloc());
    rt.stdin().take(ENOUGH).read_to_end(&mut file)?;
    let mut out = Vec::new(rt.alloc());
    judge_file::<K>(rt, filler, file.as_slice(), &mut out)?;
    rt.stdout().write_all(out.as_slice())
}
