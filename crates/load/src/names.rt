//! The printed line of the names that may follow.
ghost use Rattle.std.specs.Prelude.{map};
ghost use Rattle.std.specs.List.{flat_map};
ghost use Rattle.load.specs.Printed.{Appends, spaced, named, next_line};

use super::print::push_text;
use std::alloc::AllocError;
use text::Kind;

/// Puts a space and a name's text behind what is there.
pub fn push_name<K: Kind>(out: &mut Vec<u8>, name: &K) -> Result<(), AllocError>
    ensures { Appends (spaced (K.text name.now)) out.old out.new result }
{
    push_text(out, b" ")?;
    let mut buffer = [0; 12];
    let n = name.write(&mut buffer).unwrap();
    push_text(out, &buffer[..n])
}

// kept: one of the six lines has names, so a struct of both would serve these functions alone
// Puts a space and the text of the name of a number behind what is there.
fn push_numbered<K: Kind>(out: &mut Vec<u8>, names: &[K], number: u16) -> Result<(), AllocError>
    ensures { Appends (named (map K.text names.now) number) out.old out.new result }
{
    match names.get(usize::from(number)) {
        Some(name) => push_name(out, name),
        None => push_text(out, b" "),
    }
}

// The same for each number of a list.
fn push_named<K: Kind>(out: &mut Vec<u8>, names: &[K], list: &[u16]) -> Result<(), AllocError>
    ensures { Appends (flat_map (named (map K.text names.now)) list.now) out.old out.new result }
{
    for n in list {
        push_numbered(out, names, *n)?;
    }
    Ok(())
}

/// Puts the sixth line behind what is there: the texts of the names whose numbers a list has.
pub fn write_next<K: Kind>(out: &mut Vec<u8>, names: &[K], list: &[u16]) -> Result<(), AllocError>
    ensures { Appends (next_line (map K.text names.now) list.now) out.old out.new result }
{
    push_text(out, b"next")?;
    push_named(out, names, list)?;
    push_text(out, b"\n")
}
