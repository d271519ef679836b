//! A buffer for a plan's names.
ghost use Rattle.std.specs.Prelude.{◌≡◌, true, IfOk, OnErr};
ghost use Rattle.show.specs.Rooms.{FilledWith};

use std::alloc::{AllocError, Global};
use text::Kind;

// How many names a plan has at most.
const ROOM: usize = 128;

// kept: a kind has no name that stands for none, so a caller says which text's name fills the room
/// Room for the names of any plan, filled with the name of a text; no room, if the kind has no such name.
/// It fails, for want of memory, only where the kind has the name.
pub fn names_of<K: Kind>(heap: Global, filler: &[u8]) -> Result<Vec<K>, AllocError>
    ensures filled { IfOk result (λ names. FilledWith K.text K.has filler.now names.items) }
    ensures asked { OnErr result (K.has filler.now ≡ true) }
{
    let Some(name) = K::of_text(filler) else {
        return Ok(Vec::new(heap));
    };
    let mut names = Vec::with_capacity(heap, ROOM)?;
    // kept: `vec!` makes clones, and nothing says that a clone of a kind's name has the same text
    for _ in 0..ROOM {
        names.push(name)?;
    }
    Ok(names)
}
