ghost use Rattle.std.specs.Prelude.{◌≡◌, ◌<◌, ◌≤◌, length};
ghost use Rattle.reader.specs.Judged.{lacks, Unnamed};

use text::{Kind, Part, is_name_byte, part_at};

// Whether a name begins at a place that the kind does not have.
fn lacks_name<K: Kind>(text: &[u8], at: usize) -> bool
    requires { at < length text.now }
    ensures { result ≡ lacks K.has text.now at }
{
    if at > 0 && is_name_byte(text[at - 1]) {
        return false;
    }
    matches!(part_at(text, at), Part::Name { run, .. } if K::of_text(run).is_none())
}

/// The first place below a limit where a name begins that the kind does not have.
pub fn first_unnamed<K: Kind>(text: &[u8], limit: usize) -> Option<usize>
    requires { limit ≤ length text.now }
    ensures { Unnamed K.has text.now limit result }
{
    (0..limit).find(|&at| lacks_name::<K>(text, at))
}
