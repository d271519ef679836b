ghost use Rattle.std.specs.Prelude.{◌≡◌, ◌<◌, ◌≤◌, length, IfOk};
ghost use Rattle.reader.specs.Entering.{HasName, AllNamed, Numbered, Enters, Entered};
ghost use Rattle.reader.specs.Reading.{drafts_of};

use super::draft::Draft;
use super::reader::Reader;
use grammar::Leaf;
use std::alloc::AllocError;
use text::{Entry, Kind, add};

// The number of a name in the directory that the first `count` names of a buffer are, and how many they are then.
fn number<K: Kind>(names: &mut [K], count: usize, name: K) -> (u8, usize)
    requires room { count < length names.old }
    requires small { count < 128 }
    ensures { Numbered K.text names.old names.new count (K.text name) result.0 result.1 }
{
    match add(names, count, name).unwrap() {
        Entry::Known(number) => (number as u8, count),
        Entry::New(number) => (number as u8, number + 1),
    }
}

// The leaf of a draft, and how many names there are then.
fn enter<K: Kind>(text: &[u8], draft: Draft, names: &mut [K], count: usize) -> (Leaf, usize)
    requires named { HasName K.has text.now draft.at draft.end }
    requires room { count < length names.old }
    requires small { count < 128 }
    ensures { Enters K.text text.now draft names.old names.new count result.0 result.1 }
{
    let Draft { at, end, marks } = draft;
    let Some(end) = end else {
        return (Leaf { name: None, marks }, count);
    };
    let name = K::of_text(&text[at..end]).unwrap();
    let (number, more) = number(names, count, name);
    let name = Some(number);
    (Leaf { name, marks }, more)
}

/// As many leaves as a reader has noted, with no names yet.
pub fn blank_leaves(reader: &Reader) -> Result<Vec<Leaf>, AllocError>
    ensures { IfOk result (λ v. length v.items ≡ length (drafts_of reader.now)) }
{
    let drafts = reader.drafts.as_slice();
    drafts
        .iter()
        .map(|draft| Leaf {
            name: None,
            marks: draft.marks,
        })
        .collect(reader.heap)
}

/// Writes the distinct names of a text to the front of a buffer, makes the leaves, and answers how many names there are.
pub fn enter_all<K: Kind>(reader: &Reader, names: &mut [K], leaves: &mut Vec<Leaf>) -> usize
    requires room { 128 ≤ length names.old }
    requires long { length leaves.old.items ≡ length (drafts_of reader.now) }
    requires named { AllNamed K.has reader.now.text.now (drafts_of reader.now) }
    ensures long { length leaves.new.items ≡ length (drafts_of reader.now) }
    ensures entered { Entered K.text reader.now.text.now (drafts_of reader.now) names.old names.new leaves.new.items result (length (drafts_of reader.now)) }
{
    let drafts = reader.drafts.as_slice();
    let mut count = 0;
    // kept: a write through `iter_mut` beside another iterator tells a proof only the length
    for (i, draft) in drafts.iter().enumerate() {
        let (leaf, more) = enter(reader.text, *draft, names, count);
        leaves[i] = leaf;
        count = more;
    }
    count
}
