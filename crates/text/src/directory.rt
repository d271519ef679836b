ghost use Rattle.std.specs.Prelude.{map};
ghost use Rattle.text.specs.Directory.{Finds, Adds, Gathers};

use super::kind::Kind;

/// The number of a name in a directory.
#[derive(Clone, Copy, Debug, PartialEq, Eq)]
pub enum Entry {
    /// It was there before.
    Known(usize),
    /// It has just been written, behind the others.
    New(usize),
}

/// Where among the names the text of this one stands first.
pub fn find<K: Kind>(names: &[K], name: &K) -> Option<usize>
    ensures { Finds (map K.text names.now) (K.text name.now) result }
{
    names.iter().position(|x| x.same(name))
}

/// Puts a name to the directory that the first `len` names of a buffer are: a new one is written behind them.
/// `None` where it is new and there is no room; the buffer then stays as it was.
// kept: the directory is the front of a buffer that the caller lends, whose other entries stay as they are
pub fn add<K: Kind>(names: &mut [K], len: usize, name: K) -> Option<Entry>
    ensures { Adds K.text names.old names.new len name result }
{
    let count = len.min(names.len());
    if let Some(i) = find(&names[0..count], &name) {
        return Some(Entry::Known(i));
    }
    if len >= names.len() {
        return None;
    }
    names[len] = name;
    Some(Entry::New(len))
}

/// Writes the distinct names of a list to the front of a buffer, in the order in which they come first,
/// and answers how many there are. `None` where there is no room for all: the buffer is then full of the first ones.
pub fn gather<K: Kind>(list: &[K], names: &mut [K]) -> Option<usize>
    ensures { Gathers K.text list.now names.old names.new result }
{
    let mut len = 0;
    for x in list {
        if let Entry::New(n) = add(names, len, *x)? {
            len = n + 1;
        }
    }
    Some(len)
}
