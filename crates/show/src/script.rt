//! The calls that a text's lines ask for, in turn.
ghost use Rattle.std.specs.Prelude.{◌≡◌};
ghost use Rattle.show.specs.Asking.{Finds, Counted};
ghost use Rattle.show.specs.Scripts.{Takes};

use super::lines::Lines;
use super::requests::call_of;
use sheet::{Answer, Call, Clerk};
use text::Kind;

// kept: the definition `Takes` reads a script's `lines` and `at`, and so the calls on lines take a text and a place
/// The first call that a line of a text asks for, from a place on, and where the next line begins.
pub fn next_call<K: Kind>(text: &[u8], from: usize) -> Option<(Call<K>, usize)>
    ensures { Finds K.text K.has text.now from result }
{
    for line in Lines::new(text, from) {
        if let Some(call) = call_of::<K>(line.text) {
            return Some((call, line.next));
        }
    }
    None
}

/// How many calls the lines of a text ask for, from a place on.
pub fn count_calls<K: Kind>(text: &[u8], from: usize) -> usize
    ensures { Counted K.text K.has text.now from result }
{
    let mut count = 0;
    for line in Lines::new(text, from) {
        if call_of::<K>(line.text).is_some() {
            count += 1;
        }
    }
    count
}

// kept: the definition `Takes` reads `lines` and `at`, so an iterator of lines does not stand for them
/// Asks for the calls of a text's lines, one after another, and strikes once they are over.
#[derive(Drop)]
pub struct Script<'a> {
    lines: &'a [u8],
    at: usize,
}

impl<'a> Script<'a> {
    /// The lines of a text from a place on.
    pub fn new(lines: &'a [u8], at: usize) -> Script<'a>
        ensures lines { result.lines.now ≡ lines.now }
        ensures place { result.at ≡ at }
    {
        Script { lines, at }
    }
}

impl<'a, K: Kind, S> Clerk<K, S> for Script<'a> {
    ghost asks = { λ c a k m. Takes K.text K.has c k m };

    fn ask(&mut self, _last: &Answer<S>) -> Call<K> {
        match next_call::<K>(self.lines, self.at) {
            Some((call, next)) => {
                self.at = next;
                call
            }
            None => Call::Strike,
        }
    }
}
