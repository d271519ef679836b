//! The call that writes a plan's text.
ghost use Rattle.std.specs.Prelude.{◌≡◌, ◌≤◌, map, length};
ghost use Rattle.layout.specs.Tree.{shape_of};
ghost use Rattle.plan.specs.Writes.{Renders};
ghost use Rattle.grammar.specs.Written.{written};

use super::plan::{NAMES, Plan};
use super::writer::{first_twice, leaf_length, write_tree};
use grammar::Refusal;
use text::Kind;

impl Plan {
    // How many bytes its text has: those of its leaves, one between neighbours, and three for each bracket.
    fn text_length<K: Kind>(&self, names: &[K]) -> usize
        requires { self.now.names ≤ length names.now }
        ensures { result ≡ length (written (shape_of self.now.tree) self.now.leaves.items (map K.text names.now)) }
    {
        let brackets = self.tree.item_count() - self.leaves.len();
        let mut length = 3 * brackets;
        // kept: of a chain's `sum` a proof knows the value and no bound, so whether the brackets can be added to it stays open
        for leaf in &self.leaves {
            length += leaf_length(*leaf, names) + 1;
        }
        length - 1
    }

    /// Writes the plan's text under the names handed over at the front of a buffer, and answers its length. It is refused where
    /// there are fewer than 128 names, where the buffer is shorter than the text, and where one of the plan's names stands
    /// twice; the buffer then stays as it was.
    pub fn write<K: Kind>(&self, names: &[K], buffer: &mut [u8]) -> Result<usize, Refusal>
        ensures { Renders (written (shape_of self.now.tree) self.now.leaves.items (map K.text names.now)) (map K.text names.now) self.now.names buffer.old buffer.new result }
    {
        if names.len() < NAMES {
            return Err(Refusal::Short(NAMES));
        }
        let length = self.text_length(names);
        if buffer.len() < length {
            return Err(Refusal::Short(length));
        }
        if let Some(n) = first_twice(names, self.names) {
            return Err(Refusal::Twice(n));
        }
        Ok(write_tree(&self.tree, &mut self.leaves.iter(), names, buffer))
    }
}
