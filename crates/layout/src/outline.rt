ghost use Rattle.std.specs.Prelude.{◌≡◌, ◌+◌, ◌^◌, ◌<◌, ◌++◌, OnOk};
ghost use Rattle.meaning.specs.Limits.{depth as nesting};
ghost use Rattle.layout.specs.Outlines.{outline_from, OutlinesAreWhole};
ghost use Rattle.meaning.specs.Shape.{items, leaves as leaf_count};
ghost use Rattle.layout.specs.Tree.{shape_of};

use crate::{Sort, Tree};
use std::alloc::AllocError;

/// An item of a plan: a leaf with its number, or a bracket.
#[derive(Clone, Copy, Debug, PartialEq, Eq)]
pub enum Item {
    Name(usize),
    Blank(usize),
    Bracket(Sort),
}

/// An item, and how many brackets stand around it.
#[derive(Clone, Copy, Debug, PartialEq, Eq)]
pub struct Line {
    pub depth: usize,
    pub item: Item,
}

impl Tree {
    // kept: a bracket counts in one and not in the other, which one function would have to be told
    // How many leaves there are.
    fn leaf_count(&self) -> usize
        requires { leaf_count (shape_of self.now) < 2 ^ 32 }
        ensures { result ≡ leaf_count (shape_of self.now) }
    {
        match self {
            Tree::Leaf(_) => 1,
            Tree::Bracket(_, inner) => inner.leaf_count(),
            Tree::Join(_, first, second) => first.leaf_count() + second.leaf_count(),
        }
    }

    /// Adds the items, of which the first leaf has number `leaf`, among `depth` brackets.
    pub fn list_items(
        &self,
        depth: usize,
        leaf: usize,
        lines: &mut Vec<Line>,
    ) -> Result<(), AllocError>
        requires few { leaf + leaf_count (shape_of self.now) < 2 ^ 32 }
        requires shallow { depth + nesting (shape_of self.now) < 2 ^ 32 }
        ensures { OnOk result (lines.new.items ≡ lines.old.items ++ outline_from depth leaf (shape_of self.now)) }
    {
        match self {
            Tree::Leaf(named) => {
                let item = if *named {
                    Item::Name(leaf)
                } else {
                    Item::Blank(leaf)
                };
                lines.push(Line { depth, item })?;
                Ok(())
            }
            Tree::Bracket(sort, inner) => {
                let item = Item::Bracket(*sort);
                lines.push(Line { depth, item })?;
                inner.list_items(depth + 1, leaf, lines)
            }
            Tree::Join(_, first, second) => {
                first.list_items(depth, leaf, lines)?;
                second.list_items(depth, leaf + first.leaf_count(), lines)
            }
        }
    }

    // kept: as at `leaf_count`
    /// How many items there are.
    pub fn item_count(&self) -> usize
        requires { items (shape_of self.now) < 2 ^ 32 }
        ensures { result ≡ items (shape_of self.now) }
    {
        match self {
            Tree::Leaf(_) => 1,
            Tree::Bracket(_, inner) => 1 + inner.item_count(),
            Tree::Join(_, first, second) => first.item_count() + second.item_count(),
        }
    }
}

/// An outline has a line for each item.
pub fn outlines_are_whole()
    ensures { OutlinesAreWhole }
{}
