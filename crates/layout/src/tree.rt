/// The sorts of bracket: `!(..)`, `+(..)` and `|(..)`.
#[derive(Clone, Copy, Debug, PartialEq, Eq)]
pub enum Sort {
    Lock,
    Choice,
    Interleave,
}

/// What joins two neighbours: `.`, the `,` of a choice, or the `,` of an interleave.
#[derive(Clone, Copy, Debug, PartialEq, Eq)]
pub enum Link {
    Then,
    Or,
    Beside,
}

/// A plan's expression without names and marks: a leaf is a name (`true`) or `_` (`false`), a bracket holds what its
/// links join, and what joins several is nested to the right.
#[derive(Drop)]
pub enum Tree {
    // kept: the shape of a plan holds the same yes or no at a leaf, so an enum of two would only be turned into it.
    Leaf(bool),
    Bracket(Sort, Box<Tree>),
    Join(Link, Box<Tree>, Box<Tree>),
}
