//! What a bracket of a sort holds.
ghost use Rattle.std.specs.Prelude.{◌≡◌};
ghost use Rattle.grammar.specs.Form.{least as fewest, most as top};
ghost use Rattle.layout.specs.Tree.{sort_of};
ghost use Rattle.reader.specs.Reading.{inner_link};

use layout::{Link, Sort};

/// How many plans a bracket holds at least.
pub fn least(sort: Sort) -> u8
    ensures { result ≡ fewest (sort_of sort) }
{
    match sort {
        Sort::Lock => 1,
        Sort::Choice | Sort::Interleave => 2,
    }
}

/// How many plans a bracket holds at the most.
pub fn most(sort: Sort) -> u8
    ensures { result ≡ top (sort_of sort) }
{
    match sort {
        Sort::Lock => 1,
        Sort::Choice | Sort::Interleave => 8,
    }
}

// kept: a sort is no link, and `link_in(sort)` says more than `sort.into()`
/// What joins the plans of a bracket.
pub fn link_in(sort: Sort) -> Link
    ensures { result ≡ inner_link sort }
{
    match sort {
        Sort::Lock => Link::Then,
        Sort::Choice => Link::Or,
        Sort::Interleave => Link::Beside,
    }
}
