ghost use Rattle.reader.specs.Branches.{Means, OfShape};
ghost use Rattle.meaning.specs.Shape.{Shape, leaf, bracket, join};
ghost use Rattle.layout.specs.Tree.{sort_of, link_of};

use layout::{Link, Size, Sort, Tree};
use std::alloc::{AllocError, Global};

/// An expression as it is read: its counts and widths, and its tree, or the error once memory has run out.
/// Judging a text needs the sizes alone and goes on without a tree.
#[derive(Drop)]
pub struct Branch {
    pub size: Size,
    pub tree: Result<Tree, AllocError>,
}

impl Branch {
    // kept: the flag is that of a tree's leaf
    /// A name (`true`) or `_`.
    pub fn of_leaf(named: bool) -> Branch
        ensures { Means (leaf named) result }
    {
        Branch {
            size: Size::of_leaf(),
            tree: Ok(Tree::Leaf(named)),
        }
    }

    /// A bracket around this.
    pub fn within(self, heap: Global, sort: Sort) -> Branch
        ensures { (e : Shape) → Means e self → Means (bracket (sort_of sort) e) result }
    {
        Branch {
            size: self.size.within(sort),
            tree: bracketed(heap, sort, self.tree),
        }
    }

    /// This and then the other, joined by a link.
    pub fn joined(self, heap: Global, link: Link, other: Branch) -> Branch
        ensures { (e f : Shape) → Means e self → Means f other → Means (join (link_of link) e f) result }
    {
        Branch {
            size: self.size.joined(link, other.size),
            tree: joined(heap, link, self.tree, other.tree),
        }
    }
}

fn bracketed(heap: Global, sort: Sort, inner: Result<Tree, AllocError>) -> Result<Tree, AllocError>
    ensures { (e : Shape) → OfShape e inner → OfShape (bracket (sort_of sort) e) result }
{
    Ok(Tree::Bracket(sort, Box::new(heap, inner?)?))
}

fn joined(
    heap: Global,
    link: Link,
    first: Result<Tree, AllocError>,
    second: Result<Tree, AllocError>,
) -> Result<Tree, AllocError>
    ensures { (e f : Shape) → OfShape e first → OfShape f second → OfShape (join (link_of link) e f) result }
{
    let left = Box::new(heap, first?)?;
    let right = Box::new(heap, second?)?;
    Ok(Tree::Join(link, left, right))
}
