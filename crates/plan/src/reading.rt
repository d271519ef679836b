//! The call that reads a plan's text.
ghost use Rattle.std.specs.Prelude.{◌≡◌};
ghost use Rattle.plan.specs.Reads.{ReadAnswer, counts_of};
ghost use Rattle.layout.specs.Tree.{shape_of};

use super::parsing::parse;
use super::plan::Plan;
use grammar::PlanError;
use std::alloc::Global;
use text::Kind;

/// What is told of a plan.
#[derive(Clone, Copy, Debug, PartialEq, Eq)]
pub struct Counts {
    pub items: usize,
    /// Two for each item.
    pub vertices: usize,
    /// How many vertices its widest cut has.
    pub width: usize,
    pub cuts: usize,
}

impl Plan {
    /// Its items, vertices, width and cuts.
    pub fn counts(&self) -> Counts
        ensures { result ≡ counts_of (shape_of self.now.tree) }
    {
        let items = self.tree.item_count();
        let size = self.tree.size();
        Counts {
            items,
            vertices: 2 * items,
            width: size.width(),
            cuts: size.cuts() as usize,
        }
    }
}

/// Reads a plan's text into a plan, and its distinct names into the front of a buffer of 128, in the order in which they come
/// first; answers what is told of the plan. Where it is refused, or memory is wanting, plan and names stay as they were.
pub fn read<K: Kind>(
    heap: Global,
    text: &[u8],
    plan: &mut Plan,
    names: &mut [K],
) -> Result<Counts, PlanError>
    ensures { ReadAnswer K.text K.has text.now names.old names.new plan.old plan.new result }
{
    let new = parse(heap, text, names)?;
    let counts = new.counts();
    *plan = new;
    Ok(counts)
}
