ghost use Rattle.plan.specs.Parses.{ParseAnswer};

use super::plan::{NAMES, Plan};
use grammar::{PlanError, Refusal};
use layout::lay_out;
use reader::{Reader, blank_leaves, enter_all, judge};
use std::alloc::Global;
use text::Kind;

// How many bytes a text has at the most.
const BYTES: usize = 2_048;

/// Reads a plan's text. The distinct names are written to the front of the buffer, in the order in which they come first.
pub fn parse<K: Kind>(heap: Global, text: &[u8], names: &mut [K]) -> Result<Plan, PlanError>
    ensures { ParseAnswer K.text K.has text.now names.old names.new result }
{
    if names.len() < NAMES {
        return Err(Refusal::Short(NAMES).into());
    }
    if text.is_empty() || text.len() > BYTES {
        return Err(Refusal::Length.into());
    }
    let mut reader = Reader::new(heap, text);
    let plan = judge::<K>(&mut reader)?;
    let tree = plan.tree?;
    let layout = lay_out(&tree, heap)?;
    let mut leaves = blank_leaves(&reader)?;
    let count = enter_all(&reader, names, &mut leaves);
    Ok(Plan {
        tree,
        leaves,
        names: count,
        rows: layout.rows,
        moves: layout.moves,
    })
}
