//! The items of a plan, and its counts and widths.
ghost use Rattle.std.specs.Prelude.{◌≡◌, IfOk};
ghost use Rattle.layout.specs.Outlines.{outline as outline_of};
ghost use Rattle.layout.specs.Sizes.{Sizes};
ghost use Rattle.layout.specs.Tree.{shape_of};

use super::plan::Plan;
use layout::{Line, Size};
use std::alloc::{AllocError, Global};

impl Plan {
    /// The items of the plan in the order of their numbers.
    pub fn outline(&self, heap: Global) -> Result<Vec<Line>, AllocError>
        ensures { IfOk result (λ v. v.items ≡ outline_of (shape_of self.now.tree)) }
    {
        let mut lines = Vec::new(heap);
        self.tree.list_items(0, 0, &mut lines)?;
        Ok(lines)
    }

    /// The counts and widths of the plan.
    pub fn size(&self) -> Size
        ensures { Sizes (shape_of self.now.tree) result }
    {
        self.tree.size()
    }
}
