//! The frame of a load file and its plan, read before its stamp lines.
ghost use Rattle.load.specs.Judged.{OpeningAnswer};

use super::refusal::{LoadError, LoadRefusal, counted_from};
use super::trailer::{Frame, frame_of, plan_of};
use plan::{Counts, Plan, PlanError, read};
use std::alloc::Global;
use text::Kind;

/// Where the parts of a load file stand, and what is told of its plan.
#[derive(Clone, Copy)]
pub struct Opening {
    pub frame: Frame,
    pub counts: Counts,
}

// kept: these are the buffers that `judge` is lent, as in print_judged
// Finds the frame of a load file and reads its plan, with its names, into what is lent for them.
pub fn open_file<K: Kind>(
    heap: Global,
    file: &[u8],
    plan: &mut Plan,
    names: &mut [K],
) -> Result<Opening, LoadError>
    ensures { OpeningAnswer K.text K.has file.now names.old names.new plan.new result }
{
    let frame = frame_of(file).map_err(LoadRefusal::File)?;
    match read(heap, plan_of(file, frame), plan, names) {
        Ok(counts) => Ok(Opening { frame, counts }),
        // kept: a refusal's place moves by the plan's place in the file, which `From` does not know
        Err(PlanError::Refused(refusal)) => {
            let moved = counted_from(refusal, frame.plan);
            Err(LoadError::Refused(LoadRefusal::Plan(moved)))
        }
        Err(PlanError::Memory(error)) => Err(LoadError::Memory(error)),
    }
}
