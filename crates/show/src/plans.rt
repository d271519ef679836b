//! The line that is printed of a plan that was read, or of its refusal.
use plan::{Counts, PlanError};
use std::io;

/// Prints what is told of a plan.
pub fn show_counts(rt: &HostRuntime, counts: &Counts) -> io::Result<()> {
    println!(rt;
        "plan {} {} {} {}",
        counts.items, counts.vertices, counts.width, counts.cuts
    )
}

/// Prints why there is no plan.
pub fn show_error(rt: &HostRuntime, error: PlanError) -> io::Result<()> {
    match error {
        PlanError::Refused(refusal) => {
            let (number, place) = refusal.number_and_place();
            println!(rt; "refused {number} {place}")
        }
        PlanError::Memory(_) => println!(rt; "no memory"),
    }
}
