//! What a load file is judged to be.
use plan::Counts;
use sheet::{Bays, Pair, Span};

/// What a sheet has whose stamps are a log of the plan.
#[derive(Clone, Copy)]
pub struct Completed {
    /// The least and the greatest sum of corrections over all readings, and the bays that every reading asks for.
    pub amount: Pair<Span, Bays>,
    /// How many leaves the first reading has, which stands in the buffer for it.
    pub leaves: usize,
}

/// All that is printed of a load file that is not refused; its lists stand in the buffers for results.
#[derive(Clone, Copy)]
pub struct Judgement {
    /// The counts of its plan.
    pub counts: Counts,
    /// How many stamps stand.
    pub stamps: usize,
    /// The fewest stamps to come.
    pub fewest: usize,
    /// The most stamps to come.
    pub most: usize,
    /// None where the stamps have no reading.
    pub finished: Option<Completed>,
    /// How many names may follow, whose numbers stand in the buffer for them.
    pub next: usize,
}
