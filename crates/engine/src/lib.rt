//! The engine of the calls on a sheet: amounts in any scale, and one pass over a plan's rows and moves that answers every
//! call. What it exports is for the crate `sheet`, whose calls meet what it requires; they are the product's calls.
#![tactic(auto)]

mod advance;
mod amounts;
mod answer_laws;
mod bays;
mod distance;
mod finish;
mod first;
mod fitting;
mod least;
mod next;
mod pair;
mod row_set;
mod scale;
mod searching;
mod span;
mod stage;
mod sweep;

pub use answer_laws::{amount_is_joined, distance_is, next_is, readings_are_ways, taken_iff_live};
pub use bays::Bays;
pub use pair::Pair;
pub use row_set::holds_row;
pub use scale::Scale;
pub use searching::Search;
pub use span::Span;
