//! Sheets: the calls on a sheet of a plan, and the law over runs of calls.
#![tactic(auto)]

mod calls;
mod check;
mod check_laws;
mod clerk;
mod example_laws;
mod over;
mod page;
mod player;
mod putting;
mod refusal;
mod service;
mod words;

pub use check_laws::checked_so;
pub use clerk::Clerk;
pub use engine::{
    Bays, Pair, Scale, Span, amount_is_joined, distance_is, next_is, readings_are_ways,
    taken_iff_live,
};
pub use example_laws::{all_examples, keeping_is_mistaken};
pub use page::Sheet;
pub use player::{Player, play};
pub use putting::put;
pub use refusal::Refusal;
pub use service::serve;
pub use words::{Answer, Call, Lengths, Listing, Turn};
