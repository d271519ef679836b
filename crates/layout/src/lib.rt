//! Plans as trees: their counts and widths, their items, and their cuts laid out in rows with the moves between them. What it
//! exports is for the crate `plan`, whose calls meet what it requires; they are the product's calls.
#![tactic(auto)]

mod counts;
mod layout;
mod layout_laws;
mod outline;
mod rows;
mod tree;

pub use counts::Size;
pub use layout_laws::{few_moves_leave, plans_are_laid};
pub use outline::{Item, Line, outlines_are_whole};
pub use rows::lay_out;
pub use tree::{Link, Sort, Tree};
