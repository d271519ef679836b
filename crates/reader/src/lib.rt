//! Reads a plan's text: its tree, its leaves and its names, or the first refusal of it. What it exports is for the crate
//! `plan`, whose calls meet what it requires; they are the product's calls.
#![tactic(auto)]

mod bracket;
mod branch;
mod draft;
mod entering;
mod judgement;
mod look;
mod marks;
mod names;
mod reader;

pub use entering::{blank_leaves, enter_all};
pub use judgement::judge;
pub use reader::Reader;
