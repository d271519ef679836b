//! Parts of a plan's text, names of any kind, directories of names, and decimal numbers.
#![tactic(auto)]

mod badge;
mod byte;
mod decimal;
mod directory;
mod front;
mod kind;
mod part;
mod run;
mod word;

pub use badge::Badge;
pub use byte::{is_digit, is_letter, is_name_byte};
pub use decimal::{bay, correction, decimals_agree, number, write_number};
pub use directory::{Entry, add, find, gather};
pub use kind::Kind;
pub use part::{NoSign, Part, Sign, part_at, parts};
pub use run::run_end;
pub use word::Word;
