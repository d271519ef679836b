//! Call lines: what each asks of a sheet, and the lines that its answers are printed in. And what the programs print.
#![tactic(auto)]

mod answers;
mod buffers;
mod gates;
mod lines;
mod names;
mod plans;
mod requests;
mod runs;
mod script;
mod serving;

pub use answers::print_name;
pub use buffers::Buffers;
pub use gates::{gate, judge_file};
pub use lines::{Lines, line_at};
pub use load::Line;
pub use names::names_of;
pub use plans::{show_counts, show_error};
pub use requests::{LineError, request_of};
pub use runs::run;
pub use script::{Script, count_calls, next_call};
pub use serving::serve_lines;
