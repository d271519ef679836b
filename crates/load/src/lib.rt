//! Load files: where a file's plan and its stamp lines stand, and the lines that are printed.
#![tactic(auto)]

mod answers;
mod gate;
mod judgement;
mod judging;
mod lines;
mod names;
mod opening;
mod print;
mod printing;
mod refusal;
mod report;
mod stamps;
mod trailer;

pub use gate::print_file;
pub use judgement::{Completed, Judgement};
pub use judging::judge;
pub use lines::{Line, count_lines, lines_told, next_line};
pub use names::{push_name, write_next};
pub use print::{push_field, push_number, push_signed, push_text};
pub use printing::{write_judgement, write_refused};
pub use refusal::{LoadError, LoadRefusal};
pub use report::{Finished, Report, write_refusal, write_report};
pub use trailer::{FileRefusal, Frame, body_of, frame_of, lines_walked, one_trailer};
