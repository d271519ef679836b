//! The lines that a load file's judgement is printed in.
ghost use Rattle.std.specs.Prelude.{◌++◌, Some};
ghost use Rattle.load.specs.Printed.{Appends, span_line, finished_lines, report_bytes, refusal_line};

use super::print::{number_line, push_signed, push_text};
use std::alloc::AllocError;

/// What a sheet has whose stamps are a log of the plan.
#[derive(Clone, Copy)]
pub struct Finished<'a> {
    /// The least sum of corrections over all readings.
    pub low: i32,
    /// The greatest.
    pub high: i32,
    /// The bays that every reading asks for, rising.
    pub bays: &'a [u16],
    /// The leaves of the first reading.
    pub reading: &'a [u16],
}

// kept: the definitions of printed lines read these fields, as those of `Finished`
/// What is printed of a load file that is not refused, up to the names that may follow.
#[derive(Clone, Copy)]
pub struct Report<'a> {
    pub items: usize,
    pub vertices: usize,
    pub width: usize,
    pub cuts: usize,
    /// How many stamps stand.
    pub stamps: usize,
    /// The fewest stamps to come.
    pub fewest: usize,
    /// The most stamps to come.
    pub most: usize,
    /// None where the stamps have no reading.
    pub finished: Option<Finished<'a>>,
}

// The line of the least and the greatest correction.
fn write_span(out: &mut Vec<u8>, finished: &Finished) -> Result<(), AllocError>
    ensures { Appends (span_line finished.now.low finished.now.high) out.old out.new result }
{
    push_text(out, b"span")?;
    push_signed(out, finished.low)?;
    push_signed(out, finished.high)?;
    push_text(out, b"\n")
}

// The lines of a sheet that has a reading.
fn write_finished(out: &mut Vec<u8>, finished: &Finished) -> Result<(), AllocError>
    ensures { Appends (finished_lines (Some finished.now)) out.old out.new result }
{
    write_span(out, finished)?;
    number_line(out, b"bays", finished.bays)?;
    number_line(out, b"reading", finished.reading)
}

/// Puts the first five lines behind what is there; where the stamps have no reading, the last three of them end in ` -`.
pub fn write_report(out: &mut Vec<u8>, report: &Report) -> Result<(), AllocError>
    ensures { Appends (report_bytes report.now) out.old out.new result }
{
    number_line(
        out,
        b"plan",
        &[report.items, report.vertices, report.width, report.cuts],
    )?;
    number_line(out, b"stamps", &[report.stamps, report.fewest, report.most])?;
    match &report.finished {
        Some(finished) => write_finished(out, finished),
        None => push_text(out, b"span -\nbays -\nreading -\n"),
    }
}

/// Puts the line of a refused file behind what is there: the refusal's number and its place.
pub fn write_refusal(out: &mut Vec<u8>, number: u8, place: usize) -> Result<(), AllocError>
    ensures { Appends (refusal_line number place) out.old out.new result }
{
    number_line(out, b"refused", &[usize::from(number), place])
}
