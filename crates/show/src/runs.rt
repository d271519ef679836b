//! A plan and call lines behind it: the plan is read, the calls are put to a sheet, and all is printed.
use super::answers::show_turn;
use super::buffers::Buffers;
use super::lines::Lines;
use super::plans::{show_counts, show_error};
use super::requests::{LineError, request_of};
use super::serving::serve_lines;
use load::Line;
use plan::{Plan, read};
use sheet::{Bays, Pair, Span, Turn};
use std::io;
use text::Kind;

// Bytes as they are where they can be printed, and in hexadecimal elsewhere.
fn print_bytes(rt: &HostRuntime, bytes: &[u8]) -> io::Result<()> {
    for byte in bytes {
        if *byte >= b' ' && *byte < 127 {
            let c = *byte as char;
            print!(rt; "{c}")?;
        } else {
            // kept: `escape_ascii` would print a tab as `\t` and put a backslash before a quote
            print!(rt; "\\x{byte:02x}")?;
        }
    }
    Ok(())
}

// The number of the refusal of a text that no name has.
const NO_NAME: u8 = 3;

// A stamp of a text that no name has: the place is that of the text's first byte.
fn show_no_name(rt: &HostRuntime, line: &Line) -> io::Result<()> {
    print_bytes(rt, line.text)?;
    let place = line.at.saturating_add(b"stamp ".len());
    println!(rt; ": refused {NO_NAME} {place}")
}

// Prints what each line was answered; turns are those of the lines that ask for a call.
fn show_lines<K: Kind>(
    rt: &HostRuntime,
    text: &[u8],
    from: usize,
    names: &[K],
    turns: &[Turn<K, Pair<Span, Bays>>],
) -> io::Result<()> {
    let mut turns = turns.iter();
    for (i, line) in Lines::new(text, from).enumerate() {
        let number = i.saturating_add(2);
        match request_of::<K>(line.text) {
            Ok(None) => {}
            Ok(Some(_)) => {
                let Some(turn) = turns.next() else {
                    return println!(rt; "line {number}: no memory");
                };
                show_turn(rt, names, turn)?;
            }
            Err(LineError::NoName) => show_no_name(rt, &line)?,
            Err(LineError::NoCall) => println!(rt; "line {number}: no such call")?,
        }
    }
    Ok(())
}

// Puts the calls of the lines from a place on to a sheet, and prints them with their answers.
fn run_lines<K: Kind>(
    rt: &HostRuntime,
    text: &[u8],
    from: usize,
    plan: &Plan,
    names: &[K],
    buffers: &mut Buffers,
) -> io::Result<()> {
    let mut turns = Vec::new(rt.alloc());
    // A call that could not be kept for want of memory has no turn, and is shown as `no memory`.
    let _ = serve_lines(
        text,
        from,
        plan,
        names,
        buffers.list.as_mut_slice(),
        buffers.numbers.as_mut_slice(),
        buffers.amounts.as_mut_slice(),
        &mut turns,
    );
    show_lines(rt, text, from, names, turns.as_slice())
}

/// Reads a plan's text, puts to a sheet over the plan the calls that lines of an input ask for from a place on, and prints
/// each with its answer; or prints why the plan is refused.
pub fn run<K: Kind>(
    rt: &HostRuntime,
    plan_text: &[u8],
    input: &[u8],
    from: usize,
    names: &mut [K],
    buffers: &mut Buffers,
) -> io::Result<()> {
    let mut plan = Plan::new(rt.alloc())?;
    match read(rt.alloc(), plan_text, &mut plan, names) {
        Ok(counts) => {
            show_counts(rt, &counts)?;
            run_lines(rt, input, from, &plan, names, buffers)
        }
        Err(error) => show_error(rt, error),
    }
}
