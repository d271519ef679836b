//! The printed line of a turn: the call, and what it was answered.
ghost use Rattle.std.specs.Result.{ForOk};

use sheet::{Answer, Bays, Call, Pair, Refusal, Span, Turn};
use std::io;
use std::io::Write;
use text::Kind;

/// Prints a name's text.
pub fn print_name<K: Kind>(rt: &HostRuntime, name: &K) -> io::Result<()> {
    let mut buffer = [0; 12];
    let n = name.write(&mut buffer).unwrap();
    rt.stdout().write_all(&buffer[..n])
}

fn print_call<K: Kind>(rt: &HostRuntime, call: &Call<K>) -> io::Result<()> {
    match call {
        Call::Stamp(name, _) => {
            print!(rt; "stamp ")?;
            print_name(rt, name)?;
            print!(rt; ":")
        }
        Call::Strike => print!(rt; "strike:"),
        Call::Next(_) => print!(rt; "next:"),
        Call::Distance(_) => print!(rt; "distance:"),
        Call::Amount(_) => print!(rt; "amount:"),
        Call::Reading(_) => print!(rt; "reading:"),
    }
}

// Prints the rest of the line: what was found, or why the call was refused. What is short is one write, with its line feed.
fn show_result<T, F: FnOnce(T) -> io::Result<()>>(
    rt: &HostRuntime,
    res: Result<T, Refusal>,
    show: F,
) -> io::Result<()>
    requires { ForOk res (F.pre show) }
{
    match res {
        Ok(found) => show(found),
        Err(refusal) => {
            let (number, length) = refusal.code();
            println!(rt; " refused {number} {length}")
        }
    }
}

// The texts of the names of these numbers.
fn print_names<K: Kind>(rt: &HostRuntime, names: &[K], list: &[u16]) -> io::Result<()> {
    for number in list {
        if let Some(name) = names.get(usize::from(*number)) {
            print!(rt; " ")?;
            print_name(rt, name)?;
        }
    }
    println!(rt; "")
}

fn print_amount(rt: &HostRuntime, amount: &Pair<Span, Bays>) -> io::Result<()> {
    let low = amount.first.low;
    let high = amount.first.high;
    print!(rt; " span {low} {high} bays")?;
    for bay in (0..64u8).filter(|bay| amount.second.holds(*bay)) {
        print!(rt; " {bay}")?;
    }
    println!(rt; "")
}

fn print_leaves(rt: &HostRuntime, leaves: &[u16]) -> io::Result<()> {
    for leaf in leaves {
        print!(rt; " {leaf}")?;
    }
    println!(rt; "")
}

/// Prints a call and its answer in one line.
pub fn show_turn<K: Kind>(
    rt: &HostRuntime,
    names: &[K],
    turn: &Turn<K, Pair<Span, Bays>>,
) -> io::Result<()> {
    print_call(rt, &turn.call)?;
    match turn.answer {
        Answer::Opened => println!(rt; ""),
        Answer::Stamped(result) => show_result(rt, result, |()| println!(rt; " taken")),
        Answer::Struck(result) => show_result(rt, result, |()| println!(rt; " struck")),
        Answer::Listed(result) => {
            show_result(rt, result, |listing| print_names(rt, names, listing.list()))
        }
        Answer::Measured(result) => {
            show_result(
                rt,
                result,
                |(fewest, most)| println!(rt; " {fewest} {most}"),
            )
        }
        Answer::Weighed(result) => show_result(rt, result, |amount| print_amount(rt, &amount)),
        Answer::Read(result) => {
            show_result(rt, result, |listing| print_leaves(rt, listing.list()))
        }
    }
}
