//! Shows the parts of a plan's text, which is read from standard input, and the plan that it is: its items and its names;
//! or why it is refused.
#![tactic(auto)]

use plan::{Item, Leaf, Line, Plan, Sort, parse};
use show::{print_name, show_counts, show_error};
use std::io;
use std::io::{Read, Write};
use text::{Kind, Part, Word, parts};

// One line for a part: its place, what it is, and its bytes.
fn show_part(rt: &HostRuntime, part: &Part) -> io::Result<()> {
    match part {
        Part::Name { at, run } => show_run(rt, *at, "name", run),
        Part::Digits { at, run } => show_run(rt, *at, "number", run),
        Part::Mark { at, sign } => {
            let c = char::from(u8::from(*sign));
            println!(rt; "{at} sign {c}")
        }
        Part::Other { at, byte } => println!(rt; "{at} byte {byte}"),
        Part::End { at } => println!(rt; "{at} end"),
    }
}

// A run of up to so many bytes is printed with its line in one write.
const SHORT: usize = 256;

// kept: a short run takes one write, with its line; a longer one is not copied, as `println!` would
fn show_run(rt: &HostRuntime, at: usize, what: &str, run: &[u8]) -> io::Result<()> {
    if run.len() <= SHORT {
        if let Ok(text) = std::str::from_utf8(run) {
            return println!(rt; "{at} {what} {text}");
        }
    }
    print!(rt; "{at} {what} ")?;
    rt.stdout().write_all(run)?;
    println!(rt; "")
}

fn show_parts(rt: &HostRuntime, text: &[u8]) -> io::Result<()> {
    for part in &parts(rt.alloc(), text)? {
        show_part(rt, part)?;
    }
    let end = text.len();
    println!(rt; "{end} end")
}

// The name of a leaf and its marks.
fn print_leaf(rt: &HostRuntime, leaf: &Leaf, names: &[Word]) -> io::Result<()> {
    if let Some(word) = leaf.name.and_then(|number| names.get(number as usize)) {
        print_name(rt, word)?;
    }
    let correction = leaf.marks.correction;
    if correction != 0 {
        print!(rt; ":{correction}")?;
    }
    if let Some(bay) = leaf.marks.bay {
        print!(rt; "@{bay}")?;
    }
    Ok(())
}

// One line for an item: its number, behind two blanks for each bracket around it, and what it is.
fn show_item(
    rt: &HostRuntime,
    number: usize,
    line: &Line,
    leaves: &[Leaf],
    names: &[Word],
) -> io::Result<()> {
    for _ in 0..line.depth {
        print!(rt; "  ")?;
    }
    match line.item {
        Item::Bracket(Sort::Lock) => println!(rt; "{number} lock"),
        Item::Bracket(Sort::Choice) => println!(rt; "{number} choice"),
        Item::Bracket(Sort::Interleave) => println!(rt; "{number} interleave"),
        Item::Blank(leaf) => println!(rt; "{number} leaf {leaf} _"),
        Item::Name(leaf) => {
            print!(rt; "{number} leaf {leaf} ")?;
            if let Some(record) = leaves.get(leaf) {
                print_leaf(rt, record, names)?;
            }
            println!(rt; "")
        }
    }
}

fn show_plan(rt: &HostRuntime, plan: &Plan, names: &[Word]) -> io::Result<()> {
    let lines = plan.outline(rt.alloc())?;
    show_counts(rt, &plan.counts())?;
    for (number, line) in lines.iter().enumerate() {
        show_item(rt, number, line, plan.leaves(), names)?;
    }
    let count = plan.names();
    println!(rt; "names {count}")?;
    for (number, word) in names.iter().take(count).enumerate() {
        print!(rt; "{number} ")?;
        print_name(rt, word)?;
        println!(rt; "")?;
    }
    Ok(())
}

fn read(rt: &HostRuntime, text: &[u8]) -> io::Result<()> {
    // kept: an array needs no heap, so what is answered where there is none is what `parse` says
    let Some(name) = Word::of_text(b"a") else {
        return Ok(());
    };
    let mut names = [name; 128];
    match parse(rt.alloc(), text, &mut names) {
        Ok(plan) => show_plan(rt, &plan, &names),
        Err(error) => show_error(rt, error),
    }
}

fn main(rt: HostRuntime) -> io::Result<()> {
    let mut input = Vec::new(rt.alloc());
    rt.stdin().read_to_end(&mut input)?;
    let text = input.as_slice();
    let text = text.strip_suffix(b"\n").unwrap_or(text);
    show_parts(&rt, text)?;
    read(&rt, text)
}
