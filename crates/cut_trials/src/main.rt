//! Reads plans' texts from standard input, one to a line, and prints for each how many cuts it has, a sum over its rows, how
//! many moves it has, and a sum over its moves. The sums do not depend on the order of rows and moves.
#![tactic(auto)]

use plan::{Plan, RowMove, parse};
use show::Lines;
use std::io;
use std::io::Read;
use text::{Kind, Word};

// A number for a row: its columns as digits.
fn row_sum(row: &[u16]) -> u64 {
    row.iter().fold(7u64, |sum, vertex| {
        sum.wrapping_mul(65599)
            .wrapping_add(u64::from(*vertex))
            .wrapping_add(1)
    })
}

// A number for a move: those of its rows, and the leaf that it reads.
fn move_sum(sums: &[u64], m: &RowMove) -> u64 {
    let from = sums.get(m.from as usize).copied().unwrap_or(0);
    let to = sums.get(m.to as usize).copied().unwrap_or(0);
    let leaf = m.reads.map_or(0, |leaf| u64::from(leaf) + 1);
    from.wrapping_mul(31)
        .wrapping_add(to.wrapping_mul(37))
        .wrapping_add(leaf.wrapping_mul(1000003))
}

fn show(rt: &HostRuntime, plan: &Plan, buffer: &mut [u16]) -> io::Result<()> {
    let Ok(rows) = plan.lay(buffer) else {
        return println!(rt; "short");
    };
    let mut sums = Vec::new(rt.alloc());
    let mut all: u64 = 0;
    for row in buffer.chunks(8).take(rows) {
        let sum = row_sum(row);
        all = all.wrapping_add(sum);
        sums.push(sum)?;
    }
    let mut moved: u64 = 0;
    for m in plan.moves() {
        moved = moved.wrapping_add(move_sum(sums.as_slice(), m));
    }
    let count = plan.moves().len();
    println!(rt; "cuts {rows} {all} moves {count} {moved}")
}

fn answer(rt: &HostRuntime, line: &[u8], buffer: &mut [u16]) -> io::Result<()> {
    // kept: an array needs no heap, which each line would ask for anew
    let Some(name) = Word::of_text(b"a") else {
        return Ok(());
    };
    let mut names = [name; 128];
    match parse(rt.alloc(), line, &mut names) {
        Ok(plan) => show(rt, &plan, buffer),
        Err(_) => println!(rt; "refused"),
    }
}

fn main(rt: HostRuntime) -> io::Result<()> {
    let mut input = Vec::new(rt.alloc());
    rt.stdin().read_to_end(&mut input)?;
    let mut buffer = vec![in rt.alloc(); 0u16; 32768]?;
    for line in Lines::new(input.as_slice(), 0) {
        answer(&rt, line.text, buffer.as_mut_slice())?;
    }
    Ok(())
}
