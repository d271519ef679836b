//! Runs of calls: a clerk asks, a sheet answers, and a transcript is kept.
ghost use Rattle.std.specs.Prelude.{◌+◌, ◌<◌, length, is_ok, vec_len, vec_capacity, OnErr};
ghost use Rattle.sheet.specs.Runs.{desk, fitted, Served};
ghost use Rattle.sheet.specs.Views.{ground_over};

use super::clerk::Clerk;
use super::page::Sheet;
use super::putting::put;
use super::words::{Answer, Turn};
use engine::Scale;
use plan::Plan;
use std::alloc::AllocError;
use text::Kind;

/// Opens a sheet and puts to it so many calls, each chosen by a clerk who has seen the answers before it. The turns are
/// added to a transcript.
pub fn serve<'x, K: Kind, S: Scale, C: Clerk<K, S>>(
    plan: &'x Plan,
    names: &'x [K],
    clerk: &mut C,
    turns: usize,
    list: &mut [u16],
    numbers: &mut [u16],
    amounts: &mut [S],
    log: &mut Vec<Turn<K, S>>,
) -> Result<(), AllocError>
    ensures served { Served (desk K.text S.value S.join S.start S.extend (ground_over K.text plan.now names.now)) C.asks (fitted (length list.old) (length numbers.old) (length amounts.old)) clerk.old turns log.old.items log.new.items (is_ok result) }
    ensures stops { OnErr result (vec_capacity log.old < vec_len log.old + turns) }
{
    let mut sheet = Sheet::open(plan, names);
    let mut last = Answer::Opened;
    for _ in 0..turns {
        let call = clerk.ask(&last);
        let turn = put(&mut sheet, call, list, numbers, amounts);
        last = turn.answer;
        log.push(turn)?;
    }
    Ok(())
}
