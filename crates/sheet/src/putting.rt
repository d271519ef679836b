//! One call put to a sheet, with the beginnings of the buffers that there are.
ghost use Rattle.std.specs.Prelude.{◌≡◌, ◌≤◌, length, IfOk};
ghost use Rattle.sheet.specs.Calls.{listed};
ghost use Rattle.sheet.specs.Runs.{desk, listing, lengths_of, cut_down, fitted, Right, After};
ghost use Rattle.sheet.specs.Views.{ground_of, stands_on};

use super::page::Sheet;
use super::refusal::Refusal;
use super::words::{Answer, Call, Lengths, Listing, Turn};
use engine::Scale;
use text::Kind;

// The lengths that a call asks for; a strike is lent nothing.
fn lengths<K>(call: &Call<K>) -> Lengths
    ensures { result ≡ lengths_of call.now }
{
    match call {
        Call::Strike => Lengths {
            list: 0,
            numbers: 0,
            amounts: 0,
        },
        Call::Stamp(_, x)
        | Call::Next(x)
        | Call::Distance(x)
        | Call::Amount(x)
        | Call::Reading(x) => *x,
    }
}

// Lengths no longer than what there is.
fn cut_down(x: Lengths, list: usize, numbers: usize, amounts: usize) -> Lengths
    ensures { result ≡ cut_down list numbers amounts x }
{
    Lengths {
        list: x.list.min(list),
        numbers: x.numbers.min(numbers),
        amounts: x.amounts.min(amounts),
    }
}

// The call with lengths no longer than what there is.
fn fitted<K>(call: Call<K>, list: usize, numbers: usize, amounts: usize) -> Call<K>
    ensures fitted { result ≡ fitted list numbers amounts call }
    ensures list { (lengths_of result).list ≤ list }
    ensures numbers { (lengths_of result).numbers ≤ numbers }
    ensures amounts { (lengths_of result).amounts ≤ amounts }
{
    match call {
        Call::Stamp(name, x) => Call::Stamp(name, cut_down(x, list, numbers, amounts)),
        Call::Strike => Call::Strike,
        Call::Next(x) => Call::Next(cut_down(x, list, numbers, amounts)),
        Call::Distance(x) => Call::Distance(cut_down(x, list, numbers, amounts)),
        Call::Amount(x) => Call::Amount(cut_down(x, list, numbers, amounts)),
        Call::Reading(x) => Call::Reading(cut_down(x, list, numbers, amounts)),
    }
}

// What a call found and wrote to the front of a buffer, in an array of its own.
fn copied(found: Result<usize, Refusal>, buffer: &[u16]) -> Result<Listing, Refusal>
    requires { IfOk found (λ n. (n ≤ 128) × (n ≤ length buffer.now)) }
    ensures { listing result ≡ listed found buffer.now }
{
    let count = found?;
    let mut numbers = [0; 128];
    numbers[..count].copy_from_slice(&buffer[..count]);
    Ok(Listing { count, numbers })
}

/// Puts one call to the sheet, with buffers no longer than there are, and says what was called and answered.
pub fn put<K: Kind, S: Scale>(
    sheet: &mut Sheet<K>,
    call: Call<K>,
    list: &mut [u16],
    numbers: &mut [u16],
    amounts: &mut [S],
) -> Turn<K, S>
    ensures plan { sheet.new.plan ≡ sheet.old.plan }
    ensures names { sheet.new.names ≡ sheet.old.names }
    ensures called { result.call ≡ fitted (length list.old) (length numbers.old) (length amounts.old) call }
    ensures right { Right (desk K.text S.value S.join S.start S.extend (ground_of K.text sheet.old)) (stands_on K.text sheet.old) result.call result.answer }
    ensures after { After (desk K.text S.value S.join S.start S.extend (ground_of K.text sheet.old)) (stands_on K.text sheet.old) result.call (stands_on K.text sheet.new) }
{
    let call = fitted(call, list.len(), numbers.len(), amounts.len());
    let lent = lengths(&call);
    let list = &mut list[..lent.list];
    let numbers = &mut numbers[..lent.numbers];
    let amounts = &mut amounts[..lent.amounts];
    let answer = match &call {
        Call::Stamp(name, _) => Answer::Stamped(sheet.stamp(*name, numbers, amounts)),
        Call::Strike => Answer::Struck(sheet.strike()),
        Call::Next(_) => {
            let found = sheet.next(list, numbers, amounts);
            Answer::Listed(copied(found, list))
        }
        Call::Distance(_) => Answer::Measured(sheet.distance(numbers, amounts)),
        Call::Amount(_) => Answer::Weighed(sheet.amount(numbers, amounts)),
        Call::Reading(_) => {
            let found = sheet.reading(list, numbers, amounts);
            Answer::Read(copied(found, list))
        }
    };
    Turn { call, answer }
}
