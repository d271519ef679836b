//! What a sheet answers of a load file's stamps.
ghost use Rattle.std.specs.Prelude.{◌≡◌, length, None};
ghost use Rattle.sheet.specs.Calls.{short as lack, short_list as lack_list};
ghost use Rattle.sheet.specs.Views.{ground_of, stands_on};
ghost use Rattle.load.specs.Judged.{AnswersOf, ToCome, Finishes, Lists};

use super::judgement::{Completed, Judgement};
use plan::Counts;
use sheet::{Bays, Pair, Sheet, Span};
use text::Kind;

// The fewest and the most stamps to come: some log begins with those that stand.
fn to_come<K: Kind>(
    sheet: &Sheet<K>,
    numbers: &mut [u16],
    amounts: &mut [Pair<Span, Bays>],
) -> (usize, usize)
    requires { lack (length (ground_of K.text sheet.now).texts) (length numbers.old) (length amounts.old) ≡ None }
    ensures { ToCome (ground_of K.text sheet.now) (stands_on K.text sheet.now) result.0 result.1 }
{
    let (fewest, most) = sheet.distance(numbers, amounts).unwrap();
    (usize::from(fewest), usize::from(most))
}

// The amount and the first reading of the standing stamps, where they have one.
fn finished<K: Kind>(
    sheet: &Sheet<K>,
    reading: &mut [u16],
    numbers: &mut [u16],
    amounts: &mut [Pair<Span, Bays>],
) -> Option<Completed>
    requires enough { lack (length (ground_of K.text sheet.now).texts) (length numbers.old) (length amounts.old) ≡ None }
    requires room { lack_list (length (ground_of K.text sheet.now).texts) (length reading.old) (length numbers.old) (length amounts.old) ≡ None }
    ensures { Finishes (ground_of K.text sheet.now) (stands_on K.text sheet.now) reading.old reading.new result }
{
    let amount = sheet.amount(numbers, amounts).ok()?;
    let leaves = sheet.reading(reading, numbers, amounts).ok()?;
    Some(Completed { amount, leaves })
}

// How many names may follow, whose numbers are written to the front of a buffer.
fn following<K: Kind>(
    sheet: &Sheet<K>,
    next: &mut [u16],
    numbers: &mut [u16],
    amounts: &mut [Pair<Span, Bays>],
) -> usize
    requires room { lack_list (length (ground_of K.text sheet.now).texts) (length next.old) (length numbers.old) (length amounts.old) ≡ None }
    ensures { Lists (ground_of K.text sheet.now) (stands_on K.text sheet.now) next.old next.new result }
{
    sheet.next(next, numbers, amounts).unwrap()
}

// All that a sheet answers, where so many stamps stand on it.
// kept: a struct of these buffers makes the clauses name what it leaves as `lent.exit.1.0.now`, and not as `next.new`
pub fn answers<K: Kind>(
    sheet: &Sheet<K>,
    stamps: usize,
    counts: Counts,
    reading: &mut [u16],
    next: &mut [u16],
    numbers: &mut [u16],
    amounts: &mut [Pair<Span, Bays>],
) -> Judgement
    requires stamps { stamps ≡ length (stands_on K.text sheet.now) }
    requires enough { lack (length (ground_of K.text sheet.now).texts) (length numbers.old) (length amounts.old) ≡ None }
    requires reading { lack_list (length (ground_of K.text sheet.now).texts) (length reading.old) (length numbers.old) (length amounts.old) ≡ None }
    requires next { lack_list (length (ground_of K.text sheet.now).texts) (length next.old) (length numbers.old) (length amounts.old) ≡ None }
    ensures counts { result.counts ≡ counts }
    ensures answers { AnswersOf (ground_of K.text sheet.now) (stands_on K.text sheet.now) reading.old reading.new next.old next.new result }
{
    let (fewest, most) = to_come(sheet, numbers, amounts);
    let finished = finished(sheet, reading, numbers, amounts);
    let next = following(sheet, next, numbers, amounts);
    Judgement {
        counts,
        stamps,
        fewest,
        most,
        finished,
        next,
    }
}
