ghost use Rattle.std.specs.Prelude.{length, is_ok};
ghost use Rattle.sheet.specs.Runs.{desk, fitted};
ghost use Rattle.sheet.specs.Views.{ground_over};
ghost use Rattle.show.specs.Scripts.{LinesServed};

use super::script::{Script, count_calls};
use plan::Plan;
use sheet::{Scale, Turn, serve};
use std::alloc::AllocError;
use text::Kind;

/// Opens a sheet, puts to it the calls that a text's lines ask for from a place on, one after another, and adds the turns to a
/// transcript.
pub fn serve_lines<'x, K: Kind, S: Scale>(
    input: &[u8],
    from: usize,
    plan: &'x Plan,
    names: &'x [K],
    list: &mut [u16],
    numbers: &mut [u16],
    amounts: &mut [S],
    turns: &mut Vec<Turn<K, S>>,
) -> Result<(), AllocError>
    ensures { LinesServed (desk K.text S.value S.join S.start S.extend (ground_over K.text plan.now names.now)) K.has (fitted (length list.old) (length numbers.old) (length amounts.old)) input.now from turns.old.items turns.new.items (is_ok result) }
{
    let count = count_calls::<K>(input, from);
    let mut script = Script::new(input, from);
    serve(
        plan,
        names,
        &mut script,
        count,
        list,
        numbers,
        amounts,
        turns,
    )
}
