//! The stamp lines of a load file, put to a sheet in turn.
ghost use Rattle.std.specs.Prelude.{◌≡◌, [], length, drop, None};
ghost use Rattle.sheet.specs.Calls.{short as lack};
ghost use Rattle.sheet.specs.Views.{ground_of, stands_on};
ghost use Rattle.load.specs.Files.{lines_at};
ghost use Rattle.load.specs.Judged.{LinesStamped};

use super::lines::Lines;
use super::refusal::LoadRefusal;
use sheet::{Scale, Sheet};
use text::Kind;

// Stamps the lines of a file's body from a place on, and says how many there are; or why one of them is refused.
pub fn stamp_lines<K: Kind, S: Scale>(
    sheet: &mut Sheet<K>,
    body: &[u8],
    from: usize,
    numbers: &mut [u16],
    amounts: &mut [S],
) -> Result<usize, LoadRefusal>
    requires enough { lack (length (ground_of K.text sheet.old).texts) (length numbers.old) (length amounts.old) ≡ None }
    requires empty { stands_on K.text sheet.old ≡ [] }
    ensures plan { sheet.new.plan ≡ sheet.old.plan }
    ensures names { sheet.new.names ≡ sheet.old.names }
    ensures answer { LinesStamped K.has (ground_of K.text sheet.old) (lines_at from (drop from body.now)) (stands_on K.text sheet.new) result }
{
    let mut count = 0;
    for line in Lines::new(body, from) {
        let name = K::of_text(line.text).ok_or(LoadRefusal::Unnamed(line.at))?;
        sheet
            .stamp(name, numbers, amounts)
            .map_err(|_| LoadRefusal::Untaken(line.at))?;
        count += 1;
    }
    Ok(count)
}
