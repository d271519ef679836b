ghost use Rattle.std.specs.Prelude.{◌≡◌, ◌≤◌, true, take};
ghost use Rattle.text.specs.Bytes.{every, letter};
ghost use Rattle.text.specs.Names.{word};
ghost use Rattle.text.specs.Texts.{word_shaped};
ghost use Rattle.std.proofs.Common.{rules, arith};

use super::byte::is_letter;
use super::front::write_front;
use super::kind::Kind;

/// A word: 1 to 12 letters.
#[derive(Clone, Copy)]
pub struct Word {
    // kept: names are copied into lent buffers; `ArrayString` takes a text that is checked first, and a name is bytes
    letters: [u8; 12],
    len: u8,
    ghost fits: { len ≤ 12 },
    ghost ok: { word (take len letters) ≡ true },
}

// Whether every byte is a letter.
fn all_letters(bytes: &[u8]) -> bool
    ensures { result ≡ every letter bytes.now }
{
    bytes.iter().all(|b| is_letter(*b))
}

impl Kind for Word {
    ghost text = { λ w. take w.len w.letters };

    ghost has = { word };

    ghost named = { first_of (Prim.search rules, Prim.grind (arith, Self.row.coded.inj)) };

    ghost shaped = { λ t h. word_shaped t h };

    fn of_text(bytes: &[u8]) -> Option<Word> {
        let n = bytes.len();
        if n == 0 || n > 12 {
            return None;
        }
        if !all_letters(bytes) {
            return None;
        }
        let mut letters = [0; 12];
        letters[..n].copy_from_slice(bytes);
        Some(Word {
            letters,
            len: n as u8,
        })
    }

    fn write(&self, buffer: &mut [u8]) -> Option<usize> {
        write_front(&self.letters[..self.len as usize], buffer)
    }

    // kept: as at `Kind::same`
    fn same(&self, other: &Word) -> bool {
        self.letters[0..self.len as usize] == other.letters[0..other.len as usize]
    }
}
