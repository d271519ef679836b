ghost use Rattle.std.specs.Prelude.{◌^◌, ◌<◌, decimal};
ghost use Rattle.text.specs.Names.{badge};
ghost use Rattle.text.specs.Texts.{badge_named, badge_shaped};

use super::decimal::{number, write_number};
use super::kind::Kind;

/// A badge: a number from 0 to 65,535, in decimal with no leading zero.
#[derive(Clone, Copy)]
pub struct Badge {
    number: u16,
    // what the type of the number says, for the laws
    ghost fits: { number < 2 ^ 16 },
}

impl Kind for Badge {
    ghost text = { λ b. decimal b.number };

    ghost has = { badge };

    ghost named = { λ x. badge_named x.number x.fits };

    ghost shaped = { λ t h. badge_shaped t h };

    fn of_text(bytes: &[u8]) -> Option<Badge> {
        let n = number(bytes, 0, 65535)?;
        Some(Badge { number: n as u16 })
    }

    fn write(&self, buffer: &mut [u8]) -> Option<usize> {
        write_number(u32::from(self.number), buffer)
    }

    // kept: as at `Kind::same`
    fn same(&self, other: &Badge) -> bool {
        self.number == other.number
    }
}
