ghost use Rattle.std.specs.Prelude.{◌≡◌, ℕ, ◌≤◌, true, map, length, take, nat_lt};
ghost use Rattle.text.specs.Bytes.{every};
ghost use Rattle.layout.specs.Tree.{shape_of};
ghost use Rattle.engine.specs.Answers.{LogBegins};
ghost use Rattle.engine.specs.Fits.{standing};

use plan::Plan;
use text::Kind;

/// A plan's sheet: the stamps that stand on it, over the names handed over. A stamp is kept as the number of the first of
/// the plan's names that has its text.
#[derive(Drop)]
pub struct Sheet<'a, K: Kind> {
    pub(crate) plan: &'a Plan,
    pub(crate) names: &'a [K],
    // kept: no `ArrayVec` (no heap either): definitions and ghost fields read array and count, as `take count stamps`.
    pub(crate) stamps: [u8; 128],
    pub(crate) count: usize,
    ghost few: { count ≤ 128 },
    ghost among: { every (λ n. nat_lt n (length names.now)) (take count stamps) ≡ true },
    ghost begun: { ∥ LogBegins (shape_of plan.now.tree) plan.now.leaves.items (map K.text names.now) (standing (map K.text names.now) (take count stamps)) ∥₁ },
}
