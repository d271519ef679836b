ghost use Rattle.std.specs.Prelude.{◌≡◌};
ghost use Rattle.grammar.specs.Refusals.{code};
ghost use Rattle.grammar.specs.declared.refusal.PlanError.TheVariants.{Memory, Refused};

use std::alloc::{AllocError, AllocFailed};

/// Why a call on plans is sent back. Places count bytes from 0.
#[derive(Clone, Copy, Debug, PartialEq, Eq)]
pub enum Refusal {
    /// A buffer is shorter than this length.
    Short(usize),
    /// The text has no byte, or more than 2,048.
    Length,
    /// No text of the form goes on with the byte at this place, or the text ends early there.
    Form(usize),
    /// The kind has no such name: its first byte.
    NoName(usize),
    /// A complete mark breaks its range or zero rule: its byte after `:` or `@`.
    Mark(usize),
    /// A 17th depth: the bracket's sign.
    Depth(usize),
    /// A 129th leaf or a 65th bracket: its first byte.
    Many(usize),
    /// The width is over 8: the width.
    Width(usize),
    /// There are over 4,096 cuts.
    Cuts,
    /// The name of this number stands earlier among the plan's names.
    Twice(usize),
}

impl Refusal {
    // kept: the numbers are those that are printed
    /// Its number, and the place, length, width or name number that goes with it.
    pub fn number_and_place(self) -> (u8, usize)
        ensures { result ≡ code self }
    {
        match self {
            Refusal::Short(length) => (9, length),
            Refusal::Length => (1, 0),
            Refusal::Form(place) => (2, place),
            Refusal::NoName(place) => (3, place),
            Refusal::Mark(place) => (4, place),
            Refusal::Depth(place) => (5, place),
            Refusal::Many(place) => (6, place),
            Refusal::Width(width) => (7, width),
            Refusal::Cuts => (8, 0),
            Refusal::Twice(number) => (13, number),
        }
    }
}

/// What reading a plan may end with instead of a plan.
#[derive(Clone, Copy, Debug, PartialEq, Eq)]
pub enum PlanError {
    Refused(Refusal),
    /// There is not enough memory; only where nothing is refused.
    Memory(AllocError),
}

impl From<Refusal> for PlanError {
    ghost from_gives = { λ x y. y ≡ Refused x };

    fn from(refusal: Refusal) -> PlanError {
        PlanError::Refused(refusal)
    }
}

impl From<AllocError> for PlanError {
    ghost from_gives = { λ x y. y ≡ Memory x };

    fn from(error: AllocError) -> PlanError {
        PlanError::Memory(error)
    }
}

impl<T: Drop> From<AllocFailed<T>> for PlanError {
    ghost from_gives = { λ _ y. (e : _) × (y ≡ Memory e) };

    fn from(error: AllocFailed<T>) -> PlanError {
        PlanError::Memory(error.into())
    }
}
