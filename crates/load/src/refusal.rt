//! Why a load file is sent back, and by which layer.
ghost use Rattle.std.specs.Prelude.{◌≡◌, ◌+◌, ◌^◌, ◌<◌};
ghost use Rattle.load.specs.LoadRefusals.{load_code, counted_from, place_of};

use super::trailer::FileRefusal;
use plan::Refusal;
use std::alloc::AllocError;

/// Why a load file is refused.
#[derive(Clone, Copy, PartialEq, Eq)]
pub enum LoadRefusal {
    /// A buffer is shorter than this length.
    Short(usize),
    /// It is no load file.
    File(FileRefusal),
    /// Its plan is refused; the place is counted from the file's start.
    Plan(Refusal),
    /// The kind has no name with the text of the stamp line at this place.
    Unnamed(usize),
    /// No log begins with the stamps before the line at this place and its own.
    Untaken(usize),
}

impl LoadRefusal {
    // kept: the numbers are those that are printed
    /// Its number, and the place, length or width that goes with it.
    pub fn number_and_place(self) -> (u8, usize)
        ensures { result ≡ load_code self }
    {
        match self {
            LoadRefusal::Short(length) => (9, length),
            // kept: the two refusals are of two types, so no one pattern binds both
            LoadRefusal::File(refusal) => refusal.number_and_place(),
            LoadRefusal::Plan(refusal) => refusal.number_and_place(),
            LoadRefusal::Unnamed(place) => (3, place),
            LoadRefusal::Untaken(place) => (10, place),
        }
    }
}

/// What judging a load file may end with instead of a judgement.
#[derive(Clone, Copy, PartialEq, Eq)]
pub enum LoadError {
    Refused(LoadRefusal),
    /// There is not enough memory; only where neither the file's frame nor its plan is refused.
    Memory(AllocError),
}

impl From<LoadRefusal> for LoadError {
    ghost use Rattle.load.specs.declared.refusal.LoadError.TheVariants.{Refused};

    ghost from_gives = { λ x y. y ≡ Refused x };

    fn from(refusal: LoadRefusal) -> LoadError {
        LoadError::Refused(refusal)
    }
}

// A plan's refusal with its place counted from the start of the file, in which the plan stands at a place.
pub fn counted_from(refusal: Refusal, start: usize) -> Refusal
    requires { start + place_of refusal < 2 ^ 64 }
    ensures { result ≡ counted_from start refusal }
{
    match refusal {
        Refusal::Form(place) => Refusal::Form(start + place),
        Refusal::NoName(place) => Refusal::NoName(start + place),
        Refusal::Mark(place) => Refusal::Mark(start + place),
        Refusal::Depth(place) => Refusal::Depth(start + place),
        Refusal::Many(place) => Refusal::Many(start + place),
        Refusal::Short(_)
        | Refusal::Length
        | Refusal::Width(_)
        | Refusal::Cuts
        | Refusal::Twice(_) => refusal,
    }
}
