//! What is asked of a sheet, and what it answers.
ghost use Rattle.std.specs.Prelude.{◌≡◌, ◌≤◌, take};

use super::refusal::Refusal;

/// The lengths of what a call is lent: a list for results, and scratch numbers and amounts. Only `next` and `reading` use a
/// list.
#[derive(Clone, Copy, Debug, PartialEq, Eq)]
pub struct Lengths {
    pub list: usize,
    pub numbers: usize,
    pub amounts: usize,
}

/// A call on a sheet.
#[derive(Clone, Copy, Debug, PartialEq, Eq)]
pub enum Call<K> {
    Stamp(K, Lengths),
    Strike,
    Next(Lengths),
    Distance(Lengths),
    Amount(Lengths),
    Reading(Lengths),
}

/// At most 128 numbers: the first `count` of `numbers`.
#[derive(Clone, Copy)]
pub struct Listing {
    // kept: no `ArrayVec` (no heap either): the definition of what a listing holds reads the count and the array.
    pub count: usize,
    pub numbers: [u16; 128],
    ghost few: { count ≤ 128 },
}

impl Listing {
    /// The numbers.
    pub fn list(&self) -> &[u16]
        ensures { result.now ≡ take self.now.count self.now.numbers }
    {
        &self.numbers[..self.count]
    }
}

// kept: `Opened` is what the definitions of lawful runs read; an `Option` around the answer would change them.
/// What a call was answered; `Opened` before the first.
#[derive(Clone, Copy)]
pub enum Answer<S> {
    Opened,
    Stamped(Result<(), Refusal>),
    Struck(Result<(), Refusal>),
    Listed(Result<Listing, Refusal>),
    Measured(Result<(u16, u16), Refusal>),
    Weighed(Result<S, Refusal>),
    Read(Result<Listing, Refusal>),
}

/// A call and its answer.
#[derive(Clone, Copy)]
pub struct Turn<K, S> {
    pub call: Call<K>,
    pub answer: Answer<S>,
}
