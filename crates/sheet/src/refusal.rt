ghost use Rattle.std.specs.Prelude.{◌≡◌};
ghost use Rattle.sheet.specs.Refusals.{code as numbered};

/// Why a call on a sheet is sent back.
#[derive(Clone, Copy, Debug, PartialEq, Eq)]
pub enum Refusal {
    /// Something handed over is shorter than this length.
    Short(usize),
    /// No log begins with the standing stamps and this one.
    NotTaken,
    /// No stamp stands.
    NoStamp,
    /// The standing stamps have no reading.
    NoReading,
}

impl Refusal {
    // kept: these numbers are printed.
    /// The number of the refusal, and the length that goes with it.
    pub fn code(&self) -> (usize, usize)
        ensures { result ≡ numbered self.now }
    {
        match self {
            Refusal::Short(n) => (9, *n),
            Refusal::NotTaken => (10, 0),
            Refusal::NoStamp => (11, 0),
            Refusal::NoReading => (12, 0),
        }
    }
}
