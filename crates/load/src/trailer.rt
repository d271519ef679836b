ghost use Rattle.std.specs.Prelude.{◌≡◌, ℕ, ◌≤◌, length, Decides, MatchOption};
ghost use Rattle.load.specs.Files.{Four, Trailer, Fits, Framed, OneTrailer, LinesWalked, ruled, body, plan_text, file_code};

use super::lines::count_lines;
use text::is_digit;

// How many bytes a trailer has.
const TRAILER: usize = 19;

// How many bytes a load file has at most.
const LONGEST: usize = 8192;

/// Where a load file's plan and stamp lines stand.
#[derive(Clone, Copy, Debug, PartialEq, Eq)]
pub struct Frame {
    /// The plan's place.
    pub plan: usize,
    /// The first stamp line's place.
    pub stamps: usize,
    /// The number of stamp lines.
    pub count: usize,
}

/// Why a file is no load file.
#[derive(Clone, Copy, Debug, PartialEq, Eq)]
pub enum FileRefusal {
    /// It is too long, or does not end in a trailer.
    Malformed,
    /// Its trailer does not fit it.
    Misfit,
}

impl FileRefusal {
    // kept: the numbers are those that are printed
    /// Its number, and the place that goes with it.
    pub fn number_and_place(self) -> (u8, usize)
        ensures { result ≡ file_code self }
    {
        match self {
            FileRefusal::Malformed => (14, 0),
            FileRefusal::Misfit => (15, 0),
        }
    }
}

// The number that four digits say; zeros may stand in front.
fn four_digits(bytes: &[u8]) -> Option<usize>
    ensures { MatchOption result ((n : ℕ) → Four bytes.now n → ⊥) (λ n. Four bytes.now n) }
{
    if bytes.len() != 4 {
        return None;
    }
    let mut n = 0;
    for b in bytes {
        if !is_digit(*b) {
            return None;
        }
        // kept: four digits may have zeros in front, which `text::number` refuses
        n = 10 * n + usize::from(*b - b'0');
    }
    Some(n)
}

// Whether the bytes of a trailer outside its fields are right.
fn is_ruled(tail: &[u8]) -> bool
    requires { length tail.now ≡ 19 }
    ensures { result ≡ ruled tail.now }
{
    tail.starts_with(b"end ") && tail[8] == b' ' && tail[13] == b' ' && tail[18] == b'\n'
}

// What a trailer says, if the bytes are one.
fn trailer_of(tail: &[u8]) -> Option<Frame>
    ensures { MatchOption result ((t : Frame) → Trailer tail.now t → ⊥) (λ t. Trailer tail.now t) }
{
    if tail.len() != TRAILER || !is_ruled(tail) {
        return None;
    }
    Some(Frame {
        plan: four_digits(&tail[4..8])?,
        stamps: four_digits(&tail[9..13])?,
        count: four_digits(&tail[14..18])?,
    })
}

// Whether a trailer fits the file.
fn fits(file: &[u8], frame: Frame) -> bool
    requires { 19 ≤ length file.now }
    ensures { Decides result (Fits file.now frame) }
{
    let end = file.len() - TRAILER;
    if frame.plan >= frame.stamps || frame.stamps > end {
        return false;
    }
    if file[frame.stamps - 1] != b'\n' {
        return false;
    }
    count_lines(&file[..end], frame.stamps) == Some(frame.count)
}

/// Where a load file's plan and stamp lines stand, as its trailer says, which must fit the file.
pub fn frame_of(file: &[u8]) -> Result<Frame, FileRefusal>
    ensures { Framed file.now result }
{
    let len = file.len();
    if len < TRAILER || len > LONGEST {
        return Err(FileRefusal::Malformed);
    }
    let frame = trailer_of(&file[len - TRAILER..]).ok_or(FileRefusal::Malformed)?;
    if fits(file, frame) {
        Ok(frame)
    } else {
        Err(FileRefusal::Misfit)
    }
}

/// A file ends in one trailer at most, so its frame is the only one.
pub fn one_trailer()
    ensures { OneTrailer }
{}

/// A file without its trailer: what `next_line` goes through, from the first stamp line's place on.
pub fn body_of(file: &[u8]) -> &[u8]
    ensures { result.now ≡ body file.now }
{
    &file[..file.len().saturating_sub(TRAILER)]
}

// The plan of a file whose trailer fits.
pub fn plan_of(file: &[u8], frame: Frame) -> &[u8]
    requires { Fits file.now frame }
    ensures { result.now ≡ plan_text file.now frame }
{
    &file[frame.plan..frame.stamps - 1]
}

/// From the first stamp line's place of a file whose trailer fits, line after line leads to the trailer, in as many steps as it says.
pub fn lines_walked()
    ensures { LinesWalked }
{}
