ghost use Rattle.std.specs.Prelude.{◌≡◌, ◌≤◌, length, IfOk};
ghost use Rattle.std.specs.Result.{result_ok};
ghost use Rattle.text.specs.Bytes.{Longest, digit, name_byte};
ghost use Rattle.text.specs.Parts.{Signs, Stands, AllParts, sign_byte, part_bytes, number_may_begin};

use super::byte::{is_digit, is_name_byte};
use super::run::run_end;
use std::alloc::{AllocError, Global};

/// A sign of a plan's text.
#[derive(Clone, Copy, Debug, PartialEq, Eq)]
pub enum Sign {
    Dot,
    Comma,
    Open,
    Close,
    Lock,
    Choice,
    Interleave,
    Blank,
    Colon,
    At,
    Minus,
}

/// A part of a text, with the place of its first byte.
#[derive(Clone, Copy, Debug, PartialEq, Eq)]
pub enum Part<'a> {
    /// The longest run of lower-case letters and digits.
    Name { at: usize, run: &'a [u8] },
    /// The longest run of digits, behind `:`, `@` or `-`.
    Digits { at: usize, run: &'a [u8] },
    Mark { at: usize, sign: Sign },
    /// Any other byte.
    Other { at: usize, byte: u8 },
    /// The end of the text, at its length.
    End { at: usize },
}

/// A byte that is no sign.
#[derive(Clone, Copy, Debug, PartialEq, Eq)]
pub struct NoSign;

impl TryFrom<u8> for Sign {
    type Error = NoSign;

    ghost try_from_gives = { λ b r. Signs b (result_ok r) };

    fn try_from(byte: u8) -> Result<Sign, NoSign> {
        match byte {
            b'.' => Ok(Sign::Dot),
            b',' => Ok(Sign::Comma),
            b'(' => Ok(Sign::Open),
            b')' => Ok(Sign::Close),
            b'!' => Ok(Sign::Lock),
            b'+' => Ok(Sign::Choice),
            b'|' => Ok(Sign::Interleave),
            b'_' => Ok(Sign::Blank),
            b':' => Ok(Sign::Colon),
            b'@' => Ok(Sign::At),
            b'-' => Ok(Sign::Minus),
            _ => Err(NoSign),
        }
    }
}

impl From<Sign> for u8 {
    ghost from_gives = { λ s b. b ≡ sign_byte s };

    fn from(sign: Sign) -> u8 {
        match sign {
            Sign::Dot => b'.',
            Sign::Comma => b',',
            Sign::Open => b'(',
            Sign::Close => b')',
            Sign::Lock => b'!',
            Sign::Choice => b'+',
            Sign::Interleave => b'|',
            Sign::Blank => b'_',
            Sign::Colon => b':',
            Sign::At => b'@',
            Sign::Minus => b'-',
        }
    }
}

impl Part<'_> {
    /// How many bytes the part has.
    pub fn size(&self) -> usize
        ensures { result ≡ length (part_bytes self.now) }
    {
        match self {
            Part::Name { run, .. } | Part::Digits { run, .. } => run.len(),
            Part::Mark { .. } | Part::Other { .. } => 1,
            Part::End { .. } => 0,
        }
    }
}

// kept: a text and a place are what `part_at` is called with; a struct of the two would be taken apart again in each of these
// Where the longest run of name bytes ends.
fn name_end(text: &[u8], at: usize) -> usize
    requires { at ≤ length text.now }
    ensures { Longest name_byte text.now at result }
{
    run_end(text, at, is_name_byte)
}

// Where the longest run of digits ends.
fn digits_end(text: &[u8], at: usize) -> usize
    requires { at ≤ length text.now }
    ensures { Longest digit text.now at result }
{
    run_end(text, at, is_digit)
}

// Whether digits at a place are a number: the byte before it is `:`, `@` or `-`.
fn behind_mark(text: &[u8], at: usize) -> bool
    requires { at ≤ length text.now }
    ensures { result ≡ number_may_begin text.now at }
{
    matches!(text[..at].last(), Some(b':' | b'@' | b'-'))
}

/// The part of a text that stands at a place.
pub fn part_at(text: &[u8], at: usize) -> Part<'_>
    ensures { Stands text.now at result }
{
    if at >= text.len() {
        return Part::End { at: text.len() };
    }
    let byte = text[at];
    if is_digit(byte) && behind_mark(text, at) {
        let end = digits_end(text, at);
        return Part::Digits {
            at,
            run: &text[at..end],
        };
    }
    if is_name_byte(byte) {
        let end = name_end(text, at);
        return Part::Name {
            at,
            run: &text[at..end],
        };
    }
    match Sign::try_from(byte) {
        Ok(sign) => Part::Mark { at, sign },
        Err(NoSign) => Part::Other { at, byte },
    }
}

/// All parts of a text, from its first byte to its end.
pub fn parts<'a>(heap: Global, text: &'a [u8]) -> Result<Vec<Part<'a>>, AllocError>
    ensures { IfOk result (λ v. AllParts text.now v.items) }
{
    let mut list = Vec::new(heap);
    let mut at = 0;
    // kept: only `parts` goes over parts, and an iterator for it alone is longer than this loop
    while at < text.len() {
        let part = part_at(text, at);
        at += part.size();
        list.push(part)?;
    }
    Ok(list)
}
