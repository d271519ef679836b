ghost use Rattle.std.specs.Prelude.{◌≡◌, decimal};
ghost use Rattle.text.specs.Bytes.{Writes};
ghost use Rattle.text.specs.Decimal.{Number, Correction, DecimalsAgree, plain};

use super::byte::is_digit;
use super::front::write_front;
use itoa::Buffer;

// One digit at least, and no zero in front of others.
fn is_plain(run: &[u8]) -> bool
    ensures { result ≡ plain run.now }
{
    match run {
        [] => false,
        [_] => true,
        [first, ..] => *first != b'0',
    }
}

/// The number that a run of digits says, where it is plainly written and lies from `least` to `most`.
/// A rule that forbids a written 0 has a `least` of 1.
pub fn number(run: &[u8], least: u32, most: u32) -> Option<u32>
    ensures { Number run.now least most result }
{
    if !is_plain(run) {
        return None;
    }
    let limit = u64::from(most);
    let mut n: u64 = 0;
    for b in run {
        if !is_digit(*b) {
            return None;
        }
        // kept: `parse` would take a `+` and zeros in front, and needs the bytes as a text first
        n = 10 * n + u64::from(*b - b'0');
        if n > limit {
            return None;
        }
    }
    (n >= u64::from(least)).then_some(n as u32)
}

// kept: whether a `-` stands in front is a yes or no, and no kind of number
/// The correction that digits say, behind a `-` or not: -32,768 to 32,767, and never a written 0.
pub fn correction(minus: bool, run: &[u8]) -> Option<i16>
    ensures { Correction minus run.now result }
{
    if minus {
        let n = number(run, 1, 32768)?;
        Some((-(n as i32)) as i16)
    } else {
        let n = number(run, 1, 32767)?;
        Some(n as i16)
    }
}

/// The bay that digits say: 0 to 63.
pub fn bay(run: &[u8]) -> Option<u8>
    ensures { Number run.now 0 63 result }
{
    let n = number(run, 0, 63)?;
    Some(n as u8)
}

/// Writes a number's digits at the front of a buffer and answers how many there are;
/// nothing is written where the buffer is shorter than that.
pub fn write_number(n: u32, buffer: &mut [u8]) -> Option<usize>
    ensures { Writes (decimal n) buffer.old buffer.new result }
{
    let mut digits = Buffer::new();
    write_front(digits.format(n).as_bytes(), buffer)
}

/// Reading and writing of numbers agree, for every number and every run of digits.
pub fn decimals_agree()
    ensures { DecimalsAgree }
{}
