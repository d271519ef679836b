//! The printed lines, put part by part behind what a vector holds.
ghost use Rattle.std.specs.Prelude.{◌≡◌, ℕ, decimal};
ghost use Rattle.std.specs.List.{flat_map};
ghost use Rattle.std.specs.Fmt.{signed_decimal};
ghost use Rattle.load.specs.Printed.{Appends, spaced, field, line};

use itoa::Buffer;
use std::alloc::AllocError;

/// Puts a text behind what is there.
pub fn push_text(out: &mut Vec<u8>, text: &[u8]) -> Result<(), AllocError>
    ensures { Appends text.now out.old out.new result }
{
    out.extend_from_slice(text)
}

/// Puts a number in decimal behind what is there.
pub fn push_number(out: &mut Vec<u8>, n: usize) -> Result<(), AllocError>
    ensures { Appends (decimal n) out.old out.new result }
{
    push_text(out, Buffer::new().format(n).as_bytes())
}

/// Puts a space and a number behind what is there.
pub fn push_field(out: &mut Vec<u8>, n: usize) -> Result<(), AllocError>
    ensures { Appends (field n) out.old out.new result }
{
    push_text(out, b" ")?;
    push_number(out, n)
}

/// Puts a space and a signed number behind what is there.
pub fn push_signed(out: &mut Vec<u8>, z: i32) -> Result<(), AllocError>
    ensures { Appends (spaced (signed_decimal z)) out.old out.new result }
{
    push_text(out, b" ")?;
    push_text(out, Buffer::new().format(z).as_bytes())
}

// Puts a space and a number behind what is there, for each of these.
fn push_numbers<T: Copy + Into<usize>>(out: &mut Vec<u8>, numbers: &[T]) -> Result<(), AllocError>
    ensures { (worth : T → ℕ) → ((x : T) (n : ℕ) → T.converts x n → n ≡ worth x)
        → Appends (flat_map (λ x. field (worth x)) numbers.now) out.old out.new result }
{
    for n in numbers {
        push_field(out, (*n).into())?;
    }
    Ok(())
}

/// A line of a label and these numbers; with none, the bare label.
pub fn number_line<T: Copy + Into<usize>>(
    out: &mut Vec<u8>,
    label: &[u8],
    numbers: &[T],
) -> Result<(), AllocError>
    ensures { (worth : T → ℕ) → ((x : T) (n : ℕ) → T.converts x n → n ≡ worth x)
        → Appends (line label.now (flat_map (λ x. field (worth x)) numbers.now)) out.old out.new result }
{
    push_text(out, label)?;
    push_numbers(out, numbers)?;
    push_text(out, b"\n")
}
