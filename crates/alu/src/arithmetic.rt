// Arithmetic at 32 and at 64 bits.
ghost use Rattle.std.specs.Prelude.{◌≡◌};
ghost use Rattle.alu.specs.Arithmetic.{applied};

use crate::width::{low, shift, signed};
use isa::kind::{Operation, Width};

#[inline(always)]
fn apply_at_width(width: Width, operation: Operation, dst: u64, source: u64) -> u64
    ensures { result ≡ applied width operation dst source }
{
    let (dst, source) = (low(width, dst), low(width, source));
    let count = shift(width, source);
    match operation {
        Operation::Add => low(width, dst.wrapping_add(source)),
        Operation::Sub => low(width, dst.wrapping_sub(source)),
        Operation::Mul => low(width, dst.wrapping_mul(source)),
        Operation::Div => dst.checked_div(source).unwrap_or(0),
        Operation::Or => dst | source,
        Operation::And => dst & source,
        Operation::Lsh => low(width, dst << count),
        Operation::Rsh => dst >> count,
        Operation::Neg => low(width, 0u64.wrapping_sub(dst)),
        Operation::Mod => dst.checked_rem(source).unwrap_or(dst),
        Operation::Xor => dst ^ source,
        Operation::Mov => source,
        Operation::Arsh => low(width, (signed(width, dst) >> count).cast_unsigned()),
    }
}

// What an operation leaves in dst. At 32 bits the high half is cleared.
// Stays: a struct of width and operands would be made for one call and taken apart there.
#[inline(always)]
pub fn apply(width: Width, operation: Operation, dst: u64, source: u64) -> u64
    ensures { result ≡ applied width operation dst source }
{
    // A copy for each width, so that what the width decides is decided once.
    match width {
        Width::Low32 => apply_at_width(Width::Low32, operation, dst, source),
        Width::Full64 => apply_at_width(Width::Full64, operation, dst, source),
    }
}
