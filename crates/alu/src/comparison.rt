// The tests of conditional jumps, at 32 and at 64 bits.
ghost use Rattle.std.specs.Prelude.{◌≡◌};
ghost use Rattle.alu.specs.Comparison.{compared};

use crate::width::{low, signed};
use isa::kind::{Test, Width};

#[inline(always)]
fn holds_at_width(width: Width, test: Test, dst: u64, source: u64) -> bool
    ensures { result ≡ compared width test dst source }
{
    let (dst, source) = (low(width, dst), low(width, source));
    let (signed_dst, signed_source) = (signed(width, dst), signed(width, source));
    match test {
        Test::Eq => dst == source,
        Test::Gt => dst > source,
        Test::Ge => dst >= source,
        Test::Set => dst & source != 0,
        Test::Ne => dst != source,
        Test::Sgt => signed_dst > signed_source,
        Test::Sge => signed_dst >= signed_source,
        Test::Lt => dst < source,
        Test::Le => dst <= source,
        Test::Slt => signed_dst < signed_source,
        Test::Sle => signed_dst <= signed_source,
    }
}

// Whether a test holds of dst and the source value.
// Stays: a struct of width and operands would be made for one call and taken apart there; the match of
// `apply` alike, as one function of a closure for both is no shorter.
#[inline(always)]
pub fn holds(width: Width, test: Test, dst: u64, source: u64) -> bool
    ensures { result ≡ compared width test dst source }
{
    // A copy for each width, so that what the width decides is decided once.
    match width {
        Width::Low32 => holds_at_width(Width::Low32, test, dst, source),
        Width::Full64 => holds_at_width(Width::Full64, test, dst, source),
    }
}
