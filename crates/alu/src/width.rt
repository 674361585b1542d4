// The widths that arithmetic and comparisons work at.
ghost use Rattle.std.specs.Prelude.{◌≡◌, ◌%◌, ◌^◌, ◌<◌};
ghost use Rattle.std.specs.Int.{w64};
ghost use Rattle.std.proofs.Common.{of_z, to_z};
ghost use mir.Val.{bits};
ghost use Rattle.alu.specs.Width.{width_of, low_at};

use isa::kind::Width;

// The low bits of a register, as many as the width has.
pub(crate) fn low(width: Width, value: u64) -> u64
    ensures bits { result ≡ low_at (width_of width) value }
    ensures within { result < 2 ^ bits (width_of width) }
{
    match width {
        Width::Low32 => value % 0x1_0000_0000,
        Width::Full64 => value,
    }
}

// A number of so many bits, by its sign.
pub(crate) fn signed(width: Width, value: u64) -> i64
    requires { value < 2 ^ bits (width_of width) }
    ensures { result ≡ to_z (width_of width) value }
{
    match width {
        Width::Low32 => (value as u32).cast_signed() as i64,
        Width::Full64 => value.cast_signed(),
    }
}

// By how many bits a shift moves: counts go round at the width.
pub(crate) fn shift(width: Width, count: u64) -> u32
    ensures rest { result ≡ count % bits (width_of width) }
    ensures within { result < 64 }
{
    match width {
        Width::Low32 => (count % 32) as u32,
        Width::Full64 => (count % 64) as u32,
    }
}

// A signed number as a register holds it: its sign fills the high bits.
pub fn sign_extended(imm: i32) -> u64
    ensures { result ≡ of_z w64 imm }
{
    (imm as i64).cast_unsigned()
}
