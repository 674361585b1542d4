// The size of a load or a store.
ghost use Rattle.std.specs.Prelude.{◌≡◌};
ghost use Rattle.isa.specs.Size.{bytes_in, cut_to};

use crate::kind::Size;

// Stays: `u8::from(size)` does not say that the number counts bytes.
pub fn bytes_in(size: Size) -> u8
    ensures { result ≡ bytes_in size }
{
    match size {
        Size::One => 1,
        Size::Two => 2,
        Size::Four => 4,
        Size::Eight => 8,
    }
}

// The low bytes of a value, as many as the size has.
pub fn cut_to(size: Size, value: u64) -> u64
    ensures { result ≡ cut_to size value }
{
    match size {
        Size::One => value % 0x100,
        Size::Two => value % 0x1_0000,
        Size::Four => value % 0x1_0000_0000,
        Size::Eight => value,
    }
}
