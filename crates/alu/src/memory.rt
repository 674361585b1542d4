// Memory: 512 bytes, little-endian.
ghost use Rattle.std.specs.Prelude.{◌≡◌, ◌+◌, ◌++◌, ◌≤◌, drop, is_some, take};
ghost use Rattle.std.specs.Int.{to_le_bytes, w64};
ghost use Rattle.alu.specs.Memory.{inside, loaded, stored};

use isa::kind::Size;
use isa::size::bytes_in;

pub const MEMORY: usize = 512;

// Whether an access at an address stays in memory.
// Stays: address and size go apart, since a struct of them would be made for one call and taken apart there.
fn is_inside(address: u64, size: Size) -> bool
    ensures { result ≡ inside address size }
{
    // The sum could wrap, the difference cannot.
    address <= MEMORY as u64 - bytes_in(size) as u64
}

// N is a constant at each call, so that its copy is one move.
fn bytes_at<const N: usize>(memory: &[u8; MEMORY], at: usize) -> [u8; N]
    requires { at + N ≤ 512 }
    ensures { result ≡ take N (drop at memory.now) }
{
    let mut bytes = [0; N];
    bytes.copy_from_slice(&memory[at..at + N]);
    bytes
}

// Writes the low N bytes of a value.
fn put<const N: usize>(memory: &mut [u8; MEMORY], at: usize, value: u64)
    requires of_memory { at + N ≤ 512 }
    requires of_value { N ≤ 8 }
    ensures { memory.new ≡ take at memory.old ++ (take N (to_le_bytes w64 value) ++ drop N (drop at memory.old)) }
{
    memory[at..at + N].copy_from_slice(&value.to_le_bytes()[..N]);
}

// The value at an address, or none where the access leaves memory.
pub fn load(memory: &[u8; MEMORY], address: u64, size: Size) -> Option<u64>
    ensures { result ≡ loaded memory.now address size }
{
    if !is_inside(address, size) {
        return None;
    }
    let at = address as usize;
    Some(match size {
        Size::One => memory[at] as u64,
        Size::Two => u16::from_le_bytes(bytes_at(memory, at)) as u64,
        Size::Four => u32::from_le_bytes(bytes_at(memory, at)) as u64,
        Size::Eight => u64::from_le_bytes(bytes_at(memory, at)),
    })
}

// Writes the low bytes of a value, or nothing where the access leaves memory;
// none where it wrote nothing.
#[tactic(auto, using(crate::proofs::Bytes::bytes_of))]
pub fn store(memory: &mut [u8; MEMORY], address: u64, size: Size, value: u64) -> Option<()>
    ensures wrote { is_some result ≡ inside address size }
    ensures left { memory.new ≡ stored memory.old address size value }
{
    if !is_inside(address, size) {
        return None;
    }
    let at = address as usize;
    match size {
        Size::One => put::<1>(memory, at, value),
        Size::Two => put::<2>(memory, at, value),
        Size::Four => put::<4>(memory, at, value),
        Size::Eight => put::<8>(memory, at, value),
    }
    Some(())
}
