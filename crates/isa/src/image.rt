// An image: the slots of a round, one after another.
ghost use Rattle.std.specs.Prelude.{◌≡◌, IfSome};
ghost use Rattle.isa.specs.Instruction.{Registered};
ghost use Rattle.isa.specs.Image.{well_sized, instruction_at};

use crate::instruction::Instruction;
use crate::rule::legal_in;
use crate::slot::slot_at;

// Whether an image is 1 to 1,024 slots of eight bytes.
pub fn well_sized(image: &[u8]) -> bool
    ensures { result ≡ well_sized image.now }
{
    1 <= image.len() && image.len() <= 8192 && image.len() % 8 == 0
}

// The legal instruction at a slot, or none: the image's size is bad, the slot
// is absent, or it breaks a rule.
// Stays: the caller lends an image as bytes, and the slot is an index into them.
#[inline(always)]
pub fn instruction_at(image: &[u8], slot: u16) -> Option<Instruction>
    ensures value { result ≡ instruction_at image.now slot }
    ensures registers { IfSome result Registered }
{
    if !well_sized(image) {
        return None;
    }
    legal_in(slot_at(image, slot)?, slot)
}
