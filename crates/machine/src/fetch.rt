// The instruction at the slot where a state stands.
ghost use Rattle.std.specs.Prelude.{◌≡◌, IfSome};
ghost use Rattle.isa.specs.Instruction.{Registered};
ghost use Rattle.machine.specs.Fetch.{fetched};

use isa::image::instruction_at;
use isa::instruction::Instruction;

const MOST_SLOTS: i32 = 1024;

// The legal instruction at a slot, or none: a jump can lead below 0 or past
// the image.
#[inline(always)]
pub(crate) fn fetch(image: &[u8], slot: i32) -> Option<Instruction>
    ensures value { result ≡ fetched image.now slot }
    ensures registers { IfSome result Registered }
{
    if slot < 0 || slot >= MOST_SLOTS {
        return None;
    }
    instruction_at(image, slot as u16)
}
