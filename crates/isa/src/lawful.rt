// The lawfulness of an image.
ghost use Rattle.std.specs.Prelude.{◌≡◌};
ghost use Rattle.isa.specs.Refusal.{ok_unless};
ghost use Rattle.isa.specs.Lawful.{fault_at, stays_inside, leaving_by, lawfulness, Judged};

use crate::image::{instruction_at, well_sized};
use crate::instruction::Instruction;
use crate::refusal::Refusal;
use crate::rule::decode;
use crate::slot::slot_at;

// The rules on one slot.
fn check_slot(image: &[u8], slot: u16) -> Result<(), Refusal>
    ensures { result ≡ ok_unless (fault_at image.now slot) tt }
{
    if let Some(fields) = slot_at(image, slot) {
        decode(fields, slot)?;
    }
    Ok(())
}

// Whether a way out stays in an image of so many slots.
fn stays_inside(way: Option<i32>, count: u16) -> bool
    ensures { result ≡ stays_inside way count }
{
    way.is_none_or(|slot| 0 <= slot && slot < i32::from(count))
}

// The refusal of an instruction with a way out that leaves an image of so many
// slots.
pub fn leaving_by(instruction: Instruction, count: u16) -> Option<Refusal>
    ensures { result ≡ leaving_by instruction count }
{
    let (next, target) = instruction.ways_out();
    if stays_inside(next, count) && stays_inside(target, count) {
        None
    } else {
        Some(Refusal::WayOut {
            slot: instruction.at,
        })
    }
}

// Accepts an image that keeps every rule, and refuses any other by the first
// that it breaks.
pub fn lawful(image: &[u8]) -> Result<(), Refusal>
    ensures value { result ≡ lawfulness image.now }
    ensures judged { Judged image.now result }
{
    if !well_sized(image) {
        return Err(Refusal::Length);
    }
    let count = (image.len() / 8) as u16;
    let mut leaving = None;
    for slot in 0..count {
        match instruction_at(image, slot) {
            Some(instruction) => leaving = leaving.or(leaving_by(instruction, count)),
            None => check_slot(image, slot)?,
        }
    }
    // Ways out count only where each slot keeps the rules on it alone.
    leaving.map_or(Ok(()), Err)
}
