// The nodes of a table.
ghost use Rattle.std.specs.Prelude.{◌≡◌};
ghost use Rattle.tables.specs.Node.{numbered, paired, successors_of};

use isa::instruction::Instruction;
use paths::node::Successors;

// A way out as the number of a slot, where there can be such a slot.
fn slot_number(way: Option<i32>) -> Option<u16>
    ensures { result ≡ numbered way }
{
    way.and_then(|slot| u16::try_from(slot).ok())
        .filter(|slot| *slot < 1024)
}

fn pair(next: Option<u16>, target: Option<u16>) -> Successors
    ensures { result ≡ paired next target }
{
    match (next, target) {
        (Some(next), Some(target)) => Successors::Both(next, target),
        (Some(way), None) | (None, Some(way)) => Successors::One(way),
        (None, None) => Successors::End,
    }
}

// All ways out of an instruction.
pub fn successors_of(instruction: Instruction) -> Successors
    ensures { result ≡ successors_of instruction }
{
    let (next, target) = instruction.ways_out();
    pair(slot_number(next), slot_number(target))
}
