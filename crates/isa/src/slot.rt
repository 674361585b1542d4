// A slot: eight bytes of an image, taken apart.
ghost use Rattle.std.specs.Prelude.{◌≡◌};
ghost use Rattle.isa.specs.Slot.{slot_at};

#[derive(Clone, Copy)]
pub struct Slot {
    pub opcode: u8,
    pub dst: u8,
    pub src: u8,
    pub offset: i16,
    pub imm: i32,
}

// The fields of a slot, or none where the image has no such slot.
pub fn slot_at(image: &[u8], slot: u16) -> Option<Slot>
    ensures { result ≡ slot_at image.now slot }
{
    let at = 8 * usize::from(slot);
    let &[opcode, registers, o0, o1, i0, i1, i2, i3] = image.get(at..at + 8)? else {
        return None;
    };
    Some(Slot {
        opcode,
        dst: registers % 16,
        src: registers / 16,
        offset: i16::from_le_bytes([o0, o1]),
        imm: i32::from_le_bytes([i0, i1, i2, i3]),
    })
}
