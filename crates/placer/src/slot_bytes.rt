// The eight bytes of a slot.
ghost use Rattle.std.specs.Prelude.{◌≡◌, ◌+◌, ◌*◌, ◌≤◌, length};
ghost use Rattle.isa.specs.Slot.{slot_count};
ghost use Rattle.placer.specs.SlotBytes.{with_bytes, with_marked};

// A jump to the next slot.
pub(crate) const IDLE: [u8; 8] = [0x05, 0, 0, 0, 0, 0, 0, 0];

// The call of the helper that saves.
pub(crate) const SAVE: [u8; 8] = [0x85, 0, 0, 0, 1, 0, 0, 0];

fn write_slot(image: &mut [u8], at: usize, bytes: [u8; 8])
    requires { 8 * at + 8 ≤ length image.old }
    ensures { image.new ≡ with_bytes image.old at bytes }
{
    image[8 * at..8 * at + 8].copy_from_slice(&bytes);
}

// Gives these bytes to each marked slot.
pub(crate) fn write_marked(image: &mut [u8], marks: &[bool; 1024], bytes: [u8; 8])
    requires { length image.old ≤ 8192 }
    ensures { image.new ≡ with_marked marks.now bytes (slot_count image.old) image.old }
{
    // Stays: of an image lent to chunks_exact_mut a proof keeps the length alone.
    for (at, marked) in marks[..image.len() / 8].iter().enumerate() {
        if *marked {
            write_slot(image, at, bytes);
        }
    }
}
