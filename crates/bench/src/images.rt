// Images to time: many slots and no loop.
use std::alloc::{AllocError, Global};
use std::ops::Range;

const ADD: [u8; 8] = [0x07, 0x01, 0, 0, 1, 0, 0, 0];

// if r1 == 0 goto +1
const FORK: [u8; 8] = [0x15, 0x01, 1, 0, 0, 0, 0, 0];

const READING: [u8; 8] = [0x85, 0, 0, 0, 2, 0, 0, 0];

const IDLE: [u8; 8] = [0x05, 0, 0, 0, 0, 0, 0, 0];

const EXIT: [u8; 8] = [0x95, 0, 0, 0, 0, 0, 0, 0];

// r1 += 1, without end
pub const ARITHMETIC: &[u8; 16] = b"\x07\x01\0\0\x01\0\0\0\x05\0\xfe\xff\0\0\0\0";

// a save, without end
pub const SAVING: &[u8; 16] = b"\x85\0\0\0\x01\0\0\0\x05\0\xfe\xff\0\0\0\0";

// A slot for each number by a rule, and EXIT.
fn ruled<F: Fn(usize) -> [u8; 8]>(
    heap: Global,
    numbers: Range<usize>,
    rule: F,
) -> Result<Vec<u8>, AllocError>
    requires { F.IsAlwaysCallable rule }
{
    let mut image = Vec::new(heap);
    for number in numbers {
        image.extend_from_slice(&rule(number))?;
    }
    image.extend_from_slice(&EXIT)?;
    Ok(image)
}

// Additions, and EXIT.
pub fn straight(heap: Global, slots: usize) -> Result<Vec<u8>, AllocError> {
    ruled(heap, 1..slots, |_| ADD)
}

// A reading in every 44 slots, and idle slots between them: 999 of 1,024.
pub fn idling(heap: Global, slots: usize) -> Result<Vec<u8>, AllocError> {
    ruled(heap, 1..slots, |slot| {
        if slot % 44 == 1 { READING } else { IDLE }
    })
}

// Every second slot a conditional jump over the next one, and EXIT twice.
pub fn forking(heap: Global, slots: usize) -> Result<Vec<u8>, AllocError> {
    let mut image = ruled(heap, 2..slots, |slot| {
        if slot % 2 == 0 { FORK } else { ADD }
    })?;
    image.extend_from_slice(&EXIT)?;
    Ok(image)
}
