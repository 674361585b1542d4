// A tape: a reading a line.
ghost use Rattle.std.specs.Prelude.{◌≡◌};
ghost use Rattle.inputs.specs.Said.{said_lines};
ghost use Rattle.inputs.specs.Tape.{TapeTold};

use crate::number::u32_of;
use crate::said::said;
use std::alloc::{AllocFailed, Global};
use std::error::Error;
use std::fmt;

// Why a text is no tape.
#[derive(Clone, Copy, PartialEq, Eq, Debug)]
pub enum TapeError {
    // the line of this number, counted from 1, is no reading
    Line(usize),
    OutOfMemory,
}

impl fmt::Display for TapeError {
    fn fmt<W: fmt::Write>(&self, f: &mut fmt::Formatter<W>) -> fmt::Result {
        match *self {
            TapeError::Line(number) => { write!(f, "line {number}: a reading is 0 to 4294967295") }
            TapeError::OutOfMemory => write!(f, "out of memory"),
        }
    }
}

impl Error for TapeError {}

impl<T: Drop> From<AllocFailed<T>> for TapeError {
    ghost use Rattle.inputs.specs.declared.tape.TapeError.TheVariants.{OutOfMemory};

    ghost from_gives = { λ _ e. e ≡ OutOfMemory };

    fn from(_failed: AllocFailed<T>) -> TapeError {
        TapeError::OutOfMemory
    }
}

// The readings of a text, in order, or the first line that is wrong.
pub fn read_tape(heap: Global, text: &str) -> Result<Vec<u32>, TapeError>
    ensures { TapeTold (said_lines text.now) result }
{
    let mut tape = Vec::new(heap);
    for (index, line) in text.lines().enumerate() {
        if let Some(line) = said(line) {
            let reading = u32_of(line).ok_or(TapeError::Line(index + 1))?;
            tape.push(reading)?;
        }
    }
    Ok(tape)
}
