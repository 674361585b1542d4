// How a run ends.
ghost use Rattle.std.specs.Prelude.{◌≡◌};
ghost use Rattle.machine.specs.Ending.{number_of, ending_number, ending_in};

#[derive(Clone, Copy, Debug, PartialEq, Eq)]
pub enum Trap {
    // the image has a bad length, or the slot is absent or illegal
    BadSlot = 1,
    OutsideMemory = 2,
    TapeFinished = 3,
    LogFull = 4,
}

// Stays: a None would not say that the run ended by EXIT.
#[derive(Clone, Copy, Debug, PartialEq, Eq)]
pub enum Ending {
    Exit,
    Trap(Trap),
}

impl Trap {
    // Stays: people and callers in C know a trap by its number.
    pub fn number(self) -> u8
        ensures { result ≡ number_of self }
    {
        self as u8
    }
}

// The ending's number of a run that goes on, and of EXIT.
pub const GOES_ON: u8 = 0;

pub const EXIT: u8 = 5;

impl Ending {
    // A trap's number, or that of EXIT.
    pub fn number(self) -> u8
        ensures { result ≡ ending_number self }
    {
        match self {
            Ending::Trap(trap) => trap.number(),
            Ending::Exit => EXIT,
        }
    }
}

// The ending of a number, or none while the run goes on. A number past EXIT's is
// EXIT too.
pub fn ending_in(number: u8) -> Option<Ending>
    ensures { result ≡ ending_in number }
{
    match number {
        GOES_ON => None,
        1 => Some(Ending::Trap(Trap::BadSlot)),
        2 => Some(Ending::Trap(Trap::OutsideMemory)),
        3 => Some(Ending::Trap(Trap::TapeFinished)),
        4 => Some(Ending::Trap(Trap::LogFull)),
        _ => Some(Ending::Exit),
    }
}
