// Reading a state from outside.
ghost use Rattle.std.specs.Prelude.{◌≡◌, is_some};
ghost use Rattle.machine.specs.Reading.{register_in, byte_in, record_in};
ghost use Rattle.machine.specs.State.{ending_of, ended};

use crate::ending::{Ending, GOES_ON, ending_in};
use crate::state::{LOG, Record, State};

impl State {
    pub fn slot(&self) -> i32
        ensures { result ≡ self.now.slot }
    {
        self.slot
    }

    // The value of r0 to r10.
    pub fn register(&self, number: u8) -> Option<u64>
        ensures { result ≡ register_in self.now number }
    {
        self.regs.get(number as usize).copied()
    }

    // A byte of memory.
    pub fn byte(&self, address: usize) -> Option<u8>
        ensures { result ≡ byte_in self.now address }
    {
        self.memory.get(address).copied()
    }

    // How many readings of the tape were taken.
    pub fn place(&self) -> usize
        ensures { result ≡ self.now.place }
    {
        self.place
    }

    // How many records the log holds.
    pub fn logged(&self) -> usize
        ensures { result ≡ self.now.logged }
    {
        self.logged
    }

    // A record of the log.
    pub fn record(&self, index: usize) -> Option<Record>
        ensures { result ≡ record_in self.now index }
    {
        self.log[..self.logged.min(LOG)].get(index).copied()
    }

    // How the run ended, or none while it goes on.
    pub fn ending(&self) -> Option<Ending>
        ensures { result ≡ ending_of self.now }
    {
        ending_in(self.ending)
    }

    pub fn ended(&self) -> bool
        ensures value { result ≡ ended self.now }
        ensures told { result ≡ is_some (ending_of self.now) }
    {
        self.ending != GOES_ON
    }
}
