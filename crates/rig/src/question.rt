// The questions to a rig, which change nothing.
ghost use Rattle.std.specs.Prelude.{◌≡◌};
ghost use Rattle.claims.specs.History.{record_or};
ghost use Rattle.claims.specs.Rig.{begun};
ghost use Rattle.machine.specs.Reading.{record_in};
ghost use Rattle.rig.specs.Seen.{rig_on, seen};

use crate::rig::Rig;
use crate::standing::Standing;
use isa::refusal::Refusal;
use machine::state::{Record, State};
use supply::supply::Supply;

impl Standing {
    // Charges begun: the rise of the supply's own count, modulo 2^64.
    pub fn charges<S: Supply>(&self, supply: &S) -> u64
        ensures { result ≡ begun S.Supply (rig_on supply.now self.now) }
    {
        supply.charges().wrapping_sub(self.before)
    }

    // A record of the kept log.
    pub fn record(&self, index: usize) -> Result<Record, Refusal>
        ensures { result ≡ record_or (record_in self.now.kept index) }
    {
        let record = self.kept.record(index);
        record.ok_or(Refusal::NoRecord)
    }
}

impl<S: Supply> Rig<S> {
    // Charges begun: the rise of the supply's own count, modulo 2^64.
    pub fn charges(&self) -> u64
        ensures { result ≡ begun S.Supply (seen self.now) }
    {
        self.standing.charges(&self.supply)
    }

    // Saves passed.
    pub fn saves(&self) -> u32
        ensures { result ≡ self.now.standing.saves }
    {
        self.standing.saves
    }

    pub fn cuts(&self) -> u32
        ensures { result ≡ self.now.standing.cuts }
    {
        self.standing.cuts
    }

    pub fn attempts(&self) -> u32
        ensures { result ≡ self.now.standing.attempts }
    {
        self.standing.attempts
    }

    // The charge that its supply is certain to have.
    pub fn assured(&self) -> u64
        ensures { result ≡ (S.Supply.four self.now.supply).assured }
    {
        self.supply.assured()
    }

    // A record of the kept log.
    pub fn record(&self, index: usize) -> Result<Record, Refusal>
        ensures { result ≡ record_or (record_in self.now.standing.kept index) }
    {
        self.standing.record(index)
    }

    // The state that the rig goes back to.
    pub fn kept(&self) -> State
        ensures { result ≡ self.now.standing.kept }
    {
        self.standing.kept
    }
}
