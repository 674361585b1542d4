// A cut of a rig's supply.
ghost use Rattle.std.specs.Prelude.{◌≡◌};
ghost use Rattle.claims.specs.Rig.{CutDone};
ghost use Rattle.machine.specs.State.{ended};
ghost use Rattle.rig.specs.Seen.{rig_on, seen};

use crate::rig::Rig;
use crate::standing::Standing;
use isa::refusal::Refusal;
use supply::supply::Supply;

const CUTS: u32 = 1_000_000;

impl Standing {
    // Cuts the supply, which lies elsewhere: the kept state returns.
    pub fn cut<S: Supply>(&mut self, supply: &mut S) -> Result<(), Refusal>
        ensures { CutDone S.Supply ended (rig_on supply.old self.old) result (rig_on supply.new self.new) }
    {
        self.allow(self.cuts, CUTS, Refusal::Cuts)?;
        self.cuts += 1;
        self.fall_back(supply);
        Ok(())
    }
}

impl<S: Supply> Rig<S> {
    // Cuts the supply: the kept state returns.
    pub fn cut(&mut self) -> Result<(), Refusal>
        ensures { CutDone S.Supply ended (seen self.old) result (seen self.new) }
    {
        self.standing.cut(&mut self.supply)
    }
}
