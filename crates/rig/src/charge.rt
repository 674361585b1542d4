// What begins a charge.
ghost use Rattle.claims.specs.Rig.{Charged, FellBack};
ghost use Rattle.rig.specs.Seen.{rig_on};

use crate::standing::Standing;
use supply::supply::Supply;

pub(crate) fn charge<S: Supply>(supply: &mut S)
    ensures { Charged S.Supply supply.old supply.new }
{
    supply.recharge();
}

impl Standing {
    // A charge begins, and the kept state returns.
    pub(crate) fn fall_back<S: Supply>(&mut self, supply: &mut S)
        ensures { FellBack S.Supply (rig_on supply.old self.old) (rig_on supply.new self.new) }
    {
        charge(supply);
        self.state = self.kept;
    }
}
