// A rig in plain numbers.
ghost use Rattle.std.specs.Prelude.{◌≡◌, ◌≤◌};
ghost use Rattle.rig.specs.Seen.{seen};
ghost use Rattle.yatesorrel_c.specs.Held.{plain_rig, RigIn};

use crate::state::is_known;
use crate::supplies::PlainSupply;
use rig::rig::Rig;
use rig::standing::Standing;
use supply::source::Source;

#[repr(C)]
#[derive(Clone, Copy)]
pub struct PlainRig {
    pub supply: PlainSupply,
    pub standing: Standing,
}

impl PlainRig {
    pub(crate) fn of(rig: Rig<Source>) -> PlainRig
        ensures value { result ≡ plain_rig (seen rig) }
        ensures few { result.standing.saves ≤ result.standing.attempts }
    {
        let parts = rig.into_parts();
        PlainRig {
            supply: PlainSupply::of(&parts.supply),
            standing: parts.standing,
        }
    }

    // The supply of the rig of these numbers, or none where no rig has them. The
    // rest of the rig is what stands here, so its calls copy no state.
    #[inline(always)]
    pub(crate) fn source(&self) -> Option<Source>
        ensures { RigIn self.now result }
    {
        let standing = &self.standing;
        if !standing.is_whole() || !is_known(&standing.state) || !is_known(&standing.kept) {
            return None;
        }
        self.supply.source()
    }
}
