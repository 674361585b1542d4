// Beginning a rig.
ghost use Rattle.claims.specs.Rig.{Begun};
ghost use Rattle.machine.specs.State.{initial};
ghost use Rattle.rig.specs.Seen.{seen};

use crate::charge::charge;
use crate::rig::Rig;
use crate::standing::Standing;
use machine::state::State;
use supply::supply::Supply;

impl<S: Supply> Rig<S> {
    // Begins on a supply, new or used.
    pub fn begin(mut supply: S) -> Rig<S>
        ensures { Begun S.Supply initial supply (seen result) }
    {
        let before = supply.charges();
        charge(&mut supply);
        let first = State::new();
        let standing = Standing {
            state: first,
            kept: first,
            before,
            saves: 0,
            cuts: 0,
            attempts: 0,
        };
        Rig { supply, standing }
    }
}
