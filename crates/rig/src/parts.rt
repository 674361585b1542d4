// A rig taken apart, for whoever stores one between its calls.
ghost use Rattle.std.specs.Prelude.{◌≡◌, ◌≤◌};
ghost use Rattle.rig.specs.Parts.{whole};
ghost use Rattle.rig.specs.Seen.{seen};

use crate::rig::Rig;
use crate::standing::Standing;

#[derive(Drop)]
pub struct Parts<S> {
    pub supply: S,
    pub standing: Standing,
}

impl<S> Rig<S> {
    // Its standing makes the rig's calls on the supply from then on.
    pub fn into_parts(self) -> Parts<S>
        ensures whole { seen self ≡ whole result }
        ensures few { result.standing.saves ≤ result.standing.attempts }
    {
        Parts {
            supply: self.supply,
            standing: self.standing,
        }
    }
}
