// A rig on a supply.
ghost use Rattle.std.specs.Prelude.{◌≤◌};

use crate::standing::Standing;

#[derive(Drop)]
pub struct Rig<S> {
    pub(crate) supply: S,
    pub(crate) standing: Standing,
    ghost few: { standing.saves ≤ standing.attempts },
}
