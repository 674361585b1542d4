// What a rig has beside its supply.
ghost use Rattle.std.specs.Prelude.{◌≡◌, nat_le};

use machine::state::State;

// Its two states and its counts. Callers in C hold rigs, so the layout is C's.
#[repr(C)]
#[derive(Clone, Copy)]
pub struct Standing {
    pub state: State,
    // what the rig goes back to
    pub kept: State,
    // the supply's count of charges from before beginning
    pub before: u64,
    pub saves: u32,
    pub cuts: u32,
    pub attempts: u32,
}

impl Standing {
    // Whether it counts no more saves than attempts, as every rig does.
    pub fn is_whole(&self) -> bool
        ensures { result ≡ nat_le self.now.saves self.now.attempts }
    {
        self.saves <= self.attempts
    }
}
