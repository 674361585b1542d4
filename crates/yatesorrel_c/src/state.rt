// The state of a run as C holds it.
ghost use Rattle.std.specs.Prelude.{◌≡◌, nat_le};
ghost use Rattle.yatesorrel_c.specs.State.{ending_number_in};

use machine::ending::{EXIT, Ending, GOES_ON};
use machine::state::State;

// Whether the ending of a state is one that a run comes to. No other is taken.
pub(crate) fn is_known(state: &State) -> bool
    ensures { result ≡ nat_le state.now.ending 5 }
{
    state.ending <= EXIT
}

// How a run ended: a trap by its number, or EXIT; 0 while it goes on.
pub(crate) fn number_in(ending: Option<Ending>) -> u8
    ensures { result ≡ ending_number_in ending }
{
    ending.map_or(GOES_ON, Ending::number)
}
