// A rehearsal: a rig begun on a supply, and the calls of a script.
ghost use Rattle.std.specs.Prelude.{ℕ, min, length, take};
ghost use Rattle.claims.specs.History.{Called};
ghost use Rattle.claims.specs.Round.{machine_of};
ghost use Rattle.claims.specs.declared.reply.Reply.{Reply};
ghost use Rattle.rig.specs.Rehearsal.{Rehearsed};
ghost use Rattle.rig.specs.Seen.{seen};
ghost use Rattle.rig.specs.Watch.{Told};

use crate::rig::Rig;
use claims::call::Call;
use claims::reply::Reply;
use claims::round::Round;
use pricing::model::PriceModel;
use supply::supply::Supply;

impl<S: Supply> Rig<S> {
    // Makes a call.
    pub fn call<M: PriceModel>(&mut self, call: Call, round: &Round<M>) -> Reply
        ensures { Called S.Supply (machine_of M.PriceModel.means round.now) call (seen self.old) result (seen self.new) }
    {
        match call {
            Call::Step => Reply::Step(self.step(round)),
            Call::Cut => Reply::Cut(self.cut()),
            Call::Charges => Reply::Count(self.charges()),
            Call::Saves => Reply::Count(self.saves() as u64),
            Call::Cuts => Reply::Count(self.cuts() as u64),
            Call::Attempts => Reply::Count(self.attempts() as u64),
            Call::Record(i) => Reply::Record(self.record(i)),
        }
    }
}

// Whoever watches a rehearsal: told after each call how many were made, and what
// the last one answered.
// Stays: a closure is called under a `requires`, and no public call here has one.
pub trait Watch {
    // what a telling does to a watcher
    ghost tells: { Self → ℕ → Reply → Self → Type 0 };

    fn made(&mut self, calls: usize, reply: Reply)
        ensures { tells self.old calls reply self.new };
}

// Nobody watches.
impl Watch for () {
    ghost tells = { λ _ _ _ _. Unit {0} };

    fn made(&mut self, _calls: usize, _reply: Reply) {}
}

// Begins a rig on a supply and makes the calls of a script, as many as there is
// room for their replies.
// Stays: the caller lends the room for the replies, as a library has no heap.
pub fn rehearse<S: Supply, M: PriceModel>(
    supply: S,
    round: &Round<M>,
    calls: &[Call],
    replies: &mut [Reply],
) -> Rig<S>
    ensures { Rehearsed S.Supply M.PriceModel.means round.now supply calls.now replies.old replies.new (seen result) }
{
    rehearse_watched(supply, round, calls, replies, &mut ())
}

// The same rehearsal, watched.
pub fn rehearse_watched<S: Supply, M: PriceModel, W: Watch>(
    supply: S,
    round: &Round<M>,
    calls: &[Call],
    replies: &mut [Reply],
    watch: &mut W,
) -> Rig<S>
    ensures rehearsed { Rehearsed S.Supply M.PriceModel.means round.now supply calls.now replies.old replies.new (seen result) }
    ensures told { let n = min (length calls.now) (length replies.old) in Told W.Watch.tells watch.old n (take n replies.new) watch.new }
{
    let mut rig = Rig::begin(supply);
    // Stays: a proof knows nothing of the replies after iter_mut().zip(calls).
    for made in 0..calls.len().min(replies.len()) {
        let reply = rig.call(calls[made], round);
        replies[made] = reply;
        watch.made(made + 1, reply);
    }
    rig
}
