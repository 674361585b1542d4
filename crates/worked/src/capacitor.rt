// Rehearsals on a capacitor under the flat model.
ghost use Rattle.pricing.specs.Flat.{flat};
ghost use Rattle.rig.specs.Rehearsal.{Rehearsed};
ghost use Rattle.rig.specs.Seen.{seen};
ghost use Rattle.worked.specs.Known.{capacitors};

use claims::call::Call;
use claims::reply::Reply;
use claims::round::Round;
use pricing::flat::FlatModel;
use rig::rehearse::rehearse;
use rig::rig::Rig;
use supply::capacitor::Capacitor;

// Its histories are those of which the counts are known.
// Stays: without it what is known of the counts would stand on no call of the code.
pub fn rehearse_on_capacitor(
    capacitor: Capacitor,
    round: &Round<FlatModel>,
    calls: &[Call],
    replies: &mut [Reply],
) -> Rig<Capacitor>
    ensures { Rehearsed capacitors (λ model. flat model.prices) round.now capacitor calls.now replies.old replies.new (seen result) }
{
    rehearse(capacitor, round, calls, replies)
}
