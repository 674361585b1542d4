// A run, and the picture of its charge.
ghost use Rattle.std.specs.Prelude.{◌≡◌};
ghost use Rattle.claims.specs.declared.reply.Reply.{Reply};
ghost use Rattle.claims.specs.History.{Called};
ghost use Rattle.claims.specs.Round.{machine_of};
ghost use Rattle.rig.specs.Seen.{seen};
ghost use Rattle.survey.specs.Moment.{event_of, moment_of};

use crate::columns::Columns;
use crate::moment::{Event, Moment};
use claims::call::Call;
use claims::reply::{Attempt, Reply};
use claims::round::Round;
use machine::state::State;
use pricing::model::PriceModel;
use rig::rig::Rig;
use supply::supply::Supply;

// What a rig tells at the end of a script, and its charge along the way.
#[derive(Drop)]
pub struct Trace {
    pub charges: u64,
    pub saves: u32,
    pub cuts: u32,
    pub attempts: u32,
    pub kept: State,
    pub columns: Columns,
}

// What a call made happen, by its reply and by whether a save was passed; nothing
// where it was refused or was a question.
fn event_of(reply: Reply, saved: bool) -> Option<Event>
    ensures { result ≡ event_of reply saved }
{
    match reply {
        Reply::Step(Ok(Attempt::No)) => Some(Event::Fell),
        Reply::Step(Ok(_)) if saved => Some(Event::Saved),
        Reply::Step(Ok(_)) => Some(Event::Drew),
        Reply::Cut(Ok(())) => Some(Event::Cut),
        _ => None,
    }
}

// Makes a call, and tells what happened.
fn moment_of<S: Supply, M: PriceModel>(
    rig: &mut Rig<S>,
    round: &Round<M>,
    call: Call,
) -> Option<Moment>
    ensures { (a : Reply) × Called S.Supply (machine_of M.PriceModel.means round.now) call (seen rig.old) a (seen rig.new) × (result ≡ moment_of S.Supply (seen rig.old) a (seen rig.new)) }
{
    let before = rig.saves();
    let reply = rig.call(call, round);
    let event = event_of(reply, rig.saves() != before)?;
    Some(Moment {
        charge: rig.assured(),
        event,
    })
}

impl Trace {
    ghost use Rattle.survey.specs.Trace.{Traced};

    // Begins a rig on a supply, makes the calls of a script, and keeps the picture of
    // its charge.
    pub fn of<S: Supply + Drop, M: PriceModel>(supply: S, round: &Round<M>, calls: &[Call]) -> Trace
        ensures { Traced S.Supply M.PriceModel.means round.now supply calls.now result }
    {
        let mut rig = Rig::begin(supply);
        let mut columns = Columns::new();
        columns.add(Moment {
            charge: rig.assured(),
            event: Event::Begun,
        });
        for call in calls {
            columns.note(moment_of(&mut rig, round, *call));
        }
        Trace {
            charges: rig.charges(),
            saves: rig.saves(),
            cuts: rig.cuts(),
            attempts: rig.attempts(),
            kept: rig.kept(),
            columns,
        }
    }
}
