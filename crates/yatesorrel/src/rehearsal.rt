// The command `run`: a round rehearsed over a supply, and what came of it.
ghost use Rattle.std.specs.Prelude.{◌≡◌, ◌++◌, IfOk};
ghost use Rattle.yatesorrel.specs.Script.{cuts_at, script_of};

use certifier::certify::Certifier;
use claims::call::Call;
use claims::reply::Reply;
use claims::round::Round;
use machine::ending::Ending;
use machine::state::State;
use pricing::prices::Prices;
use rig::rehearse::{Watch, rehearse_watched};
use rig::rig::Rig;
use std::alloc::{AllocError, Global};
use std::{fmt, io};
use supply::source::Source;
use supply::supply::Supply;

// The largest budget that the certifier takes.
const MOST_BUDGET: u64 = 100_000_000;

// The cuts that are made once so many steps were asked.
fn push_cuts(calls: &mut Vec<Call>, cuts: &[u64], asked: u64) -> Result<(), AllocError>
    ensures { IfOk result (λ _. calls.new.items ≡ calls.old.items ++ cuts_at cuts.now asked) }
{
    for cut in cuts {
        if *cut == asked {
            calls.push(Call::Cut)?;
        }
    }
    Ok(())
}

// So many steps, with a cut before the next step once as many were asked as a
// cut says.
pub fn script(heap: Global, steps: u64, cuts: &[u64]) -> Result<Vec<Call>, AllocError>
    ensures { IfOk result (λ calls. calls.items ≡ script_of cuts.now steps) }
{
    let mut calls = Vec::new(heap);
    for asked in 0..steps {
        push_cuts(&mut calls, cuts, asked)?;
        calls.push(Call::Step)?;
    }
    Ok(calls)
}

// How a run ended, if it did.
#[derive(Clone, Copy)]
struct Ended(Option<Ending>);

impl fmt::Display for Ended {
    fn fmt<W: fmt::Write>(&self, f: &mut fmt::Formatter<W>) -> fmt::Result {
        match self.0 {
            Some(Ending::Exit) => write!(f, "exit"),
            Some(Ending::Trap(trap)) => write!(f, "trap {}", trap.number()),
            None => write!(f, "none"),
        }
    }
}

fn print_log(rt: &HostRuntime, state: &State) -> io::Result<()> {
    for index in 0..state.logged() {
        if let Some(record) = state.record(index) {
            println!(rt;
                "record {index} sensor {} value {}",
                record.sensor, record.value
            )?;
        }
    }
    Ok(())
}

fn print_rig(rt: &HostRuntime, rig: &Rig<Source>) -> io::Result<()> {
    println!(rt; "charges {}", rig.charges())?;
    println!(rt; "saves {}", rig.saves())?;
    println!(rt; "cuts {}", rig.cuts())?;
    println!(rt; "attempts {}", rig.attempts())?;
    let kept = rig.kept();
    println!(rt; "ending {}", Ended(kept.ending()))?;
    print_log(rt, &kept)
}

// A word where the image is not accepted at the supply's budget: the rig runs
// it all the same.
pub fn warn(rt: &HostRuntime, round: &Round<Prices>, budget: u64) -> io::Result<()> {
    let certifier = Certifier {
        model: round.model,
        budget: budget.min(MOST_BUDGET),
    };
    if let Err(refusal) = certifier.verdict(round.image) {
        eprintln!(rt; "yatesorrel: not accepted at this supply's budget, {budget}: {refusal}")?;
    }
    Ok(())
}

// Shows on standard error how far a long rehearsal has come.
#[derive(Drop)]
struct Progress<'a> {
    rt: &'a HostRuntime,
    attempts: u64,
}

// The attempts between two lines of progress.
const ATTEMPTS_SHOWN: u64 = 250_000;

impl Watch for Progress<'_> {
    ghost tells = { λ _ _ _ _. Unit {0} };

    fn made(&mut self, _calls: usize, reply: Reply) {
        if !matches!(reply, Reply::Step(Ok(_))) {
            return;
        }
        self.attempts = self.attempts.saturating_add(1);
        if self.attempts % ATTEMPTS_SHOWN == 0 {
            let _ = eprintln!(self.rt; "yatesorrel: {} attempts made", self.attempts);
        }
    }
}

// Rehearses a round, and says what came of it.
pub fn rehearse_round(
    rt: &HostRuntime,
    source: Source,
    round: &Round<Prices>,
    calls: &[Call],
) -> io::Result<()> {
    warn(rt, round, source.budget())?;
    let mut replies = vec![in rt.alloc(); Reply::Count(0); calls.len()]?;
    let mut progress = Progress { rt, attempts: 0 };
    let rig = rehearse_watched(source, round, calls, replies.as_mut_slice(), &mut progress);
    print_rig(rt, &rig)
}
