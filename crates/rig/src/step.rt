// A step of a rig.
ghost use Rattle.std.specs.Prelude.{◌≡◌, ◌<◌, ◌≤◌};
ghost use Rattle.claims.specs.Rig.{Stepped};
ghost use Rattle.claims.specs.Round.{machine_of};
ghost use Rattle.machine.specs.Step.{is_save};
ghost use Rattle.rig.specs.Attempt.{Advanced, Stood, Lent};
ghost use Rattle.rig.specs.Seen.{rig_on, seen};

use crate::rig::Rig;
use crate::standing::Standing;
use claims::amount::amount_for;
use claims::reply::Attempt;
use claims::round::Round;
use isa::refusal::Refusal;
use machine::effect::Effect;
use pricing::model::PriceModel;
use supply::answer::Answer;
use supply::supply::Supply;

const ATTEMPTS: u32 = 1_000_000;

// What is to be drawn for a step, and whether it is a save.
#[derive(Clone, Copy)]
pub struct Due {
    pub amount: u32,
    pub saves: bool,
}

fn is_save(effect: Effect) -> bool
    ensures { result ≡ is_save effect }
{
    matches!(effect, Effect::Save(_))
}

impl Standing {
    // Counts an attempt and makes its step, before it is drawn for. The state is
    // stepped where it lies, since a copy of it takes longer than the step.
    #[inline(always)]
    fn advance<M: PriceModel>(&mut self, round: &Round<M>) -> Due
        requires { self.old.attempts < 1000000 }
        ensures { Advanced (machine_of M.PriceModel.means round.now) self.old result self.new }
    {
        let pending = self.state.logged().saturating_sub(self.kept.logged());
        let effect = self.state.step(round.image, round.tape);
        self.attempts += 1;
        Due {
            amount: amount_for(round.model, effect, pending),
            saves: is_save(effect),
        }
    }

    // The new state stands, and a save or an ending makes it the kept one.
    #[inline(always)]
    fn stand(&mut self, saves: bool) -> Attempt
        requires { self.old.saves < self.old.attempts }
        ensures { Stood saves self.old result self.new }
    {
        if saves {
            self.saves += 1;
        }
        if saves || self.state.ended() {
            self.kept = self.state;
        }
        self.state.ending().map_or(Attempt::Yes, Attempt::Ended)
    }

    // Attempts one step. On a yes the new state stands; on a no the kept state
    // returns.
    #[inline(always)]
    fn attempt<S: Supply, M: PriceModel>(
        &mut self,
        supply: &mut S,
        round: &Round<M>,
    ) -> Result<Attempt, Refusal>
        requires { self.old.saves ≤ self.old.attempts }
        ensures stepped { Stepped S.Supply (machine_of M.PriceModel.means round.now) (rig_on supply.old self.old) result (rig_on supply.new self.new) }
        ensures few { self.new.saves ≤ self.new.attempts }
    {
        self.allow(self.attempts, ATTEMPTS, Refusal::Attempts)?;
        let due = self.advance(round);
        match supply.draw(due.amount) {
            Answer::Yes => Ok(self.stand(due.saves)),
            Answer::No => {
                self.fall_back(supply);
                Ok(Attempt::No)
            }
        }
    }

    // Attempts one step on a supply that lies elsewhere; none where it counts more
    // saves than attempts, as no rig does.
    pub fn step<S: Supply, M: PriceModel>(
        &mut self,
        supply: &mut S,
        round: &Round<M>,
    ) -> Option<Result<Attempt, Refusal>>
        ensures { Lent S.Supply (machine_of M.PriceModel.means round.now) (rig_on supply.old self.old) result (rig_on supply.new self.new) }
    {
        if !self.is_whole() {
            return None;
        }
        Some(self.attempt(supply, round))
    }
}

impl<S: Supply> Rig<S> {
    // Attempts one step. On a yes the new state stands, and a save or an ending
    // makes it the kept one; on a no the kept state returns.
    pub fn step<M: PriceModel>(&mut self, round: &Round<M>) -> Result<Attempt, Refusal>
        ensures { Stepped S.Supply (machine_of M.PriceModel.means round.now) (seen self.old) result (seen self.new) }
    {
        self.standing.attempt(&mut self.supply, round)
    }
}
