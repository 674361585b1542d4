// A supply that holds no more than it must, and beyond that answers at will.
ghost use Rattle.std.specs.Prelude.{◌≡◌};
ghost use Rattle.rig_tests.specs.Hostile.{four_of};
ghost use Rattle.supply.specs.Supply.{Drawn, Recharged};
ghost use Rattle.std.proofs.Common.{rules};

use supply::answer::Answer;
use supply::supply::Supply;

#[derive(Drop)]
pub(crate) struct Hostile {
    budget: u64,
    assured: u64,
    asked: u64,
    charges: u64,
    // its answers beyond the assured charge, a bit each from the lowest, 1 for
    // yes, and no when they are used up
    script: u64,
}

impl Hostile {
    pub(crate) fn new(budget: u64, charges: u64, script: u64) -> Hostile
        ensures budget { result.budget ≡ budget }
        ensures charges { result.charges ≡ charges }
        ensures script { result.script ≡ script }
    {
        Hostile {
            budget,
            assured: 0,
            asked: 0,
            charges,
            script,
        }
    }
}

impl Supply for Hostile {
    ghost four = { four_of };

    ghost draws = { λ s n a t. Drawn (four_of s) n a (four_of t) };

    ghost fills = { λ s t. Recharged (four_of s) (four_of t) };

    ghost drawn = { Prim.search rules };

    ghost recharged = { Prim.search rules };

    fn budget(&self) -> u64 {
        self.budget
    }

    fn assured(&self) -> u64 {
        self.assured
    }

    fn asked(&self) -> u64 {
        self.asked
    }

    fn charges(&self) -> u64 {
        self.charges
    }

    fn recharge(&mut self) {
        self.charges = self.charges.wrapping_add(1);
        self.assured = self.budget;
    }

    fn draw(&mut self, units: u32) -> Answer {
        self.asked = self.asked.wrapping_add(units as u64);
        if units as u64 <= self.assured {
            self.assured -= units as u64;
            return Answer::Yes;
        }
        self.assured = 0;
        let says_yes = self.script % 2 == 1;
        self.script /= 2;
        if says_yes { Answer::Yes } else { Answer::No }
    }
}
