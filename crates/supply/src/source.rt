// The supply that a person or a caller in C names: a capacitor or the mains.
ghost use Rattle.supply.specs.Source.{four_of, Draws, Fills};
ghost use Rattle.supply.specs.Either.{keeps_either};
ghost use Rattle.std.proofs.Common.{rules};

use crate::answer::Answer;
use crate::capacitor::Capacitor;
use crate::mains::Mains;
use crate::supply::Supply;

#[derive(Drop)]
pub enum Source {
    Capacitor(Capacitor),
    Mains(Mains),
}

impl Supply for Source {
    ghost four = { four_of };

    ghost draws = { Draws };

    ghost fills = { Fills };

    ghost drawn = { λ s t n a d. keeps_either s t n a d };

    ghost recharged = { Prim.search rules };

    fn budget(&self) -> u64 {
        match self {
            Source::Capacitor(capacitor) => capacitor.budget(),
            Source::Mains(mains) => mains.budget(),
        }
    }

    fn assured(&self) -> u64 {
        match self {
            Source::Capacitor(capacitor) => capacitor.assured(),
            Source::Mains(mains) => mains.assured(),
        }
    }

    fn asked(&self) -> u64 {
        match self {
            Source::Capacitor(capacitor) => capacitor.asked(),
            Source::Mains(mains) => mains.asked(),
        }
    }

    fn charges(&self) -> u64 {
        match self {
            Source::Capacitor(capacitor) => capacitor.charges(),
            Source::Mains(mains) => mains.charges(),
        }
    }

    fn recharge(&mut self) {
        match self {
            Source::Capacitor(capacitor) => capacitor.recharge(),
            Source::Mains(mains) => mains.recharge(),
        }
    }

    fn draw(&mut self, units: u32) -> Answer {
        match self {
            Source::Capacitor(capacitor) => capacitor.draw(units),
            Source::Mains(mains) => mains.draw(units),
        }
    }
}
