// The supply that the command line names.
ghost use Rattle.yatesorrel.specs.Source.{Sourced};

use inputs::supply::SupplyWord;
use isa::refusal::Refusal;
use std::fmt;
use supply::capacitor::Capacitor;
use supply::mains::Mains;
use supply::source::Source;

// A supply in the words of the command line.
#[derive(Clone, Copy)]
pub struct Spelled(pub SupplyWord);

impl fmt::Display for Spelled {
    fn fmt<W: fmt::Write>(&self, f: &mut fmt::Formatter<W>) -> fmt::Result {
        match self.0 {
            SupplyWord::Mains => write!(f, "mains"),
            SupplyWord::Capacitor {
                microfarads,
                top,
                bottom,
                unit,
            } => write!(f, "capacitor:{microfarads},{top},{bottom},{unit}"),
        }
    }
}

// Refused by 13 where a capacitor's numbers are outside their limits.
pub fn source_of(word: SupplyWord) -> Result<Source, Refusal>
    ensures { Sourced word result }
{
    match word {
        SupplyWord::Mains => Ok(Source::Mains(Mains::new())),
        SupplyWord::Capacitor {
            microfarads,
            top,
            bottom,
            unit,
        } => Capacitor::new(microfarads, top, bottom, unit).map(Source::Capacitor),
    }
}
