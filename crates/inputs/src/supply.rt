// A supply as the command line names it.
ghost use Rattle.std.specs.Prelude.{◌≡◌};
ghost use Rattle.inputs.specs.Supply.{numbers_of, capacitor_of, supply_of};

use crate::number::u32_of;

// Stays: a None would not say that the mains are meant.
#[derive(Clone, Copy, PartialEq, Eq, Debug)]
pub enum SupplyWord {
    Mains,
    Capacitor {
        microfarads: u32,
        top: u32,
        bottom: u32,
        unit: u32,
    },
}

// Four numbers with commas between them.
fn capacitor_of(text: &str) -> Option<SupplyWord>
    ensures { result ≡ capacitor_of (numbers_of text.now) }
{
    let mut words = text.split(',');
    let microfarads = u32_of(words.next()?)?;
    let top = u32_of(words.next()?)?;
    let bottom = u32_of(words.next()?)?;
    let unit = u32_of(words.next()?)?;
    words.next().is_none().then_some(SupplyWord::Capacitor {
        microfarads,
        top,
        bottom,
        unit,
    })
}

// The supply that a word names, or none: `mains`, or `capacitor:C,TOP,BOTTOM,UNIT`.
#[tactic(auto, using(crate::proofs::Stripping::stripped))]
pub fn read_supply(word: &str) -> Option<SupplyWord>
    ensures { result ≡ supply_of word.now }
{
    if word == "mains" {
        return Some(SupplyWord::Mains);
    }
    capacitor_of(word.strip_prefix("capacitor:")?)
}
