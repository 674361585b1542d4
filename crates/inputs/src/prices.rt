// A price list: a price for each opcode byte, and one for a saving.
ghost use Rattle.std.specs.Prelude.{◌≡◌, ◌<◌, MatchResult, option_and_then};
ghost use Rattle.inputs.specs.Said.{said_lines};
ghost use Rattle.inputs.specs.Prices.{name_of, entry_of, place, name_at, entered, whole, prices_of, PricesRight};

use crate::number::{byte_of, u16_of};
use crate::said::said;
use std::error::Error;
use std::fmt;

const COUNT: usize = 257;

// What a price is for.
// Stays: a None would not say `save`.
#[derive(Clone, Copy, PartialEq, Eq, Debug)]
pub enum PriceName {
    Opcode(u8),
    Save,
}

impl PriceName {
    // Where its price stands in a list.
    fn place(self) -> usize
        ensures { result ≡ place self }
    {
        match self {
            PriceName::Opcode(opcode) => opcode as usize,
            PriceName::Save => 256,
        }
    }

    // The name whose price stands there.
    fn at(place: usize) -> PriceName
        ensures { result ≡ name_at place }
    {
        if place < 256 {
            PriceName::Opcode(place as u8)
        } else {
            PriceName::Save
        }
    }
}

impl fmt::Display for PriceName {
    fn fmt<W: fmt::Write>(&self, f: &mut fmt::Formatter<W>) -> fmt::Result {
        match *self {
            PriceName::Opcode(opcode) => write!(f, "{opcode:#04x}"),
            PriceName::Save => write!(f, "save"),
        }
    }
}

// Why a text is no price list.
#[derive(Clone, Copy, PartialEq, Eq, Debug)]
pub enum PricesError {
    // the line of this number, counted from 1, is no entry, or an entry whose
    // name an earlier line has
    Line(usize),
    // no line has this name, the first such
    Missing(PriceName),
}

impl fmt::Display for PricesError {
    fn fmt<W: fmt::Write>(&self, f: &mut fmt::Formatter<W>) -> fmt::Result {
        match *self {
            PricesError::Line(number) => write!(
                f,
                "line {number}: wanted an opcode or save, each once, and a price: 0x85 12"
            ),
            PricesError::Missing(name) => write!(f, "there is no price for {name}"),
        }
    }
}

impl Error for PricesError {}

// A name as a line has it: `save`, or an opcode byte as 0x and its digits.
#[tactic(auto, using(crate::proofs::Stripping::stripped))]
fn name_of(word: &str) -> Option<PriceName>
    ensures { result ≡ name_of word.now }
{
    if word == "save" {
        return Some(PriceName::Save);
    }
    byte_of(word.strip_prefix("0x")?).map(PriceName::Opcode)
}

// What one line says.
#[derive(Clone, Copy)]
struct Entry {
    name: PriceName,
    price: u16,
}

fn entry_of(line: &str) -> Option<Entry>
    ensures { result ≡ entry_of line.now }
{
    let mut words = line.split_whitespace();
    let name = name_of(words.next()?)?;
    let price = u16_of(words.next()?)?;
    words.next().is_none().then_some(Entry { name, price })
}

// The prices read so far.
// Stays: the flat model takes its 257 prices as one array.
#[derive(Drop)]
struct Sheet {
    prices: [Option<u16>; COUNT],
}

impl Sheet {
    // Takes what the line of this number says.
    fn enter(&mut self, line: &str, number: usize) -> Result<(), PricesError>
        ensures { MatchResult result (λ _. entered self.old.prices (entry_of line.now) ≡ Some self.new.prices) (λ e. (e ≡ PricesError.Line number) × (entered self.old.prices (entry_of line.now) ≡ None)) }
    {
        let wrong = PricesError::Line(number);
        let entry = entry_of(line).ok_or(wrong)?;
        match self.prices[entry.name.place()].replace(entry.price) {
            None => Ok(()),
            Some(_) => Err(wrong),
        }
    }

    // All prices, or the first that is missing.
    fn whole(&self) -> Result<[u16; COUNT], PricesError>
        ensures { result ≡ whole self.now.prices }
    {
        let mut prices = [0; COUNT];
        for (place, known) in self.prices.iter().enumerate() {
            prices[place] = known.ok_or(PricesError::Missing(PriceName::at(place)))?;
        }
        Ok(prices)
    }
}

// The prices that a text lists, by opcode, and the last for a saving; or the
// first line that is wrong, or else the first name that is missing.
pub fn read_prices(text: &str) -> Result<[u16; 257], PricesError>
    ensures value { result ≡ prices_of (said_lines text.now) }
    ensures right { PricesRight (said_lines text.now) result }
{
    let mut sheet = Sheet {
        prices: [None; COUNT],
    };
    for (index, line) in text.lines().enumerate() {
        if let Some(line) = said(line) {
            sheet.enter(line, index + 1)?;
        }
    }
    sheet.whole()
}
