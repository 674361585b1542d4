// The files of a command: rounds, price lists and tapes, and what is written.
use crate::trouble::Trouble;
use certifier::certify::Certifier;
use inputs::prices::read_prices;
use inputs::tape::read_tape;
use pricing::flat::FlatModel;
use pricing::prices::Prices;
use std::fs::File;
use std::io::Read;
use std::{fs, io};

// A round and the prices that it is judged by.
#[derive(Drop)]
pub struct Priced {
    pub image: Vec<u8>,
    pub prices: Prices,
}

impl Priced {
    // Whoever judges it at a budget.
    pub fn at(&self, budget: u64) -> Certifier<'_, Prices> {
        Certifier {
            model: &self.prices,
            budget,
        }
    }
}

// A byte more than the largest image has, so that a larger file is seen to be one
// and is not read to its end.
const MOST_READ: u64 = 8193;

fn read_front(rt: &HostRuntime, file: &str) -> io::Result<Vec<u8>> {
    let mut front = Vec::new(rt.alloc());
    File::open(rt, file)?
        .take(MOST_READ)
        .read_to_end(&mut front)?;
    Ok(front)
}

pub fn read_image<'a>(rt: &HostRuntime, round: &'a str) -> Result<Vec<u8>, Trouble<'a>> {
    read_front(rt, round).map_err(|why| Trouble::Unreadable { file: round, why })
}

fn read_text<'a>(rt: &HostRuntime, file: &'a str) -> Result<String, Trouble<'a>> {
    fs::read_to_string(rt, file).map_err(|why| Trouble::Unreadable { file, why })
}

// The prices of a file, or of the operand model where no file is named.
pub fn read_price_list<'a>(rt: &HostRuntime, file: Option<&'a str>) -> Result<Prices, Trouble<'a>> {
    let Some(file) = file else {
        return Ok(Prices::Operand);
    };
    let text = read_text(rt, file)?;
    let prices = read_prices(text.as_str()).map_err(|why| Trouble::Prices { file, why })?;
    Ok(Prices::Flat(FlatModel::new(prices)))
}

pub fn read_round<'a>(
    rt: &HostRuntime,
    round: &'a str,
    prices: Option<&'a str>,
) -> Result<Priced, Trouble<'a>> {
    Ok(Priced {
        image: read_image(rt, round)?,
        prices: read_price_list(rt, prices)?,
    })
}

pub fn read_readings<'a>(rt: &HostRuntime, file: &'a str) -> Result<Vec<u32>, Trouble<'a>> {
    let text = read_text(rt, file)?;
    read_tape(rt.alloc(), text.as_str()).map_err(|why| Trouble::Tape { file, why })
}

// Writes a file whole or not at all: under another name first.
pub fn write_whole<'a>(rt: &HostRuntime, file: &'a str, bytes: &[u8]) -> Result<(), Trouble<'a>> {
    let part = format!(in rt.alloc(); "{file}.part")?;
    let written = fs::write(rt, part.as_str(), bytes).and_then(|()| fs::rename(
        rt,
        part.as_str(),
        file,
    ));
    if written.is_err() {
        let _ = fs::remove_file(rt, part.as_str());
    }
    written.map_err(|why| Trouble::Unwritable { file, why })
}
