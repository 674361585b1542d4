// The command `list`: an image slot by slot, and whether it is lawful.
use crate::refusal::print_refusal;
use crate::slots::{Line, Reckoned, listed, print_head, print_roles};
use crate::verdict::Verdict;
use headroom::budget::least_budget;
use isa::image::well_sized;
use isa::lawful::lawful;
use paths::worth::Worth;
use pricing::prices::Prices;
use std::io;

// Whether an image is lawful, in words.
pub fn print_lawful(rt: &HostRuntime, image: &[u8], verdict: Verdict) -> io::Result<()> {
    match verdict {
        Ok(()) => println!(rt; "lawful"),
        Err(refusal) => print_refusal(rt, image, refusal),
    }
}

// The price of the dearest walk from a slot, where walks come to it: its worth
// then names it.
fn worth_at(worths: &[Worth], slot: u16) -> Option<u64> {
    worths
        .get(slot as usize)
        .filter(|worth| worth.slot == slot)
        .map(|worth| worth.price)
}

// The slots with their prices and worths; a worth is a dash where no walk comes to.
fn print_priced(
    rt: &HostRuntime,
    image: &[u8],
    prices: &Prices,
    worths: &[Worth],
) -> io::Result<()> {
    print_head(rt, "worth")?;
    for slot in 0..listed(image) {
        let line = Line { image, slot };
        let reckoned = Reckoned {
            line,
            price: line.price(prices),
            other: worth_at(worths, slot),
        };
        println!(rt; "{reckoned}")?;
    }
    Ok(())
}

// An image that is not lawful, or has an unbroken loop, has no worths.
fn list_slots(rt: &HostRuntime, image: &[u8], prices: &Prices) -> io::Result<()> {
    let mut worths = [Worth::default(); 1024];
    match least_budget(image, prices, &mut worths) {
        Ok(_) => print_priced(rt, image, prices, &worths),
        Err(_) => print_priced(rt, image, prices, &[]),
    }
}

pub fn list(rt: &HostRuntime, image: &[u8], prices: &Prices) -> io::Result<Verdict> {
    let verdict = lawful(image);
    print_lawful(rt, image, verdict)?;
    if well_sized(image) {
        list_slots(rt, image, prices)?;
    }
    if verdict.is_ok() {
        print_roles(rt, image)?;
    }
    Ok(verdict)
}
