// The command `headroom`: how much charge a round needs at least, and how small
// its capacitor may become.
use crate::refusal::print_refusal;
use crate::verdict::Verdict;
use crate::walk::Certified;
use headroom::budget::least_budget;
use headroom::capacity::{Voltages, least_capacity};
use inputs::supply::SupplyWord;
use paths::worth::Worth;
use pricing::prices::Prices;
use std::io;
use tables::walk::walk_table;

fn print_budget(rt: &HostRuntime, certified: Certified, budget: u64) -> io::Result<()> {
    let start = certified.dearest_start();
    let walk = certified.walk_from(rt.alloc(), start)?;
    let end = walk.last().copied().unwrap_or(start);
    println!(rt; "least budget {budget}")?;
    println!(rt;
        "the dearest stretch goes from slot {start} to slot {end} and costs {}",
        certified.price_at(start)
    )
}

// How small a capacitor may become, and how much it may lose until then.
fn print_capacity(rt: &HostRuntime, microfarads: u32, least: Option<u32>) -> io::Result<()> {
    let Some(least) = least else {
        return println!(rt;
            "no capacitor of these voltages and this unit holds it, not even one of 100000 uF"
        );
    };
    println!(rt; "least capacity {least} uF")?;
    match microfarads.checked_sub(least) {
        Some(0) => println!(rt; "{microfarads} uF just fits, with nothing to spare"),
        Some(spare) => println!(rt;
            "{microfarads} uF may lose {spare} uF, {} percent, and still fits",
            spare as u64 * 100 / microfarads as u64
        ),
        None => println!(rt;
            "{microfarads} uF is too small: take a larger one, or place more saves"
        ),
    }
}

// The capacitor's part, where the supply is one.
fn tell_capacity(
    rt: &HostRuntime,
    image: &[u8],
    prices: &Prices,
    supply: Option<SupplyWord>,
) -> io::Result<Verdict> {
    let Some(
        SupplyWord::Capacitor {
            microfarads,
            top,
            bottom,
            unit,
        },
    ) = supply
    else {
        return Ok(Ok(()));
    };
    let voltages = Voltages { top, bottom, unit };
    match least_capacity(image, prices, voltages, &mut [Worth::default(); 1024]) {
        Ok(least) => print_capacity(rt, microfarads, least).map(Ok),
        Err(refusal) => print_refusal(rt, image, refusal).map(|()| Err(refusal)),
    }
}

// What a round needs, and of a capacitor how far it may age.
pub fn tell_headroom(
    rt: &HostRuntime,
    image: &[u8],
    prices: &Prices,
    supply: Option<SupplyWord>,
) -> io::Result<Verdict> {
    let mut worths = [Worth::default(); 1024];
    match least_budget(image, prices, &mut worths) {
        Ok(budget) => {
            let certified = Certified {
                image,
                prices,
                nodes: &walk_table(image, prices),
                worths: &worths,
            };
            print_budget(rt, certified, budget)?;
            tell_capacity(rt, image, prices, supply)
        }
        Err(refusal) => print_refusal(rt, image, refusal).map(|()| Err(refusal)),
    }
}
