// The command `certify`: does every stretch of a round fit one full charge?
use crate::refusal::{Report, print_advice, print_refusal};
use crate::verdict::Verdict;
use crate::walk::Certified;
use certifier::certify::Certifier;
use isa::refusal::Refusal;
use paths::worth::Worth;
use pricing::prices::Prices;
use std::io;
use tables::walk::walk_table;

fn praise(rt: &HostRuntime, certified: Certified, budget: u64) -> io::Result<()> {
    let start = certified.dearest_start();
    println!(rt; "accepted")?;
    println!(rt;
        "the dearest stretch starts at slot {start} and costs {} of {budget}:",
        certified.price_at(start)
    )?;
    certified.print_walk(rt, start)
}

fn explain(rt: &HostRuntime, certified: Certified, refusal: Refusal) -> io::Result<()> {
    let Refusal::OverBudget { slot, .. } = refusal else {
        return print_refusal(rt, certified.image, refusal);
    };
    println!(rt; "{}", Report(refusal))?;
    println!(rt; "its dearest walk:")?;
    certified.print_walk(rt, slot)?;
    print_advice(rt, refusal)
}

// Shows a round that is accepted, or over its budget, by its dearest walk.
fn show_walk(
    rt: &HostRuntime,
    image: &[u8],
    by: &Certifier<Prices>,
    worths: &[Worth],
    verdict: Verdict,
) -> io::Result<()> {
    let certified = Certified {
        image,
        prices: by.model,
        nodes: &walk_table(image, by.model),
        worths,
    };
    match verdict {
        Ok(()) => praise(rt, certified, by.budget),
        Err(refusal) => explain(rt, certified, refusal),
    }
}

pub fn certify_round(
    rt: &HostRuntime,
    image: &[u8],
    by: &Certifier<Prices>,
) -> io::Result<Verdict> {
    let mut worths = [Worth::default(); 1024];
    let verdict = by.certify(image, &mut worths);
    match verdict {
        Ok(()) | Err(Refusal::OverBudget { .. }) => show_walk(rt, image, by, &worths, verdict)?,
        Err(refusal) => print_refusal(rt, image, refusal)?,
    }
    Ok(verdict)
}
