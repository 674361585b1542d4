// Times certifying and placing at growing sizes, and steps. Standard output says what was done, and
// standard error how long it took, in microseconds for each call.
#![tactic(auto)]

mod images;
mod steps;
mod timing;

use certifier::certify::Certifier;
use images::{forking, idling, straight};
use paths::worth::Worth;
use placer::place::place;
use pricing::operand::OperandModel;
use steps::time_steps;
use timing::timed;

const CALLS: u32 = 200;

const BUDGET: u64 = 100_000_000;

fn at(budget: u64) -> Certifier<'static, OperandModel> {
    Certifier {
        model: &OperandModel,
        budget,
    }
}

// How many of the calls accept the image.
fn certify_often(image: &[u8], working: &mut [Worth]) -> usize {
    (0..CALLS)
        .filter(|_| at(BUDGET).certify(image, working).is_ok())
        .count()
}

// Stays: a struct of name and image is longer at each call than the two.
fn time_one(rt: &HostRuntime, name: &str, image: &[u8]) -> anyhow::Result<()> {
    let mut working = [Worth::default(); 1024];
    let (accepted, took) = timed(rt, || certify_often(image, &mut working))?;
    let micros = took.as_micros() / CALLS as u128;
    let slots = image.len() / 8;
    println!(rt; "certify {name} {slots} slots: {accepted} accepted")?;
    eprintln!(rt; "certify {name} {slots} slots: {micros} us")?;
    Ok(())
}

// A budget at which the round of readings needs saves.
const LITTLE: u64 = 600;

fn time_placing(rt: &HostRuntime, image: &[u8]) -> anyhow::Result<()> {
    let mut working = [Worth::default(); 1024];
    let mut placed = image.to_vec(rt.alloc())?;
    let (answer, took) = timed(rt, || {
        place(placed.as_mut_slice(), &at(LITTLE), &mut working)
    })?;
    let done = answer.is_ok();
    let micros = took.as_micros();
    let slots = image.len() / 8;
    println!(rt; "place idling {slots} slots: {done}")?;
    eprintln!(rt; "place idling {slots} slots: {micros} us")?;
    Ok(())
}

fn run(rt: &HostRuntime) -> anyhow::Result<()> {
    for slots in [128, 256, 512, 1024] {
        time_one(rt, "straight", straight(rt.alloc(), slots)?.as_slice())?;
        time_one(rt, "idling", idling(rt.alloc(), slots)?.as_slice())?;
        time_placing(rt, idling(rt.alloc(), slots)?.as_slice())?;
        time_one(rt, "forking", forking(rt.alloc(), slots)?.as_slice())?;
    }
    time_steps(rt)
}

fn main(rt: HostRuntime) -> anyhow::Result<()> {
    run(&rt)
}
