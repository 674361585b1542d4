// Times steps: the machine by itself, and a rig on the mains.
use crate::images::{ARITHMETIC, SAVING};
use crate::timing::timed;
use claims::round::Round;
use machine::run::run_for;
use pricing::operand::OperandModel;
use rig::rig::Rig;
use supply::mains::Mains;

const STEPS: u64 = 1_000_000;

// Stays: a struct of name and image is longer at each call than the two.
fn time_machine(rt: &HostRuntime, name: &str, image: &[u8]) -> anyhow::Result<()> {
    let (steps, took) = timed(rt, || run_for(image, &[], STEPS).steps)?;
    let millis = took.as_millis();
    println!(rt; "machine {name}: {steps} steps")?;
    eprintln!(rt; "machine {name}: {millis} ms")?;
    Ok(())
}

fn step_often(rig: &mut Rig<Mains>, image: &[u8]) {
    let round = Round {
        model: &OperandModel,
        image,
        tape: &[],
    };
    for _ in 0..STEPS {
        let _ = rig.step(&round);
    }
}

fn time_rig(rt: &HostRuntime, name: &str, image: &[u8]) -> anyhow::Result<()> {
    let mut rig = Rig::begin(Mains::new());
    let ((), took) = timed(rt, || step_often(&mut rig, image))?;
    let millis = took.as_millis();
    println!(rt;
        "rig {name}: {} attempts, {} saves",
        rig.attempts(),
        rig.saves()
    )?;
    eprintln!(rt; "rig {name}: {millis} ms")?;
    Ok(())
}

pub fn time_steps(rt: &HostRuntime) -> anyhow::Result<()> {
    time_machine(rt, "arithmetic", ARITHMETIC)?;
    time_rig(rt, "arithmetic", ARITHMETIC)?;
    time_machine(rt, "saving", SAVING)?;
    time_rig(rt, "saving", SAVING)
}
