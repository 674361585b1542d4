// Charges of a capacitor and draws from it.
use crate::script::{Call, Step, follow};
use std::process::Abort;
use std::test::Fail;
use supply::answer::Answer;
use supply::capacitor::Capacitor;
use supply::supply::Supply;

#[derive(Clone, Copy)]
struct Case {
    microfarads: u32,
    top: u32,
    bottom: u32,
    unit: u32,
    budget: u64,
    // the energy at the end
    energy: u64,
}

// Down to exactly the floor, one past it, and a no that empties a full one.
static SMALL_STEPS: [Step; 11] = [
    Step {
        call: Call::Draw(0, Answer::Yes),
        assured: 0,
        asked: 0,
        charges: 0,
    },
    Step {
        call: Call::Recharge,
        assured: 40,
        asked: 0,
        charges: 1,
    },
    Step {
        call: Call::Draw(39, Answer::Yes),
        assured: 1,
        asked: 39,
        charges: 1,
    },
    Step {
        call: Call::Draw(1, Answer::Yes),
        assured: 0,
        asked: 40,
        charges: 1,
    },
    Step {
        call: Call::Draw(0, Answer::Yes),
        assured: 0,
        asked: 40,
        charges: 1,
    },
    Step {
        call: Call::Draw(1, Answer::No),
        assured: 0,
        asked: 41,
        charges: 1,
    },
    Step {
        call: Call::Recharge,
        assured: 40,
        asked: 41,
        charges: 2,
    },
    Step {
        call: Call::Draw(41, Answer::No),
        assured: 0,
        asked: 82,
        charges: 2,
    },
    Step {
        call: Call::Draw(1, Answer::No),
        assured: 0,
        asked: 83,
        charges: 2,
    },
    Step {
        call: Call::Recharge,
        assured: 40,
        asked: 83,
        charges: 3,
    },
    Step {
        call: Call::Draw(40, Answer::Yes),
        assured: 0,
        asked: 123,
        charges: 3,
    },
];

// 2 x 2 - 1 x 1 = 3 is one unit of 2, and 1 left over, which a no takes away.
static PART_STEPS: [Step; 3] = [
    Step {
        call: Call::Recharge,
        assured: 1,
        asked: 0,
        charges: 1,
    },
    Step {
        call: Call::Draw(1, Answer::Yes),
        assured: 0,
        asked: 1,
        charges: 1,
    },
    Step {
        call: Call::Draw(1, Answer::No),
        assured: 0,
        asked: 2,
        charges: 1,
    },
];

// The lowest energy is 0, and a difference must not stop there.
static NOTHING_STEPS: [Step; 2] = [
    Step {
        call: Call::Recharge,
        assured: 0,
        asked: 0,
        charges: 1,
    },
    Step {
        call: Call::Draw(1, Answer::No),
        assured: 0,
        asked: 1,
        charges: 1,
    },
];

static LARGEST_STEPS: [Step; 2] = [
    Step {
        call: Call::Recharge,
        assured: 5_000_000_000_000,
        asked: 0,
        charges: 1,
    },
    Step {
        call: Call::Draw(u32::MAX, Answer::Yes),
        assured: 4_995_705_032_705,
        asked: 4_294_967_295,
        charges: 1,
    },
];

fn run(rt: &impl Abort, case: Case, steps: &[Step]) -> Result<(), Fail> {
    let mut supply = Capacitor::new(case.microfarads, case.top, case.bottom, case.unit).map_err(
        |refusal| Fail::new(refusal.number()),
    )?;
    follow(rt, &mut supply, steps)?;
    assert_eq!(rt; supply.budget(), case.budget);
    assert_eq!(rt; supply.energy(), case.energy);
    Ok(())
}

#[test]
fn small(rt: HostRuntime) -> Result<(), Fail> {
    let case = Case {
        microfarads: 16,
        top: 3_000,
        bottom: 2_000,
        unit: 1_000_000,
        budget: 40,
        energy: 64_000_000,
    };
    run(&rt, case, &SMALL_STEPS)
}

#[test]
fn part_of_a_unit(rt: HostRuntime) -> Result<(), Fail> {
    let case = Case {
        microfarads: 1,
        top: 2,
        bottom: 1,
        unit: 1,
        budget: 1,
        energy: 1,
    };
    run(&rt, case, &PART_STEPS)
}

#[test]
fn bottom_of_nothing(rt: HostRuntime) -> Result<(), Fail> {
    let case = Case {
        microfarads: 1,
        top: 1,
        bottom: 0,
        unit: 1,
        budget: 0,
        energy: 0,
    };
    run(&rt, case, &NOTHING_STEPS)
}

#[test]
fn largest(rt: HostRuntime) -> Result<(), Fail> {
    let case = Case {
        microfarads: 100_000,
        top: 10_000,
        bottom: 0,
        unit: 1,
        budget: 5_000_000_000_000,
        energy: 9_991_410_065_410,
    };
    run(&rt, case, &LARGEST_STEPS)
}
