// A rig on the mains goes as the run does.
use crate::cases::{CASES, Case, flat, round_of};
use machine::run::run_for;
use rig::rig::Rig;
use std::process::Abort;
use supply::mains::Mains;
use supply::supply::Supply;

fn goes_as_the_run(rt: &impl Abort, case: &Case) {
    let run = run_for(case.image, case.tape, case.steps);
    let model = flat();
    let round = round_of(&model, case.image, case.tape);
    let mut rig = Rig::begin(Mains::new());
    for _ in 0..case.steps {
        let _ = rig.step(&round);
    }
    assert!(rt; rig.kept() == run.state);
    assert_eq!(rt; rig.attempts() as u64, case.steps);
    assert_eq!(rt; rig.charges(), 1);
}

#[test]
fn all(rt: HostRuntime) {
    for case in &CASES {
        goes_as_the_run(&rt, case);
    }
}
