// The run claims on supplies that say no whenever they may.
use crate::cases::{CASES, Case, flat, round_of};
use crate::hostile::Hostile;
use certifier::certify::Certifier;
use claims::round::Round;
use machine::run::{Run, run_for};
use pricing::flat::FlatModel;
use rig::rig::Rig;
use std::process::Abort;
use supply::supply::Supply;

const MOST: u64 = 1_000;

static SCRIPTS: [u64; 6] = [
    0,
    0xffff_ffff_ffff_ffff,
    0xaaaa_aaaa_aaaa_aaaa,
    0x5555_5555_5555_5555,
    0x0f0f_00ff_3333_9249,
    0x1,
];

fn few_charges(rt: &impl Abort, rig: &Rig<Hostile>) {
    assert!(rt; rig.charges() <= rig.saves() as u64 + rig.cuts() as u64 + 1);
}

// Steps on, with a cut after every so many steps, at most five of them.
fn go(rt: &impl Abort, rig: &mut Rig<Hostile>, round: &Round<FlatModel>, steps: u64, between: u64) {
    for step in 0..steps {
        if between > 0 && step % between == 0 && rig.cuts() < 5 {
            let _ = rig.cut();
        }
        let _ = rig.step(round);
        few_charges(rt, rig);
    }
}

fn ends_as(rt: &impl Abort, rig: &Rig<Hostile>, run: &Run, case: &Case) {
    assert!(rt; rig.kept() == run.state);
    assert_eq!(rt; run.state.ending(), Some(case.ending));
    assert_eq!(rt; run.steps, case.steps);
}

fn holds(rt: &impl Abort, case: &Case, script: u64) {
    let model = flat();
    let round = round_of(&model, case.image, case.tape);
    let run = run_for(case.image, case.tape, MOST);
    let twice = case.steps.saturating_mul(2);
    let mut straight = Rig::begin(Hostile::new(case.budget, 0, script));
    go(rt, &mut straight, &round, twice, 0);
    ends_as(rt, &straight, &run, case);
    let mut interrupted = Rig::begin(Hostile::new(case.budget, 0, script));
    go(rt, &mut interrupted, &round, MOST, 3);
    ends_as(rt, &interrupted, &run, case);
}

fn holds_of(rt: &impl Abort, case: &Case) {
    for script in &SCRIPTS {
        holds(rt, case, *script);
    }
}

#[test]
fn hold(rt: HostRuntime) {
    for case in &CASES {
        holds_of(&rt, case);
    }
}

// The number of the certifier's refusal.
fn refused(case: &Case, budget: u64) -> Option<u8> {
    let model = &flat();
    Certifier { model, budget }
        .verdict(case.image)
        .err()
        .map(|refusal| refusal.number())
}

// The budgets are the least at which the rounds are accepted.
#[test]
fn are_accepted(rt: HostRuntime) {
    for case in &CASES {
        assert_eq!(rt; refused(case, case.budget), None);
        assert_eq!(rt; refused(case, case.budget.saturating_sub(1)), Some(10));
    }
}
