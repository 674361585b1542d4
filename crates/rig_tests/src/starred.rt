// The six-slot round on a capacitor that holds four steps of it.
use crate::cases::{ROUND, flat, round_of};
use claims::call::Call;
use claims::reply::Reply;
use machine::ending::Ending;
use rig::rehearse::rehearse;
use rig::rig::Rig;
use std::process::Abort;
use std::test::Fail;
use supply::capacitor::Capacitor;
use supply::supply::Supply;

static STEPS: [Call; 7] = [Call::Step; 7];

static WITH_A_CUT: [Call; 10] = [
    Call::Step,
    Call::Step,
    Call::Cut,
    Call::Step,
    Call::Step,
    Call::Step,
    Call::Step,
    Call::Step,
    Call::Step,
    Call::Step,
];

fn rehearsed(capacitor: Capacitor, calls: &[Call]) -> Rig<Capacitor> {
    let mut replies = [Reply::Count(0); 10];
    rehearse(
        capacitor,
        &round_of(&flat(), ROUND, &[5]),
        calls,
        &mut replies,
    )
}

fn ends_with(rt: &impl Abort, calls: &[Call], charges: u64, attempts: u32) -> Result<(), Fail> {
    let capacitor = Capacitor::new(16, 3_000, 2_000, 1_000_000).map_err(|refusal| Fail::new(
        refusal.number(),
    ))?;
    let rig = rehearsed(capacitor, calls);
    assert_eq!(rt; rig.charges(), charges);
    assert_eq!(rt; rig.saves(), 1);
    assert_eq!(rt; rig.attempts(), attempts);
    assert_eq!(rt; rig.kept().ending(), Some(Ending::Exit));
    Ok(())
}

#[test]
fn straight(rt: HostRuntime) -> Result<(), Fail> {
    ends_with(&rt, &STEPS, 2, 7)
}

#[test]
fn with_a_cut(rt: HostRuntime) -> Result<(), Fail> {
    ends_with(&rt, &WITH_A_CUT, 3, 9)
}
