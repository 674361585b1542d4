// The refusals of a rig at their edges.
use crate::cases::{ROUND, flat, round_of};
use claims::round::Round;
use isa::refusal::Refusal;
use pricing::flat::FlatModel;
use rig::rig::Rig;
use std::process::Abort;
use std::test::Fail;
use supply::mains::Mains;
use supply::supply::Supply;

const MILLION: u32 = 1_000_000;

// a jump to itself
const FOREVER: &[u8; 8] = b"\x05\0\xff\xff\0\0\0\0";

// counts r1 up to 499,999 and exits: a million steps
const LONG: &[u8; 32] = b"\xb7\x01\0\0\0\0\0\0\
       \x07\x01\0\0\x01\0\0\0\
       \x55\x01\xfe\xff\x1f\xa1\x07\0\
       \x95\0\0\0\0\0\0\0";

// The number of the refusal.
fn refused<T: Drop>(answer: Result<T, Refusal>) -> Option<u8> {
    answer.err().map(|refusal| refusal.number())
}

// Steps of which none is refused.
fn steps(rt: &impl Abort, rig: &mut Rig<Mains>, round: &Round<FlatModel>, count: u32) {
    for _ in 0..count {
        assert_eq!(rt; refused(rig.step(round)), None);
    }
}

#[test]
fn records(rt: HostRuntime) -> Result<(), Fail> {
    let model = flat();
    let round = round_of(&model, ROUND, &[5]);
    let mut rig = Rig::begin(Mains::new());
    steps(&rt, &mut rig, &round, 5);
    // the record is there, but not kept
    assert_eq!(rt; refused(rig.record(0)), Some(24));
    steps(&rt, &mut rig, &round, 1);
    assert_eq!(rt; refused(rig.record(1)), Some(24));
    assert_eq!(rt; refused(rig.record(usize::MAX)), Some(24));
    let record = rig
        .record(0)
        .map_err(|refusal| Fail::new(refusal.number()))?;
    assert_eq!(rt; record.sensor, 7);
    assert_eq!(rt; record.value, 5);
    Ok(())
}

#[test]
fn after_the_ending(rt: HostRuntime) {
    let model = flat();
    let round = round_of(&model, ROUND, &[5]);
    let mut rig = Rig::begin(Mains::new());
    steps(&rt, &mut rig, &round, 6);
    assert_eq!(rt; refused(rig.step(&round)), Some(21));
    assert_eq!(rt; refused(rig.cut()), Some(21));
    assert_eq!(rt; rig.attempts(), 6);
    assert_eq!(rt; rig.cuts(), 0);
    assert_eq!(rt; rig.charges(), 1);
}

#[test]
fn after_all_attempts(rt: HostRuntime) {
    let model = flat();
    let round = round_of(&model, FOREVER, &[]);
    let mut rig = Rig::begin(Mains::new());
    steps(&rt, &mut rig, &round, MILLION);
    assert_eq!(rt; refused(rig.step(&round)), Some(22));
    assert_eq!(rt; rig.attempts(), MILLION);
    assert_eq!(rt; refused(rig.cut()), None);
}

// The ending comes first where the last attempt ends the round.
#[test]
fn ending_at_the_last_attempt(rt: HostRuntime) {
    let model = flat();
    let round = round_of(&model, LONG, &[]);
    let mut rig = Rig::begin(Mains::new());
    steps(&rt, &mut rig, &round, MILLION);
    assert_eq!(rt; rig.attempts(), MILLION);
    assert_eq!(rt; refused(rig.step(&round)), Some(21));
    assert_eq!(rt; refused(rig.cut()), Some(21));
}

#[test]
fn after_all_cuts(rt: HostRuntime) {
    let model = flat();
    let round = round_of(&model, ROUND, &[5]);
    let mut rig = Rig::begin(Mains::new());
    for _ in 0..MILLION {
        assert_eq!(rt; refused(rig.cut()), None);
    }
    assert_eq!(rt; refused(rig.cut()), Some(23));
    assert_eq!(rt; rig.cuts(), MILLION);
    assert_eq!(rt; rig.charges(), MILLION as u64 + 1);
    assert_eq!(rt; refused(rig.step(&round)), None);
}
