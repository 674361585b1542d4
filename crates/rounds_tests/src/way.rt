// A compiled round is lawful and does not fit its charge; with saves placed it
// does, and over a capacitor that is cut it records what its C source means. The
// records were worked out from that source and its tape; prices, saves and counts
// by a search over the walks and an interpreter that share nothing with this
// repository's.
use certifier::certify::Certifier;
use claims::call::Call;
use claims::reply::Reply;
use claims::round::Round;
use isa::image::instruction_at;
use isa::instruction::Role;
use isa::lawful::lawful;
use isa::refusal::Refusal;
use machine::ending::Ending;
use paths::worth::Worth;
use placer::place::place;
use pricing::operand::OperandModel;
use rig::rehearse::rehearse;
use rig::rig::Rig;
use rounds::eight_channel_scan::EIGHT_CHANNEL_SCAN;
use rounds::vnotch_weir::VNOTCH_WEIR;
use std::process::Abort;
use std::test::Fail;
use supply::capacitor::Capacitor;
use supply::supply::Supply;

struct Case {
    image: &'static [u8],
    tape: &'static [u32],
    // what the dearest walk of the round as compiled costs
    dearest: u64,
    // the slots that become saves
    placed: &'static [u16],
    // the counts of the rehearsal
    charges: u64,
    saves: u32,
    attempts: u32,
    // sensors and values
    log: &'static [(u8, u64)],
}

// The mean of the heads is 106.15 mm, rounded to 1062 tenths, and
// 138 * 1062^2.5 / 10^6 is 5072.1: above 5000.
static SEEPAGE: Case = Case {
    image: VNOTCH_WEIR,
    tape: &[1063, 1058, 1066, 1059],
    dearest: 693,
    placed: &[3, 7, 11, 24],
    charges: 3,
    saves: 4,
    attempts: 119,
    log: &[(0, 1062), (1, 5072), (9, 5072)],
};

// Every other reading is thrown away.
static CHANNELS: Case = Case {
    image: EIGHT_CHANNEL_SCAN,
    tape: &[
        4211, 8412, 8420, 8397, 8391, 8254, 8260, 7988, 7979, 9103, 9066, 9041, 9044, 6875, 6902,
        7230,
    ],
    dearest: 406,
    placed: &[12, 16],
    charges: 10,
    saves: 24,
    attempts: 250,
    log: &[
        (0, 8412),
        (1, 8397),
        (2, 8254),
        (3, 7988),
        (4, 9103),
        (5, 9041),
        (6, 6875),
        (7, 7230),
        (100, 9103),
        (101, 1546366028),
    ],
};

// what the capacitor holds, 75 microfarads from 3 V to 1 V
const BUDGET: u64 = 300;

const CERTIFIER: Certifier<OperandModel> = Certifier {
    model: &OperandModel,
    budget: BUDGET,
};

fn over_budget(rt: &impl Abort, case: &Case) -> Result<(), Fail> {
    let refusal = CERTIFIER
        .verdict(case.image)
        .err()
        .ok_or("accepted as compiled")?;
    assert_eq!(rt; refusal.number(), 10);
    assert_eq!(rt; refusal.slot(), 0);
    assert_eq!(rt; refusal.price(), case.dearest);
    Ok(())
}

fn is_save(image: &[u8], slot: u16) -> bool {
    instruction_at(image, slot).is_some_and(|instruction| instruction.role() == Role::Save)
}

// The slots that are saves now are the round's own and the ones named.
fn check_saves(rt: &impl Abort, case: &Case, image: &[u8]) {
    for slot in 0..128u16 {
        let wanted = is_save(case.image, slot) || case.placed.contains(&slot);
        assert_eq!(rt; is_save(image, slot), wanted);
    }
}

fn placed(image: &mut [u8]) -> Result<(), Refusal> {
    place(image, &CERTIFIER, &mut [Worth::default(); 1024])
}

const MOST_CALLS: usize = 500;

// A cut after 30 steps. Steps past the end are refused, and change nothing.
fn rehearsed(capacitor: Capacitor, image: &[u8], tape: &[u32]) -> Rig<Capacitor> {
    let mut calls = [Call::Step; MOST_CALLS];
    calls[30] = Call::Cut;
    let mut replies = [Reply::Count(0); MOST_CALLS];
    let round = Round {
        model: &OperandModel,
        image,
        tape,
    };
    rehearse(capacitor, &round, &calls, &mut replies)
}

fn check_log(rt: &impl Abort, rig: &Rig<Capacitor>, log: &[(u8, u64)]) -> Result<(), Fail> {
    assert_eq!(rt; rig.kept().logged(), log.len());
    for (index, (sensor, value)) in log.iter().enumerate() {
        let record = rig.record(index).ok().ok_or("a record is missing")?;
        assert_eq!(rt; record.sensor, *sensor);
        assert_eq!(rt; record.value, *value);
    }
    Ok(())
}

fn ends_well(rt: &impl Abort, rig: &Rig<Capacitor>, case: &Case) -> Result<(), Fail> {
    assert_eq!(rt; rig.cuts(), 1);
    assert_eq!(rt; rig.charges(), case.charges);
    assert_eq!(rt; rig.saves(), case.saves);
    assert_eq!(rt; rig.attempts(), case.attempts);
    match rig.kept().ending() {
        Some(Ending::Exit) => check_log(rt, rig, case.log),
        _ => Err(Fail::new("no EXIT")),
    }
}

fn goes_well(rt: &(impl Abort + AllocGlobal), case: &Case) -> Result<(), Fail> {
    assert!(rt; lawful(case.image).is_ok());
    over_budget(rt, case)?;
    let mut image = case.image.to_vec(rt.alloc())?;
    assert!(rt; placed(image.as_mut_slice()).is_ok());
    check_saves(rt, case, image.as_slice());
    let capacitor = Capacitor::new(75, 3_000, 1_000, 1_000_000).map_err(|refusal| Fail::new(
        refusal.number(),
    ))?;
    assert_eq!(rt; capacitor.budget(), BUDGET);
    ends_well(rt, &rehearsed(capacitor, image.as_slice(), case.tape), case)
}

#[test]
fn weir(rt: HostRuntime) -> Result<(), Fail> {
    goes_well(&rt, &SEEPAGE)
}

#[test]
fn scan(rt: HostRuntime) -> Result<(), Fail> {
    goes_well(&rt, &CHANNELS)
}
