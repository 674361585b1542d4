// A supply that was charged before the rig began on it.
use crate::hostile::Hostile;
use rig::rig::Rig;
use std::process::Abort;
use supply::supply::Supply;

static CHARGES: [u64; 5] = [0, 1, 5, 0xffff_ffff_ffff_fffe, 0xffff_ffff_ffff_ffff];

fn counts_from(rt: &impl Abort, charges: u64) {
    let mut rig = Rig::begin(Hostile::new(40, charges, 0));
    assert_eq!(rt; rig.charges(), 1);
    let _ = rig.cut();
    assert_eq!(rt; rig.charges(), 2);
    let _ = rig.cut();
    assert_eq!(rt; rig.charges(), 3);
    assert_eq!(rt; rig.cuts(), 2);
}

#[test]
fn counts_its_own(rt: HostRuntime) {
    for charges in &CHARGES {
        counts_from(&rt, *charges);
    }
}
