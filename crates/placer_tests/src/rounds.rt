// Rounds with saves placed: which idle slots become saves.
use certifier::certify::Certifier;
use isa::refusal::Refusal;
use paths::worth::Worth;
use placer::place::place;
use pricing::operand::OperandModel;

const NONE: Worth = Worth { price: 0, slot: 0 };

fn placed(image: &mut [u8], budget: u64) -> Result<(), Refusal> {
    let mut working = [NONE; 1024];
    let by = Certifier {
        model: &OperandModel,
        budget,
    };
    place(image, &by, &mut working)
}

// An own save stays, and the idle slot after it becomes one where it has to.
#[test]
fn own_saves_stay(rt: HostRuntime) {
    let mut image = [
        0x85, 0, 0, 0, 1, 0, 0, 0, 0x05, 0, 0, 0, 0, 0, 0, 0, 0x95, 0, 0, 0, 0, 0, 0, 0,
    ];
    assert!(rt; placed(image.as_mut_slice(), 150).is_ok());
    assert_eq!(rt; image[0], 0x85);
    assert_eq!(rt; image[8], 0x05);
    assert!(rt; placed(image.as_mut_slice(), 149).is_ok());
    assert_eq!(rt; image[0], 0x85);
    assert_eq!(rt; image[8], 0x85);
    assert_eq!(rt; image[12], 1);
}

// A jump's target becomes a save; the idle slot that nothing reaches stays.
#[test]
fn targets_and_unreachable_slots(rt: HostRuntime) {
    let mut image = [
        0x05, 0, 1, 0, 0, 0, 0, 0, 0x05, 0, 0, 0, 0, 0, 0, 0, 0x05, 0, 0, 0, 0, 0, 0, 0, 0x95, 0,
        0, 0, 0, 0, 0, 0,
    ];
    assert!(rt; placed(image.as_mut_slice(), 150).is_ok());
    assert_eq!(rt; image[0], 0x05);
    assert_eq!(rt; image[8], 0x05);
    assert_eq!(rt; image[16], 0x85);
    assert_eq!(rt; image[24], 0x95);
}

// A loop is broken by a save.
#[test]
fn loops_are_broken(rt: HostRuntime) {
    let mut image = [0x05, 0, 0, 0, 0, 0, 0, 0, 0x05, 0, 0xfe, 0xff, 0, 0, 0, 0];
    assert!(rt; placed(image.as_mut_slice(), 149).is_ok());
    assert_eq!(rt; image[0], 0x85);
    assert_eq!(rt; image[8], 0x05);
}

// Two divisions, each with an idle slot after it: both slots are needed.
#[test]
fn every_slot_needed(rt: HostRuntime) {
    let mut image = [
        0x37, 1, 0, 0, 1, 0, 0, 0, 0x05, 0, 0, 0, 0, 0, 0, 0, 0x37, 1, 0, 0, 1, 0, 0, 0, 0x05, 0,
        0, 0, 0, 0, 0, 0, 0x95, 0, 0, 0, 0, 0, 0, 0,
    ];
    assert!(rt; placed(image.as_mut_slice(), 156).is_ok());
    assert_eq!(rt; image[8], 0x85);
    assert_eq!(rt; image[24], 0x85);
}

// Two idle slots of which the later one suffices: upward, the first is
// dropped.
#[test]
fn upward(rt: HostRuntime) {
    let mut image = [
        0x05, 0, 0, 0, 0, 0, 0, 0, 0x05, 0, 0, 0, 0, 0, 0, 0, 0x95, 0, 0, 0, 0, 0, 0, 0,
    ];
    assert!(rt; placed(image.as_mut_slice(), 150).is_ok());
    assert_eq!(rt; image[0], 0x05);
    assert_eq!(rt; image[8], 0x85);
}
