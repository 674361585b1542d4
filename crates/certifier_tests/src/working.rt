// What certifying leaves in the working list.
use certifier::certify::Certifier;
use paths::worth::Worth;
use pricing::operand::OperandModel;
use std::process::Abort;

// r1 = 7, the next reading, a jump over the next slot, a slot that cannot be
// reached, EXIT
const ROUND: &[u8; 40] = b"\xb7\x01\0\0\x07\0\0\0\
       \x85\0\0\0\x02\0\0\0\
       \x05\0\x01\0\0\0\0\0\
       \xb7\x01\0\0\x07\0\0\0\
       \x95\0\0\0\0\0\0\0";

const LOOP: &[u8; 8] = b"\x05\0\xff\xff\0\0\0\0";

const MARK: Worth = Worth { price: 99, slot: 9 };

fn left(image: &[u8], budget: u64) -> [Worth; 1024] {
    let mut working = [MARK; 1024];
    let model = &OperandModel;
    let _ = Certifier { model, budget }.certify(image, &mut working);
    working
}

fn is(worth: Worth, price: u64, slot: u16) -> bool {
    worth == Worth { price, slot }
}

// The worths of the slots, none for the one that cannot be reached, and past
// the slots what was there.
fn has_worths(rt: &impl Abort, worths: &[Worth; 1024]) {
    assert!(rt; is(worths[0], 243, 0));
    assert!(rt; is(worths[1], 241, 1));
    assert!(rt; is(worths[2], 150, 2));
    assert!(rt; is(worths[3], 0, 0));
    assert!(rt; is(worths[4], 149, 4));
    assert!(rt; is(worths[5], 99, 9));
    assert!(rt; is(worths[1023], 99, 9));
}

#[test]
fn accepted(rt: HostRuntime) {
    has_worths(&rt, &left(ROUND, 243));
}

#[test]
fn over_budget(rt: HostRuntime) {
    has_worths(&rt, &left(ROUND, 242));
}

#[test]
fn other_refusals(rt: HostRuntime) {
    assert!(rt; is(left(LOOP, 243)[0], 99, 9));
    assert!(rt; is(left(ROUND, 0)[0], 99, 9));
    assert!(rt; is(left(b"", 243)[0], 99, 9));
}
