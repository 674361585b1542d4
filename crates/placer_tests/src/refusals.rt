// Refusals of placing: their order, what they carry, and that they keep the
// image.
use certifier::certify::Certifier;
use isa::refusal::Told;
use paths::worth::Worth;
use placer::place::place;
use pricing::operand::OperandModel;

const NONE: Worth = Worth { price: 0, slot: 0 };

// Stays: the answers are compared with what a refusal tells, which has no none.
const ACCEPTED: Told = Told {
    number: 0,
    slot: 0,
    price: 0,
};

// The number of the answer, with what it carries where it carries something.
fn placed(image: &mut [u8], budget: u64) -> Told {
    let mut working = [NONE; 1024];
    let by = Certifier {
        model: &OperandModel,
        budget,
    };
    place(image, &by, &mut working).map_or_else(
        |refusal| { refusal.carried().unwrap_or(Told::from(refusal)) },
        |()| ACCEPTED,
    )
}

fn told(number: u8, slot: u16, price: u64) -> Told {
    Told {
        number,
        slot,
        price,
    }
}

#[test]
fn carried(rt: HostRuntime) {
    let mut image = [0x05, 0, 0, 0, 0, 0, 0, 0, 0x05, 0, 0xfe, 0xff, 0, 0, 0, 0];
    assert_eq!(rt; placed(image.as_mut_slice(), 148), told(10, 1, 149));
    assert_eq!(rt; image[0], 0x05);
    assert_eq!(rt; image[4], 0);
    let mut stuck = [0x05, 0, 0xff, 0xff, 0, 0, 0, 0];
    assert_eq!(rt; placed(stuck.as_mut_slice(), 1000), told(9, 0, 0));
    assert_eq!(rt; stuck[2], 0xff);
}

#[test]
fn before_the_walks(rt: HostRuntime) {
    let mut image = [0x95, 1, 0, 0, 0, 0, 0, 0];
    assert_eq!(rt; placed(image.as_mut_slice(), 0), told(8, 0, 0));
    assert_eq!(rt; placed(image.as_mut_slice(), 100_000_001), told(8, 0, 0));
    assert_eq!(rt; placed(image.as_mut_slice(), 149), told(4, 0, 0));
    let mut image = [0x95, 0, 0, 0, 0, 0, 0, 0];
    assert_eq!(rt; placed(image.as_mut_slice(), 148), told(10, 0, 149));
    assert_eq!(rt; placed(image.as_mut_slice(), 149), ACCEPTED);
}
