// Whole images: their lengths, the order of the rules over several slots, and
// a compiled round.
use isa::lawful::lawful;
use isa::refusal::Told;
use rounds::piezometer_pair::PIEZOMETER_PAIR;
use std::test::Fail;

// Stays: the cases are compared with what a refusal tells, which has no none.
const LAWFUL: Told = Told {
    number: 0,
    slot: 0,
    price: 0,
};

fn answer(image: &[u8]) -> Told {
    lawful(image).map_or_else(Told::from, |()| LAWFUL)
}

fn refused(number: u8, slot: u16) -> Told {
    Told {
        number,
        slot,
        price: 0,
    }
}

// As many bytes of an image of nothing but EXIT.
fn exits(rt: &HostRuntime, length: usize) -> Result<Told, Fail> {
    let image: Vec<u8> = (0..length)
        .map(|at| if at % 8 == 0 { 0x95 } else { 0 })
        .collect(rt.alloc())?;
    Ok(answer(&image))
}

#[test]
fn lengths(rt: HostRuntime) -> Result<(), Fail> {
    assert_eq!(rt; exits(&rt, 0)?, refused(1, 0));
    assert_eq!(rt; exits(&rt, 1)?, refused(1, 0));
    assert_eq!(rt; exits(&rt, 7)?, refused(1, 0));
    assert_eq!(rt; exits(&rt, 8)?, LAWFUL);
    assert_eq!(rt; exits(&rt, 9)?, refused(1, 0));
    assert_eq!(rt; exits(&rt, 8184)?, LAWFUL);
    assert_eq!(rt; exits(&rt, 8191)?, refused(1, 0));
    assert_eq!(rt; exits(&rt, 8192)?, LAWFUL);
    assert_eq!(rt; exits(&rt, 8193)?, refused(1, 0));
    assert_eq!(rt; exits(&rt, 8200)?, refused(1, 0));
    Ok(())
}

// The first slot decides, whatever the numbers of the rules.
#[test]
fn slots_in_order(rt: HostRuntime) {
    assert_eq!(rt;
        answer(&[0x95, 1, 0, 0, 0, 0, 0, 0, 0x00, 0, 0, 0, 0, 0, 0, 0]),
        refused(4, 0)
    );
    assert_eq!(rt;
        answer(&[0x95, 0, 0, 0, 0, 0, 0, 0, 0x00, 0, 0, 0, 0, 0, 0, 0]),
        refused(2, 1)
    );
}

// Ways out are looked at once every slot is legal by itself.
#[test]
fn ways_out_last(rt: HostRuntime) {
    assert_eq!(rt;
        answer(&[0x05, 0, 9, 0, 0, 0, 0, 0, 0x85, 0, 0, 0, 9, 0, 0, 0]),
        refused(6, 1)
    );
    assert_eq!(rt;
        answer(&[0x05, 0, 9, 0, 0, 0, 0, 0, 0x85, 0, 0, 0, 1, 0, 0, 0]),
        refused(7, 0)
    );
    assert_eq!(rt;
        answer(&[0x05, 0, 0, 0, 0, 0, 0, 0, 0x85, 0, 0, 0, 1, 0, 0, 0]),
        refused(7, 1)
    );
}

#[test]
fn compiled_round(rt: HostRuntime) {
    assert_eq!(rt; answer(PIEZOMETER_PAIR), LAWFUL);
}
