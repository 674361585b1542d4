// Small rounds and what the certifier answers of them: branches, loops, starts.
// The answers were worked out by a search over the walks that shares nothing
// with the certifier.
use certifier::certify::Certifier;
use isa::refusal::Told;
use pricing::operand::OperandModel;

struct Case {
    image: &'static [u8],
    budget: u64,
    // all 0 where the image is accepted
    // Stays: an option would make each case longer.
    number: u8,
    slot: u16,
    price: u64,
}

static CASES: [Case; 25] = [
    // the six-slot round at its price
    Case {
        image: b"\xb7\x01\0\0\x07\0\0\0\
          \x85\0\0\0\x02\0\0\0\
          \xbf\x02\0\0\0\0\0\0\
          \x05\0\0\0\0\0\0\0\
          \x85\0\0\0\x03\0\0\0\
          \x95\0\0\0\0\0\0\0",
        budget: 258,
        number: 0,
        slot: 0,
        price: 0,
    },
    // and one below
    Case {
        image: b"\xb7\x01\0\0\x07\0\0\0\
          \x85\0\0\0\x02\0\0\0\
          \xbf\x02\0\0\0\0\0\0\
          \x05\0\0\0\0\0\0\0\
          \x85\0\0\0\x03\0\0\0\
          \x95\0\0\0\0\0\0\0",
        budget: 257,
        number: 10,
        slot: 0,
        price: 258,
    },
    // a loop of two slots
    Case {
        image: b"\x05\0\0\0\0\0\0\0\
          \x05\0\xfe\xff\0\0\0\0",
        budget: 100000000,
        number: 9,
        slot: 0,
        price: 0,
    },
    // with its first slot a save
    Case {
        image: b"\x85\0\0\0\x01\0\0\0\
          \x05\0\xfe\xff\0\0\0\0",
        budget: 149,
        number: 0,
        slot: 0,
        price: 0,
    },
    // and one unit below
    Case {
        image: b"\x85\0\0\0\x01\0\0\0\
          \x05\0\xfe\xff\0\0\0\0",
        budget: 148,
        number: 10,
        slot: 1,
        price: 149,
    },
    // a diamond at the price of its dearer side
    Case {
        image: b"\x15\x01\x02\0\0\0\0\0\
          \x85\0\0\0\x02\0\0\0\
          \x05\0\x01\0\0\0\0\0\
          \x85\0\0\0\x03\0\0\0\
          \x95\0\0\0\0\0\0\0",
        budget: 242,
        number: 0,
        slot: 0,
        price: 0,
    },
    // and one below
    Case {
        image: b"\x15\x01\x02\0\0\0\0\0\
          \x85\0\0\0\x02\0\0\0\
          \x05\0\x01\0\0\0\0\0\
          \x85\0\0\0\x03\0\0\0\
          \x95\0\0\0\0\0\0\0",
        budget: 241,
        number: 10,
        slot: 0,
        price: 242,
    },
    // nested branches at their price
    Case {
        image: b"\x15\x01\x05\0\0\0\0\0\
          \x15\x01\x01\0\0\0\0\0\
          \x85\0\0\0\x02\0\0\0\
          \x15\x01\x01\0\0\0\0\0\
          \x85\0\0\0\x03\0\0\0\
          \x05\0\x02\0\0\0\0\0\
          \x85\0\0\0\x02\0\0\0\
          \x85\0\0\0\x02\0\0\0\
          \x95\0\0\0\0\0\0\0",
        budget: 332,
        number: 0,
        slot: 0,
        price: 0,
    },
    // and one below
    Case {
        image: b"\x15\x01\x05\0\0\0\0\0\
          \x15\x01\x01\0\0\0\0\0\
          \x85\0\0\0\x02\0\0\0\
          \x15\x01\x01\0\0\0\0\0\
          \x85\0\0\0\x03\0\0\0\
          \x05\0\x02\0\0\0\0\0\
          \x85\0\0\0\x02\0\0\0\
          \x85\0\0\0\x02\0\0\0\
          \x95\0\0\0\0\0\0\0",
        budget: 331,
        number: 10,
        slot: 0,
        price: 332,
    },
    // crossing branches at their price
    Case {
        image: b"\x15\x01\x02\0\0\0\0\0\
          \x85\0\0\0\x02\0\0\0\
          \x15\x01\x02\0\0\0\0\0\
          \x85\0\0\0\x03\0\0\0\
          \x15\x01\0\0\0\0\0\0\
          \x85\0\0\0\x02\0\0\0\
          \x95\0\0\0\0\0\0\0",
        budget: 347,
        number: 0,
        slot: 0,
        price: 0,
    },
    // and one below
    Case {
        image: b"\x15\x01\x02\0\0\0\0\0\
          \x85\0\0\0\x02\0\0\0\
          \x15\x01\x02\0\0\0\0\0\
          \x85\0\0\0\x03\0\0\0\
          \x15\x01\0\0\0\0\0\0\
          \x85\0\0\0\x02\0\0\0\
          \x95\0\0\0\0\0\0\0",
        budget: 346,
        number: 10,
        slot: 0,
        price: 347,
    },
    // a jump into the middle of a straight stretch
    Case {
        image: b"\x15\x01\x02\0\0\0\0\0\
          \x85\0\0\0\x02\0\0\0\
          \x85\0\0\0\x02\0\0\0\
          \x85\0\0\0\x03\0\0\0\
          \x85\0\0\0\x03\0\0\0\
          \x95\0\0\0\0\0\0\0",
        budget: 370,
        number: 0,
        slot: 0,
        price: 0,
    },
    // a loop broken by a save
    Case {
        image: b"\x07\x01\0\0\x01\0\0\0\
          \x85\0\0\0\x01\0\0\0\
          \x15\x01\xfd\xff\0\0\0\0\
          \x95\0\0\0\0\0\0\0",
        budget: 300,
        number: 0,
        slot: 0,
        price: 0,
    },
    // the same with the save passed by a branch
    Case {
        image: b"\x15\x01\x01\0\0\0\0\0\
          \x85\0\0\0\x01\0\0\0\
          \x07\x01\0\0\x01\0\0\0\
          \x15\x01\xfc\xff\0\0\0\0\
          \x95\0\0\0\0\0\0\0",
        budget: 100000000,
        number: 9,
        slot: 0,
        price: 0,
    },
    // a loop that a save only leads to
    Case {
        image: b"\x85\0\0\0\x01\0\0\0\
          \x07\x01\0\0\x01\0\0\0\
          \x15\x01\xfe\xff\0\0\0\0\
          \x95\0\0\0\0\0\0\0",
        budget: 100000000,
        number: 9,
        slot: 1,
        price: 0,
    },
    // a loop that cannot be reached
    Case {
        image: b"\x95\0\0\0\0\0\0\0\
          \x05\0\0\0\0\0\0\0\
          \x05\0\xfe\xff\0\0\0\0",
        budget: 149,
        number: 0,
        slot: 0,
        price: 0,
    },
    // a slot that jumps to itself
    Case {
        image: b"\xb7\x01\0\0\x07\0\0\0\
          \x05\0\xff\xff\0\0\0\0",
        budget: 100000000,
        number: 9,
        slot: 1,
        price: 0,
    },
    // a branch to itself
    Case {
        image: b"\x15\x01\xff\xff\0\0\0\0\
          \x95\0\0\0\0\0\0\0",
        budget: 100000000,
        number: 9,
        slot: 0,
        price: 0,
    },
    // a loop behind a save
    Case {
        image: b"\x85\0\0\0\x01\0\0\0\
          \xb7\x01\0\0\x07\0\0\0\
          \x05\0\xfe\xff\0\0\0\0",
        budget: 100000000,
        number: 9,
        slot: 1,
        price: 0,
    },
    // two loops, the lower one told
    Case {
        image: b"\x15\x01\x02\0\0\0\0\0\
          \x15\x01\xff\xff\0\0\0\0\
          \x05\0\xff\xff\0\0\0\0\
          \x05\0\xff\xff\0\0\0\0",
        budget: 100000000,
        number: 9,
        slot: 1,
        price: 0,
    },
    // a start over budget behind a cheap one
    Case {
        image: b"\xb7\x01\0\0\x07\0\0\0\
          \x85\0\0\0\x01\0\0\0\
          \x85\0\0\0\x02\0\0\0\
          \x85\0\0\0\x02\0\0\0\
          \x95\0\0\0\0\0\0\0",
        budget: 330,
        number: 10,
        slot: 2,
        price: 331,
    },
    // and its first stretch alone over budget
    Case {
        image: b"\xb7\x01\0\0\x07\0\0\0\
          \x85\0\0\0\x01\0\0\0\
          \x85\0\0\0\x02\0\0\0\
          \x85\0\0\0\x02\0\0\0\
          \x95\0\0\0\0\0\0\0",
        budget: 149,
        number: 10,
        slot: 0,
        price: 150,
    },
    // a save that cannot be reached starts nothing
    Case {
        image: b"\x05\0\x01\0\0\0\0\0\
          \x85\0\0\0\x01\0\0\0\
          \x95\0\0\0\0\0\0\0",
        budget: 150,
        number: 0,
        slot: 0,
        price: 0,
    },
    // a stretch of two savings
    Case {
        image: b"\x85\0\0\0\x01\0\0\0\
          \x85\0\0\0\x01\0\0\0\
          \x85\0\0\0\x01\0\0\0\
          \x95\0\0\0\0\0\0\0",
        budget: 149,
        number: 0,
        slot: 0,
        price: 0,
    },
    // and one unit below, from slot 0
    Case {
        image: b"\x85\0\0\0\x01\0\0\0\
          \x85\0\0\0\x01\0\0\0\
          \x85\0\0\0\x01\0\0\0\
          \x95\0\0\0\0\0\0\0",
        budget: 147,
        number: 10,
        slot: 0,
        price: 148,
    },
];

const ACCEPTED: Told = Told {
    number: 0,
    slot: 0,
    price: 0,
};

fn told(image: &[u8], budget: u64) -> Told {
    let model = &OperandModel;
    Certifier { model, budget }
        .verdict(image)
        .map_or_else(Told::from, |()| ACCEPTED)
}

#[test]
fn rounds(rt: HostRuntime) {
    for case in &CASES {
        let expected = Told {
            number: case.number,
            slot: case.slot,
            price: case.price,
        };
        assert_eq!(rt; told(case.image, case.budget), expected);
    }
}
