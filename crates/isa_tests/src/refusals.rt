// Every refusal in numbers and in words.
use isa::refusal::{Refusal, Told, Unplaceable};
use std::test::Fail;

struct Case {
    refusal: Refusal,
    number: u8,
    slot: u16,
    price: u64,
    text: &'static str,
}

static CASES: [Case; 18] = [
    Case {
        refusal: Refusal::Length,
        number: 1,
        slot: 0,
        price: 0,
        text: "an image is 1 to 1,024 slots of 8 bytes",
    },
    Case {
        refusal: Refusal::IllegalOpcode { slot: 5 },
        number: 2,
        slot: 5,
        price: 0,
        text: "slot 5 has no legal opcode",
    },
    Case {
        refusal: Refusal::NoRegister { slot: 6 },
        number: 3,
        slot: 6,
        price: 0,
        text: "slot 6 names a register above r10",
    },
    Case {
        refusal: Refusal::FieldNotZero { slot: 7 },
        number: 4,
        slot: 7,
        price: 0,
        text: "slot 7 has a field that must be zero and is not",
    },
    Case {
        refusal: Refusal::FramePointer { slot: 8 },
        number: 5,
        slot: 8,
        price: 0,
        text: "slot 8 writes r10, which is read-only",
    },
    Case {
        refusal: Refusal::NoHelper { slot: 9 },
        number: 6,
        slot: 9,
        price: 0,
        text: "slot 9 calls a helper that the logger does not have",
    },
    Case {
        refusal: Refusal::WayOut { slot: 1023 },
        number: 7,
        slot: 1023,
        price: 0,
        text: "slot 1023 has a way out that leaves the image",
    },
    Case {
        refusal: Refusal::Budget,
        number: 8,
        slot: 0,
        price: 0,
        text: "a budget is 1 to 100,000,000",
    },
    Case {
        refusal: Refusal::Loop { slot: 3 },
        number: 9,
        slot: 3,
        price: 0,
        text: "a walk comes to slot 3 twice without a save between",
    },
    Case {
        refusal: Refusal::OverBudget {
            slot: 1,
            price: 258,
        },
        number: 10,
        slot: 1,
        price: 258,
        text: "a walk from slot 1 costs 258, more than the budget",
    },
    Case {
        refusal: Refusal::NoPlacement {
            carried: Unplaceable::Loop { slot: 2 },
        },
        number: 11,
        slot: 0,
        price: 0,
        text: "no choice of saves is accepted: with every idle slot a save, a walk comes to slot 2 twice without a save between",
    },
    Case {
        refusal: Refusal::NoPlacement {
            carried: Unplaceable::OverBudget {
                slot: 4,
                price: 243,
            },
        },
        number: 11,
        slot: 0,
        price: 0,
        text: "no choice of saves is accepted: with every idle slot a save, a walk from slot 4 costs 243, more than the budget",
    },
    Case {
        refusal: Refusal::WorkingList,
        number: 12,
        slot: 0,
        price: 0,
        text: "a working list has at least 1,024 entries",
    },
    Case {
        refusal: Refusal::SupplyNumbers,
        number: 13,
        slot: 0,
        price: 0,
        text: "the supply's numbers are outside their limits",
    },
    Case {
        refusal: Refusal::Ended,
        number: 21,
        slot: 0,
        price: 0,
        text: "the rig has ended",
    },
    Case {
        refusal: Refusal::Attempts,
        number: 22,
        slot: 0,
        price: 0,
        text: "the rig has made all its attempts",
    },
    Case {
        refusal: Refusal::Cuts,
        number: 23,
        slot: 0,
        price: 0,
        text: "the rig has made all its cuts",
    },
    Case {
        refusal: Refusal::NoRecord,
        number: 24,
        slot: 0,
        price: 0,
        text: "the kept log has no such record",
    },
];

#[test]
fn numbers(rt: HostRuntime) {
    for case in &CASES {
        assert_eq!(rt; case.refusal.number(), case.number);
        assert_eq!(rt; case.refusal.slot(), case.slot);
        assert_eq!(rt; case.refusal.price(), case.price);
        let told = Told {
            number: case.number,
            slot: case.slot,
            price: case.price,
        };
        assert_eq!(rt; Told::from(case.refusal), told);
    }
}

#[test]
fn carried(rt: HostRuntime) {
    let looped = Refusal::NoPlacement {
        carried: Unplaceable::Loop { slot: 2 },
    };
    assert_eq!(rt;
        looped.carried(),
        Some(Told {
            number: 9,
            slot: 2,
            price: 0,
        })
    );
    let over = Refusal::NoPlacement {
        carried: Unplaceable::OverBudget {
            slot: 4,
            price: 243,
        },
    };
    assert_eq!(rt;
        over.carried(),
        Some(Told {
            number: 10,
            slot: 4,
            price: 243,
        })
    );
    assert_eq!(rt;
        Refusal::OverBudget {
            slot: 4,
            price: 243,
        }
        .carried(),
        None
    );
}

#[test]
fn words(rt: HostRuntime) -> Result<(), Fail> {
    for case in &CASES {
        let text = format!(in rt.alloc(); "{}", case.refusal)?;
        assert_eq!(rt; text.as_str(), case.text);
    }
    Ok(())
}
