// Small rounds and the saves that are placed in them. The placements were worked
// out by a search over the walks that shares nothing with the placer.
use certifier::certify::Certifier;
use isa::image::instruction_at;
use isa::instruction::Role;
use isa::refusal::Told;
use paths::worth::Worth;
use placer::place::place;
use pricing::operand::OperandModel;
use std::process::Abort;
use std::test::Fail;

struct Case {
    image: &'static [u8],
    budget: u64,
    // the slots that become saves
    saves: &'static [u16],
    // what a refusal carries, all 0 where saves are placed
    carried: Told,
}

// Stays: the cases are compared with what a refusal tells, which has no none.
const NONE: Told = Told {
    number: 0,
    slot: 0,
    price: 0,
};

static CASES: [Case; 10] = [
    // the six-slot round, one save needed
    Case {
        image: b"\xb7\x01\0\0\x07\0\0\0\
          \x85\0\0\0\x02\0\0\0\
          \xbf\x02\0\0\0\0\0\0\
          \x05\0\0\0\0\0\0\0\
          \x85\0\0\0\x03\0\0\0\
          \x95\0\0\0\0\0\0\0",
        budget: 243,
        saves: &[3],
        carried: NONE,
    },
    // none needed
    Case {
        image: b"\xb7\x01\0\0\x07\0\0\0\
          \x85\0\0\0\x02\0\0\0\
          \xbf\x02\0\0\0\0\0\0\
          \x05\0\0\0\0\0\0\0\
          \x85\0\0\0\x03\0\0\0\
          \x95\0\0\0\0\0\0\0",
        budget: 258,
        saves: &[],
        carried: NONE,
    },
    // not even with every idle slot a save
    Case {
        image: b"\xb7\x01\0\0\x07\0\0\0\
          \x85\0\0\0\x02\0\0\0\
          \xbf\x02\0\0\0\0\0\0\
          \x05\0\0\0\0\0\0\0\
          \x85\0\0\0\x03\0\0\0\
          \x95\0\0\0\0\0\0\0",
        budget: 242,
        saves: &[],
        carried: Told {
            number: 10,
            slot: 0,
            price: 243,
        },
    },
    // a round with a save of its own
    Case {
        image: b"\xb7\x01\0\0\x07\0\0\0\
          \x05\0\0\0\0\0\0\0\
          \x85\0\0\0\x02\0\0\0\
          \x85\0\0\0\x01\0\0\0\
          \x05\0\0\0\0\0\0\0\
          \x85\0\0\0\x02\0\0\0\
          \x95\0\0\0\0\0\0\0",
        budget: 300,
        saves: &[],
        carried: NONE,
    },
    // an idle slot that a jump leads to
    Case {
        image: b"\x15\x01\x01\0\0\0\0\0\
          \x85\0\0\0\x02\0\0\0\
          \x05\0\0\0\0\0\0\0\
          \x85\0\0\0\x02\0\0\0\
          \x85\0\0\0\x03\0\0\0\
          \x95\0\0\0\0\0\0\0",
        budget: 250,
        saves: &[],
        carried: Told {
            number: 10,
            slot: 3,
            price: 253,
        },
    },
    // an idle slot that cannot be reached
    Case {
        image: b"\x05\0\x01\0\0\0\0\0\
          \x05\0\0\0\0\0\0\0\
          \xb7\x01\0\0\x07\0\0\0\
          \x95\0\0\0\0\0\0\0",
        budget: 160,
        saves: &[],
        carried: NONE,
    },
    // a loop that needs a save
    Case {
        image: b"\xb7\x01\0\0\x07\0\0\0\
          \x05\0\0\0\0\0\0\0\
          \x15\x01\xfe\xff\0\0\0\0\
          \x95\0\0\0\0\0\0\0",
        budget: 400,
        saves: &[1],
        carried: NONE,
    },
    // a loop without an idle slot
    Case {
        image: b"\xb7\x01\0\0\x07\0\0\0\
          \x15\x01\xfe\xff\0\0\0\0\
          \x05\0\0\0\0\0\0\0\
          \x95\0\0\0\0\0\0\0",
        budget: 100000000,
        saves: &[],
        carried: Told {
            number: 9,
            slot: 0,
            price: 0,
        },
    },
    // every idle slot needed
    Case {
        image: b"\x85\0\0\0\x02\0\0\0\
          \x05\0\0\0\0\0\0\0\
          \x85\0\0\0\x02\0\0\0\
          \x05\0\0\0\0\0\0\0\
          \x85\0\0\0\x02\0\0\0\
          \x05\0\0\0\0\0\0\0\
          \x85\0\0\0\x02\0\0\0\
          \x95\0\0\0\0\0\0\0",
        budget: 241,
        saves: &[1, 3, 5],
        carried: NONE,
    },
    // the first of two left out
    Case {
        image: b"\x05\0\0\0\0\0\0\0\
          \x85\0\0\0\x02\0\0\0\
          \x05\0\0\0\0\0\0\0\
          \x85\0\0\0\x02\0\0\0\
          \x95\0\0\0\0\0\0\0",
        budget: 330,
        saves: &[2],
        carried: NONE,
    },
];

fn role_at(image: &[u8], slot: u16) -> Option<Role> {
    instruction_at(image, slot).map(|instruction| instruction.role())
}

// The slots that were idle and are saves now are the ones named.
fn check_saves(rt: &impl Abort, before: &[u8], after: &[u8], saves: &[u16]) {
    for slot in 0..64u16 {
        let placed = role_at(before, slot) == Some(Role::Idle)
            && role_at(after, slot) == Some(Role::Save);
        assert_eq!(rt; placed, saves.contains(&slot));
    }
}

fn check_case(rt: &(impl Abort + AllocGlobal), case: &Case) -> Result<(), Fail> {
    let mut working = [Worth { price: 0, slot: 0 }; 1024];
    let mut image = case.image.to_vec(rt.alloc())?;
    let by = Certifier {
        model: &OperandModel,
        budget: case.budget,
    };
    let carried = match place(image.as_mut_slice(), &by, &mut working) {
        Ok(()) => NONE,
        Err(refusal) => refusal.carried().ok_or("another refusal")?,
    };
    assert_eq!(rt; carried, case.carried);
    check_saves(rt, case.image, image.as_slice(), case.saves);
    Ok(())
}

#[test]
fn rounds(rt: HostRuntime) -> Result<(), Fail> {
    for case in &CASES {
        check_case(&rt, case)?;
    }
    Ok(())
}
