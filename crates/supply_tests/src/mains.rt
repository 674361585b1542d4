// The mains.
use crate::script::{Call, Step, follow};
use std::test::Fail;
use supply::answer::Answer;
use supply::mains::Mains;
use supply::supply::Supply;

const ASSURED: u64 = 4_294_967_295;

static STEPS: [Step; 4] = [
    Step {
        call: Call::Draw(u32::MAX, Answer::Yes),
        assured: ASSURED,
        asked: 4_294_967_295,
        charges: 0,
    },
    Step {
        call: Call::Draw(u32::MAX, Answer::Yes),
        assured: ASSURED,
        asked: 8_589_934_590,
        charges: 0,
    },
    Step {
        call: Call::Recharge,
        assured: ASSURED,
        asked: 8_589_934_590,
        charges: 1,
    },
    Step {
        call: Call::Draw(0, Answer::Yes),
        assured: ASSURED,
        asked: 8_589_934_590,
        charges: 1,
    },
];

#[test]
fn always_yes(rt: HostRuntime) -> Result<(), Fail> {
    let mut supply = Mains::new();
    assert_eq!(rt; supply.assured(), ASSURED);
    follow(&rt, &mut supply, &STEPS)?;
    assert_eq!(rt; supply.budget(), 100_000_000);
    Ok(())
}
