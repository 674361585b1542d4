// Calls of a supply, each with what it then tells.
use std::process::Abort;
use std::test::Fail;
use supply::answer::Answer;
use supply::supply::Supply;

pub(crate) enum Call {
    Recharge,
    Draw(u32, Answer),
}

pub(crate) struct Step {
    pub(crate) call: Call,
    pub(crate) assured: u64,
    pub(crate) asked: u64,
    pub(crate) charges: u64,
}

fn make<S: Supply>(rt: &impl Abort, supply: &mut S, call: &Call) -> Result<(), Fail> {
    match call {
        Call::Recharge => {
            supply.recharge();
            Ok(())
        }
        Call::Draw(units, answer) => {
            assert_eq!(rt; supply.draw(*units), *answer);
            Ok(())
        },
    }
}

pub(crate) fn follow<S: Supply>(
    rt: &impl Abort,
    supply: &mut S,
    steps: &[Step],
) -> Result<(), Fail> {
    for step in steps {
        make(rt, supply, &step.call)?;
        assert_eq!(rt; supply.assured(), step.assured);
        assert_eq!(rt; supply.asked(), step.asked);
        assert_eq!(rt; supply.charges(), step.charges);
    }
    Ok(())
}
