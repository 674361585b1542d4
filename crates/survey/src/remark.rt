// What the certifier's answer says of one slot.
ghost use Rattle.std.specs.Prelude.{◌≡◌};
ghost use Rattle.survey.specs.Remark.{remark_of};

use isa::refusal::Refusal;

#[derive(Clone, Copy, PartialEq, Eq, Debug)]
pub enum Remark {
    // a walk holds the slot twice
    Twice,
    // a walk from the slot is over budget
    Dear,
    // the slot breaks a rule
    Unlawful,
}

// What an answer says of a slot, where it says anything.
pub fn remark_of(answer: Result<(), Refusal>, slot: u16) -> Option<Remark>
    ensures { result ≡ remark_of answer slot }
{
    match answer {
        Err(Refusal::Loop { slot: at }) if at == slot => Some(Remark::Twice),
        Err(Refusal::OverBudget { slot: at, .. }) if at == slot => Some(Remark::Dear),
        Err(
            Refusal::IllegalOpcode { slot: at }
            | Refusal::NoRegister { slot: at }
            | Refusal::FieldNotZero { slot: at }
            | Refusal::FramePointer { slot: at }
            | Refusal::NoHelper { slot: at }
            | Refusal::WayOut { slot: at },
        ) if at == slot => Some(Remark::Unlawful),
        _ => None,
    }
}
