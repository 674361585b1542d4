// A refusal in words, for a person.
use crate::refusal::{Refusal, Unplaceable};
use std::fmt;

impl fmt::Display for Unplaceable {
    fn fmt<W: fmt::Write>(&self, f: &mut fmt::Formatter<W>) -> fmt::Result {
        match *self {
            Unplaceable::Loop { slot } => write!(
                f,
                "a walk comes to slot {slot} twice without a save between"
            ),
            Unplaceable::OverBudget { slot, price } => write!(
                f,
                "a walk from slot {slot} costs {price}, more than the budget"
            ),
        }
    }
}

impl fmt::Display for Refusal {
    fn fmt<W: fmt::Write>(&self, f: &mut fmt::Formatter<W>) -> fmt::Result {
        match *self {
            Refusal::Length => write!(f, "an image is 1 to 1,024 slots of 8 bytes"),
            Refusal::IllegalOpcode { slot } => write!(f, "slot {slot} has no legal opcode"),
            Refusal::NoRegister { slot } => write!(f, "slot {slot} names a register above r10"),
            Refusal::FieldNotZero { slot } => write!(
                f,
                "slot {slot} has a field that must be zero and is not"
            ),
            Refusal::FramePointer { slot } => write!(
                f,
                "slot {slot} writes r10, which is read-only"
            ),
            Refusal::NoHelper { slot } => write!(
                f,
                "slot {slot} calls a helper that the logger does not have"
            ),
            Refusal::WayOut { slot } => write!(
                f,
                "slot {slot} has a way out that leaves the image"
            ),
            Refusal::Budget => write!(f, "a budget is 1 to 100,000,000"),
            Refusal::Loop { slot } => write!(f, "{}", Unplaceable::Loop { slot }),
            Refusal::OverBudget { slot, price } => write!(
                f,
                "{}",
                Unplaceable::OverBudget { slot, price }
            ),
            Refusal::NoPlacement { carried } => write!(
                f,
                "no choice of saves is accepted: with every idle slot a save, {carried}"
            ),
            Refusal::WorkingList => write!(f, "a working list has at least 1,024 entries"),
            Refusal::SupplyNumbers => write!(f, "the supply's numbers are outside their limits"),
            Refusal::Ended => write!(f, "the rig has ended"),
            Refusal::Attempts => write!(f, "the rig has made all its attempts"),
            Refusal::Cuts => write!(f, "the rig has made all its cuts"),
            Refusal::NoRecord => write!(f, "the kept log has no such record"),
        }
    }
}
