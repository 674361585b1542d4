// A refusal for a person: its numbers, the reason, the slot that it speaks of,
// and what helps.
ghost use Rattle.std.specs.Prelude.{◌≡◌};
ghost use Rattle.yatesorrel.specs.Refusal.{shown_slot};

use crate::slots::Line;
use isa::image::well_sized;
use isa::refusal::{Refusal, Unplaceable};
use std::{fmt, io};

// Its numbers on a line of their own, with those of a refusal that it carries,
// then the reason.
#[derive(Clone, Copy)]
pub struct Report(pub Refusal);

impl fmt::Display for Report {
    fn fmt<W: fmt::Write>(&self, f: &mut fmt::Formatter<W>) -> fmt::Result {
        let refusal = self.0;
        write!(
            f,
            "refused {} slot {} price {}",
            refusal.number(),
            refusal.slot(),
            refusal.price()
        )?;
        if let Some(carried) = refusal.carried() {
            write!(
                f,
                " carrying {} slot {} price {}",
                carried.number, carried.slot, carried.price
            )?;
        }
        write!(f, "\n{refusal}")
    }
}

// The slot that a refusal speaks of.
fn slot_of(refusal: Refusal) -> Option<u16>
    ensures { result ≡ shown_slot refusal }
{
    match refusal {
        Refusal::IllegalOpcode { slot }
        | Refusal::NoRegister { slot }
        | Refusal::FieldNotZero { slot }
        | Refusal::FramePointer { slot }
        | Refusal::NoHelper { slot }
        | Refusal::WayOut { slot }
        | Refusal::Loop { slot }
        | Refusal::OverBudget { slot, .. } => Some(slot),
        Refusal::NoPlacement { carried } => match carried {
            Unplaceable::Loop { slot } | Unplaceable::OverBudget { slot, .. } => Some(slot),
        },
        _ => None,
    }
}

fn advice_on_image(refusal: Refusal) -> &'static str {
    match refusal {
        Refusal::Length =>
            "give the slots of the .text section alone: llvm-objcopy -O binary --only-section=.text",
        Refusal::IllegalOpcode { .. } =>
            "compile with -O2 -mcpu=v3, and keep constants within 32 bits",
        Refusal::NoRegister { .. } | Refusal::FieldNotZero { .. } => {
            "inline every function; else the file is damaged: compile it again"
        }
        Refusal::FramePointer { .. } => "r10 is read-only: use another register",
        Refusal::NoHelper { .. } =>
            "call save, next_reading and record alone, and inline what is yours",
        _ => "a jump leads out of the round: let every way end in a return",
    }
}

fn advice_on_placing(carried: Unplaceable) -> &'static str {
    match carried {
        Unplaceable::Loop { .. } => "put an idle slot inside the loop, on every way round",
        Unplaceable::OverBudget { .. } =>
            "put more idle slots on the way from there, or take a larger budget",
    }
}

// What to do next.
pub fn advice_on(refusal: Refusal) -> &'static str {
    match refusal {
        Refusal::Budget => "give a budget of 1 to 100000000",
        Refusal::Loop { .. } => {
            "put a save inside the loop, or an idle slot and let yatesorrel place do it"
        }
        Refusal::OverBudget { .. } => {
            "place saves on the way with yatesorrel place, or take a larger budget: yatesorrel headroom says how large"
        }
        Refusal::NoPlacement { carried } => advice_on_placing(carried),
        Refusal::SupplyNumbers => {
            "a capacitor has C of 1 to 100000 uF, bottom < top <= 10000 mV, and a unit of 1 to 1000000 pJ"
        }
        _ => advice_on_image(refusal),
    }
}

pub fn print_advice(rt: &HostRuntime, refusal: Refusal) -> io::Result<()> {
    println!(rt; "what helps: {}", advice_on(refusal))
}

pub fn print_refusal(rt: &HostRuntime, image: &[u8], refusal: Refusal) -> io::Result<()> {
    println!(rt; "{}", Report(refusal))?;
    if let Some(slot) = slot_of(refusal).filter(|_| well_sized(image)) {
        println!(rt; "{}", Line { image, slot })?;
    }
    print_advice(rt, refusal)
}
