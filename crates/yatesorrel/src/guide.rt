// The guided task: one real round from its bytes to a verdict.
use crate::certify::certify_round;
use crate::list::print_lawful;
use crate::margin::tell_headroom;
use crate::place::{place_saves, print_placement};
use crate::refusal::print_refusal;
use crate::rehearsal::{rehearse_round, script};
use crate::slots::{print_roles, print_slots};
use crate::source::source_of;
use certifier::certify::Certifier;
use claims::call::Call;
use claims::round::Round;
use inputs::supply::SupplyWord;
use isa::lawful::lawful;
use pricing::prices::Prices;
use rounds::piezometer_pair::PIEZOMETER_PAIR;
use std::io;

// The byte of the image with a jump's distance, and what it becomes.
const DAMAGED_BYTE: usize = 58;

const DAMAGE: u8 = 0x81;

fn show_round(rt: &HostRuntime) -> io::Result<()> {
    println!(rt;
        "A reading round of a piezometer pair, compiled from examples/piezometer_pair.c:"
    )?;
    println!(rt)?;
    print_slots(rt, PIEZOMETER_PAIR)?;
    println!(rt)?;
    println!(rt; "Is it lawful? Every opcode, register, field and helper, and every way out:")?;
    print_lawful(rt, PIEZOMETER_PAIR, lawful(PIEZOMETER_PAIR))?;
    println!(rt)?;
    println!(rt; "Where it keeps its state, and where the placer may make it do so:")?;
    print_roles(rt, PIEZOMETER_PAIR)
}

fn show_damage(rt: &HostRuntime) -> io::Result<()> {
    let mut damaged = *PIEZOMETER_PAIR;
    damaged[DAMAGED_BYTE] = DAMAGE;
    println!(rt; "One damaged byte, {DAMAGED_BYTE} of the image, sends a jump astray:")?;
    print_lawful(rt, &damaged, lawful(&damaged))
}

// Readings of a day on which the head across the core is low.
const TAPE: [u32; 6] = [812, 815, 813, 590, 588, 604];

fn taped<'a>(prices: &'a Prices, image: &'a [u8]) -> Round<'a, Prices> {
    Round {
        model: prices,
        image,
        tape: &TAPE,
    }
}

fn run_on(
    rt: &HostRuntime,
    supply: SupplyWord,
    round: &Round<Prices>,
    calls: &[Call],
) -> io::Result<()> {
    match source_of(supply) {
        Ok(source) => rehearse_round(rt, source, round, calls),
        Err(refusal) => print_refusal(rt, round.image, refusal),
    }
}

// Steps enough for twice the round.
const STEPS: u64 = 200;

fn show_run(rt: &HostRuntime, prices: &Prices) -> io::Result<()> {
    let calls = script(rt.alloc(), STEPS, &[])?;
    println!(rt; "Its run on the mains, over the readings 812 815 813 590 588 604:")?;
    run_on(
        rt,
        SupplyWord::Mains,
        &taped(prices, PIEZOMETER_PAIR),
        calls.as_slice(),
    )?;
    println!(rt; "The middle readings are 813 and 590. The head, 223, is below 250: an alarm.")?;
    Ok(())
}

// A budget that the round misses, and one that it meets.
const LITTLE: u64 = 400;

const ENOUGH: u64 = 500;

fn at(prices: &Prices, budget: u64) -> Certifier<Prices> {
    Certifier {
        model: prices,
        budget,
    }
}

fn show_certifying(rt: &HostRuntime, prices: &Prices) -> io::Result<()> {
    println!(rt; "Does every stretch between saves fit one charge of {LITTLE} units?")?;
    let _ = certify_round(rt, PIEZOMETER_PAIR, &at(prices, LITTLE))?;
    println!(rt)?;
    println!(rt; "And of {ENOUGH}?")?;
    let _ = certify_round(rt, PIEZOMETER_PAIR, &at(prices, ENOUGH))?;
    Ok(())
}

fn show_placing(rt: &HostRuntime, prices: &Prices, placed: &mut [u8]) -> io::Result<()> {
    println!(rt;
        "With {LITTLE} units, the placer turns idle slots into saves, none of which can be left out:"
    )?;
    let verdict = place_saves(placed, &at(prices, LITTLE));
    print_placement(rt, PIEZOMETER_PAIR, placed, verdict)?;
    println!(rt)?;
    println!(rt; "The round with these saves, at {LITTLE}:")?;
    let _ = certify_round(rt, placed, &at(prices, LITTLE))?;
    Ok(())
}

// A capacitor whose charge is 400 units when new, and 352 once it has aged.
const FRESH: u32 = 100;

const AGED: u32 = 88;

const fn capacitor(microfarads: u32) -> SupplyWord {
    SupplyWord::Capacitor {
        microfarads,
        top: 3000,
        bottom: 2000,
        unit: 625_000,
    }
}

fn show_headroom(rt: &HostRuntime, prices: &Prices, image: &[u8]) -> io::Result<()> {
    println!(rt;
        "How much charge does it need, and how far may a capacitor of {FRESH} microfarads age?"
    )?;
    let _ = tell_headroom(rt, image, prices, Some(capacitor(FRESH)))?;
    Ok(())
}

fn show_capacitor(
    rt: &HostRuntime,
    round: &Round<Prices>,
    microfarads: u32,
    cuts: &[u64],
) -> io::Result<()> {
    let calls = script(rt.alloc(), STEPS, cuts)?;
    run_on(rt, capacitor(microfarads), round, calls.as_slice())
}

fn show_rig(rt: &HostRuntime, round: &Round<Prices>) -> io::Result<()> {
    println!(rt; "On that capacitor, whose charge is 400 units, cut after 30 steps:")?;
    show_capacitor(rt, round, FRESH, &[30])?;
    println!(rt)?;
    println!(rt; "Aged to {AGED} microfarads, its charge is 352 units, and it ends alike:")?;
    show_capacitor(rt, round, AGED, &[])
}

pub fn guide(rt: &HostRuntime) -> io::Result<()> {
    let prices = Prices::Operand;
    let mut placed = *PIEZOMETER_PAIR;
    show_round(rt)?;
    println!(rt)?;
    show_run(rt, &prices)?;
    println!(rt)?;
    show_damage(rt)?;
    println!(rt)?;
    show_certifying(rt, &prices)?;
    println!(rt)?;
    show_placing(rt, &prices, &mut placed)?;
    println!(rt)?;
    show_headroom(rt, &prices, &placed)?;
    println!(rt)?;
    show_rig(rt, &taped(&prices, &placed))
}
