// The command `place`: turns idle slots into saves.
use crate::refusal::print_refusal;
use crate::verdict::Verdict;
use certifier::certify::Certifier;
use isa::instruction::Role;
use paths::worth::Worth;
use placer::place::place;
use pricing::prices::Prices;
use std::io;
use walks::image_graph::role_at;

// Whether a slot was idle before and is a save after.
fn placed_at(before: &[u8], after: &[u8], slot: u16) -> bool {
    role_at(before, slot) == Role::Idle && role_at(after, slot) == Role::Save
}

// The saves that were placed: how many, and where.
fn print_placed(rt: &HostRuntime, before: &[u8], after: &[u8]) -> io::Result<()> {
    let placed: Vec<u16> = (0..1024u16)
        .filter(|slot| placed_at(before, after, *slot))
        .collect(rt.alloc())?;
    println!(rt; "placed {} saves", placed.len())?;
    for slot in &placed {
        println!(rt; "slot {slot}")?;
    }
    Ok(())
}

// Places saves in the image.
pub fn place_saves(image: &mut [u8], by: &Certifier<Prices>) -> Verdict {
    place(image, by, &mut [Worth::default(); 1024])
}

// Says where saves were placed, or why not.
pub fn print_placement(
    rt: &HostRuntime,
    before: &[u8],
    after: &[u8],
    verdict: Verdict,
) -> io::Result<()> {
    match verdict {
        Ok(()) => print_placed(rt, before, after),
        Err(refusal) => print_refusal(rt, before, refusal),
    }
}
