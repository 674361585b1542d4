// Runs the vectors on standard input, a name, an image in hexadecimal and a tape
// to a line, and prints the state that each leaves: how it ended, its slot,
// then in hexadecimal the steps, the tape's place, r0 to r10, each record after
// a `;` and each byte of memory that is not 0 after a `,`.
//
// tools/vectors.py writes both standard input and what is to be printed; it
// works the states out from RFC 9669, without this code.
#![tactic(auto)]

ghost use Rattle.std.specs.Prelude.{◌<◌};

use machine::ending::Ending;
use machine::run::{Run, run_for};
use machine::state::State;
use std::alloc::{AllocError, Global};
use std::{fmt, io};

const MOST_STEPS: u64 = 2000;

// Stays: `char::to_digit` also takes A to F, which are 0 here; with a test for those beside it, it is no plainer.
fn digit(c: u8) -> u8
    ensures { result < 16 }
{
    match c {
        b'0'..=b'9' => c - b'0',
        b'a'..=b'f' => c - b'a' + 10,
        _ => 0,
    }
}

// The bytes that pairs of digits say; `-` is none.
fn image_of(heap: Global, text: &str) -> Result<Vec<u8>, AllocError> {
    let (pairs, _) = text.as_bytes().as_chunks::<2>();
    pairs
        .iter()
        .map(|[high, low]| 16 * digit(*high) + digit(*low))
        .collect(heap)
}

// The readings between commas; `-` is none.
fn tape_of(heap: Global, text: &str) -> Result<Vec<u32>, AllocError> {
    text.split(',')
        .filter_map(|reading| reading.parse::<u32>().ok())
        .collect(heap)
}

// How a run ended, if it did.
// Stays: the program's text of it has a blank before a trap's number, and a word of these lines has none.
#[derive(Clone, Copy)]
struct Ended(Option<Ending>);

impl fmt::Display for Ended {
    fn fmt<W: fmt::Write>(&self, f: &mut fmt::Formatter<W>) -> fmt::Result {
        match self.0 {
            None => write!(f, "none"),
            Some(Ending::Exit) => write!(f, "exit"),
            Some(Ending::Trap(trap)) => write!(f, "trap{}", trap.number()),
        }
    }
}

// A number in hexadecimal, after a mark.
fn put(rt: &HostRuntime, mark: char, number: u64) -> io::Result<()> {
    print!(rt; "{mark}{number:x}")
}

fn put_registers(rt: &HostRuntime, state: &State) -> io::Result<()> {
    for value in (0..11).filter_map(|number| state.register(number)) {
        put(rt, ' ', value)?;
    }
    Ok(())
}

fn put_log(rt: &HostRuntime, state: &State) -> io::Result<()> {
    for record in (0..state.logged()).filter_map(|index| state.record(index)) {
        put(rt, ';', record.sensor as u64)?;
        put(rt, ':', record.value)?;
    }
    Ok(())
}

// The bytes of memory that are not 0, with their addresses.
fn put_memory(rt: &HostRuntime, state: &State) -> io::Result<()> {
    for address in 0..512 {
        if let Some(byte) = state.byte(address).filter(|byte| *byte != 0) {
            put(rt, ',', address as u64)?;
            put(rt, ':', byte as u64)?;
        }
    }
    Ok(())
}

fn put_run(rt: &HostRuntime, run: &Run) -> io::Result<()> {
    print!(rt; " {} {}", Ended(run.state.ending()), run.state.slot())?;
    put(rt, ' ', run.steps)?;
    put(rt, ' ', run.state.place() as u64)?;
    put_registers(rt, &run.state)?;
    put_log(rt, &run.state)?;
    put_memory(rt, &run.state)?;
    rt.println("")
}

fn run_vector(rt: &HostRuntime, image: &str, tape: &str) -> io::Result<()> {
    let image = image_of(rt.alloc(), image)?;
    let tape = tape_of(rt.alloc(), tape)?;
    put_run(rt, &run_for(&image, &tape, MOST_STEPS))
}

fn run_line(rt: &HostRuntime, line: &str) -> io::Result<()> {
    let mut words = line.split_whitespace();
    rt.print(words.next().unwrap_or(""))?;
    let image = words.next().unwrap_or("");
    run_vector(rt, image, words.next().unwrap_or(""))
}

fn main(rt: HostRuntime) -> io::Result<()> {
    let mut count = 0u64;
    for (line, number) in rt.lines(rt.alloc()).zip(1..) {
        run_line(&rt, line?.as_str())?;
        count = number;
    }
    println!(rt; "{count} vectors")
}
