// An image as lines of text, a slot a line.
ghost use Rattle.std.specs.Prelude.{◌≡◌, ◌/◌, min, length};

use isa::image::instruction_at;
use isa::instruction::Role;
use listing::text::Text;
use pricing::prices::Prices;
use std::{fmt, io};
use walks::image_graph::{price_of, role_at};

// The slots that are listed: all that an image may have.
pub fn listed(image: &[u8]) -> u16
    ensures { result ≡ min (length image.now / 8) 1024 }
{
    (image.len() / 8).min(1024) as u16
}

// A slot's line: its number, its bytes, its instruction, and whether it is a save or idle.
#[derive(Clone, Copy)]
pub struct Line<'a> {
    pub image: &'a [u8],
    pub slot: u16,
}

impl Line<'_> {
    fn write_bytes<W: fmt::Write>(&self, f: &mut fmt::Formatter<W>) -> fmt::Result {
        write!(f, "{:>5}:", self.slot)?;
        for byte in self.image.iter().skip(8 * self.slot as usize).take(8) {
            write!(f, " {byte:02x}")?;
        }
        Ok(())
    }

    fn write_instruction<W: fmt::Write>(&self, f: &mut fmt::Formatter<W>) -> fmt::Result {
        let Some(instruction) = instruction_at(self.image, self.slot) else {
            return write!(f, "  <unknown>");
        };
        write!(f, "  {}", Text(instruction))?;
        match instruction.role() {
            Role::Save => write!(f, "  ; save"),
            Role::Idle => write!(f, "  ; idle"),
            Role::Exit | Role::Other => Ok(()),
        }
    }

    // The price of its instruction, where it has a legal one.
    pub fn price(&self, prices: &Prices) -> Option<u64> {
        let instruction = instruction_at(self.image, self.slot)?;
        Some(price_of(prices, instruction))
    }
}

impl fmt::Display for Line<'_> {
    fn fmt<W: fmt::Write>(&self, f: &mut fmt::Formatter<W>) -> fmt::Result {
        self.write_bytes(f)?;
        self.write_instruction(f)
    }
}

// A number in a column, or a dash where there is none.
#[derive(Clone, Copy)]
struct Cell(Option<u64>);

impl fmt::Display for Cell {
    fn fmt<W: fmt::Write>(&self, f: &mut fmt::Formatter<W>) -> fmt::Result {
        match self.0 {
            Some(number) => write!(f, "{number:>9}"),
            None => write!(f, "{:>9}", "-"),
        }
    }
}

// A slot's line with its price and another number, under a head of their names.
#[derive(Clone, Copy)]
pub struct Reckoned<'a> {
    pub line: Line<'a>,
    pub price: Option<u64>,
    pub other: Option<u64>,
}

impl fmt::Display for Reckoned<'_> {
    fn fmt<W: fmt::Write>(&self, f: &mut fmt::Formatter<W>) -> fmt::Result {
        self.line.write_bytes(f)?;
        write!(f, "{}{}", Cell(self.price), Cell(self.other))?;
        self.line.write_instruction(f)
    }
}

// The head of such lines; `other` names the second number.
pub fn print_head(rt: &HostRuntime, other: &str) -> io::Result<()> {
    println!(rt; " slot  bytes                      price{other:>9}  instruction")
}

pub fn print_slots(rt: &HostRuntime, image: &[u8]) -> io::Result<()> {
    for slot in 0..listed(image) {
        println!(rt; "{}", Line { image, slot })?;
    }
    Ok(())
}

// The slots that have a role, on one line.
fn print_role(rt: &HostRuntime, image: &[u8], name: &str, role: Role) -> io::Result<()> {
    print!(rt; "{name}:")?;
    for slot in (0..listed(image)).filter(|slot| role_at(image, *slot) == role) {
        print!(rt; " {slot}")?;
    }
    println!(rt)
}

pub fn print_roles(rt: &HostRuntime, image: &[u8]) -> io::Result<()> {
    print_role(rt, image, "saves", Role::Save)?;
    print_role(rt, image, "idle slots", Role::Idle)
}
