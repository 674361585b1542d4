// Values in the page's words.
use crate::escape::in_page;
use arrayvec::ArrayString;
use isa::instruction::{Instruction, Role};
use listing::text::Text;
use machine::ending::{Ending, Trap};
use pricing::prices::Prices;
use std::fmt;
use std::fmt::Write;

// A number with its thousands set apart.
#[derive(Clone, Copy)]
pub struct Grouped(pub u64);

const GROUPS: [u64; 7] = [
    1_000_000_000_000_000_000,
    1_000_000_000_000_000,
    1_000_000_000_000,
    1_000_000_000,
    1_000_000,
    1_000,
    1,
];

impl fmt::Display for Grouped {
    fn fmt<W: fmt::Write>(&self, f: &mut fmt::Formatter<W>) -> fmt::Result {
        for group in GROUPS {
            let digits = self.0.checked_div(group).unwrap_or(0);
            if digits >= 1_000 {
                write!(f, ",{:03}", digits % 1_000)?;
            } else if digits > 0 || group == 1 {
                write!(f, "{digits}")?;
            }
        }
        Ok(())
    }
}

// How a run ended, if it did.
#[derive(Clone, Copy)]
pub struct Ended(pub Option<Ending>);

fn trap_words(trap: Trap) -> &'static str {
    match trap {
        Trap::BadSlot => "no legal instruction where it stood",
        Trap::OutsideMemory => "a load or a store outside memory",
        Trap::TapeFinished => "a reading past the end of the tape",
        Trap::LogFull => "a record past the end of the log",
    }
}

impl fmt::Display for Ended {
    fn fmt<W: fmt::Write>(&self, f: &mut fmt::Formatter<W>) -> fmt::Result {
        match self.0 {
            Some(Ending::Exit) => write!(f, "by EXIT"),
            Some(Ending::Trap(trap)) => {
                write!(f, "by trap {}: {}", trap.number(), trap_words(trap))
            }
            None => write!(f, "not before the calls were all made"),
        }
    }
}

pub(crate) fn prices_words(prices: &Prices) -> &'static str {
    match prices {
        Prices::Operand => "the operand model",
        Prices::Flat(_) => "a price for each opcode, from a file",
    }
}

// What a slot is to a round, where that needs saying.
pub(crate) fn role_words(role: Role) -> &'static str {
    match role {
        Role::Save => "save",
        Role::Exit => "exit",
        Role::Idle => "idle",
        Role::Other => "",
    }
}

// The text of an instruction, as it stands in a page.
#[derive(Clone, Copy)]
pub struct Shown(pub Option<Instruction>);

impl fmt::Display for Shown {
    fn fmt<W: fmt::Write>(&self, f: &mut fmt::Formatter<W>) -> fmt::Result {
        let Some(instruction) = self.0 else {
            return write!(f, "<em>no legal instruction</em>");
        };
        let mut text = ArrayString::<64>::new();
        write!(text, "{}", Text(instruction))?;
        write!(f, "<code>{}</code>", in_page(text.as_str()))
    }
}

// One of several, or many: the word for a count.
pub(crate) fn plural<'a>(count: u64, one: &'a str, many: &'a str) -> &'a str {
    if count == 1 { one } else { many }
}
