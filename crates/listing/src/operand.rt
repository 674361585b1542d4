// The operands of an instruction as text.
ghost use Rattle.std.specs.Prelude.{Some};
ghost use Rattle.listing.specs.Operand.{register_text, second_text, place_text, distance_text};

use crate::symbol::size_name;
use isa::kind::{Size, Source, Width};
use isa::slot::Slot;
use std::fmt;

// A register: w0 to w10 for its low half, r0 to r10 for the whole.
#[derive(Clone, Copy)]
pub struct Register {
    pub number: u8,
    pub width: Width,
}

impl fmt::Display for Register {
    ghost output = { λ x. Some (register_text x) };

    fn fmt<W: fmt::Write>(&self, f: &mut fmt::Formatter<W>) -> fmt::Result {
        let number = self.number;
        match self.width {
            Width::Low32 => write!(f, "w{number}"),
            Width::Full64 => write!(f, "r{number}"),
        }
    }
}

// The second operand of an operation: imm, or the register src.
#[derive(Clone, Copy)]
pub struct Second {
    pub source: Source,
    pub width: Width,
    pub fields: Slot,
}

impl fmt::Display for Second {
    ghost output = { λ x. Some (second_text x) };

    fn fmt<W: fmt::Write>(&self, f: &mut fmt::Formatter<W>) -> fmt::Result {
        let imm = self.fields.imm;
        let src = Register {
            number: self.fields.src,
            width: self.width,
        };
        match self.source {
            Source::Imm => write!(f, "{imm}"),
            Source::Register => write!(f, "{src}"),
        }
    }
}

// A place in memory: some bytes at a register and an offset.
#[derive(Clone, Copy)]
pub struct Place {
    pub size: Size,
    pub base: u8,
    pub offset: i16,
}

impl fmt::Display for Place {
    ghost output = { λ x. Some (place_text x) };

    fn fmt<W: fmt::Write>(&self, f: &mut fmt::Formatter<W>) -> fmt::Result {
        let size = size_name(self.size);
        let base = self.base;
        let distance = self.offset.unsigned_abs();
        if self.offset < 0 {
            write!(f, "*({size} *)(r{base} - {distance})")
        } else {
            write!(f, "*({size} *)(r{base} + {distance})")
        }
    }
}

// How far a jump goes, counted from the next slot.
#[derive(Clone, Copy)]
pub struct Distance(pub i16);

// Stays: tried `{:+}`, which std states by its padding: three lemmas in place of two arms.
impl fmt::Display for Distance {
    ghost output = { λ x. Some (distance_text x) };

    fn fmt<W: fmt::Write>(&self, f: &mut fmt::Formatter<W>) -> fmt::Result {
        let slots = self.0.unsigned_abs();
        if self.0 < 0 {
            write!(f, "-{slots}")
        } else {
            write!(f, "+{slots}")
        }
    }
}
