// An instruction as text.
ghost use Rattle.std.specs.Prelude.{◌≡◌, Some};
ghost use Rattle.listing.specs.Text.{dst_of, second_of, written_by, read_by, text_of};

use crate::operand::{Distance, Place, Register, Second};
use crate::symbol::{assignment, comparison};
use isa::instruction::Instruction;
use isa::kind::{Kind, Operation, Size, Source, Width};
use std::fmt;

#[derive(Clone, Copy)]
pub struct Text(pub Instruction);

impl Text {
    fn dst(self, width: Width) -> Register
        ensures { result ≡ dst_of self.0 width }
    {
        Register {
            number: self.0.fields.dst,
            width,
        }
    }

    fn second(self, source: Source, width: Width) -> Second
        ensures { result ≡ second_of self.0 source width }
    {
        Second {
            source,
            width,
            fields: self.0.fields,
        }
    }

    // where a store writes
    // Stays: `read` differs in a field, not in a type or a size, and each has its definition.
    fn written(self, size: Size) -> Place
        ensures { result ≡ written_by self.0 size }
    {
        Place {
            size,
            base: self.0.fields.dst,
            offset: self.0.fields.offset,
        }
    }

    // where a load reads
    fn read(self, size: Size) -> Place
        ensures { result ≡ read_by self.0 size }
    {
        Place {
            size,
            base: self.0.fields.src,
            offset: self.0.fields.offset,
        }
    }
}

impl fmt::Display for Text {
    ghost output = { λ x. Some (text_of x.0) };

    fn fmt<W: fmt::Write>(&self, f: &mut fmt::Formatter<W>) -> fmt::Result {
        let fields = self.0.fields;
        let distance = Distance(fields.offset);
        let imm = fields.imm;
        match self.0.kind {
            Kind::Arithmetic(width, Operation::Neg, _) => {
                let dst = self.dst(width);
                write!(f, "{dst} = -{dst}")
            }
            Kind::Arithmetic(width, operation, source) => write!(
                f,
                "{} {} {}",
                self.dst(width),
                assignment(operation),
                self.second(source, width)
            ),
            Kind::Branch(width, test, source) => write!(
                f,
                "if {} {} {} goto {distance}",
                self.dst(width),
                comparison(test),
                self.second(source, width)
            ),
            Kind::Jump => write!(f, "goto {distance}"),
            Kind::Call => write!(f, "call {imm}"),
            Kind::Exit => write!(f, "exit"),
            Kind::Load(size) => write!(f, "{} = {}", self.dst(Width::Full64), self.read(size)),
            Kind::StoreImm(size) => write!(f, "{} = {imm}", self.written(size)),
            Kind::StoreReg(size) => write!(f, "{} = r{}", self.written(size), fields.src),
        }
    }
}
