// The symbols of operations, tests and sizes.
// Stays: a Display of each takes a struct and an impl here, and each text is used once.
ghost use Rattle.std.specs.Prelude.{◌≡◌};
ghost use Rattle.listing.specs.Symbol.{assignment_of, comparison_of, size_name};

use isa::kind::{Operation, Size, Test};

// The assignment of an arithmetic operation; NEG is written out by itself.
pub(crate) fn assignment(operation: Operation) -> &'static str
    ensures { result.now ≡ assignment_of operation }
{
    match operation {
        Operation::Add => "+=",
        Operation::Sub => "-=",
        Operation::Mul => "*=",
        Operation::Div => "/=",
        Operation::Or => "|=",
        Operation::And => "&=",
        Operation::Lsh => "<<=",
        Operation::Rsh => ">>=",
        Operation::Neg => "= -",
        Operation::Mod => "%=",
        Operation::Xor => "^=",
        Operation::Mov => "=",
        Operation::Arsh => "s>>=",
    }
}

pub(crate) fn comparison(test: Test) -> &'static str
    ensures { result.now ≡ comparison_of test }
{
    match test {
        Test::Eq => "==",
        Test::Gt => ">",
        Test::Ge => ">=",
        Test::Set => "&",
        Test::Ne => "!=",
        Test::Sgt => "s>",
        Test::Sge => "s>=",
        Test::Lt => "<",
        Test::Le => "<=",
        Test::Slt => "s<",
        Test::Sle => "s<=",
    }
}

pub(crate) fn size_name(size: Size) -> &'static str
    ensures { result.now ≡ size_name size }
{
    match size {
        Size::One => "u8",
        Size::Two => "u16",
        Size::Four => "u32",
        Size::Eight => "u64",
    }
}
