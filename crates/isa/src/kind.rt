// What an opcode byte means.

// How many bits an operation works on: the low 32, or all 64.
#[derive(Clone, Copy)]
pub enum Width {
    Low32,
    Full64,
}

#[derive(Clone, Copy)]
pub enum Operation {
    Add,
    Sub,
    Mul,
    Div,
    Or,
    And,
    Lsh,
    Rsh,
    Neg,
    Mod,
    Xor,
    Mov,
    Arsh,
}

#[derive(Clone, Copy)]
pub enum Test {
    Eq,
    Gt,
    Ge,
    Set,
    Ne,
    Sgt,
    Sge,
    Lt,
    Le,
    Slt,
    Sle,
}

// Where an operation takes its second operand from.
#[derive(Clone, Copy)]
pub enum Source {
    Imm,
    Register,
}

// The bytes that a load or a store moves.
#[derive(Clone, Copy)]
pub enum Size {
    One,
    Two,
    Four,
    Eight,
}

#[derive(Clone, Copy)]
pub enum Kind {
    Arithmetic(Width, Operation, Source),
    // a conditional jump
    Branch(Width, Test, Source),
    Jump,
    Call,
    Exit,
    Load(Size),
    // a store of imm
    StoreImm(Size),
    // a store of the register src
    StoreReg(Size),
}
