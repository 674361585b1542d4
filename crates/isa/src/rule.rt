// The rules on one slot, whatever stands in the others.
ghost use Rattle.std.specs.Prelude.{◌≡◌, ℕ, is_none, IfOk, IfSome};
ghost use Rattle.std.specs.Result.{result_ok};
ghost use Rattle.isa.specs.Instruction.{Registered};
ghost use Rattle.isa.specs.Refusal.{ok_unless};
ghost use Rattle.isa.specs.Rule.{unused, must_be_zero, registers_exist, zeros_kept, writes_dst, frame_pointer_kept, helper_known, fault_of, decoded};

use crate::helper::helper_of;
use crate::instruction::Instruction;
use crate::kind::{Kind, Operation, Source};
use crate::opcode::kind_of;
use crate::refusal::Refusal;
use crate::slot::Slot;

// The fields that a kind of instruction leaves unused.
#[derive(Clone, Copy)]
struct Unused {
    dst: bool,
    src: bool,
    offset: bool,
    imm: bool,
}

impl Unused {
    // Stays: a literal for each kind takes six lines.
    fn new(dst: bool, src: bool, offset: bool, imm: bool) -> Self
        ensures { result ≡ unused dst src offset imm }
    {
        Unused {
            dst,
            src,
            offset,
            imm,
        }
    }
}

fn must_be_zero(kind: Kind) -> Unused
    ensures { result ≡ must_be_zero kind }
{
    match kind {
        Kind::Arithmetic(_, Operation::Neg, Source::Imm) => Unused::new(false, true, true, true),
        Kind::Arithmetic(_, _, Source::Imm) => Unused::new(false, true, true, false),
        Kind::Arithmetic(_, _, Source::Register) => Unused::new(false, false, true, true),
        Kind::Branch(_, _, Source::Imm) => Unused::new(false, true, false, false),
        Kind::Branch(_, _, Source::Register) => Unused::new(false, false, false, true),
        Kind::Jump => Unused::new(true, true, false, true),
        Kind::Call => Unused::new(true, true, true, false),
        Kind::Exit => Unused::new(true, true, true, true),
        Kind::Load(..) => Unused::new(false, false, false, true),
        Kind::StoreImm(..) => Unused::new(false, true, false, false),
        Kind::StoreReg(..) => Unused::new(false, false, false, true),
    }
}

fn registers_exist(fields: Slot) -> bool
    ensures { result ≡ registers_exist fields }
{
    fields.dst <= 10 && fields.src <= 10
}

// Stays: kind and fields go apart until every rule is kept; then they are an Instruction.
fn zeros_kept(kind: Kind, fields: Slot) -> bool
    ensures { result ≡ zeros_kept kind fields }
{
    let unused = must_be_zero(kind);
    (!unused.dst || fields.dst == 0)
        && (!unused.src || fields.src == 0)
        && (!unused.offset || fields.offset == 0)
        && (!unused.imm || fields.imm == 0)
}

fn writes_dst(kind: Kind) -> bool
    ensures { result ≡ writes_dst kind }
{
    matches!(kind, Kind::Arithmetic(..) | Kind::Load(..))
}

fn frame_pointer_kept(kind: Kind, fields: Slot) -> bool
    ensures { result ≡ frame_pointer_kept kind fields }
{
    !writes_dst(kind) || fields.dst != 10
}

fn helper_known(kind: Kind, fields: Slot) -> bool
    ensures { result ≡ helper_known kind fields }
{
    !matches!(kind, Kind::Call) || helper_of(fields.imm).is_some()
}

// The rules on a slot of a known kind.
fn check_fields(kind: Kind, fields: Slot, slot: u16) -> Result<(), Refusal>
    ensures { result ≡ ok_unless (fault_of kind fields slot) tt }
{
    if !registers_exist(fields) {
        return Err(Refusal::NoRegister { slot });
    }
    if !zeros_kept(kind, fields) {
        return Err(Refusal::FieldNotZero { slot });
    }
    if !frame_pointer_kept(kind, fields) {
        return Err(Refusal::FramePointer { slot });
    }
    if !helper_known(kind, fields) {
        return Err(Refusal::NoHelper { slot });
    }
    Ok(())
}

// Whether a slot of a known kind keeps all of these rules. Each step of a run
// asks it, so it is one match on the kind, and what stands between it and a
// step is inlined.
#[inline(always)]
fn keeps_rules(kind: Kind, fields: Slot) -> bool
    ensures { (slot : ℕ) → result ≡ is_none (fault_of kind fields slot) }
{
    let Slot {
        dst,
        src,
        offset,
        imm,
        ..
    } = fields;
    registers_exist(fields)
        && match kind {
            Kind::Arithmetic(_, Operation::Neg, Source::Imm) => {
                src == 0 && offset == 0 && imm == 0 && dst != 10
            }
            Kind::Arithmetic(_, _, Source::Imm) => src == 0 && offset == 0 && dst != 10,
            Kind::Arithmetic(_, _, Source::Register) => offset == 0 && imm == 0 && dst != 10,
            Kind::Branch(_, _, Source::Imm) => src == 0,
            Kind::Branch(_, _, Source::Register) => imm == 0,
            Kind::Jump => dst == 0 && src == 0 && imm == 0,
            Kind::Call => dst == 0 && src == 0 && offset == 0 && helper_of(imm).is_some(),
            Kind::Exit => dst == 0 && src == 0 && offset == 0 && imm == 0,
            Kind::Load(..) => imm == 0 && dst != 10,
            Kind::StoreImm(..) => src == 0,
            Kind::StoreReg(..) => imm == 0,
        }
}

// The instruction that a slot's fields say, or the first rule that they break.
pub fn decode(fields: Slot, slot: u16) -> Result<Instruction, Refusal>
    ensures value { result ≡ decoded fields slot }
    ensures registers { IfOk result Registered }
{
    let kind = kind_of(fields.opcode).ok_or(Refusal::IllegalOpcode { slot })?;
    check_fields(kind, fields, slot)?;
    Ok(Instruction {
        at: slot,
        kind,
        fields,
    })
}

// The instruction that a slot's fields say, or none where they break a rule.
#[inline(always)]
pub(crate) fn legal_in(fields: Slot, slot: u16) -> Option<Instruction>
    ensures value { result ≡ result_ok (decoded fields slot) }
    ensures registers { IfSome result Registered }
{
    let kind = kind_of(fields.opcode)?;
    if !keeps_rules(kind, fields) {
        return None;
    }
    Some(Instruction {
        at: slot,
        kind,
        fields,
    })
}
