// How many opcodes are legal, by class.
use isa::opcode::kind_of;

// LD, LDX, ST, STX, ALU, JMP, JMP32, ALU64
static LEGAL: [usize; 8] = [0, 4, 4, 4, 25, 25, 22, 25];

fn legal_in(class: u8) -> usize {
    (0..=255u8)
        .filter(|&opcode| opcode % 8 == class && kind_of(opcode).is_some())
        .count()
}

#[test]
fn legal_opcodes_by_class(rt: HostRuntime) {
    for (class, &legal) in (0..8u8).zip(&LEGAL) {
        assert_eq!(rt; legal_in(class), legal);
    }
}
