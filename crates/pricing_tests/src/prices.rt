// What the two models answer, around the edges of their rules.
use pricing::flat::FlatModel;
use pricing::model::PriceModel;
use pricing::operand::OperandModel;

// opcode, imm, most
static MOST: [(u8, i32, u32); 16] = [
    (0xb7, -1, 2),
    (0xb4, 7, 1),
    (0x9f, 0, 8),
    (0x94, 0, 7),
    (0x3c, 0, 7),
    (0x15, 0, 1),
    (0x05, 0, 1),
    (0x95, 0, 1),
    (0x79, 0, 3),
    (0x72, 0, 12),
    (0x7b, 0, 68),
    (0x85, 1, 1),
    (0x85, 2, 91),
    (0x85, 3, 13),
    (0xff, 0, 2),
    (0x8c, 0, 1),
];

// opcode, imm, a, b, spending
static SPENDING: [(u8, i32, u64, u64, u32); 10] = [
    (0xb7, -1, 9, 9, 2),
    (0x9f, 0, 0, 0, 8),
    (0x72, 0, 0, 0x1ff, 12),
    (0x73, 0, 0, 0x100, 4),
    (0x6b, 0, 0, 0x1_8001, 6),
    (0x7b, 0, 0, u64::MAX, 68),
    (0x85, 2, 3, 0, 91),
    (0x85, 2, 4, 0, 61),
    (0x85, 2, u64::MAX, 0, 91),
    (0x85, 3, 0, 0, 13),
];

// pending records, saving
static SAVING: [(usize, u32); 5] = [(0, 20), (1, 22), (63, 146), (64, 148), (usize::MAX, 148)];

#[test]
fn operand_most(rt: HostRuntime) {
    for (opcode, imm, most) in &MOST {
        assert_eq!(rt; OperandModel.most(*opcode, *imm), *most);
    }
}

#[test]
fn operand_spending(rt: HostRuntime) {
    for (opcode, imm, a, b, spending) in &SPENDING {
        assert_eq!(rt; OperandModel.spending(*opcode, *imm, *a, *b), *spending);
    }
}

#[test]
fn operand_saving(rt: HostRuntime) {
    for (pending, saving) in &SAVING {
        assert_eq!(rt; OperandModel.saving(*pending), *saving);
    }
    assert_eq!(rt; OperandModel.dearest(), 148);
}

#[test]
fn flat(rt: HostRuntime) {
    let mut prices = [10; 257];
    prices[255] = 11;
    prices[256] = 65535;
    let model = FlatModel::new(prices);
    assert_eq!(rt; model.most(255, 3), 11);
    assert_eq!(rt; model.spending(254, 0, 1, 2), 10);
    assert_eq!(rt; model.saving(64), 65535);
    assert_eq!(rt; model.dearest(), 65535);
}
