// The limits of the budget and of the working list, and which comes first.
use certifier::certify::Certifier;
use isa::refusal::Refusal;
use paths::worth::Worth;
use pricing::operand::OperandModel;
use std::test::Fail;

const EXIT: &[u8; 8] = b"\x95\0\0\0\0\0\0\0";

// The refusal of an image at a budget, with a working list of so many
// entries; 0 where it is accepted.
// Stays: an option would make each case longer.
fn answer(rt: &HostRuntime, image: &[u8], budget: u64, entries: usize) -> Result<u8, Fail> {
    let mut working = vec![in rt.alloc(); Worth::default(); entries]?;
    let model = &OperandModel;
    let answer = Certifier { model, budget }.certify(image, &mut working);
    Ok(answer.map_or_else(Refusal::number, |()| 0))
}

#[test]
fn budgets(rt: HostRuntime) -> Result<(), Fail> {
    assert_eq!(rt; answer(&rt, EXIT, 0, 1024)?, 8);
    assert_eq!(rt; answer(&rt, EXIT, 1, 1024)?, 10);
    assert_eq!(rt; answer(&rt, EXIT, 148, 1024)?, 10);
    assert_eq!(rt; answer(&rt, EXIT, 149, 1024)?, 0);
    assert_eq!(rt; answer(&rt, EXIT, 100_000_000, 1024)?, 0);
    assert_eq!(rt; answer(&rt, EXIT, 100_000_001, 1024)?, 8);
    assert_eq!(rt; answer(&rt, EXIT, u64::MAX, 1024)?, 8);
    Ok(())
}

#[test]
fn working_lists(rt: HostRuntime) -> Result<(), Fail> {
    assert_eq!(rt; answer(&rt, EXIT, 149, 0)?, 12);
    assert_eq!(rt; answer(&rt, EXIT, 149, 1023)?, 12);
    assert_eq!(rt; answer(&rt, EXIT, 149, 1025)?, 0);
    Ok(())
}

#[test]
fn order(rt: HostRuntime) -> Result<(), Fail> {
    assert_eq!(rt; answer(&rt, b"", 0, 0)?, 8);
    assert_eq!(rt; answer(&rt, b"", 1, 0)?, 12);
    assert_eq!(rt; answer(&rt, b"", 1, 1024)?, 1);
    assert_eq!(rt; answer(&rt, b"\x95\x01\0\0\0\0\0\0", 1, 1024)?, 4);
    assert_eq!(rt; answer(&rt, b"\x85\0\0\0\x01\0\0\0", 1, 1024)?, 7);
    Ok(())
}
