// The six-slot round: r1 = 7; next reading; r2 = r0; idle; record; EXIT.
use crate::budget::least_budget;
use crate::capacity::{Voltages, least_capacity};
use crate::stretch::{dearest_start, onward};
use paths::node::{Node, Successors};
use paths::worth::Worth;
use pricing::operand::OperandModel;

const SIX: &[u8; 48] = b"\
    \xb7\x01\x00\x00\x07\x00\x00\x00\
    \x85\x00\x00\x00\x02\x00\x00\x00\
    \xbf\x02\x00\x00\x00\x00\x00\x00\
    \x05\x00\x00\x00\x00\x00\x00\x00\
    \x85\x00\x00\x00\x03\x00\x00\x00\
    \x95\x00\x00\x00\x00\x00\x00\x00";

const fn voltages(top: u32, bottom: u32) -> Voltages {
    Voltages {
        top,
        bottom,
        unit: 1_000_000,
    }
}

// The least capacity that the six slots fit, or the number of the refusal.
fn capacity(top: u32, bottom: u32) -> Result<Option<u32>, u8> {
    let mut working = [Worth::default(); 1024];
    least_capacity(SIX, &OperandModel, voltages(top, bottom), &mut working).map_err(
        |refusal| refusal.number(),
    )
}

#[test]
fn the_six_slots_need_258(rt: HostRuntime) {
    let mut working = [Worth::default(); 1024];
    let budget = least_budget(SIX, &OperandModel, &mut working);
    assert_eq!(rt; budget.map_err(|refusal| refusal.number()), Ok(258));
    assert_eq!(rt; working[0].price, 258);
    assert_eq!(rt; working[5].price, 149);
}

// A microfarad holds 2.5 units between 3,000 and 2,000 millivolts: 103 of them
// hold 257.
#[test]
fn they_fit_104_microfarads(rt: HostRuntime) {
    assert_eq!(rt; capacity(3000, 2000), Ok(Some(104)));
    assert_eq!(rt; capacity(11, 10), Ok(None));
    assert_eq!(rt; capacity(2000, 3000), Err(13));
}

// Between 52 and 51 millivolts a microfarad holds 103 half picojoules. Of these
// the six slots need 516: five microfarads hold 515.
#[test]
fn half_a_picojoule_short_does_not_fit(rt: HostRuntime) {
    let mut working = [Worth::default(); 1024];
    let narrow = Voltages {
        top: 52,
        bottom: 51,
        unit: 1,
    };
    let found = least_capacity(SIX, &OperandModel, narrow, &mut working);
    assert_eq!(rt; found.map_err(|refusal| refusal.number()), Ok(Some(6)));
}

#[test]
fn the_dearer_way_is_taken(rt: HostRuntime) {
    let nodes = [Node {
        slot: 0,
        price: 5,
        successors: Successors::Both(1, 2),
    }];
    let worths = [
        Worth { price: 12, slot: 0 },
        Worth { price: 6, slot: 1 },
        Worth { price: 7, slot: 2 },
    ];
    let mut starts = [false; 1024];
    starts[0] = true;
    starts[2] = true;
    assert_eq!(rt; onward(&nodes, &worths, 0), Some(2));
    assert_eq!(rt; onward(&nodes, &worths, 1), None);
    assert_eq!(rt; dearest_start(&starts, &worths), 0);
}
