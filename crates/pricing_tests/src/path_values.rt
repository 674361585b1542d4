// Worths worked out along an order.
use paths::fill::fill;
use paths::kind::PathValue;
use paths::node::{Node, Successors};
use paths::price::Price;
use paths::worth::Worth;

fn node(slot: u16, price: u64, successors: Successors) -> Node {
    Node {
        slot,
        price,
        successors,
    }
}

// 0 leads to 1 and 2, and both to 3.
fn diamond(left: u64, right: u64) -> [Node; 4] {
    [
        node(0, 1, Successors::Both(1, 2)),
        node(1, left, Successors::One(3)),
        node(2, right, Successors::One(3)),
        node(3, 5, Successors::End),
    ]
}

#[test]
fn greater_price(rt: HostRuntime) {
    let mut worths = [Worth::default(); 4];
    fill(&mut worths, &[3, 2, 1, 0], &diamond(10, 20));
    assert_eq!(rt; worths[0].price, 26);
    assert_eq!(rt; worths[1].price, 15);
    assert_eq!(rt; worths[2].price, 25);
    assert_eq!(rt; worths[3].price, 5);
}

#[test]
fn smaller_slot_of_equal_prices(rt: HostRuntime) {
    let one = Worth { price: 7, slot: 1 };
    let two = Worth { price: 7, slot: 2 };
    assert_eq!(rt; one.join(two).slot, 1);
    assert_eq!(rt; two.join(one).slot, 1);
}

#[test]
fn sums_stop(rt: HostRuntime) {
    let mut prices = [Price::default(); 4];
    fill(&mut prices, &[3, 2, 1, 0], &diamond(u64::MAX, 20));
    assert_eq!(rt; prices[1].price, u64::MAX);
    assert_eq!(rt; prices[0].price, u64::MAX);
}

#[test]
fn past_the_end(rt: HostRuntime) {
    let mut worths = [Worth::default(); 2];
    fill(&mut worths, &[9, 0], &[node(0, 3, Successors::One(9))]);
    assert_eq!(rt; worths[0].price, 3);
    assert_eq!(rt; worths[1].price, 0);
}
