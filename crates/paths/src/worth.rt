// A price and the slot last extended by, joined by the greater price and then
// by the smaller slot.
ghost use Rattle.paths.specs.Worth.{worth_kind};
ghost use Rattle.std.proofs.Common.{rules};

use crate::kind::PathValue;
use std::cmp::{self, Reverse};

// Callers in C lend lists of these, so its layout is C's.
#[repr(C)]
#[derive(Clone, Copy, Default, PartialEq, Eq)]
pub struct Worth {
    pub price: u64,
    pub slot: u16,
}

impl PathValue for Worth {
    ghost kind = { worth_kind };

    ghost laws = { Prim.search rules };

    fn empty() -> Worth {
        Worth::default()
    }

    fn join(self, other: Worth) -> Worth {
        cmp::max_by_key(other, self, |worth| (worth.price, Reverse(worth.slot)))
    }

    fn extend(self, slot: u16, price: u64) -> Worth {
        Worth {
            price: self.price.saturating_add(price),
            slot,
        }
    }
}
