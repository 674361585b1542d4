// The dearest walk from a slot, read off the worths that certifying leaves.
ghost use Rattle.std.specs.Prelude.{◌≡◌};
ghost use Rattle.headroom.specs.Stretch.{worth_at};

use crate::slots::{Line, Reckoned, print_head};
use headroom::stretch::{dearest_start, onward};
use paths::node::Node;
use paths::worth::Worth;
use pricing::prices::Prices;
use std::alloc::{AllocError, Global};
use std::io;
use std::iter::successors;
use tables::start::starts_of;
use tables::walk::walk_table;

// An image that was certified: its slots as walks go along them, their prices, and
// the worths that were left.
#[derive(Clone, Copy)]
pub struct Certified<'a> {
    pub image: &'a [u8],
    pub prices: &'a Prices,
    pub nodes: &'a [Node],
    pub worths: &'a [Worth],
}

impl Certified<'_> {
    // The start with the dearest walk, the lowest of several.
    pub fn dearest_start(&self) -> u16 {
        dearest_start(&starts_of(self.image), self.worths)
    }

    // What the dearest walk from a slot costs.
    pub fn price_at(&self, slot: u16) -> u64
        ensures { result ≡ (worth_at self.now.worths.now slot).price }
    {
        self.worths
            .get(slot as usize)
            .map_or(0, |worth| worth.price)
    }

    // The dearest walk from a slot; it holds none twice.
    pub fn walk_from(&self, heap: Global, start: u16) -> Result<Vec<u16>, AllocError> {
        successors(Some(start), |slot| onward(self.nodes, self.worths, *slot))
            .take(1024)
            .collect(heap)
    }

    // Prints the dearest walk from a slot, with what it has cost so far.
    pub fn print_walk(&self, rt: &HostRuntime, start: u16) -> io::Result<()> {
        print_head(rt, "sum")?;
        let mut sum = 0u64;
        for slot in self.walk_from(rt.alloc(), start)? {
            let line = Line {
                image: self.image,
                slot,
            };
            let price = line.price(self.prices);
            sum = sum.saturating_add(price.unwrap_or(0));
            let reckoned = Reckoned {
                line,
                price,
                other: Some(sum),
            };
            println!(rt; "{reckoned}")?;
        }
        Ok(())
    }
}
