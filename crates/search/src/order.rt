// The search for an order, each node after its successors, or for a loop:
// depth first, from a node to its ways out and from a way out to the node that
// it reaches. The nodes that it is inside of are a path in a list of its own,
// so that its depth takes no stack.
ghost use Rattle.std.specs.Prelude.{◌≡◌, ℕ, ◌<◌, [], replicate, OnOk, OnErr, Some};
ghost use Rattle.paths.specs.Net.{tabled};
ghost use Rattle.search.specs.declared.order.Mark.TheVariants.{New};
ghost use Rattle.search.specs.Visit.{mark_at, Rests, NextWay, Marked, Visited, LoopAhead};
ghost use Rattle.search.specs.Order.{Searched};

use crate::table::Table;
use crate::ways::ways_within;
use arrayvec::ArrayVec;

#[derive(Clone, Copy)]
enum Mark {
    New,
    // visited, its ways out not yet all
    Open,
    Done,
}

// The nodes visited so far: the path of those that are open, and the order of
// those that are done. Whoever searches often keeps one.
#[derive(Drop)]
pub struct Visits {
    // Stays: one for each of the device's 1,024 slots.
    marks: [Mark; 1024],
    path: ArrayVec<u16, 1024>,
    pub order: ArrayVec<u16, 1024>,
}

impl Visits {
    pub fn new() -> Visits
        ensures { result.order.items ≡ [] }
    {
        Visits {
            marks: [Mark::New; 1024],
            path: ArrayVec::new(),
            order: ArrayVec::new(),
        }
    }

    // Forgets what an earlier search visited.
    fn begin(&mut self)
        ensures marks { self.new.marks ≡ replicate 1024 New }
        ensures path { self.new.path.items ≡ [] }
        ensures order { self.new.order.items ≡ [] }
    {
        self.marks = [Mark::New; 1024];
        self.path.clear();
        self.order.clear();
    }
}

// There is no order, since a node lies on a loop.
#[derive(Clone, Copy, Debug, PartialEq, Eq)]
pub struct Looping;

// A way out to a node that is new, or none where it is done or not there. A node
// that is open is met again.
#[inline(always)]
fn if_new(marks: &[Mark; 1024], way: Option<u16>) -> Result<Option<u16>, Looping>
    requires { (t : ℕ) → way ≡ Some t → t < 1024 }
    ensures { Marked marks.now way result }
{
    let Some(node) = way else {
        return Ok(None);
    };
    match marks[node as usize] {
        Mark::New => Ok(way),
        Mark::Open => Err(Looping),
        Mark::Done => Ok(None),
    }
}

impl Table<'_> {
    // The first way out of a node to one that is new; none where all are done.
    #[inline(always)]
    fn next_way(&self, marks: &[Mark; 1024], node: u16) -> Result<Option<u16>, Looping>
        requires { node < 1024 }
        ensures { NextWay (tabled self.now.nodes.now) marks.now node result }
    {
        let (first, second) = ways_within(self.nodes[node as usize].successors);
        match if_new(marks, first)? {
            Some(way) => Ok(Some(way)),
            None => if_new(marks, second),
        }
    }

    // Visits a node, and all that it leads to. Fails where it leads to a loop.
    fn visit(&self, visits: &mut Visits, start: u16) -> Result<(), Looping>
        requires rests { Rests (tabled self.now.nodes.now) visits.old.marks visits.old.path.items visits.old.order.items }
        requires inside { start < 1024 }
        requires fresh { mark_at visits.old.marks start ≡ New }
        ensures ok { OnOk result (Visited (tabled self.now.nodes.now) visits.old.marks visits.new.marks visits.new.path.items visits.new.order.items start) }
        ensures err { OnErr result (LoopAhead (tabled self.now.nodes.now) start) }
    {
        visits.marks[start as usize] = Mark::Open;
        visits.path.push(start);
        while let Some(node) = visits.path.pop() {
            if let Some(way) = self.next_way(&visits.marks, node)? {
                visits.marks[way as usize] = Mark::Open;
                visits.path.push(node);
                visits.path.push(way);
            } else {
                visits.marks[node as usize] = Mark::Done;
                visits.order.push(node);
            }
        }
        Ok(())
    }

    // Puts the nodes that the starts reach in an order, each after its
    // successors, or tells that one of them lies on a loop.
    pub fn find_order(&self, visits: &mut Visits) -> Result<(), Looping>
        ensures { Searched (tabled self.now.nodes.now) self.now.starts.now visits.new.order.items result }
    {
        visits.begin();
        for (start, &chosen) in self.starts.iter().enumerate() {
            if chosen && matches!(visits.marks[start], Mark::New) {
                self.visit(visits, start as u16)?;
            }
        }
        Ok(())
    }
}
