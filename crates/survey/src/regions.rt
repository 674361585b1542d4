// The regions of a round: of each start the slots that its walks come to.
ghost use Rattle.std.specs.Prelude.{◌≡◌, ℕ, ◌+◌, ◌-◌, ◌%◌, ◌<◌, ◌≤◌, if◌then◌else◌, false, length, slice_index_or};
ghost use Rattle.paths.specs.Net.{tabled};
ghost use Rattle.search.specs.Reach.{Reaches};
ghost use Rattle.survey.specs.Counted.{Chosen, Counted};

use paths::node::Node;
use search::reach::reach_from;

// A region: its start, and its number, counted from 1 in the order of the starts.
#[derive(Clone, Copy, PartialEq, Eq, Debug)]
pub struct Region {
    pub number: u16,
    pub start: u16,
}

// How many tints there are for regions.
const TINTS: u16 = 6;

impl Region {
    // The tint in which it is shown, 1 to 6 in turn.
    pub fn tint(self) -> u16
        ensures value { 1 ≤ self.number → result ≡ (self.number - 1) % 6 + 1 }
        ensures some { 1 ≤ result }
        ensures most { result ≤ 6 }
    {
        self.number.saturating_sub(1) % TINTS + 1
    }
}

// The regions that a slot lies in: the lowest of their starts, and how many they are.
#[derive(Clone, Copy, Default, PartialEq, Eq, Debug)]
pub struct Membership {
    pub lowest: Option<u16>,
    pub count: u16,
}

impl Membership {
    ghost use Rattle.survey.specs.Membership.{joining};

    // With one more region, of a start above those before.
    fn joining(self, start: u16) -> Membership
        ensures { result ≡ joining self start }
    {
        Membership {
            lowest: self.lowest.or(Some(start)),
            count: self.count.saturating_add(1),
        }
    }
}

// The memberships of all slots.
// Stays: one for each of the device's 1,024 slots.
#[derive(Clone, Copy)]
pub struct Memberships {
    pub list: [Membership; 1024],
}

impl Memberships {
    ghost use Rattle.survey.specs.Membership.{joining, no_region, MemberBelow, Member};

    // Takes the slots of a region into their memberships.
    fn join(&mut self, start: u16, region: &[bool; 1024])
        ensures { (slot : ℕ) → slot < 1024 → slice_index_or self.new.list slot no_region ≡ if slice_index_or region.now slot false then joining (slice_index_or self.old.list slot no_region) start else slice_index_or self.old.list slot no_region }
    {
        for slot in 0..1024usize {
            if region[slot] {
                self.list[slot] = self.list[slot].joining(start);
            }
        }
    }

    // Of each slot the regions that it lies in.
    pub fn of(nodes: &[Node; 1024], starts: &[bool; 1024]) -> Memberships
        ensures { (slot : ℕ) → slot < 1024 → Member nodes.now starts.now slot (slice_index_or result.list slot no_region) }
    {
        let mut memberships = Memberships {
            list: [Membership {
                lowest: None,
                count: 0,
            }; 1024],
        };
        for start in 0..1024u16 {
            if starts[start as usize] {
                memberships.join(start, &reach_from(nodes, start));
            }
        }
        memberships
    }
}

// The region of a start.
pub fn region_of(starts: &[bool; 1024], start: u16) -> Region
    ensures start { result.start ≡ start }
    ensures number { start < 1024 → Counted (Chosen starts.now) (start + 1) result.number }
{
    let mut number = 0u16;
    for slot in 0..(start % 1024) + 1 {
        if starts[slot as usize] {
            number += 1;
        }
    }
    Region { number, start }
}

// How many slots a start's region has.
pub fn size_of(nodes: &[Node; 1024], start: u16) -> u16
    ensures { Counted (Reaches (tabled nodes.now) start) 1024 result }
{
    let region = reach_from(nodes, start);
    let mut size = 0u16;
    for slot in 0..1024u16 {
        if region[slot as usize] {
            size += 1;
        }
    }
    size
}
