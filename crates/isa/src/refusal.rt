// Why a call is refused: one enum for the whole product.
ghost use Rattle.std.specs.Prelude.{◌≡◌};
ghost use Rattle.isa.specs.Refusal.{told, told_of, told_by, carried_of};

#[derive(Clone, Copy)]
pub enum Refusal {
    // an image's length is 0, above 8,192 or no multiple of 8
    Length,
    IllegalOpcode { slot: u16 },
    // a register above r10
    NoRegister { slot: u16 },
    // a field that must be zero and is not
    FieldNotZero { slot: u16 },
    // the frame pointer r10 as a destination
    FramePointer { slot: u16 },
    // a helper number that there is not
    NoHelper { slot: u16 },
    // a way out that leaves the image
    WayOut { slot: u16 },
    // a budget outside its limits
    Budget,
    // the lowest slot that some walk holds twice
    Loop { slot: u16 },
    // the lowest start with a walk over budget, and its dearest price
    OverBudget { slot: u16, price: u64 },
    // no choice of saves is accepted
    NoPlacement { carried: Unplaceable },
    // a working list that is too short
    WorkingList,
    // a supply's numbers outside their limits
    SupplyNumbers,
    // a call after the rig has ended
    Ended,
    // the rig has made all its attempts
    Attempts,
    // the rig has made all its cuts
    Cuts,
    // a log record beyond the kept ones
    NoRecord,
}

// What the certifier answers of an image with every idle slot turned into a
// save, where no choice of saves is accepted.
#[derive(Clone, Copy)]
pub enum Unplaceable {
    Loop { slot: u16 },
    OverBudget { slot: u16, price: u64 },
}

// A refusal in numbers: slot and price are 0 where a case has none.
// Stays: people and callers in C know a refusal by these numbers, which have no room for a none.
#[derive(Clone, Copy, PartialEq, Eq, Debug)]
pub struct Told {
    pub number: u8,
    pub slot: u16,
    pub price: u64,
}

impl Told {
    // Stays: a literal for each refusal takes five lines, and a From of a triple names no part either.
    fn new(number: u8, slot: u16, price: u64) -> Self
        ensures { result ≡ told number slot price }
    {
        Told {
            number,
            slot,
            price,
        }
    }
}

impl From<Unplaceable> for Told {
    ghost from_gives = { λ unplaceable told. told ≡ told_by unplaceable };

    fn from(unplaceable: Unplaceable) -> Self {
        match unplaceable {
            Unplaceable::Loop { slot } => Told::new(9, slot, 0),
            Unplaceable::OverBudget { slot, price } => Told::new(10, slot, price),
        }
    }
}

impl From<Refusal> for Told {
    ghost from_gives = { λ refusal told. told ≡ told_of refusal };

    fn from(refusal: Refusal) -> Self {
        match refusal {
            Refusal::Length => Told::new(1, 0, 0),
            Refusal::IllegalOpcode { slot } => Told::new(2, slot, 0),
            Refusal::NoRegister { slot } => Told::new(3, slot, 0),
            Refusal::FieldNotZero { slot } => Told::new(4, slot, 0),
            Refusal::FramePointer { slot } => Told::new(5, slot, 0),
            Refusal::NoHelper { slot } => Told::new(6, slot, 0),
            Refusal::WayOut { slot } => Told::new(7, slot, 0),
            Refusal::Budget => Told::new(8, 0, 0),
            Refusal::Loop { slot } => Told::new(9, slot, 0),
            Refusal::OverBudget { slot, price } => Told::new(10, slot, price),
            Refusal::NoPlacement { .. } => Told::new(11, 0, 0),
            Refusal::WorkingList => Told::new(12, 0, 0),
            Refusal::SupplyNumbers => Told::new(13, 0, 0),
            Refusal::Ended => Told::new(21, 0, 0),
            Refusal::Attempts => Told::new(22, 0, 0),
            Refusal::Cuts => Told::new(23, 0, 0),
            Refusal::NoRecord => Told::new(24, 0, 0),
        }
    }
}

impl Refusal {
    pub fn number(self) -> u8
        ensures { result ≡ (told_of self).number }
    {
        Told::from(self).number
    }

    pub fn slot(self) -> u16
        ensures { result ≡ (told_of self).slot }
    {
        Told::from(self).slot
    }

    pub fn price(self) -> u64
        ensures { result ≡ (told_of self).price }
    {
        Told::from(self).price
    }

    // The refusal that another one carries, in numbers.
    pub fn carried(self) -> Option<Told>
        ensures { result ≡ carried_of self }
    {
        match self {
            Refusal::NoPlacement { carried } => Some(carried.into()),
            _ => None,
        }
    }
}
