// Rounds with the price that they are accepted at under the flat model, all 10.
use claims::round::Round;
use machine::ending::{Ending, Trap};
use pricing::flat::FlatModel;

pub(crate) struct Case {
    pub(crate) image: &'static [u8],
    pub(crate) tape: &'static [u32],
    pub(crate) budget: u64,
    // the steps that the run takes to its end
    pub(crate) steps: u64,
    pub(crate) ending: Ending,
}

// r1 = 7, the next reading, r2 = r0, a save, a record, EXIT
pub(crate) const ROUND: &[u8; 48] = b"\xb7\x01\0\0\x07\0\0\0\
       \x85\0\0\0\x02\0\0\0\
       \xbf\x02\0\0\0\0\0\0\
       \x85\0\0\0\x01\0\0\0\
       \x85\0\0\0\x03\0\0\0\
       \x95\0\0\0\0\0\0\0";

pub(crate) static CASES: [Case; 6] = [
    Case {
        image: ROUND,
        tape: &[5],
        budget: 40,
        steps: 6,
        ending: Ending::Exit,
    },
    // the same without a reading
    Case {
        image: ROUND,
        tape: &[],
        budget: 40,
        steps: 2,
        ending: Ending::Trap(Trap::TapeFinished),
    },
    // a save, the next reading, a record of it, over and over
    Case {
        image: b"\x85\0\0\0\x01\0\0\0\
          \x85\0\0\0\x02\0\0\0\
          \xbf\x02\0\0\0\0\0\0\
          \x85\0\0\0\x03\0\0\0\
          \x05\0\xfb\xff\0\0\0\0",
        tape: &[9, 8, 7, 6],
        budget: 50,
        steps: 22,
        ending: Ending::Trap(Trap::TapeFinished),
    },
    // records until the log is full, with a save after each
    Case {
        image: b"\x07\x02\0\0\x01\0\0\0\
          \x85\0\0\0\x03\0\0\0\
          \x85\0\0\0\x01\0\0\0\
          \x05\0\xfc\xff\0\0\0\0",
        tape: &[],
        budget: 40,
        steps: 258,
        ending: Ending::Trap(Trap::LogFull),
    },
    // a store and a load past the memory
    Case {
        image: b"\x7b\xaa\xf8\xff\0\0\0\0\
          \x85\0\0\0\x01\0\0\0\
          \x79\xa3\xf8\xff\0\0\0\0\
          \x79\xa3\xf9\xff\0\0\0\0\
          \x95\0\0\0\0\0\0\0",
        tape: &[],
        budget: 40,
        steps: 4,
        ending: Ending::Trap(Trap::OutsideMemory),
    },
    // three saves in a row
    Case {
        image: b"\x85\0\0\0\x01\0\0\0\
          \x85\0\0\0\x01\0\0\0\
          \x85\0\0\0\x01\0\0\0\
          \x95\0\0\0\0\0\0\0",
        tape: &[],
        budget: 20,
        steps: 4,
        ending: Ending::Exit,
    },
];

pub(crate) fn round_of<'a>(
    model: &'a FlatModel,
    image: &'a [u8],
    tape: &'a [u32],
) -> Round<'a, FlatModel> {
    Round { model, image, tape }
}

pub(crate) fn flat() -> FlatModel {
    FlatModel::new([10; 257])
}
