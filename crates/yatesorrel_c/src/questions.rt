// The questions to a rig from C, which change nothing.
ghost use Rattle.std.specs.Prelude.{◌≡◌, None};
ghost use Rattle.machine.specs.Reading.{record_in};
ghost use Rattle.claims.specs.History.{record_or};
ghost use Rattle.claims.specs.Rig.{Rig};
ghost use Rattle.machine.specs.declared.state.State.{State};
ghost use Rattle.rig.specs.Seen.{rig_on};
ghost use Rattle.supply.specs.declared.source.Source.{Source};
ghost use Rattle.yatesorrel_c.specs.declared.told.Own.TheVariants.{NotBegun};
ghost use Rattle.yatesorrel_c.specs.Told.{told_in, own_told};
ghost use Rattle.yatesorrel_c.specs.Held.{plain_rig, Whole, Unbegun};
ghost use Rattle.yatesorrel_c.specs.Questions.{counts_of, own_counts, kept_record_in, own_kept_record};

use crate::held::PlainRig;
use crate::told::{Own, PlainTold};
use isa::refusal::Refusal;
use machine::state::{Record, State};
use rig::standing::Standing;
use supply::source::Source;
use supply::supply::Supply;

// What a rig counts, and the charge that its supply is certain to have.
#[repr(C)]
#[derive(Clone, Copy)]
pub struct PlainCounts {
    pub refusal: PlainTold,
    pub charges: u64,
    pub assured: u64,
    pub saves: u32,
    pub cuts: u32,
    pub attempts: u32,
}

// A record of the kept log, zeros where it is refused.
#[repr(C)]
#[derive(Clone, Copy)]
pub struct PlainKeptRecord {
    pub refusal: PlainTold,
    pub kept: Record,
}

pub(crate) const NO_RECORD: Record = Record {
    sensor: 0,
    value: 0,
};

impl PlainCounts {
    fn of(source: &Source, standing: &Standing) -> PlainCounts
        ensures { result ≡ counts_of (rig_on source.now standing.now) }
    {
        PlainCounts {
            refusal: PlainTold::of(None),
            charges: standing.charges(source),
            assured: source.assured(),
            saves: standing.saves,
            cuts: standing.cuts,
            attempts: standing.attempts,
        }
    }

    fn own(own: Own) -> PlainCounts
        ensures { result ≡ own_counts own }
    {
        PlainCounts {
            refusal: PlainTold::own(own),
            charges: 0,
            assured: 0,
            saves: 0,
            cuts: 0,
            attempts: 0,
        }
    }
}

impl PlainKeptRecord {
    fn of(found: Result<Record, Refusal>) -> PlainKeptRecord
        ensures { result ≡ kept_record_in found }
    {
        PlainKeptRecord {
            refusal: PlainTold::of(found.err()),
            kept: found.unwrap_or(NO_RECORD),
        }
    }

    fn own(own: Own) -> PlainKeptRecord
        ensures { result ≡ own_kept_record own }
    {
        PlainKeptRecord {
            refusal: PlainTold::own(own),
            kept: NO_RECORD,
        }
    }
}

// Tells the counts of a rig.
#[unsafe(no_mangle)]
pub extern "C" fn yatesorrel_rig_counts(rig: &PlainRig) -> PlainCounts
    ensures unbegun { Unbegun rig.now → result ≡ own_counts NotBegun }
    ensures counted { (r : Rig Source State) → Whole r → rig.now ≡ plain_rig r → result ≡ counts_of r }
{
    let Some(source) = rig.source() else {
        return PlainCounts::own(Own::NotBegun);
    };
    PlainCounts::of(&source, &rig.standing)
}

// Tells a record of the kept log.
#[unsafe(no_mangle)]
pub extern "C" fn yatesorrel_rig_record(rig: &PlainRig, index: usize) -> PlainKeptRecord
    ensures unbegun { Unbegun rig.now → result ≡ own_kept_record NotBegun }
    ensures told { (r : Rig Source State) → Whole r → rig.now ≡ plain_rig r → result ≡ kept_record_in (record_or (record_in r.kept index)) }
{
    let Some(_) = rig.source() else {
        return PlainKeptRecord::own(Own::NotBegun);
    };
    PlainKeptRecord::of(rig.standing.record(index))
}

// Copies the kept state.
#[unsafe(no_mangle)]
pub extern "C" fn yatesorrel_rig_kept(rig: &PlainRig, state: &mut State) -> PlainTold
    ensures unbegun { Unbegun rig.now → (result ≡ own_told NotBegun) × (state.new ≡ state.old) }
    ensures copied { (r : Rig Source State) → Whole r → rig.now ≡ plain_rig r → (result ≡ told_in None) × (state.new ≡ r.kept) }
{
    let Some(_) = rig.source() else {
        return PlainTold::own(Own::NotBegun);
    };
    *state = rig.standing.kept;
    PlainTold::of(None)
}
