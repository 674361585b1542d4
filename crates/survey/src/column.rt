// A column of the charge picture: moments that follow one another.
ghost use Rattle.std.specs.Prelude.{◌≡◌, [], ◌∷◌, ◌++◌, List, if◌then◌else◌};
ghost use Rattle.survey.specs.declared.moment.Moment.{Moment};
ghost use Rattle.survey.specs.Moment.{is_saved, is_fallen, is_cut};

use crate::moment::{Event, Moment};

// Its least and its greatest charge, and how many moments it has and how many of
// each kind that is marked. The counts stop at the largest number.
#[derive(Clone, Copy, Default, PartialEq, Eq, Debug)]
pub struct Column {
    pub moments: u64,
    pub least: u64,
    pub most: u64,
    pub saves: u64,
    pub falls: u64,
    pub cuts: u64,
}

fn once(happened: bool) -> u64
    ensures { result ≡ if happened then 1 else 0 }
{
    if happened { 1 } else { 0 }
}

fn is_saved(event: Event) -> bool
    ensures { result ≡ is_saved event }
{
    matches!(event, Event::Saved)
}

fn is_fallen(event: Event) -> bool
    ensures { result ≡ is_fallen event }
{
    matches!(event, Event::Fell)
}

fn is_cut(event: Event) -> bool
    ensures { result ≡ is_cut event }
{
    matches!(event, Event::Cut)
}

impl Column {
    ghost use Rattle.survey.specs.Column.{Gathers, joined};

    // The column of one moment.
    pub fn of(moment: Moment) -> Column
        ensures { Gathers result (moment ∷ []) }
    {
        Column {
            moments: 1,
            least: moment.charge,
            most: moment.charge,
            saves: once(is_saved(moment.event)),
            falls: once(is_fallen(moment.event)),
            cuts: once(is_cut(moment.event)),
        }
    }

    // The column of its own moments and those of the next.
    pub fn joined(self, next: Column) -> Column
        ensures value { result ≡ joined self next }
        ensures gathers { (xs ys : List Moment) → Gathers self xs → Gathers next ys → Gathers result (xs ++ ys) }
    {
        Column {
            moments: self.moments.saturating_add(next.moments),
            least: self.least.min(next.least),
            most: self.most.max(next.most),
            saves: self.saves.saturating_add(next.saves),
            falls: self.falls.saturating_add(next.falls),
            cuts: self.cuts.saturating_add(next.cuts),
        }
    }
}
