// The columns of the charge picture, however long the run.
ghost use Rattle.std.specs.Prelude.{◌≡◌, ◌+◌, ◌*◌, ◌<◌, ◌≤◌, true, false, max, [], ◌∷◌, ◌++◌, List, length};
ghost use Rattle.std.specs.Option.{option_to_list};
ghost use Rattle.arrayvec.specs.ArrayVec.{array_vec_len};
ghost use Rattle.survey.specs.declared.moment.Moment.{Moment};
ghost use Rattle.survey.specs.Column.{Gathers};
ghost use Rattle.survey.specs.Columns.{most_columns, Shows, all_of, complete, halved, joined_on};

use crate::column::Column;
use crate::moment::Moment;
use arrayvec::ArrayVec;

// How many columns there are at most.
pub const MOST_COLUMNS: usize = 240;

// Columns of equally many moments each, but for the last, which may have fewer.
#[derive(Drop)]
pub struct Columns {
    list: ArrayVec<Column, 240>,
    ghost few: { array_vec_len list ≤ most_columns },
}

// The columns joined two by two.
fn halved(columns: &[Column]) -> ArrayVec<Column, 240>
    requires { length columns.now ≤ most_columns }
    ensures value { result.items ≡ halved columns.now }
    ensures fewer { array_vec_len result * 2 ≤ length columns.now + 1 }
{
    let mut list = ArrayVec::new();
    let mut rest = columns;
    while let [first, second, others @ ..] = rest {
        list.push(first.joined(*second));
        rest = others;
    }
    if let [only] = rest {
        list.push(*only);
    }
    list
}

impl Columns {
    pub fn new() -> Columns
        ensures { result.list.items ≡ [] }
    {
        Columns {
            list: ArrayVec::new(),
        }
    }

    pub fn as_slice(&self) -> &[Column]
        ensures { result.now ≡ self.now.list.items }
    {
        self.list.as_slice()
    }

    // Whether the last column has as many moments as the first.
    fn complete(&self) -> bool
        ensures { result ≡ complete self.now.list.items }
    {
        match (self.list.first(), self.list.last()) {
            (Some(first), Some(last)) => first.moments <= last.moments,
            _ => true,
        }
    }

    // Joins a column to the last.
    fn extend(&mut self, column: Column)
        ensures size { array_vec_len self.new.list ≡ max 1 (array_vec_len self.old.list) }
        ensures shows { (ms : List Moment) (m : Moment) → Gathers column (m ∷ []) → Shows self.old.list.items ms → Shows self.new.list.items (ms ++ m ∷ []) }
    {
        match self.list.pop() {
            Some(last) => self.list.push(last.joined(column)),
            None => self.list.push(column),
        }
    }

    // Joins the columns two by two where there is no room for another.
    fn make_room(&mut self)
        ensures room { array_vec_len self.new.list < most_columns }
        ensures kept { array_vec_len self.old.list < most_columns → self.new.list.items ≡ self.old.list.items }
        ensures shows { (ms : List Moment) → Shows self.old.list.items ms → Shows self.new.list.items ms }
    {
        if self.list.is_full() {
            self.list = halved(self.list.as_slice());
        }
    }

    // Adds a moment at the end: to the last column until that has as many as the
    // first, and then as a column of its own. Where there is no more room for columns,
    // each two become one.
    pub fn add(&mut self, moment: Moment)
        ensures few { array_vec_len self.new.list ≤ most_columns }
        ensures same { complete self.old.list.items ≡ false → array_vec_len self.new.list ≡ array_vec_len self.old.list }
        ensures more { complete self.old.list.items ≡ true → array_vec_len self.old.list < most_columns → array_vec_len self.new.list ≡ array_vec_len self.old.list + 1 }
        ensures shows { (ms : List Moment) → Shows self.old.list.items ms → Shows self.new.list.items (ms ++ moment ∷ []) }
    {
        let column = Column::of(moment);
        if self.complete() {
            self.make_room();
            self.list.push(column);
        } else {
            self.extend(column);
        }
    }

    // Adds a moment, where there is one.
    pub fn note(&mut self, moment: Option<Moment>)
        ensures { (ms : List Moment) → Shows self.old.list.items ms → Shows self.new.list.items (ms ++ option_to_list moment) }
    {
        match moment {
            Some(moment) => self.add(moment),
            None => (),
        }
    }
}

// A column joined with others, one after another.
fn joined_on(first: Column, others: &[Column]) -> Column
    ensures { result ≡ joined_on first others.now }
{
    let mut all = first;
    for column in others {
        all = all.joined(*column);
    }
    all
}

// The columns joined into one, which stands for all moments.
#[tactic(auto, using(crate::proofs::Showing::gathers_all))]
pub fn all_of(columns: &[Column]) -> Column
    ensures value { result ≡ all_of columns.now }
    ensures gathers { (m : Moment) (ms : List Moment) → Shows columns.now (m ∷ ms) → Gathers result (m ∷ ms) }
{
    match columns.split_first() {
        Some((first, others)) => joined_on(*first, others),
        None => Column::default(),
    }
}
