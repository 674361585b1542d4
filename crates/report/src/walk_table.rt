// The walk that costs most, slot by slot.
use crate::words::{Grouped, Shown};
use isa::image::instruction_at;
use std::fmt;
use std::iter::successors;
use survey::survey::{Row, Survey};

// The dearest walk of an image from a start, against a budget.
#[derive(Clone, Copy)]
pub struct WalkTable<'a> {
    pub image: &'a [u8],
    pub survey: &'a Survey,
    pub start: u16,
    pub budget: u64,
}

impl WalkTable<'_> {
    fn row<W: fmt::Write>(self, f: &mut fmt::Formatter<W>, row: Row) -> fmt::Result {
        let Row { slot, sum } = row;
        let over = self.budget < sum;
        write!(
            f,
            "<tr{}><th scope=\"row\" class=\"n\">{slot}</th><td>{}</td>",
            if over { " class=\"over\"" } else { "" },
            Shown(instruction_at(self.image, slot))
        )?;
        write!(
            f,
            "<td class=\"n\">{}</td><td class=\"n\">{}{}</td></tr>\n",
            Grouped(self.survey.price_at(slot)),
            Grouped(sum),
            if over { " <strong>over</strong>" } else { "" }
        )
    }
}

impl fmt::Display for WalkTable<'_> {
    fn fmt<W: fmt::Write>(&self, f: &mut fmt::Formatter<W>) -> fmt::Result {
        write!(
            f,
            "<div class=\"wide\"><table><caption>The dearest walk, from slot {}</caption>\n<thead><tr><th scope=\"col\" class=\"n\">Slot</th><th scope=\"col\">Instruction</th><th scope=\"col\" class=\"n\">Price</th><th scope=\"col\" class=\"n\">Running sum</th></tr></thead>\n<tbody>\n",
            self.start
        )?;
        let first = self.survey.first_row(self.start);
        for row in successors(Some(first), |row| self.survey.row_after(*row)).take(1024) {
            self.row(f, row)?;
        }
        write!(f, "</tbody></table></div>\n")
    }
}
