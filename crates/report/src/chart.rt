// The picture of a run's charge.
ghost use Rattle.std.specs.Prelude.{◌≡◌, ◌+◌, ◌≤◌, length, max};
ghost use Rattle.survey.specs.Columns.{all_of};
ghost use Rattle.survey.specs.Geometry.{left, width, edge_of};

use crate::words::{Grouped, plural};
use std::fmt;
use survey::column::Column;
use survey::columns::all_of;
use survey::geometry::{HEIGHT, LEFT, TOP, WIDTH, edge_of, height_of};

// The columns of a run, and the charge that a recharge assures.
#[derive(Clone, Copy)]
pub struct Chart<'a> {
    pub columns: &'a [Column],
    pub budget: u64,
}

// Where the lanes of marks lie.
const SAVES: u32 = 266;

const FALLS: u32 = 286;

const CUTS: u32 = 306;

impl Chart<'_> {
    // The charge at the top of the field.
    fn greatest(self) -> u64
        ensures { result ≡ max self.entry.budget (all_of self.entry.columns.now).most }
    {
        self.budget.max(all_of(self.columns).most)
    }

    fn edge(self, column: usize) -> u32
        ensures value { result ≡ edge_of column (length self.entry.columns.now) }
        ensures within { result ≤ left + width }
    {
        edge_of(column, self.columns.len())
    }

    // The outline of the charge: along the greatest of each column and back along
    // the least.
    fn outline<W: fmt::Write>(self, f: &mut fmt::Formatter<W>) -> fmt::Result {
        let greatest = self.greatest();
        write!(f, "<path class=\"charge\" d=\"M{LEFT},{}", TOP + HEIGHT)?;
        for (at, column) in self.columns.iter().enumerate() {
            write!(
                f,
                "V{}H{}",
                height_of(column.most, greatest),
                self.edge(at.saturating_add(1))
            )?;
        }
        for (at, column) in self.columns.iter().enumerate().rev() {
            write!(
                f,
                "V{}H{}",
                height_of(column.least, greatest),
                self.edge(at)
            )?;
        }
        write!(f, "Z\"/>\n")
    }

    // The frame of the field: its axes, the budget and the greatest charge.
    fn frame<W: fmt::Write>(self, f: &mut fmt::Formatter<W>) -> fmt::Result {
        let greatest = self.greatest();
        let full = height_of(self.budget, greatest);
        let bottom = TOP + HEIGHT;
        let right = LEFT + WIDTH;
        write!(
            f,
            "<path class=\"axis\" d=\"M{LEFT},{TOP}V{bottom}H{right}\"/>\n<path class=\"full\" d=\"M{LEFT},{full}H{right}\"/>\n"
        )?;
        write!(
            f,
            "<text x=\"100\" y=\"{}\" text-anchor=\"end\">{}</text>\n<text x=\"100\" y=\"{}\" text-anchor=\"end\">0</text>\n",
            full + 5,
            Grouped(self.budget),
            bottom + 5
        )?;
        if TOP + 16 < full {
            write!(
                f,
                "<text x=\"100\" y=\"{}\" text-anchor=\"end\">{}</text>\n",
                TOP + 5,
                Grouped(greatest)
            )?;
        }
        Ok(())
    }

    // The marks of one column.
    fn marks<W: fmt::Write>(
        self,
        f: &mut fmt::Formatter<W>,
        at: usize,
        column: Column,
    ) -> fmt::Result {
        let x = (self.edge(at) + self.edge(at.saturating_add(1))) / 2;
        if column.saves > 0 {
            write!(f, "<use href=\"#save\" x=\"{x}\" y=\"{SAVES}\"/>")?;
        }
        if column.falls > 0 {
            write!(f, "<use href=\"#fall\" x=\"{x}\" y=\"{FALLS}\"/>")?;
        }
        if column.cuts > 0 {
            write!(f, "<use href=\"#cut\" x=\"{x}\" y=\"{CUTS}\"/>")?;
        }
        Ok(())
    }

    // What a column shows, in words, where the pointer rests on it.
    fn words<W: fmt::Write>(
        self,
        f: &mut fmt::Formatter<W>,
        at: usize,
        column: Column,
        first: u64,
    ) -> fmt::Result {
        let left = self.edge(at);
        let right = self.edge(at.saturating_add(1));
        write!(
            f,
            "<rect class=\"hover\" x=\"{left}\" y=\"{TOP}\" width=\"{}\" height=\"300\"><title>",
            right.saturating_sub(left)
        )?;
        let last = first.saturating_add(column.moments).saturating_sub(1);
        write!(
            f,
            "calls {} to {}: charge {} to {}, ",
            Grouped(first),
            Grouped(last),
            Grouped(column.least),
            Grouped(column.most)
        )?;
        write!(f, "{}</title></rect>\n", Counts(column))
    }

    // The picture in words.
    fn description<W: fmt::Write>(self, f: &mut fmt::Formatter<W>) -> fmt::Result {
        let all = all_of(self.columns);
        write!(
            f,
            "The charge after each of {} calls that a rig made, from {} to {} units, ",
            Grouped(all.moments.saturating_sub(1)),
            Grouped(all.least),
            Grouped(all.most)
        )?;
        write!(
            f,
            "where a full charge assures {}: {}.",
            Grouped(self.budget),
            Counts(all)
        )
    }

    // The names of the lanes, and the span of the calls.
    fn labels<W: fmt::Write>(self, f: &mut fmt::Formatter<W>) -> fmt::Result {
        let all = all_of(self.columns);
        write!(
            f,
            "<text x=\"100\" y=\"{}\" text-anchor=\"end\">saves</text><text x=\"100\" y=\"{}\" text-anchor=\"end\">falls</text><text x=\"100\" y=\"{}\" text-anchor=\"end\">cuts</text>\n",
            SAVES + 5,
            FALLS + 5,
            CUTS + 5
        )?;
        write!(
            f,
            "<use href=\"#save\" x=\"46\" y=\"{SAVES}\"/><use href=\"#fall\" x=\"46\" y=\"{FALLS}\"/><use href=\"#cut\" x=\"46\" y=\"{CUTS}\"/>\n"
        )?;
        write!(
            f,
            "<text x=\"{LEFT}\" y=\"336\">begin</text><text x=\"{}\" y=\"336\" text-anchor=\"end\">call {}</text>\n",
            LEFT + WIDTH,
            Grouped(all.moments.saturating_sub(1))
        )
    }
}

// How many of each kind that is marked a column has.
#[derive(Clone, Copy)]
struct Counts(Column);

impl fmt::Display for Counts {
    fn fmt<W: fmt::Write>(&self, f: &mut fmt::Formatter<W>) -> fmt::Result {
        let Column {
            saves,
            falls,
            cuts,
            ..
        } = self.0;
        write!(f, "{} {}, ", Grouped(saves), plural(saves, "save", "saves"))?;
        write!(f, "{} {}, ", Grouped(falls), plural(falls, "fall", "falls"))?;
        write!(f, "{} {}", Grouped(cuts), plural(cuts, "cut", "cuts"))
    }
}

// The shapes of the marks.
const SHAPES: &str =
    "<defs><path id=\"save\" class=\"save\" d=\"M0,-7L6,0L0,7L-6,0Z\"/><path id=\"fall\" class=\"fall\" d=\"M-6,-6H6L0,7Z\"/><path id=\"cut\" class=\"cut\" d=\"M-5,-5L5,5M5,-5L-5,5\"/></defs>\n";

impl fmt::Display for Chart<'_> {
    fn fmt<W: fmt::Write>(&self, f: &mut fmt::Formatter<W>) -> fmt::Result {
        write!(
            f,
            "<div class=\"wide\"><svg class=\"run\" role=\"img\" aria-labelledby=\"run-name run-words\" viewBox=\"0 0 1000 345\"><title id=\"run-name\">The charge over the run</title><desc id=\"run-words\">"
        )?;
        self.description(f)?;
        write!(f, "</desc>\n{SHAPES}")?;
        self.outline(f)?;
        self.frame(f)?;
        self.labels(f)?;
        let mut first = 0u64;
        for (at, column) in self.columns.iter().enumerate() {
            self.marks(f, at, *column)?;
            self.words(f, at, *column, first)?;
            first = first.saturating_add(column.moments);
        }
        write!(f, "</svg></div>\n")
    }
}
