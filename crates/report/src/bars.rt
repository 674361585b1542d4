// The regions of a round, and their dearest prices as bars.
ghost use Rattle.std.specs.Prelude.{◌≡◌, ℕ, Option, max, unwrap_or};
ghost use Rattle.survey.specs.Survey.{DearestPrice};

use crate::words::Grouped;
use std::fmt;
use survey::bar::Bar;
use survey::regions::Region;
use survey::survey::Survey;

// A bar, and in words whether the price is paid.
#[derive(Clone, Copy)]
struct Drawn(Bar);

impl Drawn {
    fn words<W: fmt::Write>(self, f: &mut fmt::Formatter<W>) -> fmt::Result {
        let bar = self.0;
        if bar.budget < bar.price {
            write!(f, "over budget by {}", Grouped(bar.excess()))
        } else {
            write!(f, "fits, {} left", Grouped(bar.rest()))
        }
    }
}

impl fmt::Display for Drawn {
    fn fmt<W: fmt::Write>(&self, f: &mut fmt::Formatter<W>) -> fmt::Result {
        let bar = self.0;
        let room = bar.room();
        write!(
            f,
            "<svg class=\"bar\" role=\"img\" viewBox=\"-2 0 410 20\"><title>{} of {}: ",
            Grouped(bar.price),
            Grouped(bar.budget)
        )?;
        self.words(f)?;
        write!(
            f,
            "</title><rect class=\"room\" x=\"0\" y=\"4\" width=\"{room}\" height=\"12\"/><rect class=\"paid\" x=\"0\" y=\"4\" width=\"{}\" height=\"12\"/>",
            bar.paid()
        )?;
        if bar.unpaid() > 0 {
            write!(
                f,
                "<rect class=\"unpaid\" x=\"{room}\" y=\"4\" width=\"{}\" height=\"12\"/>",
                bar.unpaid()
            )?;
        }
        write!(
            f,
            "<path class=\"limit\" d=\"M{room},0V20\"/></svg><span class=\"fits\">"
        )?;
        self.words(f)?;
        write!(f, "</span>")
    }
}

// The regions as a table.
#[derive(Clone, Copy)]
pub struct Regions<'a> {
    pub survey: &'a Survey,
    pub budget: u64,
}

impl Regions<'_> {
    // What the longest bar stands for: no price is more.
    fn whole(self) -> u64
        ensures { (price : Option ℕ) × DearestPrice self.entry.survey.now.starts self.entry.survey.now.worths price × (result ≡ max self.entry.budget (unwrap_or price 0)) }
    {
        self.budget.max(self.survey.dearest_price().unwrap_or(0))
    }

    fn row<W: fmt::Write>(
        self,
        f: &mut fmt::Formatter<W>,
        region: Region,
        whole: u64,
    ) -> fmt::Result {
        let number = region.number;
        let tint = region.tint();
        write!(
            f,
            "<tr><th scope=\"row\" class=\"region t{tint}\">R{number}</th><td class=\"n\">{}</td><td class=\"n\">{}</td>",
            region.start,
            self.survey.size_of(region.start)
        )?;
        let Some(price) = self.survey.worth_at(region.start) else {
            return write!(
                f,
                "<td class=\"n\">none</td><td>the certifier left no price</td></tr>\n"
            );
        };
        write!(
            f,
            "<td class=\"n\">{}</td><td class=\"bars\">{}</td></tr>\n",
            Grouped(price),
            Drawn(Bar {
                price,
                budget: self.budget,
                whole,
            })
        )
    }
}

impl fmt::Display for Regions<'_> {
    fn fmt<W: fmt::Write>(&self, f: &mut fmt::Formatter<W>) -> fmt::Result {
        let whole = self.whole();
        write!(
            f,
            "<div class=\"wide\"><table><caption>Each region's dearest walk against the budget of {}</caption>\n<thead><tr><th scope=\"col\">Region</th><th scope=\"col\" class=\"n\">Starts at slot</th><th scope=\"col\" class=\"n\">Slots</th><th scope=\"col\" class=\"n\">Dearest price</th><th scope=\"col\">Against the budget</th></tr></thead>\n<tbody>\n",
            Grouped(self.budget)
        )?;
        for start in 0..1024u16 {
            if self.survey.is_start(start) {
                self.row(f, self.survey.region_of(start), whole)?;
            }
        }
        write!(f, "</tbody></table></div>\n")
    }
}
