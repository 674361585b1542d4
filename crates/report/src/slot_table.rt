// The listing of an image, slot by slot.
use crate::words::{Grouped, Shown, role_words};
use isa::image::instruction_at;
use isa::refusal::Refusal;
use std::fmt;
use survey::remark::{Remark, remark_of};
use survey::survey::Survey;
use walks::image_graph::role_at;

#[derive(Clone, Copy)]
pub struct SlotTable<'a> {
    pub image: &'a [u8],
    // none where the image is not lawful
    pub survey: Option<&'a Survey>,
    pub answer: Result<(), Refusal>,
}

// The bytes of a slot.
#[derive(Clone, Copy)]
struct Bytes<'a>(&'a [u8]);

impl fmt::Display for Bytes<'_> {
    fn fmt<W: fmt::Write>(&self, f: &mut fmt::Formatter<W>) -> fmt::Result {
        for byte in self.0 {
            write!(f, "{byte:02x} ")?;
        }
        Ok(())
    }
}

fn remark_words(remark: Remark) -> &'static str {
    match remark {
        Remark::Twice => "a walk comes here twice",
        Remark::Dear => "a walk from here is over budget",
        Remark::Unlawful => "refused here",
    }
}

// The regions that a slot lies in, as a cell.
#[derive(Clone, Copy)]
struct RegionCell<'a> {
    survey: &'a Survey,
    slot: u16,
}

impl fmt::Display for RegionCell<'_> {
    fn fmt<W: fmt::Write>(&self, f: &mut fmt::Formatter<W>) -> fmt::Result {
        let membership = self.survey.membership(self.slot);
        let Some(start) = membership.lowest else {
            return write!(f, "<td class=\"region\">not reached</td>");
        };
        let region = self.survey.region_of(start);
        let tint = region.tint();
        write!(f, "<td class=\"region t{tint}\">R{}", region.number)?;
        if membership.count > 1 {
            write!(f, " and {} more", membership.count.saturating_sub(1))?;
        }
        if start == self.slot {
            write!(f, ", starts here")?;
        }
        write!(f, "</td>")
    }
}

impl SlotTable<'_> {
    // What a slot costs and is worth, and its region.
    fn cells<W: fmt::Write>(
        self,
        f: &mut fmt::Formatter<W>,
        survey: &Survey,
        slot: u16,
    ) -> fmt::Result {
        write!(f, "<td class=\"n\">{}</td>", Grouped(survey.price_at(slot)))?;
        match survey.worth_at(slot) {
            Some(worth) if survey.membership(slot).count > 0 => {
                write!(f, "<td class=\"n\">{}</td>", Grouped(worth))?;
            }
            _ => write!(f, "<td class=\"n\">none</td>")?,
        }
        write!(f, "{}</tr>\n", RegionCell { survey, slot })
    }

    fn row<W: fmt::Write>(self, f: &mut fmt::Formatter<W>, slot: u16, bytes: &[u8]) -> fmt::Result {
        write!(
            f,
            "<tr><th scope=\"row\" class=\"n\">{slot}</th><td><code>{}</code></td><td>{}",
            Bytes(bytes),
            Shown(instruction_at(self.image, slot))
        )?;
        if let Some(remark) = remark_of(self.answer, slot) {
            let words = remark_words(remark);
            write!(f, " <strong class=\"here\">{words}</strong>")?;
        }
        write!(f, "</td><td>{}</td>", role_words(role_at(self.image, slot)))?;
        match self.survey {
            Some(survey) => self.cells(f, survey, slot),
            None => write!(
                f,
                "<td class=\"n\">none</td><td class=\"n\">none</td><td class=\"region\">none</td></tr>\n"
            ),
        }
    }
}

impl fmt::Display for SlotTable<'_> {
    fn fmt<W: fmt::Write>(&self, f: &mut fmt::Formatter<W>) -> fmt::Result {
        write!(
            f,
            "<div class=\"wide\"><table class=\"slots\"><caption>The image, slot by slot</caption>\n<thead><tr><th scope=\"col\" class=\"n\">Slot</th><th scope=\"col\">Bytes</th><th scope=\"col\">Instruction</th><th scope=\"col\">Role</th><th scope=\"col\" class=\"n\">Price</th><th scope=\"col\" class=\"n\">Worth</th><th scope=\"col\">Region</th></tr></thead>\n<tbody>\n"
        )?;
        for (bytes, slot) in self.image.chunks_exact(8).zip(0..1024u16) {
            self.row(f, slot, bytes)?;
        }
        write!(f, "</tbody></table></div>\n")
    }
}
