// The head of a page: what was asked, what the certifier answered, how the run went.
use crate::escape::in_page;
use crate::words::{Ended, Grouped, prices_words};
use isa::refusal::Refusal;
use pricing::prices::Prices;
use std::fmt;
use survey::trace::Trace;

// Whether a round is accepted at a budget, in words.
#[derive(Clone, Copy)]
pub struct Verdict {
    pub budget: u64,
    pub answer: Result<(), Refusal>,
}

impl fmt::Display for Verdict {
    fn fmt<W: fmt::Write>(&self, f: &mut fmt::Formatter<W>) -> fmt::Result {
        let budget = Grouped(self.budget);
        match self.answer {
            Ok(()) => write!(
                f,
                "<p class=\"verdict good\"><strong>Accepted</strong> at a budget of {budget}: every walk from a save to the next fits one full charge.</p>\n"
            ),
            Err(refusal) => write!(
                f,
                "<p class=\"verdict bad\"><strong>Refused</strong> at a budget of {budget} (refusal {}): {refusal}.</p>\n",
                refusal.number()
            ),
        }
    }
}

// What was asked, as rows of a table.
#[derive(Clone, Copy)]
pub struct Asked<'a> {
    pub supply: &'a str,
    pub budget: u64,
    pub prices: &'a Prices,
    pub bytes: usize,
    pub readings: usize,
}

impl fmt::Display for Asked<'_> {
    fn fmt<W: fmt::Write>(&self, f: &mut fmt::Formatter<W>) -> fmt::Result {
        write!(
            f,
            "<tr><th scope=\"row\">Supply</th><td>{}</td></tr>\n",
            in_page(self.supply)
        )?;
        write!(
            f,
            "<tr><th scope=\"row\">Its budget</th><td>{} units, which a full charge assures</td></tr>\n",
            Grouped(self.budget)
        )?;
        write!(
            f,
            "<tr><th scope=\"row\">Prices</th><td>{}</td></tr>\n",
            prices_words(self.prices)
        )?;
        write!(
            f,
            "<tr><th scope=\"row\">Image</th><td>{} bytes, {} slots</td></tr>\n<tr><th scope=\"row\">Tape</th><td>{} readings</td></tr>\n",
            Grouped(self.bytes as u64),
            Grouped((self.bytes / 8) as u64),
            Grouped(self.readings as u64)
        )
    }
}

// How the run went, as rows of a table.
#[derive(Clone, Copy)]
pub struct Went<'a>(pub &'a Trace);

impl fmt::Display for Went<'_> {
    fn fmt<W: fmt::Write>(&self, f: &mut fmt::Formatter<W>) -> fmt::Result {
        let trace = self.0;
        write!(
            f,
            "<tr><th scope=\"row\">The run ended</th><td>{}</td></tr>\n",
            Ended(trace.kept.ending())
        )?;
        write!(
            f,
            "<tr><th scope=\"row\">Charges begun</th><td>{}</td></tr>\n<tr><th scope=\"row\">Saves passed</th><td>{}</td></tr>\n",
            Grouped(trace.charges),
            Grouped(trace.saves as u64)
        )?;
        write!(
            f,
            "<tr><th scope=\"row\">Cuts</th><td>{}</td></tr>\n<tr><th scope=\"row\">Attempts</th><td>{}</td></tr>\n",
            Grouped(trace.cuts as u64),
            Grouped(trace.attempts as u64)
        )?;
        write!(
            f,
            "<tr><th scope=\"row\">Records in the log</th><td>{}</td></tr>\n",
            trace.kept.logged()
        )
    }
}
