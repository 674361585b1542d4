// The kept log as a table.
use crate::words::Grouped;
use machine::state::State;
use std::fmt;

#[derive(Clone, Copy)]
pub struct LogTable<'a>(pub &'a State);

impl fmt::Display for LogTable<'_> {
    fn fmt<W: fmt::Write>(&self, f: &mut fmt::Formatter<W>) -> fmt::Result {
        if self.0.logged() == 0 {
            return write!(f, "<p>The kept log is empty.</p>\n");
        }
        write!(
            f,
            "<div class=\"wide\"><table><caption>The records of the kept log</caption>\n<thead><tr><th scope=\"col\" class=\"n\">Index</th><th scope=\"col\" class=\"n\">Sensor</th><th scope=\"col\" class=\"n\">Value</th></tr></thead>\n<tbody>\n"
        )?;
        for index in 0..self.0.logged() {
            if let Some(record) = self.0.record(index) {
                write!(
                    f,
                    "<tr><th scope=\"row\" class=\"n\">{index}</th><td class=\"n\">{}</td><td class=\"n\">{}</td></tr>\n",
                    record.sensor,
                    Grouped(record.value)
                )?;
            }
        }
        write!(f, "</tbody></table></div>\n")
    }
}
