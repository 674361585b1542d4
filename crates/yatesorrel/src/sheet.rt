// The command `report`: a page to look at.
use crate::files::write_whole;
use crate::rehearsal::warn;
use crate::trouble::Trouble;
use report::page::{Page, Subject};
use supply::source::Source;
use supply::supply::Supply;

// Writes the page of a round to a file.
pub fn write_report<'a>(
    rt: &HostRuntime,
    subject: Subject,
    source: Source,
    out: &'a str,
) -> Result<(), Trouble<'a>> {
    warn(rt, &subject.round, source.budget())?;
    let page = Page::new(subject, source);
    let text = format!(in rt.alloc(); "{page}")?;
    write_whole(rt, out, text.as_bytes())?;
    println!(rt; "wrote {out}")?;
    Ok(())
}
