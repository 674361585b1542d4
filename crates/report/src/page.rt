// The page: a round, what the certifier says of it, and its run on a supply.
ghost use Rattle.std.specs.Prelude.{◌≡◌};
ghost use Rattle.pricing.specs.Prices.{model_of};
ghost use Rattle.report.specs.Page.{leaves, SurveyOf};

use crate::bars::Regions;
use crate::chart::Chart;
use crate::escape::in_page;
use crate::head::{Asked, Verdict, Went};
use crate::log_table::LogTable;
use crate::slot_table::SlotTable;
use crate::style::{PATTERNS, STYLE};
use crate::walk_table::WalkTable;
use crate::words::Grouped;
use certifier::certify::Certifier;
use claims::call::Call;
use claims::round::Round;
use isa::lawful::lawful;
use isa::refusal::Refusal;
use paths::worth::Worth;
use pricing::prices::Prices;
use std::fmt;
use supply::supply::Supply;
use survey::survey::Survey;
use survey::trace::Trace;

// The largest budget that the certifier takes.
const MOST_BUDGET: u64 = 100_000_000;

// What a page is about.
#[derive(Clone, Copy)]
pub struct Subject<'a> {
    // the names of the round and of the supply: any text
    pub name: &'a str,
    pub supply: &'a str,
    pub round: Round<'a, Prices>,
    // the script that is rehearsed
    pub calls: &'a [Call],
}

#[derive(Drop)]
pub struct Page<'a> {
    subject: Subject<'a>,
    // the supply's, and the one at which the certifier judged
    assured: u64,
    budget: u64,
    answer: Result<(), Refusal>,
    // none where the image is not lawful
    survey: Option<Survey>,
    trace: Trace,
}

// Whether the certifier left worths with its answer.
fn leaves_worths(answer: Result<(), Refusal>) -> bool
    ensures { result ≡ leaves answer }
{
    matches!(answer, Ok(()) | Err(Refusal::OverBudget { .. }))
}

// What walks say of an image, where it is lawful.
fn survey_of(image: &[u8], model: &Prices, worths: Option<[Worth; 1024]>) -> Option<Survey>
    ensures { SurveyOf (model_of model.now) image.now worths result }
{
    lawful(image).ok()?;
    Some(Survey::new(image, model, worths))
}

impl<'a> Page<'a> {
    ghost use Rattle.std.specs.Prelude.{min};
    ghost use Rattle.certifier.specs.Certify.{certification};
    ghost use Rattle.report.specs.Page.{Known};
    ghost use Rattle.survey.specs.Trace.{Traced};

    // Certifies the round at the supply's budget, or at the largest that the
    // certifier takes, and rehearses the script on the supply.
    pub fn new<S: Supply + Drop>(subject: Subject<'a>, supply: S) -> Page<'a>
        ensures subject { result.subject ≡ subject.entry }
        ensures assured { result.assured ≡ (S.Supply.four supply).budget }
        ensures budget { result.budget ≡ min (S.Supply.four supply).budget 100000000 }
        ensures answer { result.answer ≡ certification (model_of subject.entry.round.model.now) subject.entry.round.image.now (min (S.Supply.four supply).budget 100000000) 1024 }
        ensures survey { Known (model_of subject.entry.round.model.now) subject.entry.round.image.now result.answer result.survey }
        ensures trace { Traced S.Supply model_of subject.entry.round supply subject.entry.calls.now result.trace }
    {
        let assured = supply.budget();
        let budget = assured.min(MOST_BUDGET);
        let Round { model, image, .. } = subject.round;
        let mut worths = [Worth::default(); 1024];
        let answer = Certifier { model, budget }.certify(image, &mut worths);
        let left = leaves_worths(answer).then_some(worths);
        Page {
            subject,
            assured,
            budget,
            answer,
            survey: survey_of(image, model, left),
            trace: Trace::of(supply, &subject.round, subject.calls),
        }
    }

    // What the certifier answered.
    pub fn verdict(&self) -> Result<(), Refusal>
        ensures { result ≡ self.now.answer }
    {
        self.answer
    }

    fn head<W: fmt::Write>(&self, f: &mut fmt::Formatter<W>) -> fmt::Result {
        let name = in_page(self.subject.name);
        write!(
            f,
            "<!DOCTYPE html>\n<html lang=\"en\">\n<head>\n<meta charset=\"utf-8\">\n<meta name=\"viewport\" content=\"width=device-width, initial-scale=1\">\n<meta name=\"color-scheme\" content=\"light dark\">\n<title>Round {name}</title>\n<style>\n{STYLE}</style>\n</head>\n<body>\n{PATTERNS}<main>\n<h1>Round <span>{name}</span></h1>\n"
        )
    }

    fn summary<W: fmt::Write>(&self, f: &mut fmt::Formatter<W>) -> fmt::Result {
        let Round { model, image, tape } = self.subject.round;
        write!(
            f,
            "{}",
            Verdict {
                budget: self.budget,
                answer: self.verdict(),
            }
        )?;
        write!(
            f,
            "<nav aria-label=\"Sections\"><ul><li><a href=\"#regions\">Regions</a></li><li><a href=\"#walk\">The dearest walk</a></li><li><a href=\"#run\">The run</a></li><li><a href=\"#log\">The log</a></li><li><a href=\"#slots\">The slots</a></li></ul></nav>\n<div class=\"wide\"><table><caption>What was asked, and how the run went</caption><tbody>\n"
        )?;
        write!(
            f,
            "{}{}</tbody></table></div>\n",
            Asked {
                supply: self.subject.supply,
                budget: self.assured,
                prices: model,
                bytes: image.len(),
                readings: tape.len(),
            },
            Went(&self.trace)
        )
    }

    fn regions<W: fmt::Write>(&self, f: &mut fmt::Formatter<W>) -> fmt::Result {
        write!(
            f,
            "<section id=\"regions\"><h2>Regions</h2>\n<p>A charge begins at a <em>start</em>: slot 0, or the slot after a save that the round can come to. The <em>region</em> of a start is the slots that walks from it come to, each walk up to its next save or EXIT. A bar is the price of the dearest walk from the start; the upright line is the budget, and what lies past it is hatched.</p>\n"
        )?;
        match &self.survey {
            Some(survey) => write!(
                f,
                "{}",
                Regions {
                    survey,
                    budget: self.budget,
                }
            )?,
            None => write!(f, "<p>The image is not lawful, so it has no walks.</p>\n")?,
        }
        write!(f, "</section>\n")
    }

    fn walk<W: fmt::Write>(&self, f: &mut fmt::Formatter<W>) -> fmt::Result {
        write!(f, "<section id=\"walk\"><h2>The dearest walk</h2>\n")?;
        match &self.survey {
            Some(survey) => self.walk_in(f, survey)?,
            None => write!(f, "<p>The image is not lawful, so it has no walks.</p>\n")?,
        }
        write!(f, "</section>\n")
    }

    fn walk_in<W: fmt::Write>(&self, f: &mut fmt::Formatter<W>, survey: &Survey) -> fmt::Result {
        let Some(start) = survey.dearest_start() else {
            return write!(
                f,
                "<p>The certifier left no prices of walks with its answer.</p>\n"
            );
        };
        write!(
            f,
            "<p>No walk costs more than this one, which costs {} of {}.</p>\n{}",
            Grouped(survey.dearest_price().unwrap_or(0)),
            Grouped(self.budget),
            WalkTable {
                image: self.subject.round.image,
                survey,
                start,
                budget: self.budget,
            }
        )
    }

    fn run<W: fmt::Write>(&self, f: &mut fmt::Formatter<W>) -> fmt::Result {
        write!(
            f,
            "<section id=\"run\"><h2>The run</h2>\n<p>The charge that the supply assures after each call, from the rig's beginning. The dashed line is a full charge. A diamond is a save, a triangle a fall back to the last save where the charge gave out, a cross a cut. Calls that share a column are shown by their least and their greatest charge, and marks of a kind by one.</p>\n{}</section>\n",
            Chart {
                columns: self.trace.columns.as_slice(),
                budget: self.assured,
            }
        )
    }

    fn slots<W: fmt::Write>(&self, f: &mut fmt::Formatter<W>) -> fmt::Result {
        write!(
            f,
            "<section id=\"slots\"><h2>The slots</h2>\n<p>The price is the most that the slot costs a walk, the worth the price of the dearest walk from it. A slot in several regions is shown in the one of the lowest start, with how many more there are.</p>\n{}</section>\n",
            SlotTable {
                image: self.subject.round.image,
                survey: self.survey.as_ref(),
                answer: self.verdict(),
            }
        )
    }
}

impl fmt::Display for Page<'_> {
    fn fmt<W: fmt::Write>(&self, f: &mut fmt::Formatter<W>) -> fmt::Result {
        self.head(f)?;
        self.summary(f)?;
        self.regions(f)?;
        self.walk(f)?;
        self.run(f)?;
        write!(
            f,
            "<section id=\"log\"><h2>The log</h2>\n{}</section>\n",
            LogTable(&self.trace.kept)
        )?;
        self.slots(f)?;
        write!(f, "</main>\n</body>\n</html>\n")
    }
}
