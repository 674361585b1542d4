// Yatesorrel checks a logger's reading round before it goes under grout.
#![tactic(auto)]

mod certify;
mod files;
mod guide;
mod help;
mod list;
mod margin;
mod place;
mod refusal;
mod rehearsal;
mod sheet;
mod slots;
mod source;
mod trouble;
mod verdict;
mod walk;

use certify::certify_round;
use claims::call::Call;
use claims::round::Round;
use files::{Priced, read_image, read_price_list, read_readings, read_round, write_whole};
use guide::guide;
use help::{HELP, VERSION};
use inputs::command::{Command, Rehearsal, read_command};
use inputs::supply::SupplyWord;
use isa::refusal::Refusal;
use list::list;
use margin::tell_headroom;
use place::{place_saves, print_placement};
use pricing::prices::Prices;
use refusal::print_refusal;
use rehearsal::{rehearse_round, script};
use report::page::Subject;
use sheet::write_report;
use source::{Spelled, source_of};
use std::process::ExitCode;
use std::{env, io};
use trouble::Trouble;
use verdict::Verdict;

type Answer<'a> = Result<Verdict, Trouble<'a>>;

#[inline(never)]
fn list_file<'a>(rt: &HostRuntime, round: &'a str, prices: Option<&'a str>) -> Answer<'a> {
    let priced = read_round(rt, round, prices)?;
    Ok(list(rt, priced.image.as_slice(), &priced.prices)?)
}

#[inline(never)]
fn certify_file<'a>(
    rt: &HostRuntime,
    round: &'a str,
    budget: u64,
    prices: Option<&'a str>,
) -> Answer<'a> {
    let priced = read_round(rt, round, prices)?;
    Ok(certify_round(rt, priced.image.as_slice(), &priced.at(budget))?)
}

// The image is written before anything is said of it.
#[inline(never)]
fn place_file<'a>(
    rt: &HostRuntime,
    round: &'a str,
    budget: u64,
    out: &'a str,
    prices: Option<&'a str>,
) -> Answer<'a> {
    let priced = read_round(rt, round, prices)?;
    let before = priced.image.as_slice();
    let mut image = priced.image.clone()?;
    let verdict = place_saves(image.as_mut_slice(), &priced.at(budget));
    if verdict.is_ok() {
        write_whole(rt, out, image.as_slice())?;
    }
    print_placement(rt, before, image.as_slice(), verdict)?;
    Ok(verdict)
}

#[inline(never)]
fn headroom_file<'a>(
    rt: &HostRuntime,
    round: &'a str,
    supply: Option<SupplyWord>,
    prices: Option<&'a str>,
) -> Answer<'a> {
    let priced = read_round(rt, round, prices)?;
    Ok(tell_headroom(rt, priced.image.as_slice(), &priced.prices, supply)?)
}

// A round that was read, its tape and the calls of its script.
#[derive(Drop)]
struct Staged {
    priced: Priced,
    tape: Vec<u32>,
    calls: Vec<Call>,
}

impl Staged {
    // The files are read in the order in which the command line names them, and the
    // first that is wrong is told.
    fn read<'a>(rt: &HostRuntime, rehearsal: &Rehearsal<'a>) -> Result<Staged, Trouble<'a>> {
        let image = read_image(rt, rehearsal.round)?;
        let tape = read_readings(rt, rehearsal.tape)?;
        let calls = script(rt.alloc(), rehearsal.steps, rehearsal.cuts.as_slice())?;
        let prices = read_price_list(rt, rehearsal.prices)?;
        Ok(Staged {
            priced: Priced { image, prices },
            tape,
            calls,
        })
    }

    fn round(&self) -> Round<'_, Prices> {
        Round {
            model: &self.priced.prices,
            image: self.priced.image.as_slice(),
            tape: self.tape.as_slice(),
        }
    }
}

fn refuse(rt: &HostRuntime, image: &[u8], refusal: Refusal) -> io::Result<Verdict> {
    print_refusal(rt, image, refusal)?;
    Ok(Err(refusal))
}

#[inline(never)]
fn run_file<'a>(rt: &HostRuntime, rehearsal: &Rehearsal<'a>) -> Answer<'a> {
    let staged = Staged::read(rt, rehearsal)?;
    let round = staged.round();
    match source_of(rehearsal.supply) {
        Ok(source) => rehearse_round(rt, source, &round, staged.calls.as_slice())?,
        Err(refusal) => return Ok(refuse(rt, round.image, refusal)?),
    }
    Ok(Ok(()))
}

#[inline(never)]
fn report_file<'a>(rt: &HostRuntime, rehearsal: &Rehearsal<'a>, out: &'a str) -> Answer<'a> {
    let staged = Staged::read(rt, rehearsal)?;
    let supply = format!(in rt.alloc(); "{}", Spelled(rehearsal.supply))?;
    let round = staged.round();
    let subject = Subject {
        name: rehearsal.round,
        supply: supply.as_str(),
        round,
        calls: staged.calls.as_slice(),
    };
    match source_of(rehearsal.supply) {
        Ok(source) => write_report(rt, subject, source, out)?,
        Err(refusal) => return Ok(refuse(rt, round.image, refusal)?),
    }
    Ok(Ok(()))
}

// Does what the words after the program's name ask for.
fn obey<'a>(rt: &HostRuntime, words: &'a [&'a str]) -> Answer<'a> {
    let verdict = match read_command(rt.alloc(), words)? {
        Command::Guide => Ok(guide(rt)?),
        Command::List { round, prices } => list_file(rt, round, prices)?,
        Command::Certify {
            round,
            budget,
            prices,
        } => certify_file(rt, round, budget, prices)?,
        Command::Place {
            round,
            budget,
            out,
            prices,
        } => place_file(rt, round, budget, out, prices)?,
        Command::Headroom {
            round,
            supply,
            prices,
        } => headroom_file(rt, round, supply, prices)?,
        Command::Run(rehearsal) => run_file(rt, &rehearsal)?,
        Command::Report { rehearsal, out } => report_file(rt, &rehearsal, out)?,
        Command::Help => Ok(println!(rt; "{HELP}")?),
        Command::Version => Ok(println!(rt; "{VERSION}")?),
    };
    Ok(verdict)
}

// Obeys, and says on standard error why nothing could be done. A refusal is a failure
// too.
fn tell(rt: &HostRuntime, words: &[&str]) -> io::Result<ExitCode> {
    match obey(rt, words) {
        Ok(Ok(())) => Ok(ExitCode::SUCCESS),
        Ok(Err(_)) => Ok(ExitCode::FAILURE),
        Err(trouble) => {
            eprintln!(rt; "yatesorrel: {trouble}")?;
            Ok(ExitCode::FAILURE)
        }
    }
}

fn run_words(rt: &HostRuntime) -> io::Result<ExitCode> {
    let given: Vec<String> = env::args(rt)?.skip(1).collect(rt.alloc())?;
    let words: Vec<&str> = given.iter().map(String::as_str).collect(rt.alloc())?;
    tell(rt, words.as_slice())
}

fn main(rt: HostRuntime) -> ExitCode {
    match run_words(&rt) {
        Ok(code) => code,
        Err(why) => {
            let _ = eprintln!(rt; "yatesorrel: {why}");
            ExitCode::FAILURE
        }
    }
}
