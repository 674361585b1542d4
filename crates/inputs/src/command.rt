// The command line: what its words ask for.
ghost use Rattle.std.specs.Prelude.{◌≡◌, ◌≢◌, IsErrOf};
ghost use Rattle.std.specs.Option.{option_copied};
ghost use Rattle.inputs.specs.Misuse.{Told};
ghost use Rattle.inputs.specs.Options.{texts};
ghost use Rattle.inputs.specs.Command.{asked, rehearsing, rehearsal_in, supply_among, supply_if, list_of, certify_of, place_of, headroom_of, run_of, report_of, alone, command_of, Rehearses};

pub use crate::misuse::{CommandError, Misuse, Verb};
use crate::options::{named_supply, read_number, read_options, read_prices};
use crate::supply::SupplyWord;
use std::alloc::Global;

// The most steps that are asked; more are cut to it.
pub const MOST_STEPS: u64 = 1_000_000;

// What a command line asks for. Its words are borrowed.
#[derive(Drop)]
pub enum Command<'a> {
    // no word: the guided task
    Guide,
    List {
        round: &'a str,
        // none: the operand model, here and below
        prices: Option<&'a str>,
    },
    Certify {
        round: &'a str,
        budget: u64,
        prices: Option<&'a str>,
    },
    Place {
        round: &'a str,
        budget: u64,
        out: &'a str,
        prices: Option<&'a str>,
    },
    Headroom {
        round: &'a str,
        supply: Option<SupplyWord>,
        prices: Option<&'a str>,
    },
    Run(Rehearsal<'a>),
    Report {
        rehearsal: Rehearsal<'a>,
        out: &'a str,
    },
    Help,
    Version,
}

// A round, its tape and its supply, and how it is run.
#[derive(Drop)]
pub struct Rehearsal<'a> {
    pub round: &'a str,
    pub tape: &'a str,
    pub supply: SupplyWord,
    pub prices: Option<&'a str>,
    pub cuts: Vec<u64>,
    pub steps: u64,
}

fn read_rehearsal<'a>(
    heap: Global,
    verb: Verb,
    round: &'a str,
    tape: &'a str,
    supply_word: &str,
    words: &'a [&'a str],
) -> Result<Rehearsal<'a>, CommandError>
    ensures { Told rehearsing (rehearsal_in verb round.now tape.now supply_word.now (texts words.now)) result }
{
    let supply = named_supply(verb, supply_word)?;
    let options = read_options(heap, verb, words)?;
    Ok(Rehearsal {
        round,
        tape,
        supply,
        prices: options.prices,
        cuts: options.cuts,
        steps: options.steps.unwrap_or(MOST_STEPS).min(MOST_STEPS),
    })
}

fn read_list<'a>(words: &'a [&'a str]) -> Result<Command<'a>, CommandError>
    ensures told { Told asked (list_of (texts words.now)) result }
    ensures never { result ≢ Err CommandError.OutOfMemory }
{
    let [round, rest @ ..] = words else {
        return Err(Verb::List.misused(Misuse::Words));
    };
    let prices = read_prices(Verb::List, rest)?;
    Ok(Command::List { round, prices })
}

fn read_certify<'a>(words: &'a [&'a str]) -> Result<Command<'a>, CommandError>
    ensures told { Told asked (certify_of (texts words.now)) result }
    ensures never { result ≢ Err CommandError.OutOfMemory }
{
    let [round, budget, rest @ ..] = words else {
        return Err(Verb::Certify.misused(Misuse::Words));
    };
    let budget = read_number(Verb::Certify, budget)?;
    let prices = read_prices(Verb::Certify, rest)?;
    Ok(Command::Certify {
        round,
        budget,
        prices,
    })
}

fn read_place<'a>(words: &'a [&'a str]) -> Result<Command<'a>, CommandError>
    ensures told { Told asked (place_of (texts words.now)) result }
    ensures never { result ≢ Err CommandError.OutOfMemory }
{
    let [round, budget, out, rest @ ..] = words else {
        return Err(Verb::Place.misused(Misuse::Words));
    };
    let budget = read_number(Verb::Place, budget)?;
    let prices = read_prices(Verb::Place, rest)?;
    Ok(Command::Place {
        round,
        budget,
        out,
        prices,
    })
}

// The word of a supply, where one stands before an option or behind it, and the
// option's words.
fn supply_among<'a>(words: &'a [&'a str]) -> (Option<&'a str>, &'a [&'a str])
    ensures word { option_copied result.0 ≡ (supply_among (texts words.now)).0 }
    ensures rest { texts result.1.now ≡ (supply_among (texts words.now)).1 }
{
    match words {
        [word] => (Some(word), &words[1..]),
        [first, _, last] => {
            if *first == "--prices" {
                (Some(last), &words[..2])
            } else {
                (Some(first), &words[1..])
            }
        }
        _ => (None, words),
    }
}

fn supply_if(verb: Verb, word: Option<&str>) -> Result<Option<SupplyWord>, CommandError>
    ensures { result ≡ supply_if verb (option_copied word.entry) }
{
    match word {
        Some(word) => Ok(Some(named_supply(verb, word)?)),
        None => Ok(None),
    }
}

fn read_headroom<'a>(words: &'a [&'a str]) -> Result<Command<'a>, CommandError>
    ensures told { Told asked (headroom_of (texts words.now)) result }
    ensures never { result ≢ Err CommandError.OutOfMemory }
{
    let [round, rest @ ..] = words else {
        return Err(Verb::Headroom.misused(Misuse::Words));
    };
    let (word, options) = supply_among(rest);
    let supply = supply_if(Verb::Headroom, word)?;
    let prices = read_prices(Verb::Headroom, options)?;
    Ok(Command::Headroom {
        round,
        supply,
        prices,
    })
}

fn read_run<'a>(heap: Global, words: &'a [&'a str]) -> Result<Command<'a>, CommandError>
    ensures { Told asked (run_of (texts words.now)) result }
{
    let [round, tape, supply, rest @ ..] = words else {
        return Err(Verb::Run.misused(Misuse::Words));
    };
    let rehearsal = read_rehearsal(heap, Verb::Run, round, tape, supply, rest)?;
    Ok(Command::Run(rehearsal))
}

fn read_report<'a>(heap: Global, words: &'a [&'a str]) -> Result<Command<'a>, CommandError>
    ensures { Told asked (report_of (texts words.now)) result }
{
    let [round, tape, supply, out, rest @ ..] = words else {
        return Err(Verb::Report.misused(Misuse::Words));
    };
    let rehearsal = read_rehearsal(heap, Verb::Report, round, tape, supply, rest)?;
    Ok(Command::Report { rehearsal, out })
}

fn alone<'a>(verb: Verb, command: Command<'a>, words: &[&str]) -> Result<Command<'a>, CommandError>
    ensures told { Told asked (alone verb (asked command.entry) (texts words.now)) result }
    ensures never { result ≢ Err CommandError.OutOfMemory }
{
    if words.is_empty() {
        Ok(command)
    } else {
        Err(verb.misused(Misuse::Words))
    }
}

// What the words behind the program's name ask for, or what is wrong with them.
pub fn read_command<'a>(heap: Global, words: &'a [&'a str]) -> Result<Command<'a>, CommandError>
    ensures told { Told asked (command_of (texts words.now)) result }
    ensures memory { IsErrOf result CommandError.OutOfMemory → Rehearses (texts words.now) }
{
    let [name, rest @ ..] = words else {
        return Ok(Command::Guide);
    };
    match *name {
        "list" => read_list(rest),
        "certify" => read_certify(rest),
        "place" => read_place(rest),
        "headroom" => read_headroom(rest),
        "run" => read_run(heap, rest),
        "report" => read_report(heap, rest),
        "help" | "--help" => alone(Verb::Help, Command::Help, rest),
        "--version" => alone(Verb::Version, Command::Version, rest),
        _ => Err(CommandError::NoSuchCommand),
    }
}
