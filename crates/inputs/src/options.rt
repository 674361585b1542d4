// The options behind a command's words, and the numbers and supplies among them.
ghost use Rattle.std.specs.Prelude.{◌≡◌, ◌≢◌};
ghost use Rattle.std.specs.Option.{option_copied};
ghost use Rattle.inputs.specs.Misuse.{Told};
ghost use Rattle.inputs.specs.Options.{texts, number_in, supply_in, prices_in, first, chosen, chosen_with, chosen_in};

use crate::misuse::{CommandError, Misuse, Verb};
use crate::number::u64_of;
use crate::supply::{SupplyWord, read_supply};
use std::alloc::Global;

pub(crate) fn read_number(verb: Verb, word: &str) -> Result<u64, CommandError>
    ensures { result ≡ number_in verb word.now }
{
    u64_of(word).ok_or(verb.misused(Misuse::Number))
}

pub(crate) fn named_supply(verb: Verb, word: &str) -> Result<SupplyWord, CommandError>
    ensures { result ≡ supply_in verb word.now }
{
    read_supply(word).ok_or(verb.misused(Misuse::Supply))
}

// No more words, or a file of prices.
pub(crate) fn read_prices<'a>(
    verb: Verb,
    words: &'a [&'a str],
) -> Result<Option<&'a str>, CommandError>
    ensures told { Told option_copied (prices_in verb (texts words.now)) result }
    ensures never { result ≢ Err CommandError.OutOfMemory }
{
    match *words {
        [] => Ok(None),
        [option, file] => {
            if option == "--prices" {
                Ok(Some(file))
            } else {
                Err(verb.misused(Misuse::Option))
            }
        }
        _ => Err(verb.misused(Misuse::Words)),
    }
}

// A value for what has none so far.
fn first<T: Copy + Drop>(verb: Verb, given: Option<T>, value: T) -> Result<T, CommandError>
    ensures { result ≡ first verb given value }
{
    match given {
        None => Ok(value),
        Some(_) => Err(verb.misused(Misuse::Repeated)),
    }
}

// The options of a rehearsal so far.
#[derive(Drop)]
pub(crate) struct Options<'a> {
    pub(crate) prices: Option<&'a str>,
    pub(crate) cuts: Vec<u64>,
    pub(crate) steps: Option<u64>,
}

impl<'a> Options<'a> {
    // Takes an option and its value.
    fn take(&mut self, verb: Verb, option: &str, value: &'a str) -> Result<(), CommandError>
        ensures { Told (λ _. chosen self.new) (chosen_with verb (chosen self.old) option.now value.now) result }
    {
        match option {
            "--prices" => self.prices = Some(first(verb, self.prices, value)?),
            "--cut" => self.cuts.push(read_number(verb, value)?)?,
            "--steps" => self.steps = Some(first(verb, self.steps, read_number(verb, value)?)?),
            _ => return Err(verb.misused(Misuse::Option)),
        }
        Ok(())
    }
}

// The options that words make, two by two.
pub(crate) fn read_options<'a>(
    heap: Global,
    verb: Verb,
    words: &'a [&'a str],
) -> Result<Options<'a>, CommandError>
    ensures { Told chosen (chosen_in verb (texts words.now)) result }
{
    let mut options = Options {
        prices: None,
        cuts: Vec::new(heap),
        steps: None,
    };
    let mut rest = words;
    while let [option, value, more @ ..] = rest {
        options.take(verb, option, value)?;
        rest = more;
    }
    if rest.is_empty() {
        Ok(options)
    } else {
        Err(verb.misused(Misuse::Words))
    }
}
