// How a command line is misused.
ghost use Rattle.std.specs.Prelude.{◌≡◌};

use std::alloc::AllocFailed;
use std::error::Error;
use std::fmt;

// The commands that take words, or are refused more.
#[derive(Clone, Copy, PartialEq, Eq, Debug)]
pub enum Verb {
    List,
    Certify,
    Place,
    Headroom,
    Run,
    Report,
    Help,
    Version,
}

// How a command is misused.
#[derive(Clone, Copy, PartialEq, Eq, Debug)]
pub enum Misuse {
    // too few words, or too many
    Words,
    // a word that should be a number
    Number,
    Option,
    // an option that may stand once
    Repeated,
    // a word that should name a supply
    Supply,
}

// Why a command line asks for nothing.
#[derive(Clone, Copy, PartialEq, Eq, Debug)]
pub enum CommandError {
    NoSuchCommand,
    Misused { verb: Verb, how: Misuse },
    OutOfMemory,
}

impl Verb {
    // The words that a command takes.
    fn usage(self) -> &'static str {
        match self {
            Verb::List => "list ROUND [--prices FILE]",
            Verb::Certify => "certify ROUND BUDGET [--prices FILE]",
            Verb::Place => "place ROUND BUDGET OUT [--prices FILE]",
            Verb::Headroom => "headroom ROUND [--prices FILE] [SUPPLY]",
            Verb::Run => "run ROUND TAPE SUPPLY [--prices FILE] [--cut N].. [--steps N]",
            Verb::Report => {
                "report ROUND TAPE SUPPLY OUT [--prices FILE] [--cut N].. [--steps N]"
            }
            Verb::Help => "help",
            Verb::Version => "--version",
        }
    }

    pub(crate) fn misused(self, how: Misuse) -> CommandError
        ensures { result ≡ CommandError.Misused self how }
    {
        CommandError::Misused { verb: self, how }
    }
}

impl Misuse {
    fn wrong(self) -> &'static str {
        match self {
            Misuse::Words => "wrong number of words",
            Misuse::Number => "not a number, 0 to 18446744073709551615",
            Misuse::Option => "no such option",
            Misuse::Repeated => "an option twice",
            Misuse::Supply => "a supply is mains, or capacitor:C,TOP,BOTTOM,UNIT",
        }
    }
}

impl fmt::Display for CommandError {
    fn fmt<W: fmt::Write>(&self, f: &mut fmt::Formatter<W>) -> fmt::Result {
        match *self {
            CommandError::NoSuchCommand => {
                write!(f, "there is no such command; try: yatesorrel help")
            }
            CommandError::Misused { verb, how } => {
                write!(f, "{}; usage: yatesorrel {}", how.wrong(), verb.usage())
            }
            CommandError::OutOfMemory => write!(f, "out of memory"),
        }
    }
}

impl Error for CommandError {}

impl<T: Drop> From<AllocFailed<T>> for CommandError {
    ghost use Rattle.inputs.specs.declared.misuse.CommandError.TheVariants.{OutOfMemory};

    ghost from_gives = { λ _ e. e ≡ OutOfMemory };

    fn from(_failed: AllocFailed<T>) -> CommandError {
        CommandError::OutOfMemory
    }
}
