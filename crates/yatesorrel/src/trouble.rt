// Why a command could not be done: what is told on standard error. Whole texts, of
// which `anyhow` would keep the front alone.
use inputs::command::CommandError;
use inputs::prices::PricesError;
use inputs::tape::TapeError;
use std::alloc::AllocError;
use std::{fmt, io};

#[derive(Drop)]
pub enum Trouble<'a> {
    Command(CommandError),
    Unreadable { file: &'a str, why: io::Error },
    Unwritable { file: &'a str, why: io::Error },
    Prices { file: &'a str, why: PricesError },
    Tape { file: &'a str, why: TapeError },
    // printing failed, or memory ran out
    Halted(io::Error),
}

impl fmt::Display for Trouble<'_> {
    fn fmt<W: fmt::Write>(&self, f: &mut fmt::Formatter<W>) -> fmt::Result {
        match self {
            Trouble::Command(wrong) => write!(f, "{wrong}"),
            Trouble::Unreadable { file, why } => write!(f, "cannot read {file}: {why}"),
            Trouble::Unwritable { file, why } => write!(f, "cannot write {file}: {why}"),
            Trouble::Prices { file, why } => write!(f, "{file}: {why}"),
            Trouble::Tape { file, why } => write!(f, "{file}: {why}"),
            Trouble::Halted(why) => write!(f, "{why}"),
        }
    }
}

impl From<CommandError> for Trouble<'_> {
    fn from(wrong: CommandError) -> Self {
        Trouble::Command(wrong)
    }
}

impl From<io::Error> for Trouble<'_> {
    fn from(why: io::Error) -> Self {
        Trouble::Halted(why)
    }
}

impl From<AllocError> for Trouble<'_> {
    fn from(why: AllocError) -> Self {
        Trouble::Halted(why.into())
    }
}
