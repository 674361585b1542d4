// Command lines: what they ask for, and how they are misused.
use inputs::command::{Command, CommandError, MOST_STEPS, Misuse, Verb, read_command};
use inputs::supply::SupplyWord;
use std::alloc::Global;
use std::test::Fail;

// What is wrong with the words of a line.
fn wrong(heap: Global, line: &str) -> Result<Option<CommandError>, Fail> {
    let words: Vec<&str> = line.split_whitespace().collect(heap)?;
    Ok(read_command(heap, &words).err())
}

#[test]
fn lawful_lines(rt: HostRuntime) -> Result<(), Fail> {
    let lines = [
        "",
        "list r",
        "list r --prices p",
        "certify r 258",
        "certify --prices 18446744073709551615 --prices --prices",
        "place r +1 o --prices p",
        "headroom r",
        "headroom r mains",
        "headroom r --prices p",
        "headroom r --prices mains mains",
        "headroom r mains --prices p",
        "run r t mains",
        "run r t mains --steps 3 --cut 1 --prices p --cut 1",
        "report r t capacitor:1,2,3,4 o --cut 0",
        "help",
        "--help",
        "--version",
    ];
    for line in lines {
        assert_eq!(rt; wrong(rt.alloc(), line)?, None, "{line}");
    }
    Ok(())
}

const fn misused(verb: Verb, how: Misuse) -> CommandError {
    CommandError::Misused { verb, how }
}

#[test]
fn hostile_lines(rt: HostRuntime) -> Result<(), Fail> {
    let lines = [
        ("certified", CommandError::NoSuchCommand),
        ("List r", CommandError::NoSuchCommand),
        ("-h", CommandError::NoSuchCommand),
        ("list", misused(Verb::List, Misuse::Words)),
        ("list r s", misused(Verb::List, Misuse::Words)),
        ("list r --prices", misused(Verb::List, Misuse::Words)),
        ("list r --cut 1", misused(Verb::List, Misuse::Option)),
        ("certify r", misused(Verb::Certify, Misuse::Words)),
        ("certify r x", misused(Verb::Certify, Misuse::Number)),
        ("certify r -1", misused(Verb::Certify, Misuse::Number)),
        (
            "certify r 18446744073709551616",
            misused(Verb::Certify, Misuse::Number),
        ),
        (
            "certify r 1 --prices a --prices b",
            misused(Verb::Certify, Misuse::Words),
        ),
        ("place r 1", misused(Verb::Place, Misuse::Words)),
        (
            "place r 1 o --price p",
            misused(Verb::Place, Misuse::Option),
        ),
        ("headroom r main", misused(Verb::Headroom, Misuse::Supply)),
        (
            "headroom r --prices",
            misused(Verb::Headroom, Misuse::Supply),
        ),
        (
            "headroom r mains mains",
            misused(Verb::Headroom, Misuse::Option),
        ),
        (
            "headroom r --prices p --prices",
            misused(Verb::Headroom, Misuse::Supply),
        ),
        (
            "headroom r mains --prices p mains",
            misused(Verb::Headroom, Misuse::Words),
        ),
        ("run r t", misused(Verb::Run, Misuse::Words)),
        (
            "run r t capacitor:1,2,3",
            misused(Verb::Run, Misuse::Supply),
        ),
        ("run r t mains --cut", misused(Verb::Run, Misuse::Words)),
        (
            "run r t mains --cut one",
            misused(Verb::Run, Misuse::Number),
        ),
        (
            "run r t mains --steps 1 --steps 1",
            misused(Verb::Run, Misuse::Repeated),
        ),
        (
            "run r t mains --prices p --prices p",
            misused(Verb::Run, Misuse::Repeated),
        ),
        (
            "run r t mains --speed 1",
            misused(Verb::Run, Misuse::Option),
        ),
        ("report r t mains", misused(Verb::Report, Misuse::Words)),
        (
            "report r t mains o x y",
            misused(Verb::Report, Misuse::Option),
        ),
        ("help me", misused(Verb::Help, Misuse::Words)),
        ("--version --version", misused(Verb::Version, Misuse::Words)),
    ];
    for (line, error) in lines {
        assert_eq!(rt; wrong(rt.alloc(), line)?, Some(error), "{line}");
    }
    Ok(())
}

#[test]
fn a_rehearsal(rt: HostRuntime) -> Result<(), Fail> {
    let words = [
        "report", "r", "t", "mains", "o", "--cut", "7", "--steps", "2000000", "--cut", "3",
    ];
    let command = read_command(rt.alloc(), &words)?;
    let Command::Report { rehearsal, out } = command else {
        return Err(Fail::from("another command"));
    };
    assert_eq!(rt; out, "o");
    assert_eq!(rt; rehearsal.round, "r");
    assert_eq!(rt; rehearsal.tape, "t");
    assert_eq!(rt; rehearsal.supply, SupplyWord::Mains);
    assert_eq!(rt; rehearsal.prices, None);
    assert_eq!(rt; rehearsal.cuts.as_slice(), [7, 3].as_slice());
    assert_eq!(rt; rehearsal.steps, MOST_STEPS);
    Ok(())
}
