// What is said of a wrong command line, a wrong price list and a wrong tape.
use inputs::command::{CommandError, Misuse, Verb};
use inputs::prices::{PriceName, PricesError};
use inputs::tape::TapeError;
use std::test::Fail;

const fn misused(verb: Verb, how: Misuse) -> CommandError {
    CommandError::Misused { verb, how }
}

#[test]
fn of_command_lines(rt: HostRuntime) -> Result<(), Fail> {
    let cases = [
        (
            CommandError::NoSuchCommand,
            "there is no such command; try: yatesorrel help",
        ),
        (
            misused(Verb::List, Misuse::Words),
            "wrong number of words; usage: yatesorrel list ROUND [--prices FILE]",
        ),
        (
            misused(Verb::Certify, Misuse::Number),
            "not a number, 0 to 18446744073709551615; usage: yatesorrel certify ROUND BUDGET [--prices FILE]",
        ),
        (
            misused(Verb::Place, Misuse::Option),
            "no such option; usage: yatesorrel place ROUND BUDGET OUT [--prices FILE]",
        ),
        (
            misused(Verb::Headroom, Misuse::Supply),
            "a supply is mains, or capacitor:C,TOP,BOTTOM,UNIT; usage: yatesorrel headroom ROUND [--prices FILE] [SUPPLY]",
        ),
        (
            misused(Verb::Run, Misuse::Repeated),
            "an option twice; usage: yatesorrel run ROUND TAPE SUPPLY [--prices FILE] [--cut N].. [--steps N]",
        ),
        (
            misused(Verb::Report, Misuse::Words),
            "wrong number of words; usage: yatesorrel report ROUND TAPE SUPPLY OUT [--prices FILE] [--cut N].. [--steps N]",
        ),
        (
            misused(Verb::Help, Misuse::Words),
            "wrong number of words; usage: yatesorrel help",
        ),
        (
            misused(Verb::Version, Misuse::Words),
            "wrong number of words; usage: yatesorrel --version",
        ),
        (CommandError::OutOfMemory, "out of memory"),
    ];
    for (error, words) in cases {
        let text = format!(in rt.alloc(); "{error}")?;
        assert_eq!(rt; text.as_str(), words);
    }
    Ok(())
}

#[test]
fn of_price_lists(rt: HostRuntime) -> Result<(), Fail> {
    let cases = [
        (
            PricesError::Line(3),
            "line 3: wanted an opcode or save, each once, and a price: 0x85 12",
        ),
        (
            PricesError::Missing(PriceName::Opcode(5)),
            "there is no price for 0x05",
        ),
        (
            PricesError::Missing(PriceName::Opcode(255)),
            "there is no price for 0xff",
        ),
        (
            PricesError::Missing(PriceName::Save),
            "there is no price for save",
        ),
    ];
    for (error, words) in cases {
        let text = format!(in rt.alloc(); "{error}")?;
        assert_eq!(rt; text.as_str(), words);
    }
    Ok(())
}

#[test]
fn of_tapes(rt: HostRuntime) -> Result<(), Fail> {
    let cases = [
        (TapeError::Line(2), "line 2: a reading is 0 to 4294967295"),
        (TapeError::OutOfMemory, "out of memory"),
    ];
    for (error, words) in cases {
        let text = format!(in rt.alloc(); "{error}")?;
        assert_eq!(rt; text.as_str(), words);
    }
    Ok(())
}
