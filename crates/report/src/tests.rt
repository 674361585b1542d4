// Pages and their parts: hostile texts, and a small round.
use crate::escape::in_page;
use crate::page::{Page, Subject};
use crate::words::{Ended, Grouped};
use claims::call::Call;
use claims::round::Round;
use isa::refusal::Refusal;
use machine::ending::{Ending, Trap};
use pricing::prices::Prices;
use std::alloc::{AllocError, Global};
use supply::capacitor::Capacitor;
use supply::mains::Mains;
use supply::source::Source;
use supply::supply::Supply;

const HOSTILE: [(&str, &str); 6] = [
    ("", ""),
    ("piezometer_pair.bin", "piezometer_pair.bin"),
    ("<script>\"&'", "&lt;script&gt;&quot;&amp;&#39;"),
    ("&amp;&lt;", "&amp;amp;&amp;lt;"),
    ("</title><h1>", "&lt;/title&gt;&lt;h1&gt;"),
    ("Bohrloch \u{e4}\u{2603}>", "Bohrloch \u{e4}\u{2603}&gt;"),
];

#[test]
fn hostile_texts_are_harmless(rt: HostRuntime) -> Result<(), AllocError> {
    for (text, shown) in HOSTILE {
        let found = format!(in rt.alloc(); "{}", in_page(text))?;
        assert_eq!(rt; found.as_str(), shown);
    }
    Ok(())
}

// r1 = 7; next reading; save; record; EXIT.
const FIVE: &[u8; 40] = b"\
    \xb7\x01\x00\x00\x07\x00\x00\x00\
    \x85\x00\x00\x00\x02\x00\x00\x00\
    \x85\x00\x00\x00\x01\x00\x00\x00\
    \x85\x00\x00\x00\x03\x00\x00\x00\
    \x95\x00\x00\x00\x00\x00\x00\x00";

const MARKUP: &str = "<script>\"&'";

// The page of an image and eight steps on a supply.
fn page_on<S: Supply + Drop>(heap: Global, image: &[u8], supply: S) -> Result<String, AllocError> {
    let subject = Subject {
        name: MARKUP,
        supply: MARKUP,
        round: Round {
            model: &Prices::Operand,
            image,
            tape: &[5],
        },
        calls: &[Call::Step; 8],
    };
    let page = Page::new(subject, supply);
    format!(in heap; "{page}")
}

fn page_of(heap: Global, image: &[u8]) -> Result<String, AllocError> {
    page_on(heap, image, Mains::new())
}

// A supply of so many units.
fn units(budget: u32) -> Source {
    Capacitor::new(budget, 1_500, 500, 1_000_000).map_or(
        Source::Mains(Mains::new()),
        Source::Capacitor,
    )
}

fn times(text: &str, word: &str) -> usize {
    text.split(word).skip(1).count()
}

// Elements that a page opens, and that it has to close.
const PAIRS: [(&str, &str); 9] = [
    ("<table", "</table>"),
    ("<tr", "</tr>"),
    ("<td", "</td>"),
    ("<section", "</section>"),
    ("<svg", "</svg>"),
    ("<h2>", "</h2>"),
    ("<code>", "</code>"),
    ("<title", "</title>"),
    ("<text", "</text>"),
];

#[test]
fn a_small_round_has_its_rows(rt: HostRuntime) -> Result<(), AllocError> {
    let page = page_of(rt.alloc(), FIVE)?;
    let text = page.as_str();
    assert_eq!(rt; times(text, "<script"), 0);
    assert_eq!(rt; times(text, "&lt;script&gt;&quot;&amp;&#39;"), 3);
    assert_eq!(rt; times(text, "Accepted"), 1);
    assert_eq!(rt; times(text, "by EXIT"), 1);
    // the mains assure as much after each call
    assert_eq!(rt; times(text, "from 0 to"), 0);
    assert_eq!(rt; times(text, "r1 = 7"), 2);
    assert_eq!(rt; times(text, ", starts here"), 2);
    assert_eq!(rt; times(text, "<use href=\"#save\""), 2);
    assert_eq!(rt;
        times(text, "<td class=\"n\">7</td><td class=\"n\">0</td>"),
        1
    );
    for (open, close) in PAIRS {
        assert_eq!(rt; times(text, open), times(text, close));
    }
    Ok(())
}

#[test]
fn a_refused_image_has_its_page(rt: HostRuntime) -> Result<(), AllocError> {
    let mut image = *FIVE;
    image[8] = 0xff;
    let page = page_of(rt.alloc(), &image)?;
    let text = page.as_str();
    assert_eq!(rt; times(text, "slot 1 has no legal opcode"), 1);
    assert_eq!(rt; times(text, "refused here"), 1);
    assert_eq!(rt; times(text, "no legal instruction</em>"), 1);
    assert_eq!(rt; times(text, "The kept log is empty."), 1);
    for (open, close) in PAIRS {
        assert_eq!(rt; times(text, open), times(text, close));
    }
    Ok(())
}

#[test]
fn a_page_tells_the_verdict(rt: HostRuntime) {
    let subject = Subject {
        name: "",
        supply: "",
        round: Round {
            model: &Prices::Operand,
            image: &[],
            tape: &[],
        },
        calls: &[],
    };
    let verdict = Page::new(subject, Mains::new()).verdict();
    assert_eq!(rt;
        verdict.map_err(|refusal: Refusal| refusal.number()),
        Err(1)
    );
}

const NUMBERS: [(u64, &str); 6] = [
    (0, "0"),
    (999, "999"),
    (1_000, "1,000"),
    (1_000_999, "1,000,999"),
    (20_030_000, "20,030,000"),
    (u64::MAX, "18,446,744,073,709,551,615"),
];

#[test]
fn numbers_are_grouped(rt: HostRuntime) -> Result<(), AllocError> {
    for (number, shown) in NUMBERS {
        let found = format!(in rt.alloc(); "{}", Grouped(number))?;
        assert_eq!(rt; found.as_str(), shown);
    }
    Ok(())
}

const ENDINGS: [(Option<Ending>, &str); 6] = [
    (None, "not before the calls were all made"),
    (Some(Ending::Exit), "by EXIT"),
    (
        Some(Ending::Trap(Trap::BadSlot)),
        "by trap 1: no legal instruction where it stood",
    ),
    (
        Some(Ending::Trap(Trap::OutsideMemory)),
        "by trap 2: a load or a store outside memory",
    ),
    (
        Some(Ending::Trap(Trap::TapeFinished)),
        "by trap 3: a reading past the end of the tape",
    ),
    (
        Some(Ending::Trap(Trap::LogFull)),
        "by trap 4: a record past the end of the log",
    ),
];

#[test]
fn endings_have_words(rt: HostRuntime) -> Result<(), AllocError> {
    for (ending, shown) in ENDINGS {
        let found = format!(in rt.alloc(); "{}", Ended(ending))?;
        assert_eq!(rt; found.as_str(), shown);
    }
    Ok(())
}

// From slot 0 the five cost 2 + 91 + 148, and from slot 3 13 + 149; the run draws
// 2, 91, 20, 13 and 23.
#[test]
fn a_budget_that_just_suffices(rt: HostRuntime) -> Result<(), AllocError> {
    let page = page_on(rt.alloc(), FIVE, units(241))?;
    let text = page.as_str();
    assert_eq!(rt; times(text, "Accepted"), 1);
    assert_eq!(rt; times(text, "fits, 0 left"), 2);
    assert_eq!(rt; times(text, "fits, 79 left"), 2);
    assert_eq!(rt; times(text, "<strong>over</strong>"), 0);
    assert_eq!(rt; times(text, "class=\"unpaid\""), 0);
    assert_eq!(rt;
        times(
            text,
            "each of 5 calls that a rig made, from 92 to 241 units, where a full charge assures 241: 1 save, 0 falls, 0 cuts."
        ),
        1
    );
    assert_eq!(rt; times(text, "calls 3 to 3: charge 128 to 128, 1 save,"), 1);
    assert_eq!(rt; times(text, ">call 5</text>"), 1);
    Ok(())
}

#[test]
fn a_budget_that_is_one_too_small(rt: HostRuntime) -> Result<(), AllocError> {
    let page = page_on(rt.alloc(), FIVE, units(240))?;
    let text = page.as_str();
    assert_eq!(rt; times(text, "(refusal 10)"), 1);
    assert_eq!(rt; times(text, "over budget by 1<"), 2);
    assert_eq!(rt; times(text, "fits, 78 left"), 2);
    assert_eq!(rt; times(text, "<strong>over</strong>"), 1);
    assert_eq!(rt; times(text, "<tr class=\"over\">"), 1);
    assert_eq!(rt;
        times(text, "class=\"unpaid\" x=\"398\" y=\"4\" width=\"2\""),
        1
    );
    assert_eq!(rt; times(text, "which costs 241 of 240."), 1);
    assert_eq!(rt; times(text, "a walk from here is over budget"), 1);
    assert_eq!(rt;
        times(
            text,
            "t1\">R1</th><td class=\"n\">0</td><td class=\"n\">3</td>"
        ),
        1
    );
    assert_eq!(rt;
        times(
            text,
            "t2\">R2</th><td class=\"n\">3</td><td class=\"n\">2</td>"
        ),
        1
    );
    Ok(())
}

// A jump to itself.
const TURNING: &[u8; 8] = b"\x05\x00\xff\xff\x00\x00\x00\x00";

#[test]
fn a_loop_leaves_no_prices(rt: HostRuntime) -> Result<(), AllocError> {
    let page = page_of(rt.alloc(), TURNING)?;
    let text = page.as_str();
    assert_eq!(rt; times(text, "a walk comes here twice"), 1);
    assert_eq!(rt; times(text, "the certifier left no price<"), 1);
    assert_eq!(rt; times(text, "The certifier left no prices of walks"), 1);
    Ok(())
}
