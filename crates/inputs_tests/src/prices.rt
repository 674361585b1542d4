// Price lists that are right, and what is wrong with those that are not.
use inputs::prices::{PriceName, PricesError, read_prices};
use std::alloc::{AllocError, Global};
use std::test::Fail;

// A line for each opcode, each with its number as price, and what stands behind.
fn list(heap: Global, end: &str, behind: &str) -> Result<String, AllocError> {
    let mut text = String::new(heap);
    for opcode in 0..=255u8 {
        let line = format!(in heap; "{opcode:#04x} {opcode}{end}")?;
        text.push_str(line.as_str())?;
    }
    text.push_str(behind)?;
    Ok(text)
}

#[test]
fn right_lists(rt: HostRuntime) -> Result<(), Fail> {
    let cases = [
        ("\n", "save 65535"),
        ("\n", "# the last\n\nsave 65535\n"),
        ("\r\n", "\r\n  save\t 65535 \r\n"),
    ];
    for (end, behind) in cases {
        let text = list(rt.alloc(), end, behind)?;
        let prices = read_prices(text.as_str())?;
        assert_eq!(rt; prices[0], 0);
        assert_eq!(rt; prices[133], 133);
        assert_eq!(rt; prices[255], 255);
        assert_eq!(rt; prices[256], 65535);
    }
    Ok(())
}

#[test]
fn lists_that_end_wrong(rt: HostRuntime) -> Result<(), Fail> {
    let cases = [
        ("", PricesError::Missing(PriceName::Save)),
        ("save 1\nsave 1", PricesError::Line(258)),
        ("save 65536", PricesError::Line(257)),
        ("# a comment\nsave", PricesError::Line(258)),
        ("save 1 # a comment", PricesError::Line(257)),
        ("save 1\n\n0x85 1", PricesError::Line(259)),
    ];
    for (behind, wrong) in cases {
        let text = list(rt.alloc(), "\n", behind)?;
        assert_eq!(rt; read_prices(text.as_str()), Err(wrong), "{behind}");
    }
    Ok(())
}

#[test]
fn short_lists(rt: HostRuntime) {
    let cases = [
        ("", PricesError::Missing(PriceName::Opcode(0))),
        (
            "0x00 1\nsave 2\n0x02 3",
            PricesError::Missing(PriceName::Opcode(1)),
        ),
        ("0x85 1\n0x085 1", PricesError::Line(2)),
        ("0x100 1", PricesError::Line(1)),
        ("0X00 1", PricesError::Line(1)),
        ("00 1", PricesError::Line(1)),
        ("0x 1", PricesError::Line(1)),
        ("0x0g 1", PricesError::Line(1)),
        ("Save 1", PricesError::Line(1)),
        ("0x00 -1", PricesError::Line(1)),
        ("0x00\u{a0}1\n0x01", PricesError::Line(2)),
    ];
    for (text, wrong) in cases {
        assert_eq!(rt; read_prices(text), Err(wrong), "{text}");
    }
}
