// Words that name a supply, and words that name none.
use inputs::supply::{SupplyWord, read_supply};

#[test]
fn supply_words(rt: HostRuntime) {
    let sixteen = SupplyWord::Capacitor {
        microfarads: 16,
        top: 3000,
        bottom: 2000,
        unit: 1000000,
    };
    let cases = [
        ("mains", Some(SupplyWord::Mains)),
        ("capacitor:16,3000,2000,1000000", Some(sixteen)),
        ("capacitor:+16,03000,2000,1000000", Some(sixteen)),
        ("", None),
        ("Mains", None),
        ("mains ", None),
        ("capacitor", None),
        ("capacitor:", None),
        ("capacitor:16,3000,2000", None),
        ("capacitor:16,3000,2000,", None),
        ("capacitor:16,3000,2000,1000000,", None),
        ("capacitor:16,3000,2000,1000000,1", None),
        ("capacitor:16, 3000,2000,1000000", None),
        ("capacitor:4294967296,3000,2000,1000000", None),
        ("capacitor:16,3000,-1,1000000", None),
        ("capacitors:16,3000,2000,1000000", None),
    ];
    for (word, supply) in cases {
        assert_eq!(rt; read_supply(word), supply, "{word}");
    }
}
