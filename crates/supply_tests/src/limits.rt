// A capacitor's limits at their edges.
use supply::capacitor::Capacitor;

struct Case {
    microfarads: u32,
    top: u32,
    bottom: u32,
    unit: u32,
    // the number of the refusal
    refused: Option<u8>,
}

static CASES: [Case; 14] = [
    Case {
        microfarads: 1,
        top: 1,
        bottom: 0,
        unit: 1,
        refused: None,
    },
    Case {
        microfarads: 100_000,
        top: 10_000,
        bottom: 9_999,
        unit: 1_000_000,
        refused: None,
    },
    Case {
        microfarads: 0,
        top: 3_000,
        bottom: 2_000,
        unit: 1,
        refused: Some(13),
    },
    Case {
        microfarads: 100_001,
        top: 3_000,
        bottom: 2_000,
        unit: 1,
        refused: Some(13),
    },
    Case {
        microfarads: 1,
        top: 2_000,
        bottom: 1_999,
        unit: 1,
        refused: None,
    },
    Case {
        microfarads: 1,
        top: 2_000,
        bottom: 2_000,
        unit: 1,
        refused: Some(13),
    },
    Case {
        microfarads: 1,
        top: 2_000,
        bottom: 2_001,
        unit: 1,
        refused: Some(13),
    },
    Case {
        microfarads: 1,
        top: 0,
        bottom: 0,
        unit: 1,
        refused: Some(13),
    },
    Case {
        microfarads: 1,
        top: 10_001,
        bottom: 2_000,
        unit: 1,
        refused: Some(13),
    },
    Case {
        microfarads: 1,
        top: 3_000,
        bottom: 2_000,
        unit: 0,
        refused: Some(13),
    },
    Case {
        microfarads: 1,
        top: 3_000,
        bottom: 2_000,
        unit: 1_000_001,
        refused: Some(13),
    },
    Case {
        microfarads: 4_294_967_295,
        top: 4_294_967_295,
        bottom: 4_294_967_294,
        unit: 4_294_967_295,
        refused: Some(13),
    },
    Case {
        microfarads: 100_000,
        top: 10_000,
        bottom: 0,
        unit: 1,
        refused: None,
    },
    Case {
        microfarads: 0,
        top: 0,
        bottom: 0,
        unit: 0,
        refused: Some(13),
    },
];

fn refusal(case: &Case) -> Option<u8> {
    Capacitor::new(case.microfarads, case.top, case.bottom, case.unit)
        .err()
        .map(|refusal| refusal.number())
}

#[test]
fn edges(rt: HostRuntime) {
    for case in &CASES {
        assert_eq!(rt; refusal(case), case.refused);
    }
}
