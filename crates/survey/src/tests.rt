// Edges of the picture, a long run, and the numbers of regions.
use crate::columns::Columns;
use crate::geometry::{edge_of, height_of, scaled};
use crate::moment::{Event, Moment};
use crate::regions::{Region, region_of};

#[test]
fn the_picture_has_edges(rt: HostRuntime) {
    assert_eq!(rt; scaled(0, 0, 400), 0);
    assert_eq!(rt; scaled(3, 2, 400), 400);
    assert_eq!(rt; scaled(u64::MAX, u64::MAX, u32::MAX), u32::MAX);
    assert_eq!(rt; scaled(1, 3, 100), 33);
    assert_eq!(rt; height_of(0, 400), 240);
    assert_eq!(rt; height_of(400, 400), 20);
    assert_eq!(rt; height_of(500, 400), 20);
    assert_eq!(rt; edge_of(0, 240), 110);
    assert_eq!(rt; edge_of(240, 240), 980);
}

// 1,001 moments: 240 columns are full at 240 and at 480 and at 960, so each has 8.
#[test]
fn a_long_run_has_few_columns(rt: HostRuntime) {
    let mut columns = Columns::new();
    for charge in 0..1_001u64 {
        let event = if charge == 500 {
            Event::Fell
        } else {
            Event::Drew
        };
        columns.add(Moment { charge, event });
    }
    let shown = columns.as_slice();
    assert_eq!(rt; shown.len(), 126);
    assert_eq!(rt; shown[0].moments, 8);
    assert_eq!(rt; shown[0].most, 7);
    assert_eq!(rt; shown[125].moments, 1);
    assert_eq!(rt; shown[125].least, 1_000);
    assert_eq!(rt; shown[62].falls, 1);
    assert_eq!(rt; shown.iter().map(|column| column.falls).max(), Some(1));
}

#[test]
fn regions_are_counted_by_their_starts(rt: HostRuntime) {
    let mut starts = [false; 1024];
    starts[0] = true;
    starts[9] = true;
    assert_eq!(rt;
        region_of(&starts, 0),
        Region {
            number: 1,
            start: 0
        }
    );
    assert_eq!(rt;
        region_of(&starts, 9),
        Region {
            number: 2,
            start: 9
        }
    );
    assert_eq!(rt; region_of(&starts, 9).tint(), 2);
    assert_eq!(rt;
        Region {
            number: 7,
            start: 9
        }
        .tint(),
        1
    );
}
