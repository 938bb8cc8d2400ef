// Windows between places, and which check refuses first.
use crate::plans::{Row, all_hold};
use std::test::*;

// Windows between places in a raster of ten columns and lines of one unit, whose upper left corner is (0, 10), and what
// more than one check refuses.
const PLACES: [Row<'static>; 28] = [
    ("ten", "o.bil places 2 8 5 6", "3 2 of 2 2 3 2: 0 Byte -"),
    (
        "ten",
        "o.bil places 1.9 8 4.9 6",
        "3 2 of 1 2 3 2: 0 Byte -",
    ),
    (
        "ten",
        "o.bil places 1.999 8.001 4.999 6.001",
        "3 2 of 2 2 3 2: 0 Byte -",
    ),
    (
        "ten",
        "o.bil places 1.9989 8.0011 4.9989 6.0011",
        "3 2 of 1 1 3 2: 0 Byte -",
    ),
    (
        "ten",
        "o.bil places 0 10 2.5 8.5",
        "3 2 of 0 0 3 2: 0 Byte -",
    ),
    (
        "ten",
        "o.bil places 0 10 2.4 8.6",
        "2 1 of 0 0 2 1: 0 Byte -",
    ),
    (
        "ten",
        "o.bil places -2 11 0 10",
        "2 1 of -2 -1 2 1: 0 Byte -",
    ),
    ("ten", "o.bil places 5 8 2 6", "EmptyWindow"),
    ("ten", "o.bil places 5 8 5.4 6", "EmptyWindow"),
    ("ten", "o.bil places 8388609 8 8388610 6", "Limit"),
    ("ten", "o.bil places 9 10 11 9 wholly", "Outside"),
    ("five", "o.bil places 0 0 1 1", "NoGeo"),
    ("five", "o.bil bands 1,2 places 0 0 1 1", "NoBand 2"),
    ("five", "o.bil bands 1,7,3 window 0 0 0 0", "NoBand 7"),
    ("five", "o.bil window 7 0 0 1 partly", "EmptyWindow"),
    ("five", "o.bil window 7 0 1 1 size 0 0 partly", "Outside"),
    ("pair", "o.dt0 size 0 0", "EmptyWindow"),
    ("pair", "o.dt0", "BandCount"),
    ("pair", "N00E000.hgt", "BandCount"),
    ("pair", "o.asc", "BandCount"),
    ("pair", "o.asc bands 2", "5 1 of 0 0 5 1: 1 Byte -"),
    ("five", "o.bil bands 257x1", "Limit"),
    ("five", "o.dt0 bands 257x1", "Limit"),
    ("five", "o.dt0 bands 256x1", "BandCount"),
    ("five", "o.dt0 type Byte", "NoGeo"),
    ("five", "N00E000.hgt nodata none", "NoGeo"),
    ("far", "o.bil window 1 0 1 1", "Limit"),
    ("far", "o.dt0 window 1 0 1 1", "Limit"),
];

#[test]
fn refuses_by_the_first_check(rt: HostRuntime) {
    all_hold(&rt, rt.alloc(), &PLACES);
}
