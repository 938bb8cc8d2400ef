// The bands of an output.
use crate::plans::{Row, all_hold};
use std::test::*;

// Types, NODATA and places of bands: Byte with 9, Int16 with -5, UInt16 with 9.
const BANDS: [Row<'static>; 14] = [
    (
        "three",
        "o.bil",
        "5 1 of 0 0 5 1: 0 Byte - 1 Byte - 2 Byte -",
    ),
    (
        "three",
        "o.bil bands 1,3",
        "5 1 of 0 0 5 1: 0 Byte 9 2 Byte 9",
    ),
    (
        "three",
        "o.bil bands 2,1",
        "5 1 of 0 0 5 1: 1 Int16 - 0 Int16 -",
    ),
    (
        "three",
        "o.bil bands 3,2",
        "5 1 of 0 0 5 1: 2 UInt16 - 1 UInt16 -",
    ),
    ("three", "o.bil bands 2", "5 1 of 0 0 5 1: 1 Int16 -5"),
    (
        "three",
        "o.bil bands 3,3",
        "5 1 of 0 0 5 1: 2 UInt16 9 2 UInt16 9",
    ),
    (
        "three",
        "o.bil nodata 7",
        "5 1 of 0 0 5 1: 0 Byte 7 1 Byte 7 2 Byte 7",
    ),
    (
        "three",
        "o.bil nodata none",
        "5 1 of 0 0 5 1: 0 Byte - 1 Byte - 2 Byte -",
    ),
    (
        "three",
        "o.bil bands 1,3 type Int16",
        "5 1 of 0 0 5 1: 0 Int16 9 2 Int16 9",
    ),
    (
        "three",
        "o.vrt",
        "5 1 of 0 0 5 1: 0 Byte 9 1 Int16 -5 2 UInt16 9",
    ),
    (
        "three",
        "o.vrt type UInt16",
        "5 1 of 0 0 5 1: 0 UInt16 9 1 UInt16 - 2 UInt16 9",
    ),
    (
        "three",
        "o.vrt bands 3,2 nodata none",
        "5 1 of 0 0 5 1: 2 UInt16 - 1 Int16 -",
    ),
    ("three", "o.asc bands 2", "5 1 of 0 0 5 1: 1 Int16 -5"),
    ("three", "o.bil bands 4", "NoBand 4"),
];

#[test]
fn plans_bands(rt: HostRuntime) {
    all_hold(&rt, rt.alloc(), &BANDS);
}
