// Which types and which NODATA the formats hold.
use crate::plans::{Row, all_hold};
use std::test::*;

// Types and NODATA that are asked for.
const NUMBERS: [Row<'static>; 30] = [
    (
        "cell",
        "o.dt0 type Int16",
        "121 121 of 0 0 121 121: 0 Int16 -32767",
    ),
    ("cell", "o.dt0 type Byte", "Unfit"),
    ("tile", "N00E000.hgt type Int32", "Unfit"),
    ("cell", "o.dt0 nodata none", "Unfit"),
    ("cell", "o.dt0 nodata -32768", "Unfit"),
    (
        "cell",
        "o.dt0 nodata -32767",
        "121 121 of 0 0 121 121: 0 Int16 -32767",
    ),
    ("tile", "N00E000.hgt nodata none", "Unfit"),
    ("tile", "N00E000.hgt nodata -32767", "Unfit"),
    (
        "tile",
        "N00E000.hgt nodata -32768",
        "1201 1201 of 0 0 1201 1201: 0 Int16 -32768",
    ),
    ("wide", "o.asc", "Unfit"),
    ("wide", "o.asc type Int32", "5 1 of 0 0 5 1: 0 Int32 -"),
    ("five", "o.asc type UInt32", "Unfit"),
    ("wide", "o.bil", "5 1 of 0 0 5 1: 0 UInt32 4294967295"),
    ("five", "o.bil nodata 256", "Unfit"),
    ("five", "o.bil nodata 255", "5 1 of 0 0 5 1: 0 Byte 255"),
    ("five", "o.bil nodata -1", "Unfit"),
    (
        "five",
        "o.bil nodata -1 type Int16",
        "5 1 of 0 0 5 1: 0 Int16 -1",
    ),
    ("five", "o.bil nodata 9223372036854775807", "Unfit"),
    (
        "five",
        "o.bil nodata 9223372036854775807 type Int64",
        "5 1 of 0 0 5 1: 0 Int64 9223372036854775807",
    ),
    (
        "five",
        "o.bil nodata 9223372036854775808 type Int64",
        "Unfit",
    ),
    (
        "five",
        "o.bil nodata -9223372036854775808 type Int64",
        "5 1 of 0 0 5 1: 0 Int64 -9223372036854775808",
    ),
    (
        "five",
        "o.bil nodata 18446744073709551615 type UInt64",
        "5 1 of 0 0 5 1: 0 UInt64 18446744073709551615",
    ),
    ("five", "o.bil nodata -1 type UInt64", "Unfit"),
    (
        "five",
        "o.bil nodata -128 type Int8",
        "5 1 of 0 0 5 1: 0 Int8 -128",
    ),
    ("five", "o.bil nodata 128 type Int8", "Unfit"),
    ("five", "o.asc type UInt64", "Unfit"),
    ("five", "o.asc type Int64", "Unfit"),
    ("five", "o.asc type Int8", "5 1 of 0 0 5 1: 0 Int8 -"),
    ("three", "o.vrt nodata 300", "Unfit"),
    (
        "three",
        "o.vrt nodata 200",
        "5 1 of 0 0 5 1: 0 Byte 200 1 Int16 200 2 UInt16 200",
    ),
];

#[test]
fn plans_numbers_that_formats_hold(rt: HostRuntime) {
    all_hold(&rt, rt.alloc(), &NUMBERS);
}
