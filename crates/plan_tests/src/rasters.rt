// Which rasters the formats hold.
use crate::plans::{Row, all_hold};
use std::test::*;

// Rasters by their geotransform and size, and the names of tiles.
const RASTERS: [Row<'static>; 33] = [
    ("westward", "o.bil", "Unfit"),
    ("northward", "o.bil", "Unfit"),
    ("westward", "o.asc", "Unfit"),
    ("northward", "o.asc", "Unfit"),
    ("westward", "o.vrt", "2 2 of 0 0 2 2: 0 Byte -"),
    ("northward", "o.vrt", "2 2 of 0 0 2 2: 0 Byte -"),
    ("small", "o.bil size 2 1", "2 1 of 0 0 1 1: 0 Byte -"),
    ("small", "o.bil size 4 1", "Unfit"),
    ("small", "o.bil size 1 4", "Unfit"),
    ("small", "o.asc size 4 1", "Unfit"),
    ("small", "o.asc size 2 1", "2 1 of 0 0 1 1: 0 Byte -"),
    ("small", "o.vrt size 4 1", "Limit"),
    ("east", "o.bil", "Unfit"),
    ("east", "o.asc", "1 1 of 0 0 1 1: 0 Byte -"),
    ("east", "o.vrt", "1 1 of 0 0 1 1: 0 Byte -"),
    ("north", "o.bil", "Unfit"),
    ("north", "o.asc", "1 1 of 0 0 1 1: 0 Byte -"),
    ("far", "o.bil", "1 1 of 0 0 1 1: 0 Byte -"),
    ("cell", "o.dt0", "121 121 of 0 0 121 121: 0 Int16 -32767"),
    ("cell", "o.dt1", "Unfit"),
    ("cell", "o.dt0 window 0 0 120 121", "Unfit"),
    ("cell", "o.dt0 size 120 121", "Unfit"),
    ("cell", "N00E000.hgt", "Unfit"),
    ("two", "o.dt0", "Unfit"),
    ("two", "N00E000.hgt", "Unfit"),
    ("two", "o.asc", "2 2 of 0 0 2 2: 0 Int32 -"),
    (
        "tile",
        "N00E000.hgt",
        "1201 1201 of 0 0 1201 1201: 0 Int16 -32768",
    ),
    (
        "tile",
        "n00e000.hgt",
        "1201 1201 of 0 0 1201 1201: 0 Int16 -32768",
    ),
    (
        "tile",
        "a/N00e000.hgt",
        "1201 1201 of 0 0 1201 1201: 0 Int16 -32768",
    ),
    ("tile", "N00E001.hgt", "Unfit"),
    ("tile", "N00E000x.hgt", "Unfit"),
    ("tile", "N00E000.hgt.hgt", "Unfit"),
    (
        "tile",
        "o.dt1",
        "1201 1201 of 0 0 1201 1201: 0 Int16 -32767",
    ),
];

#[test]
fn plans_rasters_that_formats_hold(rt: HostRuntime) {
    all_hold(&rt, rt.alloc(), &RASTERS);
}
