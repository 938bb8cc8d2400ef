// Runs over ASCII grids.
use crate::trials::{FileOf, NOTHING, Row, first_harmless, first_wrong, is_number, none_wrong};
use std::test::*;

const GRID: &[u8] = b"ncols 2\nnrows\t2\nxllcenter 10\nyllcenter 20\ncellsize 2\n1\t-2\n30 4\n";

// A grid, one with a NODATA, one whose last value isn't whole, and others that are refused.
static FILES: [FileOf<'static>; 8] = [
    ("g.asc", GRID),
    (
        "d/n.GRD",
        b"NCOLS 1\r\nNROWS 1\r\nXLLCORNER 0\r\nYLLCORNER 0\r\nDX 1\r\nDY 2\r\nNODATA_value -9\r\n-9",
    ),
    (
        "h.asc",
        b"ncols 2\nnrows\t2\nxllcenter 10\nyllcenter 20\ncellsize 2\n1\t-2\n30 3.5\n",
    ),
    ("e.asc", b""),
    (
        "few.asc",
        b"ncols 2 nrows 2 xllcorner 0 yllcorner 0 cellsize 1 1 2 3",
    ),
    (
        "many.asc",
        b"ncols 2 nrows 2 xllcorner 0 yllcorner 0 cellsize 1 1 2 3 4 5",
    ),
    ("wide.asc", b"ncols 4194305"),
    ("key.asc", b"ncols 2 rows 2"),
];

const REPORT: &str = "Driver: AAIGrid
Files: g.asc
Size is 2, 2
Origin = (9.000000000000000,23.000000000000000)
Pixel Size = (2.000000000000000,-2.000000000000000)
Corner Coordinates:
Upper Left  (9.000000000, 23.000000000)
Lower Left  (9.000000000, 19.000000000)
Upper Right (13.000000000, 23.000000000)
Lower Right (13.000000000, 19.000000000)
Band 1 Block=2x1 Type=Int32
";

static GRIDS: [Row<'static>; 14] = [
    ("gdalinfo g.asc", 0, REPORT, ""),
    ("gdallocationinfo -valonly g.asc 0 0", 0, "1\n", ""),
    ("gdallocationinfo -valonly g.asc 1 0", 0, "-2\n", ""),
    ("gdallocationinfo -valonly g.asc 0 1", 0, "30\n", ""),
    ("gdallocationinfo -valonly g.asc 1 1", 0, "4\n", ""),
    ("gdallocationinfo -valonly g.asc 2 1", 0, "\n", ""),
    ("gdallocationinfo -valonly d/n.GRD 0 0 -b 1", 0, "-9\n", ""),
    (
        "gdallocationinfo -valonly -b 2 g.asc 0 0",
        1,
        "",
        "ERROR 5: no band 2\n",
    ),
    (
        "gdallocationinfo -valonly h.asc 0 0",
        1,
        "",
        "ERROR 4: h.asc: malformed grid (3) at 61\n",
    ),
    (
        "gdalinfo e.asc",
        1,
        "",
        "ERROR 4: e.asc: malformed grid (1)\n",
    ),
    (
        "gdalinfo few.asc",
        1,
        "",
        "ERROR 4: few.asc: malformed grid (4)\n",
    ),
    (
        "gdalinfo many.asc",
        1,
        "",
        "ERROR 4: many.asc: malformed grid (5) at 59\n",
    ),
    (
        "gdalinfo wide.asc",
        1,
        "",
        "ERROR 4: wide.asc: malformed grid (6)\n",
    ),
    (
        "gdalinfo key.asc",
        1,
        "",
        "ERROR 4: key.asc: malformed grid (2) at 8\n",
    ),
];

#[test]
fn grids(rt: HostRuntime) {
    none_wrong(&rt, first_wrong(&rt, rt.alloc(), &FILES, &GRIDS));
}

// Each call of the folder fails in turn: the grid is opened and scanned, and it is opened and its row is read again.
#[test]
fn failing_calls_of_a_grid(rt: HostRuntime) {
    let fed = ("gdallocationinfo -valonly g.asc 1 1", NOTHING);
    let call = first_harmless(&rt, rt.alloc(), &[("g.asc", GRID)], fed, "4\n");
    is_number(&rt, call, 5);
}
