// Examples whose answers are known beforehand, each over files of its own.
use crate::trials::{FileOf, Part, Row, first_wrong, joined, none_wrong};
use std::alloc::Global;
use std::process::Abort;
use std::test::*;
use std::thread::Threads;

// Files, and the runs over them.
type Example<'a> = (&'a [FileOf<'a>], &'a [Row<'a>]);

// Two bytes that are one sample, as unsigned and as signed; a raster that lacks a byte; and headers that are refused.
static EXAMPLES: [Example<'static>; 5] = [
    (
        &[
            ("a.bil", &[255, 254]),
            ("a.hdr", b"NROWS 1\nNCOLS 1\nBYTEORDER M\nNBITS 16\n"),
        ],
        &[("gdallocationinfo -valonly a.bil 0 0", 0, "65534\n", "")],
    ),
    (
        &[
            ("a.bil", &[255, 254]),
            (
                "a.hdr",
                b"NROWS 1\nNCOLS 1\nBYTEORDER M\nNBITS 16\nPIXELTYPE SIGNEDINT\n",
            ),
        ],
        &[("gdallocationinfo -valonly a.bil 0 0", 0, "-2\n", "")],
    ),
    (
        &[
            ("a.bil", &[1, 2, 3, 4, 5, 6, 7, 8, 9, 10, 11]),
            ("a.hdr", b"NROWS 2\nNCOLS 3\nNBANDS 2\n"),
        ],
        &[(
            "gdallocationinfo -valonly a.bil 2 1",
            1,
            "",
            "ERROR 4: a.bil: needs 12 bytes, has 11\n",
        )],
    ),
    (
        &[("a.bil", b""), ("a.hdr", b"NROWS 1\nNCOLS 4194305\n")],
        &[(
            "gdalinfo a.bil",
            1,
            "",
            "ERROR 4: a.hdr: malformed hdr (4)\n",
        )],
    ),
    (
        &[("a.bil", b""), ("a.hdr", b"")],
        &[(
            "gdalinfo a.bil",
            1,
            "",
            "ERROR 4: a.hdr: malformed hdr (1)\n",
        )],
    ),
];

// The first of these examples of which a run says something else.
fn first_other<R: Threads + Sync + Abort>(
    rt: &R,
    alloc: Global,
    examples: &[Example<'_>],
) -> Option<usize> {
    for (at, (files, rows)) in examples.iter().enumerate() {
        if first_wrong(rt, alloc, files, rows).is_some() {
            return Some(at);
        }
    }
    None
}

#[test]
fn examples(rt: HostRuntime) {
    none_wrong(&rt, first_other(&rt, rt.alloc(), &EXAMPLES));
}

const HEADER: &[u8] = b"BYTEORDER      M
LAYOUT         BIL
NROWS          6000
NCOLS          4800
NBANDS         1
NBITS          16
BANDROWBYTES   9600
TOTALROWBYTES  9600
BANDGAPBYTES   0
NODATA         -9999
ULXMAP         -99.99583333333334
ULYMAP         89.99583333333334
XDIM           0.00833333333333
YDIM           0.00833333333333
";

const REPORT: &str = "Driver: EHdr
Files: w100n90.bil
       w100n90.hdr
Size is 4800, 6000
Origin = (-100.000000000000005,90.000000000000005)
Pixel Size = (0.008333333333330,-0.008333333333330)
Corner Coordinates:
Upper Left  (-100.000000000, 90.000000000)
Lower Left  (-100.000000000, 40.000000000)
Upper Right (-60.000000000, 90.000000000)
Lower Right (-60.000000000, 40.000000000)
Band 1 Block=4800x1 Type=Int16
  NoData Value=-9999
";

static LARGE: [Row<'static>; 1] = [("gdalinfo w100n90.bil", 0, REPORT, "")];

static ZEROS: [Part<'static>; 1] = [(&[0; 96], 600_000)];

// A sheet of a global model, by its header.
#[test]
fn a_large_raster(rt: HostRuntime) {
    let bytes = joined(&rt, rt.alloc(), &ZEROS);
    let files: [FileOf<'_>; 2] = [("w100n90.hdr", HEADER), ("w100n90.bil", &bytes)];
    none_wrong(&rt, first_wrong(&rt, rt.alloc(), &files, &LARGE));
}
