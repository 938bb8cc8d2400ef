use crate::ends::{Asking, Failer, first_unasked};
use crate::trials::{
    FileOf, NOTHING, Part, Row, Trial, WRITING, first_failing, first_harmless, first_wrong,
    is_number, joined, none_wrong,
};
use outside::{Failing, Method};
use std::test::*;

const TWELVE: [u8; 12] = [1, 2, 3, 4, 5, 6, 7, 8, 9, 10, 11, 12];

// Two bands of 3 x 2 bytes in three layouts, a raster that is too short, one whose header is refused, one with a
// NODATA and no geotransform, and one of 16 bits.
static FILES: [FileOf<'static>; 14] = [
    ("a.bil", &TWELVE),
    ("a.hdr", b"NROWS 2\nNCOLS 3\nNBANDS 2\nLAYOUT BIL\n"),
    ("b.BIP", &TWELVE),
    ("b.HDR", b"NROWS 2\r\nNCOLS 3\r\nNBANDS 2\r\nLAYOUT BIP\r\n"),
    ("d/c.bsq", &TWELVE),
    ("d/c.hdr", b"NROWS 2\nNCOLS 3\nNBANDS 2\nLAYOUT BSQ\n"),
    ("s.bsq", &[10, 20, 30]),
    (
        "s.hdr",
        b"NROWS 2\nNCOLS 2\nNBANDS 1\nNBITS 8\nLAYOUT BSQ\nBYTEORDER I\n",
    ),
    ("m.bil", &TWELVE),
    ("m.hdr", b"NROWS 1\nNCOLS 1\nPIXELTYPE FLOAT\n"),
    ("n.bil", &[7, 9]),
    ("n.hdr", b"NROWS 1\nNCOLS 2\nNODATA 9\n"),
    ("w.bil", &[255, 254]),
    (
        "w.hdr",
        b"NROWS 1\nNCOLS 1\nNBITS 16\nBYTEORDER M\nPIXELTYPE SIGNEDINT\n",
    ),
];

fn files() -> &'static [FileOf<'static>] {
    &FILES
}

const REPORT: &str =
    "Driver: EHdr\nFiles: n.bil\n       n.hdr\nSize is 2, 1\nBand 1 Block=2x1 Type=Byte\n  NoData Value=9\n";

static VALUES: [Row<'static>; 9] = [
    ("gdallocationinfo -valonly a.bil 2 1", 0, "9\n12\n", ""),
    ("gdallocationinfo -valonly b.BIP 2 1", 0, "11\n12\n", ""),
    (
        "gdallocationinfo -valonly d/../d/c.bsq 2 1",
        0,
        "6\n12\n",
        "",
    ),
    (
        "gdallocationinfo a.bil -b 2 2.9 -valonly 1.5",
        0,
        "12\n",
        "",
    ),
    (
        "gdallocationinfo -valonly -b 2 -b 1 a.bil 0 0",
        0,
        "4\n1\n",
        "",
    ),
    ("gdallocationinfo -valonly a.bil 3 1", 0, "\n", ""),
    ("gdallocationinfo -valonly a.bil 2 -0.5", 0, "\n", ""),
    (
        "gdallocationinfo --config A B -valonly w.bil 0 0",
        0,
        "-2\n",
        "",
    ),
    ("gdalinfo n.bil", 0, REPORT, ""),
];

#[test]
fn values(rt: HostRuntime) {
    none_wrong(&rt, first_wrong(&rt, rt.alloc(), files(), &VALUES));
}

static REFUSALS: [Row<'static>; 16] = [
    ("", 1, "", "ERROR 1: word 0 doesn't fit\n"),
    ("gdalinfo", 1, "", "ERROR 1: word 1 doesn't fit\n"),
    (
        "gdalinfo a.bil b.bil",
        1,
        "",
        "ERROR 1: word 2 doesn't fit\n",
    ),
    (
        "gdalinfo --config A",
        1,
        "",
        "ERROR 1: word 3 doesn't fit\n",
    ),
    (
        "gdallocationinfo -valonly a.bil 1 0 7",
        1,
        "",
        "ERROR 1: word 5 doesn't fit\n",
    ),
    (
        "gdallocationinfo a.bil 1",
        1,
        "",
        "ERROR 1: word 3 doesn't fit\n",
    ),
    (
        "gdallocationinfo -lifonly a.bil -b x 1 0",
        1,
        "",
        "ERROR 1: word 4 doesn't fit\n",
    ),
    (
        "gdallocationinfo -lifonly -valonly -lifonly a.bil 1 0",
        1,
        "",
        "ERROR 1: word 3 doesn't fit\n",
    ),
    (
        "gdallocationinfo --blocks 65537 a.bil 1 0",
        1,
        "",
        "ERROR 1: word 2 doesn't fit\n",
    ),
    (
        "gdalinfo --blocks 0 a.bil",
        1,
        "",
        "ERROR 1: word 2 doesn't fit\n",
    ),
    (
        "gdallocationinfo --workers 17 a.bil 1 0",
        1,
        "",
        "ERROR 1: word 2 doesn't fit\n",
    ),
    (
        "gdalinfo none.bil",
        1,
        "",
        "ERROR 4: none.bil: no such file\n",
    ),
    (
        "gdalinfo a.tif",
        1,
        "",
        "ERROR 4: a.tif: not recognized as a supported format\n",
    ),
    (
        "gdallocationinfo -valonly s.bsq 1 0",
        1,
        "",
        "ERROR 4: s.bsq: needs 4 bytes, has 3\n",
    ),
    (
        "gdalinfo m.bil",
        1,
        "",
        "ERROR 4: m.hdr: malformed hdr (3)\n",
    ),
    (
        "gdallocationinfo -valonly a.bil -b 3 2 1",
        1,
        "",
        "ERROR 5: no band 3\n",
    ),
];

#[test]
fn refusals(rt: HostRuntime) {
    none_wrong(&rt, first_wrong(&rt, rt.alloc(), files(), &REFUSALS));
}

const LINE: &str = "gdallocationinfo -valonly a.bil 2 1";

// Each call of the folder fails in turn; nothing was printed then.
#[test]
fn failing_calls(rt: HostRuntime) {
    let call = first_harmless(&rt, rt.alloc(), files(), (LINE, NOTHING), "9\n12\n");
    is_number(&rt, call, 7);
}

static PUTS: [Trial<'static>; 1] = [(
    (LINE, NOTHING),
    (&[], &[], &[Failing::Of(Method::Put, 1)]),
    (2, "", WRITING),
)];

#[test]
fn a_failing_output(rt: HostRuntime) {
    none_wrong(&rt, first_failing(&rt, rt.alloc(), files(), &PUTS));
}

// The data and their header are opened and the header is read; then the data are opened again, and a line of each band
// is read. The values are put by one call, and no input is taken. A report opens the data and their header, reads the
// header alone, and is put by one call.
static ASKED: [Asking<'static>; 6] = [
    (
        ("gdalinfo n.bil", NOTHING),
        REPORT,
        Failer::Folder,
        3,
        (0, ""),
    ),
    (
        ("gdalinfo n.bil", NOTHING),
        REPORT,
        Failer::Output(0),
        1,
        (0, ""),
    ),
    ((LINE, NOTHING), "9\n12\n", Failer::Folder, 6, (0, "")),
    ((LINE, NOTHING), "9\n12\n", Failer::Output(0), 1, (0, "")),
    ((LINE, NOTHING), "9\n12\n", Failer::Output(2), 1, (0, "")),
    ((LINE, NOTHING), "9\n12\n", Failer::Input, 0, (0, "")),
];

// Each call fails in turn, until a run ends in which none did; the files stay, and no draft is left open.
#[test]
fn each_failing_call(rt: HostRuntime) {
    none_wrong(&rt, first_unasked(&rt, rt.alloc(), files(), &ASKED));
}

static WIDEST: [Row<'static>; 1] = [("gdallocationinfo -valonly w.bil 4194303 0", 0, "7\n", "")];

static SEVENS: [Part<'static>; 1] = [(&[7], 4_194_304)];

// The greatest width is read, to its last column.
#[test]
fn the_widest_raster(rt: HostRuntime) {
    let bytes = joined(&rt, rt.alloc(), &SEVENS);
    let files: [FileOf<'_>; 2] = [("w.hdr", b"NROWS 1\nNCOLS 4194304\n"), ("w.bil", &bytes)];
    none_wrong(&rt, first_wrong(&rt, rt.alloc(), &files, &WIDEST));
}
