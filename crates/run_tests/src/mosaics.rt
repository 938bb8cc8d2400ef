// Runs over mosaics.
use crate::trials::{
    FileOf, NOTHING, Part, Row, first_harmless, first_wrong, folder_of, is_number, joined,
    none_wrong, said_in,
};
use outside_fakes::TWO_TILES;
use std::alloc::Global;
use std::process::Abort;
use std::test::*;
use std::thread::Threads;

const WIDE_REPORT: &str = "Driver: VRT
Files: wide.vrt
       N00E000.hgt
       N00E001.hgt
Size is 2401, 1201
Origin = (-0.000416666666667,1.000416666666667)
Pixel Size = (0.000833333333333,-0.000833333333333)
Corner Coordinates:
Upper Left  (-0.000416667, 1.000416667)
Lower Left  (-0.000416667, -0.000416667)
Upper Right (2.000416667, 1.000416667)
Lower Right (2.000416667, -0.000416667)
Band 1 Block=128x128 Type=Int16
  NoData Value=-32768
";

// Mosaics whose sources aren't there, which nothing opens: one that names itself, two that are refused, and one whose
// band takes a kind that isn't read.
static FILES: [FileOf<'static>; 6] = [
    ("wide.vrt", TWO_TILES),
    (
        "m.vrt",
        b"<VRTDataset rasterXSize=\"1\" rasterYSize=\"1\"><Foo/></VRTDataset>",
    ),
    (
        "cut.vrt",
        b"<VRTDataset rasterXSize=\"1\" rasterYSize=\"1\">",
    ),
    (
        "itself.vrt",
        b"<VRTDataset rasterXSize='3' rasterYSize='1'><SRS/><VRTRasterBand><SimpleSource>\
        <SourceFilename>itself.vrt</SourceFilename></SimpleSource></VRTRasterBand></VRTDataset>",
    ),
    (
        "wide_less.VRT",
        b"<VRTDataset rasterYSize='1'><VRTRasterBand/></VRTDataset>",
    ),
    ("empty.vrt", b""),
];

static ROWS: [Row<'static>; 9] = [
    ("gdalinfo wide.vrt", 0, WIDE_REPORT, ""),
    (
        "gdalinfo itself.vrt",
        0,
        "Driver: VRT\nFiles: itself.vrt\n       itself.vrt\nSize is 3, 1\nCoordinate System is:\n\n\
        Band 1 Block=128x128 Type=Byte\n",
        "",
    ),
    (
        "gdalinfo m.vrt",
        1,
        "",
        "ERROR 4: m.vrt: malformed vrt (2) at 44\n",
    ),
    (
        "gdalinfo cut.vrt",
        1,
        "",
        "ERROR 4: cut.vrt: malformed vrt (1) at 44\n",
    ),
    (
        "gdalinfo empty.vrt",
        1,
        "",
        "ERROR 4: empty.vrt: malformed vrt (1) at 0\n",
    ),
    (
        "gdalinfo wide_less.VRT",
        1,
        "",
        "ERROR 4: wide_less.VRT: malformed vrt (3)\n",
    ),
    (
        "gdalinfo none.vrt",
        1,
        "",
        "ERROR 4: none.vrt: no such file\n",
    ),
    (
        "gdallocationinfo -valonly a.tif 0 0",
        1,
        "",
        "ERROR 4: a.tif: not recognized as a supported format\n",
    ),
    (
        "gdallocationinfo -valonly wide.vrt 0 0",
        1,
        "",
        "ERROR 4: N00E000.hgt: no such file\n",
    ),
];

#[test]
fn mosaics(rt: HostRuntime) {
    none_wrong(&rt, first_wrong(&rt, rt.alloc(), &FILES, &ROWS));
}

// A source whose name would be as many bytes long before it is normalised, and what is told.
type Long<'a> = (usize, &'a str);

static NAMES: [Long<'static>; 2] = [(4096, ""), (4097, "ERROR 6: limit of name passed (4097)\n")];

// A document whose source has a name of so many bytes, with the name of the folder and the slash that stand before it.
fn with_name<R: Abort>(rt: &R, alloc: Global, len: usize) -> Vec<u8> {
    let parts: [Part<'_>; 3] = [
        (
            b"<VRTDataset rasterXSize='1' rasterYSize='1'><VRTRasterBand><SimpleSource>\
            <SourceFilename relativeToVRT='1'>",
            1,
        ),
        (b"n", len.saturating_sub(2)),
        (
            b"</SourceFilename></SimpleSource></VRTRasterBand></VRTDataset>",
            1,
        ),
    ];
    joined(rt, alloc, &parts)
}

// Whether this is told of such a document.
fn tells_name<R: Threads + Sync + Abort>(rt: &R, alloc: Global, long: &Long<'_>) -> bool {
    let (len, err) = *long;
    let document = with_name(rt, alloc, len);
    let mut folder = folder_of(rt, alloc, &[("d/m.vrt", &document)], &[]);
    said_in(rt, alloc, &mut folder, "gdalinfo d/m.vrt").tells(err)
}

// The first of these names of which something else is told.
fn first_wrong_name<R: Threads + Sync + Abort>(
    rt: &R,
    alloc: Global,
    names: &[Long<'_>],
) -> Option<usize> {
    for (at, long) in names.iter().enumerate() {
        if !tells_name(rt, alloc, long) {
            return Some(at);
        }
    }
    None
}

#[test]
fn long_names(rt: HostRuntime) {
    none_wrong(&rt, first_wrong_name(&rt, rt.alloc(), &NAMES));
}

// Each call of the folder fails in turn: the document is opened and read, and nothing else is.
#[test]
fn failing_calls_of_a_mosaic(rt: HostRuntime) {
    let fed = ("gdalinfo wide.vrt", NOTHING);
    let call = first_harmless(&rt, rt.alloc(), &FILES, fed, WIDE_REPORT);
    is_number(&rt, call, 3);
}
