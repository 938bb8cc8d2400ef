// Translations: what they print, and the files that they make.
use crate::stories::{Story, first_astray, first_unrefused};
use crate::trials::{FileOf, Row, none_wrong};
use std::test::*;

// A line of five pixels; two rasters of three numbers, and mosaics of them in one another; two bands; a raster that has
// a place; numbers below 0 and above 255; and a grid.
static FILES: [FileOf<'static>; 16] = [
    ("five.bil", &[1, 2, 3, 4, 5]),
    ("five.hdr", b"NROWS 1\nNCOLS 5\n"),
    ("a.bil", &[5, 0, 0, 0, 7, 0]),
    (
        "a.hdr",
        b"NROWS 1\nNCOLS 3\nNBITS 16\nPIXELTYPE SIGNEDINT\n",
    ),
    ("b.bil", &[0, 0, 0, 0, 9, 0]),
    (
        "b.hdr",
        b"NROWS 1\nNCOLS 3\nNBITS 16\nPIXELTYPE SIGNEDINT\n",
    ),
    (
        "m.vrt",
        b"<VRTDataset rasterXSize='3' rasterYSize='1'><VRTRasterBand dataType='Int16'><NoDataValue>-1</NoDataValue>\
        <ComplexSource><SourceFilename>a.bil</SourceFilename><NODATA>0</NODATA></ComplexSource><ComplexSource>\
        <SourceFilename>b.bil</SourceFilename><NODATA>0</NODATA></ComplexSource></VRTRasterBand></VRTDataset>",
    ),
    (
        "n.vrt",
        b"<VRTDataset rasterXSize='3' rasterYSize='1'><VRTRasterBand dataType='Int16'><SimpleSource>\
        <SourceFilename>m.vrt</SourceFilename></SimpleSource></VRTRasterBand></VRTDataset>",
    ),
    (
        "o.vrt",
        b"<VRTDataset rasterXSize='3' rasterYSize='1'><VRTRasterBand dataType='Int16'><SimpleSource>\
        <SourceFilename>n.vrt</SourceFilename></SimpleSource></VRTRasterBand></VRTDataset>",
    ),
    ("two.bil", &[1, 2, 3, 4, 5, 6, 7, 8, 9, 10, 11, 12]),
    ("two.hdr", b"NROWS 2\nNCOLS 3\nNBANDS 2\n"),
    ("p.bil", &[1, 2, 3, 4]),
    ("p.hdr", b"NROWS 2\nNCOLS 2\nULXMAP 10.5\nULYMAP 49.5\n"),
    ("s.bil", &[255, 255, 3, 0, 44, 1, 11, 0, 253, 255]),
    (
        "s.hdr",
        b"NROWS 1\nNCOLS 5\nNBITS 16\nPIXELTYPE SIGNEDINT\n",
    ),
    (
        "g.asc",
        b"ncols 2\nnrows\t2\nxllcenter 10\nyllcenter 20\ncellsize 2\n1\t-2\n30 4\n",
    ),
];

fn files() -> &'static [FileOf<'static>] {
    &FILES
}

// The pixels of each mosaic: 5, -1 and 9.
const MOSAIC_PIXELS: &[u8] = &[5, 0, 255, 255, 9, 0];

// The header of three numbers without a NODATA.
const THREE_NUMBERS: &[u8] = b"BYTEORDER      I
LAYOUT         BIL
NROWS          1
NCOLS          3
NBANDS         1
NBITS          16
SKIPBYTES      0
BANDROWBYTES   6
TOTALROWBYTES  6
BANDGAPBYTES   0
PIXELTYPE      SIGNEDINT
";

// The header of two bands, one behind the other.
const BANDS_APART: &[u8] = b"BYTEORDER      I
LAYOUT         BSQ
NROWS          2
NCOLS          3
NBANDS         2
NBITS          8
SKIPBYTES      0
BANDROWBYTES   3
TOTALROWBYTES  3
BANDGAPBYTES   0
PIXELTYPE      UNSIGNEDINT
";

// The header of a line of two bytes.
const TWO_BYTES: &[u8] = b"BYTEORDER      I
LAYOUT         BIL
NROWS          1
NCOLS          2
NBANDS         1
NBITS          8
SKIPBYTES      0
BANDROWBYTES   2
TOTALROWBYTES  2
BANDGAPBYTES   0
PIXELTYPE      UNSIGNEDINT
";

// The header of two bands, pixel by pixel.
const BY_PIXEL: &[u8] = b"BYTEORDER      I
LAYOUT         BIP
NROWS          2
NCOLS          3
NBANDS         2
NBITS          8
SKIPBYTES      0
BANDROWBYTES   3
TOTALROWBYTES  6
BANDGAPBYTES   0
PIXELTYPE      UNSIGNEDINT
";

static STORIES: [Story<'static>; 20] = [
    (
        &[(
            "gdal_translate --blocks 1 o.vrt out.bil",
            0,
            "Input file size is 3, 1\n0...10...20...30...40...50...60...70...80...90...100 - done.\n",
            "",
        )],
        &[("out.bil", MOSAIC_PIXELS), ("out.hdr", THREE_NUMBERS)],
    ),
    (
        &[(
            "gdal_translate o.vrt --blocks 64 out.bil",
            0,
            "Input file size is 3, 1\n0...10...20...30...40...50...60...70...80...90...100 - done.\n",
            "",
        )],
        &[("out.bil", MOSAIC_PIXELS), ("out.hdr", THREE_NUMBERS)],
    ),
    (
        &[
            (
                "gdal_translate -q --workers 2 --blocks 1 o.vrt one2.bil",
                0,
                "",
                "",
            ),
            (
                "gdal_translate -q --workers 2 --blocks 64 o.vrt many2.bil",
                0,
                "",
                "",
            ),
            (
                "gdal_translate -q --workers 4 --blocks 1 o.vrt one4.bil",
                0,
                "",
                "",
            ),
            (
                "gdal_translate -q --workers 4 --blocks 64 o.vrt many4.bil",
                0,
                "",
                "",
            ),
            (
                "gdal_translate -q --workers 16 --blocks 1 o.vrt one16.bil",
                0,
                "",
                "",
            ),
            (
                "gdal_translate -q --workers 16 --blocks 64 o.vrt many16.bil",
                0,
                "",
                "",
            ),
        ],
        &[
            ("one2.bil", MOSAIC_PIXELS),
            ("one2.hdr", THREE_NUMBERS),
            ("many2.bil", MOSAIC_PIXELS),
            ("many2.hdr", THREE_NUMBERS),
            ("one4.bil", MOSAIC_PIXELS),
            ("one4.hdr", THREE_NUMBERS),
            ("many4.bil", MOSAIC_PIXELS),
            ("many4.hdr", THREE_NUMBERS),
            ("one16.bil", MOSAIC_PIXELS),
            ("one16.hdr", THREE_NUMBERS),
            ("many16.bil", MOSAIC_PIXELS),
            ("many16.hdr", THREE_NUMBERS),
        ],
    ),
    (
        &[(
            "gdal_translate m.vrt out.bil",
            0,
            "Input file size is 3, 1\n0...10...20...30...40...50...60...70...80...90...100 - done.\n",
            "",
        )],
        &[
            ("out.bil", MOSAIC_PIXELS),
            (
                "out.hdr",
                b"BYTEORDER      I
LAYOUT         BIL
NROWS          1
NCOLS          3
NBANDS         1
NBITS          16
SKIPBYTES      0
BANDROWBYTES   6
TOTALROWBYTES  6
BANDGAPBYTES   0
PIXELTYPE      SIGNEDINT
NODATA         -1
",
            ),
        ],
    ),
    (
        &[(
            "gdal_translate -outsize 2 1 five.bil out.bil",
            0,
            "Input file size is 5, 1\n0...10...20...30...40...50...60...70...80...90...100 - done.\n",
            "",
        )],
        &[("out.bil", &[2, 4]), ("out.hdr", TWO_BYTES)],
    ),
    (
        &[(
            "gdal_translate -q -outsize 200% 100% five.bil d/out.bil",
            0,
            "",
            "",
        )],
        &[
            ("d/out.bil", &[1, 1, 2, 2, 3, 3, 4, 4, 5, 5]),
            (
                "d/out.hdr",
                b"BYTEORDER      I
LAYOUT         BIL
NROWS          1
NCOLS          10
NBANDS         1
NBITS          8
SKIPBYTES      0
BANDROWBYTES   10
TOTALROWBYTES  10
BANDGAPBYTES   0
PIXELTYPE      UNSIGNEDINT
",
            ),
        ],
    ),
    (
        &[(
            "gdal_translate -q -srcwin 3 0 4 1 -a_nodata 9 five.bil out.bil",
            0,
            "",
            "",
        )],
        &[
            ("out.bil", &[4, 5, 9, 9]),
            (
                "out.hdr",
                b"BYTEORDER      I
LAYOUT         BIL
NROWS          1
NCOLS          4
NBANDS         1
NBITS          8
SKIPBYTES      0
BANDROWBYTES   4
TOTALROWBYTES  4
BANDGAPBYTES   0
PIXELTYPE      UNSIGNEDINT
NODATA         9
",
            ),
        ],
    ),
    (
        &[(
            "gdal_translate -q -srcwin -1 -1 4 4 -a_nodata 9 p.bil OUT.BIL",
            0,
            "",
            "",
        )],
        &[
            ("OUT.BIL", &[9, 9, 9, 9, 9, 1, 2, 9, 9, 3, 4, 9, 9, 9, 9, 9]),
            (
                "OUT.HDR",
                b"BYTEORDER      I
LAYOUT         BIL
NROWS          4
NCOLS          4
NBANDS         1
NBITS          8
SKIPBYTES      0
BANDROWBYTES   4
TOTALROWBYTES  4
BANDGAPBYTES   0
PIXELTYPE      UNSIGNEDINT
NODATA         9
ULXMAP         9.5
ULYMAP         50.5
XDIM           1
YDIM           1
",
            ),
        ],
    ),
    (
        &[(
            "gdal_translate -q -eco -srcwin 4 0 2 1 five.bil out.bil",
            0,
            "",
            "",
        )],
        &[("out.bil", &[5, 0]), ("out.hdr", TWO_BYTES)],
    ),
    (
        &[(
            "gdal_translate -projwin 11 50 12 49 -q p.bil out.bsq",
            0,
            "",
            "",
        )],
        &[
            ("out.bsq", &[2]),
            (
                "out.hdr",
                b"BYTEORDER      I
LAYOUT         BSQ
NROWS          1
NCOLS          1
NBANDS         1
NBITS          8
SKIPBYTES      0
BANDROWBYTES   1
TOTALROWBYTES  1
BANDGAPBYTES   0
PIXELTYPE      UNSIGNEDINT
ULXMAP         11.5
ULYMAP         49.5
XDIM           1
YDIM           1
",
            ),
        ],
    ),
    (
        &[("gdal_translate -q -b 2 -b 1 two.bil out.bip", 0, "", "")],
        &[
            ("out.bip", &[4, 1, 5, 2, 6, 3, 10, 7, 11, 8, 12, 9]),
            ("out.hdr", BY_PIXEL),
        ],
    ),
    (
        &[
            ("gdal_translate -q --blocks 1 two.bil out.bsq", 0, "", ""),
            ("gdal_translate -q --workers 2 two.bil other.bsq", 0, "", ""),
        ],
        &[
            ("out.bsq", &[1, 2, 3, 7, 8, 9, 4, 5, 6, 10, 11, 12]),
            ("other.bsq", &[1, 2, 3, 7, 8, 9, 4, 5, 6, 10, 11, 12]),
            ("out.hdr", BANDS_APART),
            ("other.hdr", BANDS_APART),
        ],
    ),
    (
        &[(
            "gdal_translate -q -of ehdr -co interleave=bsq -b 1 -b 1 two.bil out.bil",
            0,
            "",
            "",
        )],
        &[
            ("out.bil", &[1, 2, 3, 7, 8, 9, 1, 2, 3, 7, 8, 9]),
            ("out.hdr", BANDS_APART),
        ],
    ),
    (
        &[("gdal_translate -q two.bil out.bil", 0, "", "")],
        &[
            ("out.bil", &[1, 2, 3, 4, 5, 6, 7, 8, 9, 10, 11, 12]),
            (
                "out.hdr",
                b"BYTEORDER      I
LAYOUT         BIL
NROWS          2
NCOLS          3
NBANDS         2
NBITS          8
SKIPBYTES      0
BANDROWBYTES   3
TOTALROWBYTES  6
BANDGAPBYTES   0
PIXELTYPE      UNSIGNEDINT
",
            ),
        ],
    ),
    (
        &[("gdal_translate -q -ot Byte s.bil out.bil", 0, "", "")],
        &[
            ("out.bil", &[0, 3, 255, 11, 0]),
            (
                "out.hdr",
                b"BYTEORDER      I
LAYOUT         BIL
NROWS          1
NCOLS          5
NBANDS         1
NBITS          8
SKIPBYTES      0
BANDROWBYTES   5
TOTALROWBYTES  5
BANDGAPBYTES   0
PIXELTYPE      UNSIGNEDINT
",
            ),
        ],
    ),
    (
        &[(
            "gdal_translate -q -ot Int32 -a_nodata -1 s.bil out.bil",
            0,
            "",
            "",
        )],
        &[
            (
                "out.bil",
                &[
                    255, 255, 255, 255, 3, 0, 0, 0, 44, 1, 0, 0, 11, 0, 0, 0, 253, 255, 255, 255,
                ],
            ),
            (
                "out.hdr",
                b"BYTEORDER      I
LAYOUT         BIL
NROWS          1
NCOLS          5
NBANDS         1
NBITS          32
SKIPBYTES      0
BANDROWBYTES   20
TOTALROWBYTES  20
BANDGAPBYTES   0
PIXELTYPE      SIGNEDINT
NODATA         -1
",
            ),
        ],
    ),
    (
        &[("gdal_translate -q -a_nodata none m.vrt out.bil", 0, "", "")],
        &[("out.bil", MOSAIC_PIXELS), ("out.hdr", THREE_NUMBERS)],
    ),
    (
        &[
            (
                "gdal_translate g.asc h.asc",
                0,
                "Input file size is 2, 2\n0...10...20...30...40...50...60...70...80...90...100 - done.\n",
                "",
            ),
            ("gdallocationinfo -valonly h.asc 0 0", 0, "1\n", ""),
            ("gdallocationinfo -valonly h.asc 1 0", 0, "-2\n", ""),
            ("gdallocationinfo -valonly h.asc 0 1", 0, "30\n", ""),
            ("gdallocationinfo -valonly h.asc 1 1", 0, "4\n", ""),
            ("gdal_translate -q h.asc i.grd", 0, "", ""),
        ],
        &[
            (
                "h.asc",
                b"ncols        2
nrows        2
xllcorner    9
yllcorner    19
cellsize     2
1 -2
30 4
",
            ),
            (
                "i.grd",
                b"ncols        2
nrows        2
xllcorner    9
yllcorner    19
cellsize     2
1 -2
30 4
",
            ),
        ],
    ),
    (
        &[
            ("gdal_translate -q five.bil out.bil", 0, "", ""),
            (
                "gdal_translate -q -srcwin 1 0 2 1 five.bil out.bil",
                0,
                "",
                "",
            ),
        ],
        &[("out.bil", &[2, 3]), ("out.hdr", TWO_BYTES)],
    ),
    (
        &[
            ("gdal_translate -q two.bil out.bil", 0, "", ""),
            ("gdal_translate -q two.bil out.bip", 0, "", ""),
        ],
        &[
            ("out.bil", &[1, 2, 3, 4, 5, 6, 7, 8, 9, 10, 11, 12]),
            ("out.bip", &[1, 4, 2, 5, 3, 6, 7, 10, 8, 11, 9, 12]),
            ("out.hdr", BY_PIXEL),
        ],
    ),
];

#[test]
fn translations(rt: HostRuntime) {
    none_wrong(&rt, first_astray(&rt, rt.alloc(), files(), &STORIES));
}

// Refusals, in the order in which they come: nothing is printed, and no file changes.
static REFUSED: [Row<'static>; 40] = [
    ("gdal_translate", 1, "", "ERROR 1: word 1 doesn't fit\n"),
    (
        "gdal_translate five.bil",
        1,
        "",
        "ERROR 1: word 2 doesn't fit\n",
    ),
    (
        "gdal_translate five.bil out.bil out.bip",
        1,
        "",
        "ERROR 1: word 3 doesn't fit\n",
    ),
    (
        "gdal_translate five.bil out.tif",
        1,
        "",
        "ERROR 1: word 2 doesn't fit\n",
    ),
    (
        "gdal_translate -of EHdr five.bil out.asc",
        1,
        "",
        "ERROR 1: word 4 doesn't fit\n",
    ),
    (
        "gdal_translate -of GTiff five.bil out.bil",
        1,
        "",
        "ERROR 1: word 2 doesn't fit\n",
    ),
    (
        "gdal_translate -ot Float32 a.bil b.bil",
        1,
        "",
        "ERROR 1: word 2 doesn't fit\n",
    ),
    (
        "gdal_translate --workers 17 five.bil out.bil",
        1,
        "",
        "ERROR 1: word 2 doesn't fit\n",
    ),
    (
        "gdal_translate --blocks 0 five.bil out.bil",
        1,
        "",
        "ERROR 1: word 2 doesn't fit\n",
    ),
    (
        "gdal_translate -co INTERLEAVE=BIP five.bil out.asc",
        1,
        "",
        "ERROR 1: word 1 doesn't fit\n",
    ),
    (
        "gdal_translate -srcwin 0 0 1 1 -projwin 0 0 1 1 five.bil out.bil",
        1,
        "",
        "ERROR 1: word 6 doesn't fit\n",
    ),
    (
        "gdal_translate -srcwin 0 0 1",
        1,
        "",
        "ERROR 1: word 5 doesn't fit\n",
    ),
    (
        "gdal_translate -b 0 five.bil out.bil",
        1,
        "",
        "ERROR 1: word 2 doesn't fit\n",
    ),
    (
        "gdal_translate -b 9 none.bil out.bil",
        1,
        "",
        "ERROR 4: none.bil: no such file\n",
    ),
    (
        "gdal_translate -b 9 a.tif out.bil",
        1,
        "",
        "ERROR 4: a.tif: not recognized as a supported format\n",
    ),
    (
        "gdal_translate -b 1 -b 3 -b 4 -projwin 0 0 1 1 two.bil two.bil",
        1,
        "",
        "ERROR 5: no band 3\n",
    ),
    (
        "gdal_translate -projwin 0 0 1 1 two.bil out.bil",
        1,
        "",
        "ERROR 1: no geotransform\n",
    ),
    (
        "gdal_translate five.bil out.dt0",
        1,
        "",
        "ERROR 1: no geotransform\n",
    ),
    (
        "gdal_translate five.bil N00E000.hgt",
        1,
        "",
        "ERROR 1: no geotransform\n",
    ),
    (
        "gdal_translate -outsize 0 0 five.bil out.bil",
        1,
        "",
        "ERROR 5: empty window\n",
    ),
    (
        "gdal_translate -srcwin 0 0 0 1 five.bil out.bil",
        1,
        "",
        "ERROR 5: empty window\n",
    ),
    (
        "gdal_translate -projwin 11 50 11.4 49 p.bil out.bil",
        1,
        "",
        "ERROR 5: empty window\n",
    ),
    (
        "gdal_translate -srcwin 0 0 4194305 1 five.bil out.bil",
        1,
        "",
        "ERROR 6: output too large\n",
    ),
    (
        "gdal_translate -outsize 4194305 1 five.bil out.bil",
        1,
        "",
        "ERROR 6: output too large\n",
    ),
    (
        "gdal_translate -q -epo -srcwin 3 0 4 1 -a_nodata 9 five.bil out.bil",
        1,
        "",
        "ERROR 5: window outside the raster\n",
    ),
    (
        "gdal_translate -eco -srcwin 5 0 1 1 five.bil out.bil",
        1,
        "",
        "ERROR 5: window outside the raster\n",
    ),
    (
        "gdal_translate two.bil out.asc",
        1,
        "",
        "ERROR 6: format takes one band\n",
    ),
    (
        "gdal_translate two.bil out.dt0",
        1,
        "",
        "ERROR 6: format takes one band\n",
    ),
    (
        "gdal_translate -ot UInt32 five.bil out.asc",
        1,
        "",
        "ERROR 6: raster doesn't fit the format\n",
    ),
    (
        "gdal_translate -ot UInt64 five.bil out.asc",
        1,
        "",
        "ERROR 6: raster doesn't fit the format\n",
    ),
    (
        "gdal_translate -ot Int64 five.bil out.asc",
        1,
        "",
        "ERROR 6: raster doesn't fit the format\n",
    ),
    (
        "gdal_translate -a_nodata 256 five.bil out.bil",
        1,
        "",
        "ERROR 6: raster doesn't fit the format\n",
    ),
    (
        "gdal_translate g.asc N00E000.hgt",
        1,
        "",
        "ERROR 6: raster doesn't fit the format\n",
    ),
    (
        "gdal_translate g.asc out.dt1",
        1,
        "",
        "ERROR 6: raster doesn't fit the format\n",
    ),
    (
        "gdal_translate a.bil a.bil",
        1,
        "",
        "ERROR 1: a.bil: output is an input\n",
    ),
    (
        "gdal_translate a.bil a.bip",
        1,
        "",
        "ERROR 1: a.hdr: output is an input\n",
    ),
    (
        "gdal_translate five.bil ./d/../five.bil",
        1,
        "",
        "ERROR 1: five.bil: output is an input\n",
    ),
    (
        "gdal_translate g.asc g.asc",
        1,
        "",
        "ERROR 1: g.asc: output is an input\n",
    ),
    (
        "gdal_translate o.vrt b.bil",
        1,
        "",
        "ERROR 1: b.bil: output is an input\n",
    ),
    (
        "gdal_translate o.vrt b.bsq",
        1,
        "",
        "ERROR 1: b.hdr: output is an input\n",
    ),
];

#[test]
fn refused_translations(rt: HostRuntime) {
    none_wrong(&rt, first_unrefused(&rt, rt.alloc(), files(), &REFUSED));
}
