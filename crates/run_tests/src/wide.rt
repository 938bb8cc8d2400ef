// Bands of 8 bits with a sign and of 64 bits: their ends in each layout and order, through mosaics and translations,
// and mosaics that scale them.
use crate::stories::{Story, first_astray, first_unrefused};
use crate::trials::{FileOf, Row, first_wrong, none_wrong};
use std::test::*;

const ONES: [u8; 8] = [255; 8];

// The least and the greatest number of 64 bits with a sign and without one, in either order.
const SIGNED_LITTLE: [u8; 16] = [
    0, 0, 0, 0, 0, 0, 0, 128, 255, 255, 255, 255, 255, 255, 255, 127,
];

const SIGNED_BIG: [u8; 16] = [
    128, 0, 0, 0, 0, 0, 0, 0, 127, 255, 255, 255, 255, 255, 255, 255,
];

const UNSIGNED: [u8; 16] = [
    0, 0, 0, 0, 0, 0, 0, 0, 255, 255, 255, 255, 255, 255, 255, 255,
];

// The ends of each type, mosaics over them, and mosaics that scale them.
static FILES: [FileOf<'static>; 44] = [
    ("u.bsq", &ONES),
    ("u.hdr", b"NROWS 1\nNCOLS 1\nNBITS 64\n"),
    ("s.bsq", &ONES),
    (
        "s.hdr",
        b"NROWS 1\nNCOLS 1\nNBITS 64\nPIXELTYPE SIGNEDINT\n",
    ),
    ("i.bil", &[128]),
    ("i.hdr", b"NROWS 1\nNCOLS 1\nNBITS 8\nPIXELTYPE SIGNEDINT\n"),
    ("ii.bil", &[128, 127]),
    ("ii.hdr", b"NROWS 1\nNCOLS 2\nPIXELTYPE SIGNEDINT\n"),
    ("b.bil", &[200]),
    ("b.hdr", b"NROWS 1\nNCOLS 1\n"),
    ("sl.bil", &SIGNED_LITTLE),
    (
        "sl.hdr",
        b"NROWS 1\nNCOLS 2\nNBITS 64\nPIXELTYPE SIGNEDINT\n",
    ),
    ("sb.bip", &SIGNED_BIG),
    (
        "sb.hdr",
        b"NROWS 1\nNCOLS 2\nNBITS 64\nPIXELTYPE SIGNEDINT\nLAYOUT BIP\nBYTEORDER M\n",
    ),
    ("ub.bsq", &UNSIGNED),
    (
        "ub.hdr",
        b"NROWS 1\nNCOLS 2\nNBITS 64\nLAYOUT BSQ\nBYTEORDER M\n",
    ),
    ("n.bil", &SIGNED_LITTLE),
    (
        "n.hdr",
        b"NROWS 1\nNCOLS 2\nNBITS 64\nNODATA -9223372036854775808\n",
    ),
    (
        "w.vrt",
        b"<VRTDataset rasterXSize='1' rasterYSize='1'><VRTRasterBand dataType='UInt64'><ComplexSource>\
        <SourceFilename>u.bsq</SourceFilename><ScaleRatio>2</ScaleRatio></ComplexSource></VRTRasterBand></VRTDataset>",
    ),
    (
        "o.vrt",
        b"<VRTDataset rasterXSize='1' rasterYSize='1'><VRTRasterBand dataType='UInt64'><ComplexSource>\
        <SourceFilename>s.bsq</SourceFilename><ScaleOffset>1</ScaleOffset></ComplexSource></VRTRasterBand>\
        </VRTDataset>",
    ),
    (
        "l.vrt",
        b"<VRTDataset rasterXSize='1' rasterYSize='1'><VRTRasterBand dataType='Byte'><ComplexSource>\
        <SourceFilename>u.bsq</SourceFilename><LUT>0:1</LUT></ComplexSource></VRTRasterBand></VRTDataset>",
    ),
    (
        "v.vrt",
        b"<VRTDataset rasterXSize='1' rasterYSize='1'><VRTRasterBand dataType='UInt64'><NoDataValue>7</NoDataValue>\
        <ComplexSource><SourceFilename>u.bsq</SourceFilename><NODATA>18446744073709551615</NODATA></ComplexSource>\
        </VRTRasterBand></VRTDataset>",
    ),
    (
        "one.vrt",
        b"<VRTDataset rasterXSize='1' rasterYSize='1'><VRTRasterBand dataType='UInt64'><ComplexSource>\
        <SourceFilename>u.bsq</SourceFilename><ScaleOffset>0</ScaleOffset><ScaleRatio>1</ScaleRatio></ComplexSource>\
        </VRTRasterBand></VRTDataset>",
    ),
    (
        "ends.vrt",
        b"<VRTDataset rasterXSize='2' rasterYSize='1'><VRTRasterBand dataType='Int64'><SimpleSource>\
        <SourceFilename>sl.bil</SourceFilename></SimpleSource></VRTRasterBand><VRTRasterBand dataType='UInt64'>\
        <SimpleSource><SourceFilename>ub.bsq</SourceFilename></SimpleSource></VRTRasterBand>\
        <VRTRasterBand dataType='Int8'><SimpleSource><SourceFilename>ii.bil</SourceFilename></SimpleSource>\
        </VRTRasterBand></VRTDataset>",
    ),
    ("b8.bil", &[0, 255]),
    ("b8.hdr", b"NROWS 1\nNCOLS 2\n"),
    ("u16.bil", &[0, 0, 255, 255]),
    ("u16.hdr", b"NROWS 1\nNCOLS 2\nNBITS 16\n"),
    ("i16.bil", &[0, 128, 255, 127]),
    (
        "i16.hdr",
        b"NROWS 1\nNCOLS 2\nNBITS 16\nPIXELTYPE SIGNEDINT\n",
    ),
    ("u32.bil", &[0, 0, 0, 0, 255, 255, 255, 255]),
    ("u32.hdr", b"NROWS 1\nNCOLS 2\nNBITS 32\n"),
    ("i32.bil", &[0, 0, 0, 128, 255, 255, 255, 127]),
    (
        "i32.hdr",
        b"NROWS 1\nNCOLS 2\nNBITS 32\nPIXELTYPE SIGNEDINT\n",
    ),
    (
        "five.vrt",
        b"<VRTDataset rasterXSize='2' rasterYSize='1'><VRTRasterBand dataType='Byte'><SimpleSource>\
        <SourceFilename>b8.bil</SourceFilename></SimpleSource></VRTRasterBand><VRTRasterBand dataType='UInt16'>\
        <SimpleSource><SourceFilename>u16.bil</SourceFilename></SimpleSource></VRTRasterBand>\
        <VRTRasterBand dataType='Int16'><SimpleSource><SourceFilename>i16.bil</SourceFilename></SimpleSource>\
        </VRTRasterBand><VRTRasterBand dataType='UInt32'><SimpleSource><SourceFilename>u32.bil</SourceFilename>\
        </SimpleSource></VRTRasterBand><VRTRasterBand dataType='Int32'><SimpleSource>\
        <SourceFilename>i32.bil</SourceFilename></SimpleSource></VRTRasterBand></VRTDataset>",
    ),
    (
        "cut.vrt",
        b"<VRTDataset rasterXSize='2' rasterYSize='1'><VRTRasterBand dataType='UInt64'><SimpleSource>\
        <SourceFilename>ends.vrt</SourceFilename></SimpleSource></VRTRasterBand><VRTRasterBand dataType='Int64'>\
        <SimpleSource><SourceFilename>ends.vrt</SourceFilename><SourceBand>2</SourceBand></SimpleSource>\
        </VRTRasterBand><VRTRasterBand dataType='Int8'><SimpleSource><SourceFilename>ends.vrt</SourceFilename>\
        </SimpleSource></VRTRasterBand></VRTDataset>",
    ),
    (
        "eight.vrt",
        b"<VRTDataset rasterXSize='2' rasterYSize='1'><VRTRasterBand dataType='Int16'><ComplexSource>\
        <SourceFilename>ii.bil</SourceFilename><ScaleRatio>2</ScaleRatio></ComplexSource></VRTRasterBand></VRTDataset>",
    ),
    // a mosaic that scales is refused after all that lies below it, and after the band that it names
    (
        "lost.vrt",
        b"<VRTDataset rasterXSize='1' rasterYSize='1'><VRTRasterBand dataType='UInt64'><SimpleSource>\
        <SourceFilename>none.bsq</SourceFilename></SimpleSource></VRTRasterBand></VRTDataset>",
    ),
    (
        "over.vrt",
        b"<VRTDataset rasterXSize='1' rasterYSize='1'><VRTRasterBand dataType='UInt64'><ComplexSource>\
        <SourceFilename>lost.vrt</SourceFilename><ScaleRatio>2</ScaleRatio></ComplexSource></VRTRasterBand>\
        </VRTDataset>",
    ),
    (
        "two.vrt",
        b"<VRTDataset rasterXSize='1' rasterYSize='1'><VRTRasterBand dataType='UInt64'><ComplexSource>\
        <SourceFilename>u.bsq</SourceFilename><SourceBand>2</SourceBand><ScaleRatio>2</ScaleRatio></ComplexSource>\
        </VRTRasterBand></VRTDataset>",
    ),
    (
        "then.vrt",
        b"<VRTDataset rasterXSize='1' rasterYSize='1'><VRTRasterBand dataType='UInt64'><ComplexSource>\
        <SourceFilename>u.bsq</SourceFilename><ScaleRatio>2</ScaleRatio></ComplexSource><SimpleSource>\
        <SourceFilename>none.bsq</SourceFilename></SimpleSource></VRTRasterBand></VRTDataset>",
    ),
    (
        "third.vrt",
        b"<VRTDataset rasterXSize='2' rasterYSize='1'><VRTRasterBand dataType='Int16'><ComplexSource>\
        <SourceFilename>ends.vrt</SourceFilename><SourceBand>3</SourceBand><ScaleRatio>-2</ScaleRatio></ComplexSource>\
        </VRTRasterBand></VRTDataset>",
    ),
    (
        "second.vrt",
        b"<VRTDataset rasterXSize='2' rasterYSize='1'><VRTRasterBand dataType='Int16'><ComplexSource>\
        <SourceFilename>ends.vrt</SourceFilename><SourceBand>2</SourceBand><ScaleRatio>-2</ScaleRatio></ComplexSource>\
        </VRTRasterBand></VRTDataset>",
    ),
    (
        "nested.vrt",
        b"<VRTDataset rasterXSize='1' rasterYSize='1'><VRTRasterBand dataType='UInt64'><SimpleSource>\
        <SourceFilename>w.vrt</SourceFilename></SimpleSource></VRTRasterBand></VRTDataset>",
    ),
];

fn files() -> &'static [FileOf<'static>] {
    &FILES
}

static VALUES: [Row<'static>; 24] = [
    (
        "gdallocationinfo -valonly u.bsq 0 0",
        0,
        "18446744073709551615\n",
        "",
    ),
    ("gdallocationinfo -valonly s.bsq 0 0", 0, "-1\n", ""),
    ("gdallocationinfo -valonly i.bil 0 0", 0, "-128\n", ""),
    ("gdallocationinfo -valonly ii.bil 1 0", 0, "127\n", ""),
    (
        "gdallocationinfo -valonly sl.bil 0 0",
        0,
        "-9223372036854775808\n",
        "",
    ),
    (
        "gdallocationinfo -valonly sl.bil 1 0",
        0,
        "9223372036854775807\n",
        "",
    ),
    (
        "gdallocationinfo -valonly sb.bip 0 0",
        0,
        "-9223372036854775808\n",
        "",
    ),
    (
        "gdallocationinfo -valonly sb.bip 1 0",
        0,
        "9223372036854775807\n",
        "",
    ),
    ("gdallocationinfo -valonly ub.bsq 0 0", 0, "0\n", ""),
    (
        "gdallocationinfo -valonly ub.bsq 1 0",
        0,
        "18446744073709551615\n",
        "",
    ),
    ("gdallocationinfo -valonly v.vrt 0 0", 0, "7\n", ""),
    (
        "gdallocationinfo -valonly one.vrt 0 0",
        0,
        "18446744073709551615\n",
        "",
    ),
    (
        "gdallocationinfo -valonly --blocks 1 ends.vrt 0 0",
        0,
        "-9223372036854775808\n0\n-128\n",
        "",
    ),
    (
        "gdallocationinfo -valonly --blocks 1 ends.vrt 1 0",
        0,
        "9223372036854775807\n18446744073709551615\n127\n",
        "",
    ),
    (
        "gdallocationinfo -valonly --blocks 1 five.vrt 0 0",
        0,
        "0\n0\n-32768\n0\n-2147483648\n",
        "",
    ),
    (
        "gdallocationinfo -valonly --blocks 1 five.vrt 1 0",
        0,
        "255\n65535\n32767\n4294967295\n2147483647\n",
        "",
    ),
    (
        "gdallocationinfo -valonly --blocks 1 cut.vrt 0 0",
        0,
        "0\n0\n-128\n",
        "",
    ),
    (
        "gdallocationinfo -valonly --blocks 1 cut.vrt 1 0",
        0,
        "9223372036854775807\n9223372036854775807\n127\n",
        "",
    ),
    ("gdallocationinfo -valonly eight.vrt 0 0", 0, "-256\n", ""),
    ("gdallocationinfo -valonly third.vrt 1 0", 0, "-254\n", ""),
    (
        "gdalinfo n.bil",
        0,
        "Driver: EHdr\nFiles: n.bil\n       n.hdr\nSize is 2, 1\n\
        Band 1 Block=2x1 Type=Int64\n  NoData Value=-9223372036854775808\n",
        "",
    ),
    (
        "gdalinfo u.bsq",
        0,
        "Driver: EHdr\nFiles: u.bsq\n       u.hdr\nSize is 1, 1\nBand 1 Block=1x1 Type=UInt64\n",
        "",
    ),
    (
        "gdalinfo i.bil",
        0,
        "Driver: EHdr\nFiles: i.bil\n       i.hdr\nSize is 1, 1\nBand 1 Block=1x1 Type=Int8\n",
        "",
    ),
    (
        "gdalinfo v.vrt",
        0,
        "Driver: VRT\nFiles: v.vrt\n       u.bsq\nSize is 1, 1\nBand 1 Block=128x128 Type=UInt64\n  NoData Value=7\n",
        "",
    ),
];

#[test]
fn values_of_8_and_64_bits(rt: HostRuntime) {
    none_wrong(&rt, first_wrong(&rt, rt.alloc(), files(), &VALUES));
}

static REFUSED: [Row<'static>; 13] = [
    (
        "gdallocationinfo -valonly w.vrt 0 0",
        1,
        "",
        "ERROR 4: w.vrt: malformed vrt (5)\n",
    ),
    (
        "gdallocationinfo -valonly o.vrt 0 0",
        1,
        "",
        "ERROR 4: o.vrt: malformed vrt (5)\n",
    ),
    (
        "gdallocationinfo -valonly l.vrt 0 0",
        1,
        "",
        "ERROR 4: l.vrt: malformed vrt (5)\n",
    ),
    (
        "gdallocationinfo -valonly nested.vrt 0 0",
        1,
        "",
        "ERROR 4: w.vrt: malformed vrt (5)\n",
    ),
    (
        "gdallocationinfo -valonly second.vrt 0 0",
        1,
        "",
        "ERROR 4: second.vrt: malformed vrt (5)\n",
    ),
    (
        "gdallocationinfo -valonly over.vrt 0 0",
        1,
        "",
        "ERROR 4: none.bsq: no such file\n",
    ),
    (
        "gdallocationinfo -valonly two.vrt 0 0",
        1,
        "",
        "ERROR 5: u.bsq: no band 2\n",
    ),
    (
        "gdallocationinfo -valonly then.vrt 0 0",
        1,
        "",
        "ERROR 4: then.vrt: malformed vrt (5)\n",
    ),
    (
        "gdal_translate -ot UInt64 u.bsq out.asc",
        1,
        "",
        "ERROR 6: raster doesn't fit the format\n",
    ),
    (
        "gdal_translate s.bsq out.asc",
        1,
        "",
        "ERROR 6: raster doesn't fit the format\n",
    ),
    (
        "gdal_translate -a_nodata -1 u.bsq out.bil",
        1,
        "",
        "ERROR 6: raster doesn't fit the format\n",
    ),
    (
        "gdal_translate -a_nodata 18446744073709551616 u.bsq out.bil",
        1,
        "",
        "ERROR 1: word 2 doesn't fit\n",
    ),
    (
        "gdal_translate -a_nodata -9223372036854775809 s.bsq out.bil",
        1,
        "",
        "ERROR 1: word 2 doesn't fit\n",
    ),
];

#[test]
fn refusals_of_64_bits(rt: HostRuntime) {
    none_wrong(&rt, first_unrefused(&rt, rt.alloc(), files(), &REFUSED));
}

static STORIES: [Story<'static>; 6] = [
    (
        &[("gdal_translate -q -ot Int8 b.bil out.bil", 0, "", "")],
        &[
            ("out.bil", &[127]),
            (
                "out.hdr",
                b"BYTEORDER      I
LAYOUT         BIL
NROWS          1
NCOLS          1
NBANDS         1
NBITS          8
SKIPBYTES      0
BANDROWBYTES   1
TOTALROWBYTES  1
BANDGAPBYTES   0
PIXELTYPE      SIGNEDINT
",
            ),
        ],
    ),
    (
        &[("gdal_translate -q -ot Int64 u.bsq out.bil", 0, "", "")],
        &[
            ("out.bil", &[255, 255, 255, 255, 255, 255, 255, 127]),
            (
                "out.hdr",
                b"BYTEORDER      I
LAYOUT         BIL
NROWS          1
NCOLS          1
NBANDS         1
NBITS          64
SKIPBYTES      0
BANDROWBYTES   8
TOTALROWBYTES  8
BANDGAPBYTES   0
PIXELTYPE      SIGNEDINT
",
            ),
        ],
    ),
    (
        &[(
            "gdal_translate -q --blocks 1 -b 1 ends.vrt out.bip",
            0,
            "",
            "",
        )],
        &[
            ("out.bip", &SIGNED_LITTLE),
            (
                "out.hdr",
                b"BYTEORDER      I
LAYOUT         BIP
NROWS          1
NCOLS          2
NBANDS         1
NBITS          64
SKIPBYTES      0
BANDROWBYTES   16
TOTALROWBYTES  16
BANDGAPBYTES   0
PIXELTYPE      SIGNEDINT
",
            ),
        ],
    ),
    (
        &[(
            "gdal_translate -q -a_nodata 18446744073709551615 u.bsq out.bsq",
            0,
            "",
            "",
        )],
        &[
            ("out.bsq", &ONES),
            (
                "out.hdr",
                b"BYTEORDER      I
LAYOUT         BSQ
NROWS          1
NCOLS          1
NBANDS         1
NBITS          64
SKIPBYTES      0
BANDROWBYTES   8
TOTALROWBYTES  8
BANDGAPBYTES   0
PIXELTYPE      UNSIGNEDINT
NODATA         18446744073709551615
",
            ),
        ],
    ),
    (
        &[
            ("gdal_translate -q i.bil out.asc", 0, "", ""),
            ("gdallocationinfo -valonly out.asc 0 0", 0, "-128\n", ""),
        ],
        &[(
            "out.asc",
            b"ncols        1\nnrows        1\nxllcorner    0\nyllcorner    0\ncellsize     1\n-128\n",
        )],
    ),
    (
        &[
            ("gdal_translate -q n.bil t.vrt", 0, "", ""),
            (
                "gdallocationinfo -valonly t.vrt 1 0",
                0,
                "9223372036854775807\n",
                "",
            ),
        ],
        &[(
            "t.vrt",
            b"<VRTDataset rasterXSize=\"2\" rasterYSize=\"1\">
  <VRTRasterBand dataType=\"Int64\" band=\"1\">
    <NoDataValue>-9223372036854775808</NoDataValue>
    <SimpleSource>
      <SourceFilename relativeToVRT=\"1\">n.bil</SourceFilename>
      <SourceBand>1</SourceBand>
      <SrcRect xOff=\"0\" yOff=\"0\" xSize=\"2\" ySize=\"1\"/>
      <DstRect xOff=\"0\" yOff=\"0\" xSize=\"2\" ySize=\"1\"/>
    </SimpleSource>
  </VRTRasterBand>
</VRTDataset>
",
        )],
    ),
];

#[test]
fn stories_of_8_and_64_bits(rt: HostRuntime) {
    none_wrong(&rt, first_astray(&rt, rt.alloc(), files(), &STORIES));
}
