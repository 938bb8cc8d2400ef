// Mosaics built of rasters: what is printed and told, and the documents that are made.
use crate::stories::{Story, first_astray, first_unlike, first_unrefused};
use crate::trials::{FileOf, Row, none_wrong};
use std::test::*;

/// The progress line.
pub const DONE: &str = "0...10...20...30...40...50...60...70...80...90...100 - done.\n";

// Two pixels at (0, 1), and two beside them; the same with NODATA; with two bands; of another type; and without a
// place. A pixel far in the east, and one that lacks bytes. Mosaics of the first, of which one names the other, and one
// that names itself. Lists of names.
static FILES: [FileOf<'static>; 36] = [
    ("a.bil", &[1, 2]),
    ("a.hdr", b"NROWS 1\nNCOLS 2\nULXMAP 0.5\nULYMAP 0.5\n"),
    ("b.bil", &[3, 4]),
    ("b.hdr", b"NROWS 1\nNCOLS 2\nULXMAP 2.5\nULYMAP 0.5\n"),
    ("n.bil", &[9, 5]),
    (
        "n.hdr",
        b"NROWS 1\nNCOLS 2\nULXMAP 0.5\nULYMAP 0.5\nNODATA 9\n",
    ),
    ("two.bil", &[1, 2, 3, 4]),
    (
        "two.hdr",
        b"NROWS 1\nNCOLS 2\nNBANDS 2\nULXMAP 0.5\nULYMAP 0.5\n",
    ),
    ("i.bil", &[251, 255, 6, 0]),
    (
        "i.hdr",
        b"NROWS 1\nNCOLS 2\nNBITS 16\nPIXELTYPE SIGNEDINT\nULXMAP 0.5\nULYMAP 0.5\n",
    ),
    ("p.bil", &[7, 8]),
    ("p.hdr", b"NROWS 1\nNCOLS 2\n"),
    ("far.bil", &[1]),
    (
        "far.hdr",
        b"NROWS 1\nNCOLS 1\nULXMAP 4194304.5\nULYMAP 0.5\n",
    ),
    ("short.bil", &[1]),
    ("short.hdr", b"NROWS 1\nNCOLS 2\nULXMAP 0.5\nULYMAP 0.5\n"),
    ("headless.bil", &[1]),
    (
        "inner.vrt",
        b"<VRTDataset rasterXSize='2' rasterYSize='1'><GeoTransform>0,1,0,1,0,-1</GeoTransform><VRTRasterBand>\
        <SimpleSource><SourceFilename>a.bil</SourceFilename></SimpleSource></VRTRasterBand></VRTDataset>",
    ),
    (
        "outer.vrt",
        b"<VRTDataset rasterXSize='2' rasterYSize='1'><GeoTransform>0,1,0,1,0,-1</GeoTransform><VRTRasterBand>\
        <SimpleSource><SourceFilename>inner.vrt</SourceFilename></SimpleSource></VRTRasterBand></VRTDataset>",
    ),
    (
        "placeless.vrt",
        b"<VRTDataset rasterXSize='2' rasterYSize='1'><VRTRasterBand><SimpleSource>\
        <SourceFilename>inner.vrt</SourceFilename></SimpleSource></VRTRasterBand></VRTDataset>",
    ),
    (
        "x.vrt",
        b"<VRTDataset rasterXSize='2' rasterYSize='1'><SRS>X</SRS><GeoTransform>0,1,0,1,0,-1</GeoTransform>\
        <VRTRasterBand/></VRTDataset>",
    ),
    (
        "itself.vrt",
        b"<VRTDataset rasterXSize='2' rasterYSize='1'><VRTRasterBand><SimpleSource>\
        <SourceFilename>itself.vrt</SourceFilename></SimpleSource></VRTRasterBand></VRTDataset>",
    ),
    (
        "bandless.vrt",
        b"<VRTDataset rasterXSize='2' rasterYSize='1'><VRTRasterBand><SimpleSource>\
        <SourceFilename>a.bil</SourceFilename><SourceBand>2</SourceBand></SimpleSource></VRTRasterBand></VRTDataset>",
    ),
    ("lf.txt", b"a.bil\nb.bil\n"),
    ("crlf.txt", b"a.bil\r\n\r\nb.bil\r\n"),
    ("bare.txt", b"\n\na.bil\n\n\nb.bil"),
    ("gaps.txt", b"\n\na.bil\n\n\n\r\n\r\n\n\n\nb.bil\r\n\n\n"),
    ("b.txt", b"b.bil\r\n"),
    ("lone.txt", b"a.bil\nb.bil\r"),
    ("empty.txt", b""),
    ("lines.txt", b"\n\r\n\n"),
    ("binary.txt", b"a.bil\n\xff\xfe\n"),
    ("cut.txt", b"a.bil\nb.bil\xe2\x82"),
    ("blank.txt", b" a.bil\n"),
    ("absent.txt", b"none.bil\na.bil\n"),
    ("d/e.txt", b"a.bil\nb.bil\n"),
];

fn files() -> &'static [FileOf<'static>] {
    &FILES
}

const FIRST: &[u8] = b"<VRTDataset rasterXSize=\"2\" rasterYSize=\"1\">
  <GeoTransform>0, 1, 0, 1, 0, -1</GeoTransform>
  <VRTRasterBand dataType=\"Byte\" band=\"1\">
    <SimpleSource>
      <SourceFilename relativeToVRT=\"1\">a.bil</SourceFilename>
      <SourceBand>1</SourceBand>
      <SrcRect xOff=\"0\" yOff=\"0\" xSize=\"2\" ySize=\"1\"/>
      <DstRect xOff=\"0\" yOff=\"0\" xSize=\"2\" ySize=\"1\"/>
    </SimpleSource>
  </VRTRasterBand>
</VRTDataset>
";

const BOTH: &[u8] = b"<VRTDataset rasterXSize=\"4\" rasterYSize=\"1\">
  <GeoTransform>0, 1, 0, 1, 0, -1</GeoTransform>
  <VRTRasterBand dataType=\"Byte\" band=\"1\">
    <SimpleSource>
      <SourceFilename relativeToVRT=\"1\">a.bil</SourceFilename>
      <SourceBand>1</SourceBand>
      <SrcRect xOff=\"0\" yOff=\"0\" xSize=\"2\" ySize=\"1\"/>
      <DstRect xOff=\"0\" yOff=\"0\" xSize=\"2\" ySize=\"1\"/>
    </SimpleSource>
    <SimpleSource>
      <SourceFilename relativeToVRT=\"1\">b.bil</SourceFilename>
      <SourceBand>1</SourceBand>
      <SrcRect xOff=\"0\" yOff=\"0\" xSize=\"2\" ySize=\"1\"/>
      <DstRect xOff=\"2\" yOff=\"0\" xSize=\"2\" ySize=\"1\"/>
    </SimpleSource>
  </VRTRasterBand>
</VRTDataset>
";

// The same from another folder.
const BELOW: &[u8] = b"<VRTDataset rasterXSize=\"4\" rasterYSize=\"1\">
  <GeoTransform>0, 1, 0, 1, 0, -1</GeoTransform>
  <VRTRasterBand dataType=\"Byte\" band=\"1\">
    <SimpleSource>
      <SourceFilename relativeToVRT=\"0\">a.bil</SourceFilename>
      <SourceBand>1</SourceBand>
      <SrcRect xOff=\"0\" yOff=\"0\" xSize=\"2\" ySize=\"1\"/>
      <DstRect xOff=\"0\" yOff=\"0\" xSize=\"2\" ySize=\"1\"/>
    </SimpleSource>
    <SimpleSource>
      <SourceFilename relativeToVRT=\"0\">b.bil</SourceFilename>
      <SourceBand>1</SourceBand>
      <SrcRect xOff=\"0\" yOff=\"0\" xSize=\"2\" ySize=\"1\"/>
      <DstRect xOff=\"2\" yOff=\"0\" xSize=\"2\" ySize=\"1\"/>
    </SimpleSource>
  </VRTRasterBand>
</VRTDataset>
";

const SEPARATE: &[u8] = b"<VRTDataset rasterXSize=\"4\" rasterYSize=\"1\">
  <GeoTransform>0, 1, 0, 1, 0, -1</GeoTransform>
  <VRTRasterBand dataType=\"Int16\" band=\"1\">
    <SimpleSource>
      <SourceFilename relativeToVRT=\"1\">i.bil</SourceFilename>
      <SourceBand>1</SourceBand>
      <SrcRect xOff=\"0\" yOff=\"0\" xSize=\"2\" ySize=\"1\"/>
      <DstRect xOff=\"0\" yOff=\"0\" xSize=\"2\" ySize=\"1\"/>
    </SimpleSource>
  </VRTRasterBand>
  <VRTRasterBand dataType=\"Byte\" band=\"2\">
    <SimpleSource>
      <SourceFilename relativeToVRT=\"1\">b.bil</SourceFilename>
      <SourceBand>1</SourceBand>
      <SrcRect xOff=\"0\" yOff=\"0\" xSize=\"2\" ySize=\"1\"/>
      <DstRect xOff=\"2\" yOff=\"0\" xSize=\"2\" ySize=\"1\"/>
    </SimpleSource>
  </VRTRasterBand>
  <VRTRasterBand dataType=\"Byte\" band=\"3\">
    <NoDataValue>9</NoDataValue>
    <ComplexSource>
      <SourceFilename relativeToVRT=\"1\">n.bil</SourceFilename>
      <SourceBand>1</SourceBand>
      <SrcRect xOff=\"0\" yOff=\"0\" xSize=\"2\" ySize=\"1\"/>
      <DstRect xOff=\"0\" yOff=\"0\" xSize=\"2\" ySize=\"1\"/>
      <NODATA>9</NODATA>
    </ComplexSource>
  </VRTRasterBand>
</VRTDataset>
";

// Pixels of half a unit, the first line of which lies over the input.
const ASKED: &[u8] = b"<VRTDataset rasterXSize=\"2\" rasterYSize=\"3\">
  <GeoTransform>0.5, 0.5, 0, 1.5, 0, -0.5</GeoTransform>
  <VRTRasterBand dataType=\"Byte\" band=\"1\">
    <NoDataValue>200</NoDataValue>
    <ComplexSource>
      <SourceFilename relativeToVRT=\"1\">two.bil</SourceFilename>
      <SourceBand>2</SourceBand>
      <SrcRect xOff=\"0\" yOff=\"0\" xSize=\"2\" ySize=\"1\"/>
      <DstRect xOff=\"-1\" yOff=\"1\" xSize=\"4\" ySize=\"2\"/>
      <NODATA>3</NODATA>
    </ComplexSource>
  </VRTRasterBand>
</VRTDataset>
";

// A mosaic of a mosaic.
const OVER: &[u8] = b"<VRTDataset rasterXSize=\"2\" rasterYSize=\"1\">
  <GeoTransform>0, 1, 0, 1, 0, -1</GeoTransform>
  <VRTRasterBand dataType=\"Byte\" band=\"1\">
    <SimpleSource>
      <SourceFilename relativeToVRT=\"1\">inner.vrt</SourceFilename>
      <SourceBand>1</SourceBand>
      <SrcRect xOff=\"0\" yOff=\"0\" xSize=\"2\" ySize=\"1\"/>
      <DstRect xOff=\"0\" yOff=\"0\" xSize=\"2\" ySize=\"1\"/>
    </SimpleSource>
  </VRTRasterBand>
</VRTDataset>
";

static STORIES: [Story<'static>; 9] = [
    (
        &[
            ("gdalbuildvrt out.vrt a.bil b.bil", 0, DONE, ""),
            ("gdallocationinfo -valonly out.vrt 0 0", 0, "1\n", ""),
            ("gdallocationinfo -valonly out.vrt 2 0", 0, "3\n", ""),
            ("gdallocationinfo -valonly out.vrt 4 0", 0, "\n", ""),
        ],
        &[("out.vrt", BOTH)],
    ),
    (
        &[("gdalbuildvrt out.VRT a.bil x/../b.bil -q", 0, "", "")],
        &[("out.VRT", BOTH)],
    ),
    (
        &[(
            "gdalbuildvrt -overwrite d/out.vrt a.bil ./d/../b.bil -q",
            0,
            "",
            "",
        )],
        &[("d/out.vrt", BELOW)],
    ),
    (
        &[
            ("gdalbuildvrt -q out.vrt a.bil", 0, "", ""),
            ("gdalbuildvrt -q out.vrt a.bil b.bil", 0, "", ""),
            ("gdalbuildvrt -q -overwrite out.vrt a.bil", 0, "", ""),
        ],
        &[("out.vrt", FIRST)],
    ),
    (
        &[(
            "gdalbuildvrt out.vrt p.bil a.bil two.bil x.vrt i.bil b.bil",
            0,
            DONE,
            "Warning 1: p.bil: skipped (geotransform)
Warning 1: two.bil: skipped (bands)
Warning 1: x.vrt: skipped (srs)
Warning 1: i.bil: skipped (type)
",
        )],
        &[("out.vrt", BOTH)],
    ),
    (
        &[(
            "gdalbuildvrt -q out.vrt ./p.bil a.bil p.bil -input_file_list b.txt",
            0,
            "",
            "Warning 1: p.bil: skipped (geotransform)\nWarning 1: p.bil: skipped (geotransform)\n",
        )],
        &[("out.vrt", BOTH)],
    ),
    (
        &[
            (
                "gdalbuildvrt -separate -q out.vrt i.bil p.bil b.bil n.bil",
                0,
                "",
                "Warning 1: p.bil: skipped (geotransform)\n",
            ),
            ("gdallocationinfo -valonly out.vrt 0 0", 0, "-5\n0\n9\n", ""),
            ("gdallocationinfo -valonly out.vrt 2 0", 0, "0\n3\n9\n", ""),
        ],
        &[("out.vrt", SEPARATE)],
    ),
    (
        &[
            (
                "gdalbuildvrt -q -b 2 -tr 0.5 0.5 -te 0.5 0 1.5 1.5 -srcnodata 3 -vrtnodata 200 out.vrt two.bil",
                0,
                "",
                "",
            ),
            ("gdallocationinfo -valonly out.vrt 1 0", 0, "200\n", ""),
            ("gdallocationinfo -valonly out.vrt 0 1", 0, "200\n", ""),
            ("gdallocationinfo -valonly out.vrt 1 2", 0, "4\n", ""),
        ],
        &[("out.vrt", ASKED)],
    ),
    (
        &[
            ("gdalbuildvrt -q out.vrt inner.vrt", 0, "", ""),
            ("gdallocationinfo -valonly out.vrt 1 0", 0, "2\n", ""),
            (
                "gdallocationinfo -lifonly out.vrt 1 0",
                0,
                "inner.vrt\n",
                "",
            ),
        ],
        &[("out.vrt", OVER)],
    ),
];

#[test]
fn builds(rt: HostRuntime) {
    none_wrong(&rt, first_astray(&rt, rt.alloc(), files(), &STORIES));
}

// Quiet builds of the same document.
static SAME: [Row<'static>; 15] = [
    ("gdalbuildvrt -q out.vrt a.bil b.bil", 0, "", ""),
    ("gdalbuildvrt -q -input_file_list lf.txt out.vrt", 0, "", ""),
    (
        "gdalbuildvrt -q out.vrt -input_file_list crlf.txt",
        0,
        "",
        "",
    ),
    (
        "gdalbuildvrt -q out.vrt -input_file_list bare.txt",
        0,
        "",
        "",
    ),
    (
        "gdalbuildvrt -q out.vrt -input_file_list gaps.txt",
        0,
        "",
        "",
    ),
    (
        "gdalbuildvrt -q out.vrt -input_file_list b.txt a.bil",
        0,
        "",
        "",
    ),
    (
        "gdalbuildvrt -q -input_file_list none.txt out.vrt -input_file_list d/e.txt",
        0,
        "",
        "",
    ),
    ("gdalbuildvrt out.vrt a.bil x/../b.bil -q", 0, "", ""),
    ("gdalbuildvrt -strict -q out.vrt ./a.bil b.bil", 0, "", ""),
    (
        "gdalbuildvrt -overwrite -q -b 1 out.vrt a.bil b.bil",
        0,
        "",
        "",
    ),
    (
        "gdalbuildvrt -q -tr 1 1 -resolution user out.vrt a.bil b.bil",
        0,
        "",
        "",
    ),
    (
        "gdalbuildvrt -q -te 0 0 4 1 -resolution highest out.vrt a.bil b.bil",
        0,
        "",
        "",
    ),
    (
        "gdalbuildvrt -q -resolution lowest -srcnodata NONE -vrtnodata none out.vrt a.bil b.bil",
        0,
        "",
        "",
    ),
    (
        "gdalbuildvrt -b 1 --blocks 1 -q out.vrt a.bil b.bil -resolution highest -resolution average",
        0,
        "",
        "",
    ),
    (
        "gdalbuildvrt -q --workers 16 out.vrt a.bil b.bil",
        0,
        "",
        "",
    ),
];

static MADE: [FileOf<'static>; 1] = [("out.vrt", BOTH)];

#[test]
fn quiet_builds(rt: HostRuntime) {
    none_wrong(&rt, first_unlike(&rt, rt.alloc(), files(), &SAME, &MADE));
}

// Words that don't fit: nothing is printed, and no file changes.
static UNFIT: [Row<'static>; 33] = [
    ("gdalbuildvrt", 1, "", "ERROR 1: word 1 doesn't fit\n"),
    (
        "gdalbuildvrt out.vrt",
        1,
        "",
        "ERROR 1: word 2 doesn't fit\n",
    ),
    (
        "gdalbuildvrt -q -strict out.vrt",
        1,
        "",
        "ERROR 1: word 4 doesn't fit\n",
    ),
    (
        "gdalbuildvrt out.bil a.bil",
        1,
        "",
        "ERROR 1: word 1 doesn't fit\n",
    ),
    (
        "gdalbuildvrt out a.bil",
        1,
        "",
        "ERROR 1: word 1 doesn't fit\n",
    ),
    (
        "gdalbuildvrt -o out.vrt a.bil",
        1,
        "",
        "ERROR 1: word 1 doesn't fit\n",
    ),
    (
        "gdalbuildvrt -of VRT out.vrt a.bil",
        1,
        "",
        "ERROR 1: word 1 doesn't fit\n",
    ),
    (
        "gdalbuildvrt -q --workers 17 out.vrt a.bil",
        1,
        "",
        "ERROR 1: word 3 doesn't fit\n",
    ),
    (
        "gdalbuildvrt out.vrt a.bil -input_file_list",
        1,
        "",
        "ERROR 1: word 4 doesn't fit\n",
    ),
    (
        "gdalbuildvrt -resolution best out.vrt a.bil",
        1,
        "",
        "ERROR 1: word 2 doesn't fit\n",
    ),
    (
        "gdalbuildvrt -resolution Highest out.vrt a.bil",
        1,
        "",
        "ERROR 1: word 2 doesn't fit\n",
    ),
    (
        "gdalbuildvrt -resolution user out.vrt a.bil",
        1,
        "",
        "ERROR 1: word 5 doesn't fit\n",
    ),
    (
        "gdalbuildvrt -resolution highest -tr 1 1 out.vrt a.bil",
        1,
        "",
        "ERROR 1: word 3 doesn't fit\n",
    ),
    (
        "gdalbuildvrt -tr 1 1 out.vrt a.bil -resolution average",
        1,
        "",
        "ERROR 1: word 6 doesn't fit\n",
    ),
    (
        "gdalbuildvrt -tr 0 1 out.vrt a.bil",
        1,
        "",
        "ERROR 1: word 2 doesn't fit\n",
    ),
    (
        "gdalbuildvrt -tr 1 -1 out.vrt a.bil",
        1,
        "",
        "ERROR 1: word 3 doesn't fit\n",
    ),
    (
        "gdalbuildvrt -tr 1 0.00000000000000004 out.vrt a.bil",
        1,
        "",
        "ERROR 1: word 3 doesn't fit\n",
    ),
    (
        "gdalbuildvrt out.vrt a.bil -tr 1",
        1,
        "",
        "ERROR 1: word 5 doesn't fit\n",
    ),
    (
        "gdalbuildvrt -te 0 0 0 1 out.vrt a.bil",
        1,
        "",
        "ERROR 1: word 4 doesn't fit\n",
    ),
    (
        "gdalbuildvrt -te 0 1 1 1 out.vrt a.bil",
        1,
        "",
        "ERROR 1: word 5 doesn't fit\n",
    ),
    (
        "gdalbuildvrt -te 0 0 1 x out.vrt a.bil",
        1,
        "",
        "ERROR 1: word 5 doesn't fit\n",
    ),
    (
        "gdalbuildvrt -te 0 1e12 1 2 out.vrt a.bil",
        1,
        "",
        "ERROR 1: word 3 doesn't fit\n",
    ),
    (
        "gdalbuildvrt -srcnodata 1.5 out.vrt a.bil",
        1,
        "",
        "ERROR 1: word 2 doesn't fit\n",
    ),
    (
        "gdalbuildvrt -vrtnodata 18446744073709551616 out.vrt a.bil",
        1,
        "",
        "ERROR 1: word 2 doesn't fit\n",
    ),
    (
        "gdalbuildvrt -srcnodata -9223372036854775809 out.vrt a.bil",
        1,
        "",
        "ERROR 1: word 2 doesn't fit\n",
    ),
    (
        "gdalbuildvrt -b 0 out.vrt a.bil",
        1,
        "",
        "ERROR 1: word 2 doesn't fit\n",
    ),
    (
        "gdalbuildvrt -b 257 out.vrt a.bil",
        1,
        "",
        "ERROR 1: word 2 doesn't fit\n",
    ),
    (
        "gdalbuildvrt -separate -b 1 out.vrt a.bil",
        1,
        "",
        "ERROR 1: word 2 doesn't fit\n",
    ),
    (
        "gdalbuildvrt -b 1 out.vrt a.bil -separate",
        1,
        "",
        "ERROR 1: word 5 doesn't fit\n",
    ),
    (
        "gdalbuildvrt -separate -b 1 -tr 1 1 -resolution lowest out.bil a.bil",
        1,
        "",
        "ERROR 1: word 9 doesn't fit\n",
    ),
    (
        "gdalbuildvrt -separate -b 1 -tr 1 1 -resolution lowest out.vrt a.bil",
        1,
        "",
        "ERROR 1: word 2 doesn't fit\n",
    ),
    (
        "gdalbuildvrt --blocks 0 out.vrt a.bil",
        1,
        "",
        "ERROR 1: word 2 doesn't fit\n",
    ),
    (
        "gdalbuildvrt -epo out.vrt a.bil",
        1,
        "",
        "ERROR 1: word 1 doesn't fit\n",
    ),
];

#[test]
fn words_of_builds(rt: HostRuntime) {
    none_wrong(&rt, first_unrefused(&rt, rt.alloc(), files(), &UNFIT));
}

// Refusals, in the order in which they come: of the list, of the walks, of the mosaic, and of the output's name.
static REFUSED: [Row<'static>; 29] = [
    (
        "gdalbuildvrt out.vrt -input_file_list none.txt none.bil",
        1,
        "",
        "ERROR 4: none.txt: no such file\n",
    ),
    (
        "gdalbuildvrt out.vrt -input_file_list binary.txt none.bil",
        1,
        "",
        "ERROR 4: binary.txt: malformed list (1)\n",
    ),
    (
        "gdalbuildvrt out.vrt -input_file_list cut.txt",
        1,
        "",
        "ERROR 4: cut.txt: malformed list (1)\n",
    ),
    (
        "gdalbuildvrt out.vrt -input_file_list empty.txt",
        1,
        "",
        "ERROR 1: no input fits\n",
    ),
    (
        "gdalbuildvrt out.vrt -input_file_list lines.txt",
        1,
        "",
        "ERROR 1: no input fits\n",
    ),
    (
        "gdalbuildvrt out.vrt -input_file_list lone.txt",
        1,
        "",
        "ERROR 4: b.bil\r: not recognized as a supported format\n",
    ),
    (
        "gdalbuildvrt out.vrt -input_file_list blank.txt",
        1,
        "",
        "ERROR 4:  a.bil: no such file\n",
    ),
    (
        "gdalbuildvrt out.vrt short.bil -input_file_list absent.txt",
        1,
        "",
        "ERROR 4: short.bil: needs 2 bytes, has 1\n",
    ),
    (
        "gdalbuildvrt out.vrt -input_file_list absent.txt short.bil",
        1,
        "",
        "ERROR 4: short.bil: needs 2 bytes, has 1\n",
    ),
    (
        "gdalbuildvrt out.vrt a.bil -input_file_list absent.txt",
        1,
        "",
        "ERROR 4: none.bil: no such file\n",
    ),
    (
        "gdalbuildvrt out.vrt a.bil none.bil a.tif",
        1,
        "",
        "ERROR 4: none.bil: no such file\n",
    ),
    (
        "gdalbuildvrt out.vrt a.bil a.tif none.bil",
        1,
        "",
        "ERROR 4: a.tif: not recognized as a supported format\n",
    ),
    (
        "gdalbuildvrt -strict out.vrt a.bil p.bil headless.bil",
        1,
        "",
        "ERROR 4: headless.hdr: no such file\n",
    ),
    (
        "gdalbuildvrt out.vrt a.bil itself.vrt",
        1,
        "",
        "ERROR 1: itself.vrt: mosaic contains itself\n",
    ),
    (
        "gdalbuildvrt out.vrt bandless.vrt",
        1,
        "",
        "ERROR 5: a.bil: no band 2\n",
    ),
    (
        "gdalbuildvrt out.vrt p.bil p.bil",
        1,
        "",
        "ERROR 1: no input fits\n",
    ),
    (
        "gdalbuildvrt -b 3 out.vrt a.bil two.bil",
        1,
        "",
        "ERROR 1: no input fits\n",
    ),
    (
        "gdalbuildvrt -strict out.vrt a.bil two.bil p.bil",
        1,
        "",
        "ERROR 1: two.bil: skipped (bands)\n",
    ),
    (
        "gdalbuildvrt -strict out.vrt a.bil i.bil",
        1,
        "",
        "ERROR 1: i.bil: skipped (type)\n",
    ),
    (
        "gdalbuildvrt -strict out.vrt a.bil x.vrt",
        1,
        "",
        "ERROR 1: x.vrt: skipped (srs)\n",
    ),
    (
        "gdalbuildvrt -strict -q out.vrt ./p.bil a.bil",
        1,
        "",
        "ERROR 1: p.bil: skipped (geotransform)\n",
    ),
    (
        "gdalbuildvrt out.vrt a.bil p.bil far.bil",
        1,
        "",
        "ERROR 6: mosaic too large\n",
    ),
    (
        "gdalbuildvrt inner.vrt a.bil inner.vrt",
        1,
        "",
        "ERROR 1: inner.vrt: output is an input\n",
    ),
    (
        "gdalbuildvrt ./d/../inner.vrt a.bil outer.vrt",
        1,
        "",
        "ERROR 1: inner.vrt: output is an input\n",
    ),
    (
        "gdalbuildvrt inner.vrt a.bil placeless.vrt",
        1,
        "",
        "ERROR 1: inner.vrt: output is an input\n",
    ),
    (
        "gdalbuildvrt placeless.vrt a.bil placeless.vrt",
        1,
        "",
        "ERROR 1: placeless.vrt: output is an input\n",
    ),
    (
        "gdalbuildvrt -te 10 0 12 1 x.vrt x.vrt",
        1,
        "",
        "ERROR 1: x.vrt: output is an input\n",
    ),
    (
        "gdalbuildvrt -strict placeless.vrt a.bil placeless.vrt",
        1,
        "",
        "ERROR 1: placeless.vrt: skipped (geotransform)\n",
    ),
    (
        "gdalbuildvrt placeless.vrt placeless.vrt",
        1,
        "",
        "ERROR 1: no input fits\n",
    ),
];

#[test]
fn refused_builds(rt: HostRuntime) {
    none_wrong(&rt, first_unrefused(&rt, rt.alloc(), files(), &REFUSED));
}
