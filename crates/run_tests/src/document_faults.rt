// Translations to documents that are refused, and those of which a call of the outside fails.
use crate::documents::{FIVE_TEXT, rasters};
use crate::ends::{End, Failed, Failer, Turn, Work, first_other, first_unmet};
use crate::stories::first_unrefused;
use crate::trials::{FileOf, Row, none_wrong};
use outside::{Failing, Method};
use std::test::*;

// Refusals, in the order in which they come: nothing is printed, and no file changes.
static REFUSED: [Row<'static>; 19] = [
    (
        "gdal_translate -of VRT five.bil out.bil",
        1,
        "",
        "ERROR 1: word 4 doesn't fit\n",
    ),
    (
        "gdal_translate -of EHdr five.bil w.vrt",
        1,
        "",
        "ERROR 1: word 4 doesn't fit\n",
    ),
    (
        "gdal_translate -of VRTX five.bil w.vrt",
        1,
        "",
        "ERROR 1: word 2 doesn't fit\n",
    ),
    (
        "gdal_translate -co INTERLEAVE=BIL five.bil w.vrt",
        1,
        "",
        "ERROR 1: word 1 doesn't fit\n",
    ),
    (
        "gdal_translate five.bil w.vrt -co INTERLEAVE=BIL -of VRT",
        1,
        "",
        "ERROR 1: word 3 doesn't fit\n",
    ),
    (
        "gdal_translate five.bil w.vrt out.vrt",
        1,
        "",
        "ERROR 1: word 3 doesn't fit\n",
    ),
    (
        "gdal_translate none.bil w.vrt",
        1,
        "",
        "ERROR 4: none.bil: no such file\n",
    ),
    (
        "gdal_translate -b 2 five.bil w.vrt",
        1,
        "",
        "ERROR 5: no band 2\n",
    ),
    (
        "gdal_translate -projwin 0 0 1 1 five.bil w.vrt",
        1,
        "",
        "ERROR 1: no geotransform\n",
    ),
    (
        "gdal_translate -outsize 0 0 five.bil w.vrt",
        1,
        "",
        "ERROR 5: empty window\n",
    ),
    (
        "gdal_translate -srcwin 0 0 4194305 1 five.bil w.vrt",
        1,
        "",
        "ERROR 6: output too large\n",
    ),
    (
        "gdal_translate -epo -srcwin 3 0 4 1 five.bil w.vrt",
        1,
        "",
        "ERROR 5: window outside the raster\n",
    ),
    (
        "gdal_translate -eco -srcwin 5 0 4 1 five.bil w.vrt",
        1,
        "",
        "ERROR 5: window outside the raster\n",
    ),
    (
        "gdal_translate -outsize 3 3 least.vrt w.vrt",
        1,
        "",
        "ERROR 6: output too large\n",
    ),
    (
        "gdal_translate -a_nodata 256 five.bil w.vrt",
        1,
        "",
        "ERROR 6: raster doesn't fit the format\n",
    ),
    (
        "gdal_translate -a_nodata 256 mixed.vrt w.vrt",
        1,
        "",
        "ERROR 6: raster doesn't fit the format\n",
    ),
    (
        "gdal_translate m.vrt m.vrt",
        1,
        "",
        "ERROR 1: m.vrt: output is an input\n",
    ),
    (
        "gdal_translate o.vrt ./m.vrt",
        1,
        "",
        "ERROR 1: m.vrt: output is an input\n",
    ),
    (
        "gdal_translate -q -of VRT o.vrt d/../o.vrt",
        1,
        "",
        "ERROR 1: o.vrt: output is an input\n",
    ),
];

#[test]
fn refused_documents(rt: HostRuntime) {
    none_wrong(&rt, first_unrefused(&rt, rt.alloc(), rasters(), &REFUSED));
}

static FILES: [FileOf<'static>; 3] = [
    ("five.bil", &[1, 2, 3, 4, 5]),
    ("five.hdr", b"NROWS 1\nNCOLS 5\n"),
    ("old.vrt", b"old"),
];

const DOCUMENT: &[u8] = b"<VRTDataset rasterXSize=\"5\" rasterYSize=\"1\">
  <VRTRasterBand dataType=\"Byte\" band=\"1\">
    <SimpleSource>
      <SourceFilename relativeToVRT=\"1\">five.bil</SourceFilename>
      <SourceBand>1</SourceBand>
      <SrcRect xOff=\"0\" yOff=\"0\" xSize=\"5\" ySize=\"1\"/>
      <DstRect xOff=\"0\" yOff=\"0\" xSize=\"5\" ySize=\"1\"/>
    </SimpleSource>
  </VRTRasterBand>
</VRTDataset>
";

// A translation, and the same that prints nothing.
static WORKS: [Work<'static>; 2] = [
    Work {
        line: "gdal_translate five.bil old.vrt",
        text: FIVE_TEXT,
        told: "",
        outputs: &[("old.vrt", b"old", DOCUMENT)],
    },
    Work {
        line: "gdal_translate -q -of VRT five.bil old.vrt",
        text: "",
        told: "",
        outputs: &[("old.vrt", b"old", DOCUMENT)],
    },
];

const FIVE: usize = 0;

const QUIET: usize = 1;

fn works() -> &'static [Work<'static>] {
    &WORKS
}

static CALLS: [Failed<'static>; 6] = [
    (FIVE, &[], End::Whole),
    (QUIET, &[], End::Whole),
    (FIVE, &[Failing::Of(Method::Create, 1)], End::Early(0)),
    (FIVE, &[Failing::Of(Method::Append, 1)], End::Early(0)),
    (FIVE, &[Failing::Of(Method::Publish, 1)], End::Early(0)),
    (QUIET, &[Failing::Of(Method::Publish, 2)], End::Whole),
];

#[test]
fn failing_calls_of_a_document(rt: HostRuntime) {
    none_wrong(&rt, first_other(&rt, rt.alloc(), &FILES, works(), &CALLS));
}

// A translation makes at least five calls of the folder and two of the output. A quiet one prints nothing.
static EACH: [Turn; 3] = [
    (FIVE, Failer::Folder, (5, 256)),
    (FIVE, Failer::Output(3), (2, 64)),
    (QUIET, Failer::Output(0), (0, 1)),
];

// Each call of the folder and of the output fails in turn.
#[test]
fn each_failing_call_of_a_document(rt: HostRuntime) {
    none_wrong(&rt, first_unmet(&rt, rt.alloc(), &FILES, works(), &EACH));
}
