// The documents of plans of mosaics, byte for byte.
use crate::asking::{Files, head, options};
use crate::plans::none_wrong;
use crate::sources::{PLACED, THREE};
use catalog::Head;
use outside::Name;
use std::alloc::Global;
use std::test::*;
use translate_plan::{Driver, Plan, TranslateOptions, document, plan};
use vrt_profile::Document;
use vrt_writing::write;

/// The files, the first of which is the source, what is asked for, and the text of the document.
type Row<'a> = (Files<'a>, &'a str, &'a str);

/// Five columns and one line of bytes.
const FIVE_FILES: Files<'static> = &[("five.bil", "12345"), ("five.hdr", "NROWS 1\nNCOLS 5\n")];

const TWO_COLUMNS: &str = "<VRTDataset rasterXSize=\"2\" rasterYSize=\"1\">
  <VRTRasterBand dataType=\"Byte\" band=\"1\">
    <SimpleSource>
      <SourceFilename relativeToVRT=\"1\">five.bil</SourceFilename>
      <SourceBand>1</SourceBand>
      <SrcRect xOff=\"0\" yOff=\"0\" xSize=\"5\" ySize=\"1\"/>
      <DstRect xOff=\"0\" yOff=\"0\" xSize=\"2\" ySize=\"1\"/>
    </SimpleSource>
  </VRTRasterBand>
</VRTDataset>
";

/// Columns -1 to 2 and lines -2 to 2, and the second band alone.
const OFF_THE_CORNER: &str = "<VRTDataset rasterXSize=\"4\" rasterYSize=\"5\">
  <GeoTransform>-1, 1, 0, 11, 0, -0.5</GeoTransform>
  <VRTRasterBand dataType=\"Int16\" band=\"1\">
    <SimpleSource>
      <SourceFilename relativeToVRT=\"1\">placed.vrt</SourceFilename>
      <SourceBand>2</SourceBand>
      <SrcRect xOff=\"-1\" yOff=\"-2\" xSize=\"4\" ySize=\"5\"/>
      <DstRect xOff=\"0\" yOff=\"0\" xSize=\"4\" ySize=\"5\"/>
    </SimpleSource>
  </VRTRasterBand>
</VRTDataset>
";

/// The third and the second band, each with its type and its NODATA.
const TWO_BANDS: &str = "<VRTDataset rasterXSize=\"5\" rasterYSize=\"1\">
  <VRTRasterBand dataType=\"UInt16\" band=\"1\">
    <NoDataValue>9</NoDataValue>
    <SimpleSource>
      <SourceFilename relativeToVRT=\"1\">three.vrt</SourceFilename>
      <SourceBand>3</SourceBand>
      <SrcRect xOff=\"0\" yOff=\"0\" xSize=\"5\" ySize=\"1\"/>
      <DstRect xOff=\"0\" yOff=\"0\" xSize=\"5\" ySize=\"1\"/>
    </SimpleSource>
  </VRTRasterBand>
  <VRTRasterBand dataType=\"Int16\" band=\"2\">
    <NoDataValue>-5</NoDataValue>
    <SimpleSource>
      <SourceFilename relativeToVRT=\"1\">three.vrt</SourceFilename>
      <SourceBand>2</SourceBand>
      <SrcRect xOff=\"0\" yOff=\"0\" xSize=\"5\" ySize=\"1\"/>
      <DstRect xOff=\"0\" yOff=\"0\" xSize=\"5\" ySize=\"1\"/>
    </SimpleSource>
  </VRTRasterBand>
</VRTDataset>
";

/// The coordinate system stands as it is, with its entities; the source stands beside the document's folder.
const OTHER_FOLDER: &str = "<VRTDataset rasterXSize=\"1\" rasterYSize=\"1\">
  <SRS>a&lt;&amp;&gt;b</SRS>
  <VRTRasterBand dataType=\"Byte\" band=\"1\">
    <SimpleSource>
      <SourceFilename relativeToVRT=\"0\">d/srs.vrt</SourceFilename>
      <SourceBand>1</SourceBand>
      <SrcRect xOff=\"0\" yOff=\"0\" xSize=\"1\" ySize=\"1\"/>
      <DstRect xOff=\"0\" yOff=\"0\" xSize=\"1\" ySize=\"1\"/>
    </SimpleSource>
  </VRTRasterBand>
</VRTDataset>
";

/// The source stands in a folder of the document's.
const FOLDER_BELOW: &str = "<VRTDataset rasterXSize=\"1\" rasterYSize=\"1\">
  <SRS>a&lt;&amp;&gt;b</SRS>
  <VRTRasterBand dataType=\"Byte\" band=\"1\">
    <SimpleSource>
      <SourceFilename relativeToVRT=\"1\">d/srs.vrt</SourceFilename>
      <SourceBand>1</SourceBand>
      <SrcRect xOff=\"0\" yOff=\"0\" xSize=\"1\" ySize=\"1\"/>
      <DstRect xOff=\"0\" yOff=\"0\" xSize=\"1\" ySize=\"1\"/>
    </SimpleSource>
  </VRTRasterBand>
</VRTDataset>
";

const SRS_FILES: Files<'static> = &[(
    "d/srs.vrt",
    "<VRTDataset rasterXSize=\"1\" rasterYSize=\"1\"><SRS>a&lt;&amp;&gt;b</SRS><VRTRasterBand/></VRTDataset>",
)];

// Two of five columns, a window off the corner, two bands with NODATA, and sources in another folder and in one below.
const DOCUMENTS: [Row<'static>; 5] = [
    (FIVE_FILES, "w.vrt size 2 1", TWO_COLUMNS),
    (
        &[("placed.vrt", PLACED)],
        "w.vrt bands 2 window -1 -2 4 5",
        OFF_THE_CORNER,
    ),
    (&[("three.vrt", THREE)], "w.vrt bands 3,2", TWO_BANDS),
    (SRS_FILES, "e/w.vrt", OTHER_FOLDER),
    (SRS_FILES, "w.vrt", FOLDER_BELOW),
];

fn is_text(alloc: Global, document: &Document, wanted: &str) -> bool {
    let mut out = Vec::new(alloc);
    write(document, &mut out).is_ok() && out.as_slice() == wanted.as_bytes()
}

/// Whether the document that shows the plan's output has this text.
fn is_shown(alloc: Global, plan: &Plan, base: &Name, head: &Head, wanted: &str) -> bool {
    match plan.driver {
        Driver::Vrt => match document(alloc, plan, base, head) {
            Ok(document) => is_text(alloc, &document, wanted),
            Err(_) => false,
        },
        Driver::EHdr | Driver::Dted { .. } | Driver::SrtmHgt | Driver::AaiGrid => false,
    }
}

fn is_planned(alloc: Global, options: &TranslateOptions, head: &Head, wanted: &str) -> bool {
    match plan(options, head) {
        Ok(plan) => is_shown(alloc, &plan, &options.out, head, wanted),
        Err(_) => false,
    }
}

fn row_holds(alloc: Global, (files, ask, wanted): Row<'_>) -> Option<bool> {
    let options = options(alloc, ask)?;
    let head = head(alloc, files)?;
    Some(is_planned(alloc, &options, &head, wanted))
}

// The first row that doesn't hold.
fn wrong_row(alloc: Global, rows: &[Row<'_>]) -> Option<usize> {
    for at in 0..rows.len() {
        if row_holds(alloc, rows[at]) != Some(true) {
            return Some(at);
        }
    }
    None
}

#[test]
fn documents_of_plans(rt: HostRuntime) {
    none_wrong(&rt, wrong_row(rt.alloc(), &DOCUMENTS));
}
