// The documents of mosaics, byte for byte.
use crate::cases::{Case, none_wrong, wrong_case, wrong_in};
use crate::inputs::put;
use lists_and_answers::Items;
use outside::{Listed, MemFolder};
use std::alloc::{AllocError, Global};
use std::test::*;

static DOCUMENTS: [Case; 4] = [
    (
        "separate inputs, the first of which is left out",
        "one.vrt fine.vrt",
        "m.vrt steps 1 1 extent 4 0 6 2 separate",
        "<VRTDataset rasterXSize=\"2\" rasterYSize=\"2\">
  <GeoTransform>4, 1, 0, 2, 0, -1</GeoTransform>
  <VRTRasterBand dataType=\"Byte\" band=\"1\">
  </VRTRasterBand>
  <VRTRasterBand dataType=\"Byte\" band=\"2\">
    <SimpleSource>
      <SourceFilename relativeToVRT=\"1\">fine.vrt</SourceFilename>
      <SourceBand>1</SourceBand>
      <SrcRect xOff=\"0\" yOff=\"0\" xSize=\"4\" ySize=\"4\"/>
      <DstRect xOff=\"0\" yOff=\"0\" xSize=\"2\" ySize=\"2\"/>
    </SimpleSource>
  </VRTRasterBand>
</VRTDataset>
",
    ),
    (
        "a coordinate system, and two chosen bands of one input",
        "x_pair.vrt",
        "m.vrt bands 2,1,2",
        "<VRTDataset rasterXSize=\"2\" rasterYSize=\"1\">
  <SRS>X&lt;1&gt;</SRS>
  <GeoTransform>2, 1, 0, 1, 0, -1</GeoTransform>
  <VRTRasterBand dataType=\"Byte\" band=\"1\">
    <SimpleSource>
      <SourceFilename relativeToVRT=\"1\">x_pair.vrt</SourceFilename>
      <SourceBand>2</SourceBand>
      <SrcRect xOff=\"0\" yOff=\"0\" xSize=\"2\" ySize=\"1\"/>
      <DstRect xOff=\"0\" yOff=\"0\" xSize=\"2\" ySize=\"1\"/>
    </SimpleSource>
  </VRTRasterBand>
  <VRTRasterBand dataType=\"Byte\" band=\"2\">
    <SimpleSource>
      <SourceFilename relativeToVRT=\"1\">x_pair.vrt</SourceFilename>
      <SourceBand>1</SourceBand>
      <SrcRect xOff=\"0\" yOff=\"0\" xSize=\"2\" ySize=\"1\"/>
      <DstRect xOff=\"0\" yOff=\"0\" xSize=\"2\" ySize=\"1\"/>
    </SimpleSource>
  </VRTRasterBand>
  <VRTRasterBand dataType=\"Byte\" band=\"3\">
    <SimpleSource>
      <SourceFilename relativeToVRT=\"1\">x_pair.vrt</SourceFilename>
      <SourceBand>2</SourceBand>
      <SrcRect xOff=\"0\" yOff=\"0\" xSize=\"2\" ySize=\"1\"/>
      <DstRect xOff=\"0\" yOff=\"0\" xSize=\"2\" ySize=\"1\"/>
    </SimpleSource>
  </VRTRasterBand>
</VRTDataset>
",
    ),
    (
        "inputs beside the document and in other folders",
        "d/c.vrt seven.vrt",
        "d/m.vrt strictly",
        "<VRTDataset rasterXSize=\"4\" rasterYSize=\"1\">
  <GeoTransform>2, 1, 0, 1, 0, -1</GeoTransform>
  <VRTRasterBand dataType=\"Byte\" band=\"1\">
    <SimpleSource>
      <SourceFilename relativeToVRT=\"1\">c.vrt</SourceFilename>
      <SourceBand>1</SourceBand>
      <SrcRect xOff=\"0\" yOff=\"0\" xSize=\"2\" ySize=\"1\"/>
      <DstRect xOff=\"2\" yOff=\"0\" xSize=\"2\" ySize=\"1\"/>
    </SimpleSource>
    <ComplexSource>
      <SourceFilename relativeToVRT=\"0\">seven.vrt</SourceFilename>
      <SourceBand>1</SourceBand>
      <SrcRect xOff=\"0\" yOff=\"0\" xSize=\"2\" ySize=\"1\"/>
      <DstRect xOff=\"0\" yOff=\"0\" xSize=\"2\" ySize=\"1\"/>
      <NODATA>7</NODATA>
    </ComplexSource>
  </VRTRasterBand>
</VRTDataset>
",
    ),
    (
        "a document whose name begins at the root",
        "empty.vrt empty.vrt",
        "/d/m.vrt",
        "<VRTDataset rasterXSize=\"2\" rasterYSize=\"1\">
  <SRS></SRS>
  <GeoTransform>0, 1, 0, 1, 0, -1</GeoTransform>
  <VRTRasterBand dataType=\"Byte\" band=\"1\">
    <SimpleSource>
      <SourceFilename relativeToVRT=\"0\">empty.vrt</SourceFilename>
      <SourceBand>1</SourceBand>
      <SrcRect xOff=\"0\" yOff=\"0\" xSize=\"2\" ySize=\"1\"/>
      <DstRect xOff=\"0\" yOff=\"0\" xSize=\"2\" ySize=\"1\"/>
    </SimpleSource>
    <SimpleSource>
      <SourceFilename relativeToVRT=\"0\">empty.vrt</SourceFilename>
      <SourceBand>1</SourceBand>
      <SrcRect xOff=\"0\" yOff=\"0\" xSize=\"2\" ySize=\"1\"/>
      <DstRect xOff=\"0\" yOff=\"0\" xSize=\"2\" ySize=\"1\"/>
    </SimpleSource>
  </VRTRasterBand>
</VRTDataset>
",
    ),
];

#[test]
fn documents(rt: HostRuntime) {
    none_wrong(&rt, wrong_case(rt.alloc(), &DOCUMENTS, &[]));
}

// Two tiles that lie side by side, and a raster of two bands.
static TILES: [Case; 2] = [
    (
        "two tiles, and a raster that is skipped",
        "N00E000.hgt N00E001.hgt two.bil",
        "out.vrt",
        "two.bil bands
<VRTDataset rasterXSize=\"2401\" rasterYSize=\"1201\">
  <GeoTransform>-0.0004166666666667, 0.0008333333333333, 0, 1.0004166666666667, 0, -0.0008333333333333</GeoTransform>
  <VRTRasterBand dataType=\"Int16\" band=\"1\">
    <NoDataValue>-32768</NoDataValue>
    <ComplexSource>
      <SourceFilename relativeToVRT=\"1\">N00E000.hgt</SourceFilename>
      <SourceBand>1</SourceBand>
      <SrcRect xOff=\"0\" yOff=\"0\" xSize=\"1201\" ySize=\"1201\"/>
      <DstRect xOff=\"0\" yOff=\"0\" xSize=\"1201\" ySize=\"1201\"/>
      <NODATA>-32768</NODATA>
    </ComplexSource>
    <ComplexSource>
      <SourceFilename relativeToVRT=\"1\">N00E001.hgt</SourceFilename>
      <SourceBand>1</SourceBand>
      <SrcRect xOff=\"0\" yOff=\"0\" xSize=\"1201\" ySize=\"1201\"/>
      <DstRect xOff=\"1200\" yOff=\"0\" xSize=\"1201\" ySize=\"1201\"/>
      <NODATA>-32768</NODATA>
    </ComplexSource>
  </VRTRasterBand>
</VRTDataset>
",
    ),
    (
        "strictly",
        "N00E000.hgt N00E001.hgt two.bil",
        "m.vrt strictly",
        "strictly two.bil bands\n",
    ),
];

fn put_tiles(alloc: Global, folder: &mut MemFolder) -> Result<bool, AllocError> {
    let bytes = vec![in alloc; 0u8; 2_884_802]?;
    Ok(put(alloc, folder, "N00E000.hgt", &bytes) && put(alloc, folder, "N00E001.hgt", &bytes))
}

// The raster has a place: its header says so.
fn put_raster(alloc: Global, folder: &mut MemFolder) -> bool {
    let header = "NROWS 1\nNCOLS 1\nNBANDS 2\nULXMAP 0\nULYMAP 0\n";
    put(alloc, folder, "two.bil", b"12") && put(alloc, folder, "two.hdr", header.as_bytes())
}

fn put_rasters(alloc: Global, folder: &mut MemFolder) -> bool {
    matches!(put_tiles(alloc, folder), Ok(true)) && put_raster(alloc, folder)
}

fn wrong_tile(alloc: Global) -> Option<&'static str> {
    let mut folder = MemFolder::new(alloc, Listed::new(Items::new(alloc)));
    if !put_rasters(alloc, &mut folder) {
        return Some("the rasters are put");
    }
    wrong_in(alloc, &mut folder, &TILES, &[])
}

#[test]
fn two_tiles(rt: HostRuntime) {
    none_wrong(&rt, wrong_tile(rt.alloc()));
}
