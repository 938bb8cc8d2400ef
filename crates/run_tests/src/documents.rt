// Translations to documents: what is printed, the documents, and their pixels.
use crate::stories::{Story, first_astray};
use crate::trials::{FileOf, none_wrong};
use std::test::*;

// A line of five pixels; four that have a place; two bands; a pixel in another folder; a mosaic of two rasters and one
// of that mosaic; bands of three types with a coordinate system; and a pixel with the least sides.
static RASTERS: [FileOf<'static>; 16] = [
    ("five.bil", &[1, 2, 3, 4, 5]),
    ("five.hdr", b"NROWS 1\nNCOLS 5\n"),
    ("p.bil", &[1, 2, 3, 4]),
    ("p.hdr", b"NROWS 2\nNCOLS 2\nULXMAP 10.5\nULYMAP 49.5\n"),
    ("two.bil", &[1, 2, 3, 4, 5, 6, 7, 8, 9, 10, 11, 12]),
    ("two.hdr", b"NROWS 2\nNCOLS 3\nNBANDS 2\n"),
    ("d/one.bil", &[8]),
    ("d/one.hdr", b"NROWS 1\nNCOLS 1\n"),
    ("a.bil", &[5, 0, 0, 0, 7, 0]),
    (
        "a.hdr",
        b"NROWS 1\nNCOLS 3\nNBITS 16\nPIXELTYPE SIGNEDINT\n",
    ),
    ("b.bil", &[0, 0, 0, 0, 9, 0]),
    (
        "b.hdr",
        b"NROWS 1\nNCOLS 3\nNBITS 16\nPIXELTYPE SIGNEDINT\n",
    ),
    (
        "m.vrt",
        b"<VRTDataset rasterXSize='3' rasterYSize='1'><VRTRasterBand dataType='Int16'><NoDataValue>-1</NoDataValue>\
        <ComplexSource><SourceFilename>a.bil</SourceFilename><NODATA>0</NODATA></ComplexSource><ComplexSource>\
        <SourceFilename>b.bil</SourceFilename><NODATA>0</NODATA></ComplexSource></VRTRasterBand></VRTDataset>",
    ),
    (
        "o.vrt",
        b"<VRTDataset rasterXSize='3' rasterYSize='1'><VRTRasterBand dataType='Int16'><SimpleSource>\
        <SourceFilename>m.vrt</SourceFilename></SimpleSource></VRTRasterBand></VRTDataset>",
    ),
    (
        "mixed.vrt",
        b"<VRTDataset rasterXSize='2' rasterYSize='1'><SRS>X&lt;1&gt;</SRS><GeoTransform>0,-1,0,0,0,0.5</GeoTransform>\
        <VRTRasterBand dataType='Byte'><NoDataValue>9</NoDataValue></VRTRasterBand><VRTRasterBand dataType='Int16'>\
        <NoDataValue>-5</NoDataValue></VRTRasterBand><VRTRasterBand dataType='UInt32'/></VRTDataset>",
    ),
    (
        "least.vrt",
        b"<VRTDataset rasterXSize='1' rasterYSize='1'>\
        <GeoTransform>0,0.0000000000000001,0,0,0,-0.0000000000000001</GeoTransform><VRTRasterBand/></VRTDataset>",
    ),
];

pub fn rasters() -> &'static [FileOf<'static>] {
    &RASTERS
}

/// What a translation of the five pixels prints.
pub const FIVE_TEXT: &str =
    "Input file size is 5, 1\n0...10...20...30...40...50...60...70...80...90...100 - done.\n";

static STORIES: [Story<'static>; 17] = [
    (
        &[
            (
                "gdal_translate -q -of VRT -outsize 2 1 five.bil w.vrt",
                0,
                "",
                "",
            ),
            ("gdallocationinfo -valonly w.vrt 0 0", 0, "2\n", ""),
            ("gdallocationinfo -valonly w.vrt 1 0", 0, "4\n", ""),
            ("gdallocationinfo -valonly w.vrt 2 0", 0, "\n", ""),
            ("gdallocationinfo -lifonly w.vrt 1 0", 0, "five.bil\n", ""),
        ],
        &[(
            "w.vrt",
            b"<VRTDataset rasterXSize=\"2\" rasterYSize=\"1\">
  <VRTRasterBand dataType=\"Byte\" band=\"1\">
    <SimpleSource>
      <SourceFilename relativeToVRT=\"1\">five.bil</SourceFilename>
      <SourceBand>1</SourceBand>
      <SrcRect xOff=\"0\" yOff=\"0\" xSize=\"5\" ySize=\"1\"/>
      <DstRect xOff=\"0\" yOff=\"0\" xSize=\"2\" ySize=\"1\"/>
    </SimpleSource>
  </VRTRasterBand>
</VRTDataset>
",
        )],
    ),
    (
        &[("gdal_translate five.bil w.vrt", 0, FIVE_TEXT, "")],
        &[(
            "w.vrt",
            b"<VRTDataset rasterXSize=\"5\" rasterYSize=\"1\">
  <VRTRasterBand dataType=\"Byte\" band=\"1\">
    <SimpleSource>
      <SourceFilename relativeToVRT=\"1\">five.bil</SourceFilename>
      <SourceBand>1</SourceBand>
      <SrcRect xOff=\"0\" yOff=\"0\" xSize=\"5\" ySize=\"1\"/>
      <DstRect xOff=\"0\" yOff=\"0\" xSize=\"5\" ySize=\"1\"/>
    </SimpleSource>
  </VRTRasterBand>
</VRTDataset>
",
        )],
    ),
    (
        &[(
            "gdal_translate -of vRt five.bil -outsize 40% 100% w.VRT",
            0,
            FIVE_TEXT,
            "",
        )],
        &[(
            "w.VRT",
            b"<VRTDataset rasterXSize=\"2\" rasterYSize=\"1\">
  <VRTRasterBand dataType=\"Byte\" band=\"1\">
    <SimpleSource>
      <SourceFilename relativeToVRT=\"1\">five.bil</SourceFilename>
      <SourceBand>1</SourceBand>
      <SrcRect xOff=\"0\" yOff=\"0\" xSize=\"5\" ySize=\"1\"/>
      <DstRect xOff=\"0\" yOff=\"0\" xSize=\"2\" ySize=\"1\"/>
    </SimpleSource>
  </VRTRasterBand>
</VRTDataset>
",
        )],
    ),
    (
        &[
            (
                "gdal_translate -q -srcwin 3 0 4 1 -a_nodata 9 five.bil w.vrt",
                0,
                "",
                "",
            ),
            ("gdallocationinfo -valonly w.vrt 0 0", 0, "4\n", ""),
            ("gdallocationinfo -valonly w.vrt 1 0", 0, "5\n", ""),
            ("gdallocationinfo -valonly w.vrt 2 0", 0, "9\n", ""),
            ("gdallocationinfo -valonly w.vrt 3 0", 0, "9\n", ""),
        ],
        &[(
            "w.vrt",
            b"<VRTDataset rasterXSize=\"4\" rasterYSize=\"1\">
  <VRTRasterBand dataType=\"Byte\" band=\"1\">
    <NoDataValue>9</NoDataValue>
    <SimpleSource>
      <SourceFilename relativeToVRT=\"1\">five.bil</SourceFilename>
      <SourceBand>1</SourceBand>
      <SrcRect xOff=\"3\" yOff=\"0\" xSize=\"4\" ySize=\"1\"/>
      <DstRect xOff=\"0\" yOff=\"0\" xSize=\"4\" ySize=\"1\"/>
    </SimpleSource>
  </VRTRasterBand>
</VRTDataset>
",
        )],
    ),
    (
        &[
            ("gdal_translate -q -srcwin -1 -1 4 4 p.bil w.vrt", 0, "", ""),
            ("gdallocationinfo -valonly w.vrt 0 0", 0, "0\n", ""),
            ("gdallocationinfo -valonly w.vrt 1 1", 0, "1\n", ""),
            ("gdallocationinfo -valonly w.vrt 2 1", 0, "2\n", ""),
            ("gdallocationinfo -valonly w.vrt 1 2", 0, "3\n", ""),
            (
                "gdallocationinfo -valonly -geoloc w.vrt 11.5 48.5",
                0,
                "4\n",
                "",
            ),
            ("gdallocationinfo -valonly w.vrt 3 3", 0, "0\n", ""),
        ],
        &[(
            "w.vrt",
            b"<VRTDataset rasterXSize=\"4\" rasterYSize=\"4\">
  <GeoTransform>9, 1, 0, 51, 0, -1</GeoTransform>
  <VRTRasterBand dataType=\"Byte\" band=\"1\">
    <SimpleSource>
      <SourceFilename relativeToVRT=\"1\">p.bil</SourceFilename>
      <SourceBand>1</SourceBand>
      <SrcRect xOff=\"-1\" yOff=\"-1\" xSize=\"4\" ySize=\"4\"/>
      <DstRect xOff=\"0\" yOff=\"0\" xSize=\"4\" ySize=\"4\"/>
    </SimpleSource>
  </VRTRasterBand>
</VRTDataset>
",
        )],
    ),
    (
        &[
            (
                "gdal_translate -projwin 11 50 12 49 -q p.bil w.vrt",
                0,
                "",
                "",
            ),
            ("gdallocationinfo -valonly w.vrt 0 0", 0, "2\n", ""),
        ],
        &[(
            "w.vrt",
            b"<VRTDataset rasterXSize=\"1\" rasterYSize=\"1\">
  <GeoTransform>11, 1, 0, 50, 0, -1</GeoTransform>
  <VRTRasterBand dataType=\"Byte\" band=\"1\">
    <SimpleSource>
      <SourceFilename relativeToVRT=\"1\">p.bil</SourceFilename>
      <SourceBand>1</SourceBand>
      <SrcRect xOff=\"1\" yOff=\"0\" xSize=\"1\" ySize=\"1\"/>
      <DstRect xOff=\"0\" yOff=\"0\" xSize=\"1\" ySize=\"1\"/>
    </SimpleSource>
  </VRTRasterBand>
</VRTDataset>
",
        )],
    ),
    (
        &[
            ("gdal_translate -outsize 200% 0 -q p.bil w.vrt", 0, "", ""),
            ("gdallocationinfo -valonly w.vrt 1 1", 0, "1\n", ""),
            ("gdallocationinfo -valonly w.vrt 2 1", 0, "2\n", ""),
            ("gdallocationinfo -valonly w.vrt 1 2", 0, "3\n", ""),
            ("gdallocationinfo -valonly w.vrt 3 3", 0, "4\n", ""),
        ],
        &[(
            "w.vrt",
            b"<VRTDataset rasterXSize=\"4\" rasterYSize=\"4\">
  <GeoTransform>10, 0.5, 0, 50, 0, -0.5</GeoTransform>
  <VRTRasterBand dataType=\"Byte\" band=\"1\">
    <SimpleSource>
      <SourceFilename relativeToVRT=\"1\">p.bil</SourceFilename>
      <SourceBand>1</SourceBand>
      <SrcRect xOff=\"0\" yOff=\"0\" xSize=\"2\" ySize=\"2\"/>
      <DstRect xOff=\"0\" yOff=\"0\" xSize=\"4\" ySize=\"4\"/>
    </SimpleSource>
  </VRTRasterBand>
</VRTDataset>
",
        )],
    ),
    (
        &[
            (
                "gdal_translate -q -b 2 -b 1 -b 2 -srcwin 1 0 2 2 two.bil w.vrt",
                0,
                "",
                "",
            ),
            ("gdallocationinfo -valonly w.vrt 0 0", 0, "5\n2\n5\n", ""),
            ("gdallocationinfo -valonly w.vrt 1 1", 0, "12\n9\n12\n", ""),
        ],
        &[(
            "w.vrt",
            b"<VRTDataset rasterXSize=\"2\" rasterYSize=\"2\">
  <VRTRasterBand dataType=\"Byte\" band=\"1\">
    <SimpleSource>
      <SourceFilename relativeToVRT=\"1\">two.bil</SourceFilename>
      <SourceBand>2</SourceBand>
      <SrcRect xOff=\"1\" yOff=\"0\" xSize=\"2\" ySize=\"2\"/>
      <DstRect xOff=\"0\" yOff=\"0\" xSize=\"2\" ySize=\"2\"/>
    </SimpleSource>
  </VRTRasterBand>
  <VRTRasterBand dataType=\"Byte\" band=\"2\">
    <SimpleSource>
      <SourceFilename relativeToVRT=\"1\">two.bil</SourceFilename>
      <SourceBand>1</SourceBand>
      <SrcRect xOff=\"1\" yOff=\"0\" xSize=\"2\" ySize=\"2\"/>
      <DstRect xOff=\"0\" yOff=\"0\" xSize=\"2\" ySize=\"2\"/>
    </SimpleSource>
  </VRTRasterBand>
  <VRTRasterBand dataType=\"Byte\" band=\"3\">
    <SimpleSource>
      <SourceFilename relativeToVRT=\"1\">two.bil</SourceFilename>
      <SourceBand>2</SourceBand>
      <SrcRect xOff=\"1\" yOff=\"0\" xSize=\"2\" ySize=\"2\"/>
      <DstRect xOff=\"0\" yOff=\"0\" xSize=\"2\" ySize=\"2\"/>
    </SimpleSource>
  </VRTRasterBand>
</VRTDataset>
",
        )],
    ),
    (
        &[
            ("gdal_translate -q mixed.vrt w.vrt", 0, "", ""),
            ("gdallocationinfo -valonly w.vrt 0 0", 0, "9\n-5\n0\n", ""),
        ],
        &[(
            "w.vrt",
            b"<VRTDataset rasterXSize=\"2\" rasterYSize=\"1\">
  <SRS>X&lt;1&gt;</SRS>
  <GeoTransform>0, -1, 0, 0, 0, 0.5</GeoTransform>
  <VRTRasterBand dataType=\"Byte\" band=\"1\">
    <NoDataValue>9</NoDataValue>
    <SimpleSource>
      <SourceFilename relativeToVRT=\"1\">mixed.vrt</SourceFilename>
      <SourceBand>1</SourceBand>
      <SrcRect xOff=\"0\" yOff=\"0\" xSize=\"2\" ySize=\"1\"/>
      <DstRect xOff=\"0\" yOff=\"0\" xSize=\"2\" ySize=\"1\"/>
    </SimpleSource>
  </VRTRasterBand>
  <VRTRasterBand dataType=\"Int16\" band=\"2\">
    <NoDataValue>-5</NoDataValue>
    <SimpleSource>
      <SourceFilename relativeToVRT=\"1\">mixed.vrt</SourceFilename>
      <SourceBand>2</SourceBand>
      <SrcRect xOff=\"0\" yOff=\"0\" xSize=\"2\" ySize=\"1\"/>
      <DstRect xOff=\"0\" yOff=\"0\" xSize=\"2\" ySize=\"1\"/>
    </SimpleSource>
  </VRTRasterBand>
  <VRTRasterBand dataType=\"UInt32\" band=\"3\">
    <SimpleSource>
      <SourceFilename relativeToVRT=\"1\">mixed.vrt</SourceFilename>
      <SourceBand>3</SourceBand>
      <SrcRect xOff=\"0\" yOff=\"0\" xSize=\"2\" ySize=\"1\"/>
      <DstRect xOff=\"0\" yOff=\"0\" xSize=\"2\" ySize=\"1\"/>
    </SimpleSource>
  </VRTRasterBand>
</VRTDataset>
",
        )],
    ),
    (
        &[("gdal_translate -q -ot Int16 mixed.vrt w.vrt", 0, "", "")],
        &[(
            "w.vrt",
            b"<VRTDataset rasterXSize=\"2\" rasterYSize=\"1\">
  <SRS>X&lt;1&gt;</SRS>
  <GeoTransform>0, -1, 0, 0, 0, 0.5</GeoTransform>
  <VRTRasterBand dataType=\"Int16\" band=\"1\">
    <NoDataValue>9</NoDataValue>
    <SimpleSource>
      <SourceFilename relativeToVRT=\"1\">mixed.vrt</SourceFilename>
      <SourceBand>1</SourceBand>
      <SrcRect xOff=\"0\" yOff=\"0\" xSize=\"2\" ySize=\"1\"/>
      <DstRect xOff=\"0\" yOff=\"0\" xSize=\"2\" ySize=\"1\"/>
    </SimpleSource>
  </VRTRasterBand>
  <VRTRasterBand dataType=\"Int16\" band=\"2\">
    <NoDataValue>-5</NoDataValue>
    <SimpleSource>
      <SourceFilename relativeToVRT=\"1\">mixed.vrt</SourceFilename>
      <SourceBand>2</SourceBand>
      <SrcRect xOff=\"0\" yOff=\"0\" xSize=\"2\" ySize=\"1\"/>
      <DstRect xOff=\"0\" yOff=\"0\" xSize=\"2\" ySize=\"1\"/>
    </SimpleSource>
  </VRTRasterBand>
  <VRTRasterBand dataType=\"Int16\" band=\"3\">
    <SimpleSource>
      <SourceFilename relativeToVRT=\"1\">mixed.vrt</SourceFilename>
      <SourceBand>3</SourceBand>
      <SrcRect xOff=\"0\" yOff=\"0\" xSize=\"2\" ySize=\"1\"/>
      <DstRect xOff=\"0\" yOff=\"0\" xSize=\"2\" ySize=\"1\"/>
    </SimpleSource>
  </VRTRasterBand>
</VRTDataset>
",
        )],
    ),
    (
        &[
            ("gdal_translate -q -ot Byte mixed.vrt w.vrt", 0, "", ""),
            ("gdallocationinfo -valonly w.vrt 0 0", 0, "9\n0\n0\n", ""),
        ],
        &[(
            "w.vrt",
            b"<VRTDataset rasterXSize=\"2\" rasterYSize=\"1\">
  <SRS>X&lt;1&gt;</SRS>
  <GeoTransform>0, -1, 0, 0, 0, 0.5</GeoTransform>
  <VRTRasterBand dataType=\"Byte\" band=\"1\">
    <NoDataValue>9</NoDataValue>
    <SimpleSource>
      <SourceFilename relativeToVRT=\"1\">mixed.vrt</SourceFilename>
      <SourceBand>1</SourceBand>
      <SrcRect xOff=\"0\" yOff=\"0\" xSize=\"2\" ySize=\"1\"/>
      <DstRect xOff=\"0\" yOff=\"0\" xSize=\"2\" ySize=\"1\"/>
    </SimpleSource>
  </VRTRasterBand>
  <VRTRasterBand dataType=\"Byte\" band=\"2\">
    <SimpleSource>
      <SourceFilename relativeToVRT=\"1\">mixed.vrt</SourceFilename>
      <SourceBand>2</SourceBand>
      <SrcRect xOff=\"0\" yOff=\"0\" xSize=\"2\" ySize=\"1\"/>
      <DstRect xOff=\"0\" yOff=\"0\" xSize=\"2\" ySize=\"1\"/>
    </SimpleSource>
  </VRTRasterBand>
  <VRTRasterBand dataType=\"Byte\" band=\"3\">
    <SimpleSource>
      <SourceFilename relativeToVRT=\"1\">mixed.vrt</SourceFilename>
      <SourceBand>3</SourceBand>
      <SrcRect xOff=\"0\" yOff=\"0\" xSize=\"2\" ySize=\"1\"/>
      <DstRect xOff=\"0\" yOff=\"0\" xSize=\"2\" ySize=\"1\"/>
    </SimpleSource>
  </VRTRasterBand>
</VRTDataset>
",
        )],
    ),
    (
        &[(
            "gdal_translate -q -a_nodata none mixed.vrt w.vrt",
            0,
            "",
            "",
        )],
        &[(
            "w.vrt",
            b"<VRTDataset rasterXSize=\"2\" rasterYSize=\"1\">
  <SRS>X&lt;1&gt;</SRS>
  <GeoTransform>0, -1, 0, 0, 0, 0.5</GeoTransform>
  <VRTRasterBand dataType=\"Byte\" band=\"1\">
    <SimpleSource>
      <SourceFilename relativeToVRT=\"1\">mixed.vrt</SourceFilename>
      <SourceBand>1</SourceBand>
      <SrcRect xOff=\"0\" yOff=\"0\" xSize=\"2\" ySize=\"1\"/>
      <DstRect xOff=\"0\" yOff=\"0\" xSize=\"2\" ySize=\"1\"/>
    </SimpleSource>
  </VRTRasterBand>
  <VRTRasterBand dataType=\"Int16\" band=\"2\">
    <SimpleSource>
      <SourceFilename relativeToVRT=\"1\">mixed.vrt</SourceFilename>
      <SourceBand>2</SourceBand>
      <SrcRect xOff=\"0\" yOff=\"0\" xSize=\"2\" ySize=\"1\"/>
      <DstRect xOff=\"0\" yOff=\"0\" xSize=\"2\" ySize=\"1\"/>
    </SimpleSource>
  </VRTRasterBand>
  <VRTRasterBand dataType=\"UInt32\" band=\"3\">
    <SimpleSource>
      <SourceFilename relativeToVRT=\"1\">mixed.vrt</SourceFilename>
      <SourceBand>3</SourceBand>
      <SrcRect xOff=\"0\" yOff=\"0\" xSize=\"2\" ySize=\"1\"/>
      <DstRect xOff=\"0\" yOff=\"0\" xSize=\"2\" ySize=\"1\"/>
    </SimpleSource>
  </VRTRasterBand>
</VRTDataset>
",
        )],
    ),
    (
        &[
            ("gdal_translate -q five.bil e/w.vrt", 0, "", ""),
            ("gdallocationinfo -valonly five.bil 0 0", 0, "1\n", ""),
        ],
        &[(
            "e/w.vrt",
            b"<VRTDataset rasterXSize=\"5\" rasterYSize=\"1\">
  <VRTRasterBand dataType=\"Byte\" band=\"1\">
    <SimpleSource>
      <SourceFilename relativeToVRT=\"0\">five.bil</SourceFilename>
      <SourceBand>1</SourceBand>
      <SrcRect xOff=\"0\" yOff=\"0\" xSize=\"5\" ySize=\"1\"/>
      <DstRect xOff=\"0\" yOff=\"0\" xSize=\"5\" ySize=\"1\"/>
    </SimpleSource>
  </VRTRasterBand>
</VRTDataset>
",
        )],
    ),
    (
        &[
            ("gdal_translate -q d/one.bil d/../w.vrt", 0, "", ""),
            ("gdallocationinfo -valonly w.vrt 0 0", 0, "8\n", ""),
        ],
        &[(
            "w.vrt",
            b"<VRTDataset rasterXSize=\"1\" rasterYSize=\"1\">
  <VRTRasterBand dataType=\"Byte\" band=\"1\">
    <SimpleSource>
      <SourceFilename relativeToVRT=\"1\">d/one.bil</SourceFilename>
      <SourceBand>1</SourceBand>
      <SrcRect xOff=\"0\" yOff=\"0\" xSize=\"1\" ySize=\"1\"/>
      <DstRect xOff=\"0\" yOff=\"0\" xSize=\"1\" ySize=\"1\"/>
    </SimpleSource>
  </VRTRasterBand>
</VRTDataset>
",
        )],
    ),
    (
        &[
            ("gdal_translate -q d/one.bil d/w.vrt", 0, "", ""),
            ("gdallocationinfo -valonly d/w.vrt 0 0", 0, "8\n", ""),
        ],
        &[(
            "d/w.vrt",
            b"<VRTDataset rasterXSize=\"1\" rasterYSize=\"1\">
  <VRTRasterBand dataType=\"Byte\" band=\"1\">
    <SimpleSource>
      <SourceFilename relativeToVRT=\"1\">one.bil</SourceFilename>
      <SourceBand>1</SourceBand>
      <SrcRect xOff=\"0\" yOff=\"0\" xSize=\"1\" ySize=\"1\"/>
      <DstRect xOff=\"0\" yOff=\"0\" xSize=\"1\" ySize=\"1\"/>
    </SimpleSource>
  </VRTRasterBand>
</VRTDataset>
",
        )],
    ),
    (
        &[
            (
                "gdal_translate -q -ot Byte -a_nodata none m.vrt w.vrt",
                0,
                "",
                "",
            ),
            ("gdallocationinfo -valonly w.vrt 0 0", 0, "5\n", ""),
            ("gdallocationinfo -valonly w.vrt 1 0", 0, "0\n", ""),
            ("gdal_translate -q w.vrt v.asc", 0, "", ""),
        ],
        &[
            (
                "w.vrt",
                b"<VRTDataset rasterXSize=\"3\" rasterYSize=\"1\">
  <VRTRasterBand dataType=\"Byte\" band=\"1\">
    <SimpleSource>
      <SourceFilename relativeToVRT=\"1\">m.vrt</SourceFilename>
      <SourceBand>1</SourceBand>
      <SrcRect xOff=\"0\" yOff=\"0\" xSize=\"3\" ySize=\"1\"/>
      <DstRect xOff=\"0\" yOff=\"0\" xSize=\"3\" ySize=\"1\"/>
    </SimpleSource>
  </VRTRasterBand>
</VRTDataset>
",
            ),
            (
                "v.asc",
                b"ncols        3
nrows        1
xllcorner    0
yllcorner    0
cellsize     1
5 0 9
",
            ),
        ],
    ),
    (
        &[("gdal_translate -q -outsize 2 2 least.vrt w.vrt", 0, "", "")],
        &[(
            "w.vrt",
            b"<VRTDataset rasterXSize=\"2\" rasterYSize=\"2\">
  <GeoTransform>0, 0.0000000000000001, 0, 0, 0, -0.0000000000000001</GeoTransform>
  <VRTRasterBand dataType=\"Byte\" band=\"1\">
    <SimpleSource>
      <SourceFilename relativeToVRT=\"1\">least.vrt</SourceFilename>
      <SourceBand>1</SourceBand>
      <SrcRect xOff=\"0\" yOff=\"0\" xSize=\"1\" ySize=\"1\"/>
      <DstRect xOff=\"0\" yOff=\"0\" xSize=\"2\" ySize=\"2\"/>
    </SimpleSource>
  </VRTRasterBand>
</VRTDataset>
",
        )],
    ),
];

#[test]
fn translations_to_documents(rt: HostRuntime) {
    none_wrong(&rt, first_astray(&rt, rt.alloc(), rasters(), &STORIES));
}
