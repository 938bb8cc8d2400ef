// The sources of plans, as documents without sources of their own.

// Five columns and one line of bytes.
const FIVE: &str = "<VRTDataset rasterXSize=\"5\" rasterYSize=\"1\">\
    <VRTRasterBand dataType=\"Byte\">\
    </VRTRasterBand>\
    </VRTDataset>";

// The same with two bands.
const PAIR: &str = "<VRTDataset rasterXSize=\"5\" rasterYSize=\"1\">\
    <VRTRasterBand dataType=\"Byte\">\
    </VRTRasterBand>\
    <VRTRasterBand dataType=\"Byte\">\
    </VRTRasterBand>\
    </VRTDataset>";

/// Three bands: Byte with the NODATA 9, Int16 with -5, UInt16 with 9.
pub const THREE: &str = "<VRTDataset rasterXSize=\"5\" rasterYSize=\"1\">\
    <VRTRasterBand dataType=\"Byte\">\
    <NoDataValue>9</NoDataValue>\
    </VRTRasterBand>\
    <VRTRasterBand dataType=\"Int16\">\
    <NoDataValue>-5</NoDataValue>\
    </VRTRasterBand>\
    <VRTRasterBand dataType=\"UInt16\">\
    <NoDataValue>9</NoDataValue>\
    </VRTRasterBand>\
    </VRTDataset>";

// A band of UInt32 with its greatest number as NODATA.
const WIDE: &str = "<VRTDataset rasterXSize=\"5\" rasterYSize=\"1\">\
    <VRTRasterBand dataType=\"UInt32\">\
    <NoDataValue>4294967295</NoDataValue>\
    </VRTRasterBand>\
    </VRTDataset>";

// Ten columns and lines of one unit, whose upper left corner is (0, 10).
const TEN: &str = "<VRTDataset rasterXSize=\"10\" rasterYSize=\"10\">\
    <GeoTransform>0,1,0,10,0,-1</GeoTransform>\
    <VRTRasterBand dataType=\"Byte\">\
    </VRTRasterBand>\
    </VRTDataset>";

// Two columns and lines of two units.
const TWO: &str = "<VRTDataset rasterXSize=\"2\" rasterYSize=\"2\">\
    <GeoTransform>9,2,0,23,0,-2</GeoTransform>\
    <VRTRasterBand dataType=\"Int32\">\
    </VRTRasterBand>\
    </VRTDataset>";

/// Three lines of two columns and two bands, whose upper left corner is (0, 10).
pub const PLACED: &str = "<VRTDataset rasterXSize=\"2\" rasterYSize=\"3\">\
    <GeoTransform>0,1,0,10,0,-0.5</GeoTransform>\
    <VRTRasterBand dataType=\"Int16\"></VRTRasterBand>\
    <VRTRasterBand dataType=\"Int16\"></VRTRasterBand></VRTDataset>";

// Columns that go west.
const WESTWARD: &str = "<VRTDataset rasterXSize=\"2\" rasterYSize=\"2\">\
    <GeoTransform>0,-1,0,0,0,-1</GeoTransform>\
    <VRTRasterBand dataType=\"Byte\">\
    </VRTRasterBand>\
    </VRTDataset>";

// Lines that go north.
const NORTHWARD: &str = "<VRTDataset rasterXSize=\"2\" rasterYSize=\"2\">\
    <GeoTransform>0,1,0,0,0,1</GeoTransform>\
    <VRTRasterBand dataType=\"Byte\">\
    </VRTRasterBand>\
    </VRTDataset>";

// A pixel with the least sides of 16 places.
const SMALL: &str = "<VRTDataset rasterXSize=\"1\" rasterYSize=\"1\">\
    <GeoTransform>0,0.0000000000000001,0,0,0,-0.0000000000000001</GeoTransform>\
    <VRTRasterBand dataType=\"Byte\">\
    </VRTRasterBand>\
    </VRTDataset>";

// A pixel whose corner is a quarter of a unit within the limit of places, and whose centre is past it.
const EAST: &str = "<VRTDataset rasterXSize=\"1\" rasterYSize=\"1\">\
    <GeoTransform>999999999999.75,1,0,0,0,-1</GeoTransform>\
    <VRTRasterBand dataType=\"Byte\">\
    </VRTRasterBand>\
    </VRTDataset>";

// The same at the other end, along the lines.
const NORTH: &str = "<VRTDataset rasterXSize=\"1\" rasterYSize=\"1\">\
    <GeoTransform>0,1,0,-999999999999.75,0,-1</GeoTransform>\
    <VRTRasterBand dataType=\"Byte\">\
    </VRTRasterBand>\
    </VRTDataset>";

// A pixel whose corner is a unit within the limit of places.
const FAR: &str = "<VRTDataset rasterXSize=\"1\" rasterYSize=\"1\">\
    <GeoTransform>999999999999,1,0,0,0,-1</GeoTransform>\
    <VRTRasterBand dataType=\"Byte\">\
    </VRTRasterBand>\
    </VRTDataset>";

// The posts of a cell of level 0.
const CELL: &str = "<VRTDataset rasterXSize=\"121\" rasterYSize=\"121\">\
    <GeoTransform>-0.0041666666666667,0.0083333333333333,0,1.0041666666666667,0,-0.0083333333333333</GeoTransform>\
    <VRTRasterBand dataType=\"Int16\">\
    <NoDataValue>-9999</NoDataValue>\
    </VRTRasterBand>\
    </VRTDataset>";

// The posts of a cell of level 1, which is a tile too.
const TILE: &str = "<VRTDataset rasterXSize=\"1201\" rasterYSize=\"1201\">\
    <GeoTransform>-0.0004166666666667,0.0008333333333333,0,1.0004166666666667,0,-0.0008333333333333</GeoTransform>\
    <VRTRasterBand dataType=\"Int16\">\
    </VRTRasterBand>\
    </VRTDataset>";

// The sources by their names.
const SOURCES: [(&str, &str); 15] = [
    ("five", FIVE),
    ("pair", PAIR),
    ("three", THREE),
    ("wide", WIDE),
    ("ten", TEN),
    ("two", TWO),
    ("placed", PLACED),
    ("westward", WESTWARD),
    ("northward", NORTHWARD),
    ("small", SMALL),
    ("east", EAST),
    ("north", NORTH),
    ("far", FAR),
    ("cell", CELL),
    ("tile", TILE),
];

fn find<'a>(sources: &[(&str, &'a str)], name: &str) -> Option<&'a str> {
    for (own, text) in sources {
        if *own == name {
            return Some(text);
        }
    }
    None
}

/// The text of the source of this name, or none, which is no dataset.
pub fn text_of(name: &str) -> &'static str {
    find(&SOURCES, name).unwrap_or("")
}
