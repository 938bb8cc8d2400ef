// Datasets that mosaics are made of: documents without sources, and raw files.
use lists_and_answers::Items;
use outside::{Listed, MemFolder, Name};
use std::alloc::Global;

/// A name, and the text of its file.
type FileOf = (&'static str, &'static str);

// One line of two pixels, beside one another.
static PLAIN: [FileOf; 10] = [
    (
        "a.vrt",
        "<VRTDataset rasterXSize='2' rasterYSize='1'><GeoTransform>0,1,0,1,0,-1</GeoTransform>\
        <VRTRasterBand dataType='Byte'/></VRTDataset>",
    ),
    (
        "b.vrt",
        "<VRTDataset rasterXSize='2' rasterYSize='1'><GeoTransform>2,1,0,1,0,-1</GeoTransform>\
        <VRTRasterBand dataType='Byte'/></VRTDataset>",
    ),
    (
        "d/c.vrt",
        "<VRTDataset rasterXSize='2' rasterYSize='1'><GeoTransform>4,1,0,1,0,-1</GeoTransform>\
        <VRTRasterBand dataType='Byte'/></VRTDataset>",
    ),
    (
        "two.vrt",
        "<VRTDataset rasterXSize='2' rasterYSize='1'><GeoTransform>0,1,0,1,0,-1</GeoTransform>\
        <VRTRasterBand dataType='Byte'/><VRTRasterBand dataType='Byte'/></VRTDataset>",
    ),
    (
        "int.vrt",
        "<VRTDataset rasterXSize='2' rasterYSize='1'><GeoTransform>0,1,0,1,0,-1</GeoTransform>\
        <VRTRasterBand dataType='Int16'/></VRTDataset>",
    ),
    (
        "byte_int.vrt",
        "<VRTDataset rasterXSize='2' rasterYSize='1'><GeoTransform>0,1,0,1,0,-1</GeoTransform>\
        <VRTRasterBand dataType='Byte'/><VRTRasterBand dataType='Int16'/></VRTDataset>",
    ),
    (
        "int_byte.vrt",
        "<VRTDataset rasterXSize='2' rasterYSize='1'><GeoTransform>0,1,0,1,0,-1</GeoTransform>\
        <VRTRasterBand dataType='Int16'/><VRTRasterBand dataType='Byte'/></VRTDataset>",
    ),
    (
        "placeless.vrt",
        "<VRTDataset rasterXSize='2' rasterYSize='1'><VRTRasterBand dataType='Byte'/></VRTDataset>",
    ),
    (
        "west.vrt",
        "<VRTDataset rasterXSize='2' rasterYSize='1'><GeoTransform>0,-1,0,1,0,-1</GeoTransform>\
        <VRTRasterBand dataType='Byte'/></VRTDataset>",
    ),
    (
        "north.vrt",
        "<VRTDataset rasterXSize='2' rasterYSize='1'><GeoTransform>0,1,0,1,0,1</GeoTransform>\
        <VRTRasterBand dataType='Byte'/></VRTDataset>",
    ),
];

// The same with coordinate systems; `lost` has one and no place, and each of the next differs from `a` in one thing
// less than the one before.
static NAMED: [FileOf; 7] = [
    (
        "x.vrt",
        "<VRTDataset rasterXSize='2' rasterYSize='1'><SRS>X&lt;1&gt;</SRS><GeoTransform>0,1,0,1,0,-1</GeoTransform>\
        <VRTRasterBand dataType='Byte'/></VRTDataset>",
    ),
    (
        "y.vrt",
        "<VRTDataset rasterXSize='2' rasterYSize='1'><SRS>X&lt;2&gt;</SRS><GeoTransform>0,1,0,1,0,-1</GeoTransform>\
        <VRTRasterBand dataType='Byte'/></VRTDataset>",
    ),
    (
        "empty.vrt",
        "<VRTDataset rasterXSize='2' rasterYSize='1'><SRS></SRS><GeoTransform>0,1,0,1,0,-1</GeoTransform>\
        <VRTRasterBand dataType='Byte'/></VRTDataset>",
    ),
    (
        "x_pair.vrt",
        "<VRTDataset rasterXSize='2' rasterYSize='1'><SRS>X&lt;1&gt;</SRS><GeoTransform>2,1,0,1,0,-1</GeoTransform>\
        <VRTRasterBand dataType='Byte'/><VRTRasterBand dataType='Byte'/></VRTDataset>",
    ),
    (
        "lost.vrt",
        "<VRTDataset rasterXSize='2' rasterYSize='1'><SRS>X&lt;1&gt;</SRS><VRTRasterBand dataType='Int16'/>\
        <VRTRasterBand dataType='Byte'/></VRTDataset>",
    ),
    (
        "other.vrt",
        "<VRTDataset rasterXSize='2' rasterYSize='1'><SRS>X&lt;1&gt;</SRS><GeoTransform>0,1,0,1,0,-1</GeoTransform>\
        <VRTRasterBand dataType='Int16'/><VRTRasterBand dataType='Byte'/></VRTDataset>",
    ),
    (
        "ints.vrt",
        "<VRTDataset rasterXSize='2' rasterYSize='1'><GeoTransform>0,1,0,1,0,-1</GeoTransform>\
        <VRTRasterBand dataType='Int16'/><VRTRasterBand dataType='Int16'/></VRTDataset>",
    ),
];

// Bands with NODATA.
static MARKED: [FileOf; 4] = [
    (
        "nine.vrt",
        "<VRTDataset rasterXSize='2' rasterYSize='1'><GeoTransform>0,1,0,1,0,-1</GeoTransform>\
        <VRTRasterBand dataType='Byte'><NoDataValue>9</NoDataValue></VRTRasterBand></VRTDataset>",
    ),
    (
        "seven.vrt",
        "<VRTDataset rasterXSize='2' rasterYSize='1'><GeoTransform>2,1,0,1,0,-1</GeoTransform>\
        <VRTRasterBand dataType='Byte'><NoDataValue>7</NoDataValue></VRTRasterBand></VRTDataset>",
    ),
    (
        "below.vrt",
        "<VRTDataset rasterXSize='2' rasterYSize='1'><GeoTransform>0,1,0,1,0,-1</GeoTransform>\
        <VRTRasterBand dataType='Int16'><NoDataValue>-5</NoDataValue></VRTRasterBand></VRTDataset>",
    ),
    (
        "nine_none.vrt",
        "<VRTDataset rasterXSize='2' rasterYSize='1'><GeoTransform>0,1,0,1,0,-1</GeoTransform>\
        <VRTRasterBand dataType='Byte'><NoDataValue>9</NoDataValue></VRTRasterBand><VRTRasterBand dataType='Byte'/>\
        </VRTDataset>",
    ),
];

// Rasters of other sides and places.
static PLACED: [FileOf; 14] = [
    (
        "one.vrt",
        "<VRTDataset rasterXSize='4' rasterYSize='2'><GeoTransform>0,1,0,2,0,-1</GeoTransform><VRTRasterBand/>\
        </VRTDataset>",
    ),
    (
        "fine.vrt",
        "<VRTDataset rasterXSize='4' rasterYSize='4'><GeoTransform>4,0.5,0,2,0,-0.5</GeoTransform><VRTRasterBand/>\
        </VRTDataset>",
    ),
    (
        "flat.vrt",
        "<VRTDataset rasterXSize='2' rasterYSize='8'><GeoTransform>6,2,0,2,0,-0.25</GeoTransform><VRTRasterBand/>\
        </VRTDataset>",
    ),
    (
        "small_int.vrt",
        "<VRTDataset rasterXSize='4' rasterYSize='2'><GeoTransform>90,0.125,0,90,0,-0.125</GeoTransform>\
        <VRTRasterBand dataType='Int16'/></VRTDataset>",
    ),
    (
        "west_and_south.vrt",
        "<VRTDataset rasterXSize='1' rasterYSize='1'><GeoTransform>-3,1,0,-7,0,-1</GeoTransform><VRTRasterBand/>\
        </VRTDataset>",
    ),
    (
        "three.vrt",
        "<VRTDataset rasterXSize='3' rasterYSize='3'><GeoTransform>0,1,0,0,0,-1</GeoTransform><VRTRasterBand/>\
        </VRTDataset>",
    ),
    (
        "double.vrt",
        "<VRTDataset rasterXSize='3' rasterYSize='3'><GeoTransform>2.5,2,0,0,0,-2</GeoTransform><VRTRasterBand/>\
        </VRTDataset>",
    ),
    (
        "least.vrt",
        "<VRTDataset rasterXSize='100' rasterYSize='1'>\
        <GeoTransform>0,0.0000000000000001,0,0,0,-0.0000000000000001</GeoTransform><VRTRasterBand/></VRTDataset>",
    ),
    (
        "twice_least.vrt",
        "<VRTDataset rasterXSize='100' rasterYSize='1'>\
        <GeoTransform>0,0.0000000000000002,0,0,0,-0.0000000000000002</GeoTransform><VRTRasterBand/></VRTDataset>",
    ),
    (
        "origin.vrt",
        "<VRTDataset rasterXSize='1' rasterYSize='1'><GeoTransform>0,1,0,0,0,-1</GeoTransform><VRTRasterBand/>\
        </VRTDataset>",
    ),
    (
        "last.vrt",
        "<VRTDataset rasterXSize='1' rasterYSize='1'><GeoTransform>4194303,1,0,-4194303,0,-1</GeoTransform>\
        <VRTRasterBand/></VRTDataset>",
    ),
    (
        "wide.vrt",
        "<VRTDataset rasterXSize='4194304' rasterYSize='1'><GeoTransform>0,2,0,1,0,-1</GeoTransform><VRTRasterBand/>\
        </VRTDataset>",
    ),
    (
        "tall.vrt",
        "<VRTDataset rasterXSize='1' rasterYSize='4194304'><GeoTransform>0,1,0,1,0,-2</GeoTransform><VRTRasterBand/>\
        </VRTDataset>",
    ),
    (
        "far.vrt",
        "<VRTDataset rasterXSize='1' rasterYSize='1'><GeoTransform>4194304,1,0,0,0,-1</GeoTransform><VRTRasterBand/>\
        </VRTDataset>",
    ),
];

// Pixels at the ends of what a place can be: the west side of the first lies half a part of 10^16 within the limit,
// that of the second a part and a half, and the top of the third half a part.
static FAR: [FileOf; 8] = [
    ("at_the_end.bil", "0"),
    (
        "at_the_end.hdr",
        "NROWS 1\nNCOLS 1\nULXMAP -999999999999.9999999999999999\nULYMAP 0\nXDIM 0.0000000000000001\nYDIM 1\n",
    ),
    ("near_the_end.bil", "0"),
    (
        "near_the_end.hdr",
        "NROWS 1\nNCOLS 1\nULXMAP -999999999999.9999999999999998\nULYMAP 0\nXDIM 0.0000000000000001\nYDIM 1\n",
    ),
    ("at_the_top.bil", "0"),
    (
        "at_the_top.hdr",
        "NROWS 1\nNCOLS 1\nULXMAP 0\nULYMAP 999999999999.9999999999999999\nXDIM 1\nYDIM 0.0000000000000001\n",
    ),
    (
        "south.vrt",
        "<VRTDataset rasterXSize='1' rasterYSize='1'><GeoTransform>0,1,0,-4194304,0,-1</GeoTransform><VRTRasterBand/>\
        </VRTDataset>",
    ),
    (
        "four.vrt",
        "<VRTDataset rasterXSize='1' rasterYSize='1'><GeoTransform>0,1,0,0,0,-1</GeoTransform><VRTRasterBand/>\
        <VRTRasterBand/><VRTRasterBand/><VRTRasterBand/></VRTDataset>",
    ),
];

/// Puts a file, and tells whether it was put.
pub fn put(alloc: Global, folder: &mut MemFolder, name: &str, bytes: &[u8]) -> bool {
    match Name::read(alloc, name) {
        Ok(name) => folder.put(&name, bytes).is_ok(),
        Err(_) => false,
    }
}

fn put_all(alloc: Global, folder: &mut MemFolder, files: &[FileOf]) -> bool {
    for (name, text) in files {
        if !put(alloc, folder, name, text.as_bytes()) {
            return false;
        }
    }
    true
}

fn put_each(alloc: Global, folder: &mut MemFolder) -> bool {
    put_all(alloc, folder, &PLAIN)
        && put_all(alloc, folder, &NAMED)
        && put_all(alloc, folder, &MARKED)
        && put_all(alloc, folder, &PLACED)
        && put_all(alloc, folder, &FAR)
}

/// A folder with these datasets, where they are put.
pub fn folder(alloc: Global) -> Option<MemFolder> {
    let mut folder = MemFolder::new(alloc, Listed::new(Items::new(alloc)));
    if put_each(alloc, &mut folder) {
        Some(folder)
    } else {
        None
    }
}
