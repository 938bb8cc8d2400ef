// Translations to cells and tiles and from them: their bytes, and how many calls they make.
use crate::cells::TILE;
use crate::stories::{first_unrefused, has, says_all};
use crate::trials::{
    FileOf, Part, Row, add_parts, folder_of, is_number, joined, none_wrong, says_in,
};
use outside::{CountingFolder, MemFolder};
use std::alloc::Global;
use std::process::Abort;
use std::test::*;
use std::thread::Threads;

// The raster of a cell between the equator and one degree north, and the meridian and one degree east. Its north-west
// pixel is -32768, and all others are 0.
static FILES: [FileOf<'static>; 3] = [
    (
        "t.vrt",
        b"<VRTDataset rasterXSize=\"121\" rasterYSize=\"121\">
  <GeoTransform>-0.0041666666666667, 0.0083333333333333, 0, 1.0041666666666667, 0, -0.0083333333333333</GeoTransform>
  <VRTRasterBand dataType=\"Int16\">
    <SimpleSource>
      <SourceFilename>one.bil</SourceFilename>
      <DstRect xOff=\"0\" yOff=\"0\" xSize=\"1\" ySize=\"1\"/>
    </SimpleSource>
  </VRTRasterBand>
</VRTDataset>
",
    ),
    ("one.bil", &[0, 128]),
    (
        "one.hdr",
        b"NROWS 1\nNCOLS 1\nNBITS 16\nPIXELTYPE SIGNEDINT\n",
    ),
];

fn files() -> &'static [FileOf<'static>] {
    &FILES
}

const TEXT: &str =
    "Input file size is 121, 121\n0...10...20...30...40...50...60...70...80...90...100 - done.\n";

// The cell with so many blocks and workers, and a pixel of it while the sums of all its records are checked.
static MADE: [[Row<'static>; 2]; 5] = [
    [
        ("gdal_translate --blocks 1 t.vrt out.dt0", 0, TEXT, ""),
        CHECKED,
    ],
    [
        ("gdal_translate --blocks 64 t.vrt out.dt0", 0, TEXT, ""),
        CHECKED,
    ],
    [
        (
            "gdal_translate --blocks 1 --workers 4 t.vrt out.dt0",
            0,
            TEXT,
            "",
        ),
        CHECKED,
    ],
    [
        ("gdal_translate -q --blocks 200 t.vrt out.dt0", 0, "", ""),
        CHECKED,
    ],
    [
        ("gdal_translate t.vrt out.dt0 -of dted", 0, TEXT, ""),
        CHECKED,
    ],
];

const CHECKED: Row<'static> = (
    "gdallocationinfo --config DTED_VERIFY_CHECKSUM YES -valonly out.dt0 0 0",
    0,
    "-32767\n",
    "",
);

// The head of the cell, and the record of the first column, whose northern point is the null elevation, with its sum.
static FIRST: [Part<'static>; 13] = [
    (b"UHL10000000E0000000N03000300NA  U", 1),
    (b" ", 14),
    (b"012101210", 1),
    (b" ", 24),
    (b"DSIU", 1),
    (b" ", 55),
    (b"DTED0", 1),
    (b" ", 584),
    (b"ACC", 1),
    (b" ", 2697),
    (&[170, 0, 0, 0, 0, 0, 0, 0], 1),
    (&[0], 240),
    (&[255, 255, 0, 0, 2, 168], 1),
];

// Adds the record of a column whose points are 0, with the sum of all its bytes.
fn add_record<R: Abort>(rt: &R, bytes: &mut Vec<u8>, column: u8) {
    let sum = (170 + 2 * column as u16).to_be_bytes();
    let record: [Part<'_>; 3] = [
        (&[170, 0, 0, column, 0, column, 0, 0], 1),
        (&[0], 244),
        (&sum, 1),
    ];
    add_parts(rt, bytes, &record);
}

// The bytes of the cell.
fn cell<R: Abort>(rt: &R, alloc: Global) -> Vec<u8> {
    let mut bytes = joined(rt, alloc, &FIRST);
    for column in 1..121u8 {
        add_record(rt, &mut bytes, column);
    }
    bytes
}

// Whether these runs say what is listed, and make these bytes.
fn makes<R: Threads + Sync + Abort>(rt: &R, alloc: Global, rows: &[Row<'_>], cell: &[u8]) -> bool {
    let mut folder = folder_of(rt, alloc, files(), &[]);
    says_all(rt, alloc, &mut folder, rows) && has(rt, alloc, &folder, ("out.dt0", cell))
}

// The first of these that makes another cell.
fn first_unlike<R: Threads + Sync + Abort>(
    rt: &R,
    alloc: Global,
    cell: &[u8],
    made: &[[Row<'_>; 2]],
) -> Option<usize> {
    for (at, rows) in made.iter().enumerate() {
        if !makes(rt, alloc, rows, cell) {
            return Some(at);
        }
    }
    None
}

#[test]
fn cells_are_made(rt: HostRuntime) {
    let cell = cell(&rt, rt.alloc());
    is_number(&rt, cell.len() as u64, 34_162);
    none_wrong(&rt, first_unlike(&rt, rt.alloc(), &cell, &MADE));
}

static REFUSED: [Row<'static>; 6] = [
    (
        "gdal_translate t.vrt out.dt1",
        1,
        "",
        "ERROR 6: raster doesn't fit the format\n",
    ),
    (
        "gdal_translate t.vrt N00E000.hgt",
        1,
        "",
        "ERROR 6: raster doesn't fit the format\n",
    ),
    (
        "gdal_translate -ot Int32 t.vrt out.dt0",
        1,
        "",
        "ERROR 6: raster doesn't fit the format\n",
    ),
    (
        "gdal_translate -a_nodata none t.vrt out.dt0",
        1,
        "",
        "ERROR 6: raster doesn't fit the format\n",
    ),
    (
        "gdal_translate --blocks 1 --workers 17 t.vrt out.dt0",
        1,
        "",
        "ERROR 1: word 4 doesn't fit\n",
    ),
    (
        "gdal_translate -of DTED t.vrt out.bil",
        1,
        "",
        "ERROR 1: word 4 doesn't fit\n",
    ),
];

#[test]
fn refused_cells(rt: HostRuntime) {
    none_wrong(&rt, first_unrefused(&rt, rt.alloc(), files(), &REFUSED));
}

// A cell as raw data: the header, and the data, of which all is 0 but for the null elevation.
const BACK: Row<'static> = ("gdal_translate --blocks 121 out.dt0 back.bil", 0, TEXT, "");

const BACK_HEADER: &[u8] = b"BYTEORDER      I
LAYOUT         BIL
NROWS          121
NCOLS          121
NBANDS         1
NBITS          16
SKIPBYTES      0
BANDROWBYTES   242
TOTALROWBYTES  242
BANDGAPBYTES   0
PIXELTYPE      SIGNEDINT
NODATA         -32767
ULXMAP         0
ULYMAP         1
XDIM           0.0083333333333333
YDIM           0.0083333333333333
";

static BACK_DATA: [Part<'static>; 2] = [(&[1, 128], 1), (&[0], 29_280)];

fn has_back<R: Abort>(rt: &R, alloc: Global, folder: &MemFolder) -> bool {
    let back = joined(rt, alloc, &BACK_DATA);
    has(rt, alloc, folder, ("back.bil", &back)) && has(rt, alloc, folder, ("back.hdr", BACK_HEADER))
}

// A folder in which the cell stands, and which counts calls.
fn folder_with_cell<R: Abort>(rt: &R, alloc: Global) -> CountingFolder<MemFolder> {
    let cell = cell(rt, alloc);
    CountingFolder::new(folder_of(rt, alloc, &[("out.dt0", &cell)], &[]))
}

// Whether a cell becomes raw data with few reads.
fn reads_few<R: Threads + Sync + Abort>(rt: &R, alloc: Global) -> bool {
    let mut folder = folder_with_cell(rt, alloc);
    let said = says_in(rt, alloc, &mut folder, &BACK);
    let reads = folder.reads();
    let folder = folder.into_inner();
    said && reads <= 1000 && has_back(rt, alloc, &folder)
}

#[test]
fn columns_are_read_once(rt: HostRuntime) {
    assert!(rt; reads_few(&rt, rt.alloc()));
}

const FORTH: Row<'static> = ("gdal_translate --blocks 200 t.vrt out.dt0", 0, TEXT, "");

// Whether a cell is made with few writes.
fn writes_few<R: Threads + Sync + Abort>(rt: &R, alloc: Global) -> bool {
    let mut folder = CountingFolder::new(folder_of(rt, alloc, files(), &[]));
    says_in(rt, alloc, &mut folder, &FORTH) && folder.writes() <= 1000
}

#[test]
fn columns_are_written_once(rt: HostRuntime) {
    assert!(rt; writes_few(&rt, rt.alloc()));
}

// A tile under its own name in another folder, in letters of any case, and under that of another tile.
static TILES: [Row<'static>; 2] = [
    ("gdal_translate -q N00E000.hgt d/n00e000.HGT", 0, "", ""),
    (
        "gdal_translate -q N00E000.hgt N00E001.hgt",
        1,
        "",
        "ERROR 6: raster doesn't fit the format\n",
    ),
];

fn is_copied<R: Threads + Sync + Abort>(rt: &R, alloc: Global) -> bool {
    let tile = joined(rt, alloc, &TILE);
    let mut folder = folder_of(rt, alloc, &[("N00E000.hgt", &tile)], &[]);
    says_all(rt, alloc, &mut folder, &TILES) && has(rt, alloc, &folder, ("d/n00e000.HGT", &tile))
}

#[test]
fn a_tile_is_copied(rt: HostRuntime) {
    assert!(rt; is_copied(&rt, rt.alloc()));
}
