use catalog::{BandHead, Head, Kind, head_of};
use geotransform::{GeoTransform, PixelType, Size, Ticks};
use info_report::{ReportFault, write_info};
use lists_and_answers::Items;
use outside::{CalmFolder, CountingFolder, Failing, Listed, MemSink, Name, Never, Text};
use outside_fakes::TWO_TILES;
use std::alloc::{AllocError, Global};
use std::test::*;

// A file: its name and its bytes.
type File<'a> = (&'a str, &'a [u8]);

// Puts files into a folder.
fn put_all(alloc: Global, folder: &mut CalmFolder, files: &[File]) -> Result<(), Fail> {
    for (name, bytes) in files {
        folder.put(&Name::read(alloc, name)?, bytes)?;
    }
    Ok(())
}

// A folder with these files, which counts its calls.
fn holding(alloc: Global, files: &[File]) -> Result<CountingFolder<CalmFolder>, Fail> {
    let mut folder = CalmFolder::new(alloc, Never);
    put_all(alloc, &mut folder, files)?;
    Ok(CountingFolder::new(folder))
}

// Whether this is what a sink gets of the report of a dataset.
fn is_written(alloc: Global, head: &Head, want: &[u8]) -> bool {
    let mut sink = MemSink::new(alloc, Listed::new(Items::new(alloc)));
    let answer = write_info(alloc, head, &mut sink);
    answer.is_ok() && sink.got() == want
}

// Whether the file of this name is a dataset, and this is its report.
fn is_told(
    alloc: Global,
    folder: &mut CountingFolder<CalmFolder>,
    name: &Name,
    verify: bool,
    want: &[u8],
) -> bool {
    match head_of(alloc, folder, name, verify) {
        Ok(head) => is_written(alloc, &head, want),
        Err(_) => false,
    }
}

// How many reads told the dataset of the name of the first of these files; None where this isn't its report.
fn reads_of(alloc: Global, files: &[File], verify: bool, want: &[u8]) -> Result<Option<u64>, Fail> {
    let name = Name::read(alloc, files.first().ok_or("there is a file")?.0)?;
    let mut folder = holding(alloc, files)?;
    let told = is_told(alloc, &mut folder, &name, verify, want);
    Ok(if told { Some(folder.reads()) } else { None })
}

const WORLD: &[u8] = b"BYTEORDER M
LAYOUT BIL
NROWS 6000
NCOLS 4800
NBANDS 1
NBITS 16
BANDROWBYTES 9600
TOTALROWBYTES 9600
BANDGAPBYTES 0
NODATA -9999
ULXMAP -99.99583333333334
ULYMAP 89.99583333333334
XDIM 0.00833333333333
YDIM 0.00833333333333
";

const WORLD_REPORT: &[u8] = b"Driver: EHdr
Files: w100n90.bil
       w100n90.hdr
Size is 4800, 6000
Origin = (-100.000000000000005,90.000000000000005)
Pixel Size = (0.008333333333330,-0.008333333333330)
Corner Coordinates:
Upper Left  (-100.000000000, 90.000000000)
Lower Left  (-100.000000000, 40.000000000)
Upper Right (-60.000000000, 90.000000000)
Lower Right (-60.000000000, 40.000000000)
Band 1 Block=4800x1 Type=Int16
  NoData Value=-9999
";

// The GTOPO30 tile of the published header, over data of its length.
#[test]
fn a_tile_of_the_world(rt: HostRuntime) -> Result<(), Fail> {
    let data = vec![in rt.alloc(); 0; 57_600_000]?;
    let files: [File; 2] = [("w100n90.bil", &data), ("w100n90.hdr", WORLD)];
    let reads = reads_of(rt.alloc(), &files, false, WORLD_REPORT)?;
    assert!(rt; reads == Some(1));
    Ok(())
}

const TILE_REPORT: &[u8] = b"Driver: SRTMHGT
Files: S01W180.hgt
Size is 1201, 1201
Origin = (-180.000416666666667,0.000416666666667)
Pixel Size = (0.000833333333333,-0.000833333333333)
Corner Coordinates:
Upper Left  (-180.000416667, 0.000416667)
Lower Left  (-180.000416667, -1.000416667)
Upper Right (-178.999583333, 0.000416667)
Lower Right (-178.999583333, -1.000416667)
Band 1 Block=1201x1 Type=Int16
  NoData Value=-32768
";

// A tile of SRTM is told by its name and its length, with no read.
#[test]
fn a_tile(rt: HostRuntime) -> Result<(), Fail> {
    let data = vec![in rt.alloc(); 0; 2_884_802]?;
    let reads = reads_of(rt.alloc(), &[("S01W180.hgt", &data)], true, TILE_REPORT)?;
    assert!(rt; reads == Some(0));
    Ok(())
}

// A cell at 10 degrees east, 20 degrees north, with two lines 60 arc seconds apart and three points 30 arc seconds
// apart.
fn cell(alloc: Global) -> Result<Vec<u8>, AllocError> {
    let mut bytes = vec![in alloc; b' '; 3464]?;
    bytes[..28].copy_from_slice(b"UHL10100000E0200000N06000300");
    bytes[47..55].copy_from_slice(b"00020003");
    bytes[80..83].copy_from_slice(b"DSI");
    bytes[728..731].copy_from_slice(b"ACC");
    Ok(bytes)
}

const CELL_REPORT: &[u8] = b"Driver: DTED
Files: c.dt0
Size is 2, 3
Origin = (9.991666666666667,20.020833333333333)
Pixel Size = (0.016666666666667,-0.008333333333333)
Corner Coordinates:
Upper Left  (9.991666667, 20.020833333)
Lower Left  (9.991666667, 19.995833333)
Upper Right (10.025000000, 20.020833333)
Lower Right (10.025000000, 19.995833333)
Band 1 Block=1x3 Type=Int16
  NoData Value=-32767
";

#[test]
fn a_cell(rt: HostRuntime) -> Result<(), Fail> {
    let bytes = cell(rt.alloc())?;
    let reads = reads_of(rt.alloc(), &[("c.dt0", &bytes)], false, CELL_REPORT)?;
    assert!(rt; reads.is_some());
    Ok(())
}

// One pixel with a coordinate system, whose origin is one tick below 0, and with no file.
fn one_pixel(alloc: Global) -> Result<Head, Fail> {
    let size = Size { w: 1, h: 1 };
    let tick = Ticks::of(-1);
    let name = Name::read(alloc, "p")?;
    let srs = Text::new(alloc, "WGS 84")?;
    let mut bands = Items::new(alloc);
    bands.push(BandHead {
        kind: PixelType::UInt32,
        nodata: None,
        block: size,
    })?;
    Ok(Head {
        name,
        kind: Kind::Raw,
        size,
        geo: GeoTransform::new(tick, tick, Ticks::UNIT, tick),
        srs: Some(srs),
        bands,
        files: Items::new(alloc),
    })
}

const PIXEL_REPORT: &[u8] = b"Driver: EHdr
Files: 
Size is 1, 1
Coordinate System is:
WGS 84
Origin = (0.000000000000000,0.000000000000000)
Pixel Size = (1.000000000000000,0.000000000000000)
Corner Coordinates:
Upper Left  (0.000000000, 0.000000000)
Lower Left  (0.000000000, 0.000000000)
Upper Right (1.000000000, 0.000000000)
Lower Right (1.000000000, 0.000000000)
Band 1 Block=1x1 Type=UInt32
";

// Whether a sink whose first call fails makes the report fail, with no other text got.
fn is_refused(alloc: Global, head: &Head) -> bool {
    let mut calls = Items::new(alloc);
    if calls.push(Failing::Call(1)).is_err() {
        return false;
    }
    let mut sink = MemSink::new(alloc, Listed::new(calls));
    let answer = write_info(alloc, head, &mut sink);
    answer == Err(ReportFault::OutFault) && WORLD_REPORT.starts_with(sink.got())
}

// To a sink that takes all, and to one that fails.
#[test]
fn a_coordinate_system(rt: HostRuntime) -> Result<(), Fail> {
    let head = one_pixel(rt.alloc())?;
    assert!(rt; is_written(rt.alloc(), &head, PIXEL_REPORT));
    assert!(rt; is_refused(rt.alloc(), &head));
    Ok(())
}

const UPPER_REPORT: &[u8] = b"Driver: EHdr
Files: d/a.BSQ
       d/a.HDR
Size is 2, 1
Band 1 Block=2x1 Type=Byte
  NoData Value=9
Band 2 Block=2x1 Type=Byte
  NoData Value=9
";

const WIDE_REPORT: &[u8] = b"Driver: VRT
Files: m.vrt
       N00E000.hgt
       N00E001.hgt
Size is 2401, 1201
Origin = (-0.000416666666667,1.000416666666667)
Pixel Size = (0.000833333333333,-0.000833333333333)
Corner Coordinates:
Upper Left  (-0.000416667, 1.000416667)
Lower Left  (-0.000416667, -0.000416667)
Upper Right (2.000416667, 1.000416667)
Lower Right (2.000416667, -0.000416667)
Band 1 Block=128x128 Type=Int16
  NoData Value=-32768
";

// The files of a dataset, and the report: no geotransform, two bands, a NODATA, and a header in upper case; and mosaics
// of which no source is there.
const DATASETS: [(&[File<'static>], &[u8]); 5] = [
    (
        &[
            ("d/x/../a.BSQ", &[0; 4]),
            ("d/a.HDR", b"nrows 1\nncols 2\nnbands 2\nnodata 9\n"),
        ],
        UPPER_REPORT,
    ),
    (&[("m.vrt", TWO_TILES)], WIDE_REPORT),
    (
        &[(
            "d/s.vrt",
            b"<VRTDataset rasterXSize='1' rasterYSize='2'><SRS>GEOGCS[&quot;a&quot;]</SRS><VRTRasterBand/>\
            </VRTDataset>",
        )],
        b"Driver: VRT\nFiles: d/s.vrt\nSize is 1, 2\nCoordinate System is:\nGEOGCS[\"a\"]\n\
        Band 1 Block=128x128 Type=Byte\n",
    ),
    (
        &[(
            "e.VRT",
            b"<VRTDataset rasterXSize='200' rasterYSize='1'><SRS/><VRTRasterBand/></VRTDataset>",
        )],
        b"Driver: VRT\nFiles: e.VRT\nSize is 200, 1\nCoordinate System is:\n\nBand 1 Block=128x128 Type=Byte\n",
    ),
    (
        &[(
            "d/t.vrt",
            b"<VRTDataset rasterXSize='1' rasterYSize='1'><VRTRasterBand><SimpleSource>\
            <SourceFilename relativeToVRT='1'>a.bil</SourceFilename></SimpleSource></VRTRasterBand><VRTRasterBand>\
            <SimpleSource><SourceFilename>./b.bil</SourceFilename></SimpleSource><SimpleSource>\
            <SourceFilename relativeToVRT='1'>../d/a.bil</SourceFilename></SimpleSource></VRTRasterBand></VRTDataset>",
        )],
        b"Driver: VRT\nFiles: d/t.vrt\n       d/a.bil\n       b.bil\nSize is 1, 1\nBand 1 Block=128x128 Type=Byte\n\
        Band 2 Block=128x128 Type=Byte\n",
    ),
];

// The first of these datasets of which something else is reported, or how many datasets there are.
fn first_misreported(alloc: Global) -> Result<usize, Fail> {
    for (at, (files, want)) in DATASETS.iter().enumerate() {
        if reads_of(alloc, files, false, want)?.is_none() {
            return Ok(at);
        }
    }
    Ok(DATASETS.len())
}

#[test]
fn datasets(rt: HostRuntime) -> Result<(), Fail> {
    assert_eq!(rt; first_misreported(rt.alloc())?, DATASETS.len());
    Ok(())
}
