// Documents that are read, and those that are refused.
use crate::tables::{all_hold, count, joined, none_wrong, repeated};
use lists_and_answers::push_all;
use outside_fakes::TWO_TILES;
use std::alloc::{AllocError, Global};
use std::test::*;
use vrt_profile::{Document, Source, VrtBand, VrtFault, read};

/// Whether a document has the fault of this number, 0 for none, and its place, 0 where it has none.
fn is_fault(alloc: Global, text: &[u8], number: u32, place: u64) -> bool {
    match read(alloc, text) {
        Ok(_) => number == 0 && place == 0,
        Err(fault) => fault.number() as u32 == number && fault_place(&fault) == place,
    }
}

fn fault_place(fault: &VrtFault) -> u64 {
    match fault.place() {
        Some(place) => place,
        None => 0,
    }
}

// Whole documents, behind the number of their fault and its place.
const DOCUMENTS: &str = "\
    2 44 <VRTDataset rasterXSize=\"1\" rasterYSize=\"1\"><Foo/></VRTDataset>|\
    1 44 <VRTDataset rasterXSize=\"1\" rasterYSize=\"1\">|\
    1 0 |\
    1 13 <!-- none -->|\
    2 0 <Foo/>|\
    2 3 \u{feff}<Foo />|\
    2 0 <a ></a >|\
    1 12 <!--><a/>-->|\
    1 6 <Foo/>x|\
    1 0 x<Foo/>|\
    1 3 <a><?xml ?></a>|\
    1 0 <a b='1' b='2'/>|\
    1 3 <a>&#65;</a>|\
    1 0 <a b='<'/>|\
    1 0 <a b='&c;'/>|\
    1 6 <a><b></a></b>|\
    1 4 <a/><b/>|\
    3 0 <VRTDataset rasterXSize='1'/>|\
    4 0 <VRTDataset rasterXSize='+1' rasterYSize='1'/>|\
    3 0 <VRTDataset/>|\
    4 0 <VRTDataset rasterXSize='0' rasterYSize='1'/>|\
    6 0 <VRTDataset rasterXSize='4194305' rasterYSize='x'/>|\
    3 0 <VRTDataset rasterXSize='4194304' rasterYSize='1'/>|\
    4 0 <VRTDataset rasterXSize='1' rasterYSize='0'/>|\
    6 0 <VRTDataset rasterXSize='1' rasterYSize='4194305'/>|\
    3 0 <VRTDataset rasterXSize='1' rasterYSize='4194304'/>|\
    6 0 <VRTDataset rasterXSize='999999999' rasterYSize='1'/>|\
    4 0 <VRTDataset rasterXSize='1000000000' rasterYSize='1'/>|\
    5 0 <VRTDataset rasterXSize='1' rasterYSize='1' subClass='VRTDataset'/>|\
    5 0 <VRTDataset rasterXSize='1' rasterYSize='1'><Foo/>x</VRTDataset>|\
    1 50 <VRTDataset rasterXSize='1' rasterYSize='1'><Foo/></VRTDatase>|\
    5 0 <VRTDataset rasterXSize='1' rasterYSize='1'><SRS/><SRS/></VRTDataset>|\
    2 49 <VRTDataset rasterXSize='1' rasterYSize='1'><SRS><a/></SRS></VRTDataset>|\
    4 0 <VRTDataset rasterXSize='1' rasterYSize='1'><GeoTransform>0,1,0,0,0</GeoTransform></VRTDataset>|\
    5 0 <VRTDataset rasterXSize='1' rasterYSize='1'><GeoTransform>0,1,1,0,0,1</GeoTransform></VRTDataset>|\
    4 0 <VRTDataset rasterXSize='1' rasterYSize='1'><GeoTransform>0,1,0,0,0,0</GeoTransform></VRTDataset>|\
    5 0 <VRTDataset rasterXSize='1' rasterYSize='1'><VRTRasterBand dataType='byte'/></VRTDataset>|\
    4 0 <VRTDataset rasterXSize='1' rasterYSize='1'><VRTRasterBand band='2'/></VRTDataset>|\
    5 0 <VRTDataset rasterXSize='1' rasterYSize='1'><VRTRasterBand subClass='VRTDerivedRasterBand'/></VRTDataset>|\
    5 0 <VRTDataset rasterXSize='1' rasterYSize='1'><VRTRasterBand><NoDataValue/><NoDataValue/></VRTRasterBand>\
    </VRTDataset>|\
    5 0 <VRTDataset rasterXSize='1' rasterYSize='1'><VRTRasterBand><SimpleSource resampling='cubic'/>\
    </VRTRasterBand></VRTDataset>|\
    3 0 <VRTDataset rasterXSize='1' rasterYSize='1'><VRTRasterBand><SimpleSource resampling='NEAR'/></VRTRasterBand>\
    </VRTDataset>|\
    0 0 \u{feff}<?xml version='1.0'?><!-- a --> <VRTDataset rasterXSize='1' rasterYSize='1'><VRTRasterBand/>\
    </VRTDataset>\n|\
    0 0 <VRTDataset rasterXSize='1' rasterYSize='1'><GeoTransform> 0, 1,0,0,0,-1 </GeoTransform><Metadata><a>x</a>\
    </Metadata><VRTRasterBand/></VRTDataset>|\
    0 0 <VRTDataset rasterXSize='1' rasterYSize='1'><VRTRasterBand><NoDataValue> 256 </NoDataValue></VRTRasterBand>\
    </VRTDataset>";

fn is_judged(alloc: Global, row: &str) -> Option<bool> {
    let (number, rest) = count(row)?;
    let (place, text) = count(rest)?;
    Some(is_fault(alloc, text.as_bytes(), number, place as u64))
}

#[test]
fn documents(rt: HostRuntime) {
    all_hold(&rt, rt.alloc(), DOCUMENTS, is_judged);
    assert!(rt; is_fault(rt.alloc(), b"<a>\xff</a>", 1, 3));
}

const FRONT: &str = "<VRTDataset rasterXSize='1' rasterYSize='1'>";

/// A dataset that holds this.
fn dataset(alloc: Global, inside: &[u8]) -> Result<Vec<u8>, AllocError> {
    joined(
        alloc,
        &[FRONT.as_bytes(), inside, "</VRTDataset>".as_bytes()],
    )
}

/// Whether a dataset that holds this has the fault of this number, 0 for none, and its place.
fn is_dataset_fault(alloc: Global, inside: &[u8], number: u32, place: u64) -> bool {
    match dataset(alloc, inside) {
        Ok(text) => is_fault(alloc, &text, number, place),
        Err(_) => false,
    }
}

// What stands in a dataset, behind the number of its fault and its place, where the dataset's start tag has 44 bytes.
const RULES: &str = "\
    3 0 |\
    0 0 <VRTRasterBand/>|\
    5 0 <SRS/><SRS><a/></SRS>|\
    2 50 <SRS>x<a/></SRS>|\
    5 0 <GeoTransform>0,1,0,0,0,1</GeoTransform><GeoTransform/>|\
    5 0 <GeoTransform>0,1,0,0,1,1</GeoTransform>|\
    4 0 <GeoTransform>0,1,0,0,0,1,0</GeoTransform>|\
    2 69 <GeoTransform>0,1,0,0,0,1<a/></GeoTransform>|\
    0 0 <Metadata/><Description/><UnitType/><ColorInterp/><ColorTable/><VRTRasterBand/>|\
    0 0 <CategoryNames/><Histograms/><Offset/><Scale/><OverviewList/><VRTRasterBand/>|\
    2 44 <Foo/><VRTRasterBand dataType='x'/>|\
    5 0 <VRTRasterBand dataType='x'/><Foo/>|\
    0 0 <VRTRasterBand dataType='Int32' band='1' subClass='VRTSourcedRasterBand'/>|\
    5 0 <VRTRasterBand dataType='x' band='2'/>|\
    4 0 <VRTRasterBand band='x' subClass='x'/>|\
    5 0 <VRTRasterBand>x<Foo/></VRTRasterBand>|\
    2 59 <VRTRasterBand><Foo/></VRTRasterBand>|\
    2 73 <VRTRasterBand><NoDataValue>x<a/></NoDataValue></VRTRasterBand>|\
    0 0 <VRTRasterBand><Metadata/><Description/><UnitType/><ColorInterp/><ColorTable/></VRTRasterBand>|\
    0 0 <VRTRasterBand><CategoryNames/><Histograms/><Offset/><Scale/><OverviewList/></VRTRasterBand>|\
    3 0 <VRTRasterBand><SimpleSource/></VRTRasterBand>|\
    3 0 <VRTRasterBand><SimpleSource><SourceFilename/></SimpleSource></VRTRasterBand>|\
    2 73 <VRTRasterBand><SimpleSource><Foo/></SimpleSource></VRTRasterBand>|\
    5 0 <VRTRasterBand><SimpleSource>x<Foo/></SimpleSource></VRTRasterBand>|\
    4 0 <VRTRasterBand><SimpleSource><SourceFilename relativeToVRT='2'>a</SourceFilename></SimpleSource>\
    </VRTRasterBand>|\
    2 90 <VRTRasterBand><SimpleSource><SourceFilename>a<b/></SourceFilename></SimpleSource></VRTRasterBand>";

fn is_ruled(alloc: Global, row: &str) -> Option<bool> {
    let (number, rest) = count(row)?;
    let (place, inside) = count(rest)?;
    Some(is_dataset_fault(alloc, inside.as_bytes(), number, place as u64))
}

#[test]
fn rules_of_a_dataset(rt: HostRuntime) {
    all_hold(&rt, rt.alloc(), RULES, is_ruled);
}

/// Whether a dataset of so many bands has this fault.
fn is_banded(alloc: Global, bands: u32, number: u32) -> bool {
    match repeated(alloc, "<VRTRasterBand/>", bands) {
        Ok(bands) => is_dataset_fault(alloc, &bands, number, 0),
        Err(_) => false,
    }
}

#[test]
fn most_bands(rt: HostRuntime) {
    assert!(rt; is_banded(rt.alloc(), 256, 0));
    assert!(rt; is_banded(rt.alloc(), 257, 6));
}

/// A document with one source, whose parts are these.
fn source(alloc: Global, kind: &str, parts: &[u8]) -> Result<Vec<u8>, AllocError> {
    let front = "<VRTRasterBand><";
    let name = "><SourceFilename>a.bil</SourceFilename>";
    let end = "></VRTRasterBand></VRTDataset>";
    let tag = kind.as_bytes();
    joined(
        alloc,
        &[
            FRONT.as_bytes(),
            front.as_bytes(),
            tag,
            name.as_bytes(),
            parts,
            b"</",
            tag,
            end.as_bytes(),
        ],
    )
}

/// Whether a document with one source has a fault of this number.
fn is_source_fault(alloc: Global, kind: &str, parts: &[u8], number: u32) -> bool {
    match source(alloc, kind, parts) {
        Ok(text) => has_number(alloc, &text, number),
        Err(_) => false,
    }
}

fn has_number(alloc: Global, text: &[u8], number: u32) -> bool {
    match read(alloc, text) {
        Ok(_) => number == 0,
        Err(fault) => fault.number() as u32 == number,
    }
}

// Parts of a ComplexSource, behind the number of its fault and that in a SimpleSource.
const PARTS: &str = "\
    5 5 <SourceFilename>b</SourceFilename>|\
    4 4 <SourceBand/><SourceBand>1</SourceBand>|\
    5 5 <SourceBand>1</SourceBand><SourceBand/>|\
    5 0 <ScaleOffset>1</ScaleOffset><ScaleOffset/>|\
    5 0 <ScaleRatio>1</ScaleRatio><ScaleRatio/>|\
    5 0 <LUT>0:0</LUT><LUT/>|\
    2 2 <Metadata/>|\
    0 0 <SourceProperties RasterXSize='x'/>|\
    0 0 <SourceBand> 256 </SourceBand>|\
    4 4 <SourceBand>257</SourceBand>|\
    4 4 <SourceBand>0</SourceBand>|\
    5 5 <SourceBand>Mask,1</SourceBand>|\
    0 0 <SrcRect xOff='8388608' yOff='0' xSize='1' ySize='1'/>|\
    6 6 <SrcRect xOff='8388609' yOff='0' xSize='1' ySize='1'/>|\
    0 0 <DstRect xOff='-8388608' yOff='0' xSize='1' ySize='8388608'/>|\
    6 6 <DstRect xOff='8388608.0000005' yOff='0' xSize='1' ySize='1'/>|\
    0 0 <SrcRect xOff='0' yOff='0' xSize='0.0000005' ySize='1'/>|\
    4 4 <SrcRect xOff='0' yOff='0' xSize='0.0000004' ySize='1'/>|\
    3 3 <SrcRect xOff='0' yOff='0' xSize='1'/>|\
    4 4 <SrcRect xOff=' 0' yOff='0' xSize='1' ySize='1'/>|\
    5 5 <SrcRect xOff='0' yOff='0' xSize='1' ySize='1'>x</SrcRect>|\
    2 2 <SrcRect xOff='0' yOff='0' xSize='1' ySize='1'><a/></SrcRect>|\
    0 0 <NODATA>x</NODATA>|\
    5 0 <NODATA>0</NODATA><NODATA>0</NODATA>|\
    4 0 <ScaleOffset>999999999999.9999999999999</ScaleOffset>|\
    4 0 <ScaleRatio>x</ScaleRatio>|\
    0 0 <LUT>0:0,10:100</LUT>|\
    0 0 <LUT>0:0E-9,1:0e+99,2:0E999,3:1</LUT>|\
    4 0 <LUT>0:0E+1000,1:0,2:0</LUT>|\
    4 0 <LUT>0:0e--9,1:0,2:0</LUT>|\
    4 0 <LUT>0:0,0:100</LUT>|\
    4 0 <LUT>0:0,</LUT>|\
    0 0 <LUT>0:4999999999.9999994</LUT>|\
    4 0 <LUT>0:4999999999.9999995</LUT>|\
    5 5 <DstRect xOff='0' yOff='0' xSize='1' ySize='1'/><DstRect/>|\
    3 3 <SrcRect yOff='0' xSize='1' ySize='1'/>|\
    4 4 <SrcRect xOff='x' xSize='1' ySize='1'/>|\
    4 4 <SrcRect xOff='0' yOff='0' xSize='-1' ySize='1'/>|\
    2 2 <SourceBand>1<a/></SourceBand>|\
    4 4 <SourceBand>x<a/></SourceBand>|\
    4 0 <ScaleOffset>x<a/></ScaleOffset>|\
    0 0 <ScaleRatio> 0.5 </ScaleRatio>|\
    0 0 <LUT> 0 : 0 , 1 : -5.5 </LUT>|\
    4 0 <LUT>0:0:0</LUT>|\
    4 0 <LUT/>";

// Whether a part has these faults in a ComplexSource and in a SimpleSource.
fn has_faults(alloc: Global, row: &str) -> Option<bool> {
    let (complex, rest) = count(row)?;
    let (simple, parts) = count(rest)?;
    let parts = parts.as_bytes();
    Some(
        is_source_fault(alloc, "ComplexSource", parts, complex)
            && is_source_fault(alloc, "SimpleSource", parts, simple),
    )
}

#[test]
fn parts_of_a_source(rt: HostRuntime) {
    all_hold(&rt, rt.alloc(), PARTS, has_faults);
}

fn push_pair(alloc: Global, input: u32, out: &mut Vec<u8>) -> Result<(), AllocError> {
    let pair = format!(in alloc; ",{input}:0")?;
    out.extend_from_slice(pair.as_bytes())
}

// Adds a table of so many pairs.
fn push_pairs(alloc: Global, count: u32, out: &mut Vec<u8>) -> Result<(), AllocError> {
    push_all(&[b"<LUT>0:0"], out)?;
    for input in 1..count {
        push_pair(alloc, input, out)?;
    }
    push_all(&[b"</LUT>"], out)
}

/// Whether a source whose table has so many pairs has a fault of this number.
fn is_paired(alloc: Global, count: u32, number: u32) -> bool {
    let mut part: Vec<u8> = Vec::new(alloc);
    push_pairs(alloc, count, &mut part).is_ok()
        && is_source_fault(alloc, "ComplexSource", &part, number)
}

#[test]
fn most_pairs(rt: HostRuntime) {
    assert!(rt; is_paired(rt.alloc(), 65536, 0));
    assert!(rt; is_paired(rt.alloc(), 65537, 6));
}

const SOURCE: &str = "<SimpleSource><SourceFilename>a</SourceFilename></SimpleSource>";

/// What stands in a dataset of 262,144 sources, with these bands behind the second one.
fn bands(alloc: Global, bands: &str) -> Result<Vec<u8>, AllocError> {
    let sources = repeated(alloc, SOURCE, 262_143)?;
    let second = "</VRTRasterBand><VRTRasterBand>";
    let last = "<SimpleSource><SourceFilename>b</SourceFilename></SimpleSource></VRTRasterBand>";
    joined(
        alloc,
        &[
            b"<VRTRasterBand>",
            &sources,
            second.as_bytes(),
            last.as_bytes(),
            bands.as_bytes(),
        ],
    )
}

/// Whether a document of 262,144 sources with these bands behind the second one has this fault.
fn is_sourced(alloc: Global, more: &str, number: u32) -> bool {
    match bands(alloc, more) {
        Ok(inside) => is_dataset_fault(alloc, &inside, number, 0),
        Err(_) => false,
    }
}

const THIRD: &str =
    "<VRTRasterBand><SimpleSource resampling='cubic'><Foo/></SimpleSource></VRTRasterBand>";

// The 262,144th source of a document is read; the next one is past the limit before anything else of it is judged.
#[test]
fn most_sources(rt: HostRuntime) {
    assert!(rt; is_sourced(rt.alloc(), "", 0));
    assert!(rt; is_sourced(rt.alloc(), THIRD, 6));
}

/// A document of so many elements in one another, of which only the root's end stands.
fn nested(alloc: Global, count: u32) -> Result<Vec<u8>, AllocError> {
    let elements = repeated(alloc, "<Metadata>", count)?;
    joined(alloc, &[FRONT.as_bytes(), &elements])
}

/// Whether so many elements in one another have this fault at this place.
fn is_nested(alloc: Global, count: u32, number: u32, place: u64) -> bool {
    match nested(alloc, count) {
        Ok(text) => is_fault(alloc, &text, number, place),
        Err(_) => false,
    }
}

#[test]
fn elements_in_one_another(rt: HostRuntime) {
    assert!(rt; is_nested(rt.alloc(), 64, 6, 0));
    assert!(rt; is_nested(rt.alloc(), 63, 1, 674));
}

// Whether a text that isn't whole is refused, at a place within it.
fn is_front(alloc: Global, front: &[u8]) -> bool {
    match read(alloc, front) {
        Ok(_) => false,
        Err(fault) => fault.number() == 1 && fault_place(&fault) <= front.len() as u64,
    }
}

// The first number of bytes of a document that are no front of one; None where there is none.
fn first_whole_front(alloc: Global, text: &[u8]) -> Option<usize> {
    for count in 0..text.len().saturating_sub(1) {
        let (front, _) = text.split_at(count);
        if !is_front(alloc, front) {
            return Some(count);
        }
    }
    None
}

#[test]
fn fronts_of_a_mosaic(rt: HostRuntime) {
    none_wrong(&rt, first_whole_front(rt.alloc(), TWO_TILES));
}

/// The last source of the first band.
fn last_source(document: &Document) -> Option<&Source> {
    let band: &VrtBand = document.bands.as_slice().first()?;
    band.sources.as_slice().last()
}

// Whether a source is the second one of the mosaic.
fn is_second(source: &Source) -> bool {
    source.complex
        && source.relative
        && source.file.as_str() == "N00E001.hgt"
        && source.nodata() == Some(-32768)
        && source.dst.map(|r| r.x) == Some(1_200_000_000)
        && source.ratio() == 1_000_000_000_000
}

// Whether the mosaic is read.
fn is_mosaic(alloc: Global) -> bool {
    match read(alloc, TWO_TILES) {
        Ok(document) => {
            document.size.w == 2401
                && document.srs.is_none()
                && matches!(last_source(&document), Some(source) if is_second(source))
        }
        Err(fault) => fault == VrtFault::Memory,
    }
}

#[test]
fn a_mosaic(rt: HostRuntime) {
    assert!(rt; is_mosaic(rt.alloc()));
}
