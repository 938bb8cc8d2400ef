// Documents that are written, and names of sources.
use crate::tables::{all_hold, count, joined, none_wrong, word};
use outside::{Name, NameFault};
use outside_fakes::TWO_TILES;
use std::alloc::{AllocError, Global};
use std::test::*;
use vrt_profile::{Document, Source, VrtBand, read, relate, resolve, resolved_len};
use vrt_writing::write;

/// Two tiles side by side, in another layout than the written one.
const LOOSE: &str = "\u{feff}<?xml version='1.0'?><!-- two tiles -->
<VRTDataset rasterYSize = '1201' rasterXSize = '2401'>
<VRTRasterBand dataType='Int16'><ComplexSource><SrcRect xOff='0.0' yOff='0' xSize='1201' ySize='1201'/>
<DstRect xOff='0' yOff='0' xSize='1201' ySize='1201'/><NODATA>-32768.0</NODATA><ScaleOffset>0</ScaleOffset>
<SourceFilename relativeToVRT='1'>N00E000.hgt</SourceFilename></ComplexSource>
<ComplexSource><SourceFilename relativeToVRT='1'>N00E001.hgt</SourceFilename><SourceBand>1</SourceBand>
<SrcRect xOff='0' yOff='0' xSize='1201' ySize='1201'/><DstRect xOff='1.2e3' yOff='0' xSize='1201' ySize='1201'/>
<NODATA>-32768</NODATA><ScaleRatio>1.000</ScaleRatio></ComplexSource><NoDataValue> -32768 </NoDataValue></VRTRasterBand>
<GeoTransform>-0.0004166666666667,0.0008333333333333,0,1.0004166666666667,0,-0.0008333333333333</GeoTransform>
</VRTDataset>";

/// Every part of a document, and a band without parts.
const WHOLE: &str = "<VRTDataset rasterXSize=\"2\" rasterYSize=\"1\">
  <SRS>a &lt;&apos;b&apos; &amp; &quot;c&quot;&gt;</SRS>
  <VRTRasterBand dataType=\"Byte\" band=\"1\">
    <SimpleSource>
      <SourceFilename relativeToVRT=\"0\">/a&amp;b.bil</SourceFilename>
      <SourceBand>2</SourceBand>
    </SimpleSource>
    <ComplexSource>
      <SourceFilename relativeToVRT=\"1\">c.bil</SourceFilename>
      <SourceBand>256</SourceBand>
      <DstRect xOff=\"-0.5\" yOff=\"0.000001\" xSize=\"1.25\" ySize=\"8388608\"/>
      <ScaleOffset>1000</ScaleOffset>
      <ScaleRatio>0.5</ScaleRatio>
      <LUT>-1.5:0,10:100</LUT>
    </ComplexSource>
  </VRTRasterBand>
  <VRTRasterBand dataType=\"UInt32\" band=\"2\">
  </VRTRasterBand>
</VRTDataset>
";

/// What is absent or can't be held.
const SPARSE: &str =
    "<VRTDataset rasterXSize='1' rasterYSize='1'><VRTRasterBand><NoDataValue>256</NoDataValue>
<ComplexSource><SourceFilename> a b.bil </SourceFilename><NODATA>x</NODATA><ScaleOffset>0.0000000000005</ScaleOffset>
<LUT> 0 : 0 , 0.0000015 : 5 </LUT></ComplexSource></VRTRasterBand></VRTDataset>";

const FILLED: &str = "<VRTDataset rasterXSize=\"1\" rasterYSize=\"1\">
  <VRTRasterBand dataType=\"Byte\" band=\"1\">
    <ComplexSource>
      <SourceFilename relativeToVRT=\"0\"> a b.bil </SourceFilename>
      <SourceBand>1</SourceBand>
      <ScaleOffset>0.000000000001</ScaleOffset>
      <LUT>0:0,0.000002:5</LUT>
    </ComplexSource>
  </VRTRasterBand>
</VRTDataset>
";

// Documents, each with the text that is written of it.
const LAYOUTS: [(&str, &str); 2] = [(WHOLE, WHOLE), (SPARSE, FILLED)];

// Whether this is written of a document.
fn is_written(alloc: Global, text: &[u8], wanted: &[u8]) -> bool {
    let Ok(document) = read(alloc, text) else {
        return false;
    };
    let mut out = Vec::new(alloc);
    write(&document, &mut out).is_ok() && out.as_slice() == wanted
}

// The first of these documents of which something else is written.
fn first_miswritten(alloc: Global, documents: &[(&str, &str)]) -> Option<usize> {
    for at in 0..documents.len() {
        let (text, wanted) = documents[at];
        if !is_written(alloc, text.as_bytes(), wanted.as_bytes()) {
            return Some(at);
        }
    }
    None
}

// Whether this is written of the loose tiles, and of itself.
fn are_tiles(alloc: Global, tiles: &[u8]) -> bool {
    is_written(alloc, LOOSE.as_bytes(), tiles) && is_written(alloc, tiles, tiles)
}

#[test]
fn documents_are_written(rt: HostRuntime) {
    assert!(rt; are_tiles(rt.alloc(), TWO_TILES));
    none_wrong(&rt, first_miswritten(rt.alloc(), &LAYOUTS));
}

/// The first source of the first band.
fn first_source(document: &Document) -> Option<&Source> {
    let band: &VrtBand = document.bands.as_slice().first()?;
    band.sources.as_slice().first()
}

// The length of the text that is normalised, a document's name, a source's name, and the source as it stands in the
// document, with `;` between them.
const RESOLVED: &str = "\
    7 d/m.vrt;d/a.bil; relativeToVRT='1'>a.bil|\
    5 d/m.vrt;a.bil;>a.bil|\
    12 d/e/m.vrt;d/a.bil; relativeToVRT='1'>../a.bil|\
    8 m.vrt;../a.bil; relativeToVRT='1'>../a.bil|\
    6 /m.vrt;/a.bil; relativeToVRT='1'>a.bil|\
    6 d/m.vrt;/a.bil; relativeToVRT='1'>/a.bil";

/// The text of a document with one source.
fn with_source(alloc: Global, file: &str) -> Result<Vec<u8>, AllocError> {
    let front =
        "<VRTDataset rasterXSize='1' rasterYSize='1'><VRTRasterBand><SimpleSource><SourceFilename";
    let end = "</SourceFilename></SimpleSource></VRTRasterBand></VRTDataset>";
    joined(alloc, &[front.as_bytes(), file.as_bytes(), end.as_bytes()])
}

// Whether a source has this name in a document of that name.
fn resolves(alloc: Global, base: &Name, source: &Source, length: u64, wanted: &str) -> bool {
    let resolved = match resolve(alloc, base, source) {
        Ok(name) => name.as_str() == wanted,
        Err(fault) => fault == NameFault::Memory,
    };
    resolved_len(base, source) == length && resolved
}

// The same of the first source of a document, where that is read.
fn resolves_first(
    alloc: Global,
    base: &Name,
    document: &Document,
    length: u64,
    wanted: &str,
) -> bool {
    match first_source(document) {
        Some(source) => resolves(alloc, base, source, length, wanted),
        None => false,
    }
}

// A document with one source.
fn document_of(alloc: Global, file: &str) -> Option<Document> {
    let text = with_source(alloc, file).ok()?;
    read(alloc, &text).ok()
}

fn is_resolved(alloc: Global, row: &str) -> Option<bool> {
    let (length, rest) = count(row)?;
    let (base, rest) = rest.split_once(';')?;
    let (wanted, file) = rest.split_once(';')?;
    let base = Name::read(alloc, base).ok()?;
    let document = document_of(alloc, file)?;
    Some(resolves_first(alloc, &base, &document, length as u64, wanted))
}

#[test]
fn names_are_resolved(rt: HostRuntime) {
    all_hold(&rt, rt.alloc(), RESOLVED, is_resolved);
}

// A document's name, a name, whether it is told beside the document, and how the document names it.
const RELATED: &str = "\
    d/m.vrt d/a.bil beside a.bil|\
    d/m.vrt d/e/a.bil beside e/a.bil|\
    d/m.vrt de/a.bil apart de/a.bil|\
    d/m.vrt d apart d|\
    m.vrt d/a.bil beside d/a.bil|\
    m.vrt /a.bil apart /a.bil|\
    /m.vrt /a.bil beside a.bil";

// Whether a document names a name so.
fn relates(alloc: Global, base: &Name, name: &Name, place: &str, wanted: &str) -> bool {
    match relate(alloc, base, name) {
        Ok((true, text)) => place == "beside" && text.as_str() == wanted,
        Ok((false, text)) => place == "apart" && text.as_str() == wanted,
        Err(_) => false,
    }
}

fn is_related(alloc: Global, row: &str) -> Option<bool> {
    let (base, rest) = word(row)?;
    let (name, rest) = word(rest)?;
    let (place, wanted) = word(rest)?;
    let base = Name::read(alloc, base).ok()?;
    let name = Name::read(alloc, name).ok()?;
    Some(relates(alloc, &base, &name, place, wanted))
}

#[test]
fn names_are_related(rt: HostRuntime) {
    all_hold(&rt, rt.alloc(), RELATED, is_related);
}
