use crate::tables::{all_hold, choice, count, none_wrong, number, word};
use esri_hdr::header_parts::{HdrFault, Layout};
use esri_hdr::reading::read;
use esri_hdr::writing::write;
use std::alloc::{AllocError, Global};
use std::test::*;

// One row for each rule, in the order in which they are checked: the fault's number, and a header.
const REFUSED: &str = "\
    1 |\
    1 NROWS 2|\
    1 NCOLS 0|\
    1 NROWS\nNCOLS 3|\
    1 NROWS 2\nXCOLS 3|\
    2 NROWS 0\nNCOLS x|\
    4 NCOLS 0\nNROWS 4194305|\
    4 NROWS 2\nNCOLS 4194305|\
    2 NROWS 2\nNCOLS 3.0|\
    2 NROWS 2\nNCOLS 0000000000000000003|\
    2 NROWS 2\nNCOLS 3\nNCOLS 0|\
    2 NROWS 2\nNCOLS 3\nNBANDS 0\nNBITS 7|\
    4 NROWS 2\nNCOLS 3\nNBITS 7\nNBANDS 257|\
    3 NROWS 2\nNCOLS 3\nNBITS 24\nBYTEORDER X|\
    2 NROWS 2\nNCOLS 3\nNBITS 64\nBYTEORDER X|\
    3 NROWS 2\nNCOLS 3\nNBITS 128|\
    3 NROWS 2\nNCOLS 3\nNBITS 0|\
    2 NROWS 2\nNCOLS 3\nNBITS -8|\
    2 NROWS 2\nNCOLS 3\nSKIPBYTES 1099511627777\nBYTEORDER X|\
    2 NROWS 2\nNCOLS 3\nSKIPBYTES 1099511627777\nLAYOUT BI|\
    4 NROWS 2\nNCOLS 3\nPIXELTYPE x\nSKIPBYTES 1099511627777|\
    3 NROWS 2\nNCOLS 3\nBANDROWBYTES 2\nPIXELTYPE FLOAT|\
    3 NROWS 2\nNCOLS 3\nNBITS 32\nPIXELTYPE float|\
    3 NROWS 2\nNCOLS 3\nNBITS 64\nPIXELTYPE FLOAT|\
    2 NROWS 2\nNCOLS 3\nNBITS 16\nPIXELTYPE SIGNED|\
    2 NROWS 2\nNCOLS 3\nBANDROWBYTES 2\nTOTALROWBYTES 8589934593|\
    4 NROWS 2\nNCOLS 3\nBANDROWBYTES 8589934593\nTOTALROWBYTES 2|\
    2 NROWS 2\nNCOLS 3\nTOTALROWBYTES 2\nULXMAP x|\
    4 NROWS 2\nNCOLS 3\nTOTALROWBYTES 8589934593\nULXMAP x|\
    2 NROWS 2\nNCOLS 3\nNBANDS 2\nBANDROWBYTES 4\nTOTALROWBYTES 7|\
    4 NROWS 2\nNCOLS 3\nNBANDS 2\nBANDROWBYTES 8589934592|\
    2 NROWS 2\nNCOLS 3\nNBANDS 2\nBANDROWBYTES 8589934592\nTOTALROWBYTES 8589934593|\
    2 NROWS 2\nNCOLS 3\nNBANDS 2\nLAYOUT bip\nNBITS 16\nTOTALROWBYTES 11|\
    2 NROWS 2\nNCOLS 3\nLAYOUT BIP\nTOTALROWBYTES x|\
    4 NROWS 2\nNCOLS 3\nLAYOUT BSQ\nBANDGAPBYTES 1099511627777\nXDIM 0|\
    2 NROWS 2\nNCOLS 3\nLAYOUT BSQ\nBANDGAPBYTES 1e3|\
    2 NROWS 2\nNCOLS 3\nULXMAP x|\
    2 NROWS 2\nNCOLS 3\nULYMAP 5.|\
    2 NROWS 2\nNCOLS 3\nULXMAP 1e12|\
    2 NROWS 2\nNCOLS 3\nXDIM 0|\
    2 NROWS 2\nNCOLS 3\nXDIM 0.00000000000000001|\
    2 NROWS 2\nNCOLS 3\nYDIM -1|\
    2 NROWS 2\nNCOLS 3\nULXMAP -999999999999.9\nULYMAP 0|\
    2 NROWS 2\nNCOLS 3\nULXMAP -999999999999.5\nULYMAP 0|\
    2 NROWS 2\nNCOLS 3\nULXMAP 0\nULYMAP 999999999999.75|\
    3 nrows 2\rncols 3\r\nnbits\t16\r\npixeltype\t float|\
    2   NROWS 2\nNCOLS  3 4\nNBITS 16 8\nLAYOUT BILBIL|\
    1 NROWS 2\x0cNCOLS 3";

fn fault_of(text: &[u8]) -> Option<u8> {
    match read(text) {
        Ok(_) => None,
        Err(fault) => Some(fault.number()),
    }
}

fn is_refused(_: Global, row: &str) -> Option<bool> {
    let (number, text) = count(row)?;
    Some(fault_of(text.as_bytes())? as u32 == number)
}

#[test]
fn refuses_by_each_rule(rt: HostRuntime) {
    all_hold(&rt, rt.alloc(), REFUSED, is_refused);
}

const ROW_OF_FOUR: &str = "BYTEORDER      I
LAYOUT         BIL
NROWS          1
NCOLS          4
NBANDS         1
NBITS          8
SKIPBYTES      0
BANDROWBYTES   4
TOTALROWBYTES  4
BANDGAPBYTES   0
PIXELTYPE      UNSIGNEDINT
NODATA         9
";

const WORLD: &str = "BYTEORDER      M
LAYOUT         BIL
NROWS          6000
NCOLS          4800
NBANDS         1
NBITS          16
SKIPBYTES      0
BANDROWBYTES   9600
TOTALROWBYTES  9600
BANDGAPBYTES   0
PIXELTYPE      SIGNEDINT
NODATA         -9999
ULXMAP         -99.99583333333334
ULYMAP         89.99583333333334
XDIM           0.00833333333333
YDIM           0.00833333333333
";

const GAPS: &str = "BYTEORDER      I
LAYOUT         BSQ
NROWS          2
NCOLS          3
NBANDS         2
NBITS          32
SKIPBYTES      1099511627776
BANDROWBYTES   12
TOTALROWBYTES  12
BANDGAPBYTES   1099511627776
PIXELTYPE      UNSIGNEDINT
";

const BROAD: &str = "BYTEORDER      M
LAYOUT         BIP
NROWS          1
NCOLS          2
NBANDS         1
NBITS          64
SKIPBYTES      0
BANDROWBYTES   16
TOTALROWBYTES  16
BANDGAPBYTES   0
PIXELTYPE      SIGNEDINT
NODATA         -9223372036854775808
";

const LITTLE: &str = "BYTEORDER      I
LAYOUT         BIL
NROWS          1
NCOLS          2
NBANDS         1
NBITS          8
SKIPBYTES      0
BANDROWBYTES   2
TOTALROWBYTES  2
BANDGAPBYTES   0
PIXELTYPE      SIGNEDINT
NODATA         -128
";

// A header, and the text that is written of its head.
const WRITTEN: [(&str, &str); 10] = [
    (ROW_OF_FOUR, ROW_OF_FOUR),
    (
        "ncols 9\nNCOLS 4\nNROWS 1\nNODATA 9\nNOTHING 3\nULXMAP 5\n",
        ROW_OF_FOUR,
    ),
    (
        "NROWS 1\rNCOLS 4\rBANDGAPBYTES x\r\nNODATA 0.9e1\rPIXELTYPE unsignedint",
        ROW_OF_FOUR,
    ),
    (WORLD, WORLD),
    (
        "BYTEORDER MSBFIRST\r\nLAYOUT bil\r\nNROWS 6000\r\nNCOLS 4800\r\nNBANDS 1\r\nNBITS 16\r\nBANDROWBYTES 9600\r\n\
        TOTALROWBYTES 9600\r\nBANDGAPBYTES 0\r\nNODATA -9999\r\nULXMAP -99.99583333333334\r\n\
        ULYMAP 89.99583333333334\r\nXDIM 0.00833333333333\r\nYDIM 0.00833333333333\r\n",
        WORLD,
    ),
    (
        "NROWS 2\nNCOLS 3\nLAYOUT BSQ\nNBANDS 2\nNBITS 32\nSKIPBYTES 1099511627776\nBANDGAPBYTES 1099511627776\n\
        BANDROWBYTES 1\nTOTALROWBYTES x\nBYTEORDER lsb\nNODATA -0.0\nNODATA none\nXDIM 7\nULYMAP 1",
        GAPS,
    ),
    (BROAD, BROAD),
    (
        "NROWS 1\nNCOLS 2\nLAYOUT BIP\nNBITS 64\nBYTEORDER M\nNODATA -9223372036854775808",
        BROAD,
    ),
    (LITTLE, LITTLE),
    (
        "NROWS 1\nNCOLS 2\nPIXELTYPE signedint\nNODATA -0128.0",
        LITTLE,
    ),
];

// Whether this is written of the head of a header.
fn writes(alloc: Global, text: &str, wanted: &str) -> bool {
    let Ok(head) = read(text.as_bytes()) else {
        return false;
    };
    let mut out = Vec::new(alloc);
    write(&head, &mut out).is_ok() && out.as_slice() == wanted.as_bytes()
}

// The first of these headers of which something else is written.
fn first_unwritten(alloc: Global, headers: &[(&str, &str)]) -> Option<usize> {
    for at in 0..headers.len() {
        let (text, wanted) = headers[at];
        if !writes(alloc, text, wanted) {
            return Some(at);
        }
    }
    None
}

#[test]
fn writes_what_it_reads(rt: HostRuntime) {
    none_wrong(&rt, first_unwritten(rt.alloc(), &WRITTEN));
}

// The type of a header's samples, its NODATA, and the header.
const KINDS: &str = "\
    Int16 -1 NROWS 2\nNCOLS 3\nNBITS 16\nNODATA -1|\
    Int32 - NROWS 2\nNCOLS 3\nNBITS 32\nNODATA -0.5|\
    UInt16 0 NROWS 2\nNCOLS 3\nNBITS 16\nNODATA -0|\
    Byte - NROWS 2\nNCOLS 3\nNBITS 8\nNODATA -1|\
    Byte - NROWS 2\nNCOLS 3\nNODATA 256|\
    UInt32 - NROWS 2\nNCOLS 3\nNBITS 32\nNODATA -1\nPIXELTYPE UNSIGNEDINT|\
    Int8 -128 NROWS 2\nNCOLS 3\nPIXELTYPE SIGNEDINT\nNODATA -128|\
    Int8 - NROWS 2\nNCOLS 3\nPIXELTYPE SIGNEDINT\nNODATA 128|\
    Byte - NROWS 2\nNCOLS 3\nNBITS 8\nPIXELTYPE UNSIGNEDINT\nNODATA -1|\
    UInt64 18446744073709551615 NROWS 2\nNCOLS 3\nNBITS 64\nNODATA 18446744073709551615|\
    UInt64 - NROWS 2\nNCOLS 3\nNBITS 64\nNODATA 18446744073709551616|\
    Int64 -9223372036854775808 NROWS 2\nNCOLS 3\nNBITS 64\nNODATA -9223372036854775808|\
    Int64 - NROWS 2\nNCOLS 3\nNBITS 64\nNODATA -9223372036854775809|\
    Int64 - NROWS 2\nNCOLS 3\nNBITS 64\nPIXELTYPE SIGNEDINT\nNODATA 9223372036854775808|\
    UInt64 - NROWS 2\nNCOLS 3\nNBITS 64\nPIXELTYPE UNSIGNEDINT\nNODATA -1";

fn is_kind(_: Global, row: &str) -> Option<bool> {
    let (kind, rest) = word(row)?;
    let (nodata, text) = choice(rest)?;
    let head = read(text.as_bytes()).ok()?;
    Some(head.kind.name() == kind && head.nodata == nodata)
}

#[test]
fn reads_types_and_no_data(rt: HostRuntime) {
    all_hold(&rt, rt.alloc(), KINDS, is_kind);
}

fn layout_name(layout: Layout) -> &'static str {
    match layout {
        Layout::Bil => "Bil",
        Layout::Bip => "Bip",
        Layout::Bsq => "Bsq",
    }
}

// A header's layout, the bytes of a row of a band and of all bands, the gap, and the header.
const LAYOUTS: &str = "\
    Bil 5 10 0 NROWS 2\nNCOLS 3\nNBANDS 2\nBANDROWBYTES 5|\
    Bip 3 7 0 NROWS 2\nNCOLS 3\nNBANDS 2\nLAYOUT BIP\nBANDROWBYTES 1\nTOTALROWBYTES 7|\
    Bsq 3 3 4 NROWS 2\nNCOLS 3\nNBANDS 2\nLAYOUT BSQ\nTOTALROWBYTES 1\nBANDGAPBYTES 4";

fn is_counted(_: Global, row: &str) -> Option<bool> {
    let (layout, rest) = word(row)?;
    let (band_row, rest) = number(rest)?;
    let (total_row, rest) = number(rest)?;
    let (gap, text) = number(rest)?;
    let head = read(text.as_bytes()).ok()?;
    let rows = head.band_row as i128 == band_row && head.total_row as i128 == total_row;
    Some(rows && head.gap as i128 == gap && layout_name(head.layout) == layout)
}

#[test]
fn counts_rows_by_layout(rt: HostRuntime) {
    all_hold(&rt, rt.alloc(), LAYOUTS, is_counted);
}

const UNIT: i128 = 180_000_000_000_000_000;

// Whether the geotransform of a header has these numbers, in ticks.
fn is_placed(text: &str, origin: (i128, i128), step: (i128, i128)) -> bool {
    match read(text.as_bytes()) {
        Ok(head) => match head.transform() {
            Some(t) => { (t.ox.get(), t.oy.get()) == origin && (t.dx.get(), t.dy.get()) == step }
            None => false,
        },
        Err(_) => false,
    }
}

// Whether this is a header with no geotransform.
fn has_no_place(text: &str) -> bool {
    match read(text.as_bytes()) {
        Ok(head) => head.transform().is_none(),
        Err(_) => false,
    }
}

fn are_placed() -> bool {
    let origin = (UNIT * 17 / 2, 21 * UNIT);
    let step = (3 * UNIT, -UNIT);
    is_placed(
        "NROWS 2\nNCOLS 3\nULXMAP 10\nULYMAP 20.5\nXDIM 3",
        origin,
        step,
    ) && has_no_place("NROWS 2\nNCOLS 3\nULXMAP 10")
}

#[test]
fn transforms(rt: HostRuntime) {
    assert!(rt; are_placed());
}

// Blanks as long as a header may be, with this behind them.
fn blanks(alloc: Global, end: &[u8]) -> Result<Vec<u8>, AllocError> {
    let mut text = vec![in alloc; b' '; 1_048_576]?;
    text.extend_from_slice(end)?;
    Ok(text)
}

// Whether blanks with this behind them have this fault.
fn is_fault(alloc: Global, end: &[u8], wanted: HdrFault) -> bool {
    match blanks(alloc, end) {
        Ok(text) => fault_of(&text) == Some(wanted.number()),
        Err(_) => false,
    }
}

// What stands behind the blanks, and the fault.
const ENDS: [(&[u8], HdrFault); 2] = [(b"", HdrFault::MissingKey), (b"\n", HdrFault::Limit)];

// The first of these ends that has another fault.
fn first_other_end(alloc: Global, ends: &[(&[u8], HdrFault)]) -> Option<usize> {
    for at in 0..ends.len() {
        let (end, wanted) = ends[at];
        if !is_fault(alloc, end, wanted) {
            return Some(at);
        }
    }
    None
}

#[test]
fn refuses_a_long_header(rt: HostRuntime) {
    none_wrong(&rt, first_other_end(rt.alloc(), &ENDS));
}
