use crate::tables::{all_hold, joined, number};
use esri_hdr::{RawHead, read, sample_len};
use geotransform::holds;
use interleaved_raw::sample_places::{needed_len, position, stride};
use interleaved_raw::samples::{decode_run, decode_sample, encode_run};
use std::alloc::Global;
use std::test::*;

/// The sample of a file in a band, a column and a line, where it has one.
fn sample_of(head: &RawHead, file: &[u8], band: u32, x: u32, y: u32) -> Option<i128> {
    if band >= head.bands || x >= head.size.w || y >= head.size.h {
        return None;
    }
    let rest = file.get(position(head, band, x, y) as usize..)?;
    if rest.len() < sample_len(head.kind) {
        return None;
    }
    Some(decode_sample(head, rest))
}

const TWO_BANDS: [u8; 12] = [1, 2, 3, 4, 5, 6, 7, 8, 9, 10, 11, 12];

// The last samples of two bands of 3 x 2 bytes, and their header.
const LAYOUTS: &str = "\
    9 12 NROWS 2\nNCOLS 3\nNBANDS 2\nLAYOUT BIL\n|\
    11 12 NROWS 2\nNCOLS 3\nNBANDS 2\nLAYOUT BIP\n|\
    6 12 NROWS 2\nNCOLS 3\nNBANDS 2\nLAYOUT BSQ\n";

// Whether the bands of a header end with these samples.
fn ends_with(text: &str, first: i128, second: i128) -> bool {
    let Ok(head) = read(text.as_bytes()) else {
        return false;
    };
    needed_len(&head) == 12
        && sample_of(&head, &TWO_BANDS, 0, 2, 1) == Some(first)
        && sample_of(&head, &TWO_BANDS, 1, 2, 1) == Some(second)
}

fn is_found(_: Global, row: &str) -> Option<bool> {
    let (first, rest) = number(row)?;
    let (second, header) = number(rest)?;
    Some(ends_with(header, first, second))
}

#[test]
fn finds_samples_by_layout(rt: HostRuntime) {
    all_hold(&rt, rt.alloc(), LAYOUTS, is_found);
}

// The sample of one pixel in the bytes FF FE 80 01 00 7F 10 80, and its header.
const KINDS: &str = "\
    65534 NROWS 1\nNCOLS 1\nNBITS 16\nBYTEORDER M\n|\
    -2 NROWS 1\nNCOLS 1\nNBITS 16\nBYTEORDER M\nPIXELTYPE SIGNEDINT\n|\
    65279 NROWS 1\nNCOLS 1\nNBITS 16\nBYTEORDER I\n|\
    -257 NROWS 1\nNCOLS 1\nNBITS 16\nPIXELTYPE SIGNEDINT\n|\
    4294868993 NROWS 1\nNCOLS 1\nNBITS 32\nBYTEORDER M\n|\
    -98303 NROWS 1\nNCOLS 1\nNBITS 32\nBYTEORDER M\nPIXELTYPE SIGNEDINT\n|\
    25231103 NROWS 1\nNCOLS 1\nNBITS 32\n|\
    255 NROWS 1\nNCOLS 1\nNBITS 8\n|\
    -1 NROWS 1\nNCOLS 1\nPIXELTYPE SIGNEDINT\n|\
    18446321865547780224 NROWS 1\nNCOLS 1\nNBITS 64\nBYTEORDER M\n|\
    -422208161771392 NROWS 1\nNCOLS 1\nNBITS 64\nBYTEORDER M\nPIXELTYPE SIGNEDINT\n|\
    9228015274484104959 NROWS 1\nNCOLS 1\nNBITS 64\n|\
    -9218728799225446657 NROWS 1\nNCOLS 1\nNBITS 64\nPIXELTYPE SIGNEDINT\n";

const PIXEL: [u8; 8] = [0xFF, 0xFE, 0x80, 0x01, 0x00, 0x7F, 0x10, 0x80];

fn is_pixel(_: Global, row: &str) -> Option<bool> {
    let (wanted, header) = number(row)?;
    let head = read(header.as_bytes()).ok()?;
    Some(sample_of(&head, &PIXEL, 0, 0, 0) == Some(wanted))
}

#[test]
fn reads_by_order_and_type(rt: HostRuntime) {
    all_hold(&rt, rt.alloc(), KINDS, is_pixel);
}

/// Writes a run where its samples are of the head's type and the bytes hold it.
#[tactic(auto, using(interleaved_raw::proofs::Runs::all_in))]
fn write_run(head: &RawHead, samples: &[i128], bytes: &mut [u8]) -> bool {
    if samples.is_empty() || samples.len() > 8 {
        return false;
    }
    if (samples.len() - 1) * stride(head) as usize + sample_len(head.kind) > bytes.len() {
        return false;
    }
    if !samples.iter().all(|n| holds(head.kind, *n)) {
        return false;
    }
    encode_run(head, samples, bytes);
    true
}

const BETWEEN: &str =
    "NROWS 1\nNCOLS 3\nNBANDS 2\nNBITS 16\nLAYOUT BIP\nBYTEORDER M\nPIXELTYPE SIGNEDINT";

// What is written between bytes that are 7.
fn written(text: &str, samples: &[i128]) -> Option<[u8; 11]> {
    let head = read(text.as_bytes()).ok()?;
    let mut bytes = [7; 11];
    if write_run(&head, samples, &mut bytes) {
        return Some(bytes);
    }
    None
}

fn keeps_between() -> bool {
    let wanted = [0xFF, 0xFE, 7, 7, 1, 0, 7, 7, 0x7F, 0xFF, 7];
    written(BETWEEN, &[-2, 256, 32767]) == Some(wanted)
}

#[test]
fn writes_between_what_stays(rt: HostRuntime) {
    assert!(rt; keeps_between());
}

/// Reads a run where the bytes hold it.
fn read_run(head: &RawHead, bytes: &[u8], out: &mut [i128]) -> bool {
    if out.is_empty() || out.len() > 8 {
        return false;
    }
    if (out.len() - 1) * stride(head) as usize + sample_len(head.kind) > bytes.len() {
        return false;
    }
    decode_run(head, bytes, out);
    true
}

// A line of a band that begins at a place of the bytes.
fn line_from(text: &str, place: usize) -> Option<[i128; 3]> {
    let head = read(text.as_bytes()).ok()?;
    let mut out = [0; 3];
    if read_run(&head, TWO_BANDS.get(place..)?, &mut out) {
        return Some(out);
    }
    None
}

fn reads_line() -> bool {
    line_from("NROWS 2\nNCOLS 3\nNBANDS 2\nLAYOUT BIP", 7) == Some([8, 10, 12])
}

#[test]
fn reads_a_run_of_a_band(rt: HostRuntime) {
    assert!(rt; reads_line());
}

// The least and the greatest number of a type, and a header of it without its layout and its order.
const ENDS: &str = "\
    0 255 NBITS 8\n|\
    -128 127 NBITS 8\nPIXELTYPE SIGNEDINT\n|\
    0 65535 NBITS 16\n|\
    -32768 32767 NBITS 16\nPIXELTYPE SIGNEDINT\n|\
    0 4294967295 NBITS 32\n|\
    -2147483648 2147483647 NBITS 32\nPIXELTYPE SIGNEDINT\n|\
    0 18446744073709551615 NBITS 64\n|\
    -9223372036854775808 9223372036854775807 NBITS 64\nPIXELTYPE SIGNEDINT\n";

const FORMS: [&str; 6] = [
    "NROWS 1\nNCOLS 2\nNBANDS 2\nLAYOUT BIL\nBYTEORDER I\n",
    "NROWS 1\nNCOLS 2\nNBANDS 2\nLAYOUT BIL\nBYTEORDER M\n",
    "NROWS 1\nNCOLS 2\nNBANDS 2\nLAYOUT BIP\nBYTEORDER I\n",
    "NROWS 1\nNCOLS 2\nNBANDS 2\nLAYOUT BIP\nBYTEORDER M\n",
    "NROWS 1\nNCOLS 2\nNBANDS 2\nLAYOUT BSQ\nBYTEORDER I\n",
    "NROWS 1\nNCOLS 2\nNBANDS 2\nLAYOUT BSQ\nBYTEORDER M\n",
];

// Whether what is written of two samples is read as they are.
fn reads_again(head: &RawHead, ends: [i128; 2]) -> bool {
    let mut bytes = [7; 24];
    let mut out = [0; 2];
    write_run(head, &ends, &mut bytes) && read_run(head, &bytes, &mut out) && out == ends
}

// The same with a header in two parts.
fn keeps(alloc: Global, form: &str, kind: &str, ends: [i128; 2]) -> bool {
    match joined(alloc, &[form.as_bytes(), kind.as_bytes()]) {
        Ok(text) => match read(&text) {
            Ok(head) => reads_again(&head, ends),
            Err(_) => false,
        },
        Err(_) => false,
    }
}

// Whether the ends of a type are read as they were written in each of these layouts and orders.
fn keeps_in(alloc: Global, forms: &[&str], kind: &str, ends: [i128; 2]) -> bool {
    for form in forms {
        if !keeps(alloc, form, kind, ends) {
            return false;
        }
    }
    true
}

fn keeps_ends(alloc: Global, row: &str) -> Option<bool> {
    let (least, rest) = number(row)?;
    let (greatest, kind) = number(rest)?;
    Some(keeps_in(alloc, &FORMS, kind, [least, greatest]))
}

#[test]
fn keeps_the_ends_of_types(rt: HostRuntime) {
    all_hold(&rt, rt.alloc(), ENDS, keeps_ends);
}
