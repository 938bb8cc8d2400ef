use crate::tables::{all_hold, count, none_wrong};
use dted_records::head::{DtedFault, DtedHead};
use dted_records::reading::read_head;
use dted_records::records::{check_record, decode_record};
use geotransform::Sample;
use std::alloc::Global;
use std::test::*;

/// One line of four points at 10 degrees east, 45 degrees north, with steps of three arc seconds.
const LABEL: &[u8] = b"UHL10100000E0450000N00300030NA  U              00010004";

/// The record of that line: 5, -5, the null elevation and the other 0 from south to north.
const RECORD: [u8; 20] = [
    0xAA, 0, 0, 0, 0, 0, 0, 0, 0x00, 0x05, 0x80, 0x05, 0xFF, 0xFF, 0x80, 0x00, 0, 0, 0x03, 0xB2,
];

fn put(out: &mut [u8], at: usize, text: &[u8]) {
    let (_, rest) = out.split_at_mut(at.min(out.len()));
    if text.len() <= rest.len() {
        let (place, _) = rest.split_at_mut(text.len());
        place.copy_from_slice(text);
    }
}

/// Makes the bytes, behind `skip` of them, the head of that file.
fn put_head(out: &mut [u8], skip: u32) {
    let skip = skip as usize;
    put(out, skip, LABEL);
    put(out, skip + 80, b"DSI");
    put(out, skip + 728, b"ACC");
}

/// The number of the fault of the bytes, 0 for none.
fn fault_of(bytes: &[u8]) -> u8 {
    match read_head(bytes) {
        Ok(_) => 0,
        Err(fault) => fault.number(),
    }
}

// A fault's number, how many bytes there are, a place of the head of that file, and what is written there.
const HEADS: &str = "\
    0 3428 0 U|\
    3 3427 0 U|\
    3 80 0 U|\
    3 79 0 U|\
    3 0 0 U|\
    3 79 0 X|\
    1 80 0 UHL2|\
    1 3428 0 uhl1|\
    1 3428 0 UHL20100000X|\
    0 3428 4 1800000E|\
    0 3428 4 1795959W|\
    2 3428 4 1800001E|\
    2 3428 4 1800100W|\
    2 3428 4 1810000E|\
    2 3428 4 0106000E|\
    2 3428 4 0100060E|\
    2 80 4 0100060E|\
    2 3428 4 0100000N|\
    2 3428 4 0100000e|\
    2 3428 4  100000E|\
    2 3428 4 010+100E|\
    0 3428 12 0900000S|\
    2 3428 12 0900001N|\
    2 3428 12 0450000E|\
    2 3428 20 0000|\
    0 3428 20 9999|\
    2 3428 24 0000|\
    2 3428 24  030|\
    2 3428 47 0000|\
    2 3428 47 0001000x|\
    2 80 51 0000|\
    1 3428 80 DSJ|\
    3 3427 80 DSJ|\
    0 3428 80 DSIX|\
    1 3428 728 ACD|\
    0 3428 728 ACCX";

// The number of the fault of so many bytes of the head of that file, where this is written at a place of it.
fn head_fault(at: usize, text: &[u8], len: usize) -> u8 {
    let mut bytes = [b' '; 3428];
    put_head(&mut bytes, 0);
    put(&mut bytes, at, text);
    let (front, _) = bytes.split_at(len.min(3428));
    fault_of(front)
}

fn is_judged(_: Global, row: &str) -> Option<bool> {
    let (fault, rest) = count(row)?;
    let (len, rest) = count(rest)?;
    let (at, text) = count(rest)?;
    Some(head_fault(at as usize, text.as_bytes(), len as usize) as u32 == fault)
}

#[test]
fn refuses_by_the_first_rule(rt: HostRuntime) {
    all_hold(&rt, rt.alloc(), HEADS, is_judged);
    assert!(rt; DtedFault::BadRecord(7).number() == 4);
}

// The fault's number, how many leading records there are, and what they begin with.
const LEADING: &str = "\
    0 1 VOL|\
    0 8 HDR|\
    1 9 VOL|\
    1 1 vol|\
    1 1 UHL";

fn put_leading(out: &mut [u8], count: u32, word: &[u8]) {
    for record in 0..count {
        put(out, 80 * record as usize, word);
    }
}

// Whether a head behind so many records is read from there, or has this fault.
fn skips(fault: u32, count: u32, word: &[u8]) -> bool {
    let mut bytes = [b' '; 4148];
    let skip = 80 * count.min(10);
    put_leading(&mut bytes, count, word);
    put_head(&mut bytes, skip);
    match read_head(&bytes) {
        Ok(head) => fault == 0 && head.skip == skip as u64,
        Err(found) => found.number() as u32 == fault,
    }
}

fn is_skipped(_: Global, row: &str) -> Option<bool> {
    let (fault, rest) = count(row)?;
    let (leading, word) = count(rest)?;
    Some(skips(fault, leading, word.as_bytes()))
}

#[test]
fn skips_up_to_eight_records(rt: HostRuntime) {
    all_hold(&rt, rt.alloc(), LEADING, is_skipped);
}

/// Checks and reads a record where it has the head's length and `out` its points.
fn values(head: &DtedHead, bytes: &[u8], out: &mut [Sample]) -> Option<bool> {
    if bytes.len() != head.record_len() || out.len() != head.points as usize {
        return None;
    }
    decode_record(head, bytes, out);
    Some(check_record(head, bytes))
}

// Whether a head is that of the line.
fn is_of_line(head: &DtedHead) -> bool {
    let geo = head.transform();
    let corner = (geo.ox.get(), geo.oy.get());
    let step = (geo.dx.get(), geo.dy.get());
    head.record_at(0) == 3428
        && head.needed_len() == 3448
        && corner == (1_799_925_000_000_000_000, 8_100_525_000_000_000_000)
        && step == (150_000_000_000_000, -150_000_000_000_000)
}

// The first and the last byte of the record, and whether its mark and its sum are right.
const SUMS: [(u8, u8, bool); 3] = [(0xAA, 0xB2, true), (0xAA, 0xB3, false), (0xA9, 0xB1, false)];

// Whether the record with these bytes has the line's values, and is as good as this.
fn is_read(head: &DtedHead, first: u8, last: u8, good: bool) -> bool {
    let mut record = RECORD;
    record[0] = first;
    record[19] = last;
    let mut out = [1i128; 4];
    values(head, &record, &mut out) == Some(good) && out == [0, -32767, -5, 5]
}

// The first of these records that is read otherwise.
fn first_misread(head: &DtedHead, sums: &[(u8, u8, bool)]) -> Option<usize> {
    for at in 0..sums.len() {
        let (first, last, good) = sums[at];
        if !is_read(head, first, last, good) {
            return Some(at);
        }
    }
    None
}

fn line() -> Option<DtedHead> {
    let mut bytes = [b' '; 3428];
    put_head(&mut bytes, 0);
    read_head(&bytes).ok()
}

// The first record of the line that is read otherwise, where its head is read.
fn first_misread_of_line() -> Option<usize> {
    match line() {
        Some(head) if is_of_line(&head) => first_misread(&head, &SUMS),
        _ => Some(SUMS.len()),
    }
}

#[test]
fn reads_from_north_to_south(rt: HostRuntime) {
    none_wrong(&rt, first_misread_of_line());
}

// A head of as many lines and points as can be told.
fn large() -> Option<DtedHead> {
    let mut bytes = [b' '; 3428];
    put_head(&mut bytes, 0);
    put(&mut bytes, 4, b"0703015W0335559S");
    put(&mut bytes, 47, b"99999999");
    read_head(&bytes).ok()
}

fn needs_all() -> bool {
    match large() {
        Some(head) => {
            head.lon == -253815 && head.lat == -122159 && head.needed_len() == 200_083_418
        }
        None => false,
    }
}

#[test]
fn needs_the_bytes_of_all_records(rt: HostRuntime) {
    assert!(rt; needs_all());
}
