// The bytes of heads and records. The fields and their places are those of MIL-PRF-89020B: a user header label of 80
// bytes, a data set identification of 648, an accuracy description of 2,700, and records of 12 bytes and two for each
// point. What no reader looks at is spaces.
ghost use Rattle.dted_records.specs.Fit.{IsPlain};

use crate::cells::{Posts, STILL, cell};
use crate::plans::none_wrong;
use dted_records::{DtedHead, encode_record, read_head, write_head};
use geotransform::Size;
use std::alloc::Global;
use std::test::*;

/// 0, the null elevation, -5 and 5 from north to south: they stand from south to north, by sign and magnitude.
fn writes_from_south_to_north() -> bool {
    let mut record = [1u8; 20];
    encode_record(0, &[0, -32767, -5, 5], &mut record);
    record
        == [
            0xAA, 0, 0, 0, 0, 0, 0, 0, 0, 5, 0x80, 5, 0xFF, 0xFF, 0, 0, 0, 0, 3, 0x32,
        ]
}

/// The line's number stands in three bytes and again in two.
fn writes_the_number_twice() -> bool {
    let mut record = [1u8; 14];
    encode_record(256, &[-1], &mut record);
    record == [0xAA, 0, 1, 0, 1, 0, 0, 0, 0x80, 1, 0, 0, 1, 0x2D]
}

fn writes_the_last_line() -> bool {
    let mut record = [1u8; 14];
    encode_record(9_998, &[32_767], &mut record);
    record
        == [
            0xAA, 0, 0x27, 0x0E, 0x27, 0x0E, 0, 0, 0x7F, 0xFF, 0, 0, 2, 0x92,
        ]
}

/// Zero has no sign.
fn writes_zero() -> bool {
    let mut record = [1u8; 14];
    encode_record(1, &[0], &mut record);
    record == [0xAA, 0, 0, 1, 0, 1, 0, 0, 0, 0, 0, 0, 0, 0xAC]
}

/// The number of the first line that is written otherwise.
fn wrong_record() -> Option<usize> {
    if !writes_from_south_to_north() {
        return Some(0);
    }
    if !writes_the_number_twice() {
        return Some(1);
    }
    if !writes_the_last_line() {
        return Some(2);
    }
    if !writes_zero() {
        return Some(3);
    }
    None
}

#[test]
fn writes_records(rt: HostRuntime) {
    none_wrong(&rt, wrong_record());
}

/// The level, the size, the posts, the first 80 bytes, and the level's name.
type Written = (
    u32,
    u32,
    u32,
    i16,
    i16,
    i16,
    i16,
    &'static str,
    &'static str,
);

const WRITTEN: [Written; 5] = [
    (
        0,
        121,
        121,
        0,
        0,
        300,
        300,
        "UHL10000000E0000000N03000300NA  U              012101210                        ",
        "DTED0",
    ),
    (
        1,
        1201,
        1201,
        -1,
        -1,
        30,
        30,
        "UHL10010000W0010000S00300030NA  U              120112010                        ",
        "DTED1",
    ),
    (
        1,
        601,
        1201,
        50,
        10,
        30,
        60,
        "UHL10100000E0500000N00600030NA  U              060112010                        ",
        "DTED1",
    ),
    (
        2,
        601,
        3601,
        89,
        179,
        10,
        60,
        "UHL11790000E0890000N00600010NA  U              060136010                        ",
        "DTED2",
    ),
    (
        0,
        21,
        121,
        -90,
        -180,
        300,
        1800,
        "UHL11800000W0900000S18000300NA  U              002101210                        ",
        "DTED0",
    ),
];

fn are_spaces(bytes: &[u8]) -> bool {
    bytes.iter().all(|c| *c == b' ')
}

/// Whether the bytes are a text and spaces behind it.
fn is_filled(bytes: &[u8], text: &[u8]) -> bool {
    bytes.starts_with(text) && are_spaces(&bytes[text.len()..])
}

/// Whether 3,428 bytes are the head with this label and this level.
fn is_text(bytes: &[u8], label: &[u8], level: &[u8]) -> bool {
    if bytes.len() != 3428 {
        return false;
    }
    let (front, rest) = bytes.split_at(80);
    let (mark, rest) = rest.split_at(59);
    let (name, accuracy) = rest.split_at(589);
    front == label
        && is_filled(mark, b"DSIU")
        && is_filled(name, level)
        && is_filled(accuracy, b"ACC")
}

/// Whether the head is written so behind what stands there, and is read again.
fn is_written(alloc: Global, head: &DtedHead, label: &str, level: &str) -> bool
    requires { IsPlain head.now }
{
    let mut out = Vec::new(alloc);
    write_head(head, &mut out).is_ok()
        && is_text(&out, label.as_bytes(), level.as_bytes())
        && read_head(&out) == Ok(*head)
}

fn written_holds(alloc: Global, row: Written) -> bool {
    let (level, w, h, lat, lon, lat_step, lon_step, label, name) = row;
    let posts = Posts {
        lat,
        lon,
        lat_step,
        lon_step,
    };
    match cell(level, Size { w, h }, posts, STILL) {
        Some(head) => is_written(alloc, &head, label, name),
        None => false,
    }
}

fn wrong_head(alloc: Global, rows: &[Written]) -> Option<usize> {
    for at in 0..rows.len() {
        if !written_holds(alloc, rows[at]) {
            return Some(at);
        }
    }
    None
}

#[test]
fn writes_heads(rt: HostRuntime) {
    none_wrong(&rt, wrong_head(rt.alloc(), &WRITTEN));
}
