use crate::fixtures::none_wrong;
use band_blocks::Block;
use geotransform::{PixelType, Sample, holds};
use std::alloc::Global;
use std::process::Abort;
use std::test::*;

// A type, and samples of it.
type Extreme = (PixelType, [Sample; 4]);

const EXTREMES: [Extreme; 8] = [
    (PixelType::Byte, [0, 255, 1, 254]),
    (PixelType::Int8, [-128, 127, -1, 126]),
    (PixelType::UInt16, [0, 65_535, 256, 255]),
    (PixelType::Int16, [-32_768, 32_767, -1, 256]),
    (PixelType::UInt32, [0, 4_294_967_295, 65_536, 2_147_483_648]),
    (
        PixelType::Int32,
        [-2_147_483_648, 2_147_483_647, -1, 65_536],
    ),
    (
        PixelType::UInt64,
        [
            0,
            18_446_744_073_709_551_615,
            4_294_967_296,
            9_223_372_036_854_775_808,
        ],
    ),
    (
        PixelType::Int64,
        [
            -9_223_372_036_854_775_808,
            9_223_372_036_854_775_807,
            -1,
            4_294_967_296,
        ],
    ),
];

fn extremes() -> &'static [Extreme] {
    &EXTREMES
}

fn put(block: &mut Block, at: u32, sample: Sample) {
    if at < block.len() && holds(block.kind(), sample) {
        block.set(at, sample);
    }
}

fn sample_at(block: &Block, at: u32) -> Option<Sample> {
    if at < block.len() {
        return Some(block.get(at));
    }
    None
}

// Two samples from a place on.
fn pair_at(block: &Block, at: u32) -> Option<[Sample; 2]> {
    if block.len() < 2 || at > block.len() - 2 {
        return None;
    }
    let mut pair = [7; 2];
    block.copy_run(at, &mut pair);
    Some(pair)
}

// Whether a block of a type has three zeros.
fn has_zeros(block: &Block, kind: PixelType) -> bool {
    block.kind() == kind
        && block.len() == 3
        && pair_at(block, 1) == Some([0, 0])
        && sample_at(block, 0) == Some(0)
}

// Whether a new block of a type has zeros.
fn begins<R: Abort>(rt: &R, alloc: Global, kind: PixelType) -> bool {
    let block = Block::new(alloc, kind, 3).expect(rt, "memory");
    has_zeros(&block, kind)
}

// The first type of which that isn't so.
fn first_begun<R: Abort>(rt: &R, alloc: Global, rows: &[Extreme]) -> Option<usize> {
    for (at, row) in rows.iter().enumerate() {
        if !begins(rt, alloc, row.0) {
            return Some(at);
        }
    }
    None
}

#[test]
fn begins_with_zeros(rt: HostRuntime) {
    none_wrong(&rt, first_begun(&rt, rt.alloc(), extremes()));
}

// A block of these samples, each of which was put.
fn block_of<R: Abort>(rt: &R, alloc: Global, row: &Extreme) -> Block {
    let (kind, samples) = *row;
    let mut block = Block::new(alloc, kind, 4).expect(rt, "memory");
    for at in 0..4 {
        put(&mut block, at, samples[at as usize]);
    }
    block
}

// Whether a block has these samples.
fn has_samples(block: &Block, samples: &[Sample; 4]) -> bool {
    for at in 0..4 {
        if sample_at(block, at) != Some(samples[at as usize]) {
            return false;
        }
    }
    pair_at(block, 2) == Some([samples[2], samples[3]])
}

// Whether a block keeps what was put.
fn keeps<R: Abort>(rt: &R, alloc: Global, row: &Extreme) -> bool {
    let block = block_of(rt, alloc, row);
    has_samples(&block, &row.1)
}

// The first type of which a block doesn't keep what was put.
fn first_lost<R: Abort>(rt: &R, alloc: Global, rows: &[Extreme]) -> Option<usize> {
    for (at, row) in rows.iter().enumerate() {
        if !keeps(rt, alloc, row) {
            return Some(at);
        }
    }
    None
}

#[test]
fn keeps_extremes(rt: HostRuntime) {
    none_wrong(&rt, first_lost(&rt, rt.alloc(), extremes()));
}

// Packs the middle of a block of four, and puts it over its back.
fn moved<R: Abort>(rt: &R, alloc: Global, block: &mut Block) -> Option<Block> {
    if block.len() != 4 {
        return None;
    }
    let mut run = [7; 2];
    block.copy_run(1, &mut run);
    let packed = Block::pack(alloc, block.kind(), &run).expect(rt, "memory");
    block.write_run(2, &run);
    Some(packed)
}

// Whether a block is of a type and begins with these samples.
fn begins_with(block: &Block, kind: PixelType, pair: [Sample; 2]) -> bool {
    block.kind() == kind && pair_at(block, 0) == Some(pair)
}

// Whether the middle of a block goes into another, and over the back of its own.
fn moves<R: Abort>(rt: &R, alloc: Global, row: &Extreme) -> bool {
    let (kind, samples) = *row;
    let mut block = block_of(rt, alloc, row);
    let Some(packed) = moved(rt, alloc, &mut block) else {
        return false;
    };
    begins_with(&packed, kind, [samples[1], samples[2]])
        && begins_with(&block, kind, [samples[0], samples[1]])
        && pair_at(&block, 2) == Some([samples[1], samples[2]])
}

// The first type of which it doesn't.
fn first_unmoved<R: Abort>(rt: &R, alloc: Global, rows: &[Extreme]) -> Option<usize> {
    for (at, row) in rows.iter().enumerate() {
        if !moves(rt, alloc, row) {
            return Some(at);
        }
    }
    None
}

#[test]
fn moves_runs(rt: HostRuntime) {
    none_wrong(&rt, first_unmoved(&rt, rt.alloc(), extremes()));
}

// A type, and its least and its greatest sample.
type Ends = (PixelType, [Sample; 2]);

const CLAMPED: [Ends; 8] = [
    (PixelType::Byte, [0, 255]),
    (PixelType::Int8, [-128, 127]),
    (PixelType::UInt16, [0, 65_535]),
    (PixelType::Int16, [-32_768, 32_767]),
    (PixelType::UInt32, [0, 4_294_967_295]),
    (PixelType::Int32, [-2_147_483_648, 2_147_483_647]),
    (PixelType::UInt64, [0, 18_446_744_073_709_551_615]),
    (
        PixelType::Int64,
        [-9_223_372_036_854_775_808, 9_223_372_036_854_775_807],
    ),
];

// Whether samples beyond the range of a type become these.
fn clamps<R: Abort>(rt: &R, alloc: Global, row: &Ends) -> bool {
    let (kind, wanted) = *row;
    let beyond: [Sample; 2] = [-20_000_000_000_000_000_000, 20_000_000_000_000_000_000];
    let block = Block::pack_clamped(alloc, kind, &beyond).expect(rt, "memory");
    begins_with(&block, kind, wanted)
}

// The first type of which they don't.
fn first_unclamped<R: Abort>(rt: &R, alloc: Global, rows: &[Ends]) -> Option<usize> {
    for (at, row) in rows.iter().enumerate() {
        if !clamps(rt, alloc, row) {
            return Some(at);
        }
    }
    None
}

#[test]
fn clamps_to_the_type(rt: HostRuntime) {
    none_wrong(&rt, first_unclamped(&rt, rt.alloc(), &CLAMPED));
}
