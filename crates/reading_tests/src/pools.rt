use crate::fixtures::none_wrong;
use band_blocks::{Block, BlockKey};
use block_cache::Pool;
use geotransform::{PixelType, Sample, holds};
use std::alloc::Global;
use std::process::Abort;
use std::test::*;

// A call of a pool whose blocks have one sample, and what it answers.
#[derive(Clone, Copy)]
enum PoolCall {
    // the number of the block, its sample, whether it is dirty, and what is dropped
    Admit(u64, Sample, bool, Option<(u64, Sample, bool)>),
    Find(u64, Option<Sample>),
    Patch(u64, Sample, bool),
    TakeDirty(Option<(u64, Sample)>),
    Held(u32),
}

use PoolCall::{Admit, Find, Held, Patch, TakeDirty};

const ONE: [PoolCall; 7] = [
    Admit(1, 10, true, None),
    Held(1),
    Admit(2, 20, false, Some((1, 10, true))),
    Find(1, None),
    Patch(1, 11, false),
    TakeDirty(None),
    Held(0),
];

const TWO: [PoolCall; 12] = [
    Admit(1, 10, true, None),
    Admit(2, 20, false, None),
    Find(1, Some(10)),
    Admit(3, 30, false, Some((2, 20, false))),
    Find(2, None),
    Patch(3, 31, true),
    Held(2),
    Admit(2, 21, false, Some((1, 10, true))),
    Find(3, Some(31)),
    TakeDirty(Some((3, 31))),
    Held(0),
    TakeDirty(None),
];

const THREE: [PoolCall; 12] = [
    Admit(1, 10, false, None),
    Admit(2, 20, true, None),
    Admit(3, 30, false, None),
    Admit(1, 11, true, None),
    Held(3),
    Find(4, None),
    Admit(4, 40, false, Some((2, 20, true))),
    Find(3, Some(30)),
    Find(1, Some(11)),
    Admit(5, 50, true, Some((4, 40, false))),
    TakeDirty(Some((1, 11))),
    TakeDirty(Some((5, 50))),
];

fn key(number: u64) -> BlockKey {
    BlockKey {
        dataset: 3,
        band: 1,
        block: number,
    }
}

fn sample_of(block: &Block) -> Sample {
    if block.len() > 0 {
        return block.get(0);
    }
    -1
}

fn block_of<R: Abort>(rt: &R, alloc: Global, sample: Sample) -> Block {
    Block::pack_clamped(alloc, PixelType::Int16, &[sample]).expect(rt, "memory")
}

// Whether a block is admitted, and that is dropped.
fn admits<R: Abort>(
    rt: &R,
    alloc: Global,
    pool: &mut Pool,
    (number, sample, dirty): (u64, Sample, bool),
    wanted: Option<(u64, Sample, bool)>,
) -> bool {
    let block = block_of(rt, alloc, sample);
    match pool.admit(key(number), block, dirty) {
        Ok(Some(dropped)) => {
            let block = sample_of(&dropped.block);
            wanted == Some((dropped.key.block, block, dropped.dirty))
        }
        Ok(None) => wanted.is_none(),
        Err(_) => false,
    }
}

fn find(pool: &mut Pool, number: u64) -> Option<Sample> {
    match pool.find(&key(number)) {
        Some(block) => Some(sample_of(block)),
        None => None,
    }
}

fn take_dirty(pool: &mut Pool) -> Option<(u64, Sample)> {
    match pool.take_dirty() {
        Some((key, block)) => Some((key.block, sample_of(&block))),
        None => None,
    }
}

// Puts the sample into the block, where the block is of one sample whose type has it.
fn patch(pool: &mut Pool, number: u64, sample: Sample) -> bool {
    let key = key(number);
    match pool.find(&key) {
        Some(block) => {
            if block.len() != 1 || !holds(block.kind(), sample) {
                return false;
            }
        }
        None => return pool.patch(&key, 0, &[sample]),
    }
    pool.patch(&key, 0, &[sample])
}

// Whether a call answers so.
fn is_told<R: Abort>(rt: &R, alloc: Global, pool: &mut Pool, step: PoolCall) -> bool {
    match step {
        Admit(number, sample, dirty, dropped) => {
            admits(rt, alloc, pool, (number, sample, dirty), dropped)
        }
        Find(number, sample) => find(pool, number) == sample,
        Patch(number, sample, held) => patch(pool, number, sample) == held,
        TakeDirty(taken) => take_dirty(pool) == taken,
        Held(count) => pool.held() == count,
    }
}

// The first of these calls that answers otherwise.
fn first_untold<R: Abort>(
    rt: &R,
    alloc: Global,
    pool: &mut Pool,
    steps: &[PoolCall],
) -> Option<usize> {
    for (at, step) in steps.iter().enumerate() {
        if !is_told(rt, alloc, pool, *step) {
            return Some(at);
        }
    }
    None
}

// The first of these calls to a new pool that answers otherwise, or how many there are where the pool has another
// capacity or still holds the third block.
fn first_wrong<R: Abort>(
    rt: &R,
    alloc: Global,
    capacity: u32,
    steps: &[PoolCall],
) -> Option<usize> {
    let mut pool = Pool::new(alloc, capacity.clamp(1, 3)).expect(rt, "memory");
    let untold = first_untold(rt, alloc, &mut pool, steps);
    if pool.capacity() == capacity && !pool.holds(&key(3)) {
        return untold;
    }
    Some(untold.unwrap_or(steps.len()))
}

#[test]
fn a_pool_of_one(rt: HostRuntime) {
    none_wrong(&rt, first_wrong(&rt, rt.alloc(), 1, &ONE));
}

#[test]
fn a_pool_of_two(rt: HostRuntime) {
    none_wrong(&rt, first_wrong(&rt, rt.alloc(), 2, &TWO));
}

#[test]
fn a_pool_of_three(rt: HostRuntime) {
    none_wrong(&rt, first_wrong(&rt, rt.alloc(), 3, &THREE));
}
