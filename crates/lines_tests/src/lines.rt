ghost use Rattle.std.specs.Prelude.{◌≡◌, ◌≤◌, None, IfOk, IfSome, length};
ghost use Rattle.std.specs.Thread.{IsSend, IsSync};
ghost use Rattle.band_blocks.specs.Blocks.{IsPacked};
ghost use Rattle.band_blocks.specs.Contents.{IsBlock};
ghost use Rattle.band_blocks.specs.Keys.{IsKey};

use band_blocks::{Block, BlockKey, block_at};
use catalog::{Catalog, open_all};
use geotransform::{Sample, holds};
use outside::{CalmFolder, DiskFolder, Folder, Name, Never};
use shared_lines::{Lines, Scene, zeros_for};
use std::alloc::{AllocError, Global};
use std::marker::Brand;
use std::process;
use std::test::*;
use std::thread::{Threads, join};

// A dataset, a band and a line of pixels, which is a block.
type Place = (u32, u32, u32);

// The two samples of a block.
type Pair = (Sample, Sample);

// What is done to shared lines: a block of these samples is offered, or a block is looked for, and its samples are
// shown, or nothing.
#[derive(Clone, Copy)]
enum LineCall {
    Offer(Place, Pair),
    Look(Place, Option<Pair>),
}

use LineCall::{Look, Offer};

// How many lines there are, and what is done to them.
type Row<'a> = (u32, &'a [LineCall]);

// The first dataset has one band of six lines, the second two of three.
const ROWS: [Row<'static>; 7] = [
    // what was never offered
    (4, &[Look((0, 0, 1), None), Look((1, 1, 2), None)]),
    // a block is shown under its key, and not under another of the same line
    (
        4,
        &[
            Offer((0, 0, 1), (1, 2)),
            Look((0, 0, 1), Some((1, 2))),
            Look((0, 0, 5), None),
            Look((0, 0, 1), Some((1, 2))),
        ],
    ),
    // nor under a key of another line
    (
        4,
        &[
            Offer((0, 0, 1), (1, 2)),
            Look((0, 0, 0), None),
            Look((0, 0, 2), None),
            Look((1, 0, 1), None),
        ],
    ),
    // the line is given to another key
    (
        4,
        &[
            Offer((0, 0, 1), (1, 2)),
            Offer((0, 0, 5), (5, 6)),
            Look((0, 0, 1), None),
            Look((0, 0, 5), Some((5, 6))),
            Offer((0, 0, 1), (2, 1)),
            Look((0, 0, 1), Some((2, 1))),
        ],
    ),
    // bands of one dataset, and datasets, in lines of 7 and of 31
    (
        7,
        &[
            Offer((1, 0, 2), (3, 4)),
            Look((1, 1, 2), None),
            Offer((1, 1, 2), (4, 3)),
            Look((1, 1, 2), Some((4, 3))),
            Look((1, 0, 2), None),
        ],
    ),
    (
        31,
        &[
            Offer((0, 0, 2), (6, 7)),
            Look((1, 0, 2), None),
            Offer((1, 0, 2), (7, 6)),
            Look((1, 0, 2), Some((7, 6))),
            Look((0, 0, 2), None),
        ],
    ),
    // all keys share one line
    (
        1,
        &[
            Look((0, 0, 0), None),
            Offer((0, 0, 0), (8, 9)),
            Look((0, 0, 0), Some((8, 9))),
            Look((0, 0, 1), None),
            Offer((1, 1, 0), (9, 8)),
            Look((0, 0, 0), None),
            Look((1, 1, 0), Some((9, 8))),
        ],
    ),
];

// The key of the block of a place, where there is one.
#[tactic(auto, using(band_blocks::proofs::Loads::key_in))]
fn key_of(cat: &Catalog, place: Place) -> Option<BlockKey>
    ensures key { IfSome result (IsKey cat.now) }
{
    let (dataset, band, line) = place;
    if dataset >= cat.count() {
        return None;
    }
    let head = cat.head(dataset);
    if band as usize >= head.bands.len() || head.size.w == 0 || line >= head.size.h {
        return None;
    }
    Some(BlockKey {
        dataset,
        band,
        block: block_at(head, band, 0, line),
    })
}

// Puts a sample into its place, where the block has that and its type the number.
fn put_at(block: &mut Block, at: u32, sample: Sample)
    ensures kind { block.new.kind ≡ block.old.kind }
    ensures count { length block.new.samples ≡ length block.old.samples }
    ensures valid { IsPacked block.new }
{
    if at < block.len() && holds(block.kind(), sample) {
        block.set(at, sample);
    }
    // A block is packed: that is known of what is read.
    let _len = block.len();
}

// Puts both samples.
fn put_both(block: &mut Block, pair: Pair)
    ensures kind { block.new.kind ≡ block.old.kind }
    ensures count { length block.new.samples ≡ length block.old.samples }
    ensures valid { IsPacked block.new }
{
    let (first, second) = pair;
    put_at(block, 0, first);
    put_at(block, 1, second);
}

// A block of a key, over a folder that tells nothing, with these samples.
#[tactic(auto, using(crate::proofs::Untold::is_block))]
fn block_of<S: Scene>(
    alloc: Global,
    cat: &Catalog,
    key: BlockKey,
    pair: Pair,
) -> Result<Block, AllocError>
    requires told { S.told ≡ None }
    requires cat { S.cat ≡ cat.now }
    requires key { IsKey cat.now key }
    ensures block { IfOk result (IsBlock S.told S.cat key) }
{
    let mut block = zeros_for(alloc, cat, key)?;
    put_both(&mut block, pair);
    Ok(block)
}

// Whether a block of these samples was put into its line.
fn is_put<S: Scene>(
    alloc: Global,
    cat: &Catalog,
    lines: &Lines<S>,
    key: BlockKey,
    pair: Pair,
) -> Result<bool, AllocError>
    requires told { S.told ≡ None }
    requires cat { S.cat ≡ cat.now }
    requires key { IsKey cat.now key }
{
    let block = block_of::<S>(alloc, cat, key, pair)?;
    lines.offer(key, &block)
}

// The samples of the block that is shown under a key, where it has two.
fn both_shown<S: Scene>(
    alloc: Global,
    cat: &Catalog,
    lines: &Lines<S>,
    key: BlockKey,
) -> Result<Option<Pair>, AllocError>
    requires cat { S.cat ≡ cat.now }
    requires key { IsKey cat.now key }
{
    let mut out = zeros_for(alloc, cat, key)?;
    if !lines.look(&key, &mut out) || out.len() != 2 {
        return Ok(None);
    }
    Ok(Some((out.get(0), out.get(1))))
}

// Whether a step goes so.
fn goes<S: Scene>(
    alloc: Global,
    cat: &Catalog,
    lines: &Lines<S>,
    step: LineCall,
) -> Result<bool, AllocError>
    requires told { S.told ≡ None }
    requires cat { S.cat ≡ cat.now }
{
    match step {
        Offer(place, pair) => match key_of(cat, place) {
            Some(key) => is_put(alloc, cat, lines, key, pair),
            None => Ok(false),
        },
        Look(place, pair) => match key_of(cat, place) {
            Some(key) => Ok(both_shown(alloc, cat, lines, key)? == pair),
            None => Ok(false),
        },
    }
}

// Whether all steps go so, one after another, from empty lines.
fn all_go<F: Folder, S: Scene>(
    alloc: Global,
    cat: &Catalog,
    folder: &F,
    count: u32,
    steps: &[LineCall],
) -> Result<bool, AllocError>
    requires none { F.names folder.now ≡ None }
    requires told { S.told ≡ F.names folder.now }
    requires cat { S.cat ≡ cat.now }
    requires some { 1 ≤ count }
    requires few { count ≤ 65536 }
{
    let lines: Lines<S> = Lines::new(alloc, cat, folder, count)?;
    for step in steps {
        if !goes(alloc, cat, &lines, *step)? {
            return Ok(false);
        }
    }
    Ok(true)
}

// The first row in which a step goes otherwise, or how many rows there are.
fn first_wrong<F: Folder>(
    alloc: Global,
    cat: &Catalog,
    folder: &F,
    rows: &[Row],
) -> Result<usize, AllocError>
    requires none { F.names folder.now ≡ None }
{
    for (at, (count, steps)) in rows.iter().enumerate() {
        if *count == 0
            || *count > 65536
            || !all_go::<F, Brand>(alloc, cat, folder, *count, steps)?
        {
            return Ok(at);
        }
    }
    Ok(rows.len())
}

// A name and its bytes.
type File<'a> = (&'a str, &'a [u8]);

const FILES: [File<'static>; 4] = [
    ("a.bil", &[0; 12]),
    ("a.hdr", b"NROWS 6\nNCOLS 2\n"),
    ("b.bil", &[0; 12]),
    ("b.hdr", b"NROWS 3\nNCOLS 2\nNBANDS 2\n"),
];

// A folder with these files.
fn folder_of(alloc: Global, files: &[File<'_>]) -> Result<CalmFolder, Fail> {
    let mut folder = CalmFolder::new(alloc, Never);
    for file in files {
        let (name, bytes) = *file;
        folder.put(&Name::read(alloc, name)?, bytes)?;
    }
    Ok(folder)
}

// The catalog of the datasets of these names, which stand among these files.
fn catalog_of(alloc: Global, files: &[File<'_>], names: &[&str]) -> Result<Catalog, Fail> {
    let mut folder = folder_of(alloc, files)?;
    let mut cat = Catalog::new(alloc);
    for name in names {
        let name = Name::read(alloc, *name)?;
        if open_all(alloc, &mut cat, &mut folder, &name, false).is_err() {
            return Err("the walk was refused".into());
        }
    }
    Ok(cat)
}

// The catalog of the two datasets.
fn datasets(alloc: Global) -> Result<Catalog, Fail> {
    catalog_of(alloc, &FILES, &["a.bil", "b.bil"])
}

#[test]
fn offered_blocks_are_shown_under_their_keys(rt: HostRuntime) -> Result<(), Fail> {
    let folder = DiskFolder::new(rt.clone()?, process::id(rt.process()), rt.alloc());
    let cat = datasets(rt.alloc())?;
    assert_eq!(rt; first_wrong(rt.alloc(), &cat, &folder, &ROWS)?, ROWS.len());
    Ok(())
}

// A raster of two columns and six lines by itself, whose second line has the samples 1 and 2.
const LOW: [File<'static>; 2] = [
    ("a.bil", &[0, 0, 1, 2, 0, 0, 0, 0, 0, 0, 0, 0]),
    ("a.hdr", b"NROWS 6\nNCOLS 2\n"),
];

// Of four lines that are shared, its second and its last line have the same: the one that was offered is shown, and the
// other one isn't.
const SECOND: [Row<'static>; 1] = [(
    4,
    &[
        Offer((0, 0, 1), (1, 2)),
        Look((0, 0, 1), Some((1, 2))),
        Look((0, 0, 5), None),
    ],
)];

#[test]
fn a_line_is_not_shown_as_another(rt: HostRuntime) -> Result<(), Fail> {
    let folder = DiskFolder::new(rt.clone()?, process::id(rt.process()), rt.alloc());
    let cat = catalog_of(rt.alloc(), &LOW, &["a.bil"])?;
    assert_eq!(rt;
        first_wrong(rt.alloc(), &cat, &folder, &SECOND)?,
        SECOND.len()
    );
    Ok(())
}

// Two blocks of one line of four, by their samples.
const BESIDE: [(Place, Pair); 2] = [((0, 0, 1), (1, 2)), ((0, 0, 5), (5, 6))];

// Whether a block is shown as it was offered, or not at all, once it was offered here.
fn is_own<S: Scene>(
    alloc: Global,
    cat: &Catalog,
    lines: &Lines<S>,
    place: Place,
    pair: Pair,
) -> Result<bool, AllocError>
    requires told { S.told ≡ None }
    requires cat { S.cat ≡ cat.now }
{
    let Some(key) = key_of(cat, place) else {
        return Ok(false);
    };
    let _put = is_put(alloc, cat, lines, key, pair)?;
    let shown = both_shown(alloc, cat, lines, key)?;
    Ok(shown.is_none() || shown == Some(pair))
}

// Whether each block that is shown is its key's, while both are offered in turn.
fn are_own<S: Scene>(alloc: Global, cat: &Catalog, lines: &Lines<S>) -> Result<bool, AllocError>
    requires told { S.told ≡ None }
    requires cat { S.cat ≡ cat.now }
{
    for turn in 0..2000 {
        let (place, pair) = BESIDE[turn % 2];
        if !is_own(alloc, cat, lines, place, pair)? {
            return Ok(false);
        }
    }
    Ok(true)
}

// The same in two threads beside each other.
fn both_are_own<R: Threads, F: Folder, S: Scene>(
    rt: &R,
    alloc: Global,
    cat: &Catalog,
    folder: &F,
) -> Result<bool, AllocError>
    requires none { F.names folder.now ≡ None }
    requires told { S.told ≡ F.names folder.now }
    requires cat { S.cat ≡ cat.now }
{
    let made: Lines<S> = Lines::new(alloc, cat, folder, 4)?;
    let lines = &made;
    let (one, other) = join(
        rt,
        || -> Result<bool, AllocError>
            requires { IsSend S.row × IsSync S.row × (S.told ≡ None) × (S.cat ≡ cat.now) }
        { are_own(alloc, cat, lines) },
        || -> Result<bool, AllocError>
            requires { IsSend S.row × IsSync S.row × (S.told ≡ None) × (S.cat ≡ cat.now) }
        { are_own(alloc, cat, lines) },
    );
    Ok(one? && other?)
}

// The same, over a folder that tells nothing.
fn is_apart<R: Threads, F: Folder>(
    rt: &R,
    alloc: Global,
    cat: &Catalog,
    folder: &F,
) -> Result<bool, AllocError>
    requires none { F.names folder.now ≡ None }
{
    both_are_own::<R, F, Brand>(rt, alloc, cat, folder)
}

#[test]
fn two_threads_share_lines(rt: HostRuntime) -> Result<(), Fail> {
    let folder = DiskFolder::new(rt.clone()?, process::id(rt.process()), rt.alloc());
    let cat = datasets(rt.alloc())?;
    assert!(rt; is_apart(&rt, rt.alloc(), &cat, &folder)?);
    Ok(())
}
