// Whole blocks that are put past the pool by their bytes: lines, lines over whose bytes samples were packed, and
// columns of a cell. The files of the forms that have such blocks, the forms that have none, windows over a part of
// such a block, and calls of the folder that fail.
ghost use Rattle.std.specs.Prelude.{◌≡◌, ◌<◌, [], length, true};
ghost use Rattle.write_back.specs.Files.{IsTarget};
ghost use Rattle.write_back.specs.Forms.{cut_of, AreHeld};
ghost use Rattle.write_back.specs.Packed.{block_len, IsApart, IsBlockOf, IsLined};
ghost use Rattle.write_back.specs.View.{Blocks};

use crate::cells::{CELL, has_each};
use crate::fixtures::{
    Asked, Ended, File, Form, Order, Window, folder_of, has_all, is_named_for, none_wrong, ordered,
    put_window,
};
use crate::tiles::TILE;
use band_blocks::Block;
use esri_hdr::Layout;
use geotransform::Sample;
use outside::{Counter, Failing, Folder, MemFolder, Method, Name};
use std::alloc::Global;
use std::marker::Brand;
use std::sync::ledger::{Blank, Ledger};
use std::test::*;
use write_back::{CloseFault, Packing, Target, TargetFault};

// A line, by its band, its number and its bytes.
type Line<'a> = (u8, u16, &'a [u8]);

// A line, and samples that are packed over it from a column on.
type Piece<'a> = (Line<'a>, u16, &'a [Sample]);

// A column: its number, its sample in the north, those between, and the one in the south.
type Column = (u16, i32, i32, i32);

/// What is put.
#[derive(Clone, Copy)]
enum Put<'a> {
    Line(Line<'a>),
    Piece(Piece<'a>),
    Column(Column),
}

// Puts a line where it is one of the output.
fn put_line<F: Folder, L: Ledger>(
    folder: &mut F,
    target: &mut Target<F>,
    packing: &Packing,
    band: u32,
    y: u32,
    bytes: &[u8],
    writes: &mut Counter<L>,
) -> Result<bool, TargetFault>
    requires lined { IsLined packing.now }
    requires target { IsTarget (F.names folder.old) target.old }
    requires output { target.old.output ≡ Blocks packing.now }
    requires empty { target.old.pool.entries ≡ [] }
    ensures target { IsTarget (F.names folder.new) target.new }
    ensures output { target.new.output ≡ Blocks packing.now }
    ensures empty { target.new.pool.entries ≡ [] }
{
    if band >= target.bands() || y >= packing.blocks() || bytes.len() != packing.block_len() {
        return Ok(false);
    }
    target.write_packed(folder, band, y, bytes, writes)?;
    Ok(true)
}

// Packs samples from a column on into a line's bytes, where the line has them and the output can hold them.
fn pack_over<F: Folder>(
    target: &Target<F>,
    packing: &Packing,
    x: u32,
    samples: &[Sample],
    block: &mut Block,
    bytes: &mut [u8],
) -> bool
    requires lined { IsLined packing.now }
    requires output { target.now.output ≡ Blocks packing.now }
    requires kind { block.old.kind ≡ (cut_of packing.now).kind }
    requires count { length block.old.samples ≡ (cut_of packing.now).spots }
{
    let spots = packing.spots() as usize;
    if samples.len() > spots || x as usize > spots - samples.len() {
        return false;
    }
    if bytes.len() != packing.block_len() || !target.holds(samples) {
        return false;
    }
    packing.pack_piece(x, samples, block, bytes);
    true
}

// Puts a line with samples that are packed over it.
fn put_piece<F: Folder, L: Ledger>(
    alloc: Global,
    folder: &mut F,
    target: &mut Target<F>,
    packing: &Packing,
    piece: Piece<'_>,
    writes: &mut Counter<L>,
) -> Result<bool, TargetFault>
    requires lined { IsLined packing.now }
    requires target { IsTarget (F.names folder.old) target.old }
    requires output { target.old.output ≡ Blocks packing.now }
    requires empty { target.old.pool.entries ≡ [] }
    ensures target { IsTarget (F.names folder.new) target.new }
    ensures output { target.new.output ≡ Blocks packing.now }
    ensures empty { target.new.pool.entries ≡ [] }
{
    let ((band, y, line), x, samples) = piece;
    let mut bytes = Vec::new(alloc);
    bytes.extend_from_slice(line)?;
    let mut block = Block::new(alloc, packing.kind(), packing.spots())?;
    let part = bytes.as_mut_slice();
    if !pack_over(target, packing, x as u32, samples, &mut block, part) {
        return Ok(false);
    }
    put_line(folder, target, packing, band as u32, y as u32, part, writes)
}

// Packs a column that the output can hold into the bytes of its record.
fn pack_held(packing: &Packing, x: u32, samples: &[Sample], block: &mut Block, bytes: &mut [u8])
    requires columns { (cut_of packing.now).by_columns ≡ true }
    requires column { x < (cut_of packing.now).blocks }
    requires size { length samples.now ≡ (cut_of packing.now).spots }
    requires range { AreHeld packing.now samples.now }
    requires kind { block.old.kind ≡ (cut_of packing.now).kind }
    requires count { length block.old.samples ≡ (cut_of packing.now).spots }
    requires bytes { length bytes.old ≡ block_len packing.now }
    ensures whole { IsBlockOf packing.now x bytes.new }
{
    block.write_run(0, samples);
    packing.pack_column(x, block, bytes);
}

// Puts a column where it is one of the output.
fn put_record<F: Folder, L: Ledger>(
    alloc: Global,
    folder: &mut F,
    target: &mut Target<F>,
    packing: &Packing,
    x: u32,
    samples: &[Sample],
    writes: &mut Counter<L>,
) -> Result<bool, TargetFault>
    requires columns { (cut_of packing.now).by_columns ≡ true }
    requires apart { IsApart packing.now }
    requires target { IsTarget (F.names folder.old) target.old }
    requires output { target.old.output ≡ Blocks packing.now }
    requires empty { target.old.pool.entries ≡ [] }
    ensures target { IsTarget (F.names folder.new) target.new }
    ensures output { target.new.output ≡ Blocks packing.now }
    ensures empty { target.new.pool.entries ≡ [] }
{
    if target.bands() == 0 || x >= packing.blocks() || samples.len() != packing.spots() as usize {
        return Ok(false);
    }
    if !target.holds(samples) {
        return Ok(false);
    }
    let mut block = Block::new(alloc, packing.kind(), packing.spots())?;
    let mut bytes = vec![in alloc; 0u8; packing.block_len()]?;
    let record = bytes.as_mut_slice();
    pack_held(packing, x, samples, &mut block, record);
    target.write_packed(folder, 0, x, record, writes)?;
    Ok(true)
}

// Puts a column of a cell of 121 lines.
fn put_column<F: Folder, L: Ledger>(
    alloc: Global,
    folder: &mut F,
    target: &mut Target<F>,
    packing: &Packing,
    column: Column,
    writes: &mut Counter<L>,
) -> Result<bool, TargetFault>
    requires columns { (cut_of packing.now).by_columns ≡ true }
    requires apart { IsApart packing.now }
    requires target { IsTarget (F.names folder.old) target.old }
    requires output { target.old.output ≡ Blocks packing.now }
    requires empty { target.old.pool.entries ≡ [] }
    ensures target { IsTarget (F.names folder.new) target.new }
    ensures output { target.new.output ≡ Blocks packing.now }
    ensures empty { target.new.pool.entries ≡ [] }
{
    let (x, north, middle, south) = column;
    let mut samples = vec![in alloc; middle as Sample; 121]?;
    samples[0] = north as Sample;
    samples[120] = south as Sample;
    let samples = samples.as_slice();
    put_record(alloc, folder, target, packing, x as u32, samples, writes)
}

// Puts what is put where it is a block of the output.
fn put_block<F: Folder, L: Ledger>(
    alloc: Global,
    folder: &mut F,
    target: &mut Target<F>,
    packing: &Packing,
    block: Put<'_>,
    writes: &mut Counter<L>,
) -> Result<bool, TargetFault>
    requires apart { IsApart packing.now }
    requires target { IsTarget (F.names folder.old) target.old }
    requires output { target.old.output ≡ Blocks packing.now }
    requires empty { target.old.pool.entries ≡ [] }
    ensures target { IsTarget (F.names folder.new) target.new }
    ensures output { target.new.output ≡ Blocks packing.now }
    ensures empty { target.new.pool.entries ≡ [] }
{
    if packing.by_columns() {
        match block {
            Put::Column(column) => {
                return put_column(alloc, folder, target, packing, column, writes);
            }
            Put::Line(_) | Put::Piece(_) => return Ok(false),
        }
    }
    match block {
        Put::Line(line) => {
            let (band, y, bytes) = line;
            put_line(
                folder,
                target,
                packing,
                band as u32,
                y as u32,
                bytes,
                writes,
            )
        }
        Put::Piece(piece) => put_piece(alloc, folder, target, packing, piece, writes),
        Put::Column(_) => Ok(false),
    }
}

// Whether a target of which a block was refused answers the same to the block once more and to `close`.
fn stays<F: Folder, L: Ledger>(
    alloc: Global,
    folder: &mut F,
    mut target: Target<F>,
    packing: &Packing,
    block: Put<'_>,
    cause: TargetFault,
    writes: &mut Counter<L>,
) -> bool
    requires apart { IsApart packing.now }
    requires target { IsTarget (F.names folder.old) target }
    requires output { target.output ≡ Blocks packing.now }
    requires empty { target.pool.entries ≡ [] }
{
    let again = put_block(alloc, folder, &mut target, packing, block, writes) == Err(cause);
    let published = 0;
    let closed = target.close(folder, writes);
    again && closed == Err(CloseFault { published, cause })
}

// Puts blocks of an output into its target, and closes it.
fn carried<F: Folder, L: Ledger>(
    alloc: Global,
    folder: &mut F,
    mut target: Target<F>,
    packing: &Packing,
    blocks: &[Put<'_>],
    blank: Blank,
) -> Ended
    requires apart { IsApart packing.now }
    requires target { IsTarget (F.names folder.old) target }
    requires output { target.output ≡ Blocks packing.now }
    requires empty { target.pool.entries ≡ [] }
    requires name { blank.name ≡ L.name }
    requires parts { blank.parts ≡ L.parts }
    requires some { 0 < blank.parts }
{
    let mut writes: Counter<L> = Counter::open(blank);
    for block in blocks {
        match put_block(alloc, folder, &mut target, packing, *block, &mut writes) {
            Ok(true) => {}
            Ok(false) => {
                target.give_up(folder);
                return Ended::NotAsked;
            }
            Err(cause) => {
                let still = stays(alloc, folder, target, packing, *block, cause, &mut writes);
                return Ended::Refused(cause, still);
            }
        }
    }
    match target.close(folder, &mut writes) {
        Ok(()) => Ended::Closed,
        Err(CloseFault { published, cause }) => Ended::NotClosed(published, cause),
    }
}

// Puts blocks of an output past a pool of so many blocks, at least one.
fn written<F: Folder>(
    alloc: Global,
    folder: &mut F,
    order: &Order,
    capacity: u16,
    blocks: &[Put<'_>],
) -> Ended {
    let Some(packing) = Packing::of(&order.plan) else {
        return Ended::NotAsked;
    };
    if capacity == 0 || !is_named_for(&order.plan, &order.name) {
        return Ended::NotAsked;
    }
    match Target::create(alloc, folder, &order.plan, &order.name, capacity as u32) {
        Ok(target) => {
            carried::<F, Brand>(alloc, folder, target, &packing, blocks, Blank::new(1))
        }
        Err(fault) => Ended::NotMade(fault),
    }
}

// Whether blocks end so, with these calls of the folder failing, and the folder has these files then.
fn ends_with(
    alloc: Global,
    asked: &Asked,
    capacity: u16,
    blocks: &[Put<'_>],
    failing: &[Failing],
    ended: Ended,
    files: &[File<'_>],
) -> Result<bool, Fail> {
    let order = ordered(alloc, asked)?;
    let old: [File<'_>; 1] = [(asked.name, b"old data")];
    let mut folder = folder_of(alloc, failing, &old)?;
    let so = written(alloc, &mut folder, &order, capacity, blocks) == ended;
    Ok(so && has_all(alloc, &folder, files)?)
}

// A raster of three columns, two lines and two bands.
const PAIR: Asked = Asked {
    text: "<VRTDataset rasterXSize=\"3\" rasterYSize=\"2\">\
        <VRTRasterBand dataType=\"Int16\"></VRTRasterBand>\
        <VRTRasterBand dataType=\"Int16\"></VRTRasterBand></VRTDataset>",
    form: Form::Raw(Layout::Bil),
    name: "out.bil",
    bands: &[],
    seen: None,
    nodata: None,
    kind: None,
};

const PAIR_BSQ: Asked = Asked {
    form: Form::Raw(Layout::Bsq),
    name: "out.bsq",
    ..PAIR
};

// One line is put twice, and the first one of the first band isn't put.
const LINES: [Put<'static>; 4] = [
    Put::Line((1, 0, &[1, 0, 2, 0, 255, 255])),
    Put::Line((0, 1, &[3, 0, 4, 0, 5, 0])),
    Put::Line((1, 0, &[6, 0, 7, 0, 8, 1])),
    Put::Line((1, 1, &[9, 0, 10, 0, 11, 0])),
];

const BIL_FILE: File<'static> = (
    "out.bil",
    &[
        0, 0, 0, 0, 0, 0, 6, 0, 7, 0, 8, 1, 3, 0, 4, 0, 5, 0, 9, 0, 10, 0, 11, 0,
    ],
);

const BSQ_FILE: File<'static> = (
    "out.bsq",
    &[
        0, 0, 0, 0, 0, 0, 3, 0, 4, 0, 5, 0, 6, 0, 7, 0, 8, 1, 9, 0, 10, 0, 11, 0,
    ],
);

// Samples over the middle, the front, the end and the whole of a line, and over none of it.
const PIECES: [Put<'static>; 4] = [
    Put::Piece(((0, 0, &[1, 0, 2, 0, 3, 0]), 1, &[-2])),
    Put::Piece(((1, 0, &[1, 0, 2, 0, 3, 0]), 0, &[258, 32_767])),
    Put::Piece(((0, 1, &[9, 9, 9, 9, 9, 9]), 0, &[4, -32_768, 5])),
    Put::Piece(((1, 1, &[7, 0, 8, 0, 9, 0]), 3, &[])),
];

// The bytes of a sample begin with the last one.
const PIECES_FILE: File<'static> = (
    "out.bil",
    &[
        1, 0, 254, 255, 3, 0, 2, 1, 255, 127, 3, 0, 4, 0, 0, 128, 5, 0, 7, 0, 8, 0, 9, 0,
    ],
);

// A line of five columns, of samples of one byte, and of eight.
const BYTES: Asked = Asked {
    text: "<VRTDataset rasterXSize=\"5\" rasterYSize=\"1\">\
        <VRTRasterBand dataType=\"Byte\"></VRTRasterBand></VRTDataset>",
    ..PAIR
};

const LONGS: Asked = Asked {
    text: "<VRTDataset rasterXSize=\"2\" rasterYSize=\"1\">\
        <VRTRasterBand dataType=\"Int64\"></VRTRasterBand></VRTDataset>",
    ..PAIR
};

const BYTES_PIECE: [Put<'static>; 1] = [Put::Piece(((0, 0, &[1, 2, 3, 4, 5]), 2, &[200, 0]))];

const BYTES_FILE: File<'static> = ("out.bil", &[1, 2, 200, 0, 5]);

const LONGS_PIECE: [Put<'static>; 1] = [Put::Piece((
    (0, 0, &[1, 2, 3, 4, 5, 6, 7, 8, 0, 0, 0, 0, 0, 0, 0, 0]),
    1,
    &[-2],
))];

const LONGS_FILE: File<'static> = (
    "out.bil",
    &[
        1, 2, 3, 4, 5, 6, 7, 8, 254, 255, 255, 255, 255, 255, 255, 255,
    ],
);

// A form, the blocks of the pool, what is put, and the data.
type Row = (Asked, u16, &'static [Put<'static>], File<'static>);

const FILES: [Row; 7] = [
    (PAIR, 1, &LINES, BIL_FILE),
    (PAIR, 64, &LINES, BIL_FILE),
    (PAIR_BSQ, 1, &LINES, BSQ_FILE),
    (PAIR_BSQ, 3, &LINES, BSQ_FILE),
    (PAIR, 1, &PIECES, PIECES_FILE),
    (BYTES, 1, &BYTES_PIECE, BYTES_FILE),
    (LONGS, 2, &LONGS_PIECE, LONGS_FILE),
];

// The first row whose file is another.
fn first_unwritten(alloc: Global, rows: &[Row]) -> Result<Option<usize>, Fail> {
    for at in 0..rows.len() {
        let (asked, capacity, blocks, file) = &rows[at];
        if !ends_with(
            alloc,
            asked,
            *capacity,
            *blocks,
            &[],
            Ended::Closed,
            &[*file],
        )? {
            return Ok(Some(at));
        }
    }
    Ok(None)
}

#[test]
fn lines_stand_in_the_files(rt: HostRuntime) -> Result<(), Fail> {
    none_wrong(&rt, first_unwritten(rt.alloc(), &FILES))
}

// The call of each line that fails: a line is written once.
const CALLS: [u64; 4] = [1, 2, 3, 4];

// The first of these calls after which a line isn't refused, or the name doesn't keep its bytes.
fn first_unkept(alloc: Global, calls: &[u64]) -> Result<Option<usize>, Fail> {
    let old: [File<'_>; 1] = [("out.bil", b"old data")];
    let ended = Ended::Refused(TargetFault::FolderFault, true);
    for at in 0..calls.len() {
        let failing: [Failing; 1] = [Failing::Of(Method::WriteAt, calls[at])];
        if !ends_with(alloc, &PAIR, 2, &LINES, &failing, ended, &old)? {
            return Ok(Some(at));
        }
    }
    Ok(None)
}

#[test]
fn a_refused_line_stays_refused(rt: HostRuntime) -> Result<(), Fail> {
    none_wrong(&rt, first_unkept(rt.alloc(), &CALLS))
}

// A form, and what isn't a block of it: where bands lie pixel by pixel there is none, lines of a tile and of a cell are
// longer, a cell has no lines and raw data no columns, and some samples are too many, or out of range.
type Other = (Asked, &'static [Put<'static>]);

const PAIR_BIP: Asked = Asked {
    form: Form::Raw(Layout::Bip),
    name: "out.bip",
    ..PAIR
};

const OTHERS: [Other; 9] = [
    (PAIR_BIP, &LINES),
    (TILE, &LINES),
    (CELL, &LINES),
    (CELL, &PIECES),
    (PAIR, &[Put::Column((0, 1, 1, 1))]),
    (PAIR, &[Put::Line((2, 0, &[1, 0, 2, 0, 3, 0]))]),
    (PAIR, &[Put::Line((0, 2, &[1, 0, 2, 0, 3, 0]))]),
    (
        PAIR,
        &[Put::Piece(((0, 0, &[1, 0, 2, 0, 3, 0]), 2, &[1, 2]))],
    ),
    (CELL, &[Put::Column((120, 0, -32_768, 0))]),
];

// The first of them that takes it.
fn first_taken(alloc: Global, rows: &[Other]) -> Result<Option<usize>, Fail> {
    for at in 0..rows.len() {
        let (asked, blocks) = &rows[at];
        if !ends_with(alloc, asked, 2, *blocks, &[], Ended::NotAsked, &[])? {
            return Ok(Some(at));
        }
    }
    Ok(None)
}

#[test]
fn what_is_no_block_is_not_taken(rt: HostRuntime) -> Result<(), Fail> {
    none_wrong(&rt, first_taken(rt.alloc(), &OTHERS))
}

// A line of a tile.
const TILE_LINE: [u8; 2402] = [7; 2402];

// That line, and samples in the middle of it.
const TILE_BLOCKS: [Put<'static>; 2] = [
    Put::Line((0, 1200, &TILE_LINE)),
    Put::Piece(((0, 1199, &TILE_LINE), 600, &[258, -2])),
];

// The bytes of the file from the samples on: the first byte of a sample counts most.
const TILE_BYTES: [(usize, &[u8]); 3] = [
    (2_879_994, &[0, 0, 0, 0, 7, 7]),
    (2_881_194, &[7, 7, 7, 7, 1, 2, 255, 254, 7, 7]),
    (2_884_800, &[7, 7]),
];

// A column in the east of a cell is put twice, and the first one; all others aren't.
const COLUMNS: [Put<'static>; 3] = [
    Put::Column((119, 300, 9, 8)),
    Put::Column((0, -32_767, 0, 1)),
    Put::Column((119, -1, 5, 7)),
];

// The bytes of a cell's file: the mark, the column twice, and the points from the south; the northern end and the sum.
const COLUMN_BYTES: [(usize, &[u8]); 7] = [
    (3428, &[170, 0, 0, 0, 0, 0, 0, 0, 0, 1, 0, 0]),
    // -32767, and 170 + 1 + 2 * 255
    (3676, &[255, 255, 0, 0, 2, 169]),
    (3682, &[0, 0, 0, 0, 0, 0, 0, 0, 0, 0]),
    (33_646, &[0, 0, 0, 0, 0, 0, 0, 0]),
    (33_654, &[170, 0, 0, 119, 0, 119, 0, 0, 0, 7, 0, 5, 0, 5]),
    // 5, then -1, and 170 + 2 * 119 + 7 + 119 * 5 + 128 + 1
    (33_900, &[0, 5, 128, 1, 0, 0, 4, 115]),
    (33_908, &[0, 0, 0, 0, 0, 0, 0, 0]),
];

// A form, the blocks of the pool, what is put, the bytes of the data, and some of them by their places.
type Part = (
    Asked,
    u16,
    &'static [Put<'static>],
    usize,
    &'static [(usize, &'static [u8])],
);

const PARTS: [Part; 4] = [
    (TILE, 1, &TILE_BLOCKS, 2_884_802, &TILE_BYTES),
    (TILE, 3, &TILE_BLOCKS, 2_884_802, &TILE_BYTES),
    (CELL, 1, &COLUMNS, 34_162, &COLUMN_BYTES),
    (CELL, 121, &COLUMNS, 34_162, &COLUMN_BYTES),
];

// Whether a folder has so many bytes under a name, and these parts among them.
fn has_data(folder: &MemFolder, name: &Name, len: usize, parts: &[(usize, &[u8])]) -> bool {
    match folder.bytes(name) {
        Some(bytes) => bytes.len() == len && has_each(bytes, parts),
        None => false,
    }
}

// Whether an output of these blocks has these bytes.
fn has_parts(alloc: Global, (asked, capacity, blocks, len, parts): &Part) -> Result<bool, Fail> {
    let order = ordered(alloc, asked)?;
    let mut folder: MemFolder = folder_of(alloc, &[], &[])?;
    let ended = written(alloc, &mut folder, &order, *capacity, *blocks);
    Ok(ended == Ended::Closed && has_data(&folder, &order.name, *len, *parts))
}

// The first row whose file has others.
fn first_other(alloc: Global, rows: &[Part]) -> Result<Option<usize>, Fail> {
    for at in 0..rows.len() {
        if !has_parts(alloc, &rows[at])? {
            return Ok(Some(at));
        }
    }
    Ok(None)
}

#[test]
fn lines_of_a_tile_and_columns_of_a_cell_stand_in_the_files(rt: HostRuntime) -> Result<(), Fail> {
    none_wrong(&rt, first_other(rt.alloc(), &PARTS))
}

// A window, and its samples.
type Patch<'a> = (Window, &'a [Sample]);

// Puts a block past the pool, and a window of it through the pool, and closes the target.
fn patched<F: Folder, L: Ledger>(
    alloc: Global,
    folder: &mut F,
    mut target: Target<F>,
    packing: &Packing,
    block: Put<'_>,
    patch: Patch<'_>,
    blank: Blank,
) -> Ended
    requires apart { IsApart packing.now }
    requires target { IsTarget (F.names folder.old) target }
    requires output { target.output ≡ Blocks packing.now }
    requires empty { target.pool.entries ≡ [] }
    requires name { blank.name ≡ L.name }
    requires parts { blank.parts ≡ L.parts }
    requires some { 0 < blank.parts }
{
    let mut writes: Counter<L> = Counter::open(blank);
    let (window, samples) = patch;
    let below = put_block(alloc, folder, &mut target, packing, block, &mut writes);
    let above = put_window(alloc, &mut target, folder, &window, samples, &mut writes);
    if below != Ok(true) || above != Ok(true) {
        target.give_up(folder);
        return Ended::NotAsked;
    }
    match target.close(folder, &mut writes) {
        Ok(()) => Ended::Closed,
        Err(CloseFault { published, cause }) => Ended::NotClosed(published, cause),
    }
}

// Puts a block of an output past a pool of so many blocks, at least one, and a window of it through the pool.
fn written_over<F: Folder>(
    alloc: Global,
    folder: &mut F,
    order: &Order,
    capacity: u16,
    block: Put<'_>,
    patch: Patch<'_>,
) -> Ended {
    let Some(packing) = Packing::of(&order.plan) else {
        return Ended::NotAsked;
    };
    if capacity == 0 || !is_named_for(&order.plan, &order.name) {
        return Ended::NotAsked;
    }
    match Target::create(alloc, folder, &order.plan, &order.name, capacity as u32) {
        Ok(target) => patched::<F, Brand>(
            alloc,
            folder,
            target,
            &packing,
            block,
            patch,
            Blank::new(1),
        ),
        Err(fault) => Ended::NotMade(fault),
    }
}

// A form, the blocks of the pool, a block that isn't the first one, a window of a part of it, the bytes of the data,
// and some of them by their places. The samples of the block that the window doesn't cover are read back from the
// draft.
type Over = (
    Asked,
    u16,
    Put<'static>,
    Patch<'static>,
    usize,
    &'static [(usize, &'static [u8])],
);

// The last line of the last band.
const LAST_LINE: Put<'static> = Put::Line((1, 1, &[9, 0, 10, 0, 11, 0]));

const OVERS: [Over; 5] = [
    (
        PAIR,
        1,
        LAST_LINE,
        ((1, (1, 1), (1, 1), 0), &[-2]),
        24,
        &[(16, &[0, 0, 9, 0, 254, 255, 11, 0])],
    ),
    (
        PAIR_BSQ,
        64,
        LAST_LINE,
        ((1, (0, 1), (2, 1), 0), &[258, -32_768]),
        24,
        &[(16, &[0, 0, 2, 1, 0, 128, 11, 0])],
    ),
    (
        TILE,
        1,
        Put::Line((0, 1200, &TILE_LINE)),
        ((0, (600, 1200), (1, 1), 0), &[258]),
        2_884_802,
        &[(2_882_398, &[0, 0, 7, 7]), (2_883_598, &[7, 7, 1, 2, 7, 7])],
    ),
    // 300 in the north, and 170 + 2 * 119 + 7 + 119 * 5 + 1 + 44
    (
        CELL,
        1,
        Put::Column((119, -1, 5, 7)),
        ((0, (119, 0), (1, 1), 0), &[300]),
        34_162,
        &[
            (33_654, &[170, 0, 0, 119, 0, 119, 0, 0, 0, 7, 0, 5, 0, 5]),
            (33_900, &[0, 5, 1, 44, 0, 0, 4, 31]),
        ],
    ),
    // 2 in the south, and 170 + 2 * 119 + 2 + 119 * 5 + 128 + 1
    (
        CELL,
        121,
        Put::Column((119, -1, 5, 7)),
        ((0, (119, 120), (1, 1), 0), &[2]),
        34_162,
        &[
            (33_654, &[170, 0, 0, 119, 0, 119, 0, 0, 0, 2, 0, 5, 0, 5]),
            (33_900, &[0, 5, 128, 1, 0, 0, 4, 110]),
        ],
    ),
];

// Whether an output of such a block and window has these bytes.
fn has_over(
    alloc: Global,
    (asked, capacity, block, patch, len, parts): &Over,
) -> Result<bool, Fail> {
    let order = ordered(alloc, asked)?;
    let mut folder: MemFolder = folder_of(alloc, &[], &[])?;
    let ended = written_over(alloc, &mut folder, &order, *capacity, *block, *patch);
    Ok(ended == Ended::Closed && has_data(&folder, &order.name, *len, *parts))
}

// The first row whose file has others.
fn first_unpatched(alloc: Global, rows: &[Over]) -> Result<Option<usize>, Fail> {
    for at in 0..rows.len() {
        if !has_over(alloc, &rows[at])? {
            return Ok(Some(at));
        }
    }
    Ok(None)
}

#[test]
fn a_window_leaves_the_rest_of_a_block_that_was_put(rt: HostRuntime) -> Result<(), Fail> {
    none_wrong(&rt, first_unpatched(rt.alloc(), &OVERS))
}
