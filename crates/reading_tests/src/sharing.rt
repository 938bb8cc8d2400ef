// Lanes over the same lines: what one has read, the next one is shown.
ghost use Rattle.std.specs.Prelude.{◌≡◌, ◌<◌, ◌≤◌, Some, length};
ghost use Rattle.outside.specs.Outside.{Files};
ghost use Rattle.catalog.specs.Walk.{IsWalked};

use crate::fixtures::{File, folder_of, name_of, none_wrong};
use band_blocks::Counter;
use catalog::{Catalog, open_all};
use geotransform::{Rect, Sample, Size};
use nearest_window::{Lane, Supply, Window};
use outside::{CountingFolder, Folder, MemFolder, Name};
use shared_lines::{Lines, Scene};
use std::alloc::{AllocError, Global};
use std::marker::Brand;
use std::process::Abort;
use std::sync::ledger::{Blank, Ledger};
use std::test::*;

// Whether a new lane over lines gives these samples of the first band of a small dataset.
fn gives<F: Folder, L: Ledger, S: Scene>(
    alloc: Global,
    cat: &Catalog,
    folder: &mut F,
    lines: &Lines<S>,
    id: u32,
    wanted: &[Sample],
    blank: Blank,
) -> Result<bool, AllocError>
    requires id { id < length cat.now }
    requires walked { (m : Files) → F.names folder.old ≡ Some m → IsWalked m cat.now }
    requires told { S.told ≡ F.names folder.old }
    requires scene { S.cat ≡ cat.now }
    requires name { blank.name ≡ L.name }
    requires parts { blank.parts ≡ L.parts }
    requires some { 0 < blank.parts }
{
    let Size { w, h } = cat.head(id).size;
    if w > 16 || h > 16 {
        return Ok(false);
    }
    let window = Window {
        dataset: id,
        band: 0,
        rect: Rect { x: 0, y: 0, w, h },
    };
    let mut out = vec![in alloc; 0i128; (w * h) as usize]?;
    let mut lane = Lane::new(alloc, 64)?;
    let mut loads: Counter<L> = Counter::open(blank);
    let samples = out.as_mut_slice();
    let supply = Supply {
        alloc,
        cat,
        shared: Some(lines),
    };
    let answer = lane.read_window_with(&supply, folder, window, samples, &mut loads);
    Ok(answer.is_ok() && out.as_slice() == wanted)
}

// The same through a view of the folder, which is ended, where nobody counts the lane's loads.
fn view_gives<F: Folder, S: Scene>(
    alloc: Global,
    cat: &Catalog,
    folder: &mut F,
    lines: &Lines<S>,
    id: u32,
    wanted: &[Sample],
) -> bool
    requires id { id < length cat.now }
    requires walked { (m : Files) → F.names folder.old ≡ Some m → IsWalked m cat.now }
    requires told { S.told ≡ F.names folder.old }
    requires scene { S.cat ≡ cat.now }
    ensures names { F.names folder.new ≡ F.names folder.old }
{
    let Ok(mut view) = folder.fork() else {
        return false;
    };
    let given = gives::<F, Brand, S>(alloc, cat, &mut view, lines, id, wanted, Blank::new(1));
    folder.absorb(view);
    matches!(given, Ok(true))
}

// Whether each of so many new lanes, one behind the other over the same lines, as many as `count`, gives these samples.
fn each_gives<F: Folder, S: Scene>(
    alloc: Global,
    cat: &Catalog,
    folder: &mut F,
    id: u32,
    wanted: &[Sample],
    lanes: u32,
    count: u32,
) -> Result<bool, AllocError>
    requires id { id < length cat.now }
    requires walked { (m : Files) → F.names folder.old ≡ Some m → IsWalked m cat.now }
    requires told { S.told ≡ F.names folder.old }
    requires scene { S.cat ≡ cat.now }
    requires some { 1 ≤ count }
    requires few { count ≤ 65536 }
{
    let lines: Lines<S> = Lines::new(alloc, cat, folder, count)?;
    for _lane in 0..lanes {
        if !view_gives(alloc, cat, folder, &lines, id, wanted) {
            return Ok(false);
        }
    }
    Ok(true)
}

// The same of the dataset of a name.
fn lanes_give<F: Folder>(
    alloc: Global,
    folder: &mut F,
    name: &Name,
    wanted: &[Sample],
    lanes: u32,
    count: u32,
) -> bool {
    let mut cat = Catalog::new(alloc);
    let Ok(id) = open_all(alloc, &mut cat, folder, name, false) else {
        return false;
    };
    if id >= cat.count() || count == 0 || count > 65536 {
        return false;
    }
    matches!(
        each_gives::<F, Brand>(alloc, &cat, folder, id, wanted, lanes, count),
        Ok(true)
    )
}

const MOSAIC: &[u8] =
    b"<VRTDataset rasterXSize=\"4\" rasterYSize=\"4\"><VRTRasterBand dataType=\"Byte\" band=\"1\"><SimpleSource>\
    <SourceFilename relativeToVRT=\"1\">four.bil</SourceFilename></SimpleSource></VRTRasterBand></VRTDataset>";

const FOUR: [u8; 16] = [1, 2, 3, 4, 5, 6, 7, 8, 9, 10, 11, 12, 13, 14, 15, 16];

const FILES: [File<'static>; 3] = [
    ("four.bil", &FOUR),
    ("four.hdr", b"NROWS 4\nNCOLS 4\n"),
    ("m.vrt", MOSAIC),
];

const SAMPLES: [Sample; 16] = [1, 2, 3, 4, 5, 6, 7, 8, 9, 10, 11, 12, 13, 14, 15, 16];

// How many reads the walk and the views of so many lanes over so many lines take, where each gives the samples.
fn reads_by(
    alloc: Global,
    folder: &mut CountingFolder<MemFolder>,
    name: &Name,
    lanes: u32,
    count: u32,
) -> Option<u64> {
    let before = folder.reads();
    if !lanes_give(alloc, folder, name, &SAMPLES, lanes, count) {
        return None;
    }
    Some(folder.reads().saturating_sub(before))
}

// Whether so many lanes over so many lines take four reads more than the walk alone.
fn takes_four(
    alloc: Global,
    folder: &mut CountingFolder<MemFolder>,
    name: &Name,
    lanes: u32,
    count: u32,
) -> bool {
    let walked = reads_by(alloc, folder, name, 0, count);
    let all = reads_by(alloc, folder, name, lanes, count);
    match (walked, all) {
        (Some(walked), Some(all)) => all == walked.saturating_add(4),
        _ => false,
    }
}

// A dataset, and how many lines are shared.
type Row<'a> = (&'a str, u32);

// A file and a mosaic of it; and the mosaic with one line, in which its square is put behind the lines of the file.
const ROWS: [Row<'static>; 3] = [("four.bil", 64), ("m.vrt", 64), ("m.vrt", 1)];

// Whether the first lane reads each of the four lines, and the lanes behind it read nothing.
fn reads_once<R: Abort>(rt: &R, alloc: Global, row: &Row<'_>) -> bool {
    let (name, count) = *row;
    let mut folder = CountingFolder::new(folder_of(rt, alloc, 0, &FILES));
    let name = name_of(rt, alloc, name);
    takes_four(alloc, &mut folder, &name, 1, count)
        && takes_four(alloc, &mut folder, &name, 2, count)
        && takes_four(alloc, &mut folder, &name, 3, count)
}

// The first of these that is read again.
fn first_reread<R: Abort>(rt: &R, alloc: Global, rows: &[Row<'_>]) -> Option<usize> {
    for (at, row) in rows.iter().enumerate() {
        if !reads_once(rt, alloc, row) {
            return Some(at);
        }
    }
    None
}

#[test]
fn a_second_lane_reads_nothing(rt: HostRuntime) {
    none_wrong(&rt, first_reread(&rt, rt.alloc(), &ROWS));
}
