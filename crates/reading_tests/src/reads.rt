// Windows of datasets, read one after the other through one lane, as tests compare them.
ghost use Rattle.std.specs.Prelude.{◌≡◌, ◌*◌, ◌+◌, ◌<◌, ◌≤◌, Some, length, true};
ghost use Rattle.outside.specs.Outside.{Files};
ghost use Rattle.catalog.specs.Walk.{IsWalked};
ghost use Rattle.nearest_window.specs.Right.{IsReady};

use crate::fixtures::{add, name_of, put};
use band_blocks::{Counter, LoadFault};
use catalog::{Catalog, open_all};
use geotransform::{Rect, Sample, Size};
use nearest_window::{Lane, Window};
use outside::{CalmFolder, CountingFolder, Folder, Name};
use std::alloc::{AllocError, Global};
use std::marker::Brand;
use std::process::Abort;
use std::sync::ledger::{Blank, Ledger};

/// A band, counted from 0, and a rectangle of it: a column, a line, and so many columns and lines.
pub type Place = (u32, (u32, u32, u32, u32));

/// Windows of the dataset of a name, how many columns and lines this has, and how many blocks the lane holds.
#[derive(Clone, Copy)]
pub struct Job<'a> {
    pub name: &'a str,
    pub size: (u32, u32),
    pub capacity: u32,
    pub windows: &'a [Place],
}

/// What a dataset shows, by its definition.
pub trait Picture {
    /// The pixel of a band, counted from 0, in a column and a line.
    fn pixel(&self, band: u32, x: u32, y: u32) -> Sample;
}

/// What stands for each sample of a window that a failed call of the folder refused.
pub const FAILED: Sample = 1_000_000_000_000_000_000_000;

/// What stands for each sample of a window that is refused otherwise, or isn't one.
pub const REFUSED: Sample = 2_000_000_000_000_000_000_000;

// What windows are read through.
#[derive(Drop)]
struct Reader<F: Folder, L: Ledger> {
    alloc: Global,
    lane: Lane<F>,
    loads: Counter<L>,
}

// How many pixels a rectangle has.
fn count_of(rect: Rect) -> u64
    ensures count { result ≡ rect.w * rect.h }
{
    rect.w as u64 * rect.h as u64
}

// Whether a rectangle lies in a raster, and room is as large as it.
fn fits(rect: Rect, size: Size, room: usize) -> bool
    ensures across { result ≡ true → rect.x + rect.w ≤ size.w }
    ensures down { result ≡ true → rect.y + rect.h ≤ size.h }
    ensures room { result ≡ true → room ≡ rect.w * rect.h }
{
    if rect.x as u64 + rect.w as u64 > size.w as u64 {
        return false;
    }
    if rect.y as u64 + rect.h as u64 > size.h as u64 {
        return false;
    }
    room as u64 == count_of(rect)
}

// What stands for the samples of a window that isn't read.
fn mark_of(fault: LoadFault) -> Sample {
    match fault {
        LoadFault::FolderFault => FAILED,
        _ => REFUSED,
    }
}

// Reads a window of a dataset. What stands for its samples where it isn't read.
#[tactic(auto, using(crate::proofs::Rects::window_in))]
fn read_window<F: Folder, L: Ledger>(
    reader: &mut Reader<F, L>,
    cat: &Catalog,
    folder: &mut F,
    window: Window,
    out: &mut [Sample],
) -> Option<Sample>
    requires ready { IsReady F.Folder folder.old cat.now reader.old.lane }
    requires known { window.dataset < length cat.now }
    ensures ready { IsReady F.Folder folder.new cat.now reader.new.lane }
{
    let head = cat.head(window.dataset);
    if window.band as usize >= head.bands.len() {
        return Some(REFUSED);
    }
    if !fits(window.rect, head.size, out.len()) {
        return Some(REFUSED);
    }
    let lane = &mut reader.lane;
    match lane.read_window(reader.alloc, cat, folder, window, out, &mut reader.loads) {
        Ok(()) => return None,
        Err(fault) => return Some(mark_of(fault)),
    }
}

// Reads a window of a dataset, or marks its samples.
fn read_marked<F: Folder, L: Ledger>(
    reader: &mut Reader<F, L>,
    cat: &Catalog,
    folder: &mut F,
    window: Window,
    out: &mut [Sample],
)
    requires ready { IsReady F.Folder folder.old cat.now reader.old.lane }
    requires known { window.dataset < length cat.now }
    ensures ready { IsReady F.Folder folder.new cat.now reader.new.lane }
{
    if let Some(mark) = read_window(reader, cat, folder, window, out) {
        out.fill(mark);
    }
}

fn rect_of((x, y, w, h): (u32, u32, u32, u32)) -> Rect {
    Rect { x, y, w, h }
}

// Where the samples of a rectangle end, in room for so many.
fn end_of(from: usize, rect: Rect, room: usize) -> usize
    requires there { from ≤ room }
    ensures behind { from ≤ result }
    ensures within { result ≤ room }
{
    let left = room - from;
    let count = count_of(rect);
    if count > left as u64 {
        return room;
    }
    from + count as usize
}

// Reads windows of a dataset one after the other.
fn read_each<F: Folder, L: Ledger>(
    reader: &mut Reader<F, L>,
    cat: &Catalog,
    folder: &mut F,
    dataset: u32,
    windows: &[Place],
    out: &mut [Sample],
)
    requires ready { IsReady F.Folder folder.old cat.now reader.old.lane }
    requires known { dataset < length cat.now }
{
    let mut from = 0;
    for (band, rect) in windows.iter() {
        let rect = rect_of(*rect);
        let end = end_of(from, rect, out.len());
        let window = Window {
            dataset,
            band: *band,
            rect,
        };
        read_marked(reader, cat, folder, window, &mut out[from..end]);
        from = end;
    }
}

// Reads windows of a dataset through a new lane.
fn read_through<F: Folder, L: Ledger>(
    alloc: Global,
    cat: &Catalog,
    folder: &mut F,
    dataset: u32,
    job: Job,
    out: &mut [Sample],
    blank: Blank,
) -> Result<(), AllocError>
    requires known { dataset < length cat.now }
    requires walked { (m : Files) → F.names folder.old ≡ Some m → IsWalked m cat.now }
    requires name { blank.name ≡ L.name }
    requires parts { blank.parts ≡ L.parts }
    requires some { 0 < blank.parts }
{
    let lane = Lane::new(alloc, job.capacity.clamp(1, 65_536))?;
    let loads: Counter<L> = Counter::open(blank);
    let mut reader = Reader { alloc, lane, loads };
    read_each(&mut reader, cat, folder, dataset, job.windows, out);
    Ok(())
}

// Whether a dataset is of a catalog, and has this size.
fn has_size(cat: &Catalog, dataset: u32, size: (u32, u32)) -> bool
    ensures known { result ≡ true → dataset < length cat.now }
{
    if dataset >= cat.count() {
        return false;
    }
    let Size { w, h } = cat.head(dataset).size;
    (w, h) == size
}

// Reads windows of the dataset of a name one after the other through a new lane, and puts their samples one behind the
// other. False where the walk is refused, or the dataset has another size.
fn read_into<F: Folder>(
    alloc: Global,
    folder: &mut F,
    name: &Name,
    job: Job,
    out: &mut [Sample],
) -> bool {
    let mut cat = Catalog::new(alloc);
    let Ok(dataset) = open_all(alloc, &mut cat, folder, name, false) else {
        return false;
    };
    if !has_size(&cat, dataset, job.size) {
        return false;
    }
    read_through::<F, Brand>(alloc, &cat, folder, dataset, job, out, Blank::new(1)).is_ok()
}

// How many pixels windows have.
fn count_in(windows: &[Place]) -> usize {
    let mut count = 0u64;
    for (_, rect) in windows.iter() {
        count = count.saturating_add(count_of(rect_of(*rect)));
    }
    count as usize
}

// Room for the samples of windows.
fn room_for<R: Abort>(rt: &R, alloc: Global, windows: &[Place]) -> Vec<Sample> {
    vec![in alloc; REFUSED; count_in(windows)].expect(rt, "memory")
}

/// The samples of windows of the dataset of a name, one behind the other, or marks in their place. None where the walk
/// is refused, or the dataset has another size.
pub fn samples_of<R: Abort, F: Folder>(
    rt: &R,
    alloc: Global,
    folder: &mut F,
    job: Job,
) -> Vec<Sample> {
    let name = name_of(rt, alloc, job.name);
    let mut samples = room_for(rt, alloc, job.windows);
    if read_into(alloc, folder, &name, job, samples.as_mut_slice()) {
        return samples;
    }
    Vec::new(alloc)
}

/// How many reads of a folder windows take, beside those of the walk.
pub fn reads_in<R: Abort, F: Folder>(
    rt: &R,
    alloc: Global,
    folder: &mut CountingFolder<F>,
    job: Job,
) -> u64 {
    let before = folder.reads();
    let _none = samples_of(
        rt,
        alloc,
        folder,
        Job {
            windows: &[],
            ..job
        },
    );
    let walked = folder.reads();
    let _samples = samples_of(rt, alloc, folder, job);
    let both = walked.saturating_mul(2).saturating_sub(before);
    folder.reads().saturating_sub(both)
}

// Whether these are the samples of a picture in a window.
fn are_pixels<P: Picture>(picture: &P, place: Place, samples: &[Sample]) -> bool {
    let (band, (left, top, columns, _)) = place;
    let columns = columns.max(1);
    let mut at = 0u32;
    for sample in samples {
        let x = left.saturating_add(at % columns);
        let y = top.saturating_add(at / columns);
        if *sample != picture.pixel(band, x, y) {
            return false;
        }
        at = at.saturating_add(1);
    }
    true
}

// Whether these are the samples of a picture in windows, one behind the other.
fn are_shown<P: Picture>(picture: &P, windows: &[Place], samples: &[Sample]) -> bool {
    let mut rest = samples;
    for place in windows {
        let count = count_of(rect_of(place.1)).min(rest.len() as u64);
        let (front, behind) = rest.split_at(count as usize);
        if !are_pixels(picture, *place, front) {
            return false;
        }
        rest = behind;
    }
    samples.len() == count_in(windows)
}

/// Whether windows of the dataset of a name show a picture.
pub fn shows<R: Abort, F: Folder, P: Picture>(
    rt: &R,
    alloc: Global,
    folder: &mut F,
    job: Job,
    picture: &P,
) -> bool {
    let samples = samples_of(rt, alloc, folder, job);
    are_shown(picture, job.windows, samples.as_slice())
}

/// Whether windows of the dataset of a name show a picture at each of these capacities.
pub fn shows_always<R: Abort, F: Folder, P: Picture>(
    rt: &R,
    alloc: Global,
    folder: &mut F,
    job: Job,
    picture: &P,
    capacities: &[u32],
) -> bool {
    for capacity in capacities {
        let job = Job {
            capacity: *capacity,
            ..job
        };
        if !shows(rt, alloc, folder, job, picture) {
            return false;
        }
    }
    true
}

/// Puts a file of the first band of a picture, of so many columns and pixels.
pub fn put_picture<R: Abort, P: Picture>(
    rt: &R,
    alloc: Global,
    folder: &mut CalmFolder,
    name: &str,
    picture: &P,
    (columns, count): (u32, u32),
) {
    let mut bytes = Vec::new(alloc);
    let columns = columns.max(1);
    for place in 0..count {
        let sample = picture.pixel(0, place % columns, place / columns);
        add(rt, &mut bytes, &[sample.clamp(0, 255) as u8]);
    }
    put(rt, alloc, folder, name, bytes.as_slice());
}

/// Adds a window.
pub fn add_window<R: Abort>(rt: &R, windows: &mut Vec<Place>, window: Place) {
    windows.push(window).expect(rt, "memory");
}

/// Where a pixel lies in a rectangle, counted from its corner.
pub fn place_in(rect: (u32, u32, u32, u32), x: u32, y: u32) -> Option<(u32, u32)> {
    let (left, top, width, height) = rect;
    if x < left || y < top {
        return None;
    }
    if x - left >= width || y - top >= height {
        return None;
    }
    Some((x - left, y - top))
}
