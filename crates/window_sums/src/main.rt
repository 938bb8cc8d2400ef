// An example of the libraries without the program: reads the first band of a raster in windows of whole lines, and
// prints how many pixels it has and their sum. The words are the raster, the lines of a window, and how many blocks are
// held.
#![tactic(auto)]

ghost use Rattle.std.specs.Prelude.{◌≡◌, ◌<◌, ◌*◌, Some, length};
ghost use Rattle.outside.specs.Outside.{Files};
ghost use Rattle.catalog.specs.Walk.{IsWalked};
ghost use Rattle.nearest_window.specs.Right.{IsReady};

use band_blocks::Counter;
use catalog::{Catalog, open_all};
use geotransform::{Rect, Sample, Size};
use itoa::Buffer;
use nearest_window::{Lane, Window};
use outside::{DiskFolder, Folder, Name, Sink, StdSink, put_all};
use std::alloc::{AllocError, Global};
use std::marker::Brand;
use std::process::{self, ExitCode};
use std::sync::ledger::{Blank, Ledger};

// A window has at most so many pixels, or one line.
const MOST_PIXELS: u32 = 4_194_304;

// At most so many blocks are held.
const MOST_BLOCKS: u32 = 65_536;

// How much room is taken and given back at the start, in bytes: less than the 32 MiB past which nothing is learnt of
// it.
const LARGE: usize = 25_165_824;

// What is read, in windows of so many lines, with so many blocks.
#[derive(Drop)]
struct Job {
    name: Name,
    lines: u32,
    blocks: u32,
}

// What windows are read through, and room for the pixels of the largest one.
#[derive(Drop)]
struct Reader<F: Folder, L: Ledger> {
    alloc: Global,
    lane: Lane<F>,
    loads: Counter<L>,
    room: Vec<Sample>,
}

// How many pixels were read, and their sum.
#[derive(Clone, Copy)]
struct Sum {
    pixels: u64,
    sum: Sample,
}

// The number that a word writes in decimal digits, or the greatest one.
fn number_of(word: &str) -> Option<u32> {
    let mut number: u32 = 0;
    for byte in word.as_bytes() {
        if !byte.is_ascii_digit() {
            return None;
        }
        number = number
            .saturating_mul(10)
            .saturating_add((*byte - b'0') as u32);
    }
    Some(number)
}

// What the words ask for.
fn job_of(alloc: Global, words: &[String]) -> Option<Job> {
    if words.len() != 3 {
        return None;
    }
    let Ok(name) = Name::read(alloc, words[0].as_str()) else {
        return None;
    };
    let lines = number_of(words[1].as_str())?;
    let blocks = number_of(words[2].as_str())?;
    Some(Job {
        name,
        lines,
        blocks,
    })
}

// The lines of a window: those that are asked for, but no more pixels than a window may have.
fn lines_of(asked: u32, size: Size) -> u32
    ensures some { 0 < result }
{
    asked.min(MOST_PIXELS / size.w.max(1)).max(1)
}

// The sum of samples, modulo 2^128, which no sum of a raster's samples reaches.
fn sum_of(samples: &[Sample]) -> Sample {
    let mut sum: Sample = 0;
    for sample in samples {
        sum = sum.wrapping_add(*sample);
    }
    sum
}

// The pixels of so many lines of this width.
fn count_of(width: u32, lines: u32) -> usize
    ensures product { result ≡ width * lines }
{
    width as usize * lines as usize
}

// Adds the pixels of a rectangle of the first band of a dataset, for which there is room.
fn add_window<F: Folder, L: Ledger>(
    reader: &mut Reader<F, L>,
    cat: &Catalog,
    folder: &mut F,
    dataset: u32,
    rect: Rect,
    total: Sum,
) -> Option<Sum>
    requires ready { IsReady F.Folder folder.old cat.now reader.old.lane }
    requires known { dataset < length cat.now }
    ensures ready { IsReady F.Folder folder.new cat.now reader.new.lane }
{
    let Size { w, h } = cat.head(dataset).size;
    if rect.x > w || rect.y > h || rect.w > w - rect.x || rect.h > h - rect.y {
        return None;
    }
    let window = Window {
        dataset,
        band: 0,
        rect,
    };
    let count = count_of(rect.w, rect.h);
    if count > reader.room.len() {
        return None;
    }
    let (out, _) = reader.room.as_mut_slice().split_at_mut(count);
    let lane = &mut reader.lane;
    match lane.read_window(reader.alloc, cat, folder, window, out, &mut reader.loads) {
        Ok(()) => {}
        Err(_) => return None,
    }
    Some(Sum {
        pixels: total.pixels.saturating_add(count as u64),
        sum: total.sum.saturating_add(sum_of(out)),
    })
}

// Adds the pixels of all windows of the first band of a dataset.
fn add_all<F: Folder, L: Ledger>(
    reader: &mut Reader<F, L>,
    cat: &Catalog,
    folder: &mut F,
    id: u32,
    asked: u32,
) -> Option<Sum>
    requires ready { IsReady F.Folder folder.old cat.now reader.old.lane }
    requires known { id < length cat.now }
{
    let size = cat.head(id).size;
    let lines = lines_of(asked, size);
    let mut total = Sum { pixels: 0, sum: 0 };
    let mut line = 0;
    while line < size.h {
        let count = lines.min(size.h - line);
        let rect = Rect {
            x: 0,
            y: line,
            w: size.w,
            h: count,
        };
        total = add_window(reader, cat, folder, id, rect, total)?;
        line += count;
    }
    Some(total)
}

// Reads a dataset through a new lane.
fn sum_of_dataset<F: Folder, L: Ledger>(
    alloc: Global,
    cat: &Catalog,
    folder: &mut F,
    id: u32,
    job: &Job,
    blank: Blank,
) -> Option<Sum>
    requires known { id < length cat.now }
    requires walked { (m : Files) → F.names folder.old ≡ Some m → IsWalked m cat.now }
    requires name { blank.name ≡ L.name }
    requires parts { blank.parts ≡ L.parts }
    requires some { 0 < blank.parts }
{
    let Ok(lane) = Lane::new(alloc, job.blocks.clamp(1, MOST_BLOCKS)) else {
        return None;
    };
    let size = cat.head(id).size;
    let lines = lines_of(job.lines, size).min(size.h);
    let room = vec![in alloc; 0; count_of(size.w, lines)].ok()?;
    let loads: Counter<L> = Counter::open(blank);
    let mut reader = Reader {
        alloc,
        lane,
        loads,
        room,
    };
    add_all(&mut reader, cat, folder, id, job.lines)
}

// Opens a raster and reads it.
fn sum_of_job<F: Folder>(alloc: Global, folder: &mut F, job: &Job) -> Option<Sum> {
    let mut cat = Catalog::new(alloc);
    let Ok(id) = open_all(alloc, &mut cat, folder, &job.name, false) else {
        return None;
    };
    if id >= cat.count() {
        return None;
    }
    sum_of_dataset::<F, Brand>(alloc, &cat, folder, id, job, Blank::new(1))
}

// Prints the sum in one line.
fn print<O: Sink>(out: &mut O, sum: Sum) -> bool {
    let mut pixels = Buffer::new();
    let mut samples = Buffer::new();
    let parts: [&[u8]; 4] = [
        pixels.format(sum.pixels).as_bytes(),
        b" ",
        samples.format(sum.sum).as_bytes(),
        b"\n",
    ];
    put_all(out, &parts).is_ok()
}

// The words behind the program's name.
fn read_words(rt: &HostRuntime) -> Option<Vec<String>> {
    let all = std::env::args(rt).ok()?;
    let mut words = Vec::new(rt.alloc());
    for word in all.skip(1) {
        if words.push(word).is_err() {
            return None;
        }
    }
    Some(words)
}

// Reads what the words ask for, and prints it.
fn run(rt: &HostRuntime) -> Option<bool> {
    let alloc = rt.alloc();
    let words = read_words(rt)?;
    let job = job_of(alloc, words.as_slice())?;
    let system: Result<HostRuntime, AllocError> = rt.clone();
    let mut folder = DiskFolder::new(system.ok()?, process::id(rt.process()), alloc);
    let sum = sum_of_job(alloc, &mut folder, &job)?;
    let mut out = StdSink::new(rt.stdout());
    Some(print(&mut out, sum))
}

// Takes room and gives it back, untouched. The C library's allocator then keeps what blocks of up to this size give
// back, in place of returning their pages to the system and asking for them again. Where it is refused, nothing is
// lost.
fn keep_pages(alloc: Global) {
    let _room: Result<Vec<u8>, AllocError> = Vec::with_capacity(alloc, LARGE);
}

fn main(rt: HostRuntime) -> ExitCode {
    keep_pages(rt.alloc());
    match run(&rt) {
        Some(true) => ExitCode::SUCCESS,
        Some(false) => ExitCode::from(2),
        None => ExitCode::FAILURE,
    }
}
