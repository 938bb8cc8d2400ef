// The samples of a dataset's first band, read line by line through a lane and tallied.
ghost use Rattle.std.specs.Prelude.{◌≡◌, ◌<◌, ◌≤◌, ◌-◌, ◌*◌, ◌^◌, All, IfOk, OnOk, Some, length, slice_get};
ghost use Rattle.std.specs.Prelude.{unsigned_abs};
ghost use Rattle.geotransform.specs.Geo.{IsRaster};
ghost use Rattle.outside.specs.Reading.{WhereTold};
ghost use Rattle.catalog.specs.Drivers.{Dataset};
ghost use Rattle.catalog.specs.Walk.{IsWalked};
ghost use Rattle.nearest_window.specs.Right.{IsFresh, IsReady};
ghost use Rattle.nearest_window.specs.Windows.{IsWindow};
ghost use Rattle.strip_copies.specs.Copies.{lines_rect};
ghost use Rattle.output_copies.specs.Copying.{MayEnd};
ghost use Rattle.synthetic_rasters.specs.Tally.{tally_of};
ghost use Rattle.synth_runs.specs.Tallied.{first_band_lines, AreTallied, IsCopied};
ghost use Rattle.strip_copies.specs.Heights.{most_samples};

use band_blocks::Counter;
use catalog::Catalog;
use command_words::BlockCount;
use error_lines::Fault;
use geotransform::{Rect, Sample, Size};
use nearest_window::{Lane, Window};
use outside::Folder;
use std::alloc::{AllocError, Global};
use std::sync::ledger::{Blank, Ledger};
use synthetic_rasters::Tally;

// A lane, and the count of its loads.
#[derive(Drop)]
struct PixelReader<F: Folder, L: Ledger> {
    lane: Lane<F>,
    loads: Counter<L>,
}

/// A dataset of a catalog, by its number, and its size.
#[derive(Drop)]
pub struct Copied {
    pub alloc: Global,
    pub cat: Catalog,
    pub id: u32,
    pub size: Size,
}

// Lines from `first` up to `end`.
#[derive(Clone, Copy)]
struct Strip {
    first: u32,
    end: u32,
}

// The samples of so many lines of so many columns.
fn area(columns: u32, lines: u32) -> usize
    ensures area { result ≡ columns * lines }
{
    columns as usize * lines as usize
}

// How many lines are read at a time: as many as have 1,048,576 samples, and at least one, or all that there are.
fn lines_at_once(size: Size) -> u32
    requires raster { IsRaster size }
    ensures some { 1 ≤ result }
    ensures bound { size.w * result ≤ most_samples }
{
    let lines = 1_048_576 / size.w;
    if lines == 0 { 1 } else { lines.min(size.h) }
}

// The window of lines.
fn window_of(copied: &Copied, strip: Strip) -> Window
    requires copied { IsCopied copied.now.cat copied.now.id copied.now.size }
    requires order { strip.first ≤ strip.end }
    requires end { strip.end ≤ copied.now.size.h }
    ensures window { IsWindow copied.now.cat result }
    ensures dataset { result.dataset ≡ copied.now.id }
    ensures band { result.band ≡ 0 }
    ensures rect { result.rect ≡ lines_rect copied.now.size strip.first strip.end }
{
    Window {
        dataset: copied.id,
        band: 0,
        rect: Rect {
            x: 0,
            y: strip.first,
            w: copied.size.w,
            h: strip.end - strip.first,
        },
    }
}

// Reads lines. After a refusal `samples` are unknown.
fn read_strip<F: Folder, L: Ledger>(
    copied: &Copied,
    pixels: &mut PixelReader<F, L>,
    folder: &mut F,
    strip: Strip,
    samples: &mut [Sample],
) -> Result<(), Fault>
    requires copied { IsCopied copied.now.cat copied.now.id copied.now.size }
    requires ready { IsReady F.Folder folder.old copied.now.cat pixels.old.lane }
    requires order { strip.first ≤ strip.end }
    requires end { strip.end ≤ copied.now.size.h }
    requires long { length samples.old ≡ copied.now.size.w * (strip.end - strip.first) }
    ensures samples { WhereTold F.Folder folder.old (λ m. (d : Dataset) →
        slice_get copied.now.cat copied.now.id ≡ Some d →
        OnOk result (samples.new ≡ first_band_lines m d.head.name copied.now.size strip.first strip.end)) }
    ensures near { OnOk result (All (λ n. unsigned_abs n < 2 ^ 64) samples.new) }
    ensures long { length samples.new ≡ length samples.old }
    ensures ready { IsReady F.Folder folder.new copied.now.cat pixels.new.lane }
    ensures names { F.names folder.new ≡ F.names folder.old }
    ensures ends { MayEnd (F.names folder.old) (F.faults folder.old) (F.faults folder.new) 0 0 result }
{
    let window = window_of(copied, strip);
    let lane = &mut pixels.lane;
    let loads = &mut pixels.loads;
    match lane.read_window(copied.alloc, &copied.cat, folder, window, samples, loads) {
        Ok(()) => Ok(()),
        Err(fault) => Err(Fault::from(fault)),
    }
}

// Reads lines behind those that were tallied, and tallies them.
fn tally_strip<F: Folder, L: Ledger>(
    copied: &Copied,
    pixels: &mut PixelReader<F, L>,
    folder: &mut F,
    strip: Strip,
    samples: &mut [Sample],
    tally: &mut Tally,
) -> Result<(), Fault>
    requires copied { IsCopied copied.now.cat copied.now.id copied.now.size }
    requires ready { IsReady F.Folder folder.old copied.now.cat pixels.old.lane }
    requires order { strip.first ≤ strip.end }
    requires end { strip.end ≤ copied.now.size.h }
    requires long { copied.now.size.w * (strip.end - strip.first) ≤ length samples.old }
    requires tallied { AreTallied (F.names folder.old) copied.now.cat copied.now.id copied.now.size strip.first
        tally.old }
    ensures tallied { OnOk result (AreTallied (F.names folder.new) copied.now.cat copied.now.id copied.now.size
        strip.end tally.new) }
    ensures long { length samples.new ≡ length samples.old }
    ensures ready { IsReady F.Folder folder.new copied.now.cat pixels.new.lane }
    ensures names { F.names folder.new ≡ F.names folder.old }
    ensures ends { MayEnd (F.names folder.old) (F.faults folder.old) (F.faults folder.new) 0 0 result }
{
    let part = &mut samples[..area(copied.size.w, strip.end - strip.first)];
    match read_strip(copied, pixels, folder, strip, part) {
        Ok(()) => {
            tally.add(part);
            Ok(())
        }
        Err(fault) => Err(fault),
    }
}

// Tallies all lines, so many at a time, through room for them.
fn tally_lines<F: Folder, L: Ledger>(
    copied: &Copied,
    pixels: &mut PixelReader<F, L>,
    folder: &mut F,
    rows: u32,
    samples: &mut [Sample],
) -> Result<Tally, Fault>
    requires copied { IsCopied copied.now.cat copied.now.id copied.now.size }
    requires ready { IsReady F.Folder folder.old copied.now.cat pixels.old.lane }
    requires rows { 1 ≤ rows }
    requires long { copied.now.size.w * rows ≤ length samples.old }
    ensures tallied { IfOk result (AreTallied (F.names folder.old) copied.now.cat copied.now.id copied.now.size
        copied.now.size.h) }
    ensures names { F.names folder.new ≡ F.names folder.old }
    ensures ends { MayEnd (F.names folder.old) (F.faults folder.old) (F.faults folder.new) 0 0 result }
{
    let height = copied.size.h;
    let mut tally = Tally::new();
    let mut line = 0;
    while line < height {
        let end = line + rows.min(height - line);
        let strip = Strip { first: line, end };
        match tally_strip(copied, pixels, folder, strip, samples, &mut tally) {
            Ok(()) => (),
            Err(fault) => return Err(fault),
        }
        line = end;
    }
    Ok(tally)
}

// A new lane that holds so many blocks, and the count of its loads.
fn pixels_for<F: Folder, L: Ledger>(
    alloc: Global,
    blocks: BlockCount,
    blank: Blank,
) -> Result<PixelReader<F, L>, AllocError>
    requires name { blank.name ≡ L.name }
    requires parts { blank.parts ≡ L.parts }
    requires some { 0 < blank.parts }
    ensures fresh { IfOk result (λ pixels. IsFresh F.Folder pixels.lane) }
{
    let loads = Counter::open(blank);
    let lane = Lane::new(alloc, blocks.get())?;
    Ok(PixelReader { lane, loads })
}

/// Tallies the samples of the first band through a new lane.
pub fn tally_copied<F: Folder, L: Ledger>(
    copied: &Copied,
    folder: &mut F,
    blocks: BlockCount,
    blank: Blank,
) -> Result<Tally, Fault>
    requires copied { IsCopied copied.now.cat copied.now.id copied.now.size }
    requires walked { WhereTold F.Folder folder.old (λ m. IsWalked m copied.now.cat) }
    requires name { blank.name ≡ L.name }
    requires parts { blank.parts ≡ L.parts }
    requires some { 0 < blank.parts }
    ensures tally { WhereTold F.Folder folder.old (λ m. (d : Dataset) →
        slice_get copied.now.cat copied.now.id ≡ Some d →
        IfOk result (λ t. t ≡ tally_of (first_band_lines m d.head.name copied.now.size 0 copied.now.size.h))) }
    ensures names { F.names folder.new ≡ F.names folder.old }
    ensures ends { MayEnd (F.names folder.old) (F.faults folder.old) (F.faults folder.new) 0 0 result }
{
    let rows = lines_at_once(copied.size);
    let mut pixels: PixelReader<F, L> = pixels_for(copied.alloc, blocks, blank)?;
    let mut samples = vec![in copied.alloc; 0; area(copied.size.w, rows)]?;
    let tally = tally_lines(copied, &mut pixels, folder, rows, &mut samples);
    drop(pixels);
    tally
}
