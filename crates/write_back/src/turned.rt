// Groups of columns of a window, each small enough for the processor's cache, made from the window's lines.
ghost use Rattle.std.specs.Prelude.{◌≡◌, ◌<◌, ◌≤◌, ◌+◌, ◌*◌, length};
ghost use Rattle.band_blocks.specs.Spread.{IsSpread};
ghost use Rattle.write_back.specs.Turned.{AreTurned, IsGroup};

use geotransform::{Rect, Sample};

/// The columns of a group: so many, from one of the window on.
#[derive(Clone, Copy)]
pub(crate) struct Span {
    pub(crate) first: u32,
    pub(crate) count: u32,
}

// Copies samples to places that stand so far apart, the first of them to `start`.
fn spread_run(run: &[Sample], start: usize, stride: usize, out: &mut [Sample])
    requires start { start < stride }
    requires room { length run.now * stride ≤ length out.old }
    ensures spread { IsSpread run.now 0 (length run.now) start stride out.old out.new }
{
    for i in 0..run.len() {
        out[start + i * stride] = run[i];
    }
}

// Puts a group of columns into `out`, column by column, from samples that stand line by line. Each line's run of the
// group is read whole, and each column grows by one sample a line.
fn transpose_group(
    samples: &[Sample],
    width: usize,
    first: usize,
    columns: usize,
    lines: usize,
    out: &mut [Sample],
)
    requires within { first + columns ≤ width }
    requires size { length samples.now ≡ width * lines }
    requires room { columns * lines ≤ length out.old }
    ensures turned { AreTurned samples.now width first columns lines out.new }
{
    for line in 0..lines {
        let from = line * width + first;
        spread_run(&samples[from..from + columns], line, lines, out);
    }
}

// The most columns of a group: 16, or fewer where their lines would take more than 256 KiB, but four, which fill a line
// of the cache.
pub(crate) fn group_width(rect: Rect) -> u32
    ensures some { 0 < rect.w → 0 < result }
    ensures few { result ≤ 16 }
{
    let most = if rect.h <= 1024 {
        16
    } else if rect.h <= 2048 {
        8
    } else {
        4
    };
    rect.w.min(most)
}

// The samples of so many columns of so many lines.
pub(crate) fn samples_in(columns: u32, lines: u32) -> usize
    ensures count { result ≡ columns * lines }
{
    columns as usize * lines as usize
}

// The group that column x is in: the one that is held, or else the one from x on, which is put in its place.
pub(crate) fn turn_to(
    samples: &[Sample],
    rect: Rect,
    most: u32,
    x: u32,
    held: Span,
    group: &mut [Sample],
) -> Span
    requires some { 0 < most }
    requires column { x < rect.w }
    requires size { length samples.now ≡ rect.w * rect.h }
    requires room { length group.old ≡ most * rect.h }
    requires first { held.first ≤ x }
    requires held { IsGroup samples.now rect most held group.old }
    ensures first { result.first ≤ x }
    ensures last { x < result.first + result.count }
    ensures held { IsGroup samples.now rect most result group.new }
{
    if x - held.first < held.count {
        return held;
    }
    let count = most.min(rect.w - x);
    transpose_group(
        samples,
        rect.w as usize,
        x as usize,
        count as usize,
        rect.h as usize,
        group,
    );
    Span { first: x, count }
}
