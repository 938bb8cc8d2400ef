// How often a draft is written and read: never in a window where the pool has room for all blocks, and whole lines are
// never read back. A target's counter of written blocks has no bytes in a run: what a run shows of it are the calls
// that write the blocks, and those that add lines to a grid.
use crate::fixtures::{
    Asked, Ended, Order, Story, Window, folder_of, holds, none_wrong, ordered, tried, written,
};
use crate::outputs::{BANDS_BIP, ordered_as, story_of};
use crate::pixels::samples_in;
use outside::{CountingFolder, Failing, Method};
use std::alloc::{AllocError, Global};
use std::test::*;
use write_back::TargetFault;

// As many samples as the longest of these windows has, all in the range of each type.
const MOST_SAMPLES: u32 = 80_000;

// The first read of a draft.
const READ: Failing = Failing::Of(Method::DraftRead, 1);

// How an output ends where this call fails, at a capacity.
fn ended(
    alloc: Global,
    order: &Order,
    story: Story<'_>,
    capacity: u16,
    failing: Failing,
) -> Result<Ended, Fail> {
    let mut folder = folder_of(alloc, &[failing], &[])?;
    Ok(written(alloc, &mut folder, order, capacity, story))
}

/// What is written, and its windows.
type What<'a> = (&'a str, &'a str);

/// The same, and how many blocks the pool has.
type Output<'a> = (&'a str, &'a str, u16);

// What is written in blocks, its windows, and how many blocks there are.
const ALL: [Output<'static>; 10] = [
    ("bands", "columns", 6),
    ("bands bip", "columns", 6),
    ("bands bip", "columns", 2),
    ("bands bsq", "columns", 6),
    ("long", "long parts", 2),
    ("wide", "wide lines", 2),
    ("tile", "tile parts", 1201),
    ("cell", "cell parts", 121),
    ("cell one", "parts one", 201),
    ("cell two", "parts two", 601),
];

// Whether an output ends so where this call fails.
fn is_ended(
    alloc: Global,
    (asked, windows, blocks): Output<'_>,
    failing: Failing,
    want: Ended,
) -> Result<bool, Fail> {
    let samples = samples_in(alloc, (0, 100), MOST_SAMPLES)?;
    let story = story_of(windows, samples.as_slice())?;
    let order = ordered_as(alloc, asked)?;
    Ok(ended(alloc, &order, story, blocks, failing)? == want)
}

// The first of these that ends otherwise where this call fails.
fn first_other(
    alloc: Global,
    rows: &[Output<'_>],
    failing: Failing,
    want: Ended,
) -> Result<Option<usize>, Fail> {
    for at in 0..rows.len() {
        if !is_ended(alloc, rows[at], failing, want)? {
            return Ok(Some(at));
        }
    }
    Ok(None)
}

// Through a pool of all blocks no window writes to the draft.
#[test]
fn a_pool_of_all_blocks_is_written_at_the_end(rt: HostRuntime) -> Result<(), Fail> {
    let late = Ended::NotClosed(0, TargetFault::FolderFault);
    let write = Failing::Of(Method::WriteAt, 1);
    none_wrong(&rt, first_other(rt.alloc(), &ALL, write, late))
}

// Outputs in whole lines, and cells in whole columns.
const WHOLE: [What<'static>; 8] = [
    ("bands", "lines"),
    ("bands bsq", "lines"),
    ("long", "long lines"),
    ("tile", "tile lines"),
    ("cell", "cell columns"),
    ("cell one", "columns one"),
    ("cell two", "columns two"),
    ("square", "square lines"),
];

// Whether an output never reads its draft through a pool of one block, of two and of more than it meets.
fn is_unread(alloc: Global, (asked, windows): What<'_>) -> Result<bool, Fail> {
    Ok(
        is_ended(alloc, (asked, windows, 1), READ, Ended::Closed)?
            && is_ended(alloc, (asked, windows, 2), READ, Ended::Closed)?
            && is_ended(alloc, (asked, windows, 1201), READ, Ended::Closed)?,
    )
}

// The first of these that reads its draft.
fn first_read(alloc: Global, rows: &[What<'_>]) -> Result<Option<usize>, Fail> {
    for at in 0..rows.len() {
        if !is_unread(alloc, rows[at])? {
            return Ok(Some(at));
        }
    }
    Ok(None)
}

#[test]
fn whole_lines_are_not_read_back(rt: HostRuntime) -> Result<(), Fail> {
    none_wrong(&rt, first_read(rt.alloc(), &WHOLE))
}

// What is written in blocks of all bands, its windows, and a pool that holds each line until all its bands are there.
const WOVEN: [Output<'static>; 7] = [
    ("bands bip", "lines", 2),
    ("bands bip", "columns", 2),
    ("bands bip", "line by line", 1),
    ("wide", "wide lines", 2),
    ("wide", "wide line by line", 1),
    ("wide pairs", "pair lines", 2),
    ("wide eights", "eight lines", 2),
];

#[test]
fn lines_of_all_bands_are_not_read_back(rt: HostRuntime) -> Result<(), Fail> {
    none_wrong(&rt, first_other(rt.alloc(), &WOVEN, READ, Ended::Closed))
}

// How often an output's draft is written, where it is closed.
fn writes(
    alloc: Global,
    order: &Order,
    story: Story<'_>,
    capacity: u16,
) -> Result<Option<u64>, Fail> {
    let mut folder = CountingFolder::new(folder_of(alloc, &[], &[])?);
    let ended = written(alloc, &mut folder, order, capacity, story);
    Ok(if ended == Ended::Closed {
        Some(folder.writes())
    } else {
        None
    })
}

/// What is written, its windows, the blocks of the pool, the most calls that write, and the most of them in each window
/// and, behind those, in `close`.
type Row<'a> = (&'a str, &'a str, u16, u64, &'a [u64]);

// All that is written of a pool of all blocks are the blocks that the windows meet; of a pool of one block there is one
// once more for each time that another one comes. A window writes at most the blocks that it meets, and none of a pool
// of all blocks; `close` at most the blocks of the pool. A line of 65,000 bytes takes at most three calls, one of
// 72,000 at most four, any other block one.
const MOST: [Row<'static>; 20] = [
    ("bands", "lines", 1, 6, &[2, 1, 1, 2, 1]),
    ("bands", "lines", 6, 6, &[0, 0, 0, 0, 6]),
    ("bands bsq", "lines", 1, 6, &[2, 1, 1, 2, 1]),
    ("bands", "columns", 1, 8, &[2, 2, 2, 2, 1]),
    ("bands", "columns", 6, 6, &[0, 0, 0, 0, 6]),
    ("bands bip", "columns", 1, 8, &[2, 2, 2, 2, 1]),
    ("bands bip", "columns", 6, 6, &[0, 0, 0, 0, 6]),
    ("bands bip", "columns", 2, 2, &[0, 0, 0, 0, 2]),
    ("bands bip", "lines", 1, 4, &[2, 1, 1, 2, 1]),
    ("bands bip", "lines", 2, 2, &[0, 0, 0, 0, 2]),
    ("bands bip", "line by line", 1, 2, &[0, 0, 0, 1, 0, 0, 1]),
    ("bands bip", "line by line", 2, 2, &[0, 0, 0, 0, 0, 0, 2]),
    ("long", "long lines", 1, 6, &[3, 3, 3]),
    ("long", "long parts", 2, 6, &[0, 0, 0, 6]),
    ("wide", "wide lines", 1, 24, &[8, 8, 8, 4]),
    ("wide", "wide lines", 2, 8, &[0, 0, 0, 8]),
    ("wide", "wide line by line", 1, 8, &[0, 0, 0, 4, 0, 0, 4]),
    ("wide pairs", "pair lines", 1, 24, &[8, 8, 8, 4]),
    ("wide pairs", "pair lines", 2, 8, &[0, 0, 0, 8]),
    ("wide eights", "eight lines", 2, 8, &[0, 0, 0, 8]),
];

const MOST_OF_FORMS: [Row<'static>; 8] = [
    ("tile", "tile lines", 1, 4, &[2, 1, 1, 1]),
    ("tile", "tile parts", 1, 42, &[40, 2, 1]),
    ("tile", "tile parts", 1201, 40, &[0, 0, 40]),
    ("cell", "cell parts", 1, 124, &[121, 3, 1]),
    ("cell", "cell parts", 121, 121, &[0, 0, 121]),
    ("cell", "cell columns", 1, 127, &[2, 2, 2, 121, 1]),
    ("cell one", "parts one", 1, 204, &[201, 3, 1]),
    ("cell one", "parts one", 201, 201, &[0, 0, 201]),
];

// The first so many of an output's windows, or all of them.
fn first_windows<'a>(story: Story<'a>, count: usize) -> Story<'a> {
    let (windows, _) = story.windows.split_at(count.min(story.windows.len()));
    Story {
        windows,
        samples: story.samples,
    }
}

// How often an output's draft is written by these windows alone, where each is put.
fn writes_before(
    alloc: Global,
    order: &Order,
    capacity: u16,
    story: Story<'_>,
) -> Result<Option<u64>, Fail> {
    let mut folder = CountingFolder::new(folder_of(alloc, &[], &[])?);
    let put = tried(alloc, &mut folder, order, capacity, story);
    Ok(if put { Some(folder.writes()) } else { None })
}

// How often an output's draft is written by its first so many windows, and by all of them and `close` where there are
// no more.
fn writes_by(
    alloc: Global,
    order: &Order,
    story: Story<'_>,
    capacity: u16,
    count: usize,
) -> Result<Option<u64>, Fail> {
    if count > story.windows.len() {
        return writes(alloc, order, story, capacity);
    }
    writes_before(alloc, order, capacity, first_windows(story, count))
}

// A count that rose, and at most by so many.
fn risen(before: u64, after: Option<u64>, most: u64) -> Option<u64> {
    let count = after?;
    if before <= count && count - before <= most {
        Some(count)
    } else {
        None
    }
}

// How often a draft is written, where each window writes at most so often, and `close` too.
fn writes_within(
    alloc: Global,
    order: &Order,
    story: Story<'_>,
    capacity: u16,
    each: &[u64],
) -> Result<Option<u64>, Fail> {
    let mut before = 0;
    for at in 0..each.len() {
        let after = writes_by(alloc, order, story, capacity, at.saturating_add(1))?;
        match risen(before, after, each[at]) {
            Some(count) => before = count,
            None => return Ok(None),
        }
    }
    Ok(Some(before))
}

// Whether each window writes at most so often, and `close` too, and all of them at least once and at most so often.
fn is_within(alloc: Global, (asked, windows, capacity, most, each): Row<'_>) -> Result<bool, Fail> {
    let samples = samples_in(alloc, (0, 100), MOST_SAMPLES)?;
    let story = story_of(windows, samples.as_slice())?;
    let order = ordered_as(alloc, asked)?;
    let all = each.len() == story.windows.len().saturating_add(1);
    Ok(match writes_within(alloc, &order, story, capacity, each)? {
        Some(count) => all && 0 < count && count <= most,
        None => false,
    })
}

// The first of these that is written more often, or never.
fn first_beyond(alloc: Global, rows: &[Row<'_>]) -> Result<Option<usize>, Fail> {
    for at in 0..rows.len() {
        if !is_within(alloc, rows[at])? {
            return Ok(Some(at));
        }
    }
    Ok(None)
}

#[test]
fn drafts_are_written_within_the_bound(rt: HostRuntime) -> Result<(), Fail> {
    none_wrong(&rt, first_beyond(rt.alloc(), &MOST))
}

#[test]
fn tiles_and_cells_are_written_within_the_bound(rt: HostRuntime) -> Result<(), Fail> {
    none_wrong(&rt, first_beyond(rt.alloc(), &MOST_OF_FORMS))
}

// 256 bands of one column and two lines, pixel by pixel.
const DEEP: Asked = Asked {
    text: "<VRTDataset rasterXSize=\"1\" rasterYSize=\"2\">\
        <VRTRasterBand dataType=\"Byte\"></VRTRasterBand></VRTDataset>",
    bands: &[1; 256],
    ..BANDS_BIP
};

// So many windows of these lines, one for each band and then for each band below.
fn deep_windows(alloc: Global, count: u16, lines: u16) -> Result<Vec<Window>, AllocError> {
    let mut windows = Vec::new(alloc);
    for at in 0..count {
        windows.push((at % 256, (0, at / 256), (1, lines), at))?;
    }
    Ok(windows)
}

// Whether both lines of all bands are written once, and none is read, through a pool of so many blocks.
fn is_written_once(
    alloc: Global,
    order: &Order,
    story: Story<'_>,
    capacity: u16,
) -> Result<bool, Fail> {
    let unread = ended(alloc, order, story, capacity, READ)? == Ended::Closed;
    Ok(unread && writes(alloc, order, story, capacity)? == Some(2))
}

// The same of so many windows of these lines.
fn are_written_once(alloc: Global, count: u16, lines: u16, capacity: u16) -> Result<bool, Fail> {
    let windows = deep_windows(alloc, count, lines)?;
    let samples = samples_in(alloc, (0, 100), 1000)?;
    let order = ordered(alloc, &DEEP)?;
    let story = Story {
        windows: windows.as_slice(),
        samples: samples.as_slice(),
    };
    is_written_once(alloc, &order, story, capacity)
}

#[test]
fn lines_of_all_bands_are_written_once(rt: HostRuntime) -> Result<(), Fail> {
    holds(&rt, are_written_once(rt.alloc(), 256, 2, 2))?;
    holds(&rt, are_written_once(rt.alloc(), 512, 1, 1))
}

// Whether an output's windows are put, and no call of its folder comes that would fail, where it is given up.
fn lacks(
    alloc: Global,
    order: &Order,
    capacity: u16,
    story: Story<'_>,
    failing: Failing,
) -> Result<bool, Fail> {
    let mut folder = folder_of(alloc, &[failing], &[])?;
    let put = tried(alloc, &mut folder, order, capacity, story);
    Ok(put && folder.faults() == 0)
}

/// A grid, its windows, the blocks of the pool that is asked for, and how many lines are there after each window.
type Grid<'a> = (&'a str, &'a str, u16, &'a [u64]);

const ADDED: [Grid<'static>; 6] = [
    ("square", "square lines", 1, &[1, 2]),
    ("square", "square lines", 2, &[1, 2]),
    ("square", "square whole", 1, &[2]),
    ("square", "square whole", 2, &[2]),
    ("tall", "strips", 1, &[0, 3, 4, 4, 6, 9, 9]),
    ("tall", "strips", 9, &[0, 3, 4, 4, 6, 9, 9]),
];

// Whether windows of a grid add so many lines behind its head, and no more.
fn adds(
    alloc: Global,
    order: &Order,
    capacity: u16,
    story: Story<'_>,
    lines: u64,
) -> Result<bool, Fail> {
    let last = Failing::Of(Method::Append, lines.saturating_add(1));
    let next = Failing::Of(Method::Append, lines.saturating_add(2));
    let fewer = lacks(alloc, order, capacity, story, last)?;
    Ok(!fewer && lacks(alloc, order, capacity, story, next)?)
}

// Whether each window of a grid adds its lines.
fn is_each_added(
    alloc: Global,
    order: &Order,
    capacity: u16,
    story: Story<'_>,
    each: &[u64],
) -> Result<bool, Fail> {
    for at in 0..each.len() {
        let first = first_windows(story, at.saturating_add(1));
        if !adds(alloc, order, capacity, first, each[at])? {
            return Ok(false);
        }
    }
    Ok(each.len() == story.windows.len())
}

// Whether a grid adds no line in `close`, and never writes at a place.
fn is_added_before(
    alloc: Global,
    order: &Order,
    story: Story<'_>,
    capacity: u16,
    lines: u64,
) -> Result<bool, Fail> {
    let beyond = Failing::Of(Method::Append, lines.saturating_add(2));
    let placed = Failing::Of(Method::WriteAt, 1);
    Ok(
        ended(alloc, order, story, capacity, beyond)? == Ended::Closed
            && ended(alloc, order, story, capacity, placed)? == Ended::Closed,
    )
}

fn is_added(alloc: Global, (asked, windows, capacity, each): Grid<'_>) -> Result<bool, Fail> {
    let samples = samples_in(alloc, (0, 100), 100)?;
    let story = story_of(windows, samples.as_slice())?;
    let order = ordered_as(alloc, asked)?;
    let lines = each.last().copied().unwrap_or(0);
    Ok(
        is_added_before(alloc, &order, story, capacity, lines)?
            && is_each_added(alloc, &order, capacity, story, each)?,
    )
}

// The first of these grids whose lines come at other times.
fn first_late(alloc: Global, rows: &[Grid<'_>]) -> Result<Option<usize>, Fail> {
    for at in 0..rows.len() {
        if !is_added(alloc, rows[at])? {
            return Ok(Some(at));
        }
    }
    Ok(None)
}

#[test]
fn lines_of_a_grid_are_added_in_their_windows(rt: HostRuntime) -> Result<(), Fail> {
    none_wrong(&rt, first_late(rt.alloc(), &ADDED))
}

const LOST: Ended = Ended::Refused(TargetFault::FolderFault, true);

/// What is written, its windows, and how often it is read through a pool of one block, of two and of three.
type Read<'a> = (&'a str, &'a str, [(u16, u64); 3]);

const NEVER: [(u16, u64); 3] = [(1, 0), (2, 0), (3, 0)];

const ONCE: [(u16, u64); 3] = [(1, 1), (2, 0), (3, 0)];

// A block that wasn't written before isn't read, and one that was is read where it comes back. Where bands lie pixel by
// pixel a line comes back for each of them that comes later.
const READS: [Read<'static>; 18] = [
    ("bands", "apart", NEVER),
    ("bands bsq", "apart", NEVER),
    ("tile", "tile apart", NEVER),
    ("cell", "cell apart", NEVER),
    ("bands", "again", ONCE),
    ("bands bsq", "again", ONCE),
    ("tile", "again", ONCE),
    ("cell", "cell again", ONCE),
    ("cell one", "cell again", ONCE),
    ("cell two", "cell again", ONCE),
    ("bands bip", "again", ONCE),
    ("bands bip", "first", NEVER),
    ("bands bip", "first part", NEVER),
    ("bands bip", "second", [(1, 2), (2, 0), (3, 0)]),
    ("bands bip", "apart", [(1, 4), (2, 0), (3, 0)]),
    ("bands bip", "columns", [(1, 6), (2, 0), (3, 0)]),
    ("bands", "columns", [(1, 2), (2, 2), (3, 2)]),
    ("bands bsq", "columns", [(1, 2), (2, 2), (3, 2)]),
];

// Whether an output is lost where one of so many reads fails, and ends where the next one would.
fn is_read(
    alloc: Global,
    order: &Order,
    story: Story<'_>,
    (capacity, reads): (u16, u64),
) -> Result<bool, Fail> {
    for at in 0..reads.saturating_add(1) {
        let failing = Failing::Of(Method::DraftRead, at.saturating_add(1));
        let end = if at < reads { LOST } else { Ended::Closed };
        if ended(alloc, order, story, capacity, failing)? != end {
            return Ok(false);
        }
    }
    Ok(true)
}

// Whether an output is read so often at each of some capacities.
fn each_is_read(
    alloc: Global,
    (asked, windows, [one, two, three]): Read<'_>,
) -> Result<bool, Fail> {
    let samples = samples_in(alloc, (0, 100), 400)?;
    let story = story_of(windows, samples.as_slice())?;
    let order = ordered_as(alloc, asked)?;
    Ok(
        is_read(alloc, &order, story, one)?
            && is_read(alloc, &order, story, two)?
            && is_read(alloc, &order, story, three)?,
    )
}

// The first of these that is read more or less often.
fn first_otherwise(alloc: Global, rows: &[Read<'_>]) -> Result<Option<usize>, Fail> {
    for at in 0..rows.len() {
        if !each_is_read(alloc, rows[at])? {
            return Ok(Some(at));
        }
    }
    Ok(None)
}

#[test]
fn blocks_that_were_not_written_are_not_read(rt: HostRuntime) -> Result<(), Fail> {
    none_wrong(&rt, first_otherwise(rt.alloc(), &READS))
}
