// How a window is cut among lanes.
ghost use Rattle.std.specs.Prelude.{◌≡◌, ◌+◌, ◌<◌, ◌≤◌};
ghost use Rattle.lane_teams.specs.Parts.{lines_before, part_of, readers_of};
ghost use Rattle.geotransform.specs.Limits.{most_side};

use geotransform::Rect;
use nearest_window::Window;

/// What lanes read: a window, cut among so many of them.
#[derive(Clone, Copy)]
pub struct Job {
    pub window: Window,
    pub count: usize,
}

/// How many of so many lanes read a window of so many lines and samples: the first alone where there are fewer lines
/// than lanes, or where less than `fewest` samples come to each.
pub fn readers_of(lines: u32, samples: usize, fewest: usize, count: usize) -> usize
    requires some { 0 < count }
    ensures readers { result ≡ readers_of lines samples fewest count }
{
    let each = samples / count;
    if (lines as usize) < count || each < fewest {
        1
    } else {
        count
    }
}

// The lines of so many that lie before those of a lane of so many.
fn lines_before(lines: u32, count: usize, lane: usize) -> u32
    requires some { 0 < count }
    requires within { lane ≤ count }
    ensures line { result ≡ lines_before lines count lane }
    ensures below { result ≤ lines }
{
    (lane as u128 * lines as u128 / count as u128) as u32
}

/// The part of the window that the lanes from one up to another read.
pub fn part_of(job: &Job, first: usize, end: usize) -> Window
    requires some { 0 < job.now.count }
    requires order { first ≤ end }
    requires within { end ≤ job.now.count }
    requires low { job.now.window.rect.y + job.now.window.rect.h ≤ most_side }
    ensures part { result ≡ part_of job.now.window job.now.count first end }
{
    let window = job.window;
    let rect = window.rect;
    let top = lines_before(rect.h, job.count, first);
    let bottom = lines_before(rect.h, job.count, end);
    Window {
        dataset: window.dataset,
        band: window.band,
        rect: Rect {
            x: rect.x,
            y: rect.y + top,
            w: rect.w,
            h: bottom - top,
        },
    }
}
