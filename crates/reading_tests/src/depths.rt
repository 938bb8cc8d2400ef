// Mosaics that name one another again and again: no pixel of any is made much more than once.
use crate::fixtures::{Case, all_hold};
use crate::nested::{Shape, chain};
use crate::reads::{Job, Picture, Place, shows};
use geotransform::Sample;
use outside::{CalmFolder, CountingFolder};
use std::alloc::Global;
use std::process::Abort;
use std::test::*;

const WHOLE: &[u8] = b"<DstRect xOff=\"0\" yOff=\"0\" xSize=\"24\" ySize=\"24\"/>";

const RIGHT: &[u8] = b"<DstRect xOff=\"5\" yOff=\"2\" xSize=\"24\" ySize=\"24\"/>";

const LEFT: &[u8] = b"<DstRect xOff=\"-5\" yOff=\"-2\" xSize=\"24\" ySize=\"24\"/>";

const UP: &[u8] = b"<DstRect xOff=\"3\" yOff=\"-7\" xSize=\"24\" ySize=\"24\"/>";

// The rectangles by which each mosaic names the next, shifted, and whether by sources whose NODATA is everywhere, so
// that each of them has to be asked.
#[derive(Clone, Copy)]
struct Repeated<'a>(&'a [&'a [u8]], bool);

const SHAPES: [Repeated<'static>; 12] = [
    Repeated(&[WHOLE, WHOLE], false),
    Repeated(&[WHOLE, WHOLE], true),
    Repeated(&[WHOLE, WHOLE, WHOLE], false),
    Repeated(&[WHOLE, WHOLE, WHOLE], true),
    Repeated(&[WHOLE, WHOLE, WHOLE, WHOLE], false),
    Repeated(&[WHOLE, WHOLE, WHOLE, WHOLE], true),
    Repeated(&[LEFT, RIGHT], false),
    Repeated(&[LEFT, RIGHT], true),
    Repeated(&[LEFT, WHOLE, RIGHT], false),
    Repeated(&[LEFT, WHOLE, RIGHT], true),
    Repeated(&[LEFT, WHOLE, RIGHT, UP], false),
    Repeated(&[LEFT, WHOLE, RIGHT, UP], true),
];

// The mosaics, from the first to the last, and the file that the last one names.
const NAMES: [&str; 17] = [
    "m0.vrt", "m1.vrt", "m2.vrt", "m3.vrt", "m4.vrt", "m5.vrt", "m6.vrt", "m7.vrt", "m8.vrt",
    "m9.vrt", "m10.vrt", "m11.vrt", "m12.vrt", "m13.vrt", "m14.vrt", "m15.vrt", "last.bil",
];

// All datasets together have so many pixels.
const ALL_PIXELS: u64 = 17 * 24 * 24;

// A picture of one value.
#[derive(Clone, Copy)]
struct Plain {
    value: Sample,
}

impl Picture for Plain {
    fn pixel(&self, _band: u32, _x: u32, _y: u32) -> Sample {
        self.value
    }
}

// Two points, and a window.
const RECTS: [Place; 3] = [(0, (3, 20, 1, 1)), (0, (21, 4, 1, 1)), (0, (1, 2, 20, 18))];

// Whether the first mosaic is read through a new lane of this capacity, and holds nothing but 255.
fn shows_white<R: Abort>(
    rt: &R,
    alloc: Global,
    folder: &mut CountingFolder<CalmFolder>,
    capacity: u32,
) -> bool {
    let job = Job {
        name: "m0.vrt",
        size: (24, 24),
        capacity,
        windows: &RECTS,
    };
    shows(rt, alloc, folder, job, &Plain { value: 255 })
}

// Whether that takes fewer reads than all datasets have pixels.
fn is_bounded<R: Abort>(
    rt: &R,
    alloc: Global,
    folder: &mut CountingFolder<CalmFolder>,
    capacity: u32,
) -> bool {
    let before = folder.reads();
    let blank = shows_white(rt, alloc, folder, capacity);
    blank && folder.reads().saturating_sub(before) < ALL_PIXELS
}

// The same at every capacity.
fn is_always_bounded<R: Abort>(
    rt: &R,
    alloc: Global,
    folder: &mut CountingFolder<CalmFolder>,
    capacities: &[u32],
) -> bool {
    for capacity in capacities {
        if !is_bounded(rt, alloc, folder, *capacity) {
            return false;
        }
    }
    true
}

impl Case for Repeated<'_> {
    // Whether mosaics that name one another so are read so.
    fn holds<R: Abort>(&self, rt: &R, alloc: Global) -> bool {
        let shape = Shape {
            columns: b"24",
            places: self.0,
            tested: self.1,
        };
        let mut folder = CountingFolder::new(chain(rt, alloc, &NAMES, shape, &[255; 576]));
        is_always_bounded(rt, alloc, &mut folder, &[1, 64, 1000])
    }
}

// 16 mosaics, of which each names the next two, three or four times, have 65,536 to 4,294,967,296 paths to the file.
#[test]
fn depth_multiplies_no_reads(rt: HostRuntime) {
    all_hold(&rt, rt.alloc(), &SHAPES);
}
