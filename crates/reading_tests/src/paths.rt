// Mosaics that name one another again and again, of which single pixels are asked: each of them is made once, and no
// other pixel stands for it.
use crate::fixtures::add;
use crate::nested::{Shape, chain, put_mosaic};
use crate::reads::{Job, Picture, Place, shows};
use geotransform::Sample;
use outside::{CalmFolder, CountingFolder};
use std::alloc::Global;
use std::process::Abort;
use std::test::*;

// Each mosaic shows the next one three times: as it is, over it a line lower, and over both a column to the right. Its
// NODATA, and that of each source, is 255.
const SHIFTS: [(usize, usize); 3] = [(0, 0), (0, 1), (1, 0)];

// The mosaics, from the second to the last, and the file that the last one names. They have 24 columns and lines.
// The first mosaic, `m0.vrt`, names `m1.vrt`, and its 24 columns stand behind 128 in which there is nothing.
const NAMES: [&str; 16] = [
    "m1.vrt", "m2.vrt", "m3.vrt", "m4.vrt", "m5.vrt", "m6.vrt", "m7.vrt", "m8.vrt", "m9.vrt",
    "m10.vrt", "m11.vrt", "m12.vrt", "m13.vrt", "m14.vrt", "m15.vrt", "last.bil",
];

// The places of the shifts in a mosaic, as its document has them, and behind the 128 columns of the first.
const PLACES: [&[u8]; 3] = [
    b"<DstRect xOff=\"0\" yOff=\"0\" xSize=\"24\" ySize=\"24\"/>",
    b"<DstRect xOff=\"0\" yOff=\"1\" xSize=\"24\" ySize=\"24\"/>",
    b"<DstRect xOff=\"1\" yOff=\"0\" xSize=\"24\" ySize=\"24\"/>",
];

const PLACES_BEHIND: [&[u8]; 3] = [
    b"<DstRect xOff=\"128\" yOff=\"0\" xSize=\"24\" ySize=\"24\"/>",
    b"<DstRect xOff=\"128\" yOff=\"1\" xSize=\"24\" ySize=\"24\"/>",
    b"<DstRect xOff=\"129\" yOff=\"0\" xSize=\"24\" ySize=\"24\"/>",
];

// The pixel of the file: nearly each is 255.
fn sample(x: usize, y: usize) -> u8 {
    let (x, y) = (x as u128, y as u128);
    if (5 * x + 3 * y) % 61 != 3 {
        return 255;
    }
    ((7 * x + 11 * y) % 200 + 1) as u8
}

// The pixels of the file.
fn raw<R: Abort>(rt: &R, alloc: Global) -> Vec<u8> {
    let mut bytes = Vec::new(alloc);
    for at in 0..24 * 24usize {
        add(rt, &mut bytes, &[sample(at % 24, at / 24)]);
    }
    bytes
}

// The pixel of a dataset that stands at a shifted place, or 255.
fn shifted(below: &[u8], at: usize, (right, down): (usize, usize)) -> u8 {
    let (x, y) = (at % 24, at / 24);
    if x < right || y < down {
        return 255;
    }
    let place = (y - down).saturating_mul(24).saturating_add(x - right);
    *below.get(place).unwrap_or(&255)
}

// The pixel of a mosaic of a dataset: the last that isn't 255.
fn pixel(below: &[u8], at: usize) -> u8 {
    let mut last = 255;
    for shift in SHIFTS {
        let over = shifted(below, at, shift);
        if over != 255 {
            last = over;
        }
    }
    last
}

// The pixels of a mosaic of a dataset.
fn above<R: Abort>(rt: &R, alloc: Global, below: &[u8]) -> Vec<u8> {
    let mut pixels = Vec::new(alloc);
    for at in 0..24 * 24 {
        add(rt, &mut pixels, &[pixel(below, at)]);
    }
    pixels
}

// The pixels of the first mosaic, behind its 128 columns.
#[derive(Drop)]
struct Pixels {
    pixels: Vec<u8>,
}

impl Picture for Pixels {
    fn pixel(&self, _band: u32, x: u32, y: u32) -> Sample {
        if x < 128 {
            return 255;
        }
        let at = (y as usize)
            .saturating_mul(24)
            .saturating_add((x - 128) as usize);
        *self.pixels.get(at).unwrap_or(&0) as Sample
    }
}

// The pixels of the first mosaic, which stands 16 above the file.
fn first<R: Abort>(rt: &R, alloc: Global) -> Pixels {
    let mut pixels = raw(rt, alloc);
    for _ in 0..16 {
        pixels = above(rt, alloc, pixels.as_slice());
    }
    Pixels { pixels }
}

// A folder that holds the mosaics and the file.
fn holding<R: Abort>(rt: &R, alloc: Global) -> CalmFolder {
    let bytes = raw(rt, alloc);
    let shape = Shape {
        columns: b"24",
        places: &PLACES,
        tested: true,
    };
    let mut folder = chain(rt, alloc, &NAMES, shape, bytes.as_slice());
    let first = Shape {
        columns: b"152",
        places: &PLACES_BEHIND,
        tested: true,
    };
    put_mosaic(rt, alloc, &mut folder, "m0.vrt", "m1.vrt", first);
    folder
}

// The first pixel makes the block in which nothing lies, which fills a pool of one block. Those behind it are made of
// single pixels.
const POINTS: [Place; 7] = [
    (0, (0, 0, 1, 1)),
    (0, (131, 20, 1, 1)),
    (0, (149, 4, 1, 1)),
    (0, (140, 12, 1, 1)),
    (0, (135, 9, 1, 1)),
    (0, (144, 17, 1, 1)),
    (0, (148, 20, 1, 1)),
];

// Whether the points have their pixels, and the walk and they take fewer reads than this.
fn reads_fewer<R: Abort>(rt: &R, alloc: Global, most: u64) -> bool {
    let mut folder = CountingFolder::new(holding(rt, alloc));
    let picture = first(rt, alloc);
    let job = Job {
        name: "m0.vrt",
        size: (152, 24),
        capacity: 1,
        windows: &POINTS,
    };
    shows(rt, alloc, &mut folder, job, &picture) && folder.reads() < most
}

// 43,046,721 paths lead from a pixel to the file, which has 576 of them. No point asks for as many.
#[test]
fn pixels_that_many_paths_reach_are_their_own(rt: HostRuntime) {
    assert!(rt; reads_fewer(&rt, rt.alloc(), 6 * 576));
}
