// What windows that lie over one another show, and samples all over the range of a type.
use crate::fixtures::{Story, Window, area};
use geotransform::Sample;
use std::alloc::{AllocError, Global};

/// The least number of a type, and how far the greatest is above it.
pub type Range = (i64, u64);

pub const BYTE: Range = (0, 255);

pub const INT8: Range = (-128, 255);

pub const UINT16: Range = (0, 65_535);

pub const INT16: Range = (-32_768, 65_535);

pub const UINT32: Range = (0, 4_294_967_295);

pub const INT32: Range = (-2_147_483_648, 4_294_967_295);

pub const UINT64: Range = (0, 18_446_744_073_709_551_615);

pub const INT64: Range = (-9_223_372_036_854_775_808, 18_446_744_073_709_551_615);

/// The elevations that a cell can hold.
pub const ELEVATIONS: Range = (-32_767, 65_534);

// A number for each place, up to the last.
fn mixed(at: u32, last: u64) -> u64 {
    let number = (at as u64).wrapping_mul(11_400_714_819_323_198_485);
    if last == u64::MAX {
        number
    } else {
        number % (last + 1)
    }
}

// A number of a range for each place: the least, the greatest, and others all over it.
fn sample_at((least, last): Range, at: u32) -> Sample {
    let above = match at % 16 {
        5 => 0,
        11 => last,
        _ => mixed(at, last),
    };
    least as i128 + above as i128
}

/// So many samples of a range.
pub fn samples_in(alloc: Global, range: Range, count: u32) -> Result<Vec<Sample>, AllocError> {
    let mut samples = Vec::new(alloc);
    for at in 0..count {
        samples.push(sample_at(range, at))?;
    }
    Ok(samples)
}

// The sample of a window at a pixel, where it covers it.
fn sample_in(window: &Window, samples: &[Sample], (band, x, y): (u16, u16, u16)) -> Option<Sample> {
    let (own, (left, top), (w, h), at) = *window;
    if band != own || x < left || y < top {
        return None;
    }
    let column = x - left;
    let line = y - top;
    if column >= w || line >= h {
        return None;
    }
    let at = at as usize + area(line, w) + column as usize;
    samples.get(at).copied()
}

/// The sample of the last window that covers a pixel, and 0 where none does: the band, the column and the line.
pub fn pixel(story: Story<'_>, place: (u16, u16, u16)) -> Sample {
    let mut seen = 0;
    for window in story.windows {
        if let Some(sample) = sample_in(window, story.samples, place) {
            seen = sample;
        }
    }
    seen
}

// Whether a place is one of so many from a first one on.
fn is_from(first: u16, count: u16, place: u16) -> bool {
    place >= first && place - first < count
}

/// Whether a window has a pixel in a line.
pub fn meets_line(window: &Window, y: u16) -> bool {
    let (_, (_, top), (w, h), _) = *window;
    w > 0 && is_from(top, h, y)
}

/// Whether a window has a pixel in a column.
pub fn meets_column(window: &Window, x: u16) -> bool {
    let (_, (left, _), (w, h), _) = *window;
    h > 0 && is_from(left, w, x)
}

/// The number that bytes are, the first of which is the most significant.
pub fn number_of(bytes: &[u8]) -> u64 {
    let mut number = 0u64;
    for byte in bytes {
        number = number.wrapping_mul(256).wrapping_add(*byte as u64);
    }
    number
}

/// The number that bytes are, the last of which is the most significant.
pub fn number_from_end(bytes: &[u8]) -> u64 {
    let mut number = 0u64;
    for byte in bytes.iter().rev() {
        number = number.wrapping_mul(256).wrapping_add(*byte as u64);
    }
    number
}
