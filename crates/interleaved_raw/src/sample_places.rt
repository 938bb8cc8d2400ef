// Where the samples of a raster lie in its file.
ghost use Rattle.std.specs.Prelude.{◌≡◌, ◌<◌, ◌≤◌, ◌+◌, ◌*◌, ◌^◌};
ghost use Rattle.esri_hdr.specs.Head.{sample_len};
ghost use Rattle.esri_hdr.specs.Values.{longest_row};
ghost use Rattle.interleaved_raw.specs.Raw.{position_of, stride_of, needed_of};

use esri_hdr::{Layout, RawHead, sample_len};

/// The bytes from one sample of a line to the next of its band: those of the samples of all bands in
/// BIP, of one sample else.
pub fn stride(head: &RawHead) -> u64
    ensures value { result ≡ stride_of head.now }
    ensures bounds { (1 ≤ result) × (result ≤ 2048) }
    ensures wide { sample_len head.now.kind ≤ result }
{
    let s = sample_len(head.kind) as u64;
    match head.layout {
        Layout::Bil | Layout::Bsq => s,
        Layout::Bip => head.bands as u64 * s,
    }
}

// Each product stands by itself, over plain numbers: beside what a head keeps its bound is searched for far longer.

/// How many samples so many groups of so many have.
fn samples_of(groups: u32, each: u32) -> u64
    requires groups { groups ≤ 2 ^ 22 }
    requires each { each ≤ 2 ^ 22 }
    ensures value { result ≡ groups * each }
    ensures bound { result ≤ 2 ^ 44 }
{
    let (groups, each) = (groups as u64, each as u64);
    groups * each
}

/// The bytes of so many samples.
fn samples_len(count: u64, each: u64) -> u64
    requires count { count ≤ 2 ^ 45 }
    requires each { each ≤ 8 }
    ensures value { result ≡ count * each }
    ensures bound { result ≤ 2 ^ 48 }
{
    count * each
}

/// The bytes of so many rows of a band, or of so many lines of all bands.
fn rows_len(count: u32, each: u64) -> u64
    requires count { count ≤ 2 ^ 22 }
    requires each { each ≤ longest_row }
    ensures value { result ≡ count * each }
    ensures bound { result ≤ 2 ^ 55 }
{
    let count = count as u64;
    count * each
}

/// The bytes of so many bands.
fn bands_len(count: u32, each: u64) -> u64
    requires count { count ≤ 2 ^ 8 }
    requires each { each ≤ 2 ^ 49 }
    ensures value { result ≡ count * each }
    ensures bound { result ≤ 2 ^ 57 }
{
    let count = count as u64;
    count * each
}

/// The bytes of a band and the gap behind it.
#[tactic(auto, using(crate::proofs::Runs::gap_bound))]
fn band_len(head: &RawHead) -> u64
    ensures value { result ≡ head.now.size.h * head.now.size.w * sample_len head.now.kind + head.now.gap }
    ensures bound { result ≤ 2 ^ 49 }
{
    let s = sample_len(head.kind) as u64;
    samples_len(samples_of(head.size.h, head.size.w), s) + head.gap
}

/// The bytes before the sample of a band, a column and a line, each counted from 0.
pub fn position(head: &RawHead, band: u32, x: u32, y: u32) -> u64
    requires band { band < head.now.bands }
    requires column { x < head.now.size.w }
    requires line { y < head.now.size.h }
    ensures value { result ≡ position_of head.now band x y }
    ensures bound { result < 2 ^ 62 }
{
    let s = sample_len(head.kind) as u64;
    match head.layout {
        Layout::Bil => {
            let lines = rows_len(y, head.total_row);
            head.skip + lines + rows_len(band, head.band_row) + samples_len(x as u64, s)
        }
        Layout::Bip => {
            let lines = rows_len(y, head.total_row);
            head.skip + lines + samples_len(samples_of(x, head.bands) + band as u64, s)
        }
        Layout::Bsq => {
            let before = samples_of(y, head.size.w) + x as u64;
            head.skip + bands_len(band, band_len(head)) + samples_len(before, s)
        }
    }
}

/// The bytes that a file must have: the place of its last sample, and that sample.
pub fn needed_len(head: &RawHead) -> u64
    ensures value { result ≡ needed_of head.now }
    ensures bound { result < 2 ^ 63 }
{
    position(head, head.bands - 1, head.size.w - 1, head.size.h - 1) + sample_len(head.kind) as u64
}
