// As many bands and sources as a mosaic may have, and one more: the same dataset as each input, with the same bands
// chosen over and over.
ghost use Rattle.std.specs.Prelude.{◌≡◌, IfOk};
ghost use Rattle.std.specs.List.{All};
ghost use Rattle.buildvrt.specs.Options.{IsBandNumber};

use crate::asking::options;
use crate::inputs::folder;
use buildvrt::{BuildFault, BuildOptions, Input, Numbers, mosaic_of_inputs};
use catalog::{Head, head_of};
use lists_and_answers::Items;
use outside::Name;
use std::alloc::{AllocError, Global};
use std::test::*;
use vrt_profile::{Document, VrtBand};

/// The dataset, how often its first band is chosen, how many inputs there are, whether each has a band of its own, and
/// the bands and sources of the mosaic, or none where it is too large.
#[derive(Clone, Copy)]
struct Count {
    name: &'static str,
    chosen: usize,
    inputs: usize,
    separate: bool,
    bands: usize,
    sources: usize,
}

static COUNTS: [Count; 9] = [
    Count {
        name: "a.vrt",
        chosen: 256,
        inputs: 1,
        separate: false,
        bands: 256,
        sources: 256,
    },
    Count {
        name: "a.vrt",
        chosen: 257,
        inputs: 1,
        separate: false,
        bands: 0,
        sources: 0,
    },
    Count {
        name: "four.vrt",
        chosen: 0,
        inputs: 256,
        separate: true,
        bands: 256,
        sources: 256,
    },
    Count {
        name: "a.vrt",
        chosen: 0,
        inputs: 257,
        separate: true,
        bands: 0,
        sources: 0,
    },
    Count {
        name: "a.vrt",
        chosen: 0,
        inputs: 257,
        separate: false,
        bands: 1,
        sources: 257,
    },
    Count {
        name: "a.vrt",
        chosen: 256,
        inputs: 1025,
        separate: false,
        bands: 0,
        sources: 0,
    },
    Count {
        name: "a.vrt",
        chosen: 5,
        inputs: 52_429,
        separate: false,
        bands: 0,
        sources: 0,
    },
    Count {
        name: "four.vrt",
        chosen: 0,
        inputs: 65_536,
        separate: false,
        bands: 4,
        sources: 262_144,
    },
    Count {
        name: "a.vrt",
        chosen: 0,
        inputs: 65_536,
        separate: true,
        bands: 0,
        sources: 0,
    },
];

fn add_first(numbers: &mut Numbers) -> Result<(), AllocError>
    requires { All IsBandNumber numbers.old }
    ensures { All IsBandNumber numbers.new }
{
    numbers.push(1)
}

fn firsts(alloc: Global, count: usize) -> Result<Numbers, AllocError>
    ensures { IfOk result (λ numbers. All IsBandNumber numbers) }
{
    let mut numbers = Items::new(alloc);
    for _ in 0..count {
        add_first(&mut numbers)?;
    }
    Ok(numbers)
}

fn options_of(alloc: Global, count: Count) -> Option<BuildOptions> {
    let ask = if count.separate {
        "m.vrt separate"
    } else {
        "m.vrt"
    };
    let bands = firsts(alloc, count.chosen).ok()?;
    let plain = options(alloc, ask)?;
    Some(BuildOptions { bands, ..plain })
}

fn repeated<'a>(
    alloc: Global,
    head: &'a Head,
    count: usize,
) -> Result<Items<Input<'a>>, AllocError> {
    let mut inputs = Items::new(alloc);
    for _ in 0..count {
        inputs.push(Input { head })?;
    }
    Ok(inputs)
}

fn head_named(alloc: Global, name: &str) -> Option<Head> {
    let mut folder = folder(alloc)?;
    let name = Name::read(alloc, name).ok()?;
    head_of(alloc, &mut folder, &name, false).ok()
}

fn source_count(bands: &[VrtBand]) -> usize {
    let mut count = 0usize;
    for band in bands {
        count = count.saturating_add(band.sources.len());
    }
    count
}

fn has_counts(document: &Document, count: Count) -> bool {
    let bands = document.bands.as_slice();
    bands.len() == count.bands && source_count(bands) == count.sources
}

// Whether the mosaic of these inputs has so many bands and sources.
fn comes(alloc: Global, inputs: &[Input], options: &BuildOptions, count: Count) -> bool {
    if inputs.len() > 65_536 {
        return false;
    }
    match mosaic_of_inputs(alloc, inputs, options) {
        Err(BuildFault::Limit) => count.bands == 0,
        Err(_) => false,
        Ok((document, skipped)) => skipped.is_empty() && has_counts(&document, count),
    }
}

// Whether it comes of a head so many times.
fn comes_of(alloc: Global, head: &Head, options: &BuildOptions, count: Count) -> bool {
    match repeated(alloc, head, count.inputs) {
        Ok(inputs) => comes(alloc, inputs.as_slice(), options, count),
        Err(_) => false,
    }
}

fn count_holds(alloc: Global, count: Count) -> Option<bool> {
    let options = options_of(alloc, count)?;
    let head = head_named(alloc, count.name)?;
    Some(comes_of(alloc, &head, &options, count))
}

/// The first row that doesn't hold.
fn wrong_count(alloc: Global, counts: &[Count]) -> Option<usize> {
    for at in 0..counts.len() {
        if count_holds(alloc, counts[at]) != Some(true) {
            return Some(at);
        }
    }
    None
}

#[test]
fn counts_of_bands_and_sources(rt: HostRuntime) {
    assert_eq!(rt; wrong_count(rt.alloc(), &COUNTS), None);
}
