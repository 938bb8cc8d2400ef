// Lanes of a team that read beside each other: over a folder whose views wait for one another, lanes that read in turn
// would be refused.
ghost use Rattle.std.specs.Prelude.{◌≡◌, ◌<◌};

use catalog::{Catalog, open_all};
use geotransform::{Rect, Sample, Size};
use lane_teams::Team;
use nearest_window::Window;
use outside::{CalmFolder, Folder, Name, Never};
use outside_fakes::Gate;
use std::alloc::{AllocError, Global};
use std::marker::Brand;
use std::sync::ledger::{Blank, Ledger};
use std::test::*;
use std::thread::Threads;

// Whether each sample is the number of its place.
fn are_places(samples: &[Sample]) -> bool {
    for (at, sample) in samples.iter().enumerate() {
        if *sample != at as Sample {
            return false;
        }
    }
    true
}

// Whether two lanes read a raster of 4 columns and 64 lines, in which each sample is the number of its place.
fn is_read_counted<R: Threads + Sync, F: Folder, L: Ledger>(
    rt: &R,
    alloc: Global,
    folder: &mut F,
    name: &Name,
    blank: Blank,
) -> Result<bool, AllocError>
    requires name { blank.name ≡ L.name }
    requires parts { blank.parts ≡ L.parts }
    requires some { 0 < blank.parts }
{
    let mut cat = Catalog::new(alloc);
    let Ok(dataset) = open_all(alloc, &mut cat, folder, name, false) else {
        return Ok(false);
    };
    let Size { w, h } = cat.head(dataset).size;
    if w != 4 || h != 64 {
        return Ok(false);
    }
    let window = Window {
        dataset,
        band: 0,
        rect: Rect { x: 0, y: 0, w, h },
    };
    let mut team: Team<F, L> = Team::new(alloc, 2, 64, blank)?;
    let mut out = vec![in alloc; 0i128; 256]?;
    let read = team.read_window(rt, alloc, &cat, folder, window, out.as_mut_slice());
    Ok(read.is_ok() && are_places(out.as_slice()))
}

fn is_read<R: Threads + Sync, F: Folder>(
    rt: &R,
    alloc: Global,
    folder: &mut F,
    name: &Name,
) -> Result<bool, AllocError> {
    is_read_counted::<R, F, Brand>(rt, alloc, folder, name, Blank::new(1))
}

// A raster whose samples are the numbers of their places.
fn samples(alloc: Global) -> Result<Vec<u8>, AllocError> {
    let mut bytes = Vec::with_capacity(alloc, 256)?;
    for sample in 0..=255u8 {
        bytes.push(sample)?;
    }
    Ok(bytes)
}

// A folder with the raster, whose views wait for one another.
fn gate(alloc: Global) -> Result<Gate<CalmFolder>, Fail> {
    let mut folder = CalmFolder::new(alloc, Never);
    let bytes = samples(alloc)?;
    folder.put(&Name::read(alloc, "tall.bil")?, bytes.as_slice())?;
    folder.put(&Name::read(alloc, "tall.hdr")?, b"NROWS 64\nNCOLS 4\n")?;
    Ok(Gate::new(alloc, folder)?)
}

#[test]
fn two_lanes_read_beside_each_other(rt: HostRuntime) -> Result<(), Fail> {
    let mut gate = gate(rt.alloc())?;
    let name = Name::read(rt.alloc(), "tall.bil")?;
    assert!(rt; is_read(&rt, rt.alloc(), &mut gate, &name)?);
    Ok(())
}

// The first bytes of an open file through a view: whether the call answers; nothing where the file is shorter.
fn reads_front<F: Folder>(view: &mut F, file: &mut F::File) -> Option<bool> {
    let mut out = [0u8; 4];
    if view.len(file) < 4 {
        return None;
    }
    let read = view.read_at(file, 0, &mut out);
    Some(read.is_ok())
}

// Whether the first of two views that read in turn waits in vain and fails, the other one reads, since the first has
// begun, and from then on each of them reads without waiting.
fn waits_in_vain<F: Folder + Drop>(folder: &mut F, file: &mut F::File) -> Result<bool, AllocError> {
    let mut first = folder.fork()?;
    let mut other = folder.fork()?;
    let is_refused = reads_front(&mut first, file) == Some(false);
    let is_read = reads_front(&mut other, file) == Some(true);
    let is_again = reads_front(&mut first, file) == Some(true);
    Ok(is_refused && is_read && is_again)
}

// The same of the views of a gate.
fn gate_waits(gate: &mut Gate<CalmFolder>, name: &Name) -> Result<bool, AllocError> {
    match gate.open(name) {
        Ok(mut file) => waits_in_vain(gate, &mut file),
        Err(_) => Ok(false),
    }
}

// So lanes that read in turn would be refused: the first of them waits for one that hasn't begun.
#[test]
fn a_view_that_reads_in_turn_fails(rt: HostRuntime) -> Result<(), Fail> {
    let mut gate = gate(rt.alloc())?;
    let name = Name::read(rt.alloc(), "tall.bil")?;
    assert!(rt; gate_waits(&mut gate, &name)?);
    Ok(())
}
