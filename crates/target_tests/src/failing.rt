// Each call of a folder that fails in turn: what is answered, what the names hold, and that no draft is left open.
use crate::cells::{CELL, CELL_ONE, CELL_TWO};
use crate::fixtures::{
    Asked, Ended, File, Form, Order, Story, Window, folder_of, has_all, none_wrong, ordered,
    written,
};
use crate::texts::SQUARE;
use crate::tiles::TILE;
use esri_hdr::Layout;
use geotransform::Sample;
use outside::{Failing, MemFolder, Method};
use std::alloc::Global;
use std::test::*;
use write_back::TargetFault;

// Two columns, two lines and two bands.
const PAIR: Asked = Asked {
    text: "<VRTDataset rasterXSize=\"2\" rasterYSize=\"2\">\
        <VRTRasterBand dataType=\"Byte\"></VRTRasterBand>\
        <VRTRasterBand dataType=\"Byte\"></VRTRasterBand></VRTDataset>",
    form: Form::Raw(Layout::Bil),
    name: "out.bil",
    bands: &[],
    seen: None,
    nodata: None,
    kind: None,
};

const PAIR_BIP: Asked = Asked {
    form: Form::Raw(Layout::Bip),
    name: "out.bip",
    ..PAIR
};

const PAIR_BSQ: Asked = Asked {
    form: Form::Raw(Layout::Bsq),
    name: "out.bsq",
    ..PAIR
};

// Columns of both bands, and a line of the first.
const PAIR_WINDOWS: [Window; 4] = [
    (0, (0, 0), (1, 2), 0),
    (1, (0, 0), (1, 2), 2),
    (1, (1, 0), (1, 2), 4),
    (0, (0, 1), (2, 1), 6),
];

const CELL_WINDOWS: [Window; 3] = [
    (0, (7, 0), (2, 2), 0),
    (0, (8, 1), (1, 3), 1),
    (0, (7, 120), (1, 1), 0),
];

const TILE_WINDOWS: [Window; 2] = [(0, (7, 0), (2, 2), 0), (0, (8, 1), (1, 2), 1)];

const SQUARE_WINDOWS: [Window; 2] = [(0, (0, 0), (2, 1), 0), (0, (0, 1), (2, 1), 2)];

const SAMPLES: [Sample; 8] = [1, 2, 3, 4, 5, 6, 7, 8];

// What the names hold before.
const OLD: [File; 9] = [
    ("out.bil", b"old data"),
    ("out.bip", b"old data"),
    ("out.bsq", b"old data"),
    ("out.hdr", b"old header"),
    ("out.dt0", b"old cell"),
    ("out.dt1", b"old cell"),
    ("out.dt2", b"old cell"),
    ("N00E000.hgt", b"old tile"),
    ("h.asc", b"old grid"),
];

// The data of each layout: in lines of bands, pixel by pixel, and band by band.
const BIL_FILES: [File; 2] = [
    ("out.bil", &[1, 0, 3, 5, 7, 8, 4, 6]),
    ("out.hdr", b"old header"),
];

const BIP_FILES: [File; 2] = [
    ("out.bip", &[1, 3, 0, 5, 7, 4, 8, 6]),
    ("out.hdr", b"old header"),
];

const BSQ_FILES: [File; 2] = [
    ("out.bsq", &[1, 0, 7, 8, 3, 5, 4, 6]),
    ("out.hdr", b"old header"),
];

/// A method, the number of the call of it that fails, and how far an output comes then through a pool of one block, of
/// two and of three: to its target (0), to its windows (1), to its first file (2), to its second one (3), to its end
/// since there is no such call (4).
type Call = (Method, u64, [u8; 3]);

// Through a pool of one block, each time that another block comes the held one is written, and the last one in
// `close`; a larger pool writes the block that was used longest ago. Of the four blocks, a pool of two drops the first
// two of the first band and then one of the second band, and a pool of three the first one alone.
const PAIR_CALLS: [Call; 23] = [
    (Method::Create, 1, [0, 0, 0]),
    (Method::Grow, 1, [0, 0, 0]),
    (Method::Create, 2, [0, 0, 0]),
    (Method::Append, 1, [0, 0, 0]),
    (Method::Create, 3, [4, 4, 4]),
    (Method::Grow, 2, [4, 4, 4]),
    (Method::Append, 2, [4, 4, 4]),
    (Method::DraftRead, 1, [1, 4, 4]),
    (Method::DraftRead, 2, [1, 4, 4]),
    (Method::DraftRead, 3, [4, 4, 4]),
    (Method::WriteAt, 1, [1, 1, 1]),
    (Method::WriteAt, 2, [1, 1, 2]),
    (Method::WriteAt, 3, [1, 1, 2]),
    (Method::WriteAt, 4, [1, 2, 2]),
    (Method::WriteAt, 5, [1, 2, 4]),
    (Method::WriteAt, 6, [1, 4, 4]),
    (Method::WriteAt, 7, [2, 4, 4]),
    (Method::WriteAt, 8, [4, 4, 4]),
    (Method::Publish, 1, [2, 2, 2]),
    (Method::Publish, 2, [3, 3, 3]),
    (Method::Publish, 3, [4, 4, 4]),
    (Method::Open, 1, [4, 4, 4]),
    (Method::ReadAt, 1, [4, 4, 4]),
];

// Where bands lie pixel by pixel, both bands' part of a line is put into the block that is held. There are two blocks.
const PAIR_BIP_CALLS: [Call; 24] = [
    (Method::Create, 1, [0, 0, 0]),
    (Method::Grow, 1, [0, 0, 0]),
    (Method::Create, 2, [0, 0, 0]),
    (Method::Append, 1, [0, 0, 0]),
    (Method::Create, 3, [4, 4, 4]),
    (Method::Grow, 2, [4, 4, 4]),
    (Method::Append, 2, [4, 4, 4]),
    (Method::DraftRead, 1, [1, 4, 4]),
    (Method::DraftRead, 2, [1, 4, 4]),
    (Method::DraftRead, 3, [1, 4, 4]),
    (Method::DraftRead, 4, [1, 4, 4]),
    (Method::DraftRead, 5, [4, 4, 4]),
    (Method::WriteAt, 1, [1, 2, 2]),
    (Method::WriteAt, 2, [1, 2, 2]),
    (Method::WriteAt, 3, [1, 4, 4]),
    (Method::WriteAt, 4, [1, 4, 4]),
    (Method::WriteAt, 5, [1, 4, 4]),
    (Method::WriteAt, 6, [2, 4, 4]),
    (Method::WriteAt, 7, [4, 4, 4]),
    (Method::Publish, 1, [2, 2, 2]),
    (Method::Publish, 2, [3, 3, 3]),
    (Method::Publish, 3, [4, 4, 4]),
    (Method::Open, 1, [4, 4, 4]),
    (Method::ReadAt, 1, [4, 4, 4]),
];

// The head of a cell is added before its draft grows. Its windows meet two columns.
const CELL_CALLS: [Call; 15] = [
    (Method::Create, 1, [0, 0, 0]),
    (Method::Append, 1, [0, 0, 0]),
    (Method::Grow, 1, [0, 0, 0]),
    (Method::Create, 2, [4, 4, 4]),
    (Method::Append, 2, [4, 4, 4]),
    (Method::Grow, 2, [4, 4, 4]),
    (Method::DraftRead, 1, [1, 4, 4]),
    (Method::DraftRead, 2, [4, 4, 4]),
    (Method::WriteAt, 1, [1, 2, 2]),
    (Method::WriteAt, 2, [1, 2, 2]),
    (Method::WriteAt, 3, [2, 4, 4]),
    (Method::WriteAt, 4, [4, 4, 4]),
    (Method::Publish, 1, [2, 2, 2]),
    (Method::Publish, 2, [4, 4, 4]),
    (Method::Open, 1, [4, 4, 4]),
];

// The windows meet three lines, each of them once in a row.
const TILE_CALLS: [Call; 13] = [
    (Method::Create, 1, [0, 0, 0]),
    (Method::Grow, 1, [0, 0, 0]),
    (Method::Create, 2, [4, 4, 4]),
    (Method::Grow, 2, [4, 4, 4]),
    (Method::Append, 1, [4, 4, 4]),
    (Method::DraftRead, 1, [4, 4, 4]),
    (Method::WriteAt, 1, [1, 1, 2]),
    (Method::WriteAt, 2, [1, 2, 2]),
    (Method::WriteAt, 3, [2, 2, 2]),
    (Method::WriteAt, 4, [4, 4, 4]),
    (Method::Publish, 1, [2, 2, 2]),
    (Method::Publish, 2, [4, 4, 4]),
    (Method::Open, 1, [4, 4, 4]),
];

// A grid's head and lines are added as they come.
const SQUARE_CALLS: [Call; 11] = [
    (Method::Create, 1, [0, 0, 0]),
    (Method::Append, 1, [0, 0, 0]),
    (Method::Create, 2, [4, 4, 4]),
    (Method::Append, 2, [1, 1, 1]),
    (Method::Append, 3, [1, 1, 1]),
    (Method::Append, 4, [4, 4, 4]),
    (Method::Grow, 1, [4, 4, 4]),
    (Method::DraftRead, 1, [4, 4, 4]),
    (Method::WriteAt, 1, [4, 4, 4]),
    (Method::Publish, 1, [2, 2, 2]),
    (Method::Publish, 2, [4, 4, 4]),
];

/// What is asked for, its windows, and what the names hold where the data is published and the header isn't; a file
/// that has no header is never published alone.
type Case = (Asked, &'static [Window], &'static [File<'static>]);

fn case_of(form: Form) -> Case {
    match form {
        Form::Raw(Layout::Bil) => (PAIR, &PAIR_WINDOWS, &BIL_FILES),
        Form::Raw(Layout::Bip) => (PAIR_BIP, &PAIR_WINDOWS, &BIP_FILES),
        Form::Raw(Layout::Bsq) => (PAIR_BSQ, &PAIR_WINDOWS, &BSQ_FILES),
        Form::Cell(0) => (CELL, &CELL_WINDOWS, &[]),
        Form::Cell(1) => (CELL_ONE, &CELL_WINDOWS, &[]),
        Form::Cell(_) => (CELL_TWO, &CELL_WINDOWS, &[]),
        Form::Tile => (TILE, &TILE_WINDOWS, &[]),
        Form::Grid => (SQUARE, &SQUARE_WINDOWS, &[]),
    }
}

fn calls_of(form: Form) -> &'static [Call] {
    match form {
        Form::Raw(Layout::Bip) => &PAIR_BIP_CALLS,
        Form::Raw(_) => &PAIR_CALLS,
        Form::Cell(_) => &CELL_CALLS,
        Form::Tile => &TILE_CALLS,
        Form::Grid => &SQUARE_CALLS,
    }
}

/// A form, the blocks of the pool, and the stages that are reached where the calls fail one after another: the windows
/// are none of them where the pool holds all that they meet.
type Row<'a> = (Form, u16, &'a [u8]);

const ROWS: [Row<'static>; 24] = [
    (Form::Raw(Layout::Bil), 1, &[0, 1, 2, 3, 4]),
    (Form::Raw(Layout::Bil), 2, &[0, 1, 2, 3, 4]),
    (Form::Raw(Layout::Bil), 3, &[0, 1, 2, 3, 4]),
    (Form::Raw(Layout::Bip), 1, &[0, 1, 2, 3, 4]),
    (Form::Raw(Layout::Bip), 2, &[0, 2, 3, 4]),
    (Form::Raw(Layout::Bip), 3, &[0, 2, 3, 4]),
    (Form::Raw(Layout::Bsq), 1, &[0, 1, 2, 3, 4]),
    (Form::Raw(Layout::Bsq), 2, &[0, 1, 2, 3, 4]),
    (Form::Raw(Layout::Bsq), 3, &[0, 1, 2, 3, 4]),
    (Form::Cell(0), 1, &[0, 1, 2, 4]),
    (Form::Cell(0), 2, &[0, 2, 4]),
    (Form::Cell(0), 3, &[0, 2, 4]),
    (Form::Cell(1), 1, &[0, 1, 2, 4]),
    (Form::Cell(1), 2, &[0, 2, 4]),
    (Form::Cell(1), 3, &[0, 2, 4]),
    (Form::Cell(2), 1, &[0, 1, 2, 4]),
    (Form::Cell(2), 2, &[0, 2, 4]),
    (Form::Cell(2), 3, &[0, 2, 4]),
    (Form::Tile, 1, &[0, 1, 2, 4]),
    (Form::Tile, 2, &[0, 1, 2, 4]),
    (Form::Tile, 3, &[0, 2, 4]),
    (Form::Grid, 1, &[0, 1, 2, 4]),
    (Form::Grid, 2, &[0, 1, 2, 4]),
    (Form::Grid, 3, &[0, 1, 2, 4]),
];

// How far an output came: to its target, to its windows, to its first file, to its second one, to its end.
fn stage_of(ended: Ended) -> Option<u8> {
    match ended {
        Ended::NotMade(TargetFault::FolderFault) => Some(0),
        Ended::Refused(TargetFault::FolderFault, true) => Some(1),
        Ended::NotClosed(0, TargetFault::FolderFault) => Some(2),
        Ended::NotClosed(1, TargetFault::FolderFault) => Some(3),
        Ended::Closed => Some(4),
        _ => None,
    }
}

/// An output that is tried: its plan, its windows, what is published where the header isn't, and the blocks of the
/// pool.
#[derive(Clone, Copy)]
struct Trial<'a> {
    order: &'a Order,
    windows: &'a [Window],
    published: &'a [File<'a>],
    capacity: u16,
}

// Whether one call failed, no draft is open, and the names hold what they did, but for the data that was published.
fn is_left(alloc: Global, folder: &MemFolder, stage: u8, published: &[File]) -> Result<bool, Fail> {
    if folder.faults() != 1 || folder.drafts() != 0 {
        return Ok(false);
    }
    let files = if stage == 3 { published } else { &OLD };
    has_all(alloc, folder, files)
}

// Whether an output that came so far leaves all as it is to be; no call failed where it came to its end.
fn is_kept(alloc: Global, folder: &MemFolder, stage: u8, published: &[File]) -> Result<bool, Fail> {
    if stage == 4 {
        return Ok(folder.faults() == 0);
    }
    is_left(alloc, folder, stage, published)
}

// How far an output comes where this call fails, and that it leaves all as it is to be; the last stage where no call
// fails.
fn stage_at(alloc: Global, trial: &Trial<'_>, failing: Failing) -> Result<Option<u8>, Fail> {
    let mut folder = folder_of(alloc, &[failing], &OLD)?;
    let story = Story {
        windows: trial.windows,
        samples: &SAMPLES,
    };
    let Some(stage) = stage_of(written(alloc, &mut folder, trial.order, trial.capacity, story))
    else {
        return Ok(None);
    };
    Ok(if is_kept(alloc, &folder, stage, trial.published)? {
        Some(stage)
    } else {
        None
    })
}

// Where a stage stands among those that are reached, behind the last one or there once more.
fn next_reached(stages: &[u8], reached: usize, stage: Option<u8>) -> Option<usize> {
    let next = reached.saturating_add(1);
    if stage.is_none() {
        None
    } else if stages.get(reached).copied() == stage {
        Some(reached)
    } else if stages.get(next).copied() == stage {
        Some(next)
    } else {
        None
    }
}

// Whether the calls of an output that fail one after another lead to these stages in their order, and none is left out.
fn comes_by(alloc: Global, trial: &Trial<'_>, stages: &[u8]) -> Result<bool, Fail> {
    let mut reached = 0;
    for call in 1..1000u64 {
        let stage = stage_at(alloc, trial, Failing::Call(call))?;
        match next_reached(stages, reached, stage) {
            None => return Ok(false),
            Some(place) => reached = place,
        }
        if stage == Some(4) {
            return Ok(true);
        }
    }
    Ok(false)
}

fn each_call_leads(alloc: Global, (form, capacity, stages): Row<'_>) -> Result<bool, Fail> {
    let (asked, windows, published) = case_of(form);
    let order = ordered(alloc, &asked)?;
    let trial = Trial {
        order: &order,
        windows,
        published,
        capacity,
    };
    comes_by(alloc, &trial, stages)
}

// The first of these outputs of which a call fails otherwise.
fn first_wrong(alloc: Global, rows: &[Row<'_>]) -> Result<Option<usize>, Fail> {
    for at in 0..rows.len() {
        if !each_call_leads(alloc, rows[at])? {
            return Ok(Some(at));
        }
    }
    Ok(None)
}

#[test]
fn each_call_may_fail(rt: HostRuntime) -> Result<(), Fail> {
    none_wrong(&rt, first_wrong(rt.alloc(), &ROWS))
}

// The stage of a call through a pool of so many blocks.
fn stage_in(stages: [u8; 3], capacity: u16) -> Option<u8> {
    match capacity {
        1 => Some(stages[0]),
        2 => Some(stages[1]),
        3 => Some(stages[2]),
        _ => None,
    }
}

// Whether a call that fails leads to its stage.
fn leads(alloc: Global, trial: &Trial<'_>, (method, number, stages): Call) -> Result<bool, Fail> {
    let stage = stage_at(alloc, trial, Failing::Of(method, number))?;
    Ok(stage.is_some() && stage == stage_in(stages, trial.capacity))
}

fn each_leads(alloc: Global, trial: &Trial<'_>, calls: &[Call]) -> Result<bool, Fail> {
    for at in 0..calls.len() {
        if !leads(alloc, trial, calls[at])? {
            return Ok(false);
        }
    }
    Ok(true)
}

fn each_method_leads(alloc: Global, (form, capacity, _): Row<'_>) -> Result<bool, Fail> {
    let (asked, windows, published) = case_of(form);
    let order = ordered(alloc, &asked)?;
    let trial = Trial {
        order: &order,
        windows,
        published,
        capacity,
    };
    each_leads(alloc, &trial, calls_of(form))
}

// The first of these outputs of which a call leads elsewhere.
fn first_astray(alloc: Global, rows: &[Row<'_>]) -> Result<Option<usize>, Fail> {
    for at in 0..rows.len() {
        if !each_method_leads(alloc, rows[at])? {
            return Ok(Some(at));
        }
    }
    Ok(None)
}

#[test]
fn each_method_may_fail(rt: HostRuntime) -> Result<(), Fail> {
    none_wrong(&rt, first_astray(rt.alloc(), &ROWS))
}
