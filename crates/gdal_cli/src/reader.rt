// What the points of a dataset are answered with.
ghost use Rattle.std.specs.Prelude.{◌≡◌, ◌<◌, IfOk, [], length};
ghost use Rattle.nearest_window.specs.Lanes.{held_count, room_of};
ghost use Rattle.nearest_window.specs.Right.{IsFresh};

use crate::asked::Asked;
use band_blocks::Counter;
use catalog::Catalog;
use command_words::BlockCount;
use geotransform::Sample;
use nearest_window::Lane;
use outside::Folder;
use shared_lines::{Lines, Scene};
use std::alloc::{AllocError, Global};
use std::sync::ledger::{Blank, Ledger};

/// What is asked of each point of a dataset, which a catalog has under this number.
#[derive(Drop)]
pub struct Question {
    pub alloc: Global,
    pub cat: Catalog,
    pub id: u32,
    pub asked: Asked,
}

/// What pixels are read with: a lane, the count of its loads, and the lines that it looks for blocks in, if there are
/// any.
#[derive(Drop)]
pub struct PixelReader<'a, F: Folder, L: Ledger, S: Scene> {
    pub lane: Lane<F>,
    pub loads: Counter<L>,
    pub shared: Option<&'a Lines<S>>,
}

/// Room for the values of one point, one for each band, and for its text, which is used again for the next point.
#[derive(Drop)]
pub struct Room {
    pub values: Vec<Sample>,
    pub text: Vec<u8>,
}

/// What points are answered with, one after the other.
#[derive(Drop)]
pub struct PointReader<'a, F: Folder, L: Ledger, S: Scene> {
    pub pixels: PixelReader<'a, F, L, S>,
    pub room: Room,
}

impl Room {
    /// Room for the values of so many bands, and no text.
    pub fn new(alloc: Global, bands: usize) -> Result<Room, AllocError>
        ensures values { IfOk result (λ room. length room.values.items ≡ bands) }
        ensures text { IfOk result (λ room. room.text.items ≡ []) }
    {
        Ok(Room {
            values: vec![in alloc; 0; bands]?,
            text: Vec::new(alloc),
        })
    }
}

impl<'a, F: Folder, L: Ledger, S: Scene> PointReader<'a, F, L, S> {
    /// A reader that holds so many blocks at a time, looks for them in these lines, if there are any, and has room for
    /// the values of so many bands, and no text. It has read nothing.
    pub fn new(
        alloc: Global,
        blocks: BlockCount,
        bands: usize,
        shared: Option<&'a Lines<S>>,
        blank: Blank,
    ) -> Result<PointReader<'a, F, L, S>, AllocError>
        requires name { blank.name ≡ L.name }
        requires parts { blank.parts ≡ L.parts }
        requires some { 0 < blank.parts }
        ensures fresh { IfOk result (λ points. IsFresh F.Folder points.pixels.lane) }
        ensures room { IfOk result (λ points. length points.room.values.items ≡ bands) }
        ensures text { IfOk result (λ points. points.room.text.items ≡ []) }
        ensures capacity { IfOk result (λ points. room_of points.pixels.lane ≡ blocks) }
        ensures empty { IfOk result (λ points. held_count points.pixels.lane ≡ 0) }
        ensures none { IfOk result (λ points. points.pixels.loads ≡ 0) }
        ensures shared { IfOk result (λ points. points.pixels.shared ≡ shared.entry) }
    {
        let loads = Counter::open(blank);
        let lane = Lane::new(alloc, blocks.get())?;
        let room = Room::new(alloc, bands)?;
        Ok(PointReader {
            pixels: PixelReader {
                lane,
                loads,
                shared,
            },
            room,
        })
    }
}
