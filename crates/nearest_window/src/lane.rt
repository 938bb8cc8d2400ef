// A lane: a pool of blocks and open files, through which windows of pixels are read.
ghost use Rattle.std.specs.Prelude.{◌≡◌, ⊤, ℕ, Option, ◌+◌, ◌*◌, ◌<◌, ◌≤◌, List, [], Some, None, length, IfErr, IfOk};
ghost use Rattle.std.specs.Prelude.{OnOk, OnErr, IfSome, is_some, false, true, slice_get};
ghost use Rattle.std.specs.Option.{IsSomeAnd};
ghost use Rattle.std.specs.List.{All};
ghost use Rattle.outside.specs.Outside.{Files};
ghost use Rattle.catalog.specs.Drivers.{Dataset};
ghost use Rattle.catalog.specs.Places.{IsWithin};
ghost use Rattle.band_blocks.specs.Keys.{IsKey};
ghost use Rattle.band_blocks.specs.Samples.{IsDirect};
ghost use Rattle.block_cache.specs.Entries.{pool_view, entry_of, held_at, moved_to_front, admitted, IsPool};
ghost use Rattle.nearest_window.specs.Lanes.{LaneView, lane_view, held_count, most_made, room_of};
ghost use Rattle.nearest_window.specs.HeldBlocks.{IsHeldWith, IsKept, IsUsed};
ghost use Rattle.nearest_window.specs.BlockKeys.{first_pixel_of, IsPartBlock, IsFileKey, IsMosaicKey};
ghost use Rattle.nearest_window.specs.Painted.{IsPainted, in_columns};
ghost use Rattle.nearest_window.specs.Pictures.{IsPicture, from_block};
ghost use Rattle.nearest_window.specs.Right.{AreRecalled, IsFresh, IsIndexIn, IsReady, IsRightLane};
ghost use Rattle.nearest_window.specs.Serving.{IsAnswered, IsFit, Serves, state_of};
ghost use Rattle.nearest_window.specs.Shown.{IsAreaOf, IsPictureOf, IsPartOf, IsLonePart};
ghost use Rattle.nearest_window.specs.Taken.{place_at};
ghost use Rattle.nearest_window.specs.Wanted.{IsWanted, numbers_of};
ghost use Rattle.band_blocks.specs.Blocks.{most_blocks};

use crate::block_parts::{
    Part, Rows, cost_of, has_cells, has_large_sources, is_straight, part_of, rows_end, rows_of,
};
use crate::indexes::Indexes;
use crate::indexing::wanted_in;
use crate::members::{Piece, band_of, band_type_of};
use crate::missed::Missed;
use crate::paint::paint_rows;
use crate::picture::Picture;
use crate::picture_places::Span;
use crate::recalled::Recalled;
use crate::sharing::{Supply, offer_to, shown_in};
use crate::wanted::Wanted;
use band_blocks::{
    Block, BlockKey, Counter, LoadFault, OpenFiles, PixelKey, has_places, load_block, load_sample,
};
use block_cache::Pool;
use catalog::Catalog;
use geotransform::{Rect, Sample};
use outside::Folder;
use shared_lines::Scene;
use std::alloc::{AllocError, Global};
use std::marker::Model;
use std::sync::ledger::Ledger;
use vrt_profile::VrtBand;

// At most so many blocks of mosaics are remembered beside a full pool.
const MOST_MADE: u32 = 4096;

// So many pixels a window may fill before it makes blocks in place of parts, besides eight times its own.
const ALONE: u64 = 131_072;

const TIMES_ITS_OWN: u64 = 8;

// A window of so many pixels, as many as a block has, makes no blocks of mosaics while it may fill pixels so.
const WIDE: usize = 16_384;

// Once a call has filled so many pixels, the samples of single ones are remembered.
const BEFORE_PIXELS: u64 = 4_096;

/// A pool of blocks and a list of open files, through which pixels of files and of mosaics are read.
#[derive(Drop)]
pub struct Lane<F: Folder> {
    pool: Pool,
    files: OpenFiles<F>,
    // Blocks of mosaics that were made while the pool was full.
    made: Pool,
    // Indexes of the sources of mosaics' bands by lines.
    indexes: Indexes,
    // Samples of pixels of mosaics that were made by themselves.
    recalled: Recalled,
    // So many pixels this call might fill at first before blocks are made in place of parts.
    first: u64,
    // So many pixels may still be filled in this call before blocks are made in place of parts.
    left: u64,
    // Whether this call paints parts in place of blocks even where the pool has room.
    is_wide: bool,
    missed: Missed,
}

// Paints a piece of a picture over the rows of `out`, from the block of a pool that has its pixels.
fn paint_from(pool: &mut Pool, picture: &Picture, piece: Piece, out: &mut [Sample])
    requires held { IsSomeAnd (held_at piece.key pool.old.entries) (λ e. length e.block.samples
        ≡ piece.rect.w * piece.rect.h) }
    requires picture { IsPicture picture.now }
    requires area { IsAreaOf picture.now piece.area }
    requires rows { length out.old ≡ piece.area.lines * picture.now.stride }
    requires across { (k : ℕ) → piece.area.column ≤ k → k < piece.area.column + piece.area.columns →
        (piece.rect.x ≤ place_at picture.now.columns k) ×
        (place_at picture.now.columns k < piece.rect.x + piece.rect.w) }
    requires down { (k : ℕ) → piece.area.line ≤ k → k < piece.area.line + piece.area.lines →
        (piece.rect.y ≤ place_at picture.now.lines k) × (place_at picture.now.lines k < piece.rect.y + piece.rect.h) }
    ensures entries { pool.new ≡ pool_view (moved_to_front piece.key pool.old.entries) pool.old.capacity }
    ensures valid { IsPool pool.new }
    ensures painted { IsSomeAnd (held_at piece.key pool.old.entries) (λ e.
        IsPainted (in_columns picture.now.stride (picture.now.to + piece.area.column)
        (picture.now.to + piece.area.column + piece.area.columns)
        (from_block e.block piece.rect picture.now piece.area.column piece.area.line)) out.old out.new) }
{
    let Some(block) = pool.find(&piece.key) else {
        unreachable!();
    };
    paint_rows(block, piece.rect, picture, piece.area, out);
    // This call is made for the proof: it says what holds of every pool.
    let _held = pool.held();
}

// The first pixel of a rectangle of the band that a block is of.
fn first_pixel_of(key: BlockKey, rect: Rect) -> PixelKey
    ensures pixel { result ≡ first_pixel_of key rect }
{
    PixelKey {
        dataset: key.dataset,
        band: key.band,
        x: rect.x,
        y: rect.y,
    }
}

impl<F: Folder> Model for Lane<F> {
    ghost use Rattle.nearest_window.specs.Lanes.{LaneView, lane_view};

    ghost Value = { LaneView F.File };

    ghost view = { λ l. lane_view l.pool l.files l.made l.indexes l.recalled };
}

impl<F: Folder> Lane<F> {
    /// A lane with an empty pool of 1 to 65,536 blocks, and no open file. It is refused where memory is.
    pub fn new(alloc: Global, capacity: u32) -> Result<Lane<F>, AllocError>
        requires some { 1 ≤ capacity }
        requires few { capacity ≤ most_blocks }
        ensures empty { IfOk result (λ lane.
            lane ≡ lane_view (pool_view [] capacity) [] (pool_view [] most_made) [] []) }
        ensures right { IfOk result (λ lane. (told : _) (cat : List Dataset) → IsRightLane F.Folder told cat lane) }
        ensures fresh { IfOk result (λ lane. IsFresh F.Folder lane) }
    {
        let pool = Pool::new(alloc, capacity)?;
        let made = Pool::new(alloc, MOST_MADE)?;
        let files = OpenFiles::new(alloc)?;
        let recalled = Recalled::new(alloc)?;
        // These calls are made for the proof: they say what holds of every pool.
        let _held = pool.held();
        let _made = made.held();
        Ok(Lane {
            pool,
            files,
            made,
            indexes: Indexes::new(alloc),
            recalled,
            first: 0,
            left: 0,
            is_wide: false,
            missed: Missed::new(capacity),
        })
    }

    /// The number of blocks that are held.
    pub fn held(&self) -> u32
        ensures count { result ≡ held_count self.now }
    {
        self.pool.held()
    }

    // Begins a call that gives so many pixels.
    pub(crate) fn begin(&mut self, cat: &Catalog, pixels: usize)
        ensures same { self.new ≡ self.old }
    {
        let more = (pixels as u64).saturating_mul(TIMES_ITS_OWN);
        self.first = more.saturating_add(ALONE);
        self.left = self.first;
        // A catalog is only looked through for a large window.
        self.is_wide = pixels >= WIDE && !has_cells(cat);
    }

    // Counts the pixels of a rectangle that is filled.
    pub(crate) fn spend(&mut self, rect: Rect)
        ensures same { self.new ≡ self.old }
    {
        self.left = self.left.saturating_sub(cost_of(rect));
    }

    // Whether the pool is full.
    fn is_full(&self) -> bool
        ensures full { result ≡ true → room_of self.now ≤ held_count self.now }
    {
        self.held() >= self.pool.capacity()
    }

    // Whether a block is held, in the pool or beside it.
    #[tactic(auto, using(crate::proofs::Keys::found_first, crate::proofs::Keys::found_second, crate::proofs::Keys::not_held))]
    fn holds(&self, key: &BlockKey) -> bool
        ensures absent { result ≡ false → held_at key.now self.now.pool.entries ≡ None }
        ensures held { result ≡ true → IsHeldWith key.now self.now (λ _. ⊤) }
    {
        if self.pool.holds(key) {
            return true;
        }
        self.made.holds(key)
    }

    // Keeps a block in the pool.
    fn keep(&mut self, key: BlockKey, block: Block) -> Result<(), LoadFault>
        ensures kept { OnOk result (self.new ≡ lane_view
            (pool_view (admitted (room_of self.old) key (entry_of block false) self.old.pool.entries)
            (room_of self.old)) self.old.files self.old.made self.old.indexes self.old.recalled) }
        ensures refused { OnErr result (self.new ≡ self.old) }
        ensures memory { IfErr result (λ e. e ≡ LoadFault.Memory) }
        ensures valid { IsPool self.new.pool }
    {
        match self.pool.admit(key, block, false) {
            Ok(last) => {
                drop(last);
                return Ok(());
            }
            Err(refused) => {
                drop(refused);
                return Err(LoadFault::Memory);
            }
        }
    }

    // Keeps a block of a mosaic beside the pool.
    fn remember(&mut self, key: BlockKey, block: Block) -> Result<(), LoadFault>
        ensures kept { OnOk result (self.new ≡ lane_view self.old.pool self.old.files
            (pool_view (admitted self.old.made.capacity key (entry_of block false) self.old.made.entries)
            self.old.made.capacity) self.old.indexes self.old.recalled) }
        ensures refused { OnErr result (self.new ≡ self.old) }
        ensures memory { IfErr result (λ e. e ≡ LoadFault.Memory) }
        ensures valid { IsPool self.new.made }
    {
        match self.made.admit(key, block, false) {
            Ok(last) => {
                drop(last);
                return Ok(());
            }
            Err(refused) => {
                drop(refused);
                return Err(LoadFault::Memory);
            }
        }
    }

    // Keeps a block of a mosaic: in the pool while that isn't full, else beside it, where it pushes no file's out.
    pub(crate) fn keep_made(&mut self, key: BlockKey, block: Block) -> Result<(), LoadFault>
        requires valid { IsPool self.old.pool }
        requires made_valid { IsPool self.old.made }
        ensures kept { OnOk result (IsKept key (entry_of block false) self.old self.new) }
        ensures refused { OnErr result (self.new ≡ self.old) }
        ensures memory { IfErr result (λ e. e ≡ LoadFault.Memory) }
        ensures valid { IsPool self.new.pool }
        ensures made_valid { IsPool self.new.made }
    {
        if self.is_full() {
            return self.remember(key, block);
        }
        self.keep(key, block)
    }

    // Paints a piece of a picture over the rows of `out`, from its block, which is held in the pool or beside it.
    #[tactic(auto, using(crate::proofs::Keys::found_there, crate::proofs::Keys::found_beside))]
    pub(crate) fn paint_held(&mut self, picture: &Picture, piece: Piece, out: &mut [Sample])
        requires held { IsHeldWith piece.key self.old (λ e. length e.block.samples ≡ piece.rect.w * piece.rect.h) }
        requires picture { IsPicture picture.now }
        requires area { IsAreaOf picture.now piece.area }
        requires rows { length out.old ≡ piece.area.lines * picture.now.stride }
        requires across { (k : ℕ) → piece.area.column ≤ k → k < piece.area.column + piece.area.columns →
            (piece.rect.x ≤ place_at picture.now.columns k) ×
            (place_at picture.now.columns k < piece.rect.x + piece.rect.w) }
        requires down { (k : ℕ) → piece.area.line ≤ k → k < piece.area.line + piece.area.lines →
            (piece.rect.y ≤ place_at picture.now.lines k) ×
            (place_at picture.now.lines k < piece.rect.y + piece.rect.h) }
        ensures used { IsUsed piece.key (λ e. IsPainted (in_columns picture.now.stride
            (picture.now.to + piece.area.column) (picture.now.to + piece.area.column + piece.area.columns)
            (from_block e.block piece.rect picture.now piece.area.column piece.area.line)) out.old out.new) self.old
            self.new }
        ensures valid { IsPool self.new.pool }
        ensures made_valid { IsPool self.new.made }
    {
        // These calls are made for the proof: they say what holds of every pool.
        let _held = self.pool.held();
        let _made = self.made.held();
        if self.pool.holds(&piece.key) {
            return paint_from(&mut self.pool, picture, piece, out);
        }
        paint_from(&mut self.made, picture, piece, out)
    }

    // Keeps a block that lines showed, as it would be kept once it was loaded or made.
    fn keep_shown(&mut self, cat: &Catalog, key: BlockKey, block: Block) -> Result<(), LoadFault>
        requires key { IsKey cat.now key }
        requires valid { IsPool self.old.pool }
        requires made_valid { IsPool self.old.made }
        ensures kept { OnOk result (IsKept key (entry_of block false) self.old self.new) }
        ensures refused { OnErr result (self.new ≡ self.old) }
        ensures valid { IsPool self.new.pool }
        ensures made_valid { IsPool self.new.made }
    {
        if band_of(cat, key).is_some() {
            return self.keep_made(key, block);
        }
        self.keep(key, block)
    }

    // Whether the lines show a block, which is then kept. It isn't where memory is refused.
    fn takes_shown<S: Scene>(&mut self, supply: &Supply<S>, folder: &F, key: BlockKey) -> bool
        requires fit { IsFit F.Folder S.told S.cat folder.now supply.now.cat.now self.old }
        requires key { IsKey supply.now.cat.now key }
        ensures serves { (loads : ℕ) → Serves F.file_bytes F.file_len supply.now.cat.now 0
            (state_of F.Folder folder.now self.old loads) (state_of F.Folder folder.now self.new loads) }
        ensures held { result ≡ true → IsHeldWith key self.new (λ _. ⊤) }
        ensures same { result ≡ false → self.new ≡ self.old }
    {
        // The clauses name it.
        let _ = folder;
        let Some(block) = shown_in(supply, key) else {
            return false;
        };
        match self.keep_shown(supply.cat, key, block) {
            Ok(_) => return true,
            Err(_) => return false,
        }
    }

    // Whether a block is held, or is so now since the lines showed it.
    pub(crate) fn finds<S: Scene>(&mut self, supply: &Supply<S>, folder: &F, key: BlockKey) -> bool
        requires fit { IsFit F.Folder S.told S.cat folder.now supply.now.cat.now self.old }
        requires key { IsKey supply.now.cat.now key }
        ensures serves { (loads : ℕ) → Serves F.file_bytes F.file_len supply.now.cat.now 0
            (state_of F.Folder folder.now self.old loads) (state_of F.Folder folder.now self.new loads) }
        ensures fit { IsFit F.Folder S.told S.cat folder.now supply.now.cat.now self.new }
        ensures held { result ≡ true → IsHeldWith key self.new (λ _. ⊤) }
        ensures absent { result ≡ false → held_at key self.new.pool.entries ≡ None }
    {
        if self.holds(&key) {
            return true;
        }
        self.takes_shown(supply, folder, key)
    }

    // Loads a block of a file that isn't held, and keeps it.
    pub(crate) fn load_kept<L: Ledger, S: Scene>(
        &mut self,
        supply: &Supply<S>,
        folder: &mut F,
        key: BlockKey,
        loads: &mut Counter<L>,
    ) -> Result<(), LoadFault>
        requires fit { IsFit F.Folder S.told S.cat folder.old supply.now.cat.now self.old }
        requires key { IsFileKey supply.now.cat.now key }
        requires absent { held_at key self.old.pool.entries ≡ None }
        ensures answered { IsAnswered F.Folder supply.now.cat.now result folder.old self.old loads.old folder.new
            self.new loads.new }
        ensures held { OnOk result (IsHeldWith key self.new (λ _. ⊤)) }
    {
        let block = load_block(
            supply.alloc,
            supply.cat,
            folder,
            &mut self.files,
            key,
            loads,
        )?;
        offer_to(supply, key, &block);
        self.keep(key, block)
    }

    // Whether a picture is one pixel of a file whose block isn't held, and the pool is full.
    fn may_jump(&self, cat: &Catalog, picture: &Picture, piece: Piece) -> bool
        requires known { piece.key.dataset < length cat.now }
        ensures absent { result ≡ true → held_at piece.key self.now.pool.entries ≡ None }
        ensures full { result ≡ true → room_of self.now ≤ held_count self.now }
        ensures direct { result ≡ true → (d : Dataset) → slice_get cat.now piece.key.dataset ≡ Some d →
            IsDirect d.content }
        ensures narrow { result ≡ true → picture.now.width ≡ 1 }
        ensures low { result ≡ true → picture.now.height ≡ 1 }
    {
        if picture.width != 1 {
            return false;
        }
        if picture.height != 1 {
            return false;
        }
        if !self.is_full() {
            return false;
        }
        if self.holds(&piece.key) {
            return false;
        }
        has_places(cat, piece.key.dataset)
    }

    // Whether a piece of a picture is read by itself: it may be, and its block wasn't missed before.
    pub(crate) fn is_jump(&mut self, cat: &Catalog, picture: &Picture, piece: Piece) -> bool
        requires known { piece.key.dataset < length cat.now }
        ensures same { self.new ≡ self.old }
        ensures absent { result ≡ true → held_at piece.key self.old.pool.entries ≡ None }
        ensures full { result ≡ true → room_of self.old ≤ held_count self.old }
        ensures direct { result ≡ true → (d : Dataset) → slice_get cat.now piece.key.dataset ≡ Some d →
            IsDirect d.content }
        ensures narrow { result ≡ true → picture.now.width ≡ 1 }
        ensures low { result ≡ true → picture.now.height ≡ 1 }
    {
        if !self.may_jump(cat, picture, piece) {
            return false;
        }
        self.missed.is_new(piece.key)
    }

    // Reads a pixel of a file by itself, as a block of its own that isn't kept.
    pub(crate) fn load_alone<L: Ledger>(
        &mut self,
        alloc: Global,
        cat: &Catalog,
        folder: &mut F,
        key: BlockKey,
        rect: Rect,
        loads: &mut Counter<L>,
    ) -> Result<Block, LoadFault>
        requires ready { IsReady F.Folder folder.old cat.now self.old }
        requires key { IsKey cat.now key }
        requires absent { held_at key self.old.pool.entries ≡ None }
        requires full { room_of self.old ≤ held_count self.old }
        requires direct { (d : Dataset) → slice_get cat.now key.dataset ≡ Some d → IsDirect d.content }
        requires within { (d : Dataset) → slice_get cat.now key.dataset ≡ Some d → IsWithin rect d.head.size }
        requires narrow { rect.w ≡ 1 }
        requires low { rect.h ≡ 1 }
        ensures answered { IsAnswered F.Folder cat.now result folder.old self.old loads.old folder.new self.new
            loads.new }
        ensures block { IfOk result (λ b. IsPartBlock (F.names folder.new) cat.now key rect b) }
    {
        let pixel = PixelKey {
            dataset: key.dataset,
            band: key.band,
            x: rect.x,
            y: rect.y,
        };
        let kind = band_type_of(cat, key);
        let sample = load_sample(cat, folder, &mut self.files, pixel, loads)?;
        Ok(Block::pack(alloc, kind, &[sample])?)
    }

    // Whether the sample of a rectangle is remembered: it is one pixel, and this call has filled many already.
    fn remembers(&self, rect: Rect) -> bool
        ensures narrow { result ≡ true → rect.w ≡ 1 }
        ensures low { result ≡ true → rect.h ≡ 1 }
    {
        if rect.w != 1 || rect.h != 1 {
            return false;
        }
        self.first.saturating_sub(self.left) >= BEFORE_PIXELS
    }

    // The block of a rectangle of one pixel whose sample is remembered.
    pub(crate) fn recall(
        &self,
        alloc: Global,
        cat: &Catalog,
        key: BlockKey,
        rect: Rect,
    ) -> Option<Block>
        requires key { IsKey cat.now key }
        requires recalled { (told : Option Files) × AreRecalled told cat.now self.now.recalled }
        ensures block { IfSome result (λ b. (told : Option Files) → AreRecalled told cat.now self.now.recalled →
            IsPartBlock told cat.now key rect b) }
    {
        if !self.remembers(rect) {
            return None;
        }
        let sample = self.recalled.find(first_pixel_of(key, rect))?;
        match Block::pack(alloc, band_type_of(cat, key), &[sample]) {
            Ok(block) => Some(block),
            Err(_) => None,
        }
    }

    // Remembers the sample of a rectangle of one pixel, where memory isn't refused.
    pub(crate) fn note(&mut self, key: BlockKey, rect: Rect, block: &Block)
        requires count { length block.now.samples ≡ rect.w * rect.h }
        ensures same { self.new ≡ lane_view self.old.pool self.old.files self.old.made self.old.indexes
            self.new.recalled }
        ensures pixels { (told : Option Files) → (cat : List Dataset) → IsPartBlock told cat key rect block.now →
            AreRecalled told cat self.old.recalled → AreRecalled told cat self.new.recalled }
    {
        if !self.remembers(rect) {
            return;
        }
        let _put = self.recalled.put(first_pixel_of(key, rect), block.get(0));
    }

    // The sources of a mosaic's band that are asked for a rectangle of it. It is refused where memory is.
    pub(crate) fn wanted(
        &mut self,
        alloc: Global,
        cat: &Catalog,
        key: BlockKey,
        band: &VrtBand,
        rect: Rect,
    ) -> Result<Wanted, AllocError>
        requires listed { All (IsIndexIn cat.now) self.old.indexes }
        requires key { IsMosaicKey cat.now key band.now }
        requires within { (d : Dataset) → slice_get cat.now key.dataset ≡ Some d → IsWithin rect d.head.size }
        ensures same { self.new ≡ lane_view self.old.pool self.old.files self.old.made self.new.indexes
            self.old.recalled }
        ensures listed { All (IsIndexIn cat.now) self.new.indexes }
        ensures wanted { (d : Dataset) → slice_get cat.now key.dataset ≡ Some d →
            IfOk result (λ w. IsWanted band.now.sources d.head.size rect (numbers_of w)) }
    {
        wanted_in(&mut self.indexes, alloc, cat, key, band, rect)
    }

    // Whether all columns of lines of a picture are filled at a time, from this line on: the call's window is large
    // and may still paint pixels without blocks, nothing is scaled, and the sources are large.
    fn goes_wide(&self, cat: &Catalog, picture: &Picture, line: u32) -> bool
        requires picture { IsPictureOf cat.now picture.now }
        requires line { line < picture.now.height }
    {
        if !self.is_wide || self.left == 0 {
            return false;
        }
        is_straight(picture) && has_large_sources(cat, picture, line)
    }

    // The end of the lines of a picture from `line` on, before `end`, that are painted at a time.
    pub(crate) fn end_of(&self, cat: &Catalog, picture: &Picture, line: u32, end: u32) -> u32
        requires picture { IsPictureOf cat.now picture.now }
        requires order { line < end }
        requires there { end ≤ picture.now.height }
        ensures above { line < result }
        ensures below { result ≤ end }
    {
        if !self.goes_wide(cat, picture, line) {
            return end;
        }
        rows_end(picture, line, end)
    }

    // Whether no blocks of mosaics are made: the call may still paint pixels without them, and the pool has no room
    // for them, or the call's window is large, so that they wouldn't be used again.
    fn is_alone(&self) -> bool {
        if self.left == 0 {
            return false;
        }
        self.is_wide || self.is_full()
    }

    // All columns of some lines of a picture, where they are filled at a time.
    pub(crate) fn wide_rows<'a>(
        &self,
        cat: &'a Catalog,
        picture: &Picture,
        lines: Span,
    ) -> Option<Rows<'a>>
        requires picture { IsPictureOf cat.now picture.now }
        requires lines { lines.first + lines.count ≤ picture.now.height }
        requires some { 0 < lines.count }
        ensures part { IfSome result (λ r. IsLonePart cat.now picture.now r.piece r.band.now r.piece.rect) }
        ensures area { IfSome result (λ r. IsAreaOf picture.now r.piece.area) }
        ensures columns { IfSome result (λ r. (r.piece.area.column ≡ 0) × (r.piece.area.columns ≡ picture.now.width)) }
        ensures lines { IfSome result (λ r. (r.piece.area.line ≡ lines.first) × (r.piece.area.lines ≡ lines.count)) }
    {
        if !self.goes_wide(cat, picture, lines.first) {
            return None;
        }
        rows_of(cat, picture, lines)
    }

    // The part of a block that is painted without the block: that of a mosaic, where no block is held and none is
    // made.
    pub(crate) fn lone_part<'a>(
        &self,
        cat: &'a Catalog,
        picture: &Picture,
        piece: Piece,
    ) -> Option<Part<'a>>
        requires picture { IsPictureOf cat.now picture.now }
        requires piece { IsPartOf cat.now picture.now piece }
        requires area { IsAreaOf picture.now piece.area }
        ensures part { IfSome result (λ p. IsLonePart cat.now picture.now piece p.band.now p.rect) }
    {
        if !self.is_alone() || self.holds(&piece.key) {
            return None;
        }
        part_of(cat, picture, piece)
    }
}
