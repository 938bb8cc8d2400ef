// How a lane fills pictures: from blocks that it holds, loads or makes, each of which may need pictures of other
// mosaics.
ghost use Rattle.std.specs.Prelude.{◌≡◌, ⊤, ◌+◌, ◌*◌, ◌^◌, ◌<◌, ◌≤◌, Some, None, length, IfOk, OnOk, slice_get};
ghost use Rattle.catalog.specs.Drivers.{Dataset};
ghost use Rattle.catalog.specs.Places.{IsWithin};
ghost use Rattle.band_blocks.specs.Keys.{IsKey};
ghost use Rattle.nearest_window.specs.Canvases.{IsCanvas, IsSourceTaken};
ghost use Rattle.nearest_window.specs.HeldBlocks.{IsHeldWith};
ghost use Rattle.nearest_window.specs.Serving.{IsAnswered, IsFit};
ghost use Rattle.nearest_window.specs.BlockKeys.{IsPartBlock, IsMosaicKey};
ghost use Rattle.nearest_window.specs.Shown.{AreTyped, IsAreaOf, IsPictureOf, IsShown, IsTyped, IsBandOf, IsPartOf};
ghost use Rattle.nearest_window.specs.Shown.{IsSourceOf};

use crate::asking::{Asked, asked_of};
use crate::block_parts::{Part, Rows, pixel_rect};
use crate::canvas::{Canvas, is_wanted};
use crate::lane::Lane;
use crate::members::{Area, Around, Numbered, Piece, band_of, block_around, mosaic_rect};
use crate::paint::paint_rows;
use crate::picture::Picture;
use crate::picture_places::Span;
use crate::sharing::{Supply, offer_to};
use crate::taking::taking_of;
use band_blocks::{Block, BlockKey, Counter, LoadFault};
use geotransform::{Rect, Sample};
use outside::Folder;
use shared_lines::Scene;
use std::sync::ledger::Ledger;
use vrt_profile::VrtBand;

impl<F: Folder> Lane<F> {
    // Sees that the block of a key is held.
    #[cycle(read)]
    fn hold<L: Ledger, S: Scene>(
        &mut self,
        supply: &Supply<S>,
        folder: &mut F,
        key: BlockKey,
        loads: &mut Counter<L>,
    ) -> Result<(), LoadFault>
        requires fit { IsFit F.Folder S.told S.cat folder.old supply.now.cat.now self.old }
        requires key { IsKey supply.now.cat.now key }
        ensures answered { IsAnswered F.Folder supply.now.cat.now result folder.old self.old loads.old folder.new
            self.new loads.new }
        ensures held { OnOk result (IsHeldWith key self.new (λ _. ⊤)) }
    {
        if self.finds(supply, folder, key) {
            return Ok(());
        }
        match band_of(supply.cat, key) {
            None => return self.load_kept(supply, folder, key, loads),
            Some(band) => {
                let rect = mosaic_rect(supply.cat, key);
                let block = self.fill(supply, folder, key, band, rect, loads)?;
                offer_to(supply, key, &block);
                return self.keep_made(key, block);
            }
        }
    }

    // The samples of a part of a mosaic's block. Those of single pixels are remembered.
    #[cycle(read)]
    fn part_block<L: Ledger, S: Scene>(
        &mut self,
        supply: &Supply<S>,
        folder: &mut F,
        key: BlockKey,
        part: Part,
        loads: &mut Counter<L>,
    ) -> Result<Block, LoadFault>
        requires fit { IsFit F.Folder S.told S.cat folder.old supply.now.cat.now self.old }
        requires key { IsMosaicKey supply.now.cat.now key part.band.now }
        requires sources { length part.band.now.sources < 2 ^ 32 }
        requires within { (d : Dataset) → slice_get supply.now.cat.now key.dataset ≡ Some d →
            IsWithin part.rect d.head.size }
        requires few { part.rect.w * part.rect.h < 2 ^ 32 }
        ensures answered { IsAnswered F.Folder supply.now.cat.now result folder.old self.old loads.old folder.new
            self.new loads.new }
        ensures block { IfOk result (λ b. IsPartBlock (F.names folder.new) supply.now.cat.now key part.entry.rect b) }
    {
        if let Some(block) = self.recall(supply.alloc, supply.cat, key, part.rect) {
            return Ok(block);
        }
        let block = self.fill(supply, folder, key, part.band, part.rect, loads)?;
        self.note(key, part.rect, &block);
        Ok(block)
    }

    // The samples of a rectangle of a mosaic's band: from the last to the first each source that the rectangle may
    // need is asked for what is still open, until nothing is.
    #[cycle(read)]
    fn fill<L: Ledger, S: Scene>(
        &mut self,
        supply: &Supply<S>,
        folder: &mut F,
        key: BlockKey,
        band: &VrtBand,
        rect: Rect,
        loads: &mut Counter<L>,
    ) -> Result<Block, LoadFault>
        requires fit { IsFit F.Folder S.told S.cat folder.old supply.now.cat.now self.old }
        requires key { IsMosaicKey supply.now.cat.now key band.now }
        requires sources { length band.now.sources < 2 ^ 32 }
        requires within { (d : Dataset) → slice_get supply.now.cat.now key.dataset ≡ Some d →
            IsWithin rect d.head.size }
        requires few { rect.w * rect.h < 2 ^ 32 }
        ensures answered { IsAnswered F.Folder supply.now.cat.now result folder.old self.old loads.old folder.new
            self.new loads.new }
        ensures block { IfOk result (λ b. IsPartBlock (F.names folder.new) supply.now.cat.now key rect b) }
    {
        // This call is made for the proof: it says what holds of every catalog.
        let _count = supply.cat.count();
        band.rules();
        self.spend(rect);
        let wanted = self.wanted(supply.alloc, supply.cat, key, band, rect)?;
        let mut canvas = Canvas::of(supply.alloc, rect, band.kind);
        let mut left = wanted.len();
        while is_wanted(left, &canvas) {
            left -= 1;
            let number = wanted.at(left);
            let source = band.sources.get(number);
            let numbered = Numbered {
                key,
                number: number as u32,
                source,
            };
            self.paint(supply, folder, numbered, &mut canvas, loads)?;
        }
        let block = canvas.packed(supply.alloc, band.nodata.unwrap_or(0))?;
        // This call is made for the proof: it says what holds of every block.
        let _len = block.len();
        Ok(block)
    }

    // Takes what a source of a mosaic's band gives where a canvas is open.
    #[cycle(read)]
    fn paint<L: Ledger, S: Scene>(
        &mut self,
        supply: &Supply<S>,
        folder: &mut F,
        source: Numbered,
        canvas: &mut Canvas,
        loads: &mut Counter<L>,
    ) -> Result<(), LoadFault>
        requires fit { IsFit F.Folder S.told S.cat folder.old supply.now.cat.now self.old }
        requires source { IsSourceOf supply.now.cat.now source.key source.number source.source.now }
        requires within { (d : Dataset) → slice_get supply.now.cat.now source.key.dataset ≡ Some d →
            IsWithin canvas.old.rect d.head.size }
        requires canvas { IsCanvas canvas.old }
        ensures answered { IsAnswered F.Folder supply.now.cat.now result folder.old self.old loads.old folder.new
            self.new loads.new }
        ensures canvas { OnOk result (IsCanvas canvas.new) }
        ensures taken { (d : Dataset) → slice_get supply.now.cat.now source.entry.key.dataset ≡ Some d →
            OnOk result (IsSourceTaken (F.names folder.new) supply.now.cat.now d source.entry.source.now canvas.old
            canvas.new) }
    {
        let Some(asked) = asked_of(supply.alloc, supply.cat, source, canvas)? else {
            return Ok(());
        };
        let Asked {
            picture,
            part,
            mut pixels,
        } = asked;
        self.paint_picture(supply, folder, &picture, pixels.as_mut_slice(), loads)?;
        drop(picture);
        let taking = taking_of(source.source);
        canvas.take(supply.alloc, &taking, part, pixels)?;
        Ok(())
    }

    // Paints a picture over its rows, one row of blocks after the other, or fewer lines at a time.
    #[cycle(read)]
    fn paint_picture<L: Ledger, S: Scene>(
        &mut self,
        supply: &Supply<S>,
        folder: &mut F,
        picture: &Picture,
        out: &mut [Sample],
        loads: &mut Counter<L>,
    ) -> Result<(), LoadFault>
        requires fit { IsFit F.Folder S.told S.cat folder.old supply.now.cat.now self.old }
        requires picture { IsPictureOf supply.now.cat.now picture.now }
        requires rows { length out.old ≡ picture.now.height * picture.now.stride }
        ensures answered { IsAnswered F.Folder supply.now.cat.now result folder.old self.old loads.old folder.new
            self.new loads.new }
        ensures painted { OnOk result (IsShown (F.names folder.new) supply.now.cat.now picture.now 0 picture.now.width 0
            out.old out.new) }
        ensures typed { OnOk result (AreTyped supply.now.cat.now picture.now (picture.now.height * picture.now.stride)
            out.new) }
    {
        let mut line = 0;
        while line < picture.height {
            let rect = block_around(supply.cat, picture, 0, line).rect;
            let last = picture
                .lines
                .run_end(line, picture.height, rect.y, rect.y + rect.h);
            let end = self.end_of(supply.cat, picture, line, last);
            let lines = Span {
                first: line,
                count: end - line,
            };
            let from = line as usize * picture.stride;
            let part = &mut out[from..end as usize * picture.stride];
            self.paint_band(supply, folder, picture, lines, part, loads)?;
            line = end;
        }
        Ok(())
    }

    // Paints lines of a picture that lie in one row of blocks, all columns at a time or one block after the other.
    #[cycle(read)]
    fn paint_band<L: Ledger, S: Scene>(
        &mut self,
        supply: &Supply<S>,
        folder: &mut F,
        picture: &Picture,
        lines: Span,
        out: &mut [Sample],
        loads: &mut Counter<L>,
    ) -> Result<(), LoadFault>
        requires fit { IsFit F.Folder S.told S.cat folder.old supply.now.cat.now self.old }
        requires picture { IsPictureOf supply.now.cat.now picture.now }
        requires lines { lines.first + lines.count ≤ picture.now.height }
        requires some { 0 < lines.count }
        requires band { IsBandOf supply.now.cat.now picture.now lines.first lines.count }
        requires rows { length out.old ≡ lines.count * picture.now.stride }
        ensures answered { IsAnswered F.Folder supply.now.cat.now result folder.old self.old loads.old folder.new
            self.new loads.new }
        ensures painted { OnOk result (IsShown (F.names folder.new) supply.now.cat.now picture.now 0 picture.now.width
            lines.first out.old out.new) }
        ensures typed { OnOk result (IsTyped supply.now.cat.now picture.now 0 picture.now.width out.old out.new) }
    {
        if let Some(rows) = self.wide_rows(supply.cat, picture, lines) {
            let Rows { band, piece } = rows;
            let Piece { key, rect, area } = piece;
            let block = self.fill(supply, folder, key, band, rect, loads)?;
            paint_rows(&block, rect, picture, area, out);
            drop(block);
            return Ok(());
        }
        self.paint_pieces(supply, folder, picture, lines, out, loads)
    }

    // Paints lines of a picture that lie in one row of blocks, one block after the other.
    #[cycle(read)]
    fn paint_pieces<L: Ledger, S: Scene>(
        &mut self,
        supply: &Supply<S>,
        folder: &mut F,
        picture: &Picture,
        lines: Span,
        out: &mut [Sample],
        loads: &mut Counter<L>,
    ) -> Result<(), LoadFault>
        requires fit { IsFit F.Folder S.told S.cat folder.old supply.now.cat.now self.old }
        requires picture { IsPictureOf supply.now.cat.now picture.now }
        requires lines { lines.first + lines.count ≤ picture.now.height }
        requires some { 0 < lines.count }
        requires band { IsBandOf supply.now.cat.now picture.now lines.first lines.count }
        requires rows { length out.old ≡ lines.count * picture.now.stride }
        ensures answered { IsAnswered F.Folder supply.now.cat.now result folder.old self.old loads.old folder.new
            self.new loads.new }
        ensures painted { OnOk result (IsShown (F.names folder.new) supply.now.cat.now picture.now 0 picture.now.width
            lines.first out.old out.new) }
        ensures typed { OnOk result (IsTyped supply.now.cat.now picture.now 0 picture.now.width out.old out.new) }
    {
        let mut column = 0;
        while column < picture.width {
            let Around { key, rect } = block_around(supply.cat, picture, column, lines.first);
            let end = picture
                .columns
                .run_end(column, picture.width, rect.x, rect.x + rect.w);
            let area = Area {
                column,
                columns: end - column,
                line: lines.first,
                lines: lines.count,
            };
            let piece = Piece { key, rect, area };
            self.paint_block(supply, folder, picture, piece, out, loads)?;
            column = end;
        }
        Ok(())
    }

    // Paints a piece of a picture.
    #[cycle(read)]
    fn paint_block<L: Ledger, S: Scene>(
        &mut self,
        supply: &Supply<S>,
        folder: &mut F,
        picture: &Picture,
        piece: Piece,
        out: &mut [Sample],
        loads: &mut Counter<L>,
    ) -> Result<(), LoadFault>
        requires fit { IsFit F.Folder S.told S.cat folder.old supply.now.cat.now self.old }
        requires picture { IsPictureOf supply.now.cat.now picture.now }
        requires piece { IsPartOf supply.now.cat.now picture.now piece }
        requires area { IsAreaOf picture.now piece.area }
        requires rows { length out.old ≡ piece.area.lines * picture.now.stride }
        ensures answered { IsAnswered F.Folder supply.now.cat.now result folder.old self.old loads.old folder.new
            self.new loads.new }
        ensures painted { OnOk result (IsShown (F.names folder.new) supply.now.cat.now picture.now piece.area.column
            piece.area.columns piece.area.line out.old out.new) }
        ensures typed { OnOk result (IsTyped supply.now.cat.now picture.now piece.area.column piece.area.columns out.old
            out.new) }
    {
        if let Some(part) = self.lone_part(supply.cat, picture, piece) {
            let block = self.part_block(supply, folder, piece.key, part, loads)?;
            paint_rows(&block, part.rect, picture, piece.area, out);
            drop(block);
            return Ok(());
        }
        if self.is_jump(supply.cat, picture, piece) {
            let rect = pixel_rect(picture, piece.area);
            let block = self.load_alone(supply.alloc, supply.cat, folder, piece.key, rect, loads)?;
            paint_rows(&block, rect, picture, piece.area, out);
            drop(block);
            return Ok(());
        }
        self.hold(supply, folder, piece.key, loads)?;
        self.paint_held(picture, piece, out);
        Ok(())
    }

    // Paints the picture of a window, as `paint_picture`, in a new count of pixels.
    pub(crate) fn paint_window<L: Ledger, S: Scene>(
        &mut self,
        supply: &Supply<S>,
        folder: &mut F,
        picture: &Picture,
        out: &mut [Sample],
        loads: &mut Counter<L>,
    ) -> Result<(), LoadFault>
        requires fit { IsFit F.Folder S.told S.cat folder.old supply.now.cat.now self.old }
        requires picture { IsPictureOf supply.now.cat.now picture.now }
        requires rows { length out.old ≡ picture.now.height * picture.now.stride }
        ensures answered { IsAnswered F.Folder supply.now.cat.now result folder.old self.old loads.old folder.new
            self.new loads.new }
        ensures painted { OnOk result (IsShown (F.names folder.new) supply.now.cat.now picture.now 0 picture.now.width 0
            out.old out.new) }
        ensures typed { OnOk result (AreTyped supply.now.cat.now picture.now (picture.now.height * picture.now.stride)
            out.new) }
    {
        self.begin(supply.cat, out.len());
        self.paint_picture(supply, folder, picture, out, loads)
    }
}
