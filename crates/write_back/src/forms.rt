// What differs between the outputs that are written through a pool of blocks.
ghost use Rattle.std.specs.Prelude.{◌≡◌, ◌<◌, ◌≤◌, ◌+◌, ◌*◌, ◌^◌, ℕ, List, length, Some, OnOk};
ghost use Rattle.outside.specs.Causes.{HasCause};
ghost use Rattle.write_back.specs.Forms.{band_total, cut_of, line_total, holds, most_calls, needed_of, column_total};
ghost use Rattle.write_back.specs.Forms.{IsFormed};
ghost use Rattle.write_back.specs.Spots.{band_places_of, most_spots};
ghost use Rattle.write_back.specs.Overlay.{held_in, line_key, IsLine};
ghost use Rattle.write_back.specs.Packed.{block_len, in_bytes, IsBlockOf};
ghost use Rattle.write_back.specs.Stores.{IsBlockWritten};

use crate::TargetFault;
use crate::cells::ColumnWriter;
use crate::tiles::TileWriter;
use crate::writer::{BandPlaces, LineWriter, is_woven, line_bands, line_len};
use band_blocks::Block;
use geotransform::{PixelType, Sample, Size, holds};
use outside::Folder;

/// How a raster is cut into blocks: lines of a band, columns, or lines of all bands, which then stand pixel by pixel
/// and are the blocks of one band.
#[derive(Clone, Copy)]
pub(crate) struct Shape {
    pub(crate) kind: PixelType,
    pub(crate) bands: u32,
    pub(crate) spots: u32,
    pub(crate) blocks: u32,
    pub(crate) by_columns: bool,
    pub(crate) woven: bool,
}

/// What writes and reads the blocks of an output.
#[derive(Drop)]
pub(crate) enum Writer {
    /// Raw data, a line of a band a block, or a line of all bands where they lie pixel by pixel.
    Raw(LineWriter),
    /// A tile, a line a block.
    Hgt(TileWriter),
    /// A cell, a column a block.
    Dted(ColumnWriter),
}

impl Writer {
    // How the raster is cut.
    pub(crate) fn shape(&self) -> Shape
        ensures shape { result ≡ cut_of self.now }
        ensures spots { result.spots ≤ most_spots }
        ensures blocks { result.blocks < 2 ^ 32 }
    {
        match self {
            Writer::Raw(lines) => {
                let head = lines.head();
                Shape {
                    kind: head.kind,
                    bands: line_bands(&head),
                    spots: line_len(&head),
                    blocks: head.size.h,
                    by_columns: false,
                    woven: is_woven(head.layout),
                }
            }
            Writer::Hgt(tile) => {
                let side = tile.side();
                Shape {
                    kind: PixelType::Int16,
                    bands: 1,
                    spots: side,
                    blocks: side,
                    by_columns: false,
                    woven: false,
                }
            }
            Writer::Dted(cell) => {
                let head = cell.head();
                Shape {
                    kind: PixelType::Int16,
                    bands: 1,
                    spots: head.points,
                    blocks: head.lines,
                    by_columns: true,
                    woven: false,
                }
            }
        }
    }

    // The number of bands.
    pub(crate) fn bands(&self) -> u32
        ensures bands { result ≡ band_total self.now }
    {
        match self {
            Writer::Raw(lines) => lines.head().bands,
            Writer::Hgt(_) | Writer::Dted(_) => 1,
        }
    }

    // Where the pixels of a band from a column on stand in the block of a line.
    pub(crate) fn band_places(&self, band: u32, x: u32) -> BandPlaces
        requires band { band < band_total self.now }
        requires column { x < column_total self.now }
        ensures places { result ≡ band_places_of self.now band x }
    {
        match self {
            Writer::Raw(lines) => lines.band_places(band, x),
            Writer::Hgt(_) | Writer::Dted(_) => BandPlaces {
                band,
                start: x,
                stride: 1,
            },
        }
    }

    // The columns and the lines.
    pub(crate) fn size(&self) -> Size
        ensures columns { result.w ≡ column_total self.now }
        ensures rows { result.h ≡ line_total self.now }
    {
        match self {
            Writer::Raw(lines) => lines.head().size,
            Writer::Hgt(tile) => Size {
                w: tile.side(),
                h: tile.side(),
            },
            Writer::Dted(cell) => Size {
                w: cell.head().lines,
                h: cell.head().points,
            },
        }
    }

    // Whether a sample can be written.
    pub(crate) fn holds(&self, n: Sample) -> bool
        ensures holds { result ≡ holds self.now n }
    {
        match self {
            Writer::Raw(lines) => holds(lines.head().kind, n),
            Writer::Hgt(_) => holds(PixelType::Int16, n),
            Writer::Dted(_) => holds(PixelType::Int16, n) && n >= -32_767,
        }
    }

    // Writes a block into the draft.
    pub(crate) fn write_block<F: Folder>(
        &mut self,
        folder: &mut F,
        draft: &mut F::Draft,
        band: u32,
        block: u32,
        from: &Block,
    ) -> Result<(), TargetFault>
        requires line { IsLine self.old (line_key band block) from.now }
        requires long { F.draft_len draft.old ≡ needed_of self.old }
        ensures same { self.new ≡ self.old }
        ensures told { OnOk result ((b : List ℕ) → F.draft_bytes draft.old ≡ Some b → length b ≡ needed_of self.old →
            IsFormed self.old b → (c : List ℕ) × (F.draft_bytes draft.new ≡ Some c) ×
            IsBlockWritten self.old (line_key band block) from.now.samples b c) }
        ensures len { OnOk result (F.draft_len draft.new ≡ F.draft_len draft.old) }
        ensures name { F.draft_name draft.new ≡ F.draft_name draft.old }
        ensures names { F.names folder.new ≡ F.names folder.old }
        ensures reads { F.read_calls folder.new ≡ F.read_calls folder.old }
        ensures calls { F.write_calls folder.new ≤ F.write_calls folder.old + most_calls self.old }
        ensures cause { HasCause TargetFault.FolderFault (F.faults folder.old) (F.faults folder.new) result }
    {
        match self {
            Writer::Raw(lines) => lines.write_line(folder, draft, band, block, from),
            Writer::Hgt(tile) => tile.write_line(folder, draft, block, from),
            Writer::Dted(cell) => cell.write_column(folder, draft, block, from),
        }
    }

    // Puts a block into the draft, whose bytes these are.
    pub(crate) fn put_block<F: Folder>(
        &self,
        folder: &mut F,
        draft: &mut F::Draft,
        band: u32,
        block: u32,
        bytes: &[u8],
    ) -> Result<(), TargetFault>
        requires band { band < (cut_of self.now).bands }
        requires block { block < (cut_of self.now).blocks }
        requires bytes { length bytes.now ≡ block_len self.now }
        requires whole { IsBlockOf self.now block bytes.now }
        requires long { F.draft_len draft.old ≡ needed_of self.now }
        ensures told { OnOk result ((b : List ℕ) → F.draft_bytes draft.old ≡ Some b → length b ≡ needed_of self.now →
            IsFormed self.now b → (c : List ℕ) × (F.draft_bytes draft.new ≡ Some c) ×
            IsBlockWritten self.now (line_key band block) (in_bytes self.now bytes.now) b c) }
        ensures len { OnOk result (F.draft_len draft.new ≡ F.draft_len draft.old) }
        ensures name { F.draft_name draft.new ≡ F.draft_name draft.old }
        ensures names { F.names folder.new ≡ F.names folder.old }
        ensures reads { F.read_calls folder.new ≡ F.read_calls folder.old }
        ensures calls { F.write_calls folder.new ≤ F.write_calls folder.old + most_calls self.now }
        ensures cause { HasCause TargetFault.FolderFault (F.faults folder.old) (F.faults folder.new) result }
    {
        match self {
            Writer::Raw(lines) => lines.put_line(folder, draft, band, block, bytes),
            Writer::Hgt(tile) => tile.put_row(folder, draft, block, bytes),
            Writer::Dted(cell) => cell.put_column(folder, draft, block, bytes),
        }
    }

    // Reads a block from the draft.
    pub(crate) fn read_block<F: Folder>(
        &mut self,
        folder: &mut F,
        draft: &mut F::Draft,
        band: u32,
        block: u32,
        into: &mut Block,
    ) -> Result<(), TargetFault>
        requires band { band < (cut_of self.old).bands }
        requires block { block < (cut_of self.old).blocks }
        requires long { F.draft_len draft.old ≡ needed_of self.old }
        requires kind { into.old.kind ≡ (cut_of self.old).kind }
        requires room { length into.old.samples ≡ (cut_of self.old).spots }
        ensures same { self.new ≡ self.old }
        ensures told { OnOk result ((b : List ℕ) → F.draft_bytes draft.old ≡ Some b → length b ≡ needed_of self.old →
            into.new.samples ≡ held_in self.old b band block) }
        ensures line { OnOk result (IsLine self.old (line_key band block) into.new) }
        ensures bytes { F.draft_bytes draft.new ≡ F.draft_bytes draft.old }
        ensures len { F.draft_len draft.new ≡ F.draft_len draft.old }
        ensures name { F.draft_name draft.new ≡ F.draft_name draft.old }
        ensures names { F.names folder.new ≡ F.names folder.old }
        ensures reads { F.read_calls folder.new ≡ F.read_calls folder.old }
        ensures calls { F.write_calls folder.new ≡ F.write_calls folder.old }
        ensures cause { HasCause TargetFault.FolderFault (F.faults folder.old) (F.faults folder.new) result }
    {
        match self {
            Writer::Raw(lines) => lines.read_line(folder, draft, band, block, into),
            Writer::Hgt(tile) => tile.read_line(folder, draft, block, into),
            Writer::Dted(cell) => cell.read_column(folder, draft, block, into),
        }
    }
}
