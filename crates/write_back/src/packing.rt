// Blocks of an output, packed into their bytes.
ghost use Rattle.std.specs.Prelude.{◌≡◌, ◌<◌, ◌≤◌, ◌+◌, ◌*◌, ◌^◌, ℕ, IfSome, Some, true, is_some, length, map, not};
ghost use Rattle.std.specs.List.{range_with_len, All};
ghost use Rattle.geotransform.specs.declared.types.PixelType.TheVariants.{Int16};
ghost use Rattle.esri_hdr.specs.Head.{sample_len};
ghost use Rattle.interleaved_raw.specs.Raw.{strided_at as sample_of};
ghost use Rattle.dted_records.specs.Places.{record_len};
ghost use Rattle.dted_records.specs.Records.{elevation_in};
ghost use Rattle.dted_records.specs.Written.{record_bytes};
ghost use Rattle.band_blocks.specs.Blocks.{samples_from, written};
ghost use Rattle.translate_plan.specs.declared.options.Driver.TheVariants.{Dted};
ghost use Rattle.write_back.specs.declared.forms.Writer.TheVariants.{Raw};
ghost use Rattle.write_back.specs.Columns.{is_elevation};
ghost use Rattle.write_back.specs.Forms.{cut_of, AreHeld};
ghost use Rattle.write_back.specs.Packed.{block_len, in_bytes, is_packed, IsApart, IsBlockOf, IsLined};
ghost use Rattle.write_back.specs.Pieces.{is_woven};
ghost use Rattle.write_back.specs.Spots.{plain_of};
ghost use Rattle.write_back.specs.Plans.{output_of};
ghost use Rattle.write_back.specs.View.{Blocks};

use crate::pieces::{encode_run, item_head};
use crate::writer::{is_woven, len_of_samples, line_len};
use band_blocks::Block;
use dted_records::{DtedHead, fit};
use esri_hdr::RawHead;
use geotransform::{PixelType, Sample};
use std::marker::Model;
use translate_plan::{Driver, Plan};

/// What blocks are packed for: lines of raw data of a head, lines of a tile of a side, or columns of a cell of a head.
#[derive(Drop)]
pub(crate) enum PackedForm {
    Lines(RawHead),
    Tile(u32),
    Columns(DtedHead),
}

/// How the blocks of an output are packed into its bytes, each of samples of one band: lines, or columns of a cell. It
/// may be shared by those that pack blocks beside each other. Contracts see it as what writes them.
#[derive(Drop)]
pub struct Packing {
    form: PackedForm,
}

impl Model for Packing {
    ghost use Rattle.write_back.specs.declared.forms.Writer.{Writer};
    ghost use Rattle.write_back.specs.Packed.{IsApart};
    ghost use Rattle.write_back.specs.Seen.{writer_by};

    ghost Value = { Writer };

    ghost view = { λ p. writer_by p.form };

    ghost invariant = { λ p. IsApart (writer_by p.form) };
}

// How many samples these are.
fn count_of(samples: &[Sample]) -> u32
    requires few { length samples.now < 2 ^ 32 }
    ensures count { result ≡ length samples.now }
{
    samples.len() as u32
}

// Encodes so many samples, the first ones of a block, over those of a line's bytes from a place on.
fn encode_over(head: &RawHead, block: &Block, x: u32, count: u32, bytes: &mut [u8])
    requires kind { block.now.kind ≡ head.now.kind }
    requires spots { count ≤ length block.now.samples }
    requires within { x * sample_len head.now.kind + count * sample_len head.now.kind ≤ length bytes.old }
    // bytes of n samples hold the samples of the block from there on, and elsewhere what they held
    ensures over { (n : ℕ) → length bytes.old ≡ n * sample_len head.now.kind → x + count ≤ n →
        map (sample_of (plain_of head.now) bytes.new) (range_with_len 0 n) ≡ written x
        (samples_from 0 count block.now.samples) (map (sample_of (plain_of head.now) bytes.old) (range_with_len 0 n)) }
{
    let from = len_of_samples(head, x);
    let len = len_of_samples(head, count);
    let part = &mut bytes[from..from + len];
    encode_run(head, block, 0, count, part);
}

// Encodes a column of a cell, from north to south, as its record.
fn encode_column(head: &DtedHead, x: u32, block: &Block, bytes: &mut [u8])
    requires column { x < head.now.lines }
    requires kind { block.now.kind ≡ Int16 }
    requires range { All (λ n. is_elevation n ≡ true) block.now.samples }
    requires room { length block.now.samples ≡ head.now.points }
    requires bytes { length bytes.old ≡ record_len head.now }
    ensures bytes { bytes.new ≡ record_bytes x block.now.samples }
    ensures samples { map (elevation_in head.now bytes.new) (range_with_len 0 head.now.points) ≡ block.now.samples }
{
    // This read is made for the proof: it says what holds of every head.
    let _lines = head.lines;
    block.encode_record(x, bytes);
}

impl Packing {
    // That of raw data of a head; none where the bands of a line stand pixel by pixel.
    fn of_head(head: RawHead) -> Option<Packing>
        ensures head { IfSome result (λ w. w ≡ Raw head) }
        ensures apart { IfSome result IsApart }
        ensures there { is_some result ≡ not (is_woven head.layout) }
    {
        if is_woven(head.layout) {
            return None;
        }
        Some(Packing {
            form: PackedForm::Lines(head),
        })
    }

    // That of the cell of this level that a plan's raster is.
    fn of_level(plan: &Plan, level: u32) -> Packing
        requires level { plan.now.driver ≡ Dted level }
        ensures output { output_of plan.now ≡ Some (Blocks result) }
        ensures apart { IsApart result }
    {
        plan.rules();
        let Some(geo) = &plan.geo else {
            unreachable!();
        };
        let Ok(head) = fit(plan.size, geo, level) else {
            unreachable!();
        };
        Packing {
            form: PackedForm::Columns(head),
        }
    }

    /// That of a plan's output. There is none where the plan has no output, where it is a grid, and where the bands of
    /// raw data lie pixel by pixel.
    pub fn of(plan: &Plan) -> Option<Packing>
        ensures output { IfSome result (λ w. output_of plan.now ≡ Some (Blocks w)) }
        ensures apart { IfSome result IsApart }
        ensures there { is_some result ≡ is_packed (output_of plan.now) }
    {
        plan.rules();
        match plan.driver {
            Driver::EHdr => Packing::of_head(plan.raw_head()),
            Driver::SrtmHgt => Some(Packing {
                form: PackedForm::Tile(plan.size.w),
            }),
            Driver::Dted { level } => Some(Packing::of_level(plan, level)),
            Driver::AaiGrid | Driver::Vrt => None,
        }
    }

    /// Whether the blocks are columns. Else they are lines.
    pub fn by_columns(&self) -> bool
        ensures columns { result ≡ (cut_of self.now).by_columns }
    {
        match &self.form {
            PackedForm::Lines(_) | PackedForm::Tile(_) => false,
            PackedForm::Columns(_) => true,
        }
    }

    /// The type of the samples.
    pub fn kind(&self) -> PixelType
        ensures kind { result ≡ (cut_of self.now).kind }
    {
        match &self.form {
            PackedForm::Lines(head) => head.kind,
            PackedForm::Tile(_) | PackedForm::Columns(_) => PixelType::Int16,
        }
    }

    /// How many samples a block has.
    pub fn spots(&self) -> u32
        ensures spots { result ≡ (cut_of self.now).spots }
    {
        match &self.form {
            PackedForm::Lines(head) => line_len(head),
            PackedForm::Tile(side) => *side,
            PackedForm::Columns(head) => head.points,
        }
    }

    /// How many blocks a band has.
    pub fn blocks(&self) -> u32
        ensures blocks { result ≡ (cut_of self.now).blocks }
    {
        match &self.form {
            PackedForm::Lines(head) => head.size.h,
            PackedForm::Tile(side) => *side,
            PackedForm::Columns(head) => head.lines,
        }
    }

    /// The bytes of a block.
    pub fn block_len(&self) -> usize
        ensures len { result ≡ block_len self.now }
    {
        match &self.form {
            PackedForm::Lines(head) => len_of_samples(head, line_len(head)),
            PackedForm::Tile(side) => 2 * *side as usize,
            PackedForm::Columns(head) => head.record_len(),
        }
    }

    /// Packs a whole line, whose samples the output can hold, into its bytes, through a block of its type and length.
    pub fn pack(&self, samples: &[Sample], block: &mut Block, bytes: &mut [u8])
        requires lined { IsLined self.now }
        requires kind { block.old.kind ≡ (cut_of self.now).kind }
        requires count { length block.old.samples ≡ (cut_of self.now).spots }
        requires size { length samples.now ≡ (cut_of self.now).spots }
        requires range { AreHeld self.now samples.now }
        requires bytes { length bytes.old ≡ block_len self.now }
        ensures packed { in_bytes self.now bytes.new ≡ samples.now }
        ensures kind { block.new.kind ≡ block.old.kind }
        ensures count { length block.new.samples ≡ length block.old.samples }
    {
        block.write_run(0, samples);
        match &self.form {
            PackedForm::Lines(head) => return encode_run(head, block, 0, line_len(head), bytes),
            PackedForm::Tile(_) => return block.encode_items(bytes),
            PackedForm::Columns(_) => unreachable!(),
        }
    }

    /// Packs samples of a line from a column on, which the output can hold, over those that the bytes of the whole line
    /// hold there, through a block of the line's type that has room for them. All others stay.
    pub fn pack_piece(&self, x: u32, samples: &[Sample], block: &mut Block, bytes: &mut [u8])
        requires lined { IsLined self.now }
        requires kind { block.old.kind ≡ (cut_of self.now).kind }
        requires room { length samples.now ≤ length block.old.samples }
        requires within { x + length samples.now ≤ (cut_of self.now).spots }
        requires range { AreHeld self.now samples.now }
        requires bytes { length bytes.old ≡ block_len self.now }
        ensures packed { in_bytes self.now bytes.new ≡ written x samples.now (in_bytes self.now bytes.old) }
        ensures kind { block.new.kind ≡ block.old.kind }
        ensures count { length block.new.samples ≡ length block.old.samples }
    {
        // This call is made for the proof: it says what holds of every block.
        let _len = block.len();
        let count = count_of(samples);
        block.write_run(0, samples);
        match &self.form {
            PackedForm::Lines(head) => return encode_over(head, block, x, count, bytes),
            PackedForm::Tile(_) => {
                let head = item_head();
                return encode_over(&head, block, x, count, bytes);
            }
            PackedForm::Columns(_) => unreachable!(),
        }
    }

    /// Packs a whole column, whose samples stand in a block from north to south and which the output can hold, into the
    /// bytes of its record.
    pub fn pack_column(&self, x: u32, block: &Block, bytes: &mut [u8])
        requires columns { (cut_of self.now).by_columns ≡ true }
        requires column { x < (cut_of self.now).blocks }
        requires kind { block.now.kind ≡ (cut_of self.now).kind }
        requires count { length block.now.samples ≡ (cut_of self.now).spots }
        requires range { AreHeld self.now block.now.samples }
        requires bytes { length bytes.old ≡ block_len self.now }
        ensures packed { in_bytes self.now bytes.new ≡ block.now.samples }
        ensures whole { IsBlockOf self.now x bytes.new }
    {
        match &self.form {
            PackedForm::Lines(_) => unreachable!(),
            PackedForm::Tile(_) => unreachable!(),
            PackedForm::Columns(head) => return encode_column(head, x, block, bytes),
        }
    }
}
