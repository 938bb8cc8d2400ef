// What the words of a command line say.
ghost use Rattle.std.specs.Prelude.{◌≡◌};
ghost use Rattle.command_words.specs.declared.spoken.WordFault.TheVariants as word_fault;

use crate::command::BandNumbers;
use crate::numbers::{AskedExtent, AskedNodata, AskedResolution, AskedView, BlockCount, Side};
use esri_hdr::Layout;
use geotransform::{BandNumber, PixelType};
use input_points::Position;
use lane_teams::WorkerCount;
use outside::{Name, Names};
use std::alloc::AllocError;
use synthetic_rasters::TileSide;

/// A format that an output may be asked to have.
#[derive(Clone, Copy, PartialEq, Eq)]
pub enum OutFormat {
    EHdr,
    Dted,
    SrtmHgt,
    AaiGrid,
    Vrt,
}

/// What `-resolution` names.
#[derive(Clone, Copy, PartialEq, Eq)]
pub enum ResolutionWord {
    Highest,
    Lowest,
    Average,
    /// The sizes of a pixel that `-tr` gives.
    User,
}

/// Where a word stands: its number, and how many words there are.
#[derive(Clone, Copy, PartialEq, Eq)]
pub struct WordPlace {
    pub at: u64,
    pub count: u64,
}

/// What one option of gdalbuildvrt alone says by its values.
#[derive(Clone, Copy)]
pub enum MosaicSaid {
    Resolution(ResolutionWord),
    PixelSize(AskedResolution),
    Extent(AskedExtent),
    /// The NODATA of the inputs.
    SourceNodata(AskedNodata),
    /// The NODATA of the mosaic.
    Nodata(AskedNodata),
    Separate,
    Strict,
}

/// What one option says by its values, or one positional word.
#[derive(Drop)]
pub enum Said {
    /// A setting without effect.
    Setting,
    /// Whether the sums of records are to be checked.
    Verification(bool),
    Blocks(BlockCount),
    Workers(WorkerCount),
    Band(BandNumber),
    ValuesOnly,
    FilesOnly,
    Geoloc,
    Format(OutFormat),
    Window(AskedView),
    Places(AskedView),
    OutSize(Side, Side),
    Nodata(AskedNodata),
    Kind(PixelType),
    Interleave(Layout),
    Quiet,
    Inside,
    Touching,
    Mosaic(MosaicSaid),
    /// The file whose lines name inputs.
    List(Name),
    Source(Name),
    Output(Name),
    Input(Name),
    X(Position),
    Y(Position),
    /// The side of a tile.
    Tile(TileSide),
}

/// What is wanted of a translation: the last of each option, some with the number of its word.
#[derive(Clone, Copy)]
pub struct Wanted {
    pub format: Option<OutFormat>,
    pub window: Option<(u64, AskedView)>,
    pub places: Option<(u64, AskedView)>,
    pub outsize: Option<(Side, Side)>,
    pub nodata: AskedNodata,
    pub kind: Option<PixelType>,
    pub interleave: Option<(u64, Layout)>,
    pub inside: bool,
    pub touching: bool,
}

/// What is wanted of a mosaic: the last of each option, some with the number of its word.
#[derive(Clone, Copy)]
pub struct MosaicWanted {
    pub resolution: Option<(u64, ResolutionWord)>,
    pub pixel_size: Option<(u64, AskedResolution)>,
    pub extent: Option<AskedExtent>,
    pub src_nodata: AskedNodata,
    pub vrt_nodata: AskedNodata,
    pub separate: Option<u64>,
    pub strict: bool,
}

/// What all words behind the first say: the last of each option, some with the number of its word.
#[derive(Drop)]
pub struct Spoken {
    pub verify: bool,
    pub blocks: BlockCount,
    pub workers: WorkerCount,
    pub bands: BandNumbers,
    /// The number of the word that chose the last band.
    pub band_at: Option<u64>,
    pub values_only: Option<u64>,
    pub files_only: Option<u64>,
    pub geoloc: bool,
    pub quiet: bool,
    pub wanted: Wanted,
    pub mosaic: MosaicWanted,
    pub list: Option<Name>,
    pub inputs: Names,
    pub source: Option<Name>,
    pub output: Option<(u64, Name)>,
    pub x: Option<Position>,
    pub y: Option<Position>,
    pub tile: Option<TileSide>,
}

/// Why words are no command.
#[derive(Clone, Copy, Debug, PartialEq, Eq)]
pub enum WordFault {
    /// The word with this number, counted from 0, doesn't fit; the number of words where one is missing.
    Usage { word: u64 },
    /// Want of memory.
    Memory,
}

impl From<AllocError> for WordFault {
    ghost from_gives = { λ _ f. f ≡ word_fault.Memory };

    fn from(_: AllocError) -> Self {
        WordFault::Memory
    }
}
