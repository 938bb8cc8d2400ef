// What the words of a command line ask for.
use crate::numbers::BlockCount;
use buildvrt::BuildOptions;
use geotransform::BandNumber;
use input_points::Position;
use lane_teams::WorkerCount;
use lists_and_answers::Items;
use location_report::Form;
use outside::{Name, Names};
use synthetic_rasters::TileSide;
use translate_plan::TranslateOptions;

/// Numbers of bands, in the order in which the words give them.
pub type BandNumbers = Items<BandNumber>;

/// The work that a command line asks for.
#[derive(Drop)]
pub enum Job {
    /// The report of a dataset.
    Info {
        name: Name,
    },
    /// What is told of a point in the chosen bands, or in all where none is chosen. Where no point is given, the
    /// points are the lines of the input. `geoloc` says that a point is a place and not a column and a line.
    Locate {
        name: Name,
        point: Option<(Position, Position)>,
        bands: BandNumbers,
        form: Form,
        geoloc: bool,
    },
    /// A dataset as it is written to another file. `quiet` says that nothing is told of the work.
    Translate {
        src: Name,
        options: TranslateOptions,
        quiet: bool,
    },
    /// A mosaic of inputs: those of the words, then those that the lines of `list` name, where one is given. There
    /// is an input among the words, or a list. `quiet` says that nothing is told of the work.
    Build {
        inputs: Names,
        list: Option<Name>,
        options: BuildOptions,
        quiet: bool,
    },
    /// Rasters made from a number, mosaics of them and a copy, with what is told of it. `side` is the side of a tile
    /// in pixels.
    Synth {
        side: TileSide,
    },
}

/// A command line that fits.
#[derive(Drop)]
pub struct Command {
    pub job: Job,
    /// Whether the sums of records are to be checked.
    pub verify: bool,
    /// How many blocks of pixels are held at once. Nothing that is printed depends on it.
    pub blocks: BlockCount,
    /// How many workers read a translation's lines beside each other. Nothing that is printed depends on it.
    pub workers: WorkerCount,
}
