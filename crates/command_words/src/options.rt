// The commands and their options.
ghost use Rattle.std.specs.Prelude.{◌≡◌, ◌≤◌, map};
ghost use Rattle.command_words.specs.Options.{tool_of, shared_option_of, own_option_of, option_of, option_in};
ghost use Rattle.command_words.specs.Options.{value_count};
ghost use Rattle.command_words.specs.Gathered.{named};

/// The command that the first word names.
#[derive(Clone, Copy, PartialEq, Eq)]
pub enum Tool {
    Info,
    Locate,
    Translate,
    Build,
    Synth,
}

/// An option's name.
#[derive(Clone, Copy, PartialEq, Eq)]
pub enum OptionWord {
    Config,
    Blocks,
    Workers,
    Band,
    ValuesOnly,
    FilesOnly,
    Geoloc,
    /// `-of`
    Format,
    /// `-srcwin`
    Window,
    /// `-projwin`
    Places,
    OutSize,
    Nodata,
    /// `-ot`
    Kind,
    /// `-co`
    Creation,
    Quiet,
    /// `-epo`: the window has to lie inside the raster.
    Inside,
    /// `-eco`: the window has to touch the raster.
    Touching,
    Resolution,
    /// `-tr`
    PixelSize,
    /// `-te`
    Extent,
    /// `-srcnodata`
    SourceNodata,
    /// `-vrtnodata`
    MosaicNodata,
    Separate,
    Strict,
    Overwrite,
    /// `-input_file_list`
    InputList,
}

/// The command that a word names.
pub fn tool_of(word: &str) -> Option<Tool>
    ensures { result ≡ tool_of word.now }
{
    match word {
        _ if word == "gdalinfo" => Some(Tool::Info),
        _ if word == "gdallocationinfo" => Some(Tool::Locate),
        _ if word == "gdal_translate" => Some(Tool::Translate),
        _ if word == "gdalbuildvrt" => Some(Tool::Build),
        _ if word == "synth" => Some(Tool::Synth),
        _ => None,
    }
}

/// The options of all commands.
const SHARED: [(&str, OptionWord); 3] = [
    ("--config", OptionWord::Config),
    ("--blocks", OptionWord::Blocks),
    ("--workers", OptionWord::Workers),
];

/// Those of gdallocationinfo alone.
const LOCATE: [(&str, OptionWord); 4] = [
    ("-b", OptionWord::Band),
    ("-valonly", OptionWord::ValuesOnly),
    ("-lifonly", OptionWord::FilesOnly),
    ("-geoloc", OptionWord::Geoloc),
];

/// Those of gdal_translate alone.
const TRANSLATE: [(&str, OptionWord); 11] = [
    ("-of", OptionWord::Format),
    ("-b", OptionWord::Band),
    ("-srcwin", OptionWord::Window),
    ("-projwin", OptionWord::Places),
    ("-outsize", OptionWord::OutSize),
    ("-a_nodata", OptionWord::Nodata),
    ("-ot", OptionWord::Kind),
    ("-co", OptionWord::Creation),
    ("-q", OptionWord::Quiet),
    ("-epo", OptionWord::Inside),
    ("-eco", OptionWord::Touching),
];

/// Those of gdalbuildvrt alone.
const BUILD: [(&str, OptionWord); 11] = [
    ("-b", OptionWord::Band),
    ("-q", OptionWord::Quiet),
    ("-resolution", OptionWord::Resolution),
    ("-tr", OptionWord::PixelSize),
    ("-te", OptionWord::Extent),
    ("-srcnodata", OptionWord::SourceNodata),
    ("-vrtnodata", OptionWord::MosaicNodata),
    ("-separate", OptionWord::Separate),
    ("-strict", OptionWord::Strict),
    ("-overwrite", OptionWord::Overwrite),
    ("-input_file_list", OptionWord::InputList),
];

// The option that a table has for a word.
fn option_in(table: &[(&str, OptionWord)], word: &str) -> Option<OptionWord>
    ensures { result ≡ option_in (map named table.now) word.now }
{
    for (name, option) in table {
        if word == *name {
            return Some(*option);
        }
    }
    None
}

#[tactic(auto, unfolding(crate::specs::Options::shared_option_of))]
fn shared_option_of(word: &str) -> Option<OptionWord>
    ensures { result ≡ shared_option_of word.now }
{
    option_in(&SHARED, word)
}

#[tactic(auto, unfolding(crate::specs::Options::own_option_of))]
fn own_option_of(tool: Tool, word: &str) -> Option<OptionWord>
    ensures { result ≡ own_option_of tool word.now }
{
    match tool {
        Tool::Info | Tool::Synth => None,
        Tool::Locate => option_in(&LOCATE, word),
        Tool::Translate => option_in(&TRANSLATE, word),
        Tool::Build => option_in(&BUILD, word),
    }
}

/// The option of a command that a word names.
pub fn option_of(tool: Tool, word: &str) -> Option<OptionWord>
    ensures { result ≡ option_of tool word.now }
{
    match shared_option_of(word) {
        Some(option) => Some(option),
        None => own_option_of(tool, word),
    }
}

/// How many values an option takes.
pub fn value_count(option: OptionWord) -> usize
    ensures value { result ≡ value_count option }
    ensures kept { result ≤ 4 }
{
    match option {
        OptionWord::ValuesOnly
        | OptionWord::FilesOnly
        | OptionWord::Geoloc
        | OptionWord::Quiet
        | OptionWord::Inside
        | OptionWord::Touching
        | OptionWord::Separate
        | OptionWord::Strict
        | OptionWord::Overwrite => 0,
        OptionWord::Blocks
        | OptionWord::Workers
        | OptionWord::Band
        | OptionWord::Format
        | OptionWord::Nodata
        | OptionWord::Kind
        | OptionWord::Creation
        | OptionWord::Resolution
        | OptionWord::SourceNodata
        | OptionWord::MosaicNodata
        | OptionWord::InputList => 1,
        OptionWord::Config | OptionWord::OutSize | OptionWord::PixelSize => 2,
        OptionWord::Window | OptionWord::Places | OptionWord::Extent => 4,
    }
}
