// The uses of options and positional words, and what they say.
ghost use Rattle.std.specs.Prelude.{◌≡◌, ◌+◌, ◌-◌, ◌<◌, ◌≤◌, ◌^◌, ℕ, [], length, map, take, drop, string_bytes, ok_or};
ghost use Rattle.std.specs.Prelude.{Ok};
ghost use Rattle.lists_and_answers.specs.Answers.{Gives};
ghost use Rattle.command_words.specs.Options.{option_of};
ghost use Rattle.command_words.specs.Uses.{may_be_negative, is_positional, source_said, output_said, input_said};
ghost use Rattle.command_words.specs.Uses.{x_said, y_said, tile_said, positional_of, placed_said, said_by};
ghost use Rattle.command_words.specs.Uses.{values_behind};
ghost use Rattle.command_words.specs.Uses.{behind_use, wanted_of, mosaic_of, spoken_of, spoken_in};
ghost use Rattle.command_words.specs.Gathered.{with_mosaic, with_said};
ghost use Rattle.command_words.specs.Words.{IsMemory};
ghost use Rattle.command_words.specs.declared.spoken.Said.TheVariants as said;

use crate::command::BandNumbers;
use crate::numbers::{AskedNodata, BlockCount};
use crate::options::{OptionWord, Tool, option_of, value_count};
use crate::said::option_said;
use crate::spoken::{MosaicSaid, MosaicWanted, Said, Spoken, Wanted, WordFault, WordPlace};
use crate::values::{begins_with_dash, read_name, tile_side_of};
use catalog::NodataWord;
use geotransform::{BandNumber, is_decimal};
use input_points::Position;
use lane_teams::WorkerCount;
use outside::{Name, Names};
use std::alloc::Global;

fn may_be_negative(tool: Tool, word: &[u8]) -> bool
    ensures { result ≡ may_be_negative tool word.now }
{
    match tool {
        Tool::Info | Tool::Translate | Tool::Build | Tool::Synth => false,
        Tool::Locate => is_decimal(word),
    }
}

fn is_positional(tool: Tool, word: &[u8]) -> bool
    ensures { result ≡ is_positional tool word.now }
{
    !begins_with_dash(word) || may_be_negative(tool, word)
}

fn source_said(alloc: Global, at: u64, word: &str) -> Result<Said, WordFault>
    ensures { Gives IsMemory (λ s. s) result (ok_or (source_said word.now) (WordFault.Usage at)) }
{
    match read_name(alloc, at, word) {
        Ok(name) => Ok(Said::Source(name)),
        Err(fault) => Err(fault),
    }
}

fn output_said(alloc: Global, at: u64, word: &str) -> Result<Said, WordFault>
    ensures { Gives IsMemory (λ s. s) result (ok_or (output_said word.now) (WordFault.Usage at)) }
{
    match read_name(alloc, at, word) {
        Ok(name) => Ok(Said::Output(name)),
        Err(fault) => Err(fault),
    }
}

fn input_said(alloc: Global, at: u64, word: &str) -> Result<Said, WordFault>
    ensures { Gives IsMemory (λ s. s) result (ok_or (input_said word.now) (WordFault.Usage at)) }
{
    match read_name(alloc, at, word) {
        Ok(name) => Ok(Said::Input(name)),
        Err(fault) => Err(fault),
    }
}

fn x_said(at: u64, word: &str) -> Result<Said, WordFault>
    ensures { result ≡ ok_or (x_said word.now) (WordFault.Usage at) }
{
    match Position::read(word.as_bytes()) {
        Some(x) => Ok(Said::X(x)),
        None => Err(WordFault::Usage { word: at }),
    }
}

fn y_said(at: u64, word: &str) -> Result<Said, WordFault>
    ensures { result ≡ ok_or (y_said word.now) (WordFault.Usage at) }
{
    match Position::read(word.as_bytes()) {
        Some(y) => Ok(Said::Y(y)),
        None => Err(WordFault::Usage { word: at }),
    }
}

fn tile_said(at: u64, word: &str) -> Result<Said, WordFault>
    ensures { result ≡ ok_or (tile_said word.now) (WordFault.Usage at) }
{
    match tile_side_of(word.as_bytes()) {
        Some(n) => Ok(Said::Tile(n)),
        None => Err(WordFault::Usage { word: at }),
    }
}

// A positional word behind so many others.
fn positional_of(
    alloc: Global,
    tool: Tool,
    before: u64,
    at: u64,
    word: &str,
) -> Result<Said, WordFault>
    ensures { Gives IsMemory (λ s. s) result (ok_or (positional_of tool before word.now) (WordFault.Usage at)) }
{
    match tool {
        Tool::Build if before == 0 => output_said(alloc, at, word),
        Tool::Build => input_said(alloc, at, word),
        Tool::Synth if before == 0 => tile_said(at, word),
        Tool::Info | Tool::Locate | Tool::Translate if before == 0 => source_said(alloc, at, word),
        Tool::Locate if before == 1 => x_said(at, word),
        Tool::Locate if before == 2 => y_said(at, word),
        Tool::Translate if before == 1 => output_said(alloc, at, word),
        Tool::Info | Tool::Locate | Tool::Translate | Tool::Synth => {
            Err(WordFault::Usage { word: at })
        }
    }
}

#[tactic(auto, unfolding(crate::specs::Uses::placed_said))]
fn placed_said(
    alloc: Global,
    tool: Tool,
    before: u64,
    at: u64,
    word: &str,
) -> Result<Said, WordFault>
    ensures { Gives IsMemory (λ s. s) result (placed_said tool before at word.now) }
{
    if is_positional(tool, word.as_bytes()) {
        positional_of(alloc, tool, before, at, word)
    } else {
        Err(WordFault::Usage { word: at })
    }
}

// What is wanted of a mosaic with one use more.
fn with_mosaic(at: u64, said: MosaicSaid, mut wanted: MosaicWanted) -> MosaicWanted
    ensures { result ≡ with_mosaic at said wanted }
{
    match said {
        MosaicSaid::Resolution(word) => wanted.resolution = Some((at, word)),
        MosaicSaid::PixelSize(size) => wanted.pixel_size = Some((at, size)),
        MosaicSaid::Extent(extent) => wanted.extent = Some(extent),
        MosaicSaid::SourceNodata(word) => wanted.src_nodata = word,
        MosaicSaid::Nodata(word) => wanted.vrt_nodata = word,
        MosaicSaid::Separate => wanted.separate = Some(at),
        MosaicSaid::Strict => wanted.strict = true,
    }
    wanted
}

// What is said in all with one more band.
fn with_band(at: u64, band: BandNumber, mut all: Spoken) -> Result<Spoken, WordFault>
    ensures { Gives IsMemory (λ s. s) result (Ok (with_said at (said.Band band) all)) }
{
    match all.bands.push(band) {
        Ok(()) => {
            all.band_at = Some(at);
            Ok(all)
        }
        Err(_) => {
            drop(all);
            Err(WordFault::Memory)
        }
    }
}

// What is said in all with one more input.
fn with_input(name: Name, mut all: Spoken) -> Result<Spoken, WordFault>
    ensures { (at : ℕ) → Gives IsMemory (λ s. s) result (Ok (with_said at (said.Input name) all)) }
{
    match all.inputs.push(name) {
        Ok(()) => Ok(all),
        Err(_) => {
            drop(all);
            Err(WordFault::Memory)
        }
    }
}

// What is said in all with one use more.
fn with_said(at: u64, said: Said, mut all: Spoken) -> Result<Spoken, WordFault>
    ensures { Gives IsMemory (λ s. s) result (Ok (with_said at said all)) }
{
    match said {
        Said::Setting => {}
        Said::Verification(on) => all.verify = on,
        Said::Blocks(blocks) => all.blocks = blocks,
        Said::Workers(workers) => all.workers = workers,
        Said::Band(band) => return with_band(at, band, all),
        Said::ValuesOnly => all.values_only = Some(at),
        Said::FilesOnly => all.files_only = Some(at),
        Said::Geoloc => all.geoloc = true,
        Said::Format(format) => all.wanted.format = Some(format),
        Said::Window(view) => all.wanted.window = Some((at, view)),
        Said::Places(view) => all.wanted.places = Some((at, view)),
        Said::OutSize(w, h) => all.wanted.outsize = Some((w, h)),
        Said::Nodata(word) => all.wanted.nodata = word,
        Said::Kind(kind) => all.wanted.kind = Some(kind),
        Said::Interleave(layout) => all.wanted.interleave = Some((at, layout)),
        Said::Quiet => all.quiet = true,
        Said::Inside => all.wanted.inside = true,
        Said::Touching => all.wanted.touching = true,
        Said::Mosaic(said) => all.mosaic = with_mosaic(at, said, all.mosaic),
        Said::List(name) => all.list = Some(name),
        Said::Source(name) => all.source = Some(name),
        Said::Output(name) => all.output = Some((at, name)),
        Said::Input(name) => return with_input(name, all),
        Said::X(x) => all.x = Some(x),
        Said::Y(y) => all.y = Some(y),
        Said::Tile(n) => all.tile = Some(n),
    }
    Ok(all)
}

fn nothing_wanted() -> Wanted
    ensures { result ≡ wanted_of [] }
{
    Wanted {
        format: None,
        window: None,
        places: None,
        outsize: None,
        nodata: AskedNodata::of(NodataWord::Absent),
        kind: None,
        interleave: None,
        inside: false,
        touching: false,
    }
}

fn no_mosaic_wanted() -> MosaicWanted
    ensures { result ≡ mosaic_of [] }
{
    MosaicWanted {
        resolution: None,
        pixel_size: None,
        extent: None,
        src_nodata: AskedNodata::of(NodataWord::Absent),
        vrt_nodata: AskedNodata::of(NodataWord::Absent),
        separate: None,
        strict: false,
    }
}

#[tactic(auto, unfolding(crate::specs::Uses::spoken_of))]
fn nothing_said(alloc: Global) -> Spoken
    ensures { result ≡ spoken_of [] }
{
    Spoken {
        verify: false,
        blocks: BlockCount::USUAL,
        workers: WorkerCount::USUAL,
        bands: BandNumbers::new(alloc),
        band_at: None,
        values_only: None,
        files_only: None,
        geoloc: false,
        quiet: false,
        wanted: nothing_wanted(),
        mosaic: no_mosaic_wanted(),
        list: None,
        inputs: Names::new(alloc),
        source: None,
        output: None,
        x: None,
        y: None,
        tile: None,
    }
}

// How many words behind a word are its values.
fn taken_by(option: Option<OptionWord>) -> usize
    ensures value { result ≡ values_behind option }
    ensures kept { result ≤ 4 }
{
    match option {
        None => 0,
        Some(option) => value_count(option),
    }
}

// The first values, as many as there are.
fn front(values: &[String], most: usize) -> &[String]
    ensures { result.now ≡ take most values.now }
{
    if most < values.len() {
        &values[..most]
    } else {
        values
    }
}

// The words from this number on.
fn behind(words: &[String], from: usize) -> &[String]
    requires { from ≤ length words.now }
    ensures value { result.now ≡ drop from words.now }
    ensures kept { length result.now + from ≡ length words.now }
{
    &words[from..]
}

// What a use says, whose words these are, behind so many positional words.
fn use_said(
    alloc: Global,
    tool: Tool,
    before: u64,
    place: WordPlace,
    word: &str,
    behind: &[String],
) -> Result<Said, WordFault>
    requires within { place.at + length behind.now < place.count }
    ensures { Gives IsMemory (λ s. s) result (said_by (option_of tool word.now) tool place.count before
        (record {
          at = place.at;
          word = word.now;
          option = option_of tool word.now;
          values = take
              (values_behind (option_of tool word.now)) (map string_bytes behind.now);
        })) }
{
    match option_of(tool, word) {
        Some(option) => option_said(alloc, option, place, front(behind, value_count(option))),
        None => placed_said(alloc, tool, before, place.at, word),
    }
}

fn behind_use(before: u64, option: Option<OptionWord>) -> u64
    requires { before < 2 ^ 64 - 1 }
    ensures value { result ≡ behind_use before option }
    ensures kept { result ≤ before + 1 }
{
    match option {
        None => before + 1,
        Some(_) => before,
    }
}

/// What all words behind the first say, where each fits its place.
#[tactic(auto, unfolding(crate::specs::Uses::spoken_in))]
pub fn spoken_in(alloc: Global, tool: Tool, words: &[String]) -> Result<Spoken, WordFault>
    requires few { length words.now < 2 ^ 64 - 1 }
    ensures { Gives IsMemory (λ s. s) result (spoken_in tool (length words.now + 1) (map string_bytes words.now)) }
{
    let count = words.len() as u64 + 1;
    let mut all = nothing_said(alloc);
    let mut taken = 0;
    let mut before = 0;
    for (i, word) in words.iter().enumerate() {
        if taken > 0 {
            taken -= 1;
        } else {
            let at = i as u64 + 1;
            let place = WordPlace { at, count };
            let said = use_said(
                alloc,
                tool,
                before,
                place,
                word.as_str(),
                behind(words, i + 1),
            )?;
            all = with_said(at, said, all)?;
            let option = option_of(tool, word.as_str());
            before = behind_use(before, option);
            taken = taken_by(option);
        }
    }
    Ok(all)
}
