// The values of options, and the names of positional words.
ghost use Rattle.std.specs.Prelude.{◌≡◌, ◌<◌, ◌<ℤ◌, ◌^◌, IfSome, ok_or};
ghost use Rattle.lists_and_answers.specs.Answers.{Gives};
ghost use Rattle.lists_and_answers.specs.Texts.{same_letters};
ghost use Rattle.geotransform.specs.Limits.{most_short_digits};
ghost use Rattle.translate_plan.specs.Options.{IsShortNumber};
ghost use Rattle.command_words.specs.Values.{begins_with_dash, short_of, band_of, blocks_of, integer_of, side_of};
ghost use Rattle.command_words.specs.Values.{name_of, is_no, format_of, layout_of, nodata_of, wide_number};
ghost use Rattle.command_words.specs.Values.{tile_side_of, resolution_named, beyond, workers_of};
ghost use Rattle.command_words.specs.Words.{IsMemory};

use crate::numbers::{AskedNodata, BlockCount, Side};
use crate::spoken::{OutFormat, ResolutionWord, WordFault};
use catalog::NodataWord;
use esri_hdr::Layout;
use geotransform::{BandNumber, MOST_SHORT_DIGITS, read_number, read_whole};
use input_points::Position;
use lane_teams::WorkerCount;
use outside::{Name, NameFault};
use std::alloc::Global;
use synthetic_rasters::TileSide;
use translate_plan::OutSize;

/// The least number of a type of 64 bits with a sign.
const LOWEST: i128 = -9_223_372_036_854_775_808;

/// The greatest number of a type of 64 bits without a sign.
const HIGHEST: i128 = 18_446_744_073_709_551_615;

/// Whether a word begins with a dash.
pub fn begins_with_dash(word: &[u8]) -> bool
    ensures { result ≡ begins_with_dash word.now }
{
    match word {
        [] => false,
        [first, ..] => *first == b'-',
    }
}

// The number that one to nine digits write.
#[tactic(auto, using(crate::proofs::Short::short_below))]
fn short_of(word: &[u8]) -> Option<u32>
    ensures value { result ≡ short_of word.now }
    ensures kept { IfSome result (λ n. n < 10 ^ most_short_digits) }
{
    if word.len() > MOST_SHORT_DIGITS {
        return None;
    }
    let number = read_number(word)?;
    Some(number as u32)
}

/// The number of a band, from 1 to 256.
pub fn band_of(word: &[u8]) -> Option<BandNumber>
    ensures { result ≡ band_of word.now }
{
    BandNumber::new(short_of(word)?)
}

/// How many blocks are held, from 1 to 65,536.
pub fn blocks_of(word: &[u8]) -> Option<BlockCount>
    ensures { result ≡ blocks_of word.now }
{
    BlockCount::new(short_of(word)?)
}

/// How many workers read, from 1 to 16.
pub fn workers_of(word: &[u8]) -> Option<WorkerCount>
    ensures { result ≡ workers_of word.now }
{
    WorkerCount::new(short_of(word)?)
}

/// The side of a tile, from 1 to 4,096.
pub fn tile_side_of(word: &[u8]) -> Option<TileSide>
    ensures { result ≡ tile_side_of word.now }
{
    TileSide::new(short_of(word)?)
}

/// One to nine digits, with a minus or without.
pub fn integer_of(word: &[u8]) -> Option<i64>
    ensures value { result ≡ integer_of word.now }
    ensures kept { IfSome result IsShortNumber }
{
    match word {
        [] => None,
        [b'-', digits @ ..] => {
            let number = short_of(digits)?;
            Some(-i64::from(number))
        }
        digits => {
            let number = short_of(digits)?;
            Some(i64::from(number))
        }
    }
}

/// A number of pixels, or with a % behind it of parts of a hundred.
pub fn side_of(word: &[u8]) -> Option<Side>
    ensures { result ≡ side_of word.now }
{
    let (digits, last) = word.split_at(word.len().saturating_sub(1));
    if last == b"%".as_slice() {
        let number = short_of(digits)?;
        Some(Side::of(OutSize::Percent(number)))
    } else {
        let number = short_of(word)?;
        Some(Side::of(OutSize::Count(number)))
    }
}

fn same_letters(word: &str, other: &str) -> bool
    ensures { result ≡ same_letters word.now other.now }
{
    word.eq_ignore_ascii_case(other)
}

/// Whether a setting means no.
pub fn is_no(word: &str) -> bool
    ensures { result ≡ is_no word.now }
{
    same_letters(word, "NO")
        || same_letters(word, "FALSE")
        || same_letters(word, "OFF")
        || same_letters(word, "0")
}

/// The format that `-of` names.
#[tactic(auto, unfolding(crate::specs::Values::format_of))]
pub fn format_of(word: &str) -> Option<OutFormat>
    ensures { result ≡ format_of word.now }
{
    match word {
        _ if same_letters(word, "EHdr") => Some(OutFormat::EHdr),
        _ if same_letters(word, "DTED") => Some(OutFormat::Dted),
        _ if same_letters(word, "SRTMHGT") => Some(OutFormat::SrtmHgt),
        _ if same_letters(word, "AAIGrid") => Some(OutFormat::AaiGrid),
        _ if same_letters(word, "VRT") => Some(OutFormat::Vrt),
        _ => None,
    }
}

/// The layout that `-co` asks for.
#[tactic(auto, unfolding(crate::specs::Values::layout_of))]
pub fn layout_of(word: &str) -> Option<Layout>
    ensures { result ≡ layout_of word.now }
{
    match word {
        _ if same_letters(word, "INTERLEAVE=BIL") => Some(Layout::Bil),
        _ if same_letters(word, "INTERLEAVE=BIP") => Some(Layout::Bip),
        _ if same_letters(word, "INTERLEAVE=BSQ") => Some(Layout::Bsq),
        _ => None,
    }
}

// A number of a type of 64 bits, with or without a sign.
fn wide_number(number: i128) -> Option<AskedNodata>
    ensures { result ≡ wide_number number }
{
    if number >= LOWEST && number <= HIGHEST {
        Some(AskedNodata::of(NodataWord::Number(number)))
    } else {
        None
    }
}

/// What is asked for as NODATA: that there be none, or a whole number.
#[tactic(auto, unfolding(crate::specs::Values::nodata_of))]
pub fn nodata_of(word: &str) -> Option<AskedNodata>
    ensures { result ≡ nodata_of word.now }
{
    if same_letters(word, "none") {
        return Some(AskedNodata::of(NodataWord::Remove));
    }
    wide_number(read_whole(word.as_bytes())?)
}

/// The resolution that `-resolution` names.
#[tactic(auto, unfolding(crate::specs::Values::resolution_named))]
pub fn resolution_named(word: &str) -> Option<ResolutionWord>
    ensures { result ≡ resolution_named word.now }
{
    match word {
        _ if word == "highest" => Some(ResolutionWord::Highest),
        _ if word == "lowest" => Some(ResolutionWord::Lowest),
        _ if word == "average" => Some(ResolutionWord::Average),
        _ if word == "user" => Some(ResolutionWord::User),
        _ => None,
    }
}

/// The number of a decimal text, where it is above so many ticks.
pub fn beyond(least: i128, word: &[u8]) -> Option<Position>
    ensures value { result ≡ beyond least word.now }
    ensures kept { IfSome result (λ n. least <ℤ n) }
{
    let number = Position::read(word)?;
    if number.get().get() > least {
        Some(number)
    } else {
        None
    }
}

/// The name that a word of this number is.
pub fn read_name(alloc: Global, at: u64, word: &str) -> Result<Name, WordFault>
    ensures { Gives IsMemory (λ name. name) result (ok_or (name_of word.now) (WordFault.Usage at)) }
{
    match Name::read(alloc, word) {
        Ok(name) => Ok(name),
        Err(NameFault::Empty | NameFault::TooLong) => Err(WordFault::Usage { word: at }),
        Err(NameFault::Memory) => Err(WordFault::Memory),
    }
}
