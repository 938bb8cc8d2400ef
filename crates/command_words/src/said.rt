// What options say by their values.
ghost use Rattle.std.specs.Prelude.{◌≡◌, ◌+◌, ◌<◌, ◌<ℤ◌, ◌≤◌, pos, length, map, slice_get, string_bytes, option_map};
ghost use Rattle.std.specs.Prelude.{IfSome, IfOk};
ghost use Rattle.translate_plan.specs.Options.{IsShortNumber};
ghost use Rattle.lists_and_answers.specs.Answers.{Gives};
ghost use Rattle.geotransform.specs.Decimal.{ticks_of};
ghost use Rattle.command_words.specs.Values.{integer_of, side_of, nodata_of, beyond};
ghost use Rattle.command_words.specs.Said.{value_said, config_said, setting_said, window_said, places_said};
ghost use Rattle.command_words.specs.Said.{outsize_said, band_said, blocks_said, workers_said, format_said};
ghost use Rattle.command_words.specs.Said.{nodata_said, kind_said, creation_said, resolution_said, pixel_size_said};
ghost use Rattle.command_words.specs.Said.{extent_said, source_nodata_said, mosaic_nodata_said, list_said, option_said};
ghost use Rattle.command_words.specs.Words.{IsMemory};

use crate::numbers::{AskedExtent, AskedNodata, AskedResolution, AskedView, Side};
use crate::options::OptionWord;
use crate::spoken::{MosaicSaid, Said, WordFault, WordPlace};
use crate::values::{
    band_of, beyond, blocks_of, format_of, integer_of, is_no, layout_of, nodata_of, read_name,
    resolution_named, side_of, workers_of,
};
use buildvrt::{Extent, Resolution};
use geotransform::PixelType;
use input_points::Position;
use std::alloc::Global;
use translate_plan::View;

// A value of an option, counted from 0.
fn word_at(values: &[String], i: usize) -> Option<&str>
    ensures value { option_map (λ w. w.now) result ≡ slice_get (map string_bytes values.now) i }
    ensures kept { IfSome result (λ w. i < length values.now) }
{
    match values.get(i) {
        Some(word) => Some(word.as_str()),
        None => None,
    }
}

// What is answered where the values of an option end early, and where one of them is refused.
fn ends_early(place: WordPlace) -> WordFault
    ensures { result ≡ WordFault.Usage place.count }
{
    WordFault::Usage { word: place.count }
}

fn refused(place: WordPlace, i: usize) -> WordFault
    requires { place.at + 1 + i ≤ place.count }
    ensures { result ≡ WordFault.Usage (place.at + 1 + i) }
{
    WordFault::Usage {
        word: place.at + 1 + i as u64,
    }
}

fn integer_said(place: WordPlace, values: &[String], i: usize) -> Result<i64, WordFault>
    requires within { place.at + length values.now < place.count }
    ensures value { result ≡ value_said integer_of place (map string_bytes values.now) i }
    ensures kept { IfOk result IsShortNumber }
{
    match word_at(values, i) {
        None => Err(ends_early(place)),
        Some(word) => match integer_of(word.as_bytes()) {
            None => Err(refused(place, i)),
            Some(number) => Ok(number),
        },
    }
}

fn place_said(place: WordPlace, values: &[String], i: usize) -> Result<Position, WordFault>
    requires within { place.at + length values.now < place.count }
    ensures { result ≡ value_said ticks_of place (map string_bytes values.now) i }
{
    match word_at(values, i) {
        None => Err(ends_early(place)),
        Some(word) => match Position::read(word.as_bytes()) {
            None => Err(refused(place, i)),
            Some(position) => Ok(position),
        },
    }
}

fn side_said(place: WordPlace, values: &[String], i: usize) -> Result<Side, WordFault>
    requires within { place.at + length values.now < place.count }
    ensures { result ≡ value_said side_of place (map string_bytes values.now) i }
{
    match word_at(values, i) {
        None => Err(ends_early(place)),
        Some(word) => match side_of(word.as_bytes()) {
            None => Err(refused(place, i)),
            Some(side) => Ok(side),
        },
    }
}

fn setting_said(key: &str, value: &str) -> Said
    ensures { result ≡ setting_said key.now value.now }
{
    if key == "DTED_VERIFY_CHECKSUM" {
        Said::Verification(!is_no(value))
    } else {
        Said::Setting
    }
}

#[tactic(auto, unfolding(crate::specs::Said::config_said))]
fn config_said(place: WordPlace, values: &[String]) -> Result<Said, WordFault>
    requires within { place.at + length values.now < place.count }
    ensures { result ≡ config_said place (map string_bytes values.now) }
{
    let Some(key) = word_at(values, 0) else {
        return Err(ends_early(place));
    };
    let Some(value) = word_at(values, 1) else {
        return Err(ends_early(place));
    };
    Ok(setting_said(key, value))
}

#[tactic(auto, unfolding(crate::specs::Said::window_said))]
fn window_said(place: WordPlace, values: &[String]) -> Result<Said, WordFault>
    requires within { place.at + length values.now < place.count }
    ensures { result ≡ window_said place (map string_bytes values.now) }
{
    let x = integer_said(place, values, 0)?;
    let y = integer_said(place, values, 1)?;
    let w = integer_said(place, values, 2)?;
    let h = integer_said(place, values, 3)?;
    Ok(Said::Window(AskedView::of(View::Pixels { x, y, w, h })))
}

// The window between two corners.
fn between(ulx: Position, uly: Position, lrx: Position, lry: Position) -> AskedView
    ensures { result ≡ View.Places ulx uly lrx lry }
{
    AskedView::of(View::Places {
        ulx: ulx.get(),
        uly: uly.get(),
        lrx: lrx.get(),
        lry: lry.get(),
    })
}

#[tactic(auto, unfolding(crate::specs::Said::places_said))]
fn places_said(place: WordPlace, values: &[String]) -> Result<Said, WordFault>
    requires within { place.at + length values.now < place.count }
    ensures { result ≡ places_said place (map string_bytes values.now) }
{
    let ulx = place_said(place, values, 0)?;
    let uly = place_said(place, values, 1)?;
    let lrx = place_said(place, values, 2)?;
    let lry = place_said(place, values, 3)?;
    Ok(Said::Places(between(ulx, uly, lrx, lry)))
}

#[tactic(auto, unfolding(crate::specs::Said::outsize_said))]
fn outsize_said(place: WordPlace, values: &[String]) -> Result<Said, WordFault>
    requires within { place.at + length values.now < place.count }
    ensures { result ≡ outsize_said place (map string_bytes values.now) }
{
    let w = side_said(place, values, 0)?;
    let h = side_said(place, values, 1)?;
    Ok(Said::OutSize(w, h))
}

#[tactic(auto, unfolding(crate::specs::Said::band_said))]
fn band_said(place: WordPlace, values: &[String]) -> Result<Said, WordFault>
    requires within { place.at + length values.now < place.count }
    ensures { result ≡ band_said place (map string_bytes values.now) }
{
    match word_at(values, 0) {
        None => Err(ends_early(place)),
        Some(word) => match band_of(word.as_bytes()) {
            None => Err(refused(place, 0)),
            Some(band) => Ok(Said::Band(band)),
        },
    }
}

#[tactic(auto, unfolding(crate::specs::Said::blocks_said))]
fn blocks_said(place: WordPlace, values: &[String]) -> Result<Said, WordFault>
    requires within { place.at + length values.now < place.count }
    ensures { result ≡ blocks_said place (map string_bytes values.now) }
{
    match word_at(values, 0) {
        None => Err(ends_early(place)),
        Some(word) => match blocks_of(word.as_bytes()) {
            None => Err(refused(place, 0)),
            Some(blocks) => Ok(Said::Blocks(blocks)),
        },
    }
}

#[tactic(auto, unfolding(crate::specs::Said::workers_said))]
fn workers_said(place: WordPlace, values: &[String]) -> Result<Said, WordFault>
    requires within { place.at + length values.now < place.count }
    ensures { result ≡ workers_said place (map string_bytes values.now) }
{
    match word_at(values, 0) {
        None => Err(ends_early(place)),
        Some(word) => match workers_of(word.as_bytes()) {
            None => Err(refused(place, 0)),
            Some(workers) => Ok(Said::Workers(workers)),
        },
    }
}

#[tactic(auto, unfolding(crate::specs::Said::format_said))]
fn format_said(place: WordPlace, values: &[String]) -> Result<Said, WordFault>
    requires within { place.at + length values.now < place.count }
    ensures { result ≡ format_said place (map string_bytes values.now) }
{
    match word_at(values, 0) {
        None => Err(ends_early(place)),
        Some(word) => match format_of(word) {
            None => Err(refused(place, 0)),
            Some(format) => Ok(Said::Format(format)),
        },
    }
}

#[tactic(auto, unfolding(crate::specs::Said::kind_said))]
fn kind_said(place: WordPlace, values: &[String]) -> Result<Said, WordFault>
    requires within { place.at + length values.now < place.count }
    ensures { result ≡ kind_said place (map string_bytes values.now) }
{
    match word_at(values, 0) {
        None => Err(ends_early(place)),
        Some(word) => match PixelType::read_name(word.as_bytes(), true) {
            None => Err(refused(place, 0)),
            Some(kind) => Ok(Said::Kind(kind)),
        },
    }
}

#[tactic(auto, unfolding(crate::specs::Said::creation_said))]
fn creation_said(place: WordPlace, values: &[String]) -> Result<Said, WordFault>
    requires within { place.at + length values.now < place.count }
    ensures { result ≡ creation_said place (map string_bytes values.now) }
{
    match word_at(values, 0) {
        None => Err(ends_early(place)),
        Some(word) => match layout_of(word) {
            None => Err(refused(place, 0)),
            Some(layout) => Ok(Said::Interleave(layout)),
        },
    }
}

#[tactic(auto, unfolding(crate::specs::Said::resolution_said))]
fn resolution_said(place: WordPlace, values: &[String]) -> Result<Said, WordFault>
    requires within { place.at + length values.now < place.count }
    ensures { result ≡ resolution_said place (map string_bytes values.now) }
{
    match word_at(values, 0) {
        None => Err(ends_early(place)),
        Some(word) => match resolution_named(word) {
            None => Err(refused(place, 0)),
            Some(resolution) => Ok(Said::Mosaic(MosaicSaid::Resolution(resolution))),
        },
    }
}

// A number above so many ticks.
fn beyond_said(
    place: WordPlace,
    values: &[String],
    i: usize,
    least: i128,
) -> Result<Position, WordFault>
    requires within { place.at + length values.now < place.count }
    ensures value { result ≡ value_said (beyond least) place (map string_bytes values.now) i }
    ensures kept { IfOk result (λ n. least <ℤ n) }
{
    match word_at(values, i) {
        None => Err(ends_early(place)),
        Some(word) => match beyond(least, word.as_bytes()) {
            None => Err(refused(place, i)),
            Some(number) => Ok(number),
        },
    }
}

// The given sizes of a pixel.
fn given(dx: Position, dy: Position) -> AskedResolution
    requires width { pos 0 <ℤ dx }
    requires height { pos 0 <ℤ dy }
    ensures { result ≡ Resolution.User dx dy }
{
    AskedResolution::of(Resolution::User {
        dx: dx.get(),
        dy: dy.get(),
    })
}

#[tactic(auto, unfolding(crate::specs::Said::pixel_size_said))]
fn pixel_size_said(place: WordPlace, values: &[String]) -> Result<Said, WordFault>
    requires within { place.at + length values.now < place.count }
    ensures { result ≡ pixel_size_said place (map string_bytes values.now) }
{
    let dx = beyond_said(place, values, 0, 0)?;
    let dy = beyond_said(place, values, 1, 0)?;
    Ok(Said::Mosaic(MosaicSaid::PixelSize(given(dx, dy))))
}

// The extent between these places.
fn extent_between(xmin: Position, ymin: Position, xmax: Position, ymax: Position) -> AskedExtent
    requires columns { xmin <ℤ xmax }
    requires lines { ymin <ℤ ymax }
    ensures { result ≡ record { xmin = xmin; ymin = ymin; xmax = xmax; ymax = ymax } }
{
    AskedExtent::of(Extent {
        xmin: xmin.get(),
        ymin: ymin.get(),
        xmax: xmax.get(),
        ymax: ymax.get(),
    })
}

#[tactic(auto, unfolding(crate::specs::Said::extent_said))]
fn extent_said(place: WordPlace, values: &[String]) -> Result<Said, WordFault>
    requires within { place.at + length values.now < place.count }
    ensures { result ≡ extent_said place (map string_bytes values.now) }
{
    let xmin = place_said(place, values, 0)?;
    let ymin = place_said(place, values, 1)?;
    let xmax = beyond_said(place, values, 2, xmin.get().get())?;
    let ymax = beyond_said(place, values, 3, ymin.get().get())?;
    let extent = extent_between(xmin, ymin, xmax, ymax);
    Ok(Said::Mosaic(MosaicSaid::Extent(extent)))
}

// A NODATA that is asked for.
fn nodata_word_said(place: WordPlace, values: &[String]) -> Result<AskedNodata, WordFault>
    requires within { place.at + length values.now < place.count }
    ensures { result ≡ value_said nodata_of place (map string_bytes values.now) 0 }
{
    match word_at(values, 0) {
        None => Err(ends_early(place)),
        Some(word) => match nodata_of(word) {
            None => Err(refused(place, 0)),
            Some(nodata) => Ok(nodata),
        },
    }
}

#[tactic(auto, unfolding(crate::specs::Said::nodata_said))]
fn nodata_said(place: WordPlace, values: &[String]) -> Result<Said, WordFault>
    requires within { place.at + length values.now < place.count }
    ensures { result ≡ nodata_said place (map string_bytes values.now) }
{
    let word = nodata_word_said(place, values)?;
    Ok(Said::Nodata(word))
}

#[tactic(auto, unfolding(crate::specs::Said::source_nodata_said))]
fn source_nodata_said(place: WordPlace, values: &[String]) -> Result<Said, WordFault>
    requires within { place.at + length values.now < place.count }
    ensures { result ≡ source_nodata_said place (map string_bytes values.now) }
{
    let word = nodata_word_said(place, values)?;
    Ok(Said::Mosaic(MosaicSaid::SourceNodata(word)))
}

#[tactic(auto, unfolding(crate::specs::Said::mosaic_nodata_said))]
fn mosaic_nodata_said(place: WordPlace, values: &[String]) -> Result<Said, WordFault>
    requires within { place.at + length values.now < place.count }
    ensures { result ≡ mosaic_nodata_said place (map string_bytes values.now) }
{
    let word = nodata_word_said(place, values)?;
    Ok(Said::Mosaic(MosaicSaid::Nodata(word)))
}

#[tactic(auto, unfolding(crate::specs::Said::list_said))]
fn list_said(alloc: Global, place: WordPlace, values: &[String]) -> Result<Said, WordFault>
    requires within { place.at + length values.now < place.count }
    ensures { Gives IsMemory (λ s. s) result (list_said place (map string_bytes values.now)) }
{
    match word_at(values, 0) {
        None => Err(ends_early(place)),
        Some(word) => match read_name(alloc, place.at + 1, word) {
            Ok(name) => Ok(Said::List(name)),
            Err(fault) => Err(fault),
        },
    }
}

/// What an option says by its values.
pub fn option_said(
    alloc: Global,
    option: OptionWord,
    place: WordPlace,
    values: &[String],
) -> Result<Said, WordFault>
    requires within { place.at + length values.now < place.count }
    ensures { Gives IsMemory (λ s. s) result (option_said option place (map string_bytes values.now)) }
{
    match option {
        OptionWord::Config => config_said(place, values),
        OptionWord::Blocks => blocks_said(place, values),
        OptionWord::Workers => workers_said(place, values),
        OptionWord::Band => band_said(place, values),
        OptionWord::ValuesOnly => Ok(Said::ValuesOnly),
        OptionWord::FilesOnly => Ok(Said::FilesOnly),
        OptionWord::Geoloc => Ok(Said::Geoloc),
        OptionWord::Format => format_said(place, values),
        OptionWord::Window => window_said(place, values),
        OptionWord::Places => places_said(place, values),
        OptionWord::OutSize => outsize_said(place, values),
        OptionWord::Nodata => nodata_said(place, values),
        OptionWord::Kind => kind_said(place, values),
        OptionWord::Creation => creation_said(place, values),
        OptionWord::Quiet => Ok(Said::Quiet),
        OptionWord::Inside => Ok(Said::Inside),
        OptionWord::Touching => Ok(Said::Touching),
        OptionWord::Resolution => resolution_said(place, values),
        OptionWord::PixelSize => pixel_size_said(place, values),
        OptionWord::Extent => extent_said(place, values),
        OptionWord::SourceNodata => source_nodata_said(place, values),
        OptionWord::MosaicNodata => mosaic_nodata_said(place, values),
        OptionWord::Separate => Ok(Said::Mosaic(MosaicSaid::Separate)),
        OptionWord::Strict => Ok(Said::Mosaic(MosaicSaid::Strict)),
        OptionWord::Overwrite => Ok(Said::Setting),
        OptionWord::InputList => list_said(alloc, place, values),
    }
}
