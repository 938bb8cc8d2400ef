// What is asked of a mosaic, as tables have it.
ghost use Rattle.std.specs.Prelude.{◌≡◌, IfOk, IfSome};
ghost use Rattle.std.specs.List.{All};
ghost use Rattle.geotransform.specs.Geo.{IsNear};
ghost use Rattle.buildvrt.specs.Options.{IsResolution, IsExtent, IsBandNumber};
ghost use Rattle.catalog.specs.Nodata.{IsNodataWord};

use buildvrt::{BuildOptions, Extent, Numbers, Resolution};
use catalog::NodataWord;
use geotransform::{Ticks, read_decimal};
use lists_and_answers::Items;
use outside::Name;
use std::alloc::{AllocError, Global};

// What may be asked for behind the name of the document, and how many words it takes: the numbers of the bands, of one
// digit each; the size of the pixels, or their width and height; the least and the greatest places; the NODATA of the
// sources and that of the bands, or `none`; a band for each input; and that no input is skipped.
const OPTIONS: [(&str, usize); 9] = [
    (" bands ", 2),
    (" highest", 1),
    (" lowest", 1),
    (" steps ", 3),
    (" extent ", 5),
    (" source ", 2),
    (" band ", 2),
    (" separate", 1),
    (" strictly", 1),
];

fn behind<'a>(text: &'a str, option: &str) -> Option<&'a str> {
    match text.split_once(option) {
        Some((_, rest)) => Some(rest),
        None => None,
    }
}

fn first_word(text: &str) -> Option<&str> {
    let mut words = text.split_ascii_whitespace();
    words.next()
}

fn word_behind<'a>(text: &'a str, option: &str) -> Option<&'a str> {
    first_word(behind(text, option)?)
}

// The name and the words of these options that are there.
fn known_words(text: &str, options: &[(&str, usize)]) -> usize {
    let mut count = 1usize;
    for (option, words) in options {
        if behind(text, option).is_some() {
            count = count.saturating_add(*words);
        }
    }
    count
}

// Whether a text has no other words.
fn is_known(text: &str) -> bool {
    text.split_ascii_whitespace().count() == known_words(text, &OPTIONS)
}

fn word_of(word: Option<&str>) -> Option<NodataWord>
    ensures { IfSome result IsNodataWord }
{
    match word {
        None => Some(NodataWord::Absent),
        Some("none") => Some(NodataWord::Remove),
        Some(word) => Some(NodataWord::Number(word.parse::<i64>().ok()? as i128)),
    }
}

fn step_of(text: Option<&str>) -> Option<Ticks>
    ensures { IfSome result IsNear }
{
    read_decimal(text?.as_bytes())
}

fn grain_of(ask: &str) -> Resolution
    ensures { IsResolution result }
{
    if behind(ask, " highest").is_some() {
        Resolution::Highest
    } else if behind(ask, " lowest").is_some() {
        Resolution::Lowest
    } else {
        Resolution::Average
    }
}

fn given(dx: Ticks, dy: Ticks) -> Option<Resolution>
    requires { IsNear dx × IsNear dy }
    ensures { IfSome result IsResolution }
{
    if dx.get() > 0 && dy.get() > 0 {
        Some(Resolution::User { dx, dy })
    } else {
        None
    }
}

fn pixels_in(text: &str) -> Option<Resolution>
    ensures { IfSome result IsResolution }
{
    let mut words = text.split_ascii_whitespace();
    let dx = step_of(words.next())?;
    let dy = step_of(words.next())?;
    given(dx, dy)
}

/// The size of the pixels: the given one, where there is one.
fn resolution_of(ask: &str) -> Option<Resolution>
    ensures { IfSome result IsResolution }
{
    match behind(ask, " steps ") {
        Some(steps) => pixels_in(steps),
        None => Some(grain_of(ask)),
    }
}

fn spanned(xmin: Ticks, ymin: Ticks, xmax: Ticks, ymax: Ticks) -> Option<Extent>
    requires { IsNear xmin × IsNear ymin × IsNear xmax × IsNear ymax }
    ensures { IfSome result IsExtent }
{
    if xmin.get() < xmax.get() && ymin.get() < ymax.get() {
        Some(Extent {
            xmin,
            ymin,
            xmax,
            ymax,
        })
    } else {
        None
    }
}

fn extent_in(text: &str) -> Option<Extent>
    ensures { IfSome result IsExtent }
{
    let mut words = text.split_ascii_whitespace();
    let xmin = step_of(words.next())?;
    let ymin = step_of(words.next())?;
    let xmax = step_of(words.next())?;
    let ymax = step_of(words.next())?;
    spanned(xmin, ymin, xmax, ymax)
}

/// The extent, where one is given.
fn extent_of(ask: &str) -> Option<Option<Extent>>
    ensures { IfSome result (λ e. IfSome e IsExtent) }
{
    match behind(ask, " extent ") {
        Some(places) => Some(Some(extent_in(places)?)),
        None => Some(None),
    }
}

fn add_number(numbers: &mut Numbers, band: u8) -> Result<(), AllocError>
    requires { All IsBandNumber numbers.old }
    ensures { All IsBandNumber numbers.new }
{
    numbers.push(band.max(1) as u32)
}

fn numbers_of(alloc: Global, bands: &[u8]) -> Result<Numbers, AllocError>
    ensures { IfOk result (λ numbers. All IsBandNumber numbers) }
{
    let mut numbers = Items::new(alloc);
    for band in bands {
        if *band != b',' {
            add_number(&mut numbers, band.saturating_sub(b'0'))?;
        }
    }
    Ok(numbers)
}

// What is asked for beside the name and the bands.
#[derive(Clone, Copy)]
struct Settings {
    resolution: Resolution,
    extent: Option<Extent>,
    source: NodataWord,
    band: NodataWord,
}

fn settings_of(ask: &str) -> Option<Settings>
    ensures resolution { IfSome result (λ s. IsResolution s.resolution) }
    ensures extent { IfSome result (λ s. IfSome s.extent IsExtent) }
    ensures source { IfSome result (λ s. IsNodataWord s.source) }
    ensures band { IfSome result (λ s. IsNodataWord s.band) }
{
    let resolution = resolution_of(ask)?;
    let extent = extent_of(ask)?;
    let source = word_of(word_behind(ask, " source "))?;
    let band = word_of(word_behind(ask, " band "))?;
    if !is_known(ask) {
        return None;
    }
    Some(Settings {
        resolution,
        extent,
        source,
        band,
    })
}

/// The options of the words that ask for them, where they do.
pub fn options(alloc: Global, ask: &str) -> Option<BuildOptions> {
    let settings = settings_of(ask)?;
    let bands = word_behind(ask, " bands ").unwrap_or("");
    let out = Name::read(alloc, first_word(ask).unwrap_or("")).ok()?;
    let bands = numbers_of(alloc, bands.as_bytes()).ok()?;
    Some(BuildOptions {
        out,
        bands,
        resolution: settings.resolution,
        extent: settings.extent,
        src_nodata: settings.source,
        vrt_nodata: settings.band,
        separate: behind(ask, " separate").is_some(),
        strict: behind(ask, " strictly").is_some(),
    })
}
