// What words ask of a translation, and the heads of sources.
ghost use Rattle.std.specs.Prelude.{◌≡◌, ◌<◌, ◌≤◌, All, IfOk, IfSome};
ghost use Rattle.geotransform.specs.Decimal.{IsRead};
ghost use Rattle.translate_plan.specs.Options.{IsDriver, IsShortNumber, IsView, IsOutSize};
ghost use Rattle.catalog.specs.Nodata.{IsNodataWord};

use catalog::{Head, NodataWord, head_of};
use esri_hdr::Layout;
use geotransform::{PixelType, Ticks, read_decimal};
use lists_and_answers::Items;
use outside::{Listed, MemFolder, Name};
use std::alloc::{AllocError, Global};
use translate_plan::{Driver, Numbers, OutSize, TranslateOptions, View, driver_for};

/// Files by their names, the first of which is that of a dataset.
pub type Files<'a> = &'a [(&'a str, &'a str)];

fn put(alloc: Global, folder: &mut MemFolder, name: &str, text: &str) -> bool {
    match Name::read(alloc, name) {
        Ok(name) => folder.put(&name, text.as_bytes()).is_ok(),
        Err(_) => false,
    }
}

fn put_all(alloc: Global, folder: &mut MemFolder, files: Files<'_>) -> bool {
    for (name, text) in files {
        if !put(alloc, folder, name, text) {
            return false;
        }
    }
    true
}

fn folder_of(alloc: Global, files: Files<'_>) -> Option<MemFolder> {
    let mut folder = MemFolder::new(alloc, Listed::new(Items::new(alloc)));
    if put_all(alloc, &mut folder, files) {
        Some(folder)
    } else {
        None
    }
}

fn head_in(alloc: Global, folder: &mut MemFolder, name: &str) -> Option<Head> {
    let name = Name::read(alloc, name).ok()?;
    head_of(alloc, folder, &name, false).ok()
}

fn first_name<'a>(files: Files<'a>) -> &'a str {
    match files.first() {
        Some((name, _)) => name,
        None => "",
    }
}

/// The head of the first of some files, where they are put and it is a dataset.
pub fn head(alloc: Global, files: Files<'_>) -> Option<Head> {
    let mut folder = folder_of(alloc, files)?;
    head_in(alloc, &mut folder, first_name(files))
}

// What may be asked for behind the name of the output, whose ending is its format, and how many words it takes: the
// numbers of the bands, or `257x1` for the first one so many times; a window by a column, a line and its sides, or by
// its upper left and its lower right place; the sides of the output, in pixels or in parts of a hundred; NODATA, or
// `none`; the type; and whether the window must lie in the raster in part, or wholly.
const OPTIONS: [(&str, usize); 8] = [
    (" bands ", 2),
    (" window ", 5),
    (" places ", 5),
    (" size ", 3),
    (" nodata ", 2),
    (" type ", 2),
    (" partly", 1),
    (" wholly", 1),
];

fn behind<'a>(text: &'a str, option: &str) -> Option<&'a str> {
    match text.split_once(option) {
        Some((_, rest)) => Some(rest),
        None => None,
    }
}

fn first_word(text: &str) -> Option<&str> {
    let mut words = text.split_ascii_whitespace();
    words.next()
}

fn word_behind<'a>(text: &'a str, option: &str) -> Option<&'a str> {
    first_word(behind(text, option)?)
}

// The name and the words of these options that are there.
fn known_words(text: &str, options: &[(&str, usize)]) -> usize {
    let mut count = 1usize;
    for (option, words) in options {
        if behind(text, option).is_some() {
            count = count.saturating_add(*words);
        }
    }
    count
}

// Whether a text has no other words.
fn is_known(text: &str) -> bool {
    text.split_ascii_whitespace().count() == known_words(text, &OPTIONS)
}

fn driver_of(name: &Name) -> Driver
    ensures { IsDriver result }
{
    match name.extension() {
        Some(ext) => driver_for(ext),
        None => Driver::Vrt,
    }
}

// A number of up to nine digits.
fn whole(word: Option<&str>) -> Option<i64>
    ensures { IfSome result IsShortNumber }
{
    let n = word?.parse::<i32>().ok()?;
    if n > -1_000_000_000 && n < 1_000_000_000 {
        Some(n as i64)
    } else {
        None
    }
}

fn pixels(text: &str) -> Option<View>
    ensures { IfSome result IsView }
{
    let mut words = text.split_ascii_whitespace();
    let x = whole(words.next())?;
    let y = whole(words.next())?;
    let w = whole(words.next())?;
    let h = whole(words.next())?;
    Some(View::Pixels { x, y, w, h })
}

fn place(word: Option<&str>) -> Option<Ticks>
    ensures { IfSome result IsRead }
{
    read_decimal(word?.as_bytes())
}

fn places(text: &str) -> Option<View>
    ensures { IfSome result IsView }
{
    let mut words = text.split_ascii_whitespace();
    let ulx = place(words.next())?;
    let uly = place(words.next())?;
    let lrx = place(words.next())?;
    let lry = place(words.next())?;
    Some(View::Places { ulx, uly, lrx, lry })
}

fn view_of(ask: &str) -> Option<View>
    ensures { IfSome result IsView }
{
    if let Some(window) = behind(ask, " window ") {
        return pixels(window);
    }
    match behind(ask, " places ") {
        Some(corners) => places(corners),
        None => Some(View::Whole),
    }
}

fn count_of(text: &str) -> Option<u32> {
    text.parse::<u32>().ok()
}

fn side_of(word: Option<&str>) -> Option<OutSize>
    ensures { IfSome result IsOutSize }
{
    let word = word?;
    match word.strip_suffix('%') {
        Some(parts) => Some(OutSize::Percent(count_of(parts)? % 1_000_000_000)),
        None => Some(OutSize::Count(count_of(word)? % 1_000_000_000)),
    }
}

fn sides_of(text: &str) -> Option<(OutSize, OutSize)>
    ensures { IfSome result (λ s. IsOutSize s.0 × IsOutSize s.1) }
{
    let mut words = text.split_ascii_whitespace();
    let w = side_of(words.next())?;
    let h = side_of(words.next())?;
    Some((w, h))
}

fn outsize_of(ask: &str) -> Option<Option<(OutSize, OutSize)>>
    ensures { IfSome result (λ o. IfSome o (λ s. IsOutSize s.0 × IsOutSize s.1)) }
{
    match behind(ask, " size ") {
        None => Some(None),
        Some(sides) => Some(Some(sides_of(sides)?)),
    }
}

fn number_of(word: &str) -> Option<NodataWord>
    ensures { IfSome result IsNodataWord }
{
    if let Ok(n) = word.parse::<i64>() {
        return Some(NodataWord::Number(n as i128));
    }
    let n = word.parse::<u64>().ok()?;
    Some(NodataWord::Number(n as i128))
}

fn nodata_of(ask: &str) -> Option<NodataWord>
    ensures { IfSome result IsNodataWord }
{
    match word_behind(ask, " nodata ") {
        None => Some(NodataWord::Absent),
        Some("none") => Some(NodataWord::Remove),
        Some(word) => number_of(word),
    }
}

fn asked_type(ask: &str) -> Option<Option<PixelType>> {
    match word_behind(ask, " type ") {
        None => Some(None),
        Some(name) => Some(Some(PixelType::read_name(name.as_bytes(), false)?)),
    }
}

/// The first band, once more than there may be bands.
const ONES: [u8; 257] = [b'1'; 257];

// The numbers of bands, of one digit each, with commas between them.
fn bands_of(ask: &str) -> &[u8] {
    match word_behind(ask, " bands ") {
        None => &[],
        Some("256x1") => &ONES[1..],
        Some("257x1") => &ONES,
        Some(word) => word.as_bytes(),
    }
}

fn add_number(numbers: &mut Numbers, band: u8) -> Result<(), AllocError>
    requires { All (λ b. (0 < b) × (b ≤ 256)) numbers.old }
    ensures { All (λ b. (0 < b) × (b ≤ 256)) numbers.new }
{
    numbers.push(band.max(1) as u32)
}

fn numbers_of(alloc: Global, bands: &[u8]) -> Result<Numbers, AllocError>
    ensures { IfOk result (λ numbers. All (λ b. (0 < b) × (b ≤ 256)) numbers) }
{
    let mut numbers = Items::new(alloc);
    for band in bands {
        if *band != b',' {
            add_number(&mut numbers, band.saturating_sub(b'0'))?;
        }
    }
    Ok(numbers)
}

// What is asked for beside the name and the bands.
#[derive(Clone, Copy)]
struct Settings {
    view: View,
    outsize: Option<(OutSize, OutSize)>,
    nodata: NodataWord,
    kind: Option<PixelType>,
}

fn settings_of(ask: &str) -> Option<Settings>
    ensures view { IfSome result (λ s. IsView s.view) }
    ensures outsize { IfSome result (λ s. IfSome s.outsize (λ o. IsOutSize o.0 × IsOutSize o.1)) }
    ensures nodata { IfSome result (λ s. IsNodataWord s.nodata) }
{
    let view = view_of(ask)?;
    let outsize = outsize_of(ask)?;
    let nodata = nodata_of(ask)?;
    let kind = asked_type(ask)?;
    if !is_known(ask) {
        return None;
    }
    Some(Settings {
        view,
        outsize,
        nodata,
        kind,
    })
}

/// The options of the words that ask for them, where they do.
pub fn options(alloc: Global, ask: &str) -> Option<TranslateOptions> {
    let settings = settings_of(ask)?;
    let out = Name::read(alloc, first_word(ask).unwrap_or("")).ok()?;
    let bands = numbers_of(alloc, bands_of(ask)).ok()?;
    let driver = driver_of(&out);
    Some(TranslateOptions {
        driver,
        layout: Layout::Bil,
        out,
        bands,
        view: settings.view,
        outsize: settings.outsize,
        nodata: settings.nodata,
        kind: settings.kind,
        epo: behind(ask, " wholly").is_some(),
        eco: behind(ask, " partly").is_some(),
    })
}
