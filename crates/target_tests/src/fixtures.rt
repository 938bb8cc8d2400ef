// Plans of outputs, windows that are put into their targets, and how it ended.
ghost use Rattle.std.specs.Prelude.{◌≡◌, ◌≢◌, ◌<◌, ◌≤◌, ◌*◌, ◌^◌, All, IfOk, IfSome, length, true};
ghost use Rattle.translate_plan.specs.Options.{IsDriver, IsView};
ghost use Rattle.catalog.specs.Nodata.{IsNodataWord};
ghost use Rattle.translate_plan.specs.declared.options.Driver.TheVariants.{Vrt};
ghost use Rattle.write_back.specs.Files.{IsTarget};
ghost use Rattle.write_back.specs.Plans.{IsNamedFor};

use catalog::{Head, NodataWord, head_of};
use esri_hdr::Layout;
use geotransform::{PixelType, Rect, Sample};
use lists_and_answers::Items;
use outside::{Counter, Ext, Failing, Folder, Listed, MemFolder, Name};
use std::alloc::{AllocError, Global};
use std::marker::Brand;
use std::process::Abort;
use std::sync::ledger::{Blank, Ledger};
use std::test::*;
use translate_plan::{Driver, Numbers, Plan, TranslateOptions, View, plan};
use write_back::{CloseFault, Target, TargetFault};

/// A form of output.
#[derive(Clone, Copy)]
pub enum Form {
    Raw(Layout),
    /// A DTED cell of this level, from 0 to 2.
    Cell(u8),
    Tile,
    Grid,
}

/// What is translated: the text of a mosaic, the form and the name of the output, its bands where they aren't all,
/// the column, the line and the sizes of a window of the mosaic, NODATA and the type.
#[derive(Clone, Copy)]
pub struct Asked {
    pub text: &'static str,
    pub form: Form,
    pub name: &'static str,
    pub bands: &'static [u8],
    pub seen: Option<(u8, u8, u8, u8)>,
    pub nodata: Option<i32>,
    pub kind: Option<PixelType>,
}

/// A plan, and the name of its output.
#[derive(Drop)]
pub struct Order {
    pub plan: Plan,
    pub name: Name,
}

/// A window: the band, the column and the line, the sizes, and where its samples begin among those of all windows.
pub type Window = (u16, (u16, u16), (u16, u16), u16);

/// Windows in their order, and the samples of all of them.
#[derive(Clone, Copy)]
pub struct Story<'a> {
    pub windows: &'a [Window],
    pub samples: &'a [Sample],
}

/// How a target ended.
#[derive(Clone, Copy, PartialEq, Eq)]
pub enum Ended {
    /// Its files were published.
    Closed,
    /// The name isn't one of the plan's form, or a window isn't one of the output.
    NotAsked,
    NotMade(TargetFault),
    /// A window was refused; whether the next one and `close` answered the same, and no file was published.
    Refused(TargetFault, bool),
    NotClosed(u32, TargetFault),
}

fn driver_of(form: Form) -> Driver
    ensures { IsDriver result }
{
    match form {
        Form::Raw(_) => Driver::EHdr,
        Form::Cell(level) => Driver::Dted {
            level: level.min(2) as u32,
        },
        Form::Tile => Driver::SrtmHgt,
        Form::Grid => Driver::AaiGrid,
    }
}

fn layout_of(form: Form) -> Layout {
    match form {
        Form::Raw(layout) => layout,
        Form::Cell(_) | Form::Tile | Form::Grid => Layout::Bil,
    }
}

fn view_of(seen: Option<(u8, u8, u8, u8)>) -> View
    ensures { IsView result }
{
    match seen {
        None => View::Whole,
        Some((x, y, w, h)) => View::Pixels {
            x: x as i64,
            y: y as i64,
            w: w as i64,
            h: h as i64,
        },
    }
}

fn nodata_of(nodata: Option<i32>) -> NodataWord
    ensures { IsNodataWord result }
{
    match nodata {
        None => NodataWord::Absent,
        Some(n) => NodataWord::Number(n as i128),
    }
}

fn add_number(numbers: &mut Numbers, band: u8) -> Result<(), AllocError>
    requires { All (λ b. (0 < b) × (b ≤ 256)) numbers.old }
    ensures { All (λ b. (0 < b) × (b ≤ 256)) numbers.new }
{
    numbers.push(band.max(1) as u32)
}

fn numbers_of(alloc: Global, bands: &[u8]) -> Result<Numbers, AllocError>
    ensures { IfOk result (λ numbers. All (λ b. (0 < b) × (b ≤ 256)) numbers) }
{
    let mut numbers = Items::new(alloc);
    for band in bands {
        add_number(&mut numbers, *band)?;
    }
    Ok(numbers)
}

fn options(alloc: Global, asked: &Asked) -> Result<TranslateOptions, Fail> {
    let out = Name::read(alloc, asked.name)?;
    let bands = numbers_of(alloc, asked.bands)?;
    Ok(TranslateOptions {
        driver: driver_of(asked.form),
        layout: layout_of(asked.form),
        out,
        bands,
        view: view_of(asked.seen),
        outsize: None,
        nodata: nodata_of(asked.nodata),
        kind: asked.kind,
        epo: false,
        eco: false,
    })
}

// The head of a mosaic with this text.
fn head(alloc: Global, text: &str) -> Result<Head, Fail> {
    let mut folder = folder_of(alloc, &[], &[("in.vrt", text.as_bytes())])?;
    let name = Name::read(alloc, "in.vrt")?;
    Ok(
        head_of(alloc, &mut folder, &name, false)
            .ok()
            .ok_or("it is a mosaic")?,
    )
}

/// The plan of what is asked for, and the name of its output.
pub fn ordered(alloc: Global, asked: &Asked) -> Result<Order, Fail> {
    let options = options(alloc, asked)?;
    let head = head(alloc, asked.text)?;
    let plan = plan(&options, &head).ok().ok_or("it can be written")?;
    let name = Name::read(alloc, asked.name)?;
    Ok(Order { plan, name })
}

/// A file: its name and its bytes.
pub type File<'a> = (&'a str, &'a [u8]);

fn put_file(alloc: Global, folder: &mut MemFolder, name: &str, bytes: &[u8]) -> Result<(), Fail> {
    let name = Name::read(alloc, name)?;
    folder.put(&name, bytes)?;
    Ok(())
}

fn put_all(alloc: Global, folder: &mut MemFolder, files: &[File]) -> Result<(), Fail> {
    for (name, bytes) in files {
        put_file(alloc, folder, name, bytes)?;
    }
    Ok(())
}

fn listed(alloc: Global, failing: &[Failing]) -> Result<Listed, AllocError> {
    let mut calls = Items::new(alloc);
    for call in failing {
        calls.push(*call)?;
    }
    Ok(Listed::new(calls))
}

/// A folder with these files, of which these calls fail.
pub fn folder_of(alloc: Global, failing: &[Failing], files: &[File]) -> Result<MemFolder, Fail> {
    let mut folder = MemFolder::new(alloc, listed(alloc, failing)?);
    put_all(alloc, &mut folder, files)?;
    Ok(folder)
}

/// Whether a folder has these bytes under a name.
pub fn has(alloc: Global, folder: &MemFolder, name: &str, bytes: &[u8]) -> Result<bool, Fail> {
    let name = Name::read(alloc, name)?;
    Ok(folder.bytes(&name) == Some(bytes))
}

/// Whether a folder has all these files.
pub fn has_all(alloc: Global, folder: &MemFolder, files: &[File]) -> Result<bool, Fail> {
    for (name, bytes) in files {
        if !has(alloc, folder, name, bytes)? {
            return Ok(false);
        }
    }
    Ok(true)
}

/// Whether the extension of the name is one of the plan's form.
pub fn is_named_for(plan: &Plan, name: &Name) -> bool
    ensures named { result ≡ true → IsNamedFor plan.now name.now }
    ensures files { result ≡ true → plan.now.driver ≢ Vrt }
{
    match name.extension() {
        Some(Ext::Bil | Ext::Bip | Ext::Bsq) => matches!(&plan.driver, Driver::EHdr),
        Some(Ext::Dt0) => matches!(&plan.driver, Driver::Dted { level: 0 }),
        Some(Ext::Dt1) => matches!(&plan.driver, Driver::Dted { level: 1 }),
        Some(Ext::Dt2) => matches!(&plan.driver, Driver::Dted { level: 2 }),
        Some(Ext::Hgt) => matches!(&plan.driver, Driver::SrtmHgt),
        Some(Ext::Asc | Ext::Grd) => matches!(&plan.driver, Driver::AaiGrid),
        _ => false,
    }
}

/// The pixels of a rectangle.
pub fn area(w: u16, h: u16) -> usize
    ensures value { result ≡ w * h }
    ensures bound { result < 2 ^ 32 }
{
    w as usize * h as usize
}

// The samples of a window of these sizes, where they are among those of all windows.
fn samples_of(samples: &[Sample], at: u16, w: u16, h: u16) -> Option<&[Sample]>
    ensures { IfSome result (λ s. length s.now ≡ w * h) }
{
    let from = at as usize;
    let count = area(w, h);
    if from > samples.len() || count > samples.len() - from {
        return None;
    }
    Some(&samples[from..from + count])
}

/// Puts a window where it is one of the output.
pub fn put_window<F: Folder, L: Ledger>(
    alloc: Global,
    target: &mut Target<F>,
    folder: &mut F,
    window: &Window,
    samples: &[Sample],
    writes: &mut Counter<L>,
) -> Result<bool, TargetFault>
    requires target { IsTarget (F.names folder.old) target.old }
    ensures target { IsTarget (F.names folder.new) target.new }
{
    let (band, (x, y), (w, h), at) = *window;
    let Some(samples) = samples_of(samples, at, w, h) else {
        return Ok(false);
    };
    let rect = Rect {
        x: x as u32,
        y: y as u32,
        w: w as u32,
        h: h as u32,
    };
    let size = target.size();
    let band = band as u32;
    if band >= target.bands() || rect.x + rect.w > size.w || rect.y + rect.h > size.h {
        return Ok(false);
    }
    if !target.holds(samples) || !target.is_next(rect) {
        return Ok(false);
    }
    target.write_window(alloc, folder, band, rect, samples, writes)?;
    Ok(true)
}

// Whether a target of which a window was refused answers the same to the window once more and to `close`.
fn stays<F: Folder, L: Ledger>(
    alloc: Global,
    folder: &mut F,
    mut target: Target<F>,
    window: &Window,
    samples: &[Sample],
    cause: TargetFault,
    writes: &mut Counter<L>,
) -> bool
    requires target { IsTarget (F.names folder.old) target }
{
    let again = put_window(alloc, &mut target, folder, window, samples, writes) == Err(cause);
    let published = 0;
    let closed = target.close(folder, writes);
    again && closed == Err(CloseFault { published, cause })
}

/// Puts the windows of an output into its target, and closes it.
pub fn carried<F: Folder, L: Ledger>(
    alloc: Global,
    folder: &mut F,
    mut target: Target<F>,
    story: Story<'_>,
    blank: Blank,
) -> Ended
    requires target { IsTarget (F.names folder.old) target }
    requires name { blank.name ≡ L.name }
    requires parts { blank.parts ≡ L.parts }
    requires some { 0 < blank.parts }
{
    let mut writes: Counter<L> = Counter::open(blank);
    let samples = story.samples;
    for window in story.windows {
        match put_window(alloc, &mut target, folder, window, samples, &mut writes) {
            Ok(true) => {}
            Ok(false) => {
                target.give_up(folder);
                return Ended::NotAsked;
            }
            Err(cause) => {
                let still = stays(alloc, folder, target, window, samples, cause, &mut writes);
                return Ended::Refused(cause, still);
            }
        }
    }
    match target.close(folder, &mut writes) {
        Ok(()) => Ended::Closed,
        Err(CloseFault { published, cause }) => Ended::NotClosed(published, cause),
    }
}

/// Writes an output through a pool of so many blocks, at least one.
pub fn written<F: Folder>(
    alloc: Global,
    folder: &mut F,
    order: &Order,
    capacity: u16,
    story: Story<'_>,
) -> Ended {
    if capacity == 0 || !is_named_for(&order.plan, &order.name) {
        return Ended::NotAsked;
    }
    match Target::create(alloc, folder, &order.plan, &order.name, capacity as u32) {
        Ok(target) => carried::<F, Brand>(alloc, folder, target, story, Blank::new(1)),
        Err(fault) => Ended::NotMade(fault),
    }
}

/// The folder in which an output was written through a pool of so many blocks, and closed; none where it wasn't.
pub fn closed(
    alloc: Global,
    order: &Order,
    capacity: u16,
    story: Story<'_>,
) -> Result<Option<MemFolder>, Fail> {
    let mut folder = folder_of(alloc, &[], &[])?;
    let ended = written(alloc, &mut folder, order, capacity, story);
    Ok(if ended == Ended::Closed {
        Some(folder)
    } else {
        None
    })
}

// Puts windows into a target, and gives it up: whether each was put.
fn given_up<F: Folder, L: Ledger>(
    alloc: Global,
    folder: &mut F,
    mut target: Target<F>,
    story: Story<'_>,
    blank: Blank,
) -> bool
    requires target { IsTarget (F.names folder.old) target }
    requires name { blank.name ≡ L.name }
    requires parts { blank.parts ≡ L.parts }
    requires some { 0 < blank.parts }
{
    let mut writes: Counter<L> = Counter::open(blank);
    let samples = story.samples;
    let mut all = true;
    for window in story.windows {
        if put_window(alloc, &mut target, folder, window, samples, &mut writes) != Ok(true) {
            all = false;
        }
    }
    target.give_up(folder);
    all
}

/// Puts windows into an output's target through a pool of so many blocks, and gives it up: whether each was put.
pub fn tried<F: Folder>(
    alloc: Global,
    folder: &mut F,
    order: &Order,
    capacity: u16,
    story: Story<'_>,
) -> bool {
    if capacity == 0 || !is_named_for(&order.plan, &order.name) {
        return false;
    }
    match Target::create(alloc, folder, &order.plan, &order.name, capacity as u32) {
        Ok(target) => given_up::<F, Brand>(alloc, folder, target, story, Blank::new(1)),
        Err(_) => false,
    }
}

/// Asserts that no row of a table is wrong.
pub fn none_wrong(rt: &impl Abort, wrong: Result<Option<usize>, Fail>) -> Result<(), Fail> {
    assert_eq!(*rt; wrong?, None);
    Ok(())
}

/// Asserts that something holds.
pub fn holds(rt: &impl Abort, held: Result<bool, Fail>) -> Result<(), Fail> {
    assert!(*rt; held?);
    Ok(())
}
