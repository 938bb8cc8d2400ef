// The work that words ask for.
ghost use Rattle.std.specs.Prelude.{◌≡◌, ◌<◌, ◌≤◌, All, IfSome, IfOk, IfErr};
ghost use Rattle.lists_and_answers.specs.Answers.{Gives};
ghost use Rattle.translate_plan.specs.Options.{IsDriver, IsView, IsOutSize};
ghost use Rattle.buildvrt.specs.Options.{IsResolution, IsExtent};
ghost use Rattle.catalog.specs.Nodata.{IsNodataWord};
ghost use Rattle.command_words.specs.Jobs.{asked_point, form_of, format_for, layout_for, written_as, is_same_format};
ghost use Rattle.command_words.specs.Jobs.{of_format, written_of, view_of, layout_in, asked_of, info_job, locate_job};
ghost use Rattle.command_words.specs.Jobs.{translate_job, inputs_of, separate_of, named_resolution, given_resolution};
ghost use Rattle.command_words.specs.Jobs.{resolution_of, asked_mosaic, build_job, synth_job, job_of};
ghost use Rattle.command_words.specs.Words.{IsMemory};
ghost use Rattle.geotransform.specs.Limits.{most_bands};

use crate::command::Job;
use crate::numbers::{AskedExtent, AskedNodata, AskedResolution, AskedView, Side};
use crate::options::Tool;
use crate::spoken::{MosaicWanted, OutFormat, ResolutionWord, Spoken, Wanted, WordFault};
use buildvrt::{BuildOptions, Extent, Resolution};
use catalog::NodataWord;
use esri_hdr::Layout;
use geotransform::BandNumber;
use input_points::Position;
use location_report::Form;
use outside::{Ext, Name, Names};
use std::alloc::Global;
use translate_plan::{Driver, Numbers, OutSize, TranslateOptions, View, driver_for};

/// How an output is written.
#[derive(Clone, Copy)]
pub struct Written {
    pub format: OutFormat,
    pub driver: Driver,
    /// How the bands of raw data lie, where nothing else is asked for.
    pub layout: Layout,
}

fn point_of(x: Option<Position>, y: Option<Position>) -> Option<Option<(Position, Position)>>
    ensures { result ≡ asked_point x y }
{
    match (x, y) {
        (None, None) => Some(None),
        (Some(x), Some(y)) => Some(Some((x, y))),
        (None, Some(_)) | (Some(_), None) => None,
    }
}

fn form_of(values_only: Option<u64>, files_only: Option<u64>) -> Result<Form, WordFault>
    ensures { result ≡ form_of values_only files_only }
{
    match (values_only, files_only) {
        (None, None) => Ok(Form::Report),
        (Some(_), None) => Ok(Form::ValuesOnly),
        (None, Some(_)) => Ok(Form::FilesOnly),
        (Some(values), Some(files)) => Err(WordFault::Usage {
            word: values.max(files),
        }),
    }
}

#[tactic(auto, unfolding(crate::specs::Jobs::info_job))]
fn info_job(count: u64, mut said: Spoken) -> Result<Job, WordFault>
    ensures { result ≡ info_job count said }
{
    let source = said.source.take();
    drop(said);
    match source {
        Some(name) => Ok(Job::Info { name }),
        None => Err(WordFault::Usage { word: count }),
    }
}

#[tactic(auto, unfolding(crate::specs::Jobs::locate_job))]
fn locate_job(count: u64, said: Spoken) -> Result<Job, WordFault>
    ensures { result ≡ locate_job count said }
{
    let Spoken {
        values_only,
        files_only,
        geoloc,
        bands,
        list,
        inputs,
        source,
        output,
        x,
        y,
        ..
    } = said;
    drop((list, inputs, output));
    let Some(name) = source else {
        return Err(WordFault::Usage { word: count });
    };
    let Some(point) = point_of(x, y) else {
        return Err(WordFault::Usage { word: count });
    };
    let form = form_of(values_only, files_only)?;
    Ok(Job::Locate {
        name,
        point,
        bands,
        form,
        geoloc,
    })
}

fn format_for(driver: Driver) -> OutFormat
    ensures { result ≡ format_for driver }
{
    match driver {
        Driver::EHdr => OutFormat::EHdr,
        Driver::Dted { .. } => OutFormat::Dted,
        Driver::SrtmHgt => OutFormat::SrtmHgt,
        Driver::AaiGrid => OutFormat::AaiGrid,
        Driver::Vrt => OutFormat::Vrt,
    }
}

fn layout_for(ext: Ext) -> Layout
    ensures { result ≡ layout_for ext }
{
    match ext {
        Ext::Bip => Layout::Bip,
        Ext::Bsq => Layout::Bsq,
        _ => Layout::Bil,
    }
}

// How a file of this extension is written.
fn written_as(ext: Ext) -> Written
    ensures value { result ≡ written_as ext }
    ensures kept { IsDriver result.driver }
{
    let driver = driver_for(ext);
    Written {
        format: format_for(driver),
        driver,
        layout: layout_for(ext),
    }
}

fn is_same_format(format: OutFormat, other: OutFormat) -> bool
    ensures { result ≡ is_same_format format other }
{
    match (format, other) {
        (OutFormat::EHdr, OutFormat::EHdr)
        | (OutFormat::Dted, OutFormat::Dted)
        | (OutFormat::SrtmHgt, OutFormat::SrtmHgt)
        | (OutFormat::AaiGrid, OutFormat::AaiGrid)
        | (OutFormat::Vrt, OutFormat::Vrt) => true,
        _ => false,
    }
}

fn of_format(format: Option<OutFormat>, written: Written) -> Option<Written>
    ensures value { result ≡ of_format format written }
    ensures kept { IfSome result (λ w. w ≡ written) }
{
    match format {
        None => Some(written),
        Some(format) => {
            if is_same_format(format, written.format) {
                Some(written)
            } else {
                None
            }
        }
    }
}

// How an output of this name is written, in the format that is asked for.
#[tactic(auto, unfolding(crate::specs::Jobs::written_of))]
fn written_of(format: Option<OutFormat>, name: &Name) -> Option<Written>
    ensures value { result ≡ written_of format name.now }
    ensures kept { IfSome result (λ w. IsDriver w.driver) }
{
    let ext = name.extension()?;
    let written = written_as(ext);
    of_format(format, written)
}

fn view_of(
    window: Option<(u64, AskedView)>,
    places: Option<(u64, AskedView)>,
) -> Result<View, WordFault>
    ensures value { result ≡ view_of window places }
    ensures kept { IfOk result IsView }
{
    match (window, places) {
        (None, None) => Ok(View::Whole),
        (Some((_, view)), None) | (None, Some((_, view))) => Ok(view.get()),
        (Some((window, _)), Some((places, _))) => Err(WordFault::Usage {
            word: window.max(places),
        }),
    }
}

fn layout_in(interleave: Option<(u64, Layout)>, written: Written) -> Result<Layout, WordFault>
    ensures { result ≡ layout_in interleave written }
{
    match interleave {
        None => Ok(written.layout),
        Some((at, layout)) => {
            if is_same_format(OutFormat::EHdr, written.format) {
                Ok(layout)
            } else {
                Err(WordFault::Usage { word: at })
            }
        }
    }
}

// The numbers of these bands.
#[tactic(auto, using(crate::proofs::Listed::numbers_more))]
fn numbers_of(alloc: Global, bands: &[BandNumber]) -> Result<Numbers, WordFault>
    ensures ok { IfOk result (λ numbers. numbers ≡ bands.now) }
    ensures within { IfOk result (All (λ b. (0 < b) × (b ≤ most_bands))) }
    ensures err { IfErr result IsMemory }
{
    let mut numbers = Numbers::new(alloc);
    for band in bands {
        numbers.push(band.get())?;
    }
    Ok(numbers)
}

// The sides that are asked for.
fn sides_of(sides: Option<(Side, Side)>) -> Option<(OutSize, OutSize)>
    ensures value { result ≡ sides }
    ensures kept { IfSome result (λ s. IsOutSize s.0 × IsOutSize s.1) }
{
    match sides {
        None => None,
        Some((w, h)) => Some((w.get(), h.get())),
    }
}

/// How an output is written, and which window of the source it shows.
#[derive(Clone, Copy)]
pub struct Asked {
    pub written: Written,
    pub view: View,
    pub layout: Layout,
}

// How the output of this name, which is the word of this number, is to be: what doesn't go together is refused.
#[tactic(auto, unfolding(crate::specs::Jobs::asked_of))]
fn asked_of(wanted: Wanted, at: u64, name: &Name) -> Result<Asked, WordFault>
    ensures value { result ≡ asked_of wanted at name.now }
    ensures kept { IfOk result (λ a. IsDriver a.written.driver × IsView a.view) }
{
    let Some(written) = written_of(wanted.format, name) else {
        return Err(WordFault::Usage { word: at });
    };
    let view = view_of(wanted.window, wanted.places)?;
    let layout = layout_in(wanted.interleave, written)?;
    Ok(Asked {
        written,
        view,
        layout,
    })
}

#[tactic(auto, unfolding(crate::specs::Jobs::translate_job))]
fn translate_job(alloc: Global, count: u64, said: Spoken) -> Result<Job, WordFault>
    ensures { Gives IsMemory (λ job. job) result (translate_job count said) }
{
    let Spoken {
        bands,
        quiet,
        wanted,
        list,
        inputs,
        source,
        output,
        ..
    } = said;
    drop((list, inputs));
    let Some(src) = source else {
        return Err(WordFault::Usage { word: count });
    };
    let Some((at, out)) = output else {
        return Err(WordFault::Usage { word: count });
    };
    let asked = asked_of(wanted, at, &out)?;
    let options = TranslateOptions {
        driver: asked.written.driver,
        layout: asked.layout,
        out,
        bands: numbers_of(alloc, bands.as_slice())?,
        view: asked.view,
        outsize: sides_of(wanted.outsize),
        nodata: wanted.nodata.get(),
        kind: wanted.kind,
        epo: wanted.inside,
        eco: wanted.touching,
    };
    Ok(Job::Translate {
        src,
        options,
        quiet,
    })
}

// The inputs that stand among the words; a mosaic needs one, or a list of them.
fn inputs_of(count: u64, inputs: Names, list: &Option<Name>) -> Result<Names, WordFault>
    ensures { result ≡ inputs_of count inputs list.now }
{
    if inputs.is_empty() && list.is_none() {
        Err(WordFault::Usage { word: count })
    } else {
        Ok(inputs)
    }
}

fn separate_of(separate: Option<u64>, band: Option<u64>) -> Result<bool, WordFault>
    ensures { result ≡ separate_of separate band }
{
    match (separate, band) {
        (None, _) => Ok(false),
        (Some(_), None) => Ok(true),
        (Some(separate), Some(band)) => Err(WordFault::Usage {
            word: separate.max(band),
        }),
    }
}

fn named_resolution(count: u64, word: ResolutionWord) -> Result<Resolution, WordFault>
    ensures value { result ≡ named_resolution count word }
    ensures kept { IfOk result IsResolution }
{
    match word {
        ResolutionWord::Highest => Ok(Resolution::Highest),
        ResolutionWord::Lowest => Ok(Resolution::Lowest),
        ResolutionWord::Average => Ok(Resolution::Average),
        ResolutionWord::User => Err(WordFault::Usage { word: count }),
    }
}

fn given_resolution(
    named: (u64, ResolutionWord),
    given: (u64, AskedResolution),
) -> Result<Resolution, WordFault>
    ensures value { result ≡ given_resolution named given }
    ensures kept { IfOk result IsResolution }
{
    match named.1 {
        ResolutionWord::User => Ok(given.1.get()),
        ResolutionWord::Highest | ResolutionWord::Lowest | ResolutionWord::Average => {
            Err(WordFault::Usage {
                word: named.0.max(given.0),
            })
        }
    }
}

// The resolution of a mosaic, by its word and the given size of pixels.
fn resolution_of(
    count: u64,
    named: Option<(u64, ResolutionWord)>,
    given: Option<(u64, AskedResolution)>,
) -> Result<Resolution, WordFault>
    ensures value { result ≡ resolution_of count named given }
    ensures kept { IfOk result IsResolution }
{
    match (named, given) {
        (None, None) => Ok(Resolution::Average),
        (None, Some((_, size))) => Ok(size.get()),
        (Some((_, word)), None) => named_resolution(count, word),
        (Some(named), Some(given)) => given_resolution(named, given),
    }
}

/// Whether each input gives a band of its own, and the resolution of a mosaic.
#[derive(Clone, Copy)]
pub struct AskedMosaic {
    pub separate: bool,
    pub resolution: Resolution,
}

// How the mosaic of this name, which is the word of this number, is to be: what doesn't go together is refused.
#[tactic(auto, unfolding(crate::specs::Jobs::asked_mosaic))]
fn asked_mosaic(
    count: u64,
    wanted: MosaicWanted,
    band_at: Option<u64>,
    at: u64,
    name: &Name,
) -> Result<AskedMosaic, WordFault>
    ensures value { result ≡ asked_mosaic count wanted band_at at name.now }
    ensures kept { IfOk result (λ a. IsResolution a.resolution) }
{
    let Some(_) = written_of(Some(OutFormat::Vrt), name) else {
        return Err(WordFault::Usage { word: at });
    };
    let separate = separate_of(wanted.separate, band_at)?;
    let resolution = resolution_of(count, wanted.resolution, wanted.pixel_size)?;
    Ok(AskedMosaic {
        separate,
        resolution,
    })
}

// The extent that is asked for.
fn extent_of(extent: Option<AskedExtent>) -> Option<Extent>
    ensures value { result ≡ extent }
    ensures kept { IfSome result IsExtent }
{
    match extent {
        None => None,
        Some(extent) => Some(extent.get()),
    }
}

// The NODATA that is asked for.
fn nodata_of(nodata: AskedNodata) -> NodataWord
    ensures value { result ≡ nodata }
    ensures kept { IsNodataWord result }
{
    nodata.get()
}

#[tactic(auto, unfolding(crate::specs::Jobs::build_job))]
fn build_job(alloc: Global, count: u64, said: Spoken) -> Result<Job, WordFault>
    ensures { Gives IsMemory (λ job. job) result (build_job count said) }
{
    let Spoken {
        bands,
        band_at,
        quiet,
        mosaic,
        list,
        inputs,
        source,
        output,
        ..
    } = said;
    drop(source);
    let Some((at, out)) = output else {
        return Err(WordFault::Usage { word: count });
    };
    let inputs = inputs_of(count, inputs, &list)?;
    let asked = asked_mosaic(count, mosaic, band_at, at, &out)?;
    let options = BuildOptions {
        out,
        bands: numbers_of(alloc, bands.as_slice())?,
        resolution: asked.resolution,
        extent: extent_of(mosaic.extent),
        src_nodata: nodata_of(mosaic.src_nodata),
        vrt_nodata: nodata_of(mosaic.vrt_nodata),
        separate: asked.separate,
        strict: mosaic.strict,
    };
    Ok(Job::Build {
        inputs,
        list,
        options,
        quiet,
    })
}

#[tactic(auto, unfolding(crate::specs::Jobs::synth_job))]
fn synth_job(count: u64, said: Spoken) -> Result<Job, WordFault>
    ensures { result ≡ synth_job count said }
{
    let tile = said.tile;
    drop(said);
    match tile {
        Some(side) => Ok(Job::Synth { side }),
        None => Err(WordFault::Usage { word: count }),
    }
}

/// The work that the words ask for, of which there are so many.
pub fn job_of(alloc: Global, tool: Tool, count: u64, said: Spoken) -> Result<Job, WordFault>
    ensures { Gives IsMemory (λ job. job) result (job_of tool count said) }
{
    match tool {
        Tool::Info => info_job(count, said),
        Tool::Locate => locate_job(count, said),
        Tool::Translate => translate_job(alloc, count, said),
        Tool::Build => build_job(alloc, count, said),
        Tool::Synth => synth_job(count, said),
    }
}
