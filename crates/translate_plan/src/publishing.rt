// The document that shows the output of a plan.
ghost use Rattle.std.specs.Prelude.{◌≡◌, ◌<◌, ◌≤◌, ◌++◌, ◌∷◌, [], Some, length, map, option_map, slice_get, IfOk};
ghost use Rattle.translate_plan.specs.declared.options.Driver.TheVariants.{Vrt};
ghost use Rattle.translate_plan.specs.Documents.{window_of, shown_source, shown_band, document_by};

use crate::planned::Plan;
use catalog::Head;
use outside::Name;
use std::alloc::{AllocError, Global};
use vrt_profile::{
    BandList, Document, MicroRect, Source, SourceList, VrtBand, pixel_rect, plain_source,
    whole_rect,
};

// The window of the source.
fn window_of(plan: &Plan) -> MicroRect
    ensures window { result ≡ window_of plan.now }
{
    plan.rules();
    let (x, y, size) = (plan.x, plan.y, plan.window);
    pixel_rect(x as i128, y as i128, size.w as i128, size.h as i128)
}

// The source of an output's band, counted from 0.
#[tactic(auto, using(crate::proofs::Added::source_told, crate::proofs::Added::source_few))]
fn shown_source(
    alloc: Global,
    plan: &Plan,
    base: &Name,
    name: &Name,
    k: u32,
) -> Result<Source, AllocError>
    requires k { k < length plan.now.bands }
    ensures source { IfOk result (λ s. option_map (shown_source plan.now base.now name.now) (slice_get plan.now.bands k)
        ≡ Some s) }
{
    plan.rules();
    let whole = whole_rect(plan.size);
    plain_source(
        alloc,
        base,
        name,
        plan.source(k) + 1,
        window_of(plan),
        whole,
        None,
    )
}

// The sources of an output's band, which is one.
#[tactic(auto, using(crate::proofs::Added::sources_told))]
fn shown_sources(
    alloc: Global,
    plan: &Plan,
    base: &Name,
    name: &Name,
    k: u32,
) -> Result<SourceList, AllocError>
    requires k { k < length plan.now.bands }
    ensures sources { IfOk result (λ l. option_map (λ b. shown_source plan.now base.now name.now b ∷ [])
        (slice_get plan.now.bands k) ≡ Some l) }
{
    let mut sources = SourceList::new(alloc);
    sources.push(shown_source(alloc, plan, base, name, k)?)?;
    Ok(sources)
}

// An output's band, counted from 0.
#[tactic(auto, using(crate::proofs::Added::band_told))]
fn shown_band(
    alloc: Global,
    plan: &Plan,
    base: &Name,
    name: &Name,
    k: u32,
) -> Result<VrtBand, AllocError>
    requires k { k < length plan.now.bands }
    ensures band { IfOk result (λ b. option_map (shown_band plan.now base.now name.now) (slice_get plan.now.bands k)
        ≡ Some b) }
{
    plan.rules();
    let sources = shown_sources(alloc, plan, base, name, k)?;
    Ok(sources.into_band(plan.kind(k), plan.nodata(k)))
}

// The output's bands, in order.
#[tactic(auto, using(crate::proofs::Added::bands_next))]
fn shown_bands(alloc: Global, plan: &Plan, base: &Name, name: &Name) -> Result<BandList, AllocError>
    ensures bands { IfOk result (λ l. l ≡ map (shown_band plan.now base.now name.now) plan.now.bands) }
{
    let mut bands = BandList::new(alloc);
    for k in 0..plan.count() {
        bands.push(shown_band(alloc, plan, base, name, k)?)?;
    }
    Ok(bands)
}

/// The document with the name `base` that shows the output of a plan of a mosaic: each band has the
/// window of the plan of its band of the dataset with this head as its one source, on the whole of the
/// output.
#[tactic(auto, using(crate::proofs::Added::counts_are))]
pub fn document(
    alloc: Global,
    plan: &Plan,
    base: &Name,
    head: &Head,
) -> Result<Document, AllocError>
    requires driver { plan.now.driver ≡ Vrt }
    ensures document { IfOk result (λ d. d ≡ document_by plan.now base.now head.now) }
{
    plan.rules();
    let bands = shown_bands(alloc, plan, base, &head.name)?;
    bands.into_document(plan.size, &head.srs, plan.geo)
}
