// The names of the files that a mosaic's pixel is covered by.
ghost use Rattle.std.specs.Prelude.{◌≡◌, ◌<◌, bytes_eq, length, take, slice_get, OnOk, OnErr, Some};
ghost use Rattle.lists_and_answers.specs.Lists.{with_name, is_among};
ghost use Rattle.catalog.specs.Dataset.{band_count};
ghost use Rattle.catalog.specs.Drivers.{Dataset};
ghost use Rattle.catalog.specs.Links.{source_at};
ghost use Rattle.location_report.specs.Covering.{covering_name, with_found, covering_in, with_covering};

use catalog::Catalog;
use geotransform::Size;
use mosaic_sources::cover;
use outside::{Name, Names};
use std::alloc::AllocError;
use vrt_profile::Source;

// Whether the two are one name.
#[tactic(auto, using(crate::proofs::Same::same_bytes))]
fn is_same(a: &Name, b: &Name) -> bool
    ensures { result ≡ bytes_eq a.now b.now }
{
    a.is(b)
}

// Whether a name is among others.
fn is_listed(names: &[Name], name: &Name) -> bool
    ensures { result ≡ is_among names.now name.now }
{
    names.iter().any(|n| is_same(n, name))
}

// Adds a name that isn't there yet.
#[tactic(auto, using(crate::proofs::Kept::kept_same, crate::proofs::Kept::kept_added))]
fn push_new(name: &Name, out: &mut Names) -> Result<(), AllocError>
    ensures ok { OnOk result (out.new ≡ with_name out.old name.now) }
    ensures err { OnErr result (out.new ≡ out.old) }
    ensures kept { take (length out.old) out.new ≡ out.old }
{
    if is_listed(out.as_slice(), name) {
        return Ok(());
    }
    out.push(name.try_clone()?)?;
    Ok(())
}

#[tactic(auto, using(crate::proofs::Same::covered, crate::proofs::Kept::kept_same))]
/// Adds the name of a source's dataset, which has this size in pixels, where the source covers column `x`, line `y`
/// of its mosaic, of the size `mosaic`, and the name isn't there yet. After want of memory the list is as before, and
/// what it held always stays in front.
pub fn push_covering(
    source: &Source,
    mosaic: Size,
    name: &Name,
    size: Size,
    x: u32,
    y: u32,
    out: &mut Names,
) -> Result<(), AllocError>
    ensures ok { OnOk result (out.new ≡ with_found out.old (covering_name source.now mosaic name.now size x y)) }
    ensures err { OnErr result (out.new ≡ out.old) }
    ensures kept { take (length out.old) out.new ≡ out.old }
{
    match cover(source, mosaic, size, x, y) {
        None => Ok(()),
        Some(_) => push_new(name, out),
    }
}

// A source: the mosaic's number, the band and the source in the band, each counted from 0.
#[derive(Clone, Copy)]
struct SourceAt {
    id: u32,
    band: u32,
    number: u32,
}

// Adds the name of the dataset that a source of a mosaic names, where it covers the pixel and the name isn't there yet.
fn push_member(
    cat: &Catalog,
    at: SourceAt,
    source: &Source,
    x: u32,
    y: u32,
    out: &mut Names,
) -> Result<(), AllocError>
    requires known { at.id < length cat.now }
    requires source { (d : Dataset) → slice_get cat.now at.id ≡ Some d →
        source_at d at.band at.number ≡ Some source.now }
    ensures ok { (d : Dataset) → slice_get cat.now at.id ≡ Some d →
        OnOk result (out.new ≡ with_found out.old (covering_in cat.now d x y source.now)) }
    ensures err { OnErr result (out.new ≡ out.old) }
    ensures kept { take (length out.old) out.new ≡ out.old }
{
    let dataset = cat.head(cat.member(at.id, at.band, at.number));
    let mosaic = cat.head(at.id).size;
    push_covering(source, mosaic, &dataset.name, dataset.size, x, y, out)
}

#[tactic(auto, using(crate::proofs::Named::fold_more, crate::proofs::Kept::kept_same, crate::proofs::Kept::kept_then), unfolding(crate::specs::Covering::with_covering))]
/// Adds the names of the datasets that cover column `x`, line `y` of a band of a mosaic by its own sources, in the
/// order of the document, each that isn't there yet. A dataset that is no mosaic adds none. The band is counted
/// from 0.
///
/// AllocError comes freely; the names that were there stay in front of those that were added until then.
pub fn files_at(
    cat: &Catalog,
    id: u32,
    band: u32,
    x: u32,
    y: u32,
    out: &mut Names,
) -> Result<(), AllocError>
    requires known { id < length cat.now }
    requires band { (d : Dataset) → slice_get cat.now id ≡ Some d → band < band_count d.head }
    ensures ok { (d : Dataset) → slice_get cat.now id ≡ Some d →
        OnOk result (out.new ≡ with_covering cat.now d band x y out.old) }
    ensures kept { take (length out.old) out.new ≡ out.old }
{
    let Some(document) = cat.document(id) else {
        return Ok(());
    };
    document.rules();
    let sources = &document.bands.get(band as usize).sources;
    for (number, source) in sources.as_slice().iter().enumerate() {
        let at = SourceAt {
            id,
            band,
            number: number as u32,
        };
        push_member(cat, at, source, x, y, out)?;
    }
    Ok(())
}
