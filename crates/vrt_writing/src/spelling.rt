// The text of a document: its elements, from the dataset to the parts of a source.
ghost use Rattle.std.specs.Prelude.{◌≡◌, ℕ, ℤ, pos, suc, ◌<◌, ◌≤◌, ◌++◌, ◌∷◌, [], codes, Option, Some, None};
ghost use Rattle.std.specs.Prelude.{OnOk, OnErr, length, flat_map, option_map};
ghost use Rattle.std.specs.List.{All};
ghost use Rattle.lists_and_answers.specs.Growth.{KeepsFront};
ghost use Rattle.vrt_profile.specs.Values.{IsPair};
ghost use Rattle.vrt_writing.specs.Spelled.{joined_text, lut_pair_text, next_pair_text, lut_text, lut_markup};
ghost use Rattle.vrt_writing.specs.Spelled.{place_markup, scaling_markup, source_tag, sources_markup, band_pairs};
ghost use Rattle.vrt_writing.specs.Spelled.{bands_markup, srs_markup, geo_text, geo_markup, size_pairs, parts_markup};
ghost use Rattle.vrt_writing.specs.Spelled.{spelled};
ghost use Rattle.vrt_writing.specs.Appended.{Appends, AppendsPairs, AppendsTag, source_text, band_text};
ghost use Rattle.geotransform.specs.Limits.{most_bands};

use crate::lines::{
    push_file, push_nodata, push_number_line, push_number_pair, push_open, push_rectangle,
    push_scale, push_text_line, push_text_pair,
};
use crate::writing::{push_end, push_end_line, push_micro, push_start};
use geotransform::{GeoTransform, PixelType, Size, Ticks, print_short};
use outside::Text;
use std::alloc::AllocError;
use vrt_profile::{Document, Lut, LutPair, Source, VrtBand};

#[tactic(auto, using(crate::proofs::Pieces::three, crate::proofs::Pieces::keeps_more, crate::proofs::Pieces::keeps_more_two, crate::proofs::Pieces::keeps_same))]
fn push_lut_pair(pair: LutPair, out: &mut Vec<u8>) -> Result<(), AllocError>
    requires near { IsPair pair }
    ensures ok { OnOk result (out.new.items ≡ out.old.items ++ lut_pair_text pair) }
    ensures err { OnErr result (KeepsFront out.old.items out.new.items) }
{
    push_micro(pair.input, out)?;
    out.extend_from_slice(b":")?;
    push_micro(pair.output, out)?;
    Ok(())
}

// A pair behind others.
#[tactic(auto, unfolding(crate::specs::Spelled::next_pair_text), using(crate::proofs::Pieces::two, crate::proofs::Pieces::keeps_more, crate::proofs::Pieces::keeps_same))]
fn push_next_pair(pair: LutPair, out: &mut Vec<u8>) -> Result<(), AllocError>
    requires near { IsPair pair }
    ensures ok { OnOk result (out.new.items ≡ out.old.items ++ next_pair_text pair) }
    ensures err { OnErr result (KeepsFront out.old.items out.new.items) }
{
    out.extend_from_slice(b",")?;
    push_lut_pair(pair, out)?;
    Ok(())
}

// The pairs behind the first.
fn push_next_pairs(pairs: &[LutPair], out: &mut Vec<u8>) -> Result<(), AllocError>
    requires near { All IsPair pairs.now }
    ensures ok { OnOk result (out.new.items ≡ out.old.items ++ flat_map next_pair_text pairs.now) }
    ensures err { OnErr result (KeepsFront out.old.items out.new.items) }
{
    for pair in pairs {
        push_next_pair(*pair, out)?;
    }
    Ok(())
}

#[tactic(auto, using(crate::proofs::Pieces::two, crate::proofs::Pieces::keeps_more, crate::proofs::Pieces::keeps_same))]
fn push_pairs(pairs: &[LutPair], out: &mut Vec<u8>) -> Result<(), AllocError>
    requires near { All IsPair pairs.now }
    ensures ok { OnOk result (out.new.items ≡ out.old.items ++ lut_text pairs.now) }
    ensures err { OnErr result (KeepsFront out.old.items out.new.items) }
{
    if let [first, more @ ..] = pairs {
        push_lut_pair(*first, out)?;
        push_next_pairs(more, out)?;
    }
    Ok(())
}

#[tactic(auto, using(crate::proofs::Pieces::words_made, crate::proofs::Pieces::keeps_more, crate::proofs::Pieces::keeps_more_two))]
fn push_lut_line(lut: &Lut, out: &mut Vec<u8>) -> Result<(), AllocError>
    ensures ok { OnOk result (Appends out.old.items out.new.items 3 (lut_markup (Some lut.now))) }
    ensures err { OnErr result (KeepsFront out.old.items out.new.items) }
{
    push_open(3, b"LUT", out)?;
    push_pairs(lut.pairs(), out)?;
    push_end(b"LUT", out)?;
    Ok(())
}

#[tactic(auto, using(crate::proofs::Pieces::appends_nothing, crate::proofs::Pieces::keeps_same))]
fn push_lut(lut: Option<&Lut>, out: &mut Vec<u8>) -> Result<(), AllocError>
    ensures ok { OnOk result (Appends out.old.items out.new.items 3 (lut_markup (option_map (λ t. t.now) lut.entry))) }
    ensures err { OnErr result (KeepsFront out.old.items out.new.items) }
{
    match lut {
        None => Ok(()),
        Some(lut) => push_lut_line(lut, out),
    }
}

// What is taken of a source's file.
#[tactic(auto, using(crate::proofs::Listed::four_both, crate::proofs::Pieces::keeps_appends, crate::proofs::Listed::keeps_appends_two, crate::proofs::Listed::keeps_appends_three))]
fn push_place(source: &Source, out: &mut Vec<u8>) -> Result<(), AllocError>
    ensures ok { OnOk result (Appends out.old.items out.new.items 3 (place_markup source.now)) }
    ensures err { OnErr result (KeepsFront out.old.items out.new.items) }
{
    push_file(source.relative, source.file.as_str(), out)?;
    push_number_line(3, b"SourceBand", source.band as u64, out)?;
    push_rectangle(b"SrcRect", source.src, out)?;
    push_rectangle(b"DstRect", source.dst, out)?;
    Ok(())
}

// What becomes of a source's pixels.
#[tactic(auto, using(crate::proofs::Listed::four_both, crate::proofs::Pieces::keeps_appends, crate::proofs::Listed::keeps_appends_two, crate::proofs::Listed::keeps_appends_three))]
fn push_scaling(source: &Source, out: &mut Vec<u8>) -> Result<(), AllocError>
    ensures ok { OnOk result (Appends out.old.items out.new.items 3 (scaling_markup source.now)) }
    ensures err { OnErr result (KeepsFront out.old.items out.new.items) }
{
    source.rules();
    push_nodata(3, b"NODATA", source.nodata(), out)?;
    push_scale(b"ScaleOffset", 0, source.offset(), out)?;
    push_scale(b"ScaleRatio", 1_000_000_000_000, source.ratio(), out)?;
    push_lut(source.lut(), out)?;
    Ok(())
}

fn source_tag(complex: bool) -> &'static [u8]
    ensures name { result.now ≡ source_tag complex }
{
    if complex {
        b"ComplexSource"
    } else {
        b"SimpleSource"
    }
}

// A start line without attributes.
#[tactic(auto, using(crate::proofs::Listed::bare_tag, crate::proofs::Pieces::keeps_more, crate::proofs::Pieces::keeps_same))]
fn push_bare_tag(level: usize, name: &[u8], out: &mut Vec<u8>) -> Result<(), AllocError>
    requires level { level ≤ 3 }
    ensures ok { OnOk result (AppendsTag out.old.items out.new.items level name.now []) }
    ensures err { OnErr result (KeepsFront out.old.items out.new.items) }
{
    push_start(level, name, out)?;
    out.extend_from_slice(b">\n")?;
    Ok(())
}

#[tactic(auto, unfolding(crate::specs::Appended::source_text), using(crate::proofs::Listed::source_made, crate::proofs::Listed::keeps_tag, crate::proofs::Listed::keeps_tag_then, crate::proofs::Listed::keeps_tag_two))]
fn push_source(source: &Source, out: &mut Vec<u8>) -> Result<(), AllocError>
    ensures ok { OnOk result (out.new.items ≡ out.old.items ++ source_text source.now) }
    ensures err { OnErr result (KeepsFront out.old.items out.new.items) }
{
    let name = source_tag(source.complex);
    push_bare_tag(2, name, out)?;
    push_place(source, out)?;
    push_scaling(source, out)?;
    push_end_line(2, name, out)?;
    Ok(())
}

#[tactic(auto, using(crate::proofs::Pieces::keeps_more))]
fn push_each_source(sources: &[Source], out: &mut Vec<u8>) -> Result<(), AllocError>
    ensures ok { OnOk result (out.new.items ≡ out.old.items ++ flat_map source_text sources.now) }
    ensures err { OnErr result (KeepsFront out.old.items out.new.items) }
{
    for source in sources {
        push_source(source, out)?;
    }
    Ok(())
}

#[tactic(auto, using(crate::proofs::Listed::sources_made))]
fn push_sources(sources: &[Source], out: &mut Vec<u8>) -> Result<(), AllocError>
    ensures ok { OnOk result (Appends out.old.items out.new.items 2 (sources_markup sources.now)) }
    ensures err { OnErr result (KeepsFront out.old.items out.new.items) }
{
    push_each_source(sources, out)?;
    Ok(())
}

// The attributes of a band.
fn push_band_pairs(kind: PixelType, number: u64, out: &mut Vec<u8>) -> Result<(), AllocError>
    ensures ok { OnOk result (AppendsPairs out.old.items out.new.items (band_pairs number kind)) }
    ensures err { OnErr result (KeepsFront out.old.items out.new.items) }
{
    push_text_pair(b"dataType", kind.name().as_bytes(), out)?;
    push_number_pair(b"band", number, out)?;
    Ok(())
}

#[tactic(auto, using(crate::proofs::Listed::tag_made, crate::proofs::Pieces::keeps_more, crate::proofs::Pieces::keeps_then_pairs, crate::proofs::Pieces::keeps_same))]
fn push_band_tag(kind: PixelType, number: u64, out: &mut Vec<u8>) -> Result<(), AllocError>
    ensures ok { OnOk result (AppendsTag out.old.items out.new.items 1 (codes "VRTRasterBand")
        (band_pairs number kind)) }
    ensures err { OnErr result (KeepsFront out.old.items out.new.items) }
{
    push_start(1, b"VRTRasterBand", out)?;
    push_band_pairs(kind, number, out)?;
    out.extend_from_slice(b">\n")?;
    Ok(())
}

fn push_band(band: &VrtBand, number: u64, out: &mut Vec<u8>) -> Result<(), AllocError>
    ensures ok { OnOk result (out.new.items ≡ out.old.items ++ band_text number band.now) }
    ensures err { OnErr result (KeepsFront out.old.items out.new.items) }
{
    push_band_tag(band.kind, number, out)?;
    push_nodata(2, b"NoDataValue", band.nodata, out)?;
    push_sources(band.sources.as_slice(), out)?;
    push_end_line(1, b"VRTRasterBand", out)?;
    Ok(())
}

#[tactic(auto, using(crate::proofs::Listed::bands_made))]
fn push_bands(bands: &[VrtBand], out: &mut Vec<u8>) -> Result<(), AllocError>
    requires few { length bands.now ≤ most_bands }
    ensures ok { OnOk result (Appends out.old.items out.new.items 1 (bands_markup 1 bands.now)) }
    ensures err { OnErr result (KeepsFront out.old.items out.new.items) }
{
    let mut number: u64 = 1;
    for band in bands {
        push_band(band, number, out)?;
        number += 1;
    }
    Ok(())
}

#[tactic(auto, using(crate::proofs::Pieces::appends_nothing, crate::proofs::Pieces::keeps_same))]
fn push_srs(srs: &Option<Text>, out: &mut Vec<u8>) -> Result<(), AllocError>
    ensures ok { OnOk result (Appends out.old.items out.new.items 1 (srs_markup srs.now)) }
    ensures err { OnErr result (KeepsFront out.old.items out.new.items) }
{
    match srs {
        None => Ok(()),
        Some(srs) => push_text_line(1, b"SRS", srs.as_str(), out),
    }
}

// Two numbers, with this between them.
#[tactic(auto, unfolding(crate::specs::Spelled::joined_text), using(crate::proofs::Pieces::keeps_more, crate::proofs::Pieces::keeps_more_two, crate::proofs::Pieces::keeps_same))]
fn push_joined(a: Ticks, between: &[u8], b: Ticks, out: &mut Vec<u8>) -> Result<(), AllocError>
    ensures ok { OnOk result (out.new.items ≡ out.old.items ++ joined_text a between.now b) }
    ensures err { OnErr result (KeepsFront out.old.items out.new.items) }
{
    print_short(a, out)?;
    out.extend_from_slice(between)?;
    print_short(b, out)?;
    Ok(())
}

#[tactic(auto, using(crate::proofs::Pieces::three, crate::proofs::Pieces::keeps_more, crate::proofs::Pieces::keeps_more_two, crate::proofs::Pieces::keeps_same))]
fn push_geo_text(geo: &GeoTransform, out: &mut Vec<u8>) -> Result<(), AllocError>
    ensures ok { OnOk result (out.new.items ≡ out.old.items ++ geo_text geo.now) }
    ensures err { OnErr result (KeepsFront out.old.items out.new.items) }
{
    push_joined(geo.ox, b", ", geo.dx, out)?;
    out.extend_from_slice(b", 0, ")?;
    push_joined(geo.oy, b", 0, ", geo.dy, out)?;
    Ok(())
}

#[tactic(auto, using(crate::proofs::Pieces::words_made, crate::proofs::Pieces::keeps_more, crate::proofs::Pieces::keeps_more_two))]
fn push_geo_line(geo: &GeoTransform, out: &mut Vec<u8>) -> Result<(), AllocError>
    ensures ok { OnOk result (Appends out.old.items out.new.items 1 (geo_markup (Some geo.now))) }
    ensures err { OnErr result (KeepsFront out.old.items out.new.items) }
{
    push_open(1, b"GeoTransform", out)?;
    push_geo_text(geo, out)?;
    push_end(b"GeoTransform", out)?;
    Ok(())
}

#[tactic(auto, using(crate::proofs::Pieces::appends_nothing, crate::proofs::Pieces::keeps_same))]
fn push_geo(geo: &Option<GeoTransform>, out: &mut Vec<u8>) -> Result<(), AllocError>
    ensures ok { OnOk result (Appends out.old.items out.new.items 1 (geo_markup geo.now)) }
    ensures err { OnErr result (KeepsFront out.old.items out.new.items) }
{
    match geo {
        None => Ok(()),
        Some(geo) => push_geo_line(geo, out),
    }
}

#[tactic(auto, using(crate::proofs::Pieces::pairs_then, crate::proofs::Pieces::keeps_pairs))]
fn push_size_pairs(size: Size, out: &mut Vec<u8>) -> Result<(), AllocError>
    ensures ok { OnOk result (AppendsPairs out.old.items out.new.items (size_pairs size)) }
    ensures err { OnErr result (KeepsFront out.old.items out.new.items) }
{
    push_number_pair(b"rasterXSize", size.w as u64, out)?;
    push_number_pair(b"rasterYSize", size.h as u64, out)?;
    Ok(())
}

#[tactic(auto, using(crate::proofs::Listed::tag_made, crate::proofs::Pieces::keeps_more, crate::proofs::Pieces::keeps_then_pairs, crate::proofs::Pieces::keeps_same))]
fn push_dataset_tag(size: Size, out: &mut Vec<u8>) -> Result<(), AllocError>
    ensures ok { OnOk result (AppendsTag out.old.items out.new.items 0 (codes "VRTDataset") (size_pairs size)) }
    ensures err { OnErr result (KeepsFront out.old.items out.new.items) }
{
    push_start(0, b"VRTDataset", out)?;
    push_size_pairs(size, out)?;
    out.extend_from_slice(b">\n")?;
    Ok(())
}

fn push_parts(document: &Document, out: &mut Vec<u8>) -> Result<(), AllocError>
    ensures ok { OnOk result (Appends out.old.items out.new.items 1 (parts_markup document.now)) }
    ensures err { OnErr result (KeepsFront out.old.items out.new.items) }
{
    document.rules();
    push_srs(&document.srs, out)?;
    push_geo(&document.geo, out)?;
    push_bands(document.bands.as_slice(), out)?;
    Ok(())
}

/// Appends the text of a document, in the one layout in which documents are written: two spaces for
/// each level, a line feed at the end of each line, no line for a part that is absent, numbers without
/// zeros at their ends. Where memory is refused, `out` begins with what it held.
#[tactic(auto, unfolding(crate::specs::Spelled::spelled), using(crate::proofs::Listed::dataset_made, crate::proofs::Listed::keeps_tag, crate::proofs::Listed::keeps_tag_then))]
pub fn write(document: &Document, out: &mut Vec<u8>) -> Result<(), AllocError>
    ensures ok { OnOk result (out.new.items ≡ out.old.items ++ spelled document.now) }
    ensures err { OnErr result (KeepsFront out.old.items out.new.items) }
{
    push_dataset_tag(document.size, out)?;
    push_parts(document, out)?;
    push_end_line(0, b"VRTDataset", out)?;
    Ok(())
}
