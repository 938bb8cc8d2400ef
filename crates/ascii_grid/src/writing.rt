// Writing a grid.
ghost use Rattle.std.specs.Prelude.{◌≡◌, ◌≤◌, ◌++◌, ◌∷◌, [], OnOk, OnErr, codes};
ghost use Rattle.std.specs.List.{flat_map};
ghost use Rattle.std.specs.Option.{option_map};
ghost use Rattle.std.specs.Fmt.{decimal, signed_decimal};
ghost use Rattle.lists_and_answers.specs.Growth.{Adds, KeepsFront};
ghost use Rattle.geotransform.specs.Geo.{IsRaster};
ghost use Rattle.geotransform.specs.Print.{short_text};
ghost use Rattle.ascii_grid.specs.Text.{more_text, row_text, line, size_lines, edge_lines, step_lines};
ghost use Rattle.ascii_grid.specs.Text.{nodata_line, head_text};

use crate::placing::{Placing, placing_of};
use geotransform::{GeoTransform, Sample, Size, Ticks, print_short};
use itoa::Buffer;
use std::alloc::AllocError;

fn push_number(n: Sample, out: &mut Vec<u8>) -> Result<(), AllocError>
    ensures ok { OnOk result (out.new.items ≡ out.old.items ++ signed_decimal n) }
    ensures err { OnErr result (out.new.items ≡ out.old.items) }
{
    let mut buffer = Buffer::new();
    out.extend_from_slice(buffer.format(n).as_bytes())
}

// Appends a space and a value.
#[tactic(auto, using(crate::proofs::Writes::keeps_pushed))]
fn push_more(n: Sample, out: &mut Vec<u8>) -> Result<(), AllocError>
    ensures ok { OnOk result (out.new.items ≡ out.old.items ++ more_text n) }
    ensures err { OnErr result (KeepsFront out.old.items out.new.items) }
{
    out.push(b' ')?;
    push_number(n, out)
}

// Appends values, each behind a space.
fn push_rest(samples: &[Sample], out: &mut Vec<u8>) -> Result<(), AllocError>
    ensures ok { OnOk result (out.new.items ≡ out.old.items ++ flat_map more_text samples.now) }
    ensures err { OnErr result (KeepsFront out.old.items out.new.items) }
{
    for n in samples {
        push_more(*n, out)?;
    }
    Ok(())
}

fn push_end(out: &mut Vec<u8>) -> Result<(), AllocError>
    ensures ok { OnOk result (out.new.items ≡ out.old.items ++ 10 ∷ []) }
    ensures err { OnErr result (out.new.items ≡ out.old.items) }
{
    out.push(b'\n')?;
    Ok(())
}

/// Appends the values of a row, one space between two, and a line feed. Where memory is refused, `out`
/// begins with what it held.
#[tactic(auto, using(crate::proofs::Writes::row_added, crate::proofs::Writes::keeps_pushed, crate::proofs::Writes::keeps_then, crate::proofs::Writes::keeps_same, crate::proofs::Writes::keeps_two))]
pub fn write_row(samples: &[Sample], out: &mut Vec<u8>) -> Result<(), AllocError>
    ensures ok { OnOk result (out.new.items ≡ out.old.items ++ row_text samples.now) }
    ensures err { OnErr result (KeepsFront out.old.items out.new.items) }
{
    match samples {
        [] => push_end(out),
        [first, rest @ ..] => {
            push_number(*first, out)?;
            push_rest(rest, out)?;
            push_end(out)
        }
    }
}

// Appends a key with its spaces, a value and a line feed.
#[tactic(auto, using(crate::proofs::Writes::line_made, crate::proofs::Writes::keeps_pushed, crate::proofs::Writes::keeps_two))]
fn push_line(label: &[u8], value: &[u8], out: &mut Vec<u8>) -> Result<(), AllocError>
    ensures ok { OnOk result (Adds out.old.items out.new.items (label.now ++ (value.now ++ 10 ∷ []))) }
    ensures err { OnErr result (KeepsFront out.old.items out.new.items) }
{
    out.extend_from_slice(label)?;
    out.extend_from_slice(value)?;
    push_end(out)
}

fn push_count(label: &[u8], n: u32, out: &mut Vec<u8>) -> Result<(), AllocError>
    ensures ok { OnOk result (Adds out.old.items out.new.items (label.now ++ (decimal n ++ 10 ∷ []))) }
    ensures err { OnErr result (KeepsFront out.old.items out.new.items) }
{
    let mut buffer = Buffer::new();
    push_line(label, buffer.format(n).as_bytes(), out)
}

fn push_ticks(label: &[u8], value: Ticks, out: &mut Vec<u8>) -> Result<(), AllocError>
    ensures ok { OnOk result (Adds out.old.items out.new.items (label.now ++ (short_text value ++ 10 ∷ []))) }
    ensures err { OnErr result (KeepsFront out.old.items out.new.items) }
{
    out.extend_from_slice(label)?;
    print_short(value, out)?;
    push_end(out)
}

#[tactic(auto, using(crate::proofs::Writes::two_added, crate::proofs::Writes::keeps_added))]
fn push_sizes(size: Size, out: &mut Vec<u8>) -> Result<(), AllocError>
    ensures ok { OnOk result (Adds out.old.items out.new.items (size_lines size)) }
    ensures err { OnErr result (KeepsFront out.old.items out.new.items) }
{
    push_count(b"ncols        ", size.w, out)?;
    push_count(b"nrows        ", size.h, out)
}

#[tactic(auto, using(crate::proofs::Writes::two_added, crate::proofs::Writes::keeps_added))]
fn push_edges(placing: &Placing, out: &mut Vec<u8>) -> Result<(), AllocError>
    ensures ok { OnOk result (Adds out.old.items out.new.items (edge_lines placing.now)) }
    ensures err { OnErr result (KeepsFront out.old.items out.new.items) }
{
    push_ticks(b"xllcorner    ", placing.left, out)?;
    push_ticks(b"yllcorner    ", placing.bottom, out)
}

#[tactic(auto, using(crate::proofs::Writes::two_added, crate::proofs::Writes::keeps_added))]
fn push_two_steps(placing: &Placing, out: &mut Vec<u8>) -> Result<(), AllocError>
    ensures ok { OnOk result (Adds out.old.items out.new.items (line (codes "dx") (short_text placing.now.width)
        ++ line (codes "dy") (short_text placing.now.height))) }
    ensures err { OnErr result (KeepsFront out.old.items out.new.items) }
{
    push_ticks(b"dx           ", placing.width, out)?;
    push_ticks(b"dy           ", placing.height, out)
}

fn push_steps(placing: &Placing, out: &mut Vec<u8>) -> Result<(), AllocError>
    ensures ok { OnOk result (Adds out.old.items out.new.items (step_lines placing.now)) }
    ensures err { OnErr result (KeepsFront out.old.items out.new.items) }
{
    let width = placing.width.get();
    let height = placing.height.get();
    if width <= height && height <= width {
        push_ticks(b"cellsize     ", placing.width, out)
    } else {
        push_two_steps(placing, out)
    }
}

#[tactic(auto, using(crate::proofs::Writes::nothing_added))]
fn push_nodata(nodata: Option<Sample>, out: &mut Vec<u8>) -> Result<(), AllocError>
    ensures ok { OnOk result (Adds out.old.items out.new.items (nodata_line nodata)) }
    ensures err { OnErr result (KeepsFront out.old.items out.new.items) }
{
    match nodata {
        None => Ok(()),
        Some(n) => {
            let mut buffer = Buffer::new();
            push_line(b"NODATA_value ", buffer.format(n).as_bytes(), out)
        }
    }
}

/// Appends the head of a grid of `size` columns and lines: a line for each key, which is filled with
/// spaces to 13 columns, first `ncols` and `nrows`, then `xllcorner` and `yllcorner`, `cellsize` or,
/// where the sizes of a pixel differ, `dx` and `dy`, and `NODATA_value` where there is one. Coordinates
/// are rounded to 16 places. Without a geotransform the corners are 0 and the size is 1. Where memory
/// is refused, `out` begins with what it held.
#[tactic(auto, unfolding(crate::specs::Text::head_text), using(crate::proofs::Writes::four_added, crate::proofs::Writes::keeps_added))]
pub fn write_head(
    size: Size,
    geo: Option<&GeoTransform>,
    nodata: Option<Sample>,
    out: &mut Vec<u8>,
) -> Result<(), AllocError>
    requires size { IsRaster size }
    ensures ok { OnOk result (out.new.items ≡ out.old.items ++ head_text size (option_map (λ g. g.now) geo.entry)
        nodata) }
    ensures err { OnErr result (KeepsFront out.old.items out.new.items) }
{
    let placing = placing_of(size, geo);
    push_sizes(size, out)?;
    push_edges(&placing, out)?;
    push_steps(&placing, out)?;
    push_nodata(nodata, out)
}
