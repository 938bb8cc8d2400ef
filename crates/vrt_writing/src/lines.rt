// The lines of a document's elements.
ghost use Rattle.std.specs.Prelude.{◌≡◌, ℕ, ℤ, pos, ◌<◌, ◌≤◌, ◌^◌, ◌++◌, [], ◌∷◌, codes, Option, Some, OnOk};
ghost use Rattle.std.specs.Prelude.{OnErr, unsigned_abs};
ghost use Rattle.std.specs.Fmt.{decimal, signed_decimal};
ghost use Rattle.lists_and_answers.specs.Growth.{KeepsFront};
ghost use Rattle.vrt_profile.specs.Values.{scale_limit};
ghost use Rattle.vrt_writing.specs.Spelled.{words, indent, escaped, micro_text, part_text, pair, flag_text};
ghost use Rattle.vrt_writing.specs.Spelled.{file_markup, rectangle_pairs, rectangle_markup, nodata_markup};
ghost use Rattle.vrt_writing.specs.Spelled.{scale_markup};
ghost use Rattle.vrt_writing.specs.Appended.{Appends, AppendsPairs, FileOpens};

use crate::writing::{
    push_end, push_escaped, push_micro, push_number, push_part, push_signed, push_start,
};
use std::alloc::AllocError;
use vrt_profile::MicroRect;

/// Begins an element without attributes.
#[tactic(auto, using(crate::proofs::Pieces::opened, crate::proofs::Pieces::keeps_more))]
pub fn push_open(level: usize, name: &[u8], out: &mut Vec<u8>) -> Result<(), AllocError>
    requires level { level ≤ 3 }
    ensures ok { OnOk result (out.new.items ≡ out.old.items ++ (indent level ++ (60 ∷ name.now ++ 62 ∷ []))) }
    ensures err { OnErr result (KeepsFront out.old.items out.new.items) }
{
    push_start(level, name, out)?;
    out.extend_from_slice(b">")?;
    Ok(())
}

/// Appends the line of an element that holds a text.
#[tactic(auto, using(crate::proofs::Pieces::words_made, crate::proofs::Pieces::keeps_more, crate::proofs::Pieces::keeps_more_two))]
pub fn push_text_line(
    level: usize,
    name: &[u8],
    text: &str,
    out: &mut Vec<u8>,
) -> Result<(), AllocError>
    requires level { level ≤ 3 }
    ensures ok { OnOk result (Appends out.old.items out.new.items level (words name.now [] (escaped text.now))) }
    ensures err { OnErr result (KeepsFront out.old.items out.new.items) }
{
    push_open(level, name, out)?;
    push_escaped(text, out)?;
    push_end(name, out)?;
    Ok(())
}

/// Appends the line of an element that holds a whole number.
#[tactic(auto, using(crate::proofs::Pieces::words_made, crate::proofs::Pieces::keeps_more, crate::proofs::Pieces::keeps_more_two))]
pub fn push_number_line(
    level: usize,
    name: &[u8],
    n: u64,
    out: &mut Vec<u8>,
) -> Result<(), AllocError>
    requires level { level ≤ 3 }
    ensures ok { OnOk result (Appends out.old.items out.new.items level (words name.now [] (decimal n))) }
    ensures err { OnErr result (KeepsFront out.old.items out.new.items) }
{
    push_open(level, name, out)?;
    push_number(n, out)?;
    push_end(name, out)?;
    Ok(())
}

#[tactic(auto, using(crate::proofs::Pieces::words_made, crate::proofs::Pieces::keeps_more, crate::proofs::Pieces::keeps_more_two))]
fn push_signed_line(level: usize, name: &[u8], n: i128, out: &mut Vec<u8>) -> Result<(), AllocError>
    requires level { level ≤ 3 }
    ensures ok { OnOk result (Appends out.old.items out.new.items level (words name.now [] (signed_decimal n))) }
    ensures err { OnErr result (KeepsFront out.old.items out.new.items) }
{
    push_open(level, name, out)?;
    push_signed(n, out)?;
    push_end(name, out)?;
    Ok(())
}

#[tactic(auto, using(crate::proofs::Pieces::words_made, crate::proofs::Pieces::keeps_more, crate::proofs::Pieces::keeps_more_two))]
fn push_part_line(level: usize, name: &[u8], v: i128, out: &mut Vec<u8>) -> Result<(), AllocError>
    requires level { level ≤ 3 }
    requires small { unsigned_abs v < scale_limit }
    ensures ok { OnOk result (Appends out.old.items out.new.items level (words name.now [] (part_text v))) }
    ensures err { OnErr result (KeepsFront out.old.items out.new.items) }
{
    push_open(level, name, out)?;
    push_part(v, out)?;
    push_end(name, out)?;
    Ok(())
}

/// Appends a NODATA, where there is one.
#[tactic(auto, using(crate::proofs::Pieces::appends_nothing))]
pub fn push_nodata(
    level: usize,
    name: &[u8],
    nodata: Option<i128>,
    out: &mut Vec<u8>,
) -> Result<(), AllocError>
    requires level { level ≤ 3 }
    ensures ok { OnOk result (Appends out.old.items out.new.items level (nodata_markup name.now nodata)) }
    ensures err { OnErr result (KeepsFront out.old.items out.new.items) }
{
    match nodata {
        None => Ok(()),
        Some(n) => push_signed_line(level, name, n, out),
    }
}

/// Appends a number of a scaling, unless it is the one that changes nothing.
#[tactic(auto, using(crate::proofs::Pieces::scale_nothing, crate::proofs::Pieces::scale_words))]
pub fn push_scale(name: &[u8], usual: i128, v: i128, out: &mut Vec<u8>) -> Result<(), AllocError>
    requires small { unsigned_abs v < scale_limit }
    ensures ok { OnOk result (Appends out.old.items out.new.items 3 (scale_markup name.now usual v)) }
    ensures err { OnErr result (KeepsFront out.old.items out.new.items) }
{
    if v == usual {
        return Ok(());
    }
    push_part_line(3, name, v, out)?;
    Ok(())
}

// An attribute up to its value.
#[tactic(auto, using(crate::proofs::Pieces::three, crate::proofs::Pieces::keeps_one, crate::proofs::Pieces::keeps_two))]
fn push_pair_start(name: &[u8], out: &mut Vec<u8>) -> Result<(), AllocError>
    ensures ok { OnOk result (out.new.items ≡ out.old.items ++ ((32 ∷ []) ++ (name.now ++ codes "=\""))) }
    ensures err { OnErr result (KeepsFront out.old.items out.new.items) }
{
    out.extend_from_slice(b" ")?;
    out.extend_from_slice(name)?;
    out.extend_from_slice(b"=\"")?;
    Ok(())
}

/// Appends an attribute with this value, in which no special character stands.
#[tactic(auto, using(crate::proofs::Pieces::pair_made, crate::proofs::Pieces::keeps_more, crate::proofs::Pieces::keeps_more_two))]
pub fn push_text_pair(name: &[u8], value: &[u8], out: &mut Vec<u8>) -> Result<(), AllocError>
    ensures ok { OnOk result (AppendsPairs out.old.items out.new.items (pair name.now value.now ∷ [])) }
    ensures err { OnErr result (KeepsFront out.old.items out.new.items) }
{
    push_pair_start(name, out)?;
    out.extend_from_slice(value)?;
    out.extend_from_slice(b"\"")?;
    Ok(())
}

/// Appends an attribute that is a whole number.
#[tactic(auto, using(crate::proofs::Pieces::pair_made, crate::proofs::Pieces::keeps_more, crate::proofs::Pieces::keeps_more_two))]
pub fn push_number_pair(name: &[u8], n: u64, out: &mut Vec<u8>) -> Result<(), AllocError>
    ensures ok { OnOk result (AppendsPairs out.old.items out.new.items (pair name.now (decimal n) ∷ [])) }
    ensures err { OnErr result (KeepsFront out.old.items out.new.items) }
{
    push_pair_start(name, out)?;
    push_number(n, out)?;
    out.extend_from_slice(b"\"")?;
    Ok(())
}

#[tactic(auto, using(crate::proofs::Pieces::pair_made, crate::proofs::Pieces::keeps_more, crate::proofs::Pieces::keeps_more_two))]
fn push_micro_pair(name: &[u8], v: i64, out: &mut Vec<u8>) -> Result<(), AllocError>
    requires small { unsigned_abs v < 10 ^ 17 }
    ensures ok { OnOk result (AppendsPairs out.old.items out.new.items (pair name.now (micro_text v) ∷ [])) }
    ensures err { OnErr result (KeepsFront out.old.items out.new.items) }
{
    push_pair_start(name, out)?;
    push_micro(v, out)?;
    out.extend_from_slice(b"\"")?;
    Ok(())
}

#[tactic(auto, using(crate::proofs::Pieces::four_pairs, crate::proofs::Pieces::keeps_pairs, crate::proofs::Pieces::keeps_pairs_two, crate::proofs::Pieces::keeps_pairs_three))]
fn push_sides(rect: &MicroRect, out: &mut Vec<u8>) -> Result<(), AllocError>
    ensures ok { OnOk result (AppendsPairs out.old.items out.new.items (rectangle_pairs rect.now)) }
    ensures err { OnErr result (KeepsFront out.old.items out.new.items) }
{
    push_micro_pair(b"xOff", rect.x, out)?;
    push_micro_pair(b"yOff", rect.y, out)?;
    push_micro_pair(b"xSize", rect.w, out)?;
    push_micro_pair(b"ySize", rect.h, out)?;
    Ok(())
}

#[tactic(auto, using(crate::proofs::Pieces::empty_made, crate::proofs::Pieces::keeps_more, crate::proofs::Pieces::keeps_then_pairs))]
fn push_sides_line(name: &[u8], rect: &MicroRect, out: &mut Vec<u8>) -> Result<(), AllocError>
    ensures ok { OnOk result (Appends out.old.items out.new.items 3 (rectangle_markup name.now (Some rect.now))) }
    ensures err { OnErr result (KeepsFront out.old.items out.new.items) }
{
    push_start(3, name, out)?;
    push_sides(rect, out)?;
    out.extend_from_slice(b"/>\n")?;
    Ok(())
}

/// Appends a rectangle, where there is one.
#[tactic(auto, using(crate::proofs::Pieces::appends_nothing))]
pub fn push_rectangle(
    name: &[u8],
    rect: Option<MicroRect>,
    out: &mut Vec<u8>,
) -> Result<(), AllocError>
    ensures ok { OnOk result (Appends out.old.items out.new.items 3 (rectangle_markup name.now rect)) }
    ensures err { OnErr result (KeepsFront out.old.items out.new.items) }
{
    match rect {
        None => Ok(()),
        Some(rect) => push_sides_line(name, &rect, out),
    }
}

fn flag_text(relative: bool) -> &'static [u8]
    ensures text { result.now ≡ flag_text relative }
{
    if relative { b"1" } else { b"0" }
}

#[tactic(auto, using(crate::proofs::Pieces::file_open, crate::proofs::Pieces::keeps_more, crate::proofs::Pieces::keeps_then_pairs))]
fn push_file_open(relative: bool, out: &mut Vec<u8>) -> Result<(), AllocError>
    ensures ok { OnOk result (FileOpens out.old.items out.new.items relative) }
    ensures err { OnErr result (KeepsFront out.old.items out.new.items) }
{
    push_start(3, b"SourceFilename", out)?;
    push_text_pair(b"relativeToVRT", flag_text(relative), out)?;
    out.extend_from_slice(b">")?;
    Ok(())
}

/// Appends the name of a source's file.
#[tactic(auto, using(crate::proofs::Pieces::file_made, crate::proofs::Pieces::keeps_open, crate::proofs::Pieces::keeps_open_more))]
pub fn push_file(relative: bool, file: &str, out: &mut Vec<u8>) -> Result<(), AllocError>
    ensures ok { OnOk result (Appends out.old.items out.new.items 3 (file_markup relative file.now)) }
    ensures err { OnErr result (KeepsFront out.old.items out.new.items) }
{
    push_file_open(relative, out)?;
    push_escaped(file, out)?;
    push_end(b"SourceFilename", out)?;
    Ok(())
}
