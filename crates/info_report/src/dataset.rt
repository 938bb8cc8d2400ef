// The lines on the dataset as a whole. Each call may be refused memory.
ghost use Rattle.std.specs.Prelude.{◌≡◌, ◌++◌, OnOk, codes, flat_map};
ghost use Rattle.std.specs.List.{join_by};
ghost use Rattle.info_report.specs.Report.{driver_of, driver_text, files_text, size_text, srs_text};

use catalog::Kind;
use geotransform::Size;
use itoa::Buffer;
use lists_and_answers::push_all;
use outside::{Name, Text};
use std::alloc::AllocError;

/// The name of a kind's driver.
fn driver_of(kind: Kind) -> &'static str
    ensures { result.now ≡ driver_of kind }
{
    match kind {
        Kind::Raw => "EHdr",
        Kind::Dted => "DTED",
        Kind::Hgt => "SRTMHGT",
        Kind::Ascii => "AAIGrid",
        Kind::Vrt => "VRT",
    }
}

/// Appends the line of the driver.
#[tactic(auto, unfolding(crate::specs::Report::driver_text))]
pub fn push_driver(kind: Kind, out: &mut Vec<u8>) -> Result<(), AllocError>
    ensures { OnOk result (out.new.items ≡ out.old.items ++ driver_text kind) }
{
    push_all(&[b"Driver: ", driver_of(kind).as_bytes(), b"\n"], out)
}

/// Appends the further names, each on a line of its own.
#[tactic(auto, using(lists_and_answers::proofs::Pieces::one_more))]
fn push_further(names: &[Name], out: &mut Vec<u8>) -> Result<(), AllocError>
    ensures { OnOk result (out.new.items ≡ out.old.items ++ flat_map (λ name. codes "\n       " ++ name) names.now) }
{
    for name in names {
        push_all(&[b"\n       ", name.as_str().as_bytes()], out)?;
    }
    Ok(())
}

/// Appends the names, one on a line.
#[tactic(auto, using(crate::proofs::Appended::none))]
fn push_names(names: &[Name], out: &mut Vec<u8>) -> Result<(), AllocError>
    ensures { OnOk result (out.new.items ≡ out.old.items ++ join_by (λ name. name) (codes "\n       ") names.now) }
{
    if let Some((first, further)) = names.split_first() {
        out.extend_from_slice(first.as_str().as_bytes())?;
        push_further(further, out)?;
    }
    Ok(())
}

/// Appends the lines of the files.
#[tactic(auto, using(crate::proofs::Appended::three), unfolding(crate::specs::Report::files_text))]
pub fn push_files(names: &[Name], out: &mut Vec<u8>) -> Result<(), AllocError>
    ensures { OnOk result (out.new.items ≡ out.old.items ++ files_text names.now) }
{
    out.extend_from_slice(b"Files: ")?;
    push_names(names, out)?;
    out.extend_from_slice(b"\n")?;
    Ok(())
}

/// Appends the line of the size.
#[tactic(auto, unfolding(crate::specs::Report::size_text))]
pub fn push_size(size: Size, out: &mut Vec<u8>) -> Result<(), AllocError>
    ensures { OnOk result (out.new.items ≡ out.old.items ++ size_text size) }
{
    let (mut w, mut h) = (Buffer::new(), Buffer::new());
    let w = w.format(size.w).as_bytes();
    let h = h.format(size.h).as_bytes();
    push_all(&[b"Size is ", w, b", ", h, b"\n"], out)
}

/// Appends the lines of the coordinate system, where there is one.
#[tactic(auto, using(crate::proofs::Appended::none), unfolding(crate::specs::Report::srs_text))]
pub fn push_srs(srs: &Option<Text>, out: &mut Vec<u8>) -> Result<(), AllocError>
    ensures { OnOk result (out.new.items ≡ out.old.items ++ srs_text srs.now) }
{
    match srs {
        None => Ok(()),
        Some(srs) => push_all(
            &[b"Coordinate System is:\n", srs.as_str().as_bytes(), b"\n"],
            out,
        ),
    }
}
