// What is told of a place, written to a sink.
ghost use Rattle.std.specs.Prelude.{◌≡◌, ◌++◌, [], length, None, Some, Err, OnOk, OnErr, IfSome};
ghost use Rattle.std.specs.Option.{option_map};
ghost use Rattle.lists_and_answers.specs.Growth.{KeepsFront};
ghost use Rattle.outside.specs.Causes.{HasCause};
ghost use Rattle.outside.specs.Streams.{Gets, GetsPart};
ghost use Rattle.location_report.specs.Location.{place_text, report_text, only_text, location_text};

use crate::files::push_files;
use crate::values::{push_bands, push_values};
use geotransform::Sample;
use info_report::ReportFault;
use itoa::Buffer;
use lists_and_answers::push_all;
use outside::{Failed, Names, Sink};
use std::alloc::{AllocError, Global};

/// What is told of a place: a report, the values alone, or the names of the files alone.
#[derive(Clone, Copy, PartialEq, Eq)]
pub enum Form {
    Report,
    ValuesOnly,
    FilesOnly,
}

/// What is asked: a form, and a place by its column and its line, which may lie off the raster.
#[derive(Clone, Copy, PartialEq, Eq)]
pub struct Question {
    pub form: Form,
    pub x: i128,
    pub y: i128,
}

/// Appends the head of a report.
fn push_place(x: i128, y: i128, out: &mut Vec<u8>) -> Result<(), AllocError>
    ensures ok { OnOk result (out.new.items ≡ out.old.items ++ place_text x y) }
    ensures err { OnErr result (KeepsFront out.old.items out.new.items) }
{
    let (mut column, mut line) = (Buffer::new(), Buffer::new());
    let column = column.format(x).as_bytes();
    let line = line.format(y).as_bytes();
    push_all(
        &[b"Report:\n  Location: (", column, b"P,", line, b"L)\n"],
        out,
    )?;
    Ok(())
}

/// Appends a report on a place off the raster.
#[tactic(auto, using(crate::proofs::Appended::two, crate::proofs::Appended::keeps_pushed), unfolding(crate::specs::Location::report_text))]
fn push_off(x: i128, y: i128, out: &mut Vec<u8>) -> Result<(), AllocError>
    ensures ok { OnOk result (out.new.items ≡ out.old.items ++ report_text x y None []) }
    ensures err { OnErr result (KeepsFront out.old.items out.new.items) }
{
    push_place(x, y, out)?;
    out.extend_from_slice(b"  Location is off this file! No further details to report.\n")
}

/// Appends a report on a place of the raster.
#[tactic(auto, using(crate::proofs::Appended::two, crate::proofs::Appended::keeps_then), unfolding(crate::specs::Location::report_text))]
fn push_on(
    x: i128,
    y: i128,
    values: &[Sample],
    bands: &[u32],
    out: &mut Vec<u8>,
) -> Result<(), AllocError>
    requires { length values.now ≡ length bands.now }
    ensures ok { OnOk result (out.new.items ≡ out.old.items ++ report_text x y (Some values.now) bands.now) }
    ensures err { OnErr result (KeepsFront out.old.items out.new.items) }
{
    push_place(x, y, out)?;
    push_bands(bands, values, out)
}

/// Appends a report.
#[tactic(auto, unfolding(crate::specs::Location::report_text))]
fn push_report(
    x: i128,
    y: i128,
    values: Option<&[Sample]>,
    bands: &[u32],
    out: &mut Vec<u8>,
) -> Result<(), AllocError>
    requires { IfSome values (λ v. length v.now ≡ length bands.now) }
    ensures ok { OnOk result (out.new.items ≡ out.old.items ++ report_text x y (option_map (λ v. v.now) values.entry)
        bands.now) }
    ensures err { OnErr result (KeepsFront out.old.items out.new.items) }
{
    match values {
        Some(values) => push_on(x, y, values, bands, out),
        None => push_off(x, y, out),
    }
}

/// Appends the values alone.
#[tactic(auto, using(crate::proofs::Appended::keeps_same), unfolding(crate::specs::Location::only_text))]
fn push_only(values: Option<&[Sample]>, out: &mut Vec<u8>) -> Result<(), AllocError>
    ensures ok { OnOk result (out.new.items ≡ out.old.items ++ only_text (option_map (λ v. v.now) values.entry)) }
    ensures err { OnErr result (KeepsFront out.old.items out.new.items) }
{
    match values {
        Some(values) => push_values(values, out),
        None => out.extend_from_slice(b"\n"),
    }
}

/// Appends what is told of column `x`, line `y`: a report, its values alone, or the names of these files alone.
/// There are as many values as bands, or none where the place is off the raster; bands are counted from 1.
///
/// AllocError comes freely; what was there then stays in front.
#[tactic(auto, unfolding(crate::specs::Location::location_text))]
pub fn push_location(
    form: Form,
    x: i128,
    y: i128,
    values: Option<&[Sample]>,
    bands: &[u32],
    files: &Names,
    out: &mut Vec<u8>,
) -> Result<(), AllocError>
    requires { IfSome values (λ v. length v.now ≡ length bands.now) }
    ensures ok { OnOk result (out.new.items ≡ out.old.items ++ location_text form x y
        (option_map (λ v. v.now) values.entry) bands.now files.now) }
    ensures err { OnErr result (KeepsFront out.old.items out.new.items) }
{
    match form {
        Form::Report => push_report(x, y, values, bands, out),
        Form::ValuesOnly => push_only(values, out),
        Form::FilesOnly => push_files(files.as_slice(), out),
    }
}

/// Writes to a sink what is told of a place: the text that `push_location` appends.
///
/// The text is made whole before the sink gets it. OutFault comes only where the sink's count rose in this call; the
/// sink then got a first part of the text. Memory comes freely, and the sink then got nothing.
#[tactic(auto, using(crate::proofs::Appended::nothing_put))]
pub fn write_location<S: Sink>(
    alloc: Global,
    question: Question,
    values: Option<&[Sample]>,
    bands: &[u32],
    files: &Names,
    sink: &mut S,
) -> Result<(), ReportFault>
    requires { IfSome values (λ v. length v.now ≡ length bands.now) }
    ensures ok { OnOk result (Gets (location_text question.form question.x question.y
        (option_map (λ v. v.now) values.entry) bands.now files.now) (S.got sink.old) (S.got sink.new)) }
    ensures err { OnErr result (GetsPart (location_text question.form question.x question.y
        (option_map (λ v. v.now) values.entry) bands.now files.now) (S.got sink.old) (S.got sink.new)) }
    ensures memory { result ≡ Err ReportFault.Memory → sink.new ≡ sink.old }
    ensures cause { HasCause ReportFault.OutFault (S.faults sink.old) (S.faults sink.new) result }
{
    let mut text = Vec::new(alloc);
    let Question { form, x, y } = question;
    push_location(form, x, y, values, bands, files, &mut text)?;
    match sink.put(&text) {
        Ok(()) => Ok(()),
        Err(Failed) => Err(ReportFault::OutFault),
    }
}
