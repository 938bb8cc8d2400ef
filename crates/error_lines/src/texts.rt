// The lines of faults.
ghost use Rattle.std.specs.Prelude.{◌≡◌, ◌++◌, [], ◌∷◌, codes, decimal, None, Some, OnOk, OnErr};
ghost use Rattle.outside.specs.Streams.{Gets, GetsPart};
ghost use Rattle.outside.specs.Causes.{FailsWith};
ghost use Rattle.lists_and_answers.specs.Texts.{text};
ghost use Rattle.buildvrt.specs.declared.faults.BuildFault.TheVariants as build;
ghost use Rattle.error_lines.specs.Texts.{form_line, cell_line_of, bad_line, limit_word, plan_line, reason_word};
ghost use Rattle.error_lines.specs.Texts.{build_line, error_line};

use crate::Fault;
use ascii_grid::GridFault;
use buildvrt::{BuildFault, Reason};
use catalog::{Bad, LimitKind};
use dted_records::DtedFault;
use geotransform::PlanFault;
use itoa::Buffer;
use outside::{Failed, Name, Sink, put_all};
use vrt_profile::VrtFault;

// A number between two texts.
fn put_number<S: Sink>(sink: &mut S, before: &[u8], number: u64, after: &[u8]) -> Result<(), Failed>
    ensures ok { OnOk result (Gets (text (before.now ∷ decimal number ∷ after.now ∷ [])) (S.got sink.old)
        (S.got sink.new)) }
    ensures err { OnErr result (GetsPart (text (before.now ∷ decimal number ∷ after.now ∷ [])) (S.got sink.old)
        (S.got sink.new)) }
    ensures cause { FailsWith (S.faults sink.old) (S.faults sink.new) result }
{
    let mut buffer = Buffer::new();
    let digits = buffer.format(number).as_bytes();
    put_all(sink, &[before, digits, after])
}

// A name in a line that tells of a file.
fn put_name<S: Sink>(sink: &mut S, before: &[u8], name: &Name, after: &[u8]) -> Result<(), Failed>
    ensures ok { OnOk result (Gets (text (before.now ∷ name.now ∷ after.now ∷ [])) (S.got sink.old) (S.got sink.new)) }
    ensures err { OnErr result (GetsPart (text (before.now ∷ name.now ∷ after.now ∷ [])) (S.got sink.old)
        (S.got sink.new)) }
    ensures cause { FailsWith (S.faults sink.old) (S.faults sink.new) result }
{
    put_all(sink, &[before, name.as_str().as_bytes(), after])
}

fn put_short<S: Sink>(sink: &mut S, name: &Name, needed: u64, has: u64) -> Result<(), Failed>
    ensures ok { OnOk result (Gets (error_line (Fault.Short name.now needed has)) (S.got sink.old) (S.got sink.new)) }
    ensures err { OnErr result (GetsPart (error_line (Fault.Short name.now needed has)) (S.got sink.old)
        (S.got sink.new)) }
    ensures cause { FailsWith (S.faults sink.old) (S.faults sink.new) result }
{
    let mut first = Buffer::new();
    let mut second = Buffer::new();
    let needed = first.format(needed).as_bytes();
    let has = second.format(has).as_bytes();
    let name = name.as_str().as_bytes();
    put_all(
        sink,
        &[
            b"ERROR 4: ",
            name,
            b": needs ",
            needed,
            b" bytes, has ",
            has,
            b"\n",
        ],
    )
}

// The line of a file that isn't of its form, from the word for the form and the number of its fault.
fn put_form<S: Sink>(sink: &mut S, name: &Name, form: &[u8], number: u64) -> Result<(), Failed>
    ensures ok { OnOk result (Gets (form_line name.now form.now number None) (S.got sink.old) (S.got sink.new)) }
    ensures err { OnErr result (GetsPart (form_line name.now form.now number None) (S.got sink.old) (S.got sink.new)) }
    ensures cause { FailsWith (S.faults sink.old) (S.faults sink.new) result }
{
    let mut buffer = Buffer::new();
    let number = buffer.format(number).as_bytes();
    let name = name.as_str().as_bytes();
    put_all(
        sink,
        &[
            b"ERROR 4: ",
            name,
            b": malformed ",
            form,
            b" (",
            number,
            b")\n",
        ],
    )
}

// The same of a fault that has a place.
fn put_form_at<S: Sink>(
    sink: &mut S,
    name: &Name,
    form: &[u8],
    number: u64,
    place: u64,
) -> Result<(), Failed>
    ensures ok { OnOk result (Gets (form_line name.now form.now number (Some place)) (S.got sink.old)
        (S.got sink.new)) }
    ensures err { OnErr result (GetsPart (form_line name.now form.now number (Some place)) (S.got sink.old)
        (S.got sink.new)) }
    ensures cause { FailsWith (S.faults sink.old) (S.faults sink.new) result }
{
    let mut first = Buffer::new();
    let mut second = Buffer::new();
    let number = first.format(number).as_bytes();
    let place = second.format(place).as_bytes();
    let name = name.as_str().as_bytes();
    put_all(
        sink,
        &[
            b"ERROR 4: ",
            name,
            b": malformed ",
            form,
            b" (",
            number,
            b") at ",
            place,
            b"\n",
        ],
    )
}

// The line of a cell, from the west, that a fault speaks of.
fn cell_line_of(fault: DtedFault) -> Option<u32>
    ensures { result ≡ cell_line_of fault }
{
    match fault {
        DtedFault::NotDted | DtedFault::BadField | DtedFault::Short => None,
        DtedFault::BadRecord(line) => Some(line),
    }
}

// The line of a cell that isn't of its form.
fn put_dted<S: Sink>(sink: &mut S, name: &Name, fault: DtedFault) -> Result<(), Failed>
    ensures ok { OnOk result (Gets (bad_line name.now (Bad.Dted fault)) (S.got sink.old) (S.got sink.new)) }
    ensures err { OnErr result (GetsPart (bad_line name.now (Bad.Dted fault)) (S.got sink.old) (S.got sink.new)) }
    ensures cause { FailsWith (S.faults sink.old) (S.faults sink.new) result }
{
    let number = u64::from(fault.number());
    match cell_line_of(fault) {
        None => put_form(sink, name, b"dted", number),
        Some(line) => put_form_at(sink, name, b"dted", number, u64::from(line)),
    }
}

// The line of a grid that isn't of its form.
fn put_grid<S: Sink>(sink: &mut S, name: &Name, fault: GridFault) -> Result<(), Failed>
    ensures ok { OnOk result (Gets (bad_line name.now (Bad.Grid fault)) (S.got sink.old) (S.got sink.new)) }
    ensures err { OnErr result (GetsPart (bad_line name.now (Bad.Grid fault)) (S.got sink.old) (S.got sink.new)) }
    ensures cause { FailsWith (S.faults sink.old) (S.faults sink.new) result }
{
    let number = u64::from(fault.number());
    match fault.place() {
        None => put_form(sink, name, b"grid", number),
        Some(place) => put_form_at(sink, name, b"grid", number, place),
    }
}

// The line of a document that isn't of its form.
fn put_vrt<S: Sink>(sink: &mut S, name: &Name, fault: VrtFault) -> Result<(), Failed>
    ensures ok { OnOk result (Gets (bad_line name.now (Bad.Vrt fault)) (S.got sink.old) (S.got sink.new)) }
    ensures err { OnErr result (GetsPart (bad_line name.now (Bad.Vrt fault)) (S.got sink.old) (S.got sink.new)) }
    ensures cause { FailsWith (S.faults sink.old) (S.faults sink.new) result }
{
    let number = u64::from(fault.number());
    match fault.place() {
        None => put_form(sink, name, b"vrt", number),
        Some(place) => put_form_at(sink, name, b"vrt", number, place),
    }
}

fn put_malformed<S: Sink>(sink: &mut S, name: &Name, bad: Bad) -> Result<(), Failed>
    ensures ok { OnOk result (Gets (bad_line name.now bad) (S.got sink.old) (S.got sink.new)) }
    ensures err { OnErr result (GetsPart (bad_line name.now bad) (S.got sink.old) (S.got sink.new)) }
    ensures cause { FailsWith (S.faults sink.old) (S.faults sink.new) result }
{
    match bad {
        Bad::Hdr(fault) => put_form(sink, name, b"hdr", u64::from(fault.number())),
        Bad::Dted(fault) => put_dted(sink, name, fault),
        Bad::Hgt(fault) => put_form(sink, name, b"hgt", u64::from(fault.number())),
        Bad::Grid(fault) => put_grid(sink, name, fault),
        Bad::Vrt(fault) => put_vrt(sink, name, fault),
        Bad::List => put_form(sink, name, b"list", 1),
    }
}

fn limit_word(what: LimitKind) -> &'static [u8]
    ensures { result.now ≡ limit_word what }
{
    match what {
        LimitKind::Name => b"name",
        LimitKind::Files => b"files",
        LimitKind::Sources => b"sources",
        LimitKind::List => b"list",
        LimitKind::Points => b"points",
    }
}

fn put_limit<S: Sink>(sink: &mut S, what: LimitKind, value: u64) -> Result<(), Failed>
    ensures ok { OnOk result (Gets (error_line (Fault.Limit what value)) (S.got sink.old) (S.got sink.new)) }
    ensures err { OnErr result (GetsPart (error_line (Fault.Limit what value)) (S.got sink.old) (S.got sink.new)) }
    ensures cause { FailsWith (S.faults sink.old) (S.faults sink.new) result }
{
    let mut buffer = Buffer::new();
    let value = buffer.format(value).as_bytes();
    put_all(
        sink,
        &[
            b"ERROR 6: limit of ",
            limit_word(what),
            b" passed (",
            value,
            b")\n",
        ],
    )
}

// The line of a dataset that lacks the band of a source.
fn put_lacking<S: Sink>(sink: &mut S, name: &Name, band: u32) -> Result<(), Failed>
    ensures ok { OnOk result (Gets (error_line (Fault.SourceBand name.now band)) (S.got sink.old) (S.got sink.new)) }
    ensures err { OnErr result (GetsPart (error_line (Fault.SourceBand name.now band)) (S.got sink.old)
        (S.got sink.new)) }
    ensures cause { FailsWith (S.faults sink.old) (S.faults sink.new) result }
{
    let mut buffer = Buffer::new();
    let band = buffer.format(band).as_bytes();
    let name = name.as_str().as_bytes();
    put_all(sink, &[b"ERROR 5: ", name, b": no band ", band, b"\n"])
}

// The line of a file whose length changed, from the text of the new length.
fn put_change<S: Sink>(sink: &mut S, name: &Name, was: u64, now: &[u8]) -> Result<(), Failed>
    ensures ok { OnOk result (Gets (text (codes "ERROR 3: " ∷ name.now ∷ codes ": length changed from " ∷ decimal was
        ∷ codes " to " ∷ now.now ∷ codes "\n" ∷ [])) (S.got sink.old) (S.got sink.new)) }
    ensures err { OnErr result (GetsPart (text (codes "ERROR 3: " ∷ name.now ∷ codes ": length changed from "
        ∷ decimal was ∷ codes " to " ∷ now.now ∷ codes "\n" ∷ [])) (S.got sink.old) (S.got sink.new)) }
    ensures cause { FailsWith (S.faults sink.old) (S.faults sink.new) result }
{
    let mut buffer = Buffer::new();
    let was = buffer.format(was).as_bytes();
    let name = name.as_str().as_bytes();
    put_all(
        sink,
        &[
            b"ERROR 3: ",
            name,
            b": length changed from ",
            was,
            b" to ",
            now,
            b"\n",
        ],
    )
}

fn put_changed<S: Sink>(sink: &mut S, name: &Name, was: u64, now: Option<u64>) -> Result<(), Failed>
    ensures ok { OnOk result (Gets (error_line (Fault.Changed name.now was now)) (S.got sink.old) (S.got sink.new)) }
    ensures err { OnErr result (GetsPart (error_line (Fault.Changed name.now was now)) (S.got sink.old)
        (S.got sink.new)) }
    ensures cause { FailsWith (S.faults sink.old) (S.faults sink.new) result }
{
    match now {
        None => put_change(sink, name, was, b"none"),
        Some(len) => {
            let mut buffer = Buffer::new();
            let digits = buffer.format(len).as_bytes();
            put_change(sink, name, was, digits)
        }
    }
}

fn put_plan<S: Sink>(sink: &mut S, fault: PlanFault) -> Result<(), Failed>
    ensures ok { OnOk result (Gets (plan_line fault) (S.got sink.old) (S.got sink.new)) }
    ensures err { OnErr result (GetsPart (plan_line fault) (S.got sink.old) (S.got sink.new)) }
    ensures cause { FailsWith (S.faults sink.old) (S.faults sink.new) result }
{
    match fault {
        PlanFault::NoBand(band) => put_number(sink, b"ERROR 5: no band ", u64::from(band), b"\n"),
        PlanFault::NoGeo => sink.put(b"ERROR 1: no geotransform\n"),
        PlanFault::EmptyWindow => sink.put(b"ERROR 5: empty window\n"),
        PlanFault::Limit => sink.put(b"ERROR 6: output too large\n"),
        PlanFault::Outside => sink.put(b"ERROR 5: window outside the raster\n"),
        PlanFault::BandCount => sink.put(b"ERROR 6: format takes one band\n"),
        PlanFault::Unfit => sink.put(b"ERROR 6: raster doesn't fit the format\n"),
    }
}

/// The word for the reason why an input is skipped.
pub fn reason_word(reason: Reason) -> &'static [u8]
    ensures { result.now ≡ reason_word reason }
{
    match reason {
        Reason::Geotransform => b"geotransform",
        Reason::Srs => b"srs",
        Reason::Bands => b"bands",
        Reason::BandType => b"type",
    }
}

// What is told of an input that is skipped, from the line's head and the word for the reason.
pub fn put_skipped<S: Sink>(
    sink: &mut S,
    head: &[u8],
    name: &Name,
    word: &[u8],
) -> Result<(), Failed>
    ensures ok { OnOk result (Gets (text (head.now ∷ name.now ∷ codes ": skipped (" ∷ word.now ∷ codes ")\n" ∷ []))
        (S.got sink.old) (S.got sink.new)) }
    ensures err { OnErr result (GetsPart (text (head.now ∷ name.now ∷ codes ": skipped (" ∷ word.now ∷ codes ")\n"
        ∷ [])) (S.got sink.old) (S.got sink.new)) }
    ensures cause { FailsWith (S.faults sink.old) (S.faults sink.new) result }
{
    let before: &[u8] = b": skipped (";
    let after: &[u8] = b")\n";
    put_all(sink, &[head, name.as_str().as_bytes(), before, word, after])
}

fn put_build<S: Sink>(sink: &mut S, fault: &BuildFault) -> Result<(), Failed>
    ensures ok { OnOk result (Gets (build_line fault.now) (S.got sink.old) (S.got sink.new)) }
    ensures err { OnErr result (GetsPart (build_line fault.now) (S.got sink.old) (S.got sink.new)) }
    ensures cause { FailsWith (S.faults sink.old) (S.faults sink.new) result }
{
    match fault {
        BuildFault::Nothing => sink.put(b"ERROR 1: no input fits\n"),
        BuildFault::Strict { name, reason } => {
            put_skipped(sink, b"ERROR 1: ", name, reason_word(*reason))
        },
        BuildFault::Limit => sink.put(b"ERROR 6: mosaic too large\n"),
        BuildFault::Memory => sink.put(b"ERROR 2: out of memory\n"),
    }
}

/// Puts the line that tells a fault. It takes no memory, so that want of memory can be told too.
pub fn put_fault<S: Sink>(err: &mut S, fault: &Fault) -> Result<(), Failed>
    ensures ok { OnOk result (Gets (error_line fault.now) (S.got err.old) (S.got err.new)) }
    ensures err { OnErr result (GetsPart (error_line fault.now) (S.got err.old) (S.got err.new)) }
    ensures cause { FailsWith (S.faults err.old) (S.faults err.new) result }
{
    match fault {
        Fault::Usage { word } => put_number(err, b"ERROR 1: word ", *word, b" doesn't fit\n"),
        Fault::Absent { name } => put_name(err, b"ERROR 4: ", name, b": no such file\n"),
        Fault::NotRecognized { name } => put_name(
            err,
            b"ERROR 4: ",
            name,
            b": not recognized as a supported format\n",
        ),
        Fault::Malformed { name, bad } => put_malformed(err, name, *bad),
        Fault::Short { name, needed, has } => put_short(err, name, *needed, *has),
        Fault::Cycle { name } => put_name(err, b"ERROR 1: ", name, b": mosaic contains itself\n"),
        Fault::TooDeep { name } => put_name(err, b"ERROR 1: ", name, b": nested too deep\n"),
        Fault::Limit { what, value } => put_limit(err, *what, *value),
        Fault::SourceBand { name, band } => put_lacking(err, name, *band),
        Fault::Plan(fault) => put_plan(err, *fault),
        Fault::Build(fault) => put_build(err, fault),
        Fault::SameName { name } => put_name(err, b"ERROR 1: ", name, b": output is an input\n"),
        Fault::BadPoint { line } => put_number(
            err,
            b"ERROR 5: input line ",
            u64::from(*line),
            b" is no point\n",
        ),
        Fault::Changed { name, was, now } => put_changed(err, name, *was, *now),
        Fault::FolderFault => err.put(b"ERROR 3: a file call failed\n"),
        Fault::InputFault => err.put(b"ERROR 3: reading the input failed\n"),
        Fault::OutFault => err.put(b"ERROR 3: writing the output failed\n"),
        Fault::Memory => err.put(b"ERROR 2: out of memory\n"),
    }
}
