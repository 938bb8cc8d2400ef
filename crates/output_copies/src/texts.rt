// What is told of a translation.
ghost use Rattle.std.specs.Prelude.{◌≡◌, ℕ, ◌∷◌, [], Option, Some, IfErr, OnOk, OnErr, slice_get, codes, decimal};
ghost use Rattle.std.specs.Prelude.{true};
ghost use Rattle.lists_and_answers.specs.Texts.{joined};
ghost use Rattle.outside.specs.Outside.{Files};
ghost use Rattle.outside.specs.Streams.{Gets, GetsPart};
ghost use Rattle.catalog.specs.Drivers.{Dataset};
ghost use Rattle.strip_copies.specs.Copies.{IsTranslation};
ghost use Rattle.error_lines.specs.Progress.{progress_end};
ghost use Rattle.output_copies.specs.Copying.{spoken, MayEnd};
ghost use Rattle.output_copies.specs.Steps.{size_line};

use error_lines::{Fault, progress_end_text};
use geotransform::Size;
use itoa::Buffer;
use outside::{Failed, Sink, put_all};
use strip_copies::Translation;

/// Puts these parts one after another, but for a quiet translation.
pub fn put_text<O: Sink>(out: &mut O, quiet: bool, parts: &[&[u8]]) -> Result<(), Fault>
    ensures ok { OnOk result (Gets (spoken quiet (joined parts.now)) (O.got out.old) (O.got out.new)) }
    ensures err { OnErr result (GetsPart (spoken quiet (joined parts.now)) (O.got out.old) (O.got out.new)) }
    ensures quiet { quiet ≡ true → out.new ≡ out.old }
    ensures faults { IfErr result (λ f. f ≡ Fault.OutFault) }
    ensures ends { (told : Option Files) (faults : ℕ) → MayEnd told faults faults (O.faults out.old) (O.faults out.new)
        result }
{
    if quiet {
        return Ok(());
    }
    match put_all(out, parts) {
        Ok(()) => Ok(()),
        Err(Failed) => Err(Fault::OutFault),
    }
}

// The columns and lines of the source.
fn source_size(translation: &Translation) -> Size
    requires translation { IsTranslation translation.now.cat translation.now.id translation.now.plan }
    ensures size { (d : Dataset) → slice_get translation.now.cat translation.now.id ≡ Some d → result ≡ d.head.size }
{
    let head = translation.cat.head(translation.id);
    head.size
}

// Puts the line of a size, but for a quiet translation.
fn put_sides<O: Sink>(size: Size, out: &mut O, quiet: bool) -> Result<(), Fault>
    ensures ok { OnOk result (Gets (spoken quiet (size_line size)) (O.got out.old) (O.got out.new)) }
    ensures err { OnErr result (GetsPart (spoken quiet (size_line size)) (O.got out.old) (O.got out.new)) }
    ensures quiet { quiet ≡ true → out.new ≡ out.old }
    ensures faults { IfErr result (λ f. f ≡ Fault.OutFault) }
    ensures ends { (told : Option Files) (faults : ℕ) → MayEnd told faults faults (O.faults out.old) (O.faults out.new)
        result }
{
    let mut columns = Buffer::new();
    let mut lines = Buffer::new();
    let columns = columns.format(size.w).as_bytes();
    let lines = lines.format(size.h).as_bytes();
    put_text(
        out,
        quiet,
        &[b"Input file size is ", columns, b", ", lines, b"\n"],
    )
}

/// Tells the size of the source, but for a quiet translation.
pub fn put_size<O: Sink>(translation: &Translation, out: &mut O, quiet: bool) -> Result<(), Fault>
    requires translation { IsTranslation translation.now.cat translation.now.id translation.now.plan }
    ensures ok { (d : Dataset) → slice_get translation.now.cat translation.now.id ≡ Some d →
        OnOk result (Gets (spoken quiet (size_line d.head.size)) (O.got out.old) (O.got out.new)) }
    ensures err { (d : Dataset) → slice_get translation.now.cat translation.now.id ≡ Some d →
        OnErr result (GetsPart (spoken quiet (size_line d.head.size)) (O.got out.old) (O.got out.new)) }
    ensures quiet { quiet ≡ true → out.new ≡ out.old }
    ensures faults { IfErr result (λ f. f ≡ Fault.OutFault) }
    ensures ends { (told : Option Files) (faults : ℕ) → MayEnd told faults faults (O.faults out.old) (O.faults out.new)
        result }
{
    let size = source_size(translation);
    put_sides(size, out, quiet)
}

/// Tells that all is done, but for a quiet translation.
pub fn put_end<O: Sink>(out: &mut O, quiet: bool) -> Result<(), Fault>
    ensures ok { OnOk result (Gets (spoken quiet progress_end) (O.got out.old) (O.got out.new)) }
    ensures err { OnErr result (GetsPart (spoken quiet progress_end) (O.got out.old) (O.got out.new)) }
    ensures quiet { quiet ≡ true → out.new ≡ out.old }
    ensures faults { IfErr result (λ f. f ≡ Fault.OutFault) }
    ensures ends { (told : Option Files) (faults : ℕ) → MayEnd told faults faults (O.faults out.old) (O.faults out.new)
        result }
{
    put_text(out, quiet, &[progress_end_text()])
}
