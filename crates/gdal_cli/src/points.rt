// What is told of one point.
ghost use Rattle.std.specs.Prelude.{◌≡◌, ℕ, pos, List, [], IfErr, IfOk, OnOk, Err, Option, Some, length, slice_get};
ghost use Rattle.outside.specs.Outside.{Files};
ghost use Rattle.outside.specs.Causes.{HasCause};
ghost use Rattle.catalog.specs.Drivers.{Dataset};
ghost use Rattle.location_report.specs.Covering.{covering_files};
ghost use Rattle.error_lines.specs.Faults.{IsOutside, Differs, HasCauses, IsOfReading};
ghost use Rattle.output_copies.specs.Copying.{TellsChange};
ghost use Rattle.gdal_cli.specs.Lanes.{IsReadyWith};
ghost use Rattle.gdal_cli.specs.Location.{column_and_line, told_text, point_text};
ghost use Rattle.gdal_cli.specs.Jobs.{PutsText};
ghost use Rattle.gdal_cli.specs.Pixels.{IsOnRaster, HasBands};
ghost use Rattle.gdal_cli.specs.Untold.{TellsPlace, PutsPlace};

use crate::point_pixels::{column_and_line, within};
use crate::reader::{PixelReader, PointReader, Question, Room};
use crate::values::read_values;
use catalog::Catalog;
use error_lines::Fault;
use input_points::Position;
use location_report::{Form, files_at, push_location};
use outside::{Failed, Folder, Names, Sink};
use shared_lines::Scene;
use std::alloc::Global;
use std::sync::ledger::Ledger;

// The names of the files that cover a column and a line in these bands, counted from 1.
fn covering(
    alloc: Global,
    cat: &Catalog,
    id: u32,
    bands: &[u32],
    x: u32,
    y: u32,
) -> Result<Names, Fault>
    requires bands { HasBands cat.now id bands.now }
    ensures files { (d : Dataset) → slice_get cat.now id ≡ Some d →
        IfOk result (λ files. files ≡ covering_files cat.now d x y bands.now) }
    ensures memory { IfErr result (λ f. f ≡ Fault.Memory) }
{
    let mut files = Names::new(alloc);
    for band in bands {
        files_at(cat, id, *band - 1, x, y, &mut files)?;
    }
    Ok(files)
}

// Makes the text of a place in the raster, of which only what the form tells is read.
fn make_inside<F: Folder, L: Ledger, S: Scene>(
    question: &Question,
    pixels: &mut PixelReader<F, L, S>,
    folder: &mut F,
    room: &mut Room,
    x: u32,
    y: u32,
) -> Result<(), Fault>
    requires ready { IsReadyWith F.Folder S.told S.cat folder.old question.now.cat pixels.old.lane }
    requires bands { HasBands question.now.cat question.now.id question.now.asked.bands }
    requires room { length room.old.values.items ≡ length question.now.asked.bands }
    requires pixel { IsOnRaster question.now.cat question.now.id x y }
    requires empty { room.old.text.items ≡ [] }
    ensures text { (m : Files) → F.names folder.old ≡ Some m → (d : Dataset) →
        slice_get question.now.cat question.now.id ≡ Some d →
        OnOk result (room.new.text.items ≡ told_text m question.now.cat d question.now.asked (pos x, pos y)) }
    ensures place { OnOk result (TellsPlace question.now.cat question.now.id question.now.asked (pos x, pos y)
        room.new.text.items) }
    ensures changed { IfErr result (TellsChange question.now.cat) }
    ensures never { (m : Files) → F.names folder.old ≡ Some m → IfErr result IsOutside }
    ensures cause { HasCause Fault.FolderFault (F.faults folder.old) (F.faults folder.new) result }
    ensures not_input { result ≡ Err Fault.InputFault → ⊥ }
    ensures not_out { result ≡ Err Fault.OutFault → ⊥ }
    ensures ready { IsReadyWith F.Folder S.told S.cat folder.new question.now.cat pixels.new.lane }
    ensures room { length room.new.values.items ≡ length room.old.values.items }
    ensures late { IfErr result IsOfReading }
    ensures differs { Differs result }
    ensures names { F.names folder.new ≡ F.names folder.old }
    ensures writes { F.write_calls folder.new ≡ F.write_calls folder.old }
{
    // This call is made for the proof: it says what holds of every catalog.
    let _count = question.cat.count();
    let form = question.asked.form;
    let bands = question.asked.bands.as_slice();
    let (column, line) = (i128::from(x), i128::from(y));
    match form {
        Form::FilesOnly => {
            let files = covering(question.alloc, &question.cat, question.id, bands, x, y)?;
            push_location(form, column, line, None, bands, &files, &mut room.text)?;
        }
        Form::Report | Form::ValuesOnly => {
            let values = room.values.as_mut_slice();
            read_values(question, pixels, folder, bands, x, y, values)?;
            let none = Names::new(question.alloc);
            let values = room.values.as_slice();
            push_location(
                form,
                column,
                line,
                Some(values),
                bands,
                &none,
                &mut room.text,
            )?;
        }
    }
    Ok(())
}

// Makes the text of a place.
fn make_text<F: Folder, L: Ledger, S: Scene>(
    question: &Question,
    pixels: &mut PixelReader<F, L, S>,
    folder: &mut F,
    room: &mut Room,
    column: i128,
    line: i128,
) -> Result<(), Fault>
    requires ready { IsReadyWith F.Folder S.told S.cat folder.old question.now.cat pixels.old.lane }
    requires bands { HasBands question.now.cat question.now.id question.now.asked.bands }
    requires room { length room.old.values.items ≡ length question.now.asked.bands }
    ensures text { (m : Files) → F.names folder.old ≡ Some m → (d : Dataset) →
        slice_get question.now.cat question.now.id ≡ Some d →
        OnOk result (room.new.text.items ≡ told_text m question.now.cat d question.now.asked (column, line)) }
    ensures place { OnOk result (TellsPlace question.now.cat question.now.id question.now.asked (column, line)
        room.new.text.items) }
    ensures changed { IfErr result (TellsChange question.now.cat) }
    ensures never { (m : Files) → F.names folder.old ≡ Some m → IfErr result IsOutside }
    ensures cause { HasCause Fault.FolderFault (F.faults folder.old) (F.faults folder.new) result }
    ensures not_input { result ≡ Err Fault.InputFault → ⊥ }
    ensures not_out { result ≡ Err Fault.OutFault → ⊥ }
    ensures ready { IsReadyWith F.Folder S.told S.cat folder.new question.now.cat pixels.new.lane }
    ensures room { length room.new.values.items ≡ length room.old.values.items }
    ensures late { IfErr result IsOfReading }
    ensures differs { Differs result }
    ensures names { F.names folder.new ≡ F.names folder.old }
    ensures writes { F.write_calls folder.new ≡ F.write_calls folder.old }
{
    let size = question.cat.head(question.id).size;
    room.text.clear();
    match (within(size.w, column), within(size.h, line)) {
        (Some(x), Some(y)) => make_inside(question, pixels, folder, room, x, y),
        (Some(_), None) | (None, _) => {
            let none = Names::new(question.alloc);
            let bands = question.asked.bands.as_slice();
            push_location(
                question.asked.form,
                column,
                line,
                None,
                bands,
                &none,
                &mut room.text,
            )?;
            Ok(())
        }
    }
}

/// Puts what is told of a point of a dataset. The text is made whole before it is put. Over a folder that doesn't tell
/// its names, it tells of the place with some value of each band, which is of the band's type.
///
/// FolderFault and OutFault come only where the count of the folder and of the output rose, Changed only over a folder
/// that doesn't tell its names, with the name of a file and the length that the walk found, Memory freely. Nothing was
/// put then, but for an OutFault, before which a first part of the text was.
pub fn put_point<F: Folder, O: Sink, L: Ledger, S: Scene>(
    question: &Question,
    points: &mut PointReader<F, L, S>,
    folder: &mut F,
    out: &mut O,
    x: Position,
    y: Position,
) -> Result<(), Fault>
    requires ready { IsReadyWith F.Folder S.told S.cat folder.old question.now.cat points.old.pixels.lane }
    requires bands { HasBands question.now.cat question.now.id question.now.asked.bands }
    requires room { length points.old.room.values.items ≡ length question.now.asked.bands }
    ensures told { (m : Files) → F.names folder.old ≡ Some m → (d : Dataset) →
        slice_get question.now.cat question.now.id ≡ Some d →
        PutsText (point_text m question.now.cat d question.now.asked x y) result (O.got out.old) (O.got out.new) }
    // over every folder, a text of the place was put
    ensures place { OnOk result (PutsPlace question.now.cat question.now.id question.now.asked
        (column_and_line question.now.asked.frame x y) (O.got out.old) (O.got out.new)) }
    ensures unput { IfErr result (λ f. (f ≡ Fault.OutFault → ⊥) → out.new ≡ out.old) }
    ensures changed { IfErr result (TellsChange question.now.cat) }
    ensures never { (m : Files) → F.names folder.old ≡ Some m → (name : List ℕ) (was : ℕ) (now : Option ℕ) →
        result ≡ Err (Fault.Changed name was now) → ⊥ }
    ensures cause { HasCauses (F.faults folder.old) (F.faults folder.new) (O.faults out.old) (O.faults out.new) result }
    ensures not_input { result ≡ Err Fault.InputFault → ⊥ }
    ensures ready { IsReadyWith F.Folder S.told S.cat folder.new question.now.cat points.new.pixels.lane }
    ensures room { length points.new.room.values.items ≡ length points.old.room.values.items }
    ensures late { IfErr result IsOfReading }
    ensures differs { Differs result }
    ensures names { F.names folder.new ≡ F.names folder.old }
    ensures writes { F.write_calls folder.new ≡ F.write_calls folder.old }
{
    let (column, line) = column_and_line(question.asked.frame, x, y);
    let pixels = &mut points.pixels;
    make_text(question, pixels, folder, &mut points.room, column, line)?;
    match out.put(&points.room.text) {
        Ok(()) => Ok(()),
        Err(Failed) => Err(Fault::OutFault),
    }
}
