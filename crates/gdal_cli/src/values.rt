// The values of bands at a pixel, read through a lane.
ghost use Rattle.std.specs.Prelude.{◌≡◌, ◌<◌, ◌-◌, IfErr, IfOk, OnOk, Err, Some, length, map};
ghost use Rattle.outside.specs.Outside.{Files};
ghost use Rattle.outside.specs.Causes.{HasCause};
ghost use Rattle.catalog.specs.Pixels.{pixel_of};
ghost use Rattle.error_lines.specs.Faults.{IsOutside, Differs, IsOfReading};
ghost use Rattle.nearest_window.specs.Windows.{IsInBand};
ghost use Rattle.output_copies.specs.Copying.{TellsChange};
ghost use Rattle.gdal_cli.specs.Lanes.{IsReadyWith};
ghost use Rattle.gdal_cli.specs.Pixels.{IsOnRaster, AreBands, AreOfBands, HasBands};

use crate::reader::{PixelReader, Question};
use error_lines::Fault;
use geotransform::{Rect, Sample};
use nearest_window::{Supply, Window};
use outside::Folder;
use shared_lines::Scene;
use std::sync::ledger::Ledger;

// The value of a band, counted from 0, in a column and a line.
fn read_value<F: Folder, L: Ledger, S: Scene>(
    question: &Question,
    pixels: &mut PixelReader<F, L, S>,
    folder: &mut F,
    band: u32,
    x: u32,
    y: u32,
) -> Result<Sample, Fault>
    requires ready { IsReadyWith F.Folder S.told S.cat folder.old question.now.cat pixels.old.lane }
    requires pixel { IsOnRaster question.now.cat question.now.id x y }
    requires band { AreBands question.now.cat question.now.id (λ count. band < count) }
    ensures value { (m : Files) → F.names folder.old ≡ Some m →
        IfOk result (λ v. v ≡ pixel_of m question.now.cat question.now.id band x y) }
    ensures typed { IfOk result (IsInBand question.now.cat question.now.id band) }
    ensures changed { IfErr result (TellsChange question.now.cat) }
    ensures ready { IsReadyWith F.Folder S.told S.cat folder.new question.now.cat pixels.new.lane }
    ensures never { (m : Files) → F.names folder.old ≡ Some m → IfErr result IsOutside }
    ensures late { IfErr result IsOfReading }
    ensures differs { Differs result }
    ensures names { F.names folder.new ≡ F.names folder.old }
    ensures writes { F.write_calls folder.new ≡ F.write_calls folder.old }
    ensures cause { HasCause Fault.FolderFault (F.faults folder.old) (F.faults folder.new) result }
    ensures not_input { result ≡ Err Fault.InputFault → ⊥ }
    ensures not_out { result ≡ Err Fault.OutFault → ⊥ }
{
    let window = Window {
        dataset: question.id,
        band,
        rect: Rect { x, y, w: 1, h: 1 },
    };
    let mut value = [0; 1];
    let supply = Supply {
        alloc: question.alloc,
        cat: &question.cat,
        shared: pixels.shared,
    };
    let loads = &mut pixels.loads;
    let lane = &mut pixels.lane;
    lane.read_window_with(&supply, folder, window, &mut value, loads)?;
    Ok(value[0])
}

/// Fills `values` with the values of these bands, counted from 1, in a column and a line.
///
/// FolderFault comes only where the folder's count rose, Changed only over a folder that doesn't tell its names, with
/// the name of a file that was opened again, the length that the walk found, and another one, or none where the file
/// was absent; Memory freely. After a refusal `values` are unknown.
pub fn read_values<F: Folder, L: Ledger, S: Scene>(
    question: &Question,
    pixels: &mut PixelReader<F, L, S>,
    folder: &mut F,
    bands: &[u32],
    x: u32,
    y: u32,
    values: &mut [Sample],
) -> Result<(), Fault>
    requires ready { IsReadyWith F.Folder S.told S.cat folder.old question.now.cat pixels.old.lane }
    requires pixel { IsOnRaster question.now.cat question.now.id x y }
    requires bands { HasBands question.now.cat question.now.id bands.now }
    requires room { length values.old ≡ length bands.now }
    ensures values { (m : Files) → F.names folder.old ≡ Some m →
        OnOk result (values.new ≡ map (λ band. pixel_of m question.now.cat question.now.id (band - 1) x y) bands.now) }
    // over every folder, each value is of its band's type
    ensures typed { OnOk result (AreOfBands question.now.cat question.now.id bands.now values.new) }
    ensures changed { IfErr result (TellsChange question.now.cat) }
    ensures room { length values.new ≡ length values.old }
    ensures ready { IsReadyWith F.Folder S.told S.cat folder.new question.now.cat pixels.new.lane }
    ensures never { (m : Files) → F.names folder.old ≡ Some m → IfErr result IsOutside }
    ensures late { IfErr result IsOfReading }
    ensures differs { Differs result }
    ensures names { F.names folder.new ≡ F.names folder.old }
    ensures writes { F.write_calls folder.new ≡ F.write_calls folder.old }
    ensures cause { HasCause Fault.FolderFault (F.faults folder.old) (F.faults folder.new) result }
    ensures not_input { result ≡ Err Fault.InputFault → ⊥ }
    ensures not_out { result ≡ Err Fault.OutFault → ⊥ }
{
    for (at, band) in bands.iter().enumerate() {
        values[at] = read_value(question, pixels, folder, *band - 1, x, y)?;
    }
    Ok(())
}
