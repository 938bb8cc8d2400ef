// Lines of a translation's output, copied into a target.
ghost use Rattle.std.specs.Prelude.{◌≡◌, ◌<◌, ◌≤◌, ◌+◌, ◌-◌, ◌*◌, ℕ, Option, IfErr, OnOk, OnErr, length};
ghost use Rattle.std.specs.Prelude.{true};
ghost use Rattle.outside.specs.Streams.{Gets, GetsPart};
ghost use Rattle.lane_teams.specs.Ready.{AreLanesReady};
ghost use Rattle.strip_copies.specs.Copies.{IsRoomFor, IsTranslation};
ghost use Rattle.error_lines.specs.Progress.{progress};
ghost use Rattle.output_copies.specs.Copying.{spoken, MayEnd, TellsChange};
ghost use Rattle.output_copies.specs.Filled.{IsFilled};
ghost use Rattle.output_copies.specs.Parts.{ArePart};

use crate::band_lines::{area, read_part, write_part};
use crate::progress::{Share, tell};
use error_lines::Fault;
use geotransform::Sample;
use outside::{Counter, Folder, Sink};
use shared_lines::Scene;
use std::sync::ledger::Ledger;
use std::thread::Threads;
use strip_copies::{Lines, StripReader, Translation};
use write_back::Target;

/// What lines are copied with: a reader, the lines that its lanes share, if there are any, the count of the blocks that
/// are written, how many lines are copied at a time, whether the next ones are read while the last ones are written,
/// and whether nothing is told.
#[derive(Drop)]
pub struct Copier<'a, F: Folder, L: Ledger, W: Ledger, S: Scene> {
    pub reader: StripReader<F, L>,
    pub shared: Option<&'a shared_lines::Lines<S>>,
    pub writes: Counter<W>,
    pub rows: u32,
    pub ahead: bool,
    pub quiet: bool,
}

// Lines of an output from `first` up to `end`.
#[derive(Clone, Copy)]
struct Strip {
    first: u32,
    end: u32,
}

// Copies lines of a band.
fn copy_band<R: Threads + Sync, F: Folder, L: Ledger, W: Ledger, S: Scene>(
    rt: &R,
    translation: &Translation,
    copier: &mut Copier<F, L, W, S>,
    folder: &mut F,
    target: &mut Target<F>,
    lines: Lines,
    samples: &mut [Sample],
) -> Result<(), Fault>
    requires translation { IsTranslation translation.now.cat translation.now.id translation.now.plan }
    requires ready { AreLanesReady F.Folder S.told S.cat folder.old translation.now.cat
        copier.old.reader.team.lanes.items }
    requires room { IsRoomFor translation.now.cat translation.now.id translation.now.plan copier.old.reader.columns
        copier.old.reader.samples.items }
    requires long { translation.now.plan.size.w * (lines.end - lines.first) ≤ length samples.old }
    requires lines { ArePart translation.now.plan lines }
    requires filled { IsFilled (F.names folder.old) translation.now.cat translation.now.id translation.now.plan
        target.old lines.first lines.end lines.band }
    ensures filled { OnOk result (IsFilled (F.names folder.new) translation.now.cat translation.now.id
        translation.now.plan target.new lines.first lines.end (lines.band + 1)) }
    ensures name { target.new.name ≡ target.old.name }
    ensures ready { AreLanesReady F.Folder S.told S.cat folder.new translation.now.cat
        copier.new.reader.team.lanes.items }
    ensures room { IsRoomFor translation.now.cat translation.now.id translation.now.plan copier.new.reader.columns
        copier.new.reader.samples.items }
    ensures names { F.names folder.new ≡ F.names folder.old }
    ensures ends { MayEnd (F.names folder.old) (F.faults folder.old) (F.faults folder.new) 0 0 result }
    ensures changed { IfErr result (TellsChange translation.now.cat) }
{
    let count = area(translation.plan.size.w, lines.end - lines.first);
    let shared = copier.shared;
    let reader = &mut copier.reader;
    let writes = &mut copier.writes;
    let part = &mut samples[..count];
    read_part(rt, translation, reader, folder, shared, lines, part)?;
    write_part(translation, folder, target, lines, part, writes)
}

// Copies the lines of a strip of all bands.
fn copy_strip<R: Threads + Sync, F: Folder, L: Ledger, W: Ledger, S: Scene>(
    rt: &R,
    translation: &Translation,
    copier: &mut Copier<F, L, W, S>,
    folder: &mut F,
    target: &mut Target<F>,
    strip: Strip,
    samples: &mut [Sample],
) -> Result<(), Fault>
    requires translation { IsTranslation translation.now.cat translation.now.id translation.now.plan }
    requires ready { AreLanesReady F.Folder S.told S.cat folder.old translation.now.cat
        copier.old.reader.team.lanes.items }
    requires room { IsRoomFor translation.now.cat translation.now.id translation.now.plan copier.old.reader.columns
        copier.old.reader.samples.items }
    requires long { translation.now.plan.size.w * (strip.end - strip.first) ≤ length samples.old }
    requires order { strip.first < strip.end }
    requires end { strip.end ≤ translation.now.plan.size.h }
    requires filled { IsFilled (F.names folder.old) translation.now.cat translation.now.id translation.now.plan
        target.old strip.first strip.first 0 }
    ensures filled { OnOk result (IsFilled (F.names folder.new) translation.now.cat translation.now.id
        translation.now.plan target.new strip.end strip.end 0) }
    ensures name { target.new.name ≡ target.old.name }
    ensures ready { AreLanesReady F.Folder S.told S.cat folder.new translation.now.cat
        copier.new.reader.team.lanes.items }
    ensures room { IsRoomFor translation.now.cat translation.now.id translation.now.plan copier.new.reader.columns
        copier.new.reader.samples.items }
    ensures names { F.names folder.new ≡ F.names folder.old }
    ensures ends { MayEnd (F.names folder.old) (F.faults folder.old) (F.faults folder.new) 0 0 result }
    ensures changed { IfErr result (TellsChange translation.now.cat) }
{
    let plan = &translation.plan;
    plan.rules();
    let bands = plan.count();
    for band in 0..bands {
        let lines = Lines {
            band,
            first: strip.first,
            end: strip.end,
        };
        copy_band(rt, translation, copier, folder, target, lines, samples)?;
    }
    Ok(())
}

/// Copies all lines of all bands, strip by strip, and tells how far it is.
pub fn copy_all<R: Threads + Sync, F: Folder, O: Sink, L: Ledger, W: Ledger, S: Scene>(
    rt: &R,
    translation: &Translation,
    copier: &mut Copier<F, L, W, S>,
    folder: &mut F,
    target: &mut Target<F>,
    out: &mut O,
    samples: &mut [Sample],
) -> Result<(), Fault>
    requires translation { IsTranslation translation.now.cat translation.now.id translation.now.plan }
    requires ready { AreLanesReady F.Folder S.told S.cat folder.old translation.now.cat
        copier.old.reader.team.lanes.items }
    requires room { IsRoomFor translation.now.cat translation.now.id translation.now.plan copier.old.reader.columns
        copier.old.reader.samples.items }
    requires rows { 1 ≤ copier.old.rows }
    requires long { translation.now.plan.size.w * copier.old.rows ≤ length samples.old }
    requires filled { IsFilled (F.names folder.old) translation.now.cat translation.now.id translation.now.plan
        target.old 0 0 0 }
    ensures filled { OnOk result (IsFilled (F.names folder.new) translation.now.cat translation.now.id
        translation.now.plan target.new translation.now.plan.size.h translation.now.plan.size.h 0) }
    ensures name { target.new.name ≡ target.old.name }
    ensures names { F.names folder.new ≡ F.names folder.old }
    ensures ok { OnOk result (Gets (spoken copier.old.quiet progress) (O.got out.old) (O.got out.new)) }
    ensures err { OnErr result (GetsPart (spoken copier.old.quiet progress) (O.got out.old) (O.got out.new)) }
    ensures quiet { copier.old.quiet ≡ true → out.new ≡ out.old }
    ensures ends { MayEnd (F.names folder.old) (F.faults folder.old) (F.faults folder.new) (O.faults out.old)
        (O.faults out.new) result }
    ensures changed { IfErr result (TellsChange translation.now.cat) }
{
    let plan = &translation.plan;
    plan.rules();
    let height = plan.size.h;
    let rows = copier.rows;
    let quiet = copier.quiet;
    let mut told = tell(out, quiet, 0, Share { done: 0, height })?;
    let mut line = 0;
    while line < height {
        let end = line + rows.min(height - line);
        let strip = Strip { first: line, end };
        copy_strip(rt, translation, copier, folder, target, strip, samples)?;
        told = tell(out, quiet, told, Share { done: end, height })?;
        line = end;
    }
    Ok(())
}
