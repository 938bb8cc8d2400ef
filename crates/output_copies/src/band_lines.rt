// Parts of an output: lines of a band, which are read and then written.
ghost use Rattle.std.specs.Prelude.{◌≡◌, ◌≤◌, ◌+◌, ◌-◌, ◌*◌, length, take, drop, IfErr, OnOk};
ghost use Rattle.lane_teams.specs.Ready.{AreLanesReady};
ghost use Rattle.strip_copies.specs.Copies.{IsRoomFor, IsTranslation};
ghost use Rattle.strip_copies.specs.Pieces.{piece_rect, IsCopied, IsPiece};
ghost use Rattle.output_copies.specs.Copying.{MayEnd, TellsChange};
ghost use Rattle.output_copies.specs.Filled.{IsFilled};
ghost use Rattle.output_copies.specs.Parts.{ArePart, AreRead, AreReadIn, BeginsWith, BeginsWithIn};

use error_lines::Fault;
use geotransform::{Rect, Sample};
use outside::{Counter, Folder};
use shared_lines::Scene;
use std::sync::ledger::Ledger;
use std::thread::Threads;
use strip_copies::{Lines, Piece, StripReader, Translation, read_lines, read_piece};
use write_back::Target;

/// The samples of so many lines of so many columns.
pub fn area(columns: u32, lines: u32) -> usize
    ensures area { result ≡ columns * lines }
{
    columns as usize * lines as usize
}

/// A row of so many samples, which stands behind n others.
pub fn nth_row(samples: &[Sample], n: u32, width: u32) -> &[Sample]
    requires within { n * width + width ≤ length samples.now }
    ensures row { result.now ≡ take width (drop (n * width) samples.now) }
    ensures len { length result.now ≡ width }
{
    let width = width as usize;
    let from = n as usize * width;
    &samples[from..from + width]
}

/// Reads lines of a band into so many samples.
pub fn read_part<R: Threads + Sync, F: Folder, L: Ledger, S: Scene>(
    rt: &R,
    translation: &Translation,
    reader: &mut StripReader<F, L>,
    folder: &mut F,
    shared: Option<&shared_lines::Lines<S>>,
    lines: Lines,
    samples: &mut [Sample],
) -> Result<(), Fault>
    requires translation { IsTranslation translation.now.cat translation.now.id translation.now.plan }
    requires ready { AreLanesReady F.Folder S.told S.cat folder.old translation.now.cat reader.old.team.lanes.items }
    requires room { IsRoomFor translation.now.cat translation.now.id translation.now.plan reader.old.columns
        reader.old.samples.items }
    requires lines { ArePart translation.now.plan lines }
    requires long { length samples.old ≡ translation.now.plan.size.w * (lines.end - lines.first) }
    ensures read { OnOk result (AreRead (F.names folder.old) translation.now.cat translation.now.id translation.now.plan
        lines samples.new) }
    ensures ready { AreLanesReady F.Folder S.told S.cat folder.new translation.now.cat reader.new.team.lanes.items }
    ensures room { IsRoomFor translation.now.cat translation.now.id translation.now.plan reader.new.columns
        reader.new.samples.items }
    ensures names { F.names folder.new ≡ F.names folder.old }
    ensures ends { MayEnd (F.names folder.old) (F.faults folder.old) (F.faults folder.new) 0 0 result }
    ensures changed { IfErr result (TellsChange translation.now.cat) }
{
    read_lines(rt, translation, reader, folder, shared, lines, samples)?;
    Ok(())
}

// Reads a piece of a band into so many samples, where what is shown is copied.
fn read_part_of<R: Threads + Sync, F: Folder, L: Ledger, S: Scene>(
    rt: &R,
    translation: &Translation,
    reader: &mut StripReader<F, L>,
    folder: &mut F,
    shared: Option<&shared_lines::Lines<S>>,
    piece: Piece,
    samples: &mut [Sample],
) -> Result<(), Fault>
    requires translation { IsTranslation translation.now.cat translation.now.id translation.now.plan }
    requires ready { AreLanesReady F.Folder S.told S.cat folder.old translation.now.cat reader.old.team.lanes.items }
    requires room { IsRoomFor translation.now.cat translation.now.id translation.now.plan reader.old.columns
        reader.old.samples.items }
    requires copied { IsCopied translation.now.cat translation.now.id translation.now.plan }
    requires piece { IsPiece translation.now.plan piece }
    requires long { length samples.old ≡ (piece.right - piece.left) * (piece.end - piece.first) }
    ensures read { OnOk result (AreReadIn (F.names folder.old) translation.now.cat translation.now.id
        translation.now.plan piece.band (piece_rect piece) samples.new) }
    ensures ready { AreLanesReady F.Folder S.told S.cat folder.new translation.now.cat reader.new.team.lanes.items }
    ensures room { IsRoomFor translation.now.cat translation.now.id translation.now.plan reader.new.columns
        reader.new.samples.items }
    ensures names { F.names folder.new ≡ F.names folder.old }
    ensures ends { MayEnd (F.names folder.old) (F.faults folder.old) (F.faults folder.new) 0 0 result }
    ensures changed { IfErr result (TellsChange translation.now.cat) }
{
    let team = &mut reader.team;
    read_piece(rt, translation, team, folder, shared, piece, samples)?;
    Ok(())
}

// Reads lines of a band into the front of a room.
fn read_front<R: Threads + Sync, F: Folder, L: Ledger, S: Scene>(
    rt: &R,
    translation: &Translation,
    reader: &mut StripReader<F, L>,
    folder: &mut F,
    shared: Option<&shared_lines::Lines<S>>,
    lines: Lines,
    room: &mut [Sample],
) -> Result<(), Fault>
    requires translation { IsTranslation translation.now.cat translation.now.id translation.now.plan }
    requires ready { AreLanesReady F.Folder S.told S.cat folder.old translation.now.cat reader.old.team.lanes.items }
    requires room { IsRoomFor translation.now.cat translation.now.id translation.now.plan reader.old.columns
        reader.old.samples.items }
    requires lines { ArePart translation.now.plan lines }
    requires long { translation.now.plan.size.w * (lines.end - lines.first) ≤ length room.old }
    ensures read { OnOk result (BeginsWith (F.names folder.old) translation.now.cat translation.now.id
        translation.now.plan lines room.new) }
    ensures ready { AreLanesReady F.Folder S.told S.cat folder.new translation.now.cat reader.new.team.lanes.items }
    ensures room { IsRoomFor translation.now.cat translation.now.id translation.now.plan reader.new.columns
        reader.new.samples.items }
    ensures names { F.names folder.new ≡ F.names folder.old }
    ensures ends { MayEnd (F.names folder.old) (F.faults folder.old) (F.faults folder.new) 0 0 result }
    ensures changed { IfErr result (TellsChange translation.now.cat) }
{
    let count = area(translation.plan.size.w, lines.end - lines.first);
    let part = &mut room[..count];
    read_part(rt, translation, reader, folder, shared, lines, part)
}

/// The same, of a room that is kept.
pub fn fill_front<R: Threads + Sync, F: Folder, L: Ledger, S: Scene>(
    rt: &R,
    translation: &Translation,
    reader: &mut StripReader<F, L>,
    folder: &mut F,
    shared: Option<&shared_lines::Lines<S>>,
    lines: Lines,
    room: &mut Vec<Sample>,
) -> Result<(), Fault>
    requires translation { IsTranslation translation.now.cat translation.now.id translation.now.plan }
    requires ready { AreLanesReady F.Folder S.told S.cat folder.old translation.now.cat reader.old.team.lanes.items }
    requires room { IsRoomFor translation.now.cat translation.now.id translation.now.plan reader.old.columns
        reader.old.samples.items }
    requires lines { ArePart translation.now.plan lines }
    requires long { translation.now.plan.size.w * (lines.end - lines.first) ≤ length room.old.items }
    ensures read { OnOk result (BeginsWith (F.names folder.old) translation.now.cat translation.now.id
        translation.now.plan lines room.new.items) }
    ensures size { length room.new.items ≡ length room.old.items }
    ensures ready { AreLanesReady F.Folder S.told S.cat folder.new translation.now.cat reader.new.team.lanes.items }
    ensures room { IsRoomFor translation.now.cat translation.now.id translation.now.plan reader.new.columns
        reader.new.samples.items }
    ensures names { F.names folder.new ≡ F.names folder.old }
    ensures ends { MayEnd (F.names folder.old) (F.faults folder.old) (F.faults folder.new) 0 0 result }
    ensures changed { IfErr result (TellsChange translation.now.cat) }
{
    let front = room.as_mut_slice();
    read_front(rt, translation, reader, folder, shared, lines, front)
}

// Reads a piece of a band into the front of a room.
fn read_piece_front<R: Threads + Sync, F: Folder, L: Ledger, S: Scene>(
    rt: &R,
    translation: &Translation,
    reader: &mut StripReader<F, L>,
    folder: &mut F,
    shared: Option<&shared_lines::Lines<S>>,
    piece: Piece,
    room: &mut [Sample],
) -> Result<(), Fault>
    requires translation { IsTranslation translation.now.cat translation.now.id translation.now.plan }
    requires ready { AreLanesReady F.Folder S.told S.cat folder.old translation.now.cat reader.old.team.lanes.items }
    requires room { IsRoomFor translation.now.cat translation.now.id translation.now.plan reader.old.columns
        reader.old.samples.items }
    requires copied { IsCopied translation.now.cat translation.now.id translation.now.plan }
    requires piece { IsPiece translation.now.plan piece }
    requires long { (piece.right - piece.left) * (piece.end - piece.first) ≤ length room.old }
    ensures read { OnOk result (BeginsWithIn (F.names folder.old) translation.now.cat translation.now.id
        translation.now.plan piece.band (piece_rect piece) room.new) }
    ensures ready { AreLanesReady F.Folder S.told S.cat folder.new translation.now.cat reader.new.team.lanes.items }
    ensures room { IsRoomFor translation.now.cat translation.now.id translation.now.plan reader.new.columns
        reader.new.samples.items }
    ensures names { F.names folder.new ≡ F.names folder.old }
    ensures ends { MayEnd (F.names folder.old) (F.faults folder.old) (F.faults folder.new) 0 0 result }
    ensures changed { IfErr result (TellsChange translation.now.cat) }
{
    let count = area(piece.right - piece.left, piece.end - piece.first);
    let part = &mut room[..count];
    read_part_of(rt, translation, reader, folder, shared, piece, part)
}

/// The same, of a room that is kept.
pub fn fill_piece<R: Threads + Sync, F: Folder, L: Ledger, S: Scene>(
    rt: &R,
    translation: &Translation,
    reader: &mut StripReader<F, L>,
    folder: &mut F,
    shared: Option<&shared_lines::Lines<S>>,
    piece: Piece,
    room: &mut Vec<Sample>,
) -> Result<(), Fault>
    requires translation { IsTranslation translation.now.cat translation.now.id translation.now.plan }
    requires ready { AreLanesReady F.Folder S.told S.cat folder.old translation.now.cat reader.old.team.lanes.items }
    requires room { IsRoomFor translation.now.cat translation.now.id translation.now.plan reader.old.columns
        reader.old.samples.items }
    requires copied { IsCopied translation.now.cat translation.now.id translation.now.plan }
    requires piece { IsPiece translation.now.plan piece }
    requires long { (piece.right - piece.left) * (piece.end - piece.first) ≤ length room.old.items }
    ensures read { OnOk result (BeginsWithIn (F.names folder.old) translation.now.cat translation.now.id
        translation.now.plan piece.band (piece_rect piece) room.new.items) }
    ensures size { length room.new.items ≡ length room.old.items }
    ensures ready { AreLanesReady F.Folder S.told S.cat folder.new translation.now.cat reader.new.team.lanes.items }
    ensures room { IsRoomFor translation.now.cat translation.now.id translation.now.plan reader.new.columns
        reader.new.samples.items }
    ensures names { F.names folder.new ≡ F.names folder.old }
    ensures ends { MayEnd (F.names folder.old) (F.faults folder.old) (F.faults folder.new) 0 0 result }
    ensures changed { IfErr result (TellsChange translation.now.cat) }
{
    let front = room.as_mut_slice();
    read_piece_front(rt, translation, reader, folder, shared, piece, front)
}

/// Writes lines of a band that were read.
pub fn write_part<F: Folder, W: Ledger>(
    translation: &Translation,
    folder: &mut F,
    target: &mut Target<F>,
    lines: Lines,
    samples: &[Sample],
    writes: &mut Counter<W>,
) -> Result<(), Fault>
    requires lines { ArePart translation.now.plan lines }
    requires filled { IsFilled (F.names folder.old) translation.now.cat translation.now.id translation.now.plan
        target.old lines.first lines.end lines.band }
    requires read { AreRead (F.names folder.old) translation.now.cat translation.now.id translation.now.plan lines
        samples.now }
    ensures filled { OnOk result (IsFilled (F.names folder.new) translation.now.cat translation.now.id
        translation.now.plan target.new lines.first lines.end (lines.band + 1)) }
    ensures name { target.new.name ≡ target.old.name }
    ensures names { F.names folder.new ≡ F.names folder.old }
    ensures ends { MayEnd (F.names folder.old) (F.faults folder.old) (F.faults folder.new) 0 0 result }
    ensures changed { IfErr result (TellsChange translation.now.cat) }
{
    let plan = &translation.plan;
    plan.rules();
    let rect = Rect {
        x: 0,
        y: lines.first,
        w: plan.size.w,
        h: lines.end - lines.first,
    };
    let alloc = translation.alloc;
    target.write_window(alloc, folder, lines.band, rect, samples, writes)?;
    Ok(())
}
