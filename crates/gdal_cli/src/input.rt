// The points of an input.
ghost use Rattle.std.specs.Prelude.{◌≡◌, ◌≤◌, ◌<◌, ℕ, List, IfErr, OnOk, Option, Err, Some, None, [], IfOk, true};
ghost use Rattle.std.specs.Prelude.{length, slice_get};
ghost use Rattle.outside.specs.Outside.{Files};
ghost use Rattle.outside.specs.Causes.{HasCause};
ghost use Rattle.input_points.specs.Entries.{ends};
ghost use Rattle.input_points.specs.Lines.{ended_lines};
ghost use Rattle.input_points.specs.Reading.{start, coming};
ghost use Rattle.catalog.specs.Drivers.{Dataset};
ghost use Rattle.error_lines.specs.Faults.{Differs, HasCauses};
ghost use Rattle.output_copies.specs.Copying.{TellsChange};
ghost use Rattle.gdal_cli.specs.Input.{IsOfLines, IsReading, room_of, AnswersNext, AnswersPiece, AnswersPieces};
ghost use Rattle.gdal_cli.specs.Input.{AnswersInput};
ghost use Rattle.gdal_cli.specs.Run.{StopsBehind};
ghost use Rattle.gdal_cli.specs.Lanes.{IsReadyWith};
ghost use Rattle.gdal_cli.specs.Location.{answers, point_text, line_text, line_fault};
ghost use Rattle.gdal_cli.specs.Jobs.{PutsText};
ghost use Rattle.gdal_cli.specs.Pixels.{HasBands};

use crate::points::put_point;
use crate::reader::{PointReader, Question};
use catalog::LimitKind;
use error_lines::Fault;
use input_points::{Entry, LineKind, MOST_LINES, PointLines};
use outside::{Failed, Folder, Input, Sink};
use shared_lines::Scene;
use std::sync::ledger::Ledger;

/// The most bytes of the input that are asked for at once.
const PIECE: usize = 65_536;

/// The number of the first line that is one too many.
const TOO_MANY: u64 = MOST_LINES as u64 + 1;

// Answers a line that has this number and says this.
fn answer_line<F: Folder, O: Sink, L: Ledger, S: Scene>(
    question: &Question,
    points: &mut PointReader<F, L, S>,
    folder: &mut F,
    out: &mut O,
    line: u32,
    kind: LineKind,
) -> Result<(), Fault>
    requires ready { IsReadyWith F.Folder S.told S.cat folder.old question.now.cat points.old.pixels.lane }
    requires bands { HasBands question.now.cat question.now.id question.now.asked.bands }
    requires room { length points.old.room.values.items ≡ length question.now.asked.bands }
    ensures told { (m : Files) → F.names folder.old ≡ Some m → (d : Dataset) →
        slice_get question.now.cat question.now.id ≡ Some d → line_fault line kind ≡ None →
        PutsText (line_text (point_text m question.now.cat d question.now.asked) kind) result (O.got out.old)
        (O.got out.new) }
    ensures refused { (f : Fault) → line_fault line kind ≡ Some f → (result ≡ Err f) × (O.got out.new ≡ O.got out.old) }
    ensures ends { ends kind ≡ true → IfOk result (λ done. ⊥) }
    ensures never { (m : Files) → F.names folder.old ≡ Some m → (name : List ℕ) (was : ℕ) (now : Option ℕ) →
        result ≡ Err (Fault.Changed name was now) → ⊥ }
    ensures cause { HasCauses (F.faults folder.old) (F.faults folder.new) (O.faults out.old) (O.faults out.new) result }
    ensures not_input { result ≡ Err Fault.InputFault → ⊥ }
    ensures ready { IsReadyWith F.Folder S.told S.cat folder.new question.now.cat points.new.pixels.lane }
    ensures room { length points.new.room.values.items ≡ length points.old.room.values.items }
    ensures late { IfErr result IsOfLines }
    ensures differs { Differs result }
    ensures changed { IfErr result (TellsChange question.now.cat) }
    ensures names { F.names folder.new ≡ F.names folder.old }
    ensures writes { F.write_calls folder.new ≡ F.write_calls folder.old }
{
    match kind {
        LineKind::Blank => Ok(()),
        LineKind::Point(x, y) => { put_point(question, points, folder, out, x, y) }
        LineKind::Bad => Err(Fault::BadPoint { line }),
        LineKind::TooMany => Err(Fault::Limit {
            what: LimitKind::Points,
            value: TOO_MANY,
        }),
    }
}

// Answers the next line that ends in a piece, if there is one, and gives the number of the piece's bytes that were
// read.
fn answer_next<F: Folder, O: Sink, L: Ledger, S: Scene>(
    question: &Question,
    points: &mut PointReader<F, L, S>,
    folder: &mut F,
    out: &mut O,
    reader: &mut PointLines,
    piece: &[u8],
) -> Result<usize, Fault>
    requires ready { IsReadyWith F.Folder S.told S.cat folder.old question.now.cat points.old.pixels.lane }
    requires bands { HasBands question.now.cat question.now.id question.now.asked.bands }
    requires room { length points.old.room.values.items ≡ length question.now.asked.bands }
    requires reading { IsReading reader.old }
    requires some { 0 < length piece.now }
    ensures told { (m : Files) → F.names folder.old ≡ Some m → (d : Dataset) →
        slice_get question.now.cat question.now.id ≡ Some d →
        AnswersNext (point_text m question.now.cat d question.now.asked) reader.old piece.now reader.new result
        (O.got out.old) (O.got out.new) }
    ensures used { IfOk result (λ used. (0 < used) × (used ≤ length piece.now)) }
    // no line that has an end is left unanswered, and less can be taken than before
    ensures reading { OnOk result (IsReading reader.new × (room_of reader.new < room_of reader.old)) }
    ensures none { OnOk result (coming ended_lines reader.new [] ≡ []) }
    ensures never { (m : Files) → F.names folder.old ≡ Some m → (name : List ℕ) (was : ℕ) (now : Option ℕ) →
        result ≡ Err (Fault.Changed name was now) → ⊥ }
    ensures cause { HasCauses (F.faults folder.old) (F.faults folder.new) (O.faults out.old) (O.faults out.new) result }
    ensures not_input { result ≡ Err Fault.InputFault → ⊥ }
    ensures ready { IsReadyWith F.Folder S.told S.cat folder.new question.now.cat points.new.pixels.lane }
    ensures room { length points.new.room.values.items ≡ length points.old.room.values.items }
    ensures late { IfErr result IsOfLines }
    ensures differs { Differs result }
    ensures changed { IfErr result (TellsChange question.now.cat) }
    ensures names { F.names folder.new ≡ F.names folder.old }
    ensures writes { F.write_calls folder.new ≡ F.write_calls folder.old }
{
    let (entry, used) = reader.next(piece);
    match entry {
        Some(found) => {
            answer_line(question, points, folder, out, found.line, found.kind)?;
            Ok(used)
        }
        None => Ok(used),
    }
}

// Answers the lines that end in a piece, in order.
fn answer_piece<F: Folder, O: Sink, L: Ledger, S: Scene>(
    question: &Question,
    points: &mut PointReader<F, L, S>,
    folder: &mut F,
    out: &mut O,
    reader: &mut PointLines,
    piece: &[u8],
) -> Result<(), Fault>
    requires ready { IsReadyWith F.Folder S.told S.cat folder.old question.now.cat points.old.pixels.lane }
    requires bands { HasBands question.now.cat question.now.id question.now.asked.bands }
    requires room { length points.old.room.values.items ≡ length question.now.asked.bands }
    requires reading { IsReading reader.old }
    ensures told { (m : Files) → F.names folder.old ≡ Some m → (d : Dataset) →
        slice_get question.now.cat question.now.id ≡ Some d →
        AnswersPiece (point_text m question.now.cat d question.now.asked) reader.old piece.now reader.new result
        (O.got out.old) (O.got out.new) }
    // no line that has an end is left unanswered, and less can be taken than before
    ensures reading { OnOk result (IsReading reader.new) }
    ensures none { OnOk result (0 < length piece.now → coming ended_lines reader.new [] ≡ []) }
    ensures forward { OnOk result (0 < length piece.now → room_of reader.new < room_of reader.old) }
    ensures never { (m : Files) → F.names folder.old ≡ Some m → (name : List ℕ) (was : ℕ) (now : Option ℕ) →
        result ≡ Err (Fault.Changed name was now) → ⊥ }
    ensures cause { HasCauses (F.faults folder.old) (F.faults folder.new) (O.faults out.old) (O.faults out.new) result }
    ensures not_input { result ≡ Err Fault.InputFault → ⊥ }
    ensures ready { IsReadyWith F.Folder S.told S.cat folder.new question.now.cat points.new.pixels.lane }
    ensures room { length points.new.room.values.items ≡ length points.old.room.values.items }
    ensures late { IfErr result IsOfLines }
    ensures differs { Differs result }
    ensures changed { IfErr result (TellsChange question.now.cat) }
    ensures names { F.names folder.new ≡ F.names folder.old }
    ensures writes { F.write_calls folder.new ≡ F.write_calls folder.old }
{
    let mut at = 0;
    while at < piece.len() {
        let rest = &piece[at..];
        let used = answer_next(question, points, folder, out, reader, rest)?;
        at += used;
    }
    Ok(())
}

// Answers the lines that end in the input, which is taken in pieces up to its end.
fn answer_pieces<F: Folder, I: Input, O: Sink, L: Ledger, S: Scene>(
    question: &Question,
    points: &mut PointReader<F, L, S>,
    folder: &mut F,
    input: &mut I,
    out: &mut O,
    reader: &mut PointLines,
    bytes: &mut [u8],
) -> Result<(), Fault>
    requires ready { IsReadyWith F.Folder S.told S.cat folder.old question.now.cat points.old.pixels.lane }
    requires bands { HasBands question.now.cat question.now.id question.now.asked.bands }
    requires room { length points.old.room.values.items ≡ length question.now.asked.bands }
    requires start { reader.old ≡ start }
    requires some { 0 < length bytes.old }
    ensures told { (m : Files) → F.names folder.old ≡ Some m → (d : Dataset) →
        slice_get question.now.cat question.now.id ≡ Some d → (i : List ℕ) → I.left input.old ≡ Some i →
        AnswersPieces (point_text m question.now.cat d question.now.asked) i (I.left input.new) reader.new result
        (O.got out.old) (O.got out.new) }
    ensures stopped { result ≡ Err Fault.InputFault → (m : Files) → F.names folder.old ≡ Some m → (d : Dataset) →
        slice_get question.now.cat question.now.id ≡ Some d → (i : List ℕ) → I.left input.old ≡ Some i →
        StopsBehind (answers (point_text m question.now.cat d question.now.asked) None) i (I.left input.new)
        (O.got out.old) (O.got out.new) }
    ensures read { OnOk result ((i : List ℕ) → I.left input.old ≡ Some i → I.left input.new ≡ Some []) }
    ensures never { (m : Files) → F.names folder.old ≡ Some m → (name : List ℕ) (was : ℕ) (now : Option ℕ) →
        result ≡ Err (Fault.Changed name was now) → ⊥ }
    ensures cause { HasCauses (F.faults folder.old) (F.faults folder.new) (O.faults out.old) (O.faults out.new) result }
    ensures input_cause { HasCause Fault.InputFault (I.faults input.old) (I.faults input.new) result }
    ensures ready { IsReadyWith F.Folder S.told S.cat folder.new question.now.cat points.new.pixels.lane }
    ensures room { length points.new.room.values.items ≡ length points.old.room.values.items }
    ensures late { IfErr result IsOfLines }
    ensures differs { Differs result }
    ensures changed { IfErr result (TellsChange question.now.cat) }
    ensures names { F.names folder.new ≡ F.names folder.old }
    ensures writes { F.write_calls folder.new ≡ F.write_calls folder.old }
{
    'pieces: loop {
        let count = match input.take(bytes) {
            Ok(count) => count,
            Err(Failed) => return Err(Fault::InputFault),
        };
        if count == 0 {
            return Ok(());
        }
        let piece = &bytes[..count];
        answer_piece(question, points, folder, out, reader, piece)?;
    }
}

/// Answers the lines of the input, in pieces: the points of a piece are answered before the next piece is asked for.
/// It takes memory for a piece of 65,536 bytes and for one line.
///
/// BadPoint comes exactly at the first line that is no point, Limit with the kind Points and the value 16777217 exactly
/// at line 16,777,217, where no line before it is refused; the lines before were answered. InputFault comes only where
/// the input's count rose; exactly the whole lines among the bytes that it gave were answered then. All other
/// refusals are those of `put_point`.
pub fn answer_input<F: Folder, I: Input, O: Sink, L: Ledger, S: Scene>(
    question: &Question,
    points: &mut PointReader<F, L, S>,
    folder: &mut F,
    input: &mut I,
    out: &mut O,
) -> Result<(), Fault>
    requires ready { IsReadyWith F.Folder S.told S.cat folder.old question.now.cat points.old.pixels.lane }
    requires bands { HasBands question.now.cat question.now.id question.now.asked.bands }
    requires room { length points.old.room.values.items ≡ length question.now.asked.bands }
    ensures told { (m : Files) → F.names folder.old ≡ Some m → (d : Dataset) →
        slice_get question.now.cat question.now.id ≡ Some d → (i : List ℕ) → I.left input.old ≡ Some i →
        AnswersInput (point_text m question.now.cat d question.now.asked) i (I.left input.new) result (O.got out.old)
        (O.got out.new) }
    ensures stopped { result ≡ Err Fault.InputFault → (m : Files) → F.names folder.old ≡ Some m → (d : Dataset) →
        slice_get question.now.cat question.now.id ≡ Some d → (i : List ℕ) → I.left input.old ≡ Some i →
        StopsBehind (answers (point_text m question.now.cat d question.now.asked) None) i (I.left input.new)
        (O.got out.old) (O.got out.new) }
    // over every folder, success is at the end of the input; over one that tells its names, no length is said to have
    // changed
    ensures read { OnOk result ((i : List ℕ) → I.left input.old ≡ Some i → I.left input.new ≡ Some []) }
    ensures never { (m : Files) → F.names folder.old ≡ Some m → (name : List ℕ) (was : ℕ) (now : Option ℕ) →
        result ≡ Err (Fault.Changed name was now) → ⊥ }
    ensures cause { HasCauses (F.faults folder.old) (F.faults folder.new) (O.faults out.old) (O.faults out.new) result }
    ensures input_cause { HasCause Fault.InputFault (I.faults input.old) (I.faults input.new) result }
    ensures ready { IsReadyWith F.Folder S.told S.cat folder.new question.now.cat points.new.pixels.lane }
    ensures room { length points.new.room.values.items ≡ length points.old.room.values.items }
    ensures late { IfErr result IsOfLines }
    ensures differs { Differs result }
    ensures changed { IfErr result (TellsChange question.now.cat) }
    ensures names { F.names folder.new ≡ F.names folder.old }
    ensures writes { F.write_calls folder.new ≡ F.write_calls folder.old }
{
    let mut reader = PointLines::new(question.alloc)?;
    let mut bytes = vec![in question.alloc; 0u8; PIECE]?;
    answer_pieces(
        question,
        points,
        folder,
        input,
        out,
        &mut reader,
        &mut bytes,
    )?;
    match reader.finish() {
        Some(last) => answer_line(question, points, folder, out, last.line, last.kind),
        None => Ok(()),
    }
}
