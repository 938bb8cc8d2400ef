// A run of the program.
ghost use Rattle.std.specs.Prelude.{◌≡◌, ◌≤◌, ◌⊎◌, ℕ, List, [], IfOk, IfErr, IfSome, IsSome, Option, Some, Ok};
ghost use Rattle.std.specs.Prelude.{Err, OnOk, true, false, map, string_bytes};
ghost use Rattle.outside.specs.Outside.{Files};
ghost use Rattle.outside.specs.Causes.{HasCause, Rose};
ghost use Rattle.outside.specs.Reading.{OnlyRead};
ghost use Rattle.input_points.specs.Entries.{entries};
ghost use Rattle.error_lines.specs.Faults.{HasCauses, HasChanged, IsOutside, OwnsFault, status_of};
ghost use Rattle.translation_runs.specs.Ends.{ended};
ghost use Rattle.gdal_cli.specs.Run.{StopsBehind, Answers, AreTold, MayEnd, IsRefusal, RefusesWords, RefusesDataset};
ghost use Rattle.gdal_cli.specs.Run.{TellsFault, words_read_input, words_make_rasters, words_published, words_warn};
ghost use Rattle.gdal_cli.specs.Jobs.{MayWarn};
ghost use Rattle.error_lines.specs.Steps.{Step, IsFirstPart, AreDone, AreWarned, GoesWarning};
ghost use Rattle.command_words.specs.Words.{words_of};
ghost use Rattle.gdal_cli.specs.Work.{run_of, run_over};

use crate::faults::word_fault_of;
use crate::jobs::{Host, put_job};
use command_words::read_words;
use error_lines::{Fault, Outcome, tell};
use outside::{Folder, Input, Sink};
use std::alloc::Global;
use std::thread::Threads;

// Reads the words, and does what they ask for.
fn perform<R: Threads + Sync, F: Folder, I: Input, O: Sink, E: Sink>(
    host: &Host<R>,
    words: &[String],
    folder: &mut F,
    input: &mut I,
    out: &mut O,
    err: &mut E,
    failed: &mut bool,
) -> Result<(), Fault>
    requires fresh { failed.old ≡ false }
    ensures told { (m : Files) → F.names folder.old ≡ Some m → (i : List ℕ) →
        (words_read_input (words_of (map string_bytes words.now)) ≡ true → I.left input.old ≡ Some i) →
        GoesWarning (run_over (map string_bytes words.now) m (entries i)) m result (F.names folder.new) (O.got out.old)
        (O.got out.new) (λ steps. AreWarned steps failed.new (E.faults err.old) (E.faults err.new) (E.got err.old)
        (E.got err.new)) }
    ensures stopped { result ≡ Err Fault.InputFault → (m : Files) → F.names folder.old ≡ Some m → (i : List ℕ) →
        I.left input.old ≡ Some i → StopsBehind (run_over (map string_bytes words.now) m) i (I.left input.new)
        (O.got out.old) (O.got out.new) }
    ensures refused { words_make_rasters (words_of (map string_bytes words.now)) ≡ false → IsRefusal (ended result) →
        (out.new ≡ out.old) × (input.new ≡ input.old) × (F.names folder.new ≡ F.names folder.old) }
    ensures made { words_make_rasters (words_of (map string_bytes words.now)) ≡ true → (m : Files) →
        F.names folder.old ≡ Some m → IfErr result IsOutside }
    ensures warned { MayWarn (words_warn (words_of (map string_bytes words.now))) (ended result) failed.new
        (E.faults err.old) (E.faults err.new) (E.got err.old) (E.got err.new) }
    ensures only_read { words_published (words_of (map string_bytes words.now)) ≡ [] →
        OnlyRead F.Folder folder.old folder.new }
    ensures may_end { IfOk (words_of (map string_bytes words.now)) (λ command. IfErr result (MayEnd command.job)) }
    ensures read { OnOk result (words_read_input (words_of (map string_bytes words.now)) ≡ true → (i : List ℕ) →
        I.left input.old ≡ Some i → I.left input.new ≡ Some []) }
    ensures untouched { words_read_input (words_of (map string_bytes words.now)) ≡ false → input.new ≡ input.old }
    ensures input_cause { HasCause Fault.InputFault (I.faults input.old) (I.faults input.new) result }
    ensures cause { HasCauses (F.faults folder.old) (F.faults folder.new) (O.faults out.old) (O.faults out.new) result }
    ensures usage { RefusesWords (words_of (map string_bytes words.now)) (ended result) }
    ensures unknown { RefusesDataset (words_of (map string_bytes words.now)) (ended result) }
    ensures changed { HasChanged (F.names folder.old) (ended result) }
    ensures own { OwnsFault (ended result) }
{
    match read_words(host.alloc, words) {
        Ok(command) => put_job(host, folder, input, out, err, failed, command),
        Err(fault) => Err(word_fault_of(fault)),
    }
}

fn ended(end: Result<(), Fault>) -> Option<Fault>
    ensures { result ≡ ended end }
{
    end.err()
}

/// Does all that the program does: reads the words behind the program's name, does what they ask
/// for over the files of the folder and the lines of the input, prints on `out`, publishes files in
/// the folder, and tells warnings and a fault on `err`. It answers for every list of words.
pub fn run<R: Threads + Sync, F: Folder, I: Input, O: Sink, E: Sink>(
    rt: &R,
    alloc: Global,
    words: &[String],
    folder: &mut F,
    input: &mut I,
    out: &mut O,
    err: &mut E,
) -> Outcome
    // Where the status is 0 or 1, the fault and all that was done are those of the definition.
    ensures answer { result.status ≤ 1 → (m : Files) → F.names folder.old ≡ Some m → (i : List ℕ) →
        (words_read_input (words_of (map string_bytes words.now)) ≡ true → I.left input.old ≡ Some i) →
        Answers (run_of (map string_bytes words.now) m i) m result.fault (F.names folder.new) (O.got out.old)
        (O.got out.new) }

    // Where it is 2 or 3, the first of its steps were done and told, and a first part of the text of the next.
    ensures early_end { 2 ≤ result.status → (m : Files) → F.names folder.old ≡ Some m → (i : List ℕ) →
        (words_read_input (words_of (map string_bytes words.now)) ≡ true → I.left input.old ≡ Some i) →
        (part : List Step) × IsFirstPart part (run_of (map string_bytes words.now) m i).steps ×
        AreDone part m (F.names folder.new) (O.got out.old) (O.got out.new) ×
        AreTold part result.fault (E.faults err.old) (E.faults err.new) (E.got err.old) (E.got err.new) }

    // A run that is refused before a line of the input has printed, taken and published nothing: over every folder, and
    // the run from a number, whose later parts read what the earlier ones published, over one that tells its files.
    ensures refused { (words_make_rasters (words_of (map string_bytes words.now)) ≡ true →
        IsSome (F.names folder.old)) → IsRefusal result.fault → (out.new ≡ out.old) × (input.new ≡ input.old) ×
        (F.names folder.new ≡ F.names folder.old) }

    // Over a folder that tells its files, the run from a number is refused by nothing.
    ensures made { words_make_rasters (words_of (map string_bytes words.now)) ≡ true → (m : Files) →
        F.names folder.old ≡ Some m → IfSome result.fault IsOutside }

    // Over every folder, words that publish nothing only read it.
    ensures only_read { words_published (words_of (map string_bytes words.now)) ≡ [] →
        OnlyRead F.Folder folder.old folder.new }

    // Over every folder, a command ends with the faults of its job alone.
    ensures may_end { IfOk (words_of (map string_bytes words.now)) (λ command.
        IfSome result.fault (MayEnd command.job)) }

    // Only a command that takes its points from the input reads it; one that succeeds read it to its end.
    ensures input { words_read_input (words_of (map string_bytes words.now)) ≡ false → input.new ≡ input.old }
    ensures input_read { words_read_input (words_of (map string_bytes words.now)) ≡ true → result.status ≡ 0 →
        (i : List ℕ) → I.left input.old ≡ Some i → I.left input.new ≡ Some [] }

    // Where the input failed, exactly the whole lines among the bytes that it gave are answered, none of which is
    // refused.
    ensures input_stopped { result.fault ≡ Some Fault.InputFault → (m : Files) → F.names folder.old ≡ Some m →
        (i : List ℕ) → I.left input.old ≡ Some i → StopsBehind (run_over (map string_bytes words.now) m) i
        (I.left input.new) (O.got out.old) (O.got out.new) }

    // Each fault has its status, and each of the outside its cause.
    ensures status { result.status ≡ status_of result.fault }
    ensures folder_fault { result.fault ≡ Some Fault.FolderFault → Rose (F.faults folder.old) (F.faults folder.new) }
    ensures input_fault { result.fault ≡ Some Fault.InputFault → Rose (I.faults input.old) (I.faults input.new) }
    ensures out_fault { result.fault ≡ Some Fault.OutFault → Rose (O.faults out.old) (O.faults out.new) }

    // A changed length comes only over a folder that doesn't tell its names, and is another length.
    ensures changed { HasChanged (F.names folder.old) result.fault }

    // Over every folder, want of memory is never told as what is wrong with a file.
    ensures own { OwnsFault result.fault }

    // No count of failed calls falls.
    ensures folder_later { F.faults folder.old ≤ F.faults folder.new }
    ensures input_later { I.faults input.old ≤ I.faults input.new }
    ensures out_later { O.faults out.old ≤ O.faults out.new }
    ensures err_later { E.faults err.old ≤ E.faults err.new }

    // Over every folder, usage and extensions of no kind are refused exactly where they stand.
    ensures usage { RefusesWords (words_of (map string_bytes words.now)) result.fault }
    ensures not_recognized { RefusesDataset (words_of (map string_bytes words.now)) result.fault }

    // Where nothing failed outside, the fault is that of the definition, or want of memory.
    ensures complete { (m : Files) → F.names folder.old ≡ Some m → (i : List ℕ) →
        (words_read_input (words_of (map string_bytes words.now)) ≡ true → I.left input.old ≡ Some i) →
        (Rose (F.faults folder.old) (F.faults folder.new) → ⊥) → (Rose (I.faults input.old) (I.faults input.new) → ⊥) →
        (Rose (O.faults out.old) (O.faults out.new) → ⊥) →
        (result.fault ≡ (run_of (map string_bytes words.now) m i).fault) ⊎ (result.fault ≡ Some Fault.Memory) }

    // Over every folder, the error stream gets warnings and the line of the fault, or a first part where it fails. Only
    // the making of a mosaic of inputs warns, and what is refused doesn't.
    ensures fault_told { TellsFault (words_warn (words_of (map string_bytes words.now))) result.fault (E.faults err.old)
        (E.faults err.new) (E.got err.old) (E.got err.new) }

    // Where the status is 0 or 1, it gets the warnings of all steps before that line, or a first part where it fails.
    ensures errors { result.status ≤ 1 → (m : Files) → F.names folder.old ≡ Some m → (i : List ℕ) →
        (words_read_input (words_of (map string_bytes words.now)) ≡ true → I.left input.old ≡ Some i) →
        AreTold (run_of (map string_bytes words.now) m i).steps result.fault (E.faults err.old) (E.faults err.new)
        (E.got err.old) (E.got err.new) }
{
    let mut failed = false;
    let host = Host { rt, alloc };
    let fault = ended(perform(&host, words, folder, input, out, err, &mut failed));
    tell(err, failed, fault)
}
