// How runs end of which a call of the outside fails: what is told, what the names hold then, and that no draft is left.
use crate::stories::{has, has_count, has_only};
use crate::trials::{
    CALM, Cause, FOLDER, Failures, Fed, FileOf, NOTHING, READING, Ran, Said, WRITING, run_over,
};
use outside::{Failing, MemFolder};
use std::alloc::Global;
use std::process::Abort;
use std::thread::Threads;

/// The name of an output, and its bytes before and behind.
pub type Output<'a> = (&'a str, &'a [u8], &'a [u8]);

/// A run: the words; what is printed; what is told before anything is published; and the outputs in the order in which
/// they are published. All of them stand among the files before.
#[derive(Clone, Copy)]
pub struct Work<'a> {
    pub line: &'a str,
    pub text: &'a str,
    pub told: &'a str,
    pub outputs: &'a [Output<'a>],
}

/// How a run ended, and how many outputs it published.
#[derive(Clone, Copy)]
pub enum End {
    /// By a fault of the outside, of which alone it told.
    Early(usize),
    /// By a fault of the outside, behind all that is told before anything is published.
    Warned(usize),
    /// With all that it does.
    Whole,
}

/// Whose calls fail: the folder's, the input's, or the output's, of which such a call takes so many bytes first.
#[derive(Clone, Copy)]
pub enum Failer {
    Folder,
    Input,
    Output(usize),
}

// These calls fail, and a run ends early by this cause.
fn failures_of(failer: Failer, calls: &[Failing]) -> (Failures<'_>, Cause<'static>) {
    match failer {
        Failer::Folder => (Failures { calls, ..CALM }, ("FolderFault", FOLDER)),
        Failer::Input => (
            Failures {
                takes: calls,
                ..CALM
            },
            ("InputFault", READING),
        ),
        Failer::Output(front) => (
            Failures {
                puts: calls,
                front,
                ..CALM
            },
            ("OutFault", WRITING),
        ),
    }
}

// Whether an output has its bytes from behind, or those from before.
fn stands<R: Abort>(
    rt: &R,
    alloc: Global,
    folder: &MemFolder,
    output: &Output<'_>,
    is_made: bool,
) -> bool {
    let (name, before, behind) = *output;
    has(
        rt,
        alloc,
        folder,
        (name, if is_made { behind } else { before }),
    )
}

// Whether the first so many outputs have their new bytes, and the others those from before.
fn stand<R: Abort>(
    rt: &R,
    alloc: Global,
    folder: &MemFolder,
    outputs: &[Output<'_>],
    count: usize,
) -> bool {
    for (at, output) in outputs.iter().enumerate() {
        if !stands(rt, alloc, folder, output, at < count) {
            return false;
        }
    }
    true
}

/// Whether the first so many outputs were published, where the others are as before, and there are so many files and no
/// open draft.
pub fn are_published<R: Abort>(
    rt: &R,
    alloc: Global,
    folder: &MemFolder,
    files: usize,
    outputs: &[Output<'_>],
    count: usize,
) -> bool {
    has_count(rt, folder, files) && stand(rt, alloc, folder, outputs, count)
}

// Whether this holds of any count.
fn any_published<R: Abort>(
    rt: &R,
    alloc: Global,
    folder: &MemFolder,
    files: usize,
    outputs: &[Output<'_>],
) -> bool {
    for count in 0..=outputs.len() {
        if are_published(rt, alloc, folder, files, outputs, count) {
            return true;
        }
    }
    false
}

fn count_of(work: Work<'_>, end: End) -> usize {
    match end {
        End::Early(count) | End::Warned(count) => count,
        End::Whole => work.outputs.len(),
    }
}

// Whether a run ends so; none of its calls failed where it does all.
fn says_end(ran: &Ran, work: Work<'_>, cause: Cause<'_>, end: End) -> bool {
    match end {
        End::Early(_) => ran.has_failed() && ran.said.ends_in(work.text, cause),
        End::Warned(_) => ran.has_failed() && ran.said.ends_behind(work.text, work.told, cause),
        End::Whole => !ran.has_failed() && ran.said.is(0, work.text, work.told),
    }
}

/// Whether a run ends so where these calls fail.
pub fn ends<R: Threads + Sync + Abort>(
    rt: &R,
    alloc: Global,
    files: &[FileOf<'_>],
    work: Work<'_>,
    failer: Failer,
    calls: &[Failing],
    end: End,
) -> bool {
    let (failures, cause) = failures_of(failer, calls);
    let ran = run_over(rt, alloc, files, (work.line, NOTHING), failures);
    let count = count_of(work, end);
    says_end(&ran, work, cause, end)
        && are_published(rt, alloc, &ran.folder, files.len(), work.outputs, count)
}

/// The place of a run among some, the calls of the folder that fail, and how the run ends then.
pub type Failed<'a> = (usize, &'a [Failing], End);

fn fails_so<R: Threads + Sync + Abort>(
    rt: &R,
    alloc: Global,
    files: &[FileOf<'_>],
    works: &[Work<'_>],
    row: &Failed<'_>,
) -> bool {
    let (place, calls, end) = *row;
    match works.get(place) {
        Some(work) => ends(rt, alloc, files, *work, Failer::Folder, calls, end),
        None => false,
    }
}

/// The first of these that ends otherwise.
pub fn first_other<R: Threads + Sync + Abort>(
    rt: &R,
    alloc: Global,
    files: &[FileOf<'_>],
    works: &[Work<'_>],
    rows: &[Failed<'_>],
) -> Option<usize> {
    for (at, row) in rows.iter().enumerate() {
        if !fails_so(rt, alloc, files, works, row) {
            return Some(at);
        }
    }
    None
}

// Whether a run of which a call failed ends by that, where it tells of nothing else, or of all that is told before
// anything is published.
fn says_fault(ran: &Ran, work: Work<'_>, cause: Cause<'_>) -> bool {
    ran.has_failed()
        && (ran.said.ends_in(work.text, cause) || ran.said.ends_behind(work.text, work.told, cause))
}

// Whether a run is ended by the failing of this call.
fn is_cut<R: Threads + Sync + Abort>(
    rt: &R,
    alloc: Global,
    files: &[FileOf<'_>],
    work: Work<'_>,
    failer: Failer,
    call: u64,
) -> bool {
    let calls: &[Failing] = &[Failing::Call(call)];
    let (failures, cause) = failures_of(failer, calls);
    let ran = run_over(rt, alloc, files, (work.line, NOTHING), failures);
    says_fault(&ran, work, cause)
        && any_published(rt, alloc, &ran.folder, files.len(), work.outputs)
}

// The first call whose failing doesn't end the run.
fn first_uncut<R: Threads + Sync + Abort>(
    rt: &R,
    alloc: Global,
    files: &[FileOf<'_>],
    work: Work<'_>,
    failer: Failer,
) -> u64 {
    for call in 1..=256u64 {
        if !is_cut(rt, alloc, files, work, failer, call) {
            return call;
        }
    }
    0
}

/// Whether each call ends the run by its failing, up to a run in which none failed, as the folder, the input and the
/// output count themselves; the number of the call that isn't made is above the first of these and not above the
/// second.
pub fn each_cuts<R: Threads + Sync + Abort>(
    rt: &R,
    alloc: Global,
    files: &[FileOf<'_>],
    work: Work<'_>,
    failer: Failer,
    (least, most): (u64, u64),
) -> bool {
    let call = first_uncut(rt, alloc, files, work, failer);
    let calls: &[Failing] = &[Failing::Call(call)];
    call > least && call <= most && ends(rt, alloc, files, work, failer, calls, End::Whole)
}

/// The place of a run among some, whose calls fail in turn, and the numbers between which the first call is that isn't
/// made: above the first one, not above the second.
pub type Turn = (usize, Failer, (u64, u64));

fn turn_holds<R: Threads + Sync + Abort>(
    rt: &R,
    alloc: Global,
    files: &[FileOf<'_>],
    works: &[Work<'_>],
    turn: &Turn,
) -> bool {
    let (place, failer, numbers) = *turn;
    match works.get(place) {
        Some(work) => each_cuts(rt, alloc, files, *work, failer, numbers),
        None => false,
    }
}

/// The first of these of which a call's failing isn't met.
pub fn first_unmet<R: Threads + Sync + Abort>(
    rt: &R,
    alloc: Global,
    files: &[FileOf<'_>],
    works: &[Work<'_>],
    turns: &[Turn],
) -> Option<usize> {
    for (at, turn) in turns.iter().enumerate() {
        if !turn_holds(rt, alloc, files, works, turn) {
            return Some(at);
        }
    }
    None
}

/// A run that publishes nothing: its words and its input, what it prints, whose calls fail in turn, how many of them it
/// makes, and the status and what is told where none fails.
pub type Asking<'a> = (Fed<'a>, &'a str, Failer, u64, (u8, &'a str));

// Whether a run of which this call may fail ends early where it does, or prints all and ends as it is to where none
// fails; no draft is open, and the files are as before.
fn asks_so<R: Threads + Sync + Abort>(
    rt: &R,
    alloc: Global,
    files: &[FileOf<'_>],
    asking: &Asking<'_>,
    call: u64,
    is_made: bool,
) -> bool {
    let (fed, text, failer, _, (status, told)) = *asking;
    let calls: &[Failing] = &[Failing::Call(call)];
    let (failures, cause) = failures_of(failer, calls);
    let ran = run_over(rt, alloc, files, fed, failures);
    let is_ended = if is_made {
        ran.said.ends_in(text, cause)
    } else {
        ran.said.is(status, text, told)
    };
    ran.has_failed() == is_made && is_ended && has_only(rt, alloc, &ran.folder, files, &[])
}

// The first call that doesn't fail so.
fn first_unmade<R: Threads + Sync + Abort>(
    rt: &R,
    alloc: Global,
    files: &[FileOf<'_>],
    asking: &Asking<'_>,
) -> u64 {
    for call in 1..=256u64 {
        if !asks_so(rt, alloc, files, asking, call, true) {
            return call;
        }
    }
    0
}

/// Whether each call fails so, up to a run in which none failed, as the folder, the input and the output count
/// themselves; the number of the call that isn't made is above the first of these and not above the second.
pub fn each_asks_within<R: Threads + Sync + Abort>(
    rt: &R,
    alloc: Global,
    files: &[FileOf<'_>],
    asking: &Asking<'_>,
    (least, most): (u64, u64),
) -> bool {
    let call = first_unmade(rt, alloc, files, asking);
    call > least && call <= most && asks_so(rt, alloc, files, asking, call, false)
}

// The same, where there are as many calls as are listed.
fn each_asks_so<R: Threads + Sync + Abort>(
    rt: &R,
    alloc: Global,
    files: &[FileOf<'_>],
    asking: &Asking<'_>,
) -> bool {
    let (_, _, _, count, _) = *asking;
    let numbers = (count, count.saturating_add(1));
    each_asks_within(rt, alloc, files, asking, numbers)
}

/// The first of these of which a call's failing isn't met.
pub fn first_unasked<R: Threads + Sync + Abort>(
    rt: &R,
    alloc: Global,
    files: &[FileOf<'_>],
    askings: &[Asking<'_>],
) -> Option<usize> {
    for (at, asking) in askings.iter().enumerate() {
        if !each_asks_so(rt, alloc, files, asking) {
            return Some(at);
        }
    }
    None
}

/// Words, the calls of the folder that fail, the status, the fault, all that would be told, and how many outputs are
/// published.
pub type Untold<'a> = (&'a str, &'a [Failing], u8, &'a str, &'a str, usize);

/// A call of the error stream that fails, its number, and how many bytes it takes first.
pub type Telling<'a> = (&'a [Failing], u64, usize);

// Whether a run told the first part of a text that comes before this call fails, and of the call's own; all of it
// where none failed, as the error stream counts itself.
fn is_told(said: &Said, told: &str, call: u64, front: usize) -> bool {
    said.tells_front(told)
        && (said.err.faults() > 0 || said.tells(told))
        && (call > 1 || said.tells_part(told, front))
}

// Whether a run ends so whose error stream fails so.
fn ends_untold<'a, R: Threads + Sync + Abort>(
    rt: &R,
    alloc: Global,
    files: &[FileOf<'_>],
    outputs: &[Output<'_>],
    untold: &Untold<'a>,
    telling: &Telling<'a>,
) -> bool {
    let (line, calls, status, fault, told, count) = *untold;
    let (tells, call, front) = *telling;
    let failures = Failures {
        calls,
        tells,
        front,
        ..CALM
    };
    let ran = run_over(rt, alloc, files, (line, NOTHING), failures);
    ran.fails_with(status)
        && ran.said.status == status
        && ran.said.fault == fault
        && is_told(&ran.said, told, call, front)
        && are_published(rt, alloc, &ran.folder, files.len(), outputs, count)
}

// The first of these runs that ends otherwise.
fn first_untold<'a, R: Threads + Sync + Abort>(
    rt: &R,
    alloc: Global,
    files: &[FileOf<'_>],
    outputs: &[Output<'_>],
    rows: &[Untold<'a>],
    telling: &Telling<'a>,
) -> Option<usize> {
    for (at, untold) in rows.iter().enumerate() {
        if !ends_untold(rt, alloc, files, outputs, untold, telling) {
            return Some(at);
        }
    }
    None
}

/// The first of these failings of the error stream by which any of these runs ends otherwise.
pub fn first_told<'a, R: Threads + Sync + Abort>(
    rt: &R,
    alloc: Global,
    files: &[FileOf<'_>],
    outputs: &[Output<'_>],
    rows: &[Untold<'a>],
    tellings: &[Telling<'a>],
) -> Option<usize> {
    for (at, telling) in tellings.iter().enumerate() {
        if first_untold(rt, alloc, files, outputs, rows, telling).is_some() {
            return Some(at);
        }
    }
    None
}
