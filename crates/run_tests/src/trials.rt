// Runs over files in memory, and tables of runs. A test ends where memory is refused, and where a row goes otherwise.
use gdal_cli::{Fault, Outcome, run};
use lists_and_answers::Items;
use outside::{Failing, Folder, Listed, MemFolder, MemInput, MemSink, Name};
use std::alloc::{AllocError, Global};
use std::process::Abort;
use std::thread::Threads;

/// Ends a test where a row went otherwise, and names the row.
pub fn none_wrong<R: Abort>(rt: &R, wrong: Option<usize>) {
    assert_eq!(rt; wrong, None);
}

/// Ends a test where a number is another one, and names both.
pub fn is_number<R: Abort>(rt: &R, number: u64, wanted: u64) {
    assert_eq!(rt; number, wanted);
}

/// A name and its bytes.
pub type FileOf<'a> = (&'a str, &'a [u8]);

/// A part of a file: bytes, and how often they come.
pub type Part<'a> = (&'a [u8], usize);

// Adds a part.
fn add_part(bytes: &mut Vec<u8>, part: &Part<'_>) -> Result<(), AllocError> {
    let (text, count) = *part;
    for _ in 0..count {
        bytes.extend_from_slice(text)?;
    }
    Ok(())
}

/// Adds parts in their order.
pub fn add_parts<R: Abort>(rt: &R, bytes: &mut Vec<u8>, parts: &[Part<'_>]) {
    for part in parts {
        add_part(bytes, part).expect(rt, "memory");
    }
}

/// The bytes of these parts.
pub fn joined<R: Abort>(rt: &R, alloc: Global, parts: &[Part<'_>]) -> Vec<u8> {
    let mut bytes = Vec::new(alloc);
    add_parts(rt, &mut bytes, parts);
    bytes
}

// The schedule by which these calls fail.
fn listed<R: Abort>(rt: &R, alloc: Global, calls: &[Failing]) -> Listed {
    let mut failing = Items::new(alloc);
    for call in calls {
        failing.push(*call).expect(rt, "memory");
    }
    Listed::new(failing)
}

/// Puts a file into a folder.
pub fn put<R: Abort>(rt: &R, alloc: Global, folder: &mut MemFolder, file: FileOf<'_>) {
    let (name, bytes) = file;
    let name = Name::read(alloc, name).expect(rt, "a name");
    folder.put(&name, bytes).expect(rt, "memory");
}

/// A folder with these files, whose calls fail as they are listed.
pub fn folder_of<R: Abort>(
    rt: &R,
    alloc: Global,
    files: &[FileOf<'_>],
    calls: &[Failing],
) -> MemFolder {
    let mut folder = MemFolder::new(alloc, listed(rt, alloc, calls));
    for file in files {
        put(rt, alloc, &mut folder, *file);
    }
    folder
}

// Adds a word.
fn add_word(alloc: Global, words: &mut Vec<String>, word: &str) -> Result<(), AllocError> {
    words.push(String::from_str(alloc, word)?)?;
    Ok(())
}

fn words_of<R: Abort>(rt: &R, alloc: Global, line: &str) -> Vec<String> {
    let mut words = Vec::new(alloc);
    for word in line.split_ascii_whitespace() {
        add_word(alloc, &mut words, word).expect(rt, "memory");
    }
    words
}

/// The calls of the folder, of the input, of the output and of the error stream that fail, and how many bytes such a
/// call of the last two takes first.
#[derive(Clone, Copy)]
pub struct Failures<'a> {
    pub calls: &'a [Failing],
    pub takes: &'a [Failing],
    pub puts: &'a [Failing],
    pub tells: &'a [Failing],
    pub front: usize,
}

/// No call fails.
pub const CALM: Failures<'static> = Failures {
    calls: &[],
    takes: &[],
    puts: &[],
    tells: &[],
    front: 0,
};

/// Bytes of an input, which come in pieces of at most so many.
pub type Given<'a> = (&'a [u8], usize);

/// An empty input.
pub const NOTHING: Given<'static> = (b"", 1);

fn input_of<R: Abort>(
    rt: &R,
    alloc: Global,
    (bytes, most): Given<'_>,
    calls: &[Failing],
) -> MemInput {
    let bytes = bytes.to_vec(alloc).expect(rt, "memory");
    MemInput::in_pieces(bytes, most, listed(rt, alloc, calls))
}

fn sink_of<R: Abort>(rt: &R, alloc: Global, calls: &[Failing], front: usize) -> MemSink {
    MemSink::in_part(alloc, listed(rt, alloc, calls), front)
}

// What a run answered, printed and told. Its fault stands by the word that `word_of` has for it.
#[derive(Drop)]
pub struct Said {
    pub status: u8,
    pub fault: &'static str,
    pub out: MemSink,
    pub err: MemSink,
}

impl Said {
    // Whether a run ended with this status, and with a fault exactly where that isn't 0.
    fn ends_with(&self, status: u8) -> bool {
        self.status == status && (status == 0) == self.fault.is_empty()
    }

    // Whether a run ended with this status, and printed and told these texts.
    pub fn is(&self, status: u8, out: &str, err: &str) -> bool {
        self.ends_with(status) && self.out.got() == out.as_bytes() && self.tells(err)
    }

    // Whether a run ended with status 0, printed these bytes, and told nothing.
    pub fn prints(&self, out: &[u8]) -> bool {
        self.ends_with(0) && self.out.got() == out && self.tells("")
    }

    // Whether a run told this text.
    pub fn tells(&self, err: &str) -> bool {
        self.err.got() == err.as_bytes()
    }

    // Whether a run ended with status 2 and this fault, and printed a first part of this text.
    fn breaks_off(&self, out: &str, fault: &str) -> bool {
        self.status == 2 && self.fault == fault && out.as_bytes().starts_with(self.out.got())
    }

    // Whether a run ended early by this cause, of which alone it told, and printed a first part of this text.
    pub fn ends_in(&self, out: &str, cause: Cause<'_>) -> bool {
        let (fault, err) = cause;
        self.breaks_off(out, fault) && self.tells(err)
    }

    // The same, where it told this before.
    pub fn ends_behind(&self, out: &str, told: &str, cause: Cause<'_>) -> bool {
        let (fault, err) = cause;
        self.breaks_off(out, fault) && is_joined(self.err.got(), told.as_bytes(), err.as_bytes())
    }

    // Whether a run told a first part of this text.
    pub fn tells_front(&self, err: &str) -> bool {
        err.as_bytes().starts_with(self.err.got())
    }

    // Whether a run told the first bytes of this text, at most so many.
    pub fn tells_part(&self, err: &str, most: usize) -> bool {
        self.err.got().len() == most.min(err.len()) && self.tells_front(err)
    }
}

// Whether a text is one and then the other.
fn is_joined(text: &[u8], front: &[u8], back: &[u8]) -> bool {
    text.len() == front.len().saturating_add(back.len())
        && text.starts_with(front)
        && text.ends_with(back)
}

// The case of a fault, where rows name it, or that it is another; nothing where there is no fault.
fn word_of(fault: &Option<Fault>) -> &'static str {
    match fault {
        None => "",
        Some(Fault::Absent { .. }) => "Absent",
        Some(Fault::Plan(_)) => "Plan",
        Some(Fault::Build(_)) => "Build",
        Some(Fault::FolderFault) => "FolderFault",
        Some(Fault::InputFault) => "InputFault",
        Some(Fault::OutFault) => "OutFault",
        Some(_) => "another",
    }
}

// The status and the fault of a run.
fn ending_of<R: Threads + Sync, F: Folder>(
    rt: &R,
    alloc: Global,
    words: &[String],
    folder: &mut F,
    input: &mut MemInput,
    out: &mut MemSink,
    err: &mut MemSink,
) -> (u8, &'static str) {
    let Outcome { status, fault } = run(rt, alloc, words, folder, input, out, err);
    let word = word_of(&fault);
    (status, word)
}

// A run of these words over a folder and an input.
fn said_by<R: Threads + Sync + Abort, F: Folder>(
    rt: &R,
    alloc: Global,
    folder: &mut F,
    input: &mut MemInput,
    line: &str,
    failures: Failures<'_>,
) -> Said {
    let words = words_of(rt, alloc, line);
    let mut out = sink_of(rt, alloc, failures.puts, failures.front);
    let mut err = sink_of(rt, alloc, failures.tells, failures.front);
    let (status, fault) = ending_of(rt, alloc, &words, folder, input, &mut out, &mut err);
    Said {
        status,
        fault,
        out,
        err,
    }
}

/// A line of words over an input.
pub type Fed<'a> = (&'a str, Given<'a>);

/// A run of these words over a folder and an input, where no call of a stream fails.
pub fn said_of<R: Threads + Sync + Abort, F: Folder>(
    rt: &R,
    alloc: Global,
    folder: &mut F,
    (line, given): Fed<'_>,
) -> Said {
    let mut input = input_of(rt, alloc, given, &[]);
    said_by(rt, alloc, folder, &mut input, line, CALM)
}

/// The same, where the input is empty.
pub fn said_in<R: Threads + Sync + Abort, F: Folder>(
    rt: &R,
    alloc: Global,
    folder: &mut F,
    line: &str,
) -> Said {
    said_of(rt, alloc, folder, (line, NOTHING))
}

/// What a run said, its folder, and what it left of its input.
#[derive(Drop)]
pub struct Ran {
    pub said: Said,
    pub folder: MemFolder,
    pub input: MemInput,
}

impl Ran {
    // Whether a call of the folder, of the input or of the output failed, as they count themselves.
    pub fn has_failed(&self) -> bool {
        self.folder.faults() > 0 || self.input.faults() > 0 || self.said.out.faults() > 0
    }

    // Whether such a call failed exactly where a run is to end with status 2.
    pub fn fails_with(&self, status: u8) -> bool {
        self.has_failed() == (status == 2)
    }
}

/// A run over these files.
pub fn run_over<R: Threads + Sync + Abort>(
    rt: &R,
    alloc: Global,
    files: &[FileOf<'_>],
    (line, given): Fed<'_>,
    failures: Failures<'_>,
) -> Ran {
    let mut folder = folder_of(rt, alloc, files, failures.calls);
    let mut input = input_of(rt, alloc, given, failures.takes);
    let said = said_by(rt, alloc, &mut folder, &mut input, line, failures);
    Ran {
        said,
        folder,
        input,
    }
}

/// A line of words, the status, what is printed and what is told.
pub type Row<'a> = (&'a str, u8, &'a str, &'a str);

/// Whether a run over a folder says what is listed.
pub fn says_in<R: Threads + Sync + Abort, F: Folder>(
    rt: &R,
    alloc: Global,
    folder: &mut F,
    row: &Row<'_>,
) -> bool {
    let (line, status, out, err) = *row;
    let said = said_in(rt, alloc, folder, line);
    said.is(status, out, err)
}

/// Whether a run over these files says what is listed.
pub fn says<R: Threads + Sync + Abort>(
    rt: &R,
    alloc: Global,
    files: &[FileOf<'_>],
    row: &Row<'_>,
) -> bool {
    let mut folder = folder_of(rt, alloc, files, &[]);
    says_in(rt, alloc, &mut folder, row)
}

/// The first of these runs over these files that says something else than is listed.
pub fn first_wrong<R: Threads + Sync + Abort>(
    rt: &R,
    alloc: Global,
    files: &[FileOf<'_>],
    rows: &[Row<'_>],
) -> Option<usize> {
    for (at, row) in rows.iter().enumerate() {
        if !says(rt, alloc, files, row) {
            return Some(at);
        }
    }
    None
}

/// The calls of the folder, of the input and of the output that fail.
pub type Calls<'a> = (&'a [Failing], &'a [Failing], &'a [Failing]);

/// A run, the calls that fail, and the status, what is printed and what is told.
pub type Trial<'a> = (Fed<'a>, Calls<'a>, (u8, &'a str, &'a str));

/// Whether a run over these files says what is listed, and a call failed exactly where the status is 2.
pub fn ends_so<R: Threads + Sync + Abort>(
    rt: &R,
    alloc: Global,
    files: &[FileOf<'_>],
    trial: &Trial<'_>,
) -> bool {
    let (fed, (calls, takes, puts), (status, out, err)) = *trial;
    let failures = Failures {
        calls,
        takes,
        puts,
        ..CALM
    };
    let ran = run_over(rt, alloc, files, fed, failures);
    ran.fails_with(status) && ran.said.is(status, out, err)
}

/// The first of these runs over these files that says something else than is listed.
pub fn first_failing<R: Threads + Sync + Abort>(
    rt: &R,
    alloc: Global,
    files: &[FileOf<'_>],
    trials: &[Trial<'_>],
) -> Option<usize> {
    for (at, trial) in trials.iter().enumerate() {
        if !ends_so(rt, alloc, files, trial) {
            return Some(at);
        }
    }
    None
}

pub const FOLDER: &str = "ERROR 3: a file call failed\n";

pub const READING: &str = "ERROR 3: reading the input failed\n";

pub const WRITING: &str = "ERROR 3: writing the output failed\n";

/// The fault by which a run ends early, and what is told of it.
pub type Cause<'a> = (&'a str, &'a str);

// Whether a run says this where this call of the folder fails.
fn says_at<R: Threads + Sync + Abort>(
    rt: &R,
    alloc: Global,
    files: &[FileOf<'_>],
    fed: Fed<'_>,
    call: u64,
    said: (u8, &str, &str),
) -> bool {
    let calls: Calls<'_> = (&[Failing::Call(call)], &[], &[]);
    ends_so(rt, alloc, files, &(fed, calls, said))
}

// The first call of the folder whose failing doesn't end the run with nothing printed.
fn first_passed<R: Threads + Sync + Abort>(
    rt: &R,
    alloc: Global,
    files: &[FileOf<'_>],
    fed: Fed<'_>,
) -> u64 {
    for call in 1..=64u64 {
        if !says_at(rt, alloc, files, fed, call, (2, "", FOLDER)) {
            return call;
        }
    }
    0
}

/// The number of the first call of the folder that isn't made, where the failing of each before it ends the run with
/// nothing printed, and a run in which none fails prints this; else 0.
pub fn first_harmless<R: Threads + Sync + Abort>(
    rt: &R,
    alloc: Global,
    files: &[FileOf<'_>],
    fed: Fed<'_>,
    out: &str,
) -> u64 {
    let call = first_passed(rt, alloc, files, fed);
    if says_at(rt, alloc, files, fed, call, (0, out, "")) {
        call
    } else {
        0
    }
}
