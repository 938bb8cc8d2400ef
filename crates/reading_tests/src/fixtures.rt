// What the tests share: how they end, folders in memory, documents, heads, and what is said of them. A test ends where
// memory is refused, and where a row goes otherwise.
use catalog::{Bad, LimitKind, WalkFault, head_of};
use lists_and_answers::{Items, push_all};
use outside::{CalmFolder, Failing, Listed, MemFolder, MemoryFolder, Name, Never, Schedule};
use std::alloc::{AllocError, Global};
use std::process::Abort;

/// Ends a test where a row went otherwise, and names the row.
pub fn none_wrong<R: Abort>(rt: &R, wrong: Option<usize>) {
    assert_eq!(rt; wrong, None);
}

/// A row of a table.
pub trait Case {
    /// Whether it holds.
    fn holds<R: Abort>(&self, rt: &R, alloc: Global) -> bool;
}

// The first of these rows that doesn't hold.
fn first_wrong<R: Abort, C: Case>(rt: &R, alloc: Global, rows: &[C]) -> Option<usize> {
    for (at, row) in rows.iter().enumerate() {
        if !row.holds(rt, alloc) {
            return Some(at);
        }
    }
    None
}

/// Ends a test where a row doesn't hold, and names the row.
pub fn all_hold<R: Abort, C: Case>(rt: &R, alloc: Global, rows: &[C]) {
    none_wrong(rt, first_wrong(rt, alloc, rows));
}

/// Ends a test where a number is another one, and names both.
pub fn is_number<R: Abort>(rt: &R, number: Option<u64>, wanted: u64) {
    assert_eq!(rt; number, Some(wanted));
}

/// The two sides of the first such mark in a text.
pub fn cut<'a>(text: &'a str, mark: &str) -> (&'a str, &'a str) {
    match text.split_once(mark) {
        Some((front, back)) => (front, back),
        None => (text, ""),
    }
}

/// Whether a word is this text.
pub fn is_word(word: Option<&str>, text: &str) -> bool {
    match word {
        Some(word) => word == text,
        None => false,
    }
}

/// Whether a word is this number.
pub fn is_count(word: Option<&str>, number: u64) -> bool {
    match word {
        Some(word) => word.parse::<u64>().ok() == Some(number),
        None => false,
    }
}

// Whether the words of a text are a name and these numbers.
fn are_words(name: &str, numbers: &[u64], text: &str) -> bool {
    let mut words = text.split_ascii_whitespace();
    if !is_word(words.next(), name) {
        return false;
    }
    for number in numbers {
        if !is_count(words.next(), *number) {
            return false;
        }
    }
    words.next().is_none()
}

// Whether a text is a name, and what is wrong with its file as `Debug` prints it.
fn is_malformed<R: Abort>(rt: &R, alloc: Global, name: &str, bad: Bad, text: &str) -> bool {
    let wrong = format!(in alloc; "{bad:?}").expect(rt, "memory");
    let (named, rest) = cut(text, " ");
    named == name && rest == wrong.as_str()
}

// The word for what is counted.
fn limit_word(what: LimitKind) -> &'static str {
    match what {
        LimitKind::Name => "name",
        LimitKind::Sources => "sources",
        _ => "other",
    }
}

/// Whether a fault is that of a text: its word, and then the name and the numbers that it carries.
pub fn tells<R: Abort>(rt: &R, alloc: Global, fault: &WalkFault, text: &str) -> bool {
    let (word, rest) = cut(text, " ");
    match fault {
        WalkFault::Absent { name } => word == "absent" && rest == name.as_str(),
        WalkFault::NotRecognized { name } => word == "unknown" && rest == name.as_str(),
        WalkFault::Malformed { name, bad } => {
            word == "malformed" && is_malformed(rt, alloc, name.as_str(), *bad, rest)
        }
        WalkFault::Short { name, needed, has } => {
            word == "short" && are_words(name.as_str(), &[*needed, *has], rest)
        }
        WalkFault::Cycle { name } => word == "cycle" && rest == name.as_str(),
        WalkFault::TooDeep { name } => word == "deep" && rest == name.as_str(),
        WalkFault::SourceBand { name, band } => {
            word == "band" && are_words(name.as_str(), &[*band as u64], rest)
        }
        WalkFault::Limit { what, value } => {
            word == "limit" && are_words(limit_word(*what), &[*value], rest)
        }
        WalkFault::FolderFault => text == "folder",
        WalkFault::Memory => text == "memory",
    }
}

/// A file: its name and its bytes.
pub type File<'a> = (&'a str, &'a [u8]);

/// The name that a text gives.
pub fn name_of<R: Abort>(rt: &R, alloc: Global, text: &str) -> Name {
    Name::read(alloc, text).expect(rt, "a name")
}

/// Puts a file into a folder.
pub fn put<R: Abort, P: Schedule>(
    rt: &R,
    alloc: Global,
    folder: &mut MemoryFolder<P>,
    name: &str,
    bytes: &[u8],
) {
    let name = name_of(rt, alloc, name);
    folder.put(&name, bytes).expect(rt, "memory");
}

/// Puts files into a folder.
pub fn put_all<R: Abort, P: Schedule>(
    rt: &R,
    alloc: Global,
    folder: &mut MemoryFolder<P>,
    files: &[File<'_>],
) {
    for file in files {
        put(rt, alloc, folder, file.0, file.1);
    }
}

/// A folder with these files, none of whose calls fails.
pub fn calm_folder<R: Abort>(rt: &R, alloc: Global, files: &[File<'_>]) -> CalmFolder {
    let mut folder = CalmFolder::new(alloc, Never);
    put_all(rt, alloc, &mut folder, files);
    folder
}

// The schedule by which the call of this number fails.
fn one_call<R: Abort>(rt: &R, alloc: Global, call: u64) -> Listed {
    let mut calls = Items::new(alloc);
    calls.push(Failing::Call(call)).expect(rt, "memory");
    Listed::new(calls)
}

/// A folder with these files, whose call of this number fails; of the number 0 there is none.
pub fn folder_of<R: Abort>(rt: &R, alloc: Global, call: u64, files: &[File<'_>]) -> MemFolder {
    let mut folder = MemFolder::new(alloc, one_call(rt, alloc, call));
    put_all(rt, alloc, &mut folder, files);
    folder
}

/// Whether that is said of a name in a folder: `whole` where its head is there.
pub fn has_said<R: Abort>(
    rt: &R,
    alloc: Global,
    folder: &mut MemFolder,
    name: &str,
    verify: bool,
    said: &str,
) -> bool {
    let name = name_of(rt, alloc, name);
    match head_of(alloc, folder, &name, verify) {
        Ok(_) => said == "whole",
        Err(fault) => tells(rt, alloc, &fault, said),
    }
}

/// A name, its files, the call that fails, and what is said of it.
pub type Row<'a> = (&'a str, &'a [File<'a>], u64, &'a str);

/// Whether that is said of the name.
pub fn is_said<R: Abort>(rt: &R, alloc: Global, verify: bool, row: Row<'_>) -> bool {
    let (name, files, call, said) = row;
    let mut folder = folder_of(rt, alloc, call, files);
    has_said(rt, alloc, &mut folder, name, verify, said)
}

// Adds a source to a document: a name and a band, with a mark between them.
fn push_source(source: &str, text: &mut Vec<u8>) -> Result<(), AllocError> {
    let (name, band) = cut(source, "#");
    let parts: [&[u8]; 5] = [
        b"<SimpleSource><SourceFilename relativeToVRT=\"1\">",
        name.as_bytes(),
        b"</SourceFilename><SourceBand>",
        band.as_bytes(),
        b"</SourceBand></SimpleSource>",
    ];
    push_all(&parts, text)
}

/// Adds bytes to others.
pub fn add<R: Abort>(rt: &R, bytes: &mut Vec<u8>, more: &[u8]) {
    bytes.extend_from_slice(more).expect(rt, "memory");
}

/// A document of one pixel, one band and sources, each relative to it: for each a word `NAME#BAND`.
pub fn document<R: Abort>(rt: &R, alloc: Global, sources: &str) -> Vec<u8> {
    let mut text = Vec::new(alloc);
    add(
        rt,
        &mut text,
        b"<VRTDataset rasterXSize=\"1\" rasterYSize=\"1\"><VRTRasterBand dataType=\"Byte\" band=\"1\">",
    );
    for source in sources.split_ascii_whitespace() {
        push_source(source, &mut text).expect(rt, "memory");
    }
    add(rt, &mut text, b"</VRTRasterBand></VRTDataset>");
    text
}

// Bytes, and the number of blanks behind them.
type Part<'a> = (&'a [u8], usize);

// The parts of the head of a cell of one line of longitude and four points, and of its record. The elevations are 0,
// the null elevation, -5 and 5 from the north.
const PARTS: [Part<'static>; 6] = [
    (b"UHL10100000E0200000N03000300NA  U", 14),
    (b"000100040", 24),
    (b"DSIU", 644),
    (b"ACC", 2697),
    (&[0xaa, 0, 0, 0, 0, 0, 0, 0], 0),
    (&[0, 5, 0x80, 5, 0xff, 0xff, 0x80, 0, 0, 0, 3], 0),
];

// Adds parts in their order.
fn add_parts<R: Abort>(rt: &R, bytes: &mut Vec<u8>, parts: &[Part<'_>]) {
    for part in parts {
        add(rt, bytes, part.0);
        let end = bytes.len().saturating_add(part.1);
        bytes.resize(end, b' ').expect(rt, "memory");
    }
}

/// A cell with this last byte of its sum.
pub fn cell<R: Abort>(rt: &R, alloc: Global, sum: u8) -> Vec<u8> {
    let mut file = Vec::new(alloc);
    add_parts(rt, &mut file, &PARTS);
    add(rt, &mut file, &[sum]);
    file
}
