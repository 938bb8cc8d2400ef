// The names of the inputs of a mosaic.
ghost use Rattle.std.specs.Prelude.{◌≡◌, ◌⊎◌, ◌≤◌, ◌<◌, ℕ, List, [], ◌∷◌, length, Some, Err, IfOk, IfErr, OnOk};
ghost use Rattle.std.specs.FinMap.{get};
ghost use Rattle.std.specs.Str.Lines.{lines};
ghost use Rattle.lists_and_answers.specs.Answers.{Gives};
ghost use Rattle.outside.specs.Outside.{Files, IsLong, Opened};
ghost use Rattle.outside.specs.Causes.{HasCause};
ghost use Rattle.error_lines.specs.Faults.{IsOutside};
ghost use Rattle.mosaic_builds.specs.Ends.{IsOfMaking};
ghost use Rattle.mosaic_builds.specs.Faults.{IsOfNames};
ghost use Rattle.mosaic_builds.specs.Inputs.{lines_in, filled, longest_list, name_of_line, with_lines, named_behind};
ghost use Rattle.mosaic_builds.specs.Inputs.{names_in};
ghost use Rattle.catalog.specs.Dataset.{most_datasets};

use crate::empty_lines::drop_empty_lines;
use catalog::{Bad, LimitKind};
use error_lines::Fault;
use outside::{Failed, Folder, Name, NameFault, Names, OpenFault};
use std::alloc::{AllocError, Global};
use std::str;

/// The greatest length of a list of inputs, in bytes.
const LONGEST_LIST: u64 = 67_108_864;

/// The most inputs: as many as a catalog has datasets at most.
const MOST_INPUTS: usize = catalog::MOST_DATASETS as usize;

/// The number of the first input that is one too many.
const TOO_MANY: u64 = MOST_INPUTS as u64 + 1;

// Opens the list of a name.
#[tactic(auto, using(crate::proofs::Listed::absent_list), unfolding(crate::specs::Inputs::lines_in))]
fn open_list<F: Folder>(folder: &mut F, name: &Name) -> Result<F::File, Fault>
    ensures ok { IfOk result (λ file. Opened (F.names folder.old) name.now (F.file_bytes file)) }
    ensures len { IfOk result (λ file. IsLong (F.file_bytes file) (F.file_len file)) }
    ensures err { IfErr result (λ f. (m : Files) → F.names folder.old ≡ Some m →
        IsOutside f ⊎ (lines_in m name.now ≡ Err f)) }
    ensures names { F.names folder.new ≡ F.names folder.old }
    ensures cause { HasCause Fault.FolderFault (F.faults folder.old) (F.faults folder.new) result }
    ensures faults { (out : List ℕ) → IfErr result (IsOfMaking out) }
{
    match folder.open(name) {
        Ok(file) => Ok(file),
        Err(OpenFault::Absent) => Err(Fault::Absent {
            name: name.try_clone()?,
        }),
        Err(OpenFault::Failed) => Err(Fault::FolderFault),
        Err(OpenFault::Memory) => Err(Fault::Memory),
    }
}

// Reads all bytes of an open file, of which there are `len`.
fn read_whole<F: Folder>(
    alloc: Global,
    folder: &mut F,
    mut file: F::File,
    len: usize,
) -> Result<Vec<u8>, Fault>
    requires len { len ≡ F.file_len file }
    requires told { IsLong (F.file_bytes file) len }
    ensures ok { IfOk result (λ v. (b : List ℕ) → F.file_bytes file ≡ Some b → v.items ≡ b) }
    ensures outside { IfErr result IsOutside }
    ensures names { F.names folder.new ≡ F.names folder.old }
    ensures cause { HasCause Fault.FolderFault (F.faults folder.old) (F.faults folder.new) result }
    ensures faults { (out : List ℕ) → IfErr result (IsOfMaking out) }
{
    let mut bytes = vec![in alloc; 0u8; len]?;
    match folder.read_at(&mut file, 0, &mut bytes) {
        Ok(()) => Ok(bytes),
        Err(Failed) => Err(Fault::FolderFault),
    }
}

// Reads the list of a name, which isn't longer than it may be.
fn read_list<F: Folder>(alloc: Global, folder: &mut F, name: &Name) -> Result<Vec<u8>, Fault>
    ensures ok { IfOk result (λ v. (m : Files) → F.names folder.old ≡ Some m → get m name.now ≡ Some v.items) }
    ensures few { IfOk result (λ v. (m : Files) → F.names folder.old ≡ Some m → length v.items ≤ longest_list) }
    ensures err { IfErr result (λ f. (m : Files) → F.names folder.old ≡ Some m →
        IsOutside f ⊎ (lines_in m name.now ≡ Err f)) }
    ensures names { F.names folder.new ≡ F.names folder.old }
    ensures cause { HasCause Fault.FolderFault (F.faults folder.old) (F.faults folder.new) result }
    ensures faults { (out : List ℕ) → IfErr result (IsOfMaking out) }
{
    let file = match open_list(folder, name) {
        Ok(file) => file,
        Err(fault) => return Err(fault),
    };
    let length = folder.len(&file);
    if length > LONGEST_LIST {
        return Err(Fault::Limit {
            what: LimitKind::List,
            value: length,
        });
    }
    read_whole(alloc, folder, file, length as usize)
}

// A line as a name.
fn line_name(alloc: Global, line: &str) -> Result<Name, Fault>
    requires some { 0 < length line.now }
    ensures name { Gives (λ f. f ≡ Fault.Memory) (λ name. name) result (name_of_line line.now) }
    ensures faults { IfErr result IsOfNames }
{
    match Name::read(alloc, line) {
        Ok(name) => Ok(name),
        Err(NameFault::TooLong) => Err(Fault::Limit {
            what: LimitKind::Name,
            value: line.len() as u64,
        }),
        Err(NameFault::Empty) => unreachable!(),
        Err(NameFault::Memory) => Err(Fault::Memory),
    }
}

// Adds the name of a line that isn't empty.
fn add_name(alloc: Global, line: &str, names: &mut Names) -> Result<(), Fault>
    requires some { 0 < length line.now }
    requires few { length names.old ≤ most_datasets }
    ensures ok { OnOk result ((more : List (List ℕ)) → with_lines names.old (line.now ∷ more)
        ≡ with_lines names.new more) }
    ensures err { IfErr result (λ f. (f ≡ Fault.Memory) ⊎ ((more : List (List ℕ)) →
        with_lines names.old (line.now ∷ more) ≡ Err f)) }
    ensures few { OnOk result (length names.new ≤ most_datasets) }
    ensures faults { IfErr result IsOfNames }
{
    let name = match line_name(alloc, line) {
        Ok(name) => name,
        Err(fault) => return Err(fault),
    };
    if names.len() >= MOST_INPUTS {
        return Err(Fault::Limit {
            what: LimitKind::Files,
            value: TOO_MANY,
        });
    }
    match names.push(name) {
        Ok(()) => Ok(()),
        Err(AllocError) => Err(Fault::Memory),
    }
}

// Adds the name of a line, where it isn't empty.
fn add_line(alloc: Global, line: &str, names: &mut Names) -> Result<(), Fault>
    requires few { length names.old ≤ most_datasets }
    ensures ok { OnOk result ((more : List (List ℕ)) → with_lines names.old (filled (line.now ∷ more))
        ≡ with_lines names.new (filled more)) }
    ensures err { IfErr result (λ f. (f ≡ Fault.Memory) ⊎ ((more : List (List ℕ)) →
        with_lines names.old (filled (line.now ∷ more)) ≡ Err f)) }
    ensures few { OnOk result (length names.new ≤ most_datasets) }
    ensures faults { IfErr result IsOfNames }
{
    if line.is_empty() {
        Ok(())
    } else {
        add_name(alloc, line, names)
    }
}

// Adds the names of the lines of a text.
fn add_lines(alloc: Global, text: &str, names: &mut Names) -> Result<(), Fault>
    requires few { length names.old ≤ most_datasets }
    ensures told { Gives (λ f. f ≡ Fault.Memory) (λ done. names.new) result
        (with_lines names.old (filled (lines text.now))) }
    ensures few { OnOk result (length names.new ≤ most_datasets) }
    ensures faults { IfErr result IsOfNames }
{
    for line in text.lines() {
        match add_line(alloc, line, names) {
            Ok(()) => (),
            Err(fault) => return Err(fault),
        }
    }
    Ok(())
}

// The names of the lines of a text behind those that are given.
fn with_text(alloc: Global, mut names: Names, text: &str) -> Result<Names, Fault>
    ensures told { Gives (λ f. f ≡ Fault.Memory) (λ all. all) result (named_behind names (filled (lines text.now))) }
    ensures few { IfOk result (λ all. length all ≤ most_datasets) }
    ensures faults { IfErr result IsOfNames }
{
    if names.len() > MOST_INPUTS {
        return Err(Fault::Limit {
            what: LimitKind::Files,
            value: TOO_MANY,
        });
    }
    match add_lines(alloc, text, &mut names) {
        Ok(()) => Ok(names),
        Err(fault) => Err(fault),
    }
}

// The names of the lines of the list of a name behind those that are given.
fn with_list<F: Folder>(
    alloc: Global,
    folder: &mut F,
    names: Names,
    list: &Name,
) -> Result<Names, Fault>
    ensures told { (m : Files) → F.names folder.old ≡ Some m → Gives IsOutside (λ all. all) result
        (names_in m names (Some list.now)) }
    ensures few { IfOk result (λ all. length all ≤ most_datasets) }
    ensures names { F.names folder.new ≡ F.names folder.old }
    ensures cause { HasCause Fault.FolderFault (F.faults folder.old) (F.faults folder.new) result }
    ensures faults { (out : List ℕ) → IfErr result (IsOfMaking out) }
{
    let mut bytes = match read_list(alloc, folder, list) {
        Ok(bytes) => bytes,
        Err(fault) => return Err(fault),
    };
    drop_empty_lines(&mut bytes);
    match str::from_utf8(&bytes) {
        Ok(text) => with_text(alloc, names, text),
        Err(_) => Err(Fault::Malformed {
            name: list.try_clone()?,
            bad: Bad::List,
        }),
    }
}

/// The names of the inputs of a mosaic: those that are given, and behind them those of the lines of the list, where
/// there is one. A line ends with a line feed, or with a carriage return and a line feed; an empty line is passed over.
///
/// The refusals come in this order: Absent where there is no list of the name; Limit with the kind List and its length
/// where it has more than 67,108,864 bytes, before it is read; Malformed where it isn't UTF-8; and of the first name
/// that fails Limit with the kind Name and its length where it has more than 4,096 bytes, and then Limit with the kind
/// Files and the value 65537 where it is one too many. FolderFault comes only where the count rose, Memory freely.
pub fn list_names<F: Folder>(
    alloc: Global,
    folder: &mut F,
    inputs: Names,
    list: &Option<Name>,
) -> Result<Names, Fault>
    ensures told { (m : Files) → F.names folder.old ≡ Some m → Gives IsOutside (λ all. all) result
        (names_in m inputs list.now) }
    ensures few { IfOk result (λ all. length all ≤ most_datasets) }
    ensures names { F.names folder.new ≡ F.names folder.old }
    ensures cause { HasCause Fault.FolderFault (F.faults folder.old) (F.faults folder.new) result }
    ensures faults { (out : List ℕ) → IfErr result (IsOfMaking out) }
{
    match list {
        None => with_text(alloc, inputs, ""),
        Some(name) => with_list(alloc, folder, inputs, name),
    }
}
