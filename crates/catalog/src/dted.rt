// DTED cells, by their heads and lengths, and their records where their sums are asked for.
ghost use Rattle.std.specs.Prelude.{◌≡◌, ◌≤◌, ◌+◌, ℕ, List, length, Some, IfOk, IfErr};
ghost use Rattle.std.specs.List.{range_with_len};
ghost use Rattle.lists_and_answers.specs.Answers.{Gives};
ghost use Rattle.outside.specs.Outside.{Files, IsLong};
ghost use Rattle.outside.specs.Causes.{HasCause, FailsWith};
ghost use Rattle.dted_records.specs.Places.{needed_of, record_len};
ghost use Rattle.catalog.specs.Outcomes.{IsOutside};
ghost use Rattle.catalog.specs.Drivers.{Fits};
ghost use Rattle.catalog.specs.OwnFiles.{content_kind, IsOfFile};
ghost use Rattle.catalog.specs.Readings.{calls_to_find};
ghost use Rattle.catalog.specs.Heads.{broken_in, cell_in, dted_in, records_whole};

use crate::driver::{Content, Found};
use crate::files::{open_file, read_front};
use crate::{Bad, DriverHead, Kind, WalkFault};
use dted_records::{DtedFault, DtedHead, check_record, read_head};
use outside::{Failed, Folder, Name};
use std::alloc::Global;

/// The bytes within which a head ends: eight leading records, and the three labels.
const LONGEST_HEAD: usize = 4068;

// The westernmost line whose record has a wrong mark or sum. Each record is read into `buffer`.
fn broken_line<F: Folder>(
    folder: &mut F,
    file: &mut F::File,
    head: &DtedHead,
    buffer: &mut [u8],
) -> Result<Option<u32>, Failed>
    requires long { needed_of head.now ≤ F.file_len file.old }
    requires buffer { length buffer.old ≡ record_len head.now }
    ensures told { IfOk result (λ line. (b : List ℕ) → F.file_bytes file.old ≡ Some b →
        broken_in head.now b (range_with_len 0 head.now.lines) ≡ line) }
    ensures names { F.names folder.new ≡ F.names folder.old }
    ensures reads { F.read_calls folder.new ≤ F.read_calls folder.old + head.now.lines }
    ensures write_calls { F.write_calls folder.new ≡ F.write_calls folder.old }
    ensures cause { FailsWith (F.faults folder.old) (F.faults folder.new) result }
{
    for line in 0..head.lines {
        folder.read_at(file, head.record_at(line), buffer)?;
        if !check_record(head, buffer) {
            return Ok(Some(line));
        }
    }
    Ok(None)
}

// Checks the mark and the sum of each record, from west to east, with memory for one record.
#[tactic(auto, using(crate::proofs::Headers::outside_fails))]
fn check_records<F: Folder>(
    alloc: Global,
    folder: &mut F,
    file: &mut F::File,
    head: &DtedHead,
    name: &Name,
) -> Result<(), WalkFault>
    requires long { needed_of head.now ≤ F.file_len file.old }
    ensures told { (b : List ℕ) → F.file_bytes file.old ≡ Some b → Gives IsOutside (λ u. u) result
        (records_whole head.now b name.now) }
    ensures names { F.names folder.new ≡ F.names folder.old }
    ensures reads { F.read_calls folder.new ≤ F.read_calls folder.old + head.now.lines }
    ensures write_calls { F.write_calls folder.new ≡ F.write_calls folder.old }
    ensures cause { HasCause WalkFault.FolderFault (F.faults folder.old) (F.faults folder.new) result }
    ensures of_file { IfErr result IsOfFile }
{
    let mut record = vec![in alloc; 0u8; head.record_len()]?;
    match broken_line(folder, file, head, &mut record) {
        Ok(None) => Ok(()),
        Ok(Some(line)) => Err(WalkFault::Malformed {
            name: name.try_clone()?,
            bad: Bad::Dted(DtedFault::BadRecord(line)),
        }),
        Err(Failed) => Err(WalkFault::FolderFault),
    }
}

// Reads the head of a cell and compares the file's length with what the head asks.
#[tactic(auto, using(crate::proofs::Headers::outside_fails))]
fn read_cell<F: Folder>(
    alloc: Global,
    folder: &mut F,
    file: &mut F::File,
    name: &Name,
) -> Result<DtedHead, WalkFault>
    requires len { IsLong (F.file_bytes file.old) (F.file_len file.old) }
    ensures told { (b : List ℕ) → F.file_bytes file.old ≡ Some b → Gives IsOutside (λ h. h) result
        (cell_in b name.now) }
    ensures long { IfOk result (λ h. needed_of h ≤ F.file_len file.old) }
    ensures bytes { F.file_bytes file.new ≡ F.file_bytes file.old }
    ensures len { F.file_len file.new ≡ F.file_len file.old }
    ensures names { F.names folder.new ≡ F.names folder.old }
    ensures reads { F.read_calls folder.new ≤ F.read_calls folder.old + 1 }
    ensures write_calls { F.write_calls folder.new ≡ F.write_calls folder.old }
    ensures cause { HasCause WalkFault.FolderFault (F.faults folder.old) (F.faults folder.new) result }
    ensures of_file { IfErr result IsOfFile }
{
    let front = read_front(alloc, folder, file, LONGEST_HEAD)?;
    let head = match read_head(&front) {
        Ok(head) => head,
        Err(fault) => {
            return Err(WalkFault::Malformed {
                name: name.try_clone()?,
                bad: Bad::Dted(fault),
            });
        }
    };
    let needed = head.needed_len();
    let has = folder.len(file);
    if has < needed {
        return Err(WalkFault::Short {
            name: name.try_clone()?,
            needed,
            has,
        });
    }
    Ok(head)
}

// Finds the cell of a name: opens it, reads its head, compares its length, and checks its records
// where `verify` asks for it.
#[tactic(auto, using(crate::proofs::Headers::outside_fails), unfolding(crate::specs::Heads::dted_in))]
pub fn find_cell<F: Folder>(
    alloc: Global,
    folder: &mut F,
    name: &Name,
    verify: bool,
) -> Result<Found, WalkFault>
    ensures told { (m : Files) → F.names folder.old ≡ Some m → Gives IsOutside (λ found. found) result
        (dted_in m verify name.now) }
    ensures kind { IfOk result (λ found. content_kind found.content ≡ Kind.Dted) }
    ensures fits { IfOk result (λ found. Fits name.now found.content found.length) }
    ensures names { F.names folder.new ≡ F.names folder.old }
    ensures reads { IfOk result (λ found. F.read_calls folder.new ≤ F.read_calls folder.old + calls_to_find verify
        found.content found.length) }
    ensures write_calls { F.write_calls folder.new ≡ F.write_calls folder.old }
    ensures cause { HasCause WalkFault.FolderFault (F.faults folder.old) (F.faults folder.new) result }
    ensures of_file { IfErr result IsOfFile }
{
    let mut file = open_file(folder, name)?;
    let length = folder.len(&file);
    let head = read_cell(alloc, folder, &mut file, name)?;
    if verify {
        check_records(alloc, folder, &mut file, &head, name)?;
    }
    Ok(Found {
        content: Content::File(DriverHead::Dted(head)),
        length,
    })
}
