// ASCII grids, scanned whole in pieces.
ghost use Rattle.std.specs.Prelude.{◌≡◌, ◌⊎◌, ◌≤◌, ◌<◌, ◌+◌, ℕ, List, length, Option, Some, Ok, Err, ◌^◌, IfOk, IfErr};
ghost use Rattle.std.specs.Prelude.{OnOk};
ghost use Rattle.std.specs.Int.{div_ceil};
ghost use Rattle.lists_and_answers.specs.Answers.{Gives};
ghost use Rattle.outside.specs.Outside.{Files, IsLong};
ghost use Rattle.outside.specs.Causes.{HasCause};
ghost use Rattle.ascii_grid.specs.Grid.{IsHead, AreRising, grid_head};
ghost use Rattle.ascii_grid.specs.declared.faults.GridFault.TheVariants as grid_fault;
ghost use Rattle.catalog.specs.declared.grid.ScanFault.TheVariants as scan_fault;
ghost use Rattle.catalog.specs.declared.faults.Bad.{Bad};
ghost use Rattle.catalog.specs.Outcomes.{IsOutside};
ghost use Rattle.catalog.specs.Scanned.{HasFed, IsScanFault};
ghost use Rattle.catalog.specs.Drivers.{Fits};
ghost use Rattle.catalog.specs.OwnFiles.{content_kind, IsOfFile};
ghost use Rattle.catalog.specs.Heads.{grid_in, ascii_in};
ghost use Rattle.catalog.specs.Readings.{piece_len};

use crate::driver::{Content, Found};
use crate::files::open_file;
use crate::{Bad, DriverHead, Kind, WalkFault};
use ascii_grid::{GridFault, GridHead, Scanner};
use outside::{Failed, Folder, Name};
use std::alloc::{AllocError, Global};

/// The most bytes of a grid, a row or a line that are read or written at a time.
pub const PIECE_LEN: usize = 65_536;

// Why a scan ends early: a call of the folder failed, or the scanner refused the bytes.
pub enum ScanFault {
    Failed,
    Refused(GridFault),
}

impl From<AllocError> for ScanFault {
    ghost from_gives = { λ _ e. e ≡ scan_fault.Refused grid_fault.Memory };

    fn from(_: AllocError) -> Self {
        ScanFault::Refused(GridFault::Memory)
    }
}

// Reads a piece of a file from a place on, and feeds it to the scanner.
fn scan_piece<F: Folder>(
    folder: &mut F,
    file: &mut F::File,
    at: u64,
    piece: &mut [u8],
    scanner: &mut Scanner,
) -> Result<(), ScanFault>
    requires within { at + length piece.old ≤ F.file_len file.old }
    ensures fed { OnOk result (HasFed scanner.old (F.file_bytes file.old) at →
        HasFed scanner.new (F.file_bytes file.old) (at + length piece.old)) }
    ensures err { IfErr result (λ f. (b : List ℕ) → F.file_bytes file.old ≡ Some b →
        HasFed scanner.old (F.file_bytes file.old) at → IsScanFault b f) }
    ensures bytes { F.file_bytes file.new ≡ F.file_bytes file.old }
    ensures len { F.file_len file.new ≡ F.file_len file.old }
    ensures names { F.names folder.new ≡ F.names folder.old }
    ensures reads { F.read_calls folder.new ≤ F.read_calls folder.old + 1 }
    ensures write_calls { F.write_calls folder.new ≡ F.write_calls folder.old }
    ensures cause { HasCause ScanFault.Failed (F.faults folder.old) (F.faults folder.new) result }
{
    match folder.read_at(file, at, piece) {
        Ok(()) => (),
        Err(Failed) => return Err(ScanFault::Failed),
    }
    match scanner.feed(piece) {
        Ok(()) => Ok(()),
        Err(fault) => Err(ScanFault::Refused(fault)),
    }
}

// Feeds a whole file to the scanner, as many bytes at once as the buffer has.
fn scan_pieces<F: Folder>(
    folder: &mut F,
    file: &mut F::File,
    len: u64,
    buffer: &mut [u8],
    scanner: &mut Scanner,
) -> Result<(), ScanFault>
    requires len { len ≡ F.file_len file.old }
    requires some { 0 < length buffer.old }
    requires fresh { HasFed scanner.old (F.file_bytes file.old) 0 }
    ensures fed { OnOk result (HasFed scanner.new (F.file_bytes file.old) len) }
    ensures err { IfErr result (λ f. (b : List ℕ) → F.file_bytes file.old ≡ Some b → IsScanFault b f) }
    ensures names { F.names folder.new ≡ F.names folder.old }
    ensures reads { F.read_calls folder.new ≤ F.read_calls folder.old + div_ceil len (length buffer.old) }
    ensures write_calls { F.write_calls folder.new ≡ F.write_calls folder.old }
    ensures cause { HasCause ScanFault.Failed (F.faults folder.old) (F.faults folder.new) result }
{
    let mut at = 0u64;
    while at < len {
        let n = (len - at).min(buffer.len() as u64);
        match scan_piece(folder, file, at, &mut buffer[..n as usize], scanner) {
            Ok(()) => (),
            Err(fault) => return Err(fault),
        }
        at += n;
    }
    Ok(())
}

// What the scanner says of the bytes that it was fed.
fn finish(scanner: Scanner) -> Result<GridHead, ScanFault>
    ensures told { IfOk result (λ h. (bytes : Option (List ℕ)) (len : ℕ) (b : List ℕ) → HasFed scanner bytes len →
        bytes ≡ Some b → len ≡ length b → grid_head b ≡ Ok h) }
    ensures err { IfErr result (λ f. (bytes : Option (List ℕ)) (len : ℕ) (b : List ℕ) → HasFed scanner bytes len →
        bytes ≡ Some b → len ≡ length b → IsScanFault b f) }
    ensures kept { IfOk result IsHead }
    ensures rows { IfOk result (λ h. (bytes : Option (List ℕ)) (len : ℕ) → HasFed scanner bytes len → len < 2 ^ 64 →
        AreRising 0 len h.rows) }
    ensures inside { result ≡ Err ScanFault.Failed → ⊥ }
{
    match scanner.finish() {
        Ok(head) => Ok(head),
        Err(fault) => Err(ScanFault::Refused(fault)),
    }
}

// Scans all bytes of an open file.
fn scan_file<F: Folder>(
    folder: &mut F,
    file: &mut F::File,
    buffer: &mut [u8],
    mut scanner: Scanner,
) -> Result<GridHead, ScanFault>
    requires len { IsLong (F.file_bytes file.old) (F.file_len file.old) }
    requires some { 0 < length buffer.old }
    requires fresh { HasFed scanner (F.file_bytes file.old) 0 }
    ensures told { IfOk result (λ h. (b : List ℕ) → F.file_bytes file.old ≡ Some b → grid_head b ≡ Ok h) }
    ensures err { IfErr result (λ f. (b : List ℕ) → F.file_bytes file.old ≡ Some b → IsScanFault b f) }
    ensures kept { IfOk result IsHead }
    ensures rows { IfOk result (λ h. AreRising 0 (F.file_len file.old) h.rows) }
    ensures names { F.names folder.new ≡ F.names folder.old }
    ensures reads { F.read_calls folder.new ≤ F.read_calls folder.old + div_ceil (F.file_len file.old)
        (length buffer.old) }
    ensures write_calls { F.write_calls folder.new ≡ F.write_calls folder.old }
    ensures cause { HasCause ScanFault.Failed (F.faults folder.old) (F.faults folder.new) result }
{
    let len = folder.len(file);
    match scan_pieces(folder, file, len, buffer, &mut scanner) {
        Ok(()) => finish(scanner),
        Err(fault) => Err(fault),
    }
}

// The head of a grid, by all of its bytes.
#[tactic(auto, using(crate::proofs::Scans::fed_nothing))]
fn scan<F: Folder>(alloc: Global, folder: &mut F, mut file: F::File) -> Result<GridHead, ScanFault>
    requires len { IsLong (F.file_bytes file) (F.file_len file) }
    ensures told { IfOk result (λ h. (b : List ℕ) → F.file_bytes file ≡ Some b → grid_head b ≡ Ok h) }
    ensures err { IfErr result (λ f. (b : List ℕ) → F.file_bytes file ≡ Some b → IsScanFault b f) }
    ensures kept { IfOk result IsHead }
    ensures rows { IfOk result (λ h. AreRising 0 (F.file_len file) h.rows) }
    ensures names { F.names folder.new ≡ F.names folder.old }
    ensures reads { F.read_calls folder.new ≤ F.read_calls folder.old + div_ceil (F.file_len file) piece_len }
    ensures write_calls { F.write_calls folder.new ≡ F.write_calls folder.old }
    ensures cause { HasCause ScanFault.Failed (F.faults folder.old) (F.faults folder.new) result }
{
    let mut buffer = vec![in alloc; 0u8; PIECE_LEN]?;
    let scanner = Scanner::new(alloc);
    scan_file(folder, &mut file, &mut buffer, scanner)
}

// A grid that is refused.
fn refused(name: &Name, fault: ScanFault) -> WalkFault
    ensures told { (b : List ℕ) → IsScanFault b fault → IsOutside result ⊎ (grid_in b name.now ≡ Err result) }
    ensures cause { result ≡ WalkFault.FolderFault → fault ≡ ScanFault.Failed }
    ensures of_file { IsOfFile result }
{
    match fault {
        ScanFault::Failed => WalkFault::FolderFault,
        ScanFault::Refused(GridFault::Memory) => WalkFault::Memory,
        ScanFault::Refused(fault) => match name.try_clone() {
            Ok(name) => WalkFault::Malformed {
                name,
                bad: Bad::Grid(fault),
            },
            Err(_) => WalkFault::Memory,
        },
    }
}

// Finds the grid of a name: opens it and scans it whole.
#[tactic(auto, using(crate::proofs::Headers::outside_fails), unfolding(crate::specs::Heads::ascii_in))]
pub fn find_grid<F: Folder>(alloc: Global, folder: &mut F, name: &Name) -> Result<Found, WalkFault>
    ensures told { (m : Files) → F.names folder.old ≡ Some m → Gives IsOutside (λ found. found) result
        (ascii_in m name.now) }
    ensures kind { IfOk result (λ found. content_kind found.content ≡ Kind.Ascii) }
    ensures fits { IfOk result (λ found. Fits name.now found.content found.length) }
    ensures names { F.names folder.new ≡ F.names folder.old }
    ensures reads { IfOk result (λ found. F.read_calls folder.new ≤ F.read_calls folder.old + div_ceil found.length
        piece_len) }
    ensures write_calls { F.write_calls folder.new ≡ F.write_calls folder.old }
    ensures cause { HasCause WalkFault.FolderFault (F.faults folder.old) (F.faults folder.new) result }
    ensures of_file { IfErr result IsOfFile }
{
    let file = open_file(folder, name)?;
    let length = folder.len(&file);
    match scan(alloc, folder, file) {
        Ok(head) => Ok(Found {
            content: Content::File(DriverHead::Ascii(head)),
            length,
        }),
        Err(fault) => Err(refused(name, fault)),
    }
}
