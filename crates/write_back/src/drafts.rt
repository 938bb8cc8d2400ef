// New drafts, and drafts that are published or given up.
ghost use Rattle.std.specs.Prelude.{◌≡◌, ◌<◌, ◌≤◌, ◌+◌, ◌-◌, ◌++◌, ℕ, List, length, Some, IfOk, IfErr, replicate};
ghost use Rattle.outside.specs.Causes.{HasCause, Rose};
ghost use Rattle.outside.specs.Outside.{Files};
ghost use Rattle.write_back.specs.Pieces.{AreBytes};
ghost use Rattle.write_back.specs.Files.{header_state};
ghost use Rattle.write_back.specs.Drafts.{ArePut, IsHeaderPut, files_with, published_by};

use crate::{CloseFault, TargetFault};
use outside::{Folder, Name, WriteFault};

// A draft of zeros.
pub(crate) fn zeros_draft<F: Folder>(
    folder: &mut F,
    name: &Name,
    len: u64,
) -> Result<F::Draft, TargetFault>
    ensures zeros { IfOk result (λ draft. (m : Files) → F.names folder.old ≡ Some m →
        F.draft_bytes draft ≡ Some (replicate len 0)) }
    ensures len { IfOk result (λ draft. F.draft_len draft ≡ len) }
    ensures name { IfOk result (λ draft. F.draft_name draft ≡ name.now) }
    ensures names { F.names folder.new ≡ F.names folder.old }
    ensures reads { F.read_calls folder.new ≡ F.read_calls folder.old }
    ensures calls { F.write_calls folder.new ≡ F.write_calls folder.old }
    ensures cause { HasCause TargetFault.FolderFault (F.faults folder.old) (F.faults folder.new) result }
{
    match folder.create(name) {
        Ok(mut draft) => match folder.grow(&mut draft, len) {
            Ok(()) => Ok(draft),
            Err(WriteFault::Failed) => {
                folder.discard(draft);
                Err(TargetFault::FolderFault)
            }
            Err(WriteFault::Memory) => {
                folder.discard(draft);
                Err(TargetFault::Memory)
            }
        },
        Err(WriteFault::Failed) => Err(TargetFault::FolderFault),
        Err(WriteFault::Memory) => Err(TargetFault::Memory),
    }
}

// A draft of these bytes.
pub(crate) fn text_draft<F: Folder>(
    folder: &mut F,
    name: &Name,
    text: &[u8],
) -> Result<F::Draft, TargetFault>
    ensures text { IfOk result (λ draft. (m : Files) → F.names folder.old ≡ Some m →
        F.draft_bytes draft ≡ Some text.now) }
    ensures len { IfOk result (λ draft. F.draft_len draft ≡ length text.now) }
    ensures small { AreBytes text.now }
    ensures name { IfOk result (λ draft. F.draft_name draft ≡ name.now) }
    ensures names { F.names folder.new ≡ F.names folder.old }
    ensures reads { F.read_calls folder.new ≡ F.read_calls folder.old }
    ensures calls { F.write_calls folder.new ≡ F.write_calls folder.old }
    ensures cause { HasCause TargetFault.FolderFault (F.faults folder.old) (F.faults folder.new) result }
{
    match folder.create(name) {
        Ok(mut draft) => match folder.append(&mut draft, text) {
            Ok(()) => Ok(draft),
            Err(WriteFault::Failed) => {
                folder.discard(draft);
                Err(TargetFault::FolderFault)
            }
            Err(WriteFault::Memory) => {
                folder.discard(draft);
                Err(TargetFault::Memory)
            }
        },
        Err(WriteFault::Failed) => Err(TargetFault::FolderFault),
        Err(WriteFault::Memory) => Err(TargetFault::Memory),
    }
}

// A draft of these bytes, and zeros behind them.
pub(crate) fn front_draft<F: Folder>(
    folder: &mut F,
    name: &Name,
    front: &[u8],
    len: u64,
) -> Result<F::Draft, TargetFault>
    requires room { length front.now ≤ len }
    ensures front { IfOk result (λ draft. (m : Files) → F.names folder.old ≡ Some m →
        F.draft_bytes draft ≡ Some (front.now ++ replicate (len - length front.now) 0)) }
    ensures len { IfOk result (λ draft. F.draft_len draft ≡ len) }
    ensures small { AreBytes front.now }
    ensures name { IfOk result (λ draft. F.draft_name draft ≡ name.now) }
    ensures names { F.names folder.new ≡ F.names folder.old }
    ensures reads { F.read_calls folder.new ≡ F.read_calls folder.old }
    ensures calls { F.write_calls folder.new ≡ F.write_calls folder.old }
    ensures cause { HasCause TargetFault.FolderFault (F.faults folder.old) (F.faults folder.new) result }
{
    let mut draft = text_draft(folder, name, front)?;
    match folder.grow(&mut draft, len) {
        Ok(()) => Ok(draft),
        Err(WriteFault::Failed) => {
            folder.discard(draft);
            Err(TargetFault::FolderFault)
        }
        Err(WriteFault::Memory) => {
            folder.discard(draft);
            Err(TargetFault::Memory)
        }
    }
}

// Publishes a header behind the data, where there is one.
fn publish_header<F: Folder>(folder: &mut F, header: Option<F::Draft>) -> Result<(), CloseFault>
    ensures told { (m : Files) → F.names folder.old ≡ Some m →
        IsHeaderPut (header_state F.draft_bytes F.draft_name header) (published_by header result - 1) m
        (F.names folder.new) }
    ensures some { 1 ≤ published_by header result }
    ensures first { IfErr result (λ e. 1 ≤ e.published) }
    ensures most { IfErr result (λ e. e.published < files_with header) }
    ensures reads { F.read_calls folder.new ≡ F.read_calls folder.old }
    ensures calls { F.write_calls folder.new ≡ F.write_calls folder.old }
    ensures later { F.faults folder.old ≤ F.faults folder.new }
    ensures cause { IfErr result (λ e. e.cause ≡ TargetFault.FolderFault →
        Rose (F.faults folder.old) (F.faults folder.new)) }
{
    match header {
        None => Ok(()),
        Some(draft) => match folder.publish(draft) {
            Ok(()) => Ok(()),
            Err(WriteFault::Failed) => Err(CloseFault {
                published: 1,
                cause: TargetFault::FolderFault,
            }),
            Err(WriteFault::Memory) => Err(CloseFault {
                published: 1,
                cause: TargetFault::Memory,
            }),
        },
    }
}

// Gives a header's draft up, where there is one.
pub(crate) fn discard_header<F: Folder>(folder: &mut F, header: Option<F::Draft>)
    ensures names { F.names folder.new ≡ F.names folder.old }
    ensures reads { F.read_calls folder.new ≡ F.read_calls folder.old }
    ensures calls { F.write_calls folder.new ≡ F.write_calls folder.old }
    ensures faults { F.faults folder.new ≡ F.faults folder.old }
{
    match header {
        None => {}
        Some(draft) => folder.discard(draft),
    }
}

// Publishes the data, then the header where there is one.
#[tactic(auto, using(crate::proofs::Published::some_file))]
pub(crate) fn publish_all<F: Folder>(
    folder: &mut F,
    samples: F::Draft,
    header: Option<F::Draft>,
) -> Result<(), CloseFault>
    ensures told { (m : Files) (b : List ℕ) → F.names folder.old ≡ Some m → F.draft_bytes samples ≡ Some b →
        ArePut (header_state F.draft_bytes F.draft_name header) (F.draft_name samples) b (published_by header result) m
        (F.names folder.new) }
    ensures most { IfErr result (λ e. e.published < files_with header) }
    ensures untouched { IfErr result (λ e. e.published ≡ 0 → F.names folder.new ≡ F.names folder.old) }
    ensures reads { F.read_calls folder.new ≡ F.read_calls folder.old }
    ensures calls { F.write_calls folder.new ≡ F.write_calls folder.old }
    ensures later { F.faults folder.old ≤ F.faults folder.new }
    ensures cause { IfErr result (λ e. e.cause ≡ TargetFault.FolderFault →
        Rose (F.faults folder.old) (F.faults folder.new)) }
{
    match folder.publish(samples) {
        Ok(()) => publish_header(folder, header),
        Err(WriteFault::Failed) => {
            discard_header(folder, header);
            Err(CloseFault {
                published: 0,
                cause: TargetFault::FolderFault,
            })
        }
        Err(WriteFault::Memory) => {
            discard_header(folder, header);
            Err(CloseFault {
                published: 0,
                cause: TargetFault::Memory,
            })
        }
    }
}
