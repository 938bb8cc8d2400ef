// What is told while the lines of an output are written.
ghost use Rattle.std.specs.Prelude.{◌≡◌, ◌<◌, ◌≤◌, ℕ, List, Option, IfErr, IfOk, OnErr, OnOk, take, true};
ghost use Rattle.outside.specs.Outside.{Files};
ghost use Rattle.outside.specs.Streams.{Gets, GetsPart};
ghost use Rattle.error_lines.specs.Progress.{progress, progress_len};
ghost use Rattle.output_copies.specs.Copying.{spoken, MayEnd};
ghost use Rattle.output_copies.specs.Filled.{Tells};

use crate::texts::put_text;
use error_lines::{Fault, progress_text};
use outside::Sink;

// How many bytes are told of the lines.
const PROGRESS_LEN: usize = 49;

/// How many lines of an output are written, of so many.
#[derive(Clone, Copy)]
pub struct Share {
    pub done: u32,
    pub height: u32,
}

// The bytes of the text that are told by now: the first piece, and one more for each tenth of the lines.
fn reached(share: Share) -> usize
    requires some { 0 < share.height }
    requires within { share.done ≤ share.height }
    ensures within { result ≤ progress_len }
    ensures whole { share.done ≡ share.height → result ≡ progress_len }
{
    let tenths = 10 * u64::from(share.done) / u64::from(share.height);
    (4 + 5 * tenths as usize).min(PROGRESS_LEN)
}

/// Tells how far the lines are written, where so many bytes of that text were told before, and gives how many are now.
pub fn tell<O: Sink>(out: &mut O, quiet: bool, told: usize, share: Share) -> Result<usize, Fault>
    requires told { told ≤ progress_len }
    requires some { 0 < share.height }
    requires within { share.done ≤ share.height }
    ensures told { (before : Option (List ℕ)) → Gets (spoken quiet (take told progress)) before (O.got out.old) →
        Tells quiet result before (O.got out.new) }
    ensures within { IfOk result (λ next. next ≤ progress_len) }
    ensures whole { share.done ≡ share.height → IfOk result (λ next. next ≡ progress_len) }
    ensures quiet { quiet ≡ true → out.new ≡ out.old }
    ensures faults { IfErr result (λ f. f ≡ Fault.OutFault) }
    ensures ends { (names : Option Files) (faults : ℕ) → MayEnd names faults faults (O.faults out.old)
        (O.faults out.new) result }
{
    let next = reached(share).max(told);
    let text = progress_text();
    let part = &text[told..next];
    put_text(out, quiet, &[part])?;
    Ok(next)
}

/// Tells all that is told while an output is written, but for a quiet translation.
pub fn put_progress<O: Sink>(out: &mut O, quiet: bool) -> Result<(), Fault>
    ensures ok { OnOk result (Gets (spoken quiet progress) (O.got out.old) (O.got out.new)) }
    ensures err { OnErr result (GetsPart (spoken quiet progress) (O.got out.old) (O.got out.new)) }
    ensures quiet { quiet ≡ true → out.new ≡ out.old }
    ensures faults { IfErr result (λ f. f ≡ Fault.OutFault) }
    ensures ends { (names : Option Files) (faults : ℕ) → MayEnd names faults faults (O.faults out.old)
        (O.faults out.new) result }
{
    put_text(out, quiet, &[progress_text()])
}
