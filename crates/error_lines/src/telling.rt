// How a run ends: its status, and the line of its fault.
ghost use Rattle.std.specs.Prelude.{◌≡◌, ◌≤◌, true, false};
ghost use Rattle.outside.specs.Causes.{Rose};
ghost use Rattle.outside.specs.Streams.{Gets, GetsPart};
ghost use Rattle.error_lines.specs.Faults.{status_of};
ghost use Rattle.error_lines.specs.Texts.{error_line_of};

use crate::texts::put_fault;
use crate::{Fault, Outcome};
use outside::Sink;

fn status(fault: &Option<Fault>) -> u8
    ensures { result ≡ status_of fault.now }
{
    match fault {
        None => 0,
        Some(
            Fault::Usage { .. }
            | Fault::Absent { .. }
            | Fault::NotRecognized { .. }
            | Fault::Malformed { .. }
            | Fault::Short { .. }
            | Fault::Cycle { .. }
            | Fault::TooDeep { .. }
            | Fault::Limit { .. }
            | Fault::SourceBand { .. }
            | Fault::Plan(_)
            | Fault::Build(_)
            | Fault::SameName { .. }
            | Fault::BadPoint { .. },
        ) => 1,
        Some(Fault::Changed { .. } | Fault::FolderFault | Fault::InputFault | Fault::OutFault) => 2,
        Some(Fault::Memory) => 3,
    }
}

// The line of the fault, where there is one. A failing stream changes nothing else.
fn say<E: Sink>(err: &mut E, fault: &Option<Fault>)
    ensures whole { (Rose (E.faults err.old) (E.faults err.new) → ⊥) →
        Gets (error_line_of fault.now) (E.got err.old) (E.got err.new) }
    ensures part { GetsPart (error_line_of fault.now) (E.got err.old) (E.got err.new) }
    ensures later { E.faults err.old ≤ E.faults err.new }
{
    if let Some(fault) = fault {
        let _ = put_fault(err, fault);
    }
}

/// Tells how a run ended: puts the line of its fault, where there is one, on an `err` that hasn't failed yet. A failing
/// `err` changes nothing else.
pub fn tell<E: Sink>(err: &mut E, failed: bool, fault: Option<Fault>) -> Outcome
    ensures fault { result.fault ≡ fault }
    ensures status { result.status ≡ status_of fault }
    ensures whole { failed ≡ false → (Rose (E.faults err.old) (E.faults err.new) → ⊥) →
        Gets (error_line_of fault) (E.got err.old) (E.got err.new) }
    ensures part { failed ≡ false → GetsPart (error_line_of fault) (E.got err.old) (E.got err.new) }
    ensures untouched { failed ≡ true → err.new ≡ err.old }
    ensures later { E.faults err.old ≤ E.faults err.new }
{
    if !failed {
        say(err, &fault);
    }
    let status = status(&fault);
    Outcome { status, fault }
}
