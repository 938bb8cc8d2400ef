// Warnings: lines of the error stream that end nothing.
ghost use Rattle.std.specs.Prelude.{◌≡◌, ◌≤◌, ℕ, true, false, List, [], ◌∷◌, ◌++◌, Option};
ghost use Rattle.outside.specs.Causes.{Rose};
ghost use Rattle.outside.specs.Streams.{Gets, GetsPart};
ghost use Rattle.error_lines.specs.Steps.{Step, Warns, AreWarned};
ghost use Rattle.error_lines.specs.Texts.{warning_line};

use crate::texts::{put_skipped, reason_word};
use buildvrt::Reason;
use outside::{Name, Sink};

/// Puts the warning of an input that is skipped, on an `err` that hasn't failed yet. Where the call fails, `failed` is
/// set, and nothing else changes: no later line is put.
pub fn put_warning<E: Sink>(err: &mut E, failed: &mut bool, name: &Name, reason: Reason)
    ensures whole { failed.new ≡ false → Gets (warning_line name.now reason) (E.got err.old) (E.got err.new) }
    ensures part { failed.old ≡ false → GetsPart (warning_line name.now reason) (E.got err.old) (E.got err.new) }
    ensures untouched { failed.old ≡ true → err.new ≡ err.old }
    ensures stays { failed.old ≡ true → failed.new ≡ true }
    ensures rose { failed.old ≡ false → failed.new ≡ true → Rose (E.faults err.old) (E.faults err.new) }
    ensures later { E.faults err.old ≤ E.faults err.new }
    // Behind other warnings it is one more.
    ensures warned { (steps : List Step) (first : ℕ) (start : Option (List ℕ)) →
        AreWarned steps failed.old first (E.faults err.old) start (E.got err.old) →
        AreWarned (steps ++ Warns (warning_line name.now reason) ∷ []) failed.new first (E.faults err.new) start
        (E.got err.new) }
{
    if !*failed {
        *failed = put_skipped(err, b"Warning 1: ", name, reason_word(reason)).is_err();
    }
}
