// The names of files. Each call may be refused memory.
ghost use Rattle.std.specs.Prelude.{◌≡◌, ◌++◌, OnOk, OnErr};
ghost use Rattle.lists_and_answers.specs.Growth.{KeepsFront};
ghost use Rattle.location_report.specs.Location.{files_text};

use lists_and_answers::push_all;
use outside::Name;
use std::alloc::AllocError;

/// Appends the names, one on a line.
#[tactic(auto, using(crate::proofs::Appended::one_more, crate::proofs::Appended::keeps_then), unfolding(crate::specs::Location::files_text))]
pub fn push_files(names: &[Name], out: &mut Vec<u8>) -> Result<(), AllocError>
    ensures ok { OnOk result (out.new.items ≡ out.old.items ++ files_text names.now) }
    ensures err { OnErr result (KeepsFront out.old.items out.new.items) }
{
    for name in names {
        push_all(&[name.as_str().as_bytes(), b"\n"], out)?;
    }
    Ok(())
}
