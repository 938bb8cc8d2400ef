// Faults of words, as those of a run.
ghost use Rattle.std.specs.Prelude.{◌≡◌};
ghost use Rattle.gdal_cli.specs.Faults.{word_fault_of};

use command_words::WordFault;
use error_lines::Fault;

/// A fault of words as that of the run.
pub fn word_fault_of(fault: WordFault) -> Fault
    ensures { result ≡ word_fault_of fault }
{
    match fault {
        WordFault::Usage { word } => Fault::Usage { word },
        WordFault::Memory => Fault::Memory,
    }
}
