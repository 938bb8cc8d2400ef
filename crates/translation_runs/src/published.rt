// The names that a translation publishes, none of which it reads.
ghost use Rattle.std.specs.Prelude.{◌≡◌};
ghost use Rattle.lists_and_answers.specs.Answers.{Gives};
ghost use Rattle.published_files.specs.Names.{unless_read};
ghost use Rattle.translation_runs.specs.Published.{names_written, IsNamed};

use catalog::Catalog;
use error_lines::Fault;
use published_files::unless_own;
use std::alloc::Global;
use translate_plan::{Driver, TranslateOptions};

/// SameName comes exactly with the first name of the output that is that of an own file of a dataset of the catalog,
/// Memory freely.
pub fn unless_read(alloc: Global, cat: &Catalog, options: &TranslateOptions) -> Result<(), Fault>
    requires named { IsNamed options.now }
    ensures gives { Gives (λ f. f ≡ Fault.Memory) (λ done. done) result
        (unless_read cat.now (names_written options.now)) }
{
    unless_own(alloc, cat, &options.out)?;
    match options.driver {
        Driver::EHdr => {
            let header = options.out.header(alloc)?;
            unless_own(alloc, cat, &header)
        }
        Driver::Dted { .. } | Driver::SrtmHgt | Driver::AaiGrid | Driver::Vrt => Ok(()),
    }
}
