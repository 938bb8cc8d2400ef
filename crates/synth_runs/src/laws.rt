// What holds of the run from every number.
ghost use Rattle.std.specs.Prelude.{◌≡◌, ℕ, None};
ghost use Rattle.outside.specs.Outside.{Files};
ghost use Rattle.synthetic_rasters.specs.Tiles.{IsSide};
ghost use Rattle.synth_runs.specs.Runs.{synth_run};

use vrt_writing::written_document_reads_back;

/// Over files that a folder tells, the run from the side of a tile is refused by nothing.
pub fn numbers_are_never_refused()
    ensures fault { (side : ℕ) → IsSide side → (m : Files) → (synth_run side m).fault ≡ None }
{
    written_document_reads_back();
}
