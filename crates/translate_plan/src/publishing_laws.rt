// What a document shows that is made of a plan.
ghost use Rattle.std.specs.Prelude.{◌≡◌, ℕ, ◌<◌, List, length, Some, slice_get};
ghost use Rattle.outside.specs.Outside.{Files};
ghost use Rattle.catalog.specs.Dataset.{DatasetHead};
ghost use Rattle.catalog.specs.Drivers.{Dataset};
ghost use Rattle.catalog.specs.Pixels.{pixel_of_name};
ghost use Rattle.catalog.specs.Walk.{IsCatalog, IsWalked};
ghost use Rattle.translate_plan.specs.Documents.{IsPublished};
ghost use Rattle.translate_plan.specs.Plan.{Planned, out_pixel};

use vrt_profile::related_resolves;
use vrt_writing::written_document_reads_back;

/// Each pixel of the published document of a plan is that pixel of the plan's output, in each catalog that was walked
/// from the document over the folder's files.
pub fn documents_show_outputs()
    ensures pixel { (m : Files) (cat : List Dataset) (id k i j : ℕ) (d : Dataset) (p : Planned) (h : DatasetHead) →
        IsCatalog cat → IsWalked m cat → slice_get cat id ≡ Some d → IsPublished m d.head.name p h →
        k < length p.bands → i < p.size.w → j < p.size.h → pixel_of_name m d.head.name k i j
        ≡ out_pixel p h.size (pixel_of_name m h.name) k i j }
{
    // The document is read again as it was written, and what it says of the source resolves to the source's name.
    related_resolves();
    written_document_reads_back();
}
