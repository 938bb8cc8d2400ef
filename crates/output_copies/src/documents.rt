// Documents of mosaics that translations publish.
ghost use Rattle.std.specs.Prelude.{◌≡◌, ◌++◌, ◌∷◌, [], IfErr, IfOk, Some, slice_get, true};
ghost use Rattle.outside.specs.Outside.{Files};
ghost use Rattle.vrt_writing.specs.Spelled.{spelled};
ghost use Rattle.catalog.specs.Drivers.{Dataset};
ghost use Rattle.translate_plan.specs.Documents.{document_by};
ghost use Rattle.translate_plan.specs.declared.options.Driver.TheVariants.{Vrt};
ghost use Rattle.strip_copies.specs.Copies.{IsTranslation};
ghost use Rattle.error_lines.specs.Faults.{IsOutside};
ghost use Rattle.error_lines.specs.Progress.{progress};
ghost use Rattle.error_lines.specs.Steps.{Publishes, all_done, Goes};
ghost use Rattle.output_copies.specs.Copying.{spoken, MayEnd, Puts};
ghost use Rattle.output_copies.specs.Steps.{unless_quiet};

use crate::progress::put_progress;
use crate::writing::Writing;
use error_lines::Fault;
use outside::{Folder, Name, Sink};
use published_files::publish_document;
use strip_copies::Translation;
use translate_plan::document;
use vrt_profile::Document;

// The document of a translation's output under a name.
fn document_for(translation: &Translation, name: &Name) -> Result<Document, Fault>
    requires translation { IsTranslation translation.now.cat translation.now.id translation.now.plan }
    requires mosaic { translation.now.plan.driver ≡ Vrt }
    ensures document { IfOk result (λ document. (d : Dataset) → slice_get translation.now.cat translation.now.id
        ≡ Some d → document ≡ document_by translation.now.plan name.now d.head) }
    ensures memory { IfErr result (λ f. f ≡ Fault.Memory) }
{
    let head = translation.cat.head(translation.id);
    let document = document(translation.alloc, &translation.plan, name, head)?;
    Ok(document)
}

/// Tells how far the work is, up to nine tenths, and publishes the document of the output.
pub fn write_document<F: Folder, O: Sink>(
    translation: &Translation,
    folder: &mut F,
    out: &mut O,
    writing: &Writing,
) -> Result<(), Fault>
    requires translation { IsTranslation translation.now.cat translation.now.id translation.now.plan }
    requires mosaic { translation.now.plan.driver ≡ Vrt }
    ensures goes { (m : Files) (d : Dataset) → F.names folder.old ≡ Some m →
        slice_get translation.now.cat translation.now.id ≡ Some d →
        Goes (all_done (unless_quiet writing.now.quiet progress ++ Publishes writing.now.name.now
        (spelled (document_by translation.now.plan writing.now.name.now d.head)) ∷ [])) m result (F.names folder.new)
        (O.got out.old) (O.got out.new) }
    ensures put { Puts (spoken writing.now.quiet progress) result (O.got out.old) (O.got out.new) }
    ensures quiet { writing.now.quiet ≡ true → out.new ≡ out.old }
    ensures ends { MayEnd (F.names folder.old) (F.faults folder.old) (F.faults folder.new) (O.faults out.old)
        (O.faults out.new) result }
    ensures outside { IfErr result IsOutside }
{
    let document = document_for(translation, writing.name)?;
    put_progress(out, writing.quiet)?;
    publish_document(translation.alloc, folder, writing.name, &document)
}
