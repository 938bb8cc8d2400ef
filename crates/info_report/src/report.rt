// The report of a dataset, written to a sink.
ghost use Rattle.std.specs.Prelude.{◌≡◌, ◌++◌, Err, OnOk, OnErr};
ghost use Rattle.outside.specs.Causes.{HasCause};
ghost use Rattle.outside.specs.Streams.{Gets, GetsPart};
ghost use Rattle.info_report.specs.Report.{info_text};
ghost use Rattle.info_report.specs.declared.report.ReportFault.TheVariants as report_fault;

use crate::bands::push_bands;
use crate::dataset::{push_driver, push_files, push_size, push_srs};
use crate::transform_lines::push_geo;
use catalog::Head;
use outside::{Failed, Sink};
use std::alloc::{AllocError, Global};

/// Why a report wasn't written whole: the sink failed, or memory was refused.
#[derive(Clone, Copy, Debug, PartialEq, Eq)]
pub enum ReportFault {
    OutFault,
    Memory,
}

impl From<AllocError> for ReportFault {
    ghost from_gives = { λ _ e. e ≡ report_fault.Memory };

    fn from(_: AllocError) -> Self {
        ReportFault::Memory
    }
}

/// Appends the report.
#[tactic(auto, using(crate::proofs::Appended::six), unfolding(crate::specs::Report::info_text))]
fn push_info(head: &Head, out: &mut Vec<u8>) -> Result<(), AllocError>
    ensures { OnOk result (out.new.items ≡ out.old.items ++ info_text head.now) }
{
    push_driver(head.kind, out)?;
    push_files(head.files.as_slice(), out)?;
    push_size(head.size, out)?;
    push_srs(&head.srs, out)?;
    push_geo(&head.geo, head.size, out)?;
    push_bands(head.bands.as_slice(), out)?;
    Ok(())
}

/// Writes the report of a dataset to a sink: the driver, the files, the size, the coordinate system and the
/// geotransform where there are such, and the bands.
///
/// The text is made whole before the sink gets it. OutFault comes only where the sink's count rose in this call; the
/// sink then got a first part of the text. Memory comes freely, and the sink then got nothing.
#[tactic(auto, using(crate::proofs::Appended::nothing_put))]
pub fn write_info<S: Sink>(alloc: Global, head: &Head, sink: &mut S) -> Result<(), ReportFault>
    ensures ok { OnOk result (Gets (info_text head.now) (S.got sink.old) (S.got sink.new)) }
    ensures err { OnErr result (GetsPart (info_text head.now) (S.got sink.old) (S.got sink.new)) }
    ensures memory { result ≡ Err ReportFault.Memory → sink.new ≡ sink.old }
    ensures cause { HasCause ReportFault.OutFault (S.faults sink.old) (S.faults sink.new) result }
{
    let mut text = Vec::new(alloc);
    push_info(head, &mut text)?;
    match sink.put(&text) {
        Ok(()) => Ok(()),
        Err(Failed) => Err(ReportFault::OutFault),
    }
}
