// The answers of a run other than success.
ghost use Rattle.std.specs.Prelude.{◌≡◌};
ghost use Rattle.error_lines.specs.Faults.{fault_of, build_fault_of, load_fault_of, report_fault_of, target_fault_of};
ghost use Rattle.error_lines.specs.declared.faults.Fault.TheVariants as fault;

use band_blocks::LoadFault;
use buildvrt::BuildFault;
use catalog::{Bad, LimitKind, WalkFault};
use geotransform::PlanFault;
use info_report::ReportFault;
use outside::Name;
use std::alloc::AllocError;
use write_back::TargetFault;

/// Why a run ended without success.
#[derive(Drop)]
pub enum Fault {
    /// The word with this number, counted from 0, doesn't fit; the number of words where one is missing.
    Usage {
        word: u64,
    },
    /// There is no file of this name.
    Absent {
        name: Name,
    },
    /// The extension of this name is that of no kind of dataset.
    NotRecognized {
        name: Name,
    },
    /// The file of this name isn't of its form.
    Malformed {
        name: Name,
        bad: Bad,
    },
    /// The file of this name needs so many bytes, and has fewer.
    Short {
        name: Name,
        needed: u64,
        has: u64,
    },
    /// The mosaic of this name contains itself.
    Cycle {
        name: Name,
    },
    /// The mosaic of this name would be the seventeenth on its path.
    TooDeep {
        name: Name,
    },
    /// What is counted would pass its limit with this value.
    Limit {
        what: LimitKind,
        value: u64,
    },
    /// A source names this band, counted from 1, of the dataset of this name, which lacks it.
    SourceBand {
        name: Name,
        band: u32,
    },
    /// The dataset can't give what is asked of it.
    Plan(PlanFault),
    /// There is no mosaic of the inputs. It is never want of memory, which is a fault of its own.
    Build(BuildFault),
    /// The output of this name is a file that is read.
    SameName {
        name: Name,
    },
    /// The line of the input with this number, counted from 1, is no point.
    BadPoint {
        line: u32,
    },
    /// The file of this name was so many bytes long, and was opened again with another length, or with none
    /// where it was absent then.
    Changed {
        name: Name,
        was: u64,
        now: Option<u64>,
    },
    /// A call of the folder failed.
    FolderFault,
    /// A call of the input failed.
    InputFault,
    /// A call of the output failed.
    OutFault,
    /// Memory was refused.
    Memory,
}

impl From<WalkFault> for Fault {
    ghost from_gives = { λ w f. f ≡ fault_of w };

    fn from(fault: WalkFault) -> Self {
        match fault {
            WalkFault::Absent { name } => Fault::Absent { name },
            WalkFault::NotRecognized { name } => Fault::NotRecognized { name },
            WalkFault::Malformed { name, bad } => Fault::Malformed { name, bad },
            WalkFault::Short { name, needed, has } => Fault::Short { name, needed, has },
            WalkFault::Cycle { name } => Fault::Cycle { name },
            WalkFault::TooDeep { name } => Fault::TooDeep { name },
            WalkFault::Limit { what, value } => Fault::Limit { what, value },
            WalkFault::SourceBand { name, band } => Fault::SourceBand { name, band },
            WalkFault::FolderFault => Fault::FolderFault,
            WalkFault::Memory => Fault::Memory,
        }
    }
}

impl From<BuildFault> for Fault {
    ghost from_gives = { λ b f. f ≡ build_fault_of b };

    fn from(fault: BuildFault) -> Self {
        match fault {
            BuildFault::Nothing => Fault::Build(BuildFault::Nothing),
            BuildFault::Strict { name, reason } => {
                Fault::Build(BuildFault::Strict { name, reason })
            }
            BuildFault::Limit => Fault::Build(BuildFault::Limit),
            BuildFault::Memory => Fault::Memory,
        }
    }
}

impl From<LoadFault> for Fault {
    ghost from_gives = { λ l f. f ≡ load_fault_of l };

    fn from(fault: LoadFault) -> Self {
        match fault {
            LoadFault::FolderFault => Fault::FolderFault,
            LoadFault::Changed { name, was, now } => Fault::Changed { name, was, now },
            LoadFault::Memory => Fault::Memory,
        }
    }
}

impl From<ReportFault> for Fault {
    ghost from_gives = { λ r f. f ≡ report_fault_of r };

    fn from(fault: ReportFault) -> Self {
        match fault {
            ReportFault::OutFault => Fault::OutFault,
            ReportFault::Memory => Fault::Memory,
        }
    }
}

impl From<TargetFault> for Fault {
    ghost from_gives = { λ t f. f ≡ target_fault_of t };

    fn from(fault: TargetFault) -> Self {
        match fault {
            TargetFault::FolderFault => Fault::FolderFault,
            TargetFault::Memory => Fault::Memory,
        }
    }
}

impl From<AllocError> for Fault {
    ghost from_gives = { λ _ f. f ≡ fault.Memory };

    fn from(_: AllocError) -> Self {
        Fault::Memory
    }
}

/// How a run ended.
#[derive(Drop)]
pub struct Outcome {
    /// The exit status: 0 for success, 1 for a refusal, 2 for a fault of the outside, 3 for want of memory.
    pub status: u8,
    /// The fault, where the status isn't 0.
    pub fault: Option<Fault>,
}
