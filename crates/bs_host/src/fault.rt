//! Why a request is not done, and the exit status of each reason: the table of docs/USAGE.md.
ghost use Rattle.std.specs.Prelude.{◌≡◌};
ghost use Rattle.bs_host.specs.Statuses.{status_of};

use crate::cut_fault::Cut;
use crate::read::ReadFault;
use bs_json::PlanFault;
use bs_sched::Open;
use bs_transcript::TranscriptFault;
use bs_workers::Run;
use std::alloc::AllocError;
use thiserror::Error;

/// Why the plan of a file is refused, in the order in which the reasons are judged.
#[derive(Clone, Copy, Debug, PartialEq, Eq, Error)]
pub enum PlanRefusal {
    /// The first line is no plan.
    #[error("P1")]
    Malformed,
    /// A name or a quota is out of range, or a name occurs twice.
    #[error("P2")]
    BadRow,
    /// There are more than 64 games.
    #[error("P3")]
    TooMany,
    /// The games reserve more blocks than there are.
    #[error("P4")]
    Short,
}

/// Why a request was not done. The contract of each call says which of these it may return.
#[derive(Clone, Copy, Debug, Error)]
pub enum Fault {
    /// A word of the command line is not UTF-8.
    #[error("a word of the command line is no UTF-8")]
    NoText,
    /// The reader returned an error, or the file was not opened; an interruption is an error too.
    #[error("cannot read the file")]
    Device,
    /// The file has more than 16,777,216 bytes.
    #[error("file too long")]
    TooLong,
    #[error("plan {0}")]
    Plan(PlanRefusal),
    /// The plan has no game of that name.
    #[error("no such game")]
    NoSuchGame,
    #[error("out of memory")]
    Memory,
    /// The writer failed after it took this many bytes.
    #[error("write failed after {0} bytes")]
    Write(usize),
    #[error("flush failed")]
    Flush,
    /// The `Gate` refused a job.
    #[error("broken")]
    Broken,
}

impl Fault {
    /// The exit status of the program.
    pub fn status(self) -> u8
        ensures { result ≡ status_of self }
    {
        match self {
            Fault::NoText => 2,
            Fault::Device | Fault::TooLong => 3,
            Fault::Plan(_) | Fault::NoSuchGame => 4,
            Fault::Memory => 5,
            Fault::Write(_) | Fault::Flush => 6,
            Fault::Broken => 7,
        }
    }
}

impl From<AllocError> for Fault {
    ghost use Rattle.bs_host.specs.declared.fault.Fault.TheVariants.{Memory};

    ghost from_gives = { λ _ fault. fault ≡ Memory };

    fn from(_error: AllocError) -> Fault {
        Fault::Memory
    }
}

impl From<PlanFault> for Fault {
    ghost use Rattle.bs_host.specs.Faults.{fault_of};

    ghost from_gives = { λ error fault. fault ≡ fault_of error };

    fn from(error: PlanFault) -> Fault {
        match error {
            PlanFault::Malformed => Fault::Plan(PlanRefusal::Malformed),
            PlanFault::BadRow => Fault::Plan(PlanRefusal::BadRow),
            PlanFault::TooMany => Fault::Plan(PlanRefusal::TooMany),
            PlanFault::Memory => Fault::Memory,
        }
    }
}

impl From<Open> for Fault {
    ghost use Rattle.bs_host.specs.Faults.{fault_of_opening};

    ghost from_gives = { λ error fault. fault ≡ fault_of_opening error };

    fn from(error: Open) -> Fault {
        match error {
            Open::Short => Fault::Plan(PlanRefusal::Short),
            Open::Memory => Fault::Memory,
        }
    }
}

impl From<Run> for Fault {
    ghost use Rattle.bs_host.specs.Faults.{fault_of_run};

    ghost from_gives = { λ error fault. fault ≡ fault_of_run error };

    fn from(error: Run) -> Fault {
        match error {
            Run::Memory => Fault::Memory,
            Run::Broken => Fault::Broken,
        }
    }
}

impl From<TranscriptFault> for Fault {
    ghost use Rattle.bs_host.specs.Faults.{fault_of_writing};

    ghost from_gives = { λ error fault. fault ≡ fault_of_writing error };

    fn from(error: TranscriptFault) -> Fault {
        match error {
            TranscriptFault::Memory => Fault::Memory,
            TranscriptFault::Write(fault) => Fault::Write(fault.written),
        }
    }
}

impl From<ReadFault> for Fault {
    ghost use Rattle.bs_host.specs.Faults.{fault_of_reading};

    ghost from_gives = { λ error fault. fault ≡ fault_of_reading error };

    fn from(error: ReadFault) -> Fault {
        match error {
            ReadFault::Device => Fault::Device,
            ReadFault::TooLong => Fault::TooLong,
            ReadFault::Memory => Fault::Memory,
        }
    }
}

impl From<Cut> for Fault {
    ghost use Rattle.bs_host.specs.Faults.{fault_of_cutting};

    ghost from_gives = { λ error fault. fault ≡ fault_of_cutting error };

    fn from(error: Cut) -> Fault {
        match error {
            Cut::TooLong => Fault::TooLong,
            Cut::Plan(refusal) => Fault::Plan(refusal),
            Cut::NoSuchGame => Fault::NoSuchGame,
            Cut::Memory => Fault::Memory,
        }
    }
}
