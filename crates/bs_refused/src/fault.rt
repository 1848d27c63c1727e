//! Why a scene stops early.
use bs_board::Decode;
use bs_host::Cut;
use bs_json::PlanFault;
use bs_pool::Reserve;
use bs_sched::{Admit, Leave, Open};
use bs_workers::Run;
use std::alloc::{AllocError, AllocFailed};

/// The tried call reported that memory ran out, or something other than what the scene expects.
#[derive(Clone, Copy, Debug)]
pub enum Fault {
    Memory,
    Busy,
    Failed,
    NoBlock,
    NoCore,
    NoCut,
    NoJob,
    NoLine,
    NoPlan,
    NoRecord,
    NoReservation,
    NoSetup,
    NoStay,
    NoText,
    NoTurn,
    NoView,
    NoWorker,
    NotAdmitted,
    NotLegal,
    NotLeft,
    NotRun,
    OtherKey,
    Stray,
    Strays,
}

impl From<AllocError> for Fault {
    fn from(_error: AllocError) -> Fault {
        Fault::Memory
    }
}

impl<T: Drop> From<AllocFailed<T>> for Fault {
    fn from(_error: AllocFailed<T>) -> Fault {
        Fault::Memory
    }
}

impl From<Reserve> for Fault {
    fn from(error: Reserve) -> Fault {
        match error {
            Reserve::Memory => Fault::Memory,
            _ => Fault::NoReservation,
        }
    }
}

impl From<Decode> for Fault {
    fn from(error: Decode) -> Fault {
        match error {
            Decode::Memory => Fault::Memory,
            Decode::NotARecord => Fault::NoRecord,
        }
    }
}

impl From<PlanFault> for Fault {
    fn from(error: PlanFault) -> Fault {
        match error {
            PlanFault::Memory => Fault::Memory,
            _ => Fault::NoPlan,
        }
    }
}

impl From<Open> for Fault {
    fn from(error: Open) -> Fault {
        match error {
            Open::Memory => Fault::Memory,
            Open::Short => Fault::NoCore,
        }
    }
}

impl From<Admit> for Fault {
    fn from(error: Admit) -> Fault {
        match error {
            Admit::Memory => Fault::Memory,
            _ => Fault::NotAdmitted,
        }
    }
}

impl From<Leave> for Fault {
    fn from(error: Leave) -> Fault {
        match error {
            Leave::Memory => Fault::Memory,
            _ => Fault::NotLeft,
        }
    }
}

impl From<Cut> for Fault {
    fn from(error: Cut) -> Fault {
        match error {
            Cut::Memory => Fault::Memory,
            _ => Fault::NoCut,
        }
    }
}

impl From<Run> for Fault {
    fn from(error: Run) -> Fault {
        match error {
            Run::Memory => Fault::Memory,
            Run::Broken => Fault::NotRun,
        }
    }
}
