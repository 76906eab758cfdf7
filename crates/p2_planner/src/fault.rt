ghost use Rattle.std.specs.Prelude.{◌≡◌};
ghost use Rattle.p2_planner.specs.Faults.{of_slice, of_problem};
ghost use Rattle.p2_planner.specs.declared.fault.PlanFault.TheVariants as faults;

use osgi_version::NoMemory;
use pb_encode::EncodeFault;
use std::alloc::{AllocError, AllocFailed};
use thiserror::Error;
use unit_slicer::SliceFault;

/// Why there is no plan.
#[derive(Clone, Copy, Debug, PartialEq, Eq, Error)]
pub enum PlanFault {
    /// The slice has over 8,192 units.
    #[error("too many units in the slice")]
    SliceTooLarge,
    /// A problem has over 4,000,000 terms.
    #[error("too many terms in the problem")]
    ProblemTooLarge,
    #[error("out of memory")]
    NoMemory,
}

impl From<SliceFault> for PlanFault {
    ghost from_gives = { λ e fault. fault ≡ of_slice e };

    fn from(error: SliceFault) -> PlanFault {
        match error {
            SliceFault::TooLarge => PlanFault::SliceTooLarge,
            SliceFault::NoMemory => PlanFault::NoMemory,
        }
    }
}

impl From<EncodeFault> for PlanFault {
    ghost from_gives = { λ e fault. fault ≡ of_problem e };

    fn from(error: EncodeFault) -> PlanFault {
        match error {
            EncodeFault::TooLarge => PlanFault::ProblemTooLarge,
            EncodeFault::NoMemory => PlanFault::NoMemory,
        }
    }
}

impl From<NoMemory> for PlanFault {
    ghost from_gives = { λ _ fault. fault ≡ faults.NoMemory };

    fn from(_error: NoMemory) -> PlanFault {
        PlanFault::NoMemory
    }
}

impl From<AllocError> for PlanFault {
    ghost from_gives = { λ _ fault. fault ≡ faults.NoMemory };

    fn from(_error: AllocError) -> PlanFault {
        PlanFault::NoMemory
    }
}

impl<T: Drop> From<AllocFailed<T>> for PlanFault {
    ghost from_gives = { λ _ fault. fault ≡ faults.NoMemory };

    fn from(_error: AllocFailed<T>) -> PlanFault {
        PlanFault::NoMemory
    }
}
