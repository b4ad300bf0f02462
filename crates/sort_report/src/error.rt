//! Why a report isn't whole.
ghost use Rattle.std.specs.Prelude.{◌≡◌};
ghost use Rattle.sort_report.specs.declared.error.ReportError.TheVariants as report_error;

use acg_base::{Memory, SinkError};
use std::alloc::{AllocError, AllocFailed};
use thiserror::Error;

/// Why a report isn't whole: the sink has a front of it.
#[derive(Clone, Copy, Debug, PartialEq, Eq, Error)]
pub enum ReportError {
    /// Want of memory.
    #[error("out of memory")]
    Memory,
    /// The sink failed.
    #[error("the sink failed")]
    SinkFault,
}

impl From<Memory> for ReportError {
    ghost from_gives = { λ _ error. error ≡ report_error.Memory };

    fn from(_error: Memory) -> ReportError {
        ReportError::Memory
    }
}

impl From<AllocError> for ReportError {
    ghost from_gives = { λ _ error. error ≡ report_error.Memory };

    fn from(_error: AllocError) -> ReportError {
        ReportError::Memory
    }
}

impl<T: Drop> From<AllocFailed<T>> for ReportError {
    ghost from_gives = { λ _ error. error ≡ report_error.Memory };

    fn from(_error: AllocFailed<T>) -> ReportError {
        ReportError::Memory
    }
}

impl From<SinkError> for ReportError {
    ghost from_gives = { λ _ error. error ≡ report_error.SinkFault };

    fn from(_error: SinkError) -> ReportError {
        ReportError::SinkFault
    }
}
