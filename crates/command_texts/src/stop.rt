//! Why a run does not do what its words ask for.

ghost use Rattle.std.specs.Prelude.{◌≡◌};
ghost use Rattle.model_check.specs.Refusals.{CanCome};
ghost use Rattle.command_texts.specs.Stops.{stop_of_text, stop_of_plan, stop_of_check, stop_of_steps, stop_of_reading};

use cert_format::PlanFault;
use link_steps::StepFault;
use model_check::CheckFault;
use plan_base::BuildFault;
use plan_io::ReadWhole;
use plan_report::{FileKind, RunFault};
use snd_reader::TextFault;
use std::alloc::AllocError;

/// Why a run does not do what its words ask for.
#[derive(Clone, Copy, Debug, PartialEq, Eq)]
pub enum Stop {
    /// Its words or texts are refused so.
    Refused(RunFault),
    /// There is no memory left.
    OutOfMemory,
}

impl From<AllocError> for Stop {
    ghost use Rattle.command_texts.specs.declared.stop.Stop.TheVariants.{OutOfMemory};

    ghost from_gives = { λ _ stop. stop ≡ OutOfMemory };

    fn from(_error: AllocError) -> Stop {
        Stop::OutOfMemory
    }
}

impl From<StepFault> for Stop {
    ghost from_gives = { λ fault stop. stop ≡ stop_of_steps fault };

    fn from(fault: StepFault) -> Stop {
        match fault {
            StepFault::TooManySteps { link } => Stop::Refused(RunFault::OverLimit {
                limit: 9,
                at: link.0,
            }),
            StepFault::OutOfMemory => Stop::OutOfMemory,
        }
    }
}

/// Why a run stops where the two files stand for no instance. A network that was read has no end that is
/// out of range.
pub fn stop_of_check(fault: CheckFault) -> Stop
    requires { CanCome fault }
    ensures { result ≡ stop_of_check fault }
{
    match fault {
        CheckFault::Unsupported { key, value } => {
            Stop::Refused(RunFault::Unsupported { key, value })
        }
        CheckFault::Build(BuildFault::LoopLink { link }) => {
            Stop::Refused(RunFault::LoopLink { link })
        }
        CheckFault::Build(BuildFault::LoopDemand { demand }) => {
            Stop::Refused(RunFault::LoopDemand { demand })
        }
        CheckFault::Build(BuildFault::OverLimit { limit, at }) => {
            Stop::Refused(RunFault::OverLimit { limit, at })
        }
        CheckFault::Build(BuildFault::EndOutOfRange { .. } | BuildFault::OutOfMemory) => {
            unreachable!()
        }
        CheckFault::OutOfMemory => Stop::OutOfMemory,
    }
}

/// Why a run stops where a network or model text is not read.
pub fn stop_of_text(file: FileKind, fault: TextFault) -> Stop
    ensures { result ≡ stop_of_text file fault }
{
    match fault {
        TextFault::OutOfMemory => Stop::OutOfMemory,
        fault => Stop::Refused(RunFault::Text { file, fault }),
    }
}

/// Why a run stops where a plan text is not read.
pub fn stop_of_plan(fault: PlanFault) -> Stop
    ensures { result ≡ stop_of_plan fault }
{
    match fault {
        PlanFault::Line { at } => Stop::Refused(RunFault::PlanText { rule: 1, at }),
        PlanFault::Ended { at } => Stop::Refused(RunFault::PlanText { rule: 2, at }),
        PlanFault::OutOfMemory => Stop::OutOfMemory,
    }
}

/// Why a run stops where this text does not come in.
pub fn stop_of_reading(file: FileKind, fault: ReadWhole) -> Stop
    ensures { result ≡ stop_of_reading file fault }
{
    match fault {
        ReadWhole::ReadFault => Stop::Refused(RunFault::Read { file }),
        ReadWhole::TooLong => Stop::Refused(RunFault::TooLong { file }),
        ReadWhole::OutOfMemory => Stop::OutOfMemory,
    }
}
