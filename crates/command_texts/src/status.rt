//! How a run ends.

ghost use Rattle.std.specs.Prelude.{◌≡◌};
ghost use Rattle.command_texts.specs.Statuses.{exit_number, refusal_status, status_of_plan};

use plan_report::RunFault;
use proof_tree::PlanStatus;

/// How a run ends, with the number that the program exits with.
#[derive(Clone, Copy, Debug, PartialEq, Eq)]
pub enum Status {
    /// An optimal plan, the line of a checked network, or that of a valid plan was written.
    Good = 0,
    /// The words are not read.
    Usage = 2,
    /// A text is not spelt by its grammar, or a link or demand has equal ends.
    BadText = 3,
    /// A value of the model is outside the profile.
    Unsupported = 4,
    /// A quantity passes its limit.
    OverLimit = 5,
    /// The shelf failed in this run.
    ReadFault = 6,
    /// The sink failed in this run.
    WriteFault = 7,
    /// There is no memory left. Nothing was written.
    OutOfMemory = 8,
    /// A plan was written that shows that no design exists.
    Infeasible = 10,
    /// A plan was written that has spent its budget and leaves something open.
    Undecided = 11,
    /// The plan is no valid one of the network.
    Rejected = 12,
}

impl Status {
    /// The number that the programs exit with.
    ///
    /// - Rule: docs/FORMATS.md, "Statuses".
    pub fn number(self) -> u8
        ensures { result ≡ exit_number self }
    {
        self as u8
    }

    /// How a run ends that refuses its words or texts so.
    pub(crate) fn of_fault(fault: RunFault) -> Status
        ensures { result ≡ refusal_status fault }
    {
        match fault {
            RunFault::Usage => Status::Usage,
            RunFault::Text { .. }
            | RunFault::PlanText { .. }
            | RunFault::LoopLink { .. }
            | RunFault::LoopDemand { .. } => Status::BadText,
            RunFault::Unsupported { .. } => Status::Unsupported,
            RunFault::TooLong { .. } | RunFault::OverLimit { .. } => Status::OverLimit,
            RunFault::Read { .. } => Status::ReadFault,
        }
    }

    /// How a run ends that writes a plan of this status.
    pub fn of_plan(status: PlanStatus) -> Status
        ensures { result ≡ status_of_plan status }
    {
        match status {
            PlanStatus::Optimal => Status::Good,
            PlanStatus::Infeasible => Status::Infeasible,
            PlanStatus::Undecided => Status::Undecided,
        }
    }
}
