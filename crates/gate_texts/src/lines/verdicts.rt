//! The line of each verdict.

use super::plans::plan_of;
use super::push_line;
use cert_verifier::Rejected;
use plan_base::{DemandId, DesignFault, LinkId};
use plan_report::verdict_line;
use proof_tree::PlanStatus;
use std::alloc::Global;

/// A demand and a link.
const DEMAND: DemandId = DemandId(0);

const LINK: LinkId = LinkId(0);

/// What is wrong with plans, in each kind.
const REJECTED: [Rejected; 15] = [
    Rejected::Design(DesignFault::WrongCount),
    Rejected::Design(DesignFault::NotAPath {
        demand: DEMAND,
        place: 3,
    }),
    Rejected::Design(DesignFault::Repeats {
        demand: DEMAND,
        place: 3,
    }),
    Rejected::Design(DesignFault::CountShape { link: LINK }),
    Rejected::Design(DesignFault::Short {
        link: LINK,
        load: 6,
        capacity: 5,
    }),
    Rejected::Design(DesignFault::TooLong {
        demand: DEMAND,
        arcs: 4,
        limit: 3,
    }),
    Rejected::Cost {
        stated: 9_000_000_000_000,
        found: 10_000_000_000_000,
    },
    Rejected::Split { index: 0, rule: 5 },
    Rejected::Leaf { index: 1, rule: 3 },
    Rejected::Counts {
        stated: 4,
        found: 3,
    },
    Rejected::Bound {
        stated: Some(-1_500_000_000_000),
        found: None,
    },
    Rejected::Kind { index: 3 },
    Rejected::Size,
    Rejected::Budget {
        examined: 1001,
        budget: 1000,
    },
    Rejected::Cuts { index: 2 },
];

/// Adds the lines of three plans that are accepted.
fn tell_accepted(alloc: Global, text: &mut Vec<u8>) -> Option<()> {
    for (status, cost) in [
        (PlanStatus::Optimal, Some(10_000_000_000_000)),
        (PlanStatus::Infeasible, None),
        (PlanStatus::Undecided, Some(8_500_000_000_000)),
    ] {
        let plan = plan_of(alloc, status, cost, None)?;
        push_line(verdict_line(alloc, &plan, &Ok(())), text)?;
    }
    Some(())
}

/// Adds the lines of three plans that are accepted, and that of each way to be rejected.
pub(crate) fn tell_verdicts(alloc: Global, text: &mut Vec<u8>) -> Option<()> {
    tell_accepted(alloc, text)?;
    let plan = plan_of(alloc, PlanStatus::Optimal, Some(10_000_000_000_000), None)?;
    for rejected in REJECTED {
        push_line(verdict_line(alloc, &plan, &Err(rejected)), text)?;
    }
    Some(())
}
