//! Texts of plans that are written back, and a plan that has no text.

use super::plans::{plan_of, plan_with};
use cert_format::{read_plan, write_plan};
use plan_base::{DemandId, Items};
use proof_tree::{Cut, Evidence, Plan, PlanStatus};
use std::alloc::Global;

/// A plan of a triangle, of which one leaf has a bound and the other one its only path.
const TRIANGLE_PLAN: &str = "SNDPLAN 1
SIZE 3 3 1
STATUS OPTIMAL
BUDGET 1000
EXAMINED 3
COST 10
PATH 2 0 2
MODULES 1 1
MODULES 1 1
MODULES 1 0
TREE 3
SPLIT 0 0 1 0 1 4
PRICED 0 0 1666666667
ROUTED
END
";

/// Each kind of record and the greatest numbers.
const EACH_KIND: &str = "SNDPLAN 1
SIZE 4 2 1
STATUS UNDECIDED
BUDGET 4096
EXAMINED 4294967295
COST 340282366920938463463374607.431768211455
PATH 0
MODULES 0
MODULES 2 18446744073709551615 0
BOUND -170141183460469231731687303.715884105728
TREE 11
SPLIT 0 1 1 0 1 1
SPLIT 4294967295 0 0 2 3 4294967295
SPLIT 0 0 0 0
SPLIT 0 0 0 0
SPLIT 0 0 0 0
PRICED 0 340282366920938463463374607431768211455
ROUTED
OVERFULL 7
CUT 0 2 0 3
CROWD 1 2
OPEN 0 0
END
";

/// A plan of two nodes whose root splits the loads of a place.
const LOADS_PLAN: &str = "SNDPLAN 3
SIZE 2 1 1 ONE
STATUS UNDECIDED
BUDGET 1
EXAMINED 1
COST none
BOUND none
CUTS 0
PRICES 1
P 0
TREE 3
LOADS 0 18446744073709551615
OPEN 0
OPEN 0
END
";

/// A plan with four cuts, of no node, of all, of one and of two, and the greatest numbers.
const CUTS_PLAN: &str = "SNDPLAN 3
SIZE 3 2 1 ONE
STATUS UNDECIDED
BUDGET 1
EXAMINED 1
COST none
BOUND none
CUTS 4
C 18446744073709551615 18446744073709551615 0 0
C 0 0 1 3 0 1 2
C 10000000 3000000 1 1 2
C 10000000 3000000 0 2 0 2
PRICES 2
P 0 340282366920938463463374607431768211455 1 2 3 4
P 0 0 0 0 0 340282366920938463463374607431768211455
TREE 3
SPLIT 0 0 0 0
CROWD 0
OPEN 1
END
";

/// Adds the text of the plan that this text spells.
fn tell_again(alloc: Global, plan: &str, text: &mut Vec<u8>) -> Option<()> {
    if plan.len() > 1000 {
        return None;
    }
    let plan = read_plan(alloc, plan.as_bytes()).ok()?;
    if !plan.fits() {
        return None;
    }
    let again = write_plan(alloc, &plan).ok()?;
    text.extend_from_slice(again.as_slice()).ok()
}

/// Adds a line where the plan has a text.
fn tell_fits(plan: &Plan, text: &mut Vec<u8>) -> Option<()> {
    if plan.fits() {
        text.extend_from_slice(b"fits\n").ok()
    } else {
        text.extend_from_slice(b"does not fit\n").ok()
    }
}

/// Adds whether the plan of a cut of two nodes has a text, and whether it has one where it tells of three nodes.
fn tell_cut(alloc: Global, text: &mut Vec<u8>) -> Option<()> {
    let cut = Evidence::Cut {
        demand: DemandId(0),
        reached: Items::from_vec(vec![in alloc; false, true].ok()?),
    };
    let mut plan = plan_with(alloc, cut, PlanStatus::Infeasible, None, None)?;
    tell_fits(&plan, text)?;
    plan.nodes = 3;
    tell_fits(&plan, text)
}

/// Adds whether a plan that has a cut of two nodes has a text, and whether it has one where it tells of three nodes.
fn tell_plan_cut(alloc: Global, text: &mut Vec<u8>) -> Option<()> {
    let cut = Cut {
        nodes: Items::from_vec(vec![in alloc; true, false].ok()?),
        period: 10,
        first: 3,
        counts_installed: true,
    };
    let mut plan = plan_of(alloc, PlanStatus::Infeasible, None, None)?;
    plan.cuts = Items::from_vec(vec![in alloc; cut].ok()?);
    tell_fits(&plan, text)?;
    plan.nodes = 3;
    tell_fits(&plan, text)
}

/// Adds four texts of plans again, and which plan has one.
pub(crate) fn tell_texts(alloc: Global, text: &mut Vec<u8>) -> Option<()> {
    tell_again(alloc, TRIANGLE_PLAN, text)?;
    tell_again(alloc, EACH_KIND, text)?;
    tell_again(alloc, LOADS_PLAN, text)?;
    tell_again(alloc, CUTS_PLAN, text)?;
    tell_cut(alloc, text)?;
    tell_plan_cut(alloc, text)
}
