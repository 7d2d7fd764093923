//! Answers, each behind a blank.

use arc_restrict::Restriction;
use dual_versions::Published;
use plan_base::{ArcId, DemandId};
use pool_core::Gather;
use std::fmt::Debug;

/// Adds an answer by its name.
///
/// - Gives: None where memory is wanting.
pub(crate) fn tell_answer<A: Debug + Drop>(answer: A, text: &mut String) -> Option<()> {
    write!(text, " {answer:?}").ok()
}

/// Adds the refusal of a gathering, or that a master step would be told of the paths.
///
/// - Gives: None where memory is wanting.
pub(crate) fn tell_gathered(gathered: Gather, text: &mut String) -> Option<()> {
    match gathered {
        Gather::Taken(_brief) => text.push_str(" Taken").ok(),
        refusal => tell_answer(refusal, text),
    }
}

/// Adds the node, the version and the prices of the round in a slot, or that the slot is free.
///
/// - Gives: None where memory is wanting.
pub(crate) fn tell_published(published: Option<Published>, text: &mut String) -> Option<()> {
    match published {
        Some(published) => write!(
            text,
            " node {} version {} prices {:?}",
            published.node.0,
            published.version,
            published.prices.as_slice()
        )
        .ok(),
        None => text.push_str(" free").ok(),
    }
}

/// Adds which arcs of so many demands and links are forbidden, each as its demand and its number.
///
/// - Gives: None where memory is wanting.
pub(crate) fn tell_restriction(
    demands: u32,
    arcs: u32,
    rows: &Restriction,
    text: &mut String,
) -> Option<()> {
    text.push_str(" forbidden").ok()?;
    for demand in 0..demands {
        for arc in 0..arcs {
            if !rows.allows(DemandId(demand), ArcId(arc)) {
                write!(text, " {demand}:{arc}").ok()?;
            }
        }
    }
    Some(())
}
