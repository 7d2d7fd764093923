//! What the line of a cut of the plan is read as, without its line end.

ghost use Rattle.std.specs.Prelude.{◌≡◌, Some, None, IfOk};
ghost use Rattle.cert_format.specs.Bodies.{load_cut_in, load_cut_row};

use crate::node_sets::node_set;
use plan_base::Items;
use plan_tokens::row;
use proof_tree::Cut;
use std::alloc::{AllocError, Global};

/// The numbers of a cut.
#[tactic(auto, unfolding(crate::specs::Bodies::load_cut_in))]
fn load_cut_in(alloc: Global, nodes: u32, numbers: &[u128]) -> Result<Option<Cut>, AllocError>
    ensures { IfOk result (λ found. found ≡ load_cut_in nodes numbers.now) }
{
    let [period, first, installed, rest @ ..] = numbers else {
        return Ok(None);
    };
    if *period >= 1 << 64 || *first >= 1 << 64 || *installed > 1 {
        return Ok(None);
    }
    match node_set(alloc, nodes, rest)? {
        Some(nodes) => Ok(Some(Cut {
            nodes: Items::from_vec(nodes),
            period: *period as u64,
            first: *first as u64,
            counts_installed: *installed == 1,
        })),
        None => Ok(None),
    }
}

/// A cut of sets of so many nodes.
#[tactic(auto, unfolding(crate::specs::Bodies::load_cut_row))]
pub(crate) fn load_cut(alloc: Global, nodes: u32, body: &[u8]) -> Result<Option<Cut>, AllocError>
    ensures { IfOk result (λ found. found ≡ load_cut_row nodes body.now) }
{
    match row(alloc, b"C", body)? {
        Some(numbers) => load_cut_in(alloc, nodes, numbers.as_slice()),
        None => Ok(None),
    }
}
