//! Lists of cuts.

ghost use Rattle.std.specs.Prelude.{IfSome};
ghost use Rattle.proof_tree.specs.Cuts.{IsCutList};

use gate_networks::{list_of, numbers_of};
use plan_base::{Instance, Items};
use proof_tree::{Cut, is_cut_list};
use std::alloc::Global;

/// For each node whether the word names it.
fn set_of(alloc: Global, inst: &Instance, word: &str) -> Option<Items<bool>> {
    let named = list_of(alloc, word)?;
    let mut nodes = Vec::new(alloc);
    for node in 0..inst.nodes() {
        nodes.push(named.contains(&u64::from(node))).ok()?;
    }
    Some(Items::from_vec(nodes))
}

/// The cut of a set of nodes, a period, how many grains of it are counted, and a 1 where what is installed is left out.
fn cut_of(alloc: Global, inst: &Instance, words: &str) -> Option<Cut> {
    let (nodes, words) = words.split_once(' ')?;
    let numbers = numbers_of(alloc, words, ' ')?;
    let [period, first, installed] = numbers.as_slice() else {
        return None;
    };
    Some(Cut {
        nodes: set_of(alloc, inst, nodes)?,
        period: *period,
        first: *first,
        counts_installed: *installed == 1,
    })
}

/// The cuts of these words, of which there may be none.
///
/// - Takes: for each cut `NODES PERIOD FIRST INSTALLED`, parted by `, `.
/// - Gives: None where the words have not this form, where they are no list of cuts of the instance, and where memory is
///   wanting.
pub(super) fn cuts_of(alloc: Global, inst: &Instance, words: &str) -> Option<Items<Cut>>
    ensures { IfSome result (IsCutList inst.now) }
{
    let mut cuts = Vec::new(alloc);
    if !words.is_empty() {
        for part in words.split(", ") {
            cuts.push(cut_of(alloc, inst, part)?).ok()?;
        }
    }
    let cuts = Items::from_vec(cuts);
    if is_cut_list(inst, cuts.as_slice()) {
        Some(cuts)
    } else {
        None
    }
}
