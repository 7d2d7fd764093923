//! Ways of least weight, by themselves and as trees.

use crate::asking::{Question, word_at};
use crate::telling::{tell_list, tell_number, tell_path, tell_reached};
use least_path::{Search, Tree, are_weights, search};
use plan_base::NodeId;
use std::alloc::Global;

/// The weights of a word, one for each arc: numbers, or `-` where the arc may not be used.
fn weights_of(alloc: Global, word: &str) -> Option<Vec<Option<u128>>> {
    let mut weights = Vec::new(alloc);
    for part in word.split(',') {
        weights.push(part.parse::<u128>().ok()).ok()?;
    }
    Some(weights)
}

/// Adds the arcs of a way, its length and the potentials, or which nodes are reached.
fn tell_search(found: &Search, text: &mut String) -> Option<()> {
    match found {
        Search::Path {
            path,
            length,
            potentials,
        } => {
            tell_path(path, text)?;
            tell_number(" length", *length, text)?;
            tell_list(" potentials", potentials.as_slice(), text)
        }
        Search::NoPath { reached } => tell_reached(" no way", reached.as_slice(), text),
    }
}

/// Adds the lengths of the ways of a tree, and the way to a node.
fn tell_tree(question: Question<'_>, tree: &Tree, node: NodeId, text: &mut String) -> Option<()> {
    let lengths = tree.lengths(question.alloc).ok()?;
    tell_list(" lengths", lengths.as_slice(), text)?;
    write!(text, " way of {:?}", tree.length(node)).ok()?;
    match tree.way(question.alloc, question.inst, node).ok()? {
        Some(way) => tell_path(&way, text),
        None => Some(()),
    }
}

/// Adds a way of least weight from one node to another, or the lengths of the tree of the one and its way to the other.
pub(crate) fn tell_nodes(question: Question<'_>, text: &mut String) -> Option<()> {
    let Question { alloc, inst, row } = question;
    let source = NodeId(question.number(2));
    let target = NodeId(question.number(3));
    let weights = weights_of(alloc, word_at(row, 4))?;
    if !are_weights(inst, &weights) || source.0 >= inst.nodes() || target.0 >= inst.nodes() {
        return None;
    }
    if word_at(row, 0) == "way" {
        return tell_search(&search(alloc, inst, &weights, source, target).ok()?, text);
    }
    let tree = Tree::grow(alloc, inst, &weights, source).ok()?;
    tell_tree(question, &tree, target, text)
}
