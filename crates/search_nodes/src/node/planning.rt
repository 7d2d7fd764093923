//! What a plan takes from a node.

ghost use Rattle.std.specs.Prelude.{◌≡◌};
ghost use Rattle.branch_tree.specs.Records.{split_record};
ghost use Rattle.search_machine.specs.State.{kept_by};
ghost use Rattle.search_nodes.specs.Rounds.{best_in};
ghost use Rattle.search_nodes.specs.Records.{record_of, children_by};

use super::PoolNode;
use branch_tree::{ArcSplit, Divider, Division, LoadSplit};
use plan_base::{BranchId, Prices};
use proof_tree::{Evidence, TreeNode};
use search_machine::Fate;

/// The prices that an open leaf keeps: the best ones, where a version was complete.
fn kept(best_bound: Option<i128>, best: Prices, first: Prices) -> Prices
    ensures { result ≡ kept_by (best_in best_bound best) first }
{
    match best_bound {
        Some(_) => best,
        None => first,
    }
}

/// The record of a split.
fn split(division: Division) -> TreeNode
    ensures { result ≡ split_record division.by }
{
    let Division {
        by,
        left_child: _left_child,
        right_child: _right_child,
    } = division;
    match by {
        Divider::Arcs(
            ArcSplit {
                demand,
                at,
                left,
                right,
            },
        ) => TreeNode::Split {
            demand,
            node: at,
            left,
            right,
        },
        Divider::Load(LoadSplit { place, load }) => TreeNode::Loads { place, load },
    }
}

impl PoolNode {
    /// The children of a divided node, the left one first.
    pub fn children(&self) -> Option<(BranchId, BranchId)>
        ensures { result ≡ children_by self.now.fate }
    {
        match &self.fate {
            Fate::DividedBy(division) => Some((division.left_child, division.right_child)),
            Fate::Undone => None,
            Fate::ClosedBy(_) => None,
        }
    }

    /// The record of the node: an open leaf has its kept prices. Takes no memory.
    pub fn into_record(self) -> TreeNode
        ensures { result ≡ record_of self }
    {
        let PoolNode {
            limits: _limits,
            first_prices,
            best_bound,
            best_prices,
            completed: _completed,
            fate,
            cut: _cut,
            is_crowd: _is_crowd,
            crowd_prices: _crowd_prices,
            settled: _settled,
            crowd_tried: _crowd_tried,
            round: _round,
            above: _above,
            split: _split,
        } = self;
        match fate {
            Fate::Undone => {
                TreeNode::Leaf(Evidence::Open(kept(best_bound, best_prices, first_prices)))
            }
            Fate::ClosedBy(evidence) => TreeNode::Leaf(evidence),
            Fate::DividedBy(division) => split(division),
        }
    }
}
