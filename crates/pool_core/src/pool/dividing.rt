//! Open leaves that are divided, where two paths of a demand part or by the loads of a place.

ghost use Rattle.std.specs.Prelude.{◌≡◌, ◌++◌, Ok, IfOk, OnOk, OnErr};
ghost use Rattle.branch_tree.specs.Branches.{IsLimitOf};
ghost use Rattle.search_machine.specs.Examining.{ExamineStep};
ghost use Rattle.search_view.specs.Examining.{IsReadyAt, HasTwoPaths, IsDivisionAt, AreChildrenAt};
ghost use Rattle.pool_core.specs.Children.{HasChildBehind};

use super::Pool;
use branch_tree::{Division, Limit, LoadSplit};
use plan_base::BranchId;
use search_machine::Examined;
use search_nodes::{Ground, PoolNode, give_back};
use search_view::TwoPaths;
use std::alloc::AllocError;

/// Puts nodes behind others, and their regions behind theirs. On want of memory neither changes.
fn append_both(
    nodes: &mut Vec<PoolNode>,
    grounds: &mut Vec<Ground>,
    children: &mut Vec<PoolNode>,
    below: &mut Vec<Ground>,
) -> Result<(), AllocError>
    ensures nodes { OnOk result (nodes.new.items ≡ nodes.old.items ++ children.old.items) }
    ensures grounds { OnOk result (grounds.new.items ≡ grounds.old.items ++ below.old.items) }
    ensures nodes_kept { OnErr result (nodes.new.items ≡ nodes.old.items) }
    ensures grounds_kept { OnErr result (grounds.new.items ≡ grounds.old.items) }
{
    let count = grounds.len();
    grounds.append(below)?;
    if nodes.append(children).is_err() {
        grounds.truncate(count);
        return Err(AllocError);
    }
    Ok(())
}

impl Pool {
    /// Makes a child of an open leaf that has this limit too, and puts it and its region behind others.
    fn add_child(
        &self,
        node: BranchId,
        limit: Limit,
        children: &mut Vec<PoolNode>,
        grounds: &mut Vec<Ground>,
    ) -> Result<(), AllocError>
        requires leaf { IsReadyAt self.now node }
        requires limit { IsLimitOf self.now.problem limit }
        ensures { OnOk result (HasChildBehind self.now node limit children.old.items grounds.old.items children.new.items grounds.new.items) }
    {
        let (child, ground) = self.view().child_at(node, limit)?;
        children.push(child)?;
        grounds.push(ground)?;
        Ok(())
    }

    /// The children of a division of the node, and their regions.
    fn children_of(
        &self,
        node: BranchId,
        division: &Division,
    ) -> Result<(Vec<PoolNode>, Vec<Ground>), AllocError>
        requires { IsDivisionAt self.now node division.now }
        ensures { IfOk result (λ made. AreChildrenAt self.now node division.now made.0.items made.1.items) }
    {
        let mut children = Vec::new(self.state.alloc);
        let mut grounds = Vec::new(self.state.alloc);
        let left = division.by.left_limit()?;
        let right = division.by.right_limit()?;
        self.add_child(node, left, &mut children, &mut grounds)?;
        self.add_child(node, right, &mut children, &mut grounds)?;
        Ok((children, grounds))
    }

    /// Divides a node, and puts its children behind the others. On want of memory nothing changes.
    fn put_children(
        &mut self,
        node: BranchId,
        division: Division,
        children: &mut Vec<PoolNode>,
        grounds: &mut Vec<Ground>,
    ) -> Result<Examined, AllocError>
        requires division { IsDivisionAt self.old node division }
        requires children { AreChildrenAt self.old node division children.old.items grounds.old.items }
        ensures event { IfOk result (λ answer. ExamineStep self.old node (Ok answer) self.new) }
        ensures kept { OnErr result (self.new ≡ self.old) }
    {
        let left = division.left_child;
        let right = division.right_child;
        self.leaves.add(left, right)?;
        append_both(
            &mut self.state.nodes,
            &mut self.state.grounds,
            children,
            grounds,
        )?;
        let divided = &mut self.state.nodes[node.0 as usize];
        let round = divided.divide(division);
        give_back(&mut self.places, round);
        let ground = &mut self.state.grounds[node.0 as usize];
        ground.clear();
        self.leaves.remove(node);
        self.state.examined += 1;
        Ok(Examined::Divided { left, right })
    }

    /// Keeps by which loads the node is to be divided once it is examined; no part of the state. Nothing happens where there
    /// is no such node.
    pub fn advise(&mut self, node: BranchId, split: Option<LoadSplit>)
        ensures { self.new ≡ self.old }
    {
        let place = node.0 as usize;
        if place < self.state.nodes.len() {
            let advised = &mut self.state.nodes[place];
            advised.advise(split);
        }
    }

    /// How a node that may be examined is divided: by the loads that were advised, where that parts two steps there, else
    /// where two paths of the demand part.
    fn division_by(&self, node: BranchId, two: TwoPaths<'_>) -> Result<Division, AllocError>
        requires { HasTwoPaths self.now node two.demand two.first.now two.second.now }
        ensures { IfOk result (IsDivisionAt self.now node) }
    {
        let view = self.view();
        if let Some(split) = self.state.nodes[node.0 as usize].advised() {
            if let Some(division) = view.load_division_at(node, two, split) {
                return Ok(division);
            }
        }
        view.division_at(node, two)
    }

    /// Divides a node that may be examined.
    pub(super) fn divide(
        &mut self,
        node: BranchId,
        two: TwoPaths<'_>,
    ) -> Result<Examined, AllocError>
        requires { HasTwoPaths self.old node two.demand two.first.now two.second.now }
        ensures event { IfOk result (λ answer. ExamineStep self.old node (Ok answer) self.new) }
        ensures kept { OnErr result (self.new ≡ self.old) }
    {
        let division = self.division_by(node, two)?;
        let (mut children, mut grounds) = self.children_of(node, &division)?;
        self.put_children(node, division, &mut children, &mut grounds)
    }
}
