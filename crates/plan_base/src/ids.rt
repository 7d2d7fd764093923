//! Numbers of nodes, links, demands, arcs and search nodes. Each counts from 0, in the order of the input.

ghost use Rattle.std.specs.Prelude.{◌≡◌};
ghost use Rattle.plan_base.specs.Arcs.{link_of};

/// The number of a node.
#[derive(Clone, Copy, Debug, PartialEq, Eq, PartialOrd, Ord, Hash)]
pub struct NodeId(pub u32);

/// The number of a link.
#[derive(Clone, Copy, Debug, PartialEq, Eq, PartialOrd, Ord, Hash)]
pub struct LinkId(pub u32);

/// The number of a demand.
#[derive(Clone, Copy, Debug, PartialEq, Eq, PartialOrd, Ord, Hash)]
pub struct DemandId(pub u32);

/// The number of an arc: link `e` gives arc `2e` from source to target and, where links may be used against
/// their direction, arc `2e + 1` back.
#[derive(Clone, Copy, Debug, PartialEq, Eq, PartialOrd, Ord, Hash)]
pub struct ArcId(pub u32);

impl ArcId {
    /// The link that the arc goes along.
    ///
    /// - Rule: docs/DEFINITIONS.md, "Arcs".
    pub fn link(self) -> LinkId
        ensures { result.0 ≡ link_of self }
    {
        LinkId(self.0 / 2)
    }
}

/// The number of a node of the search, the root being 0.
#[derive(Clone, Copy, Debug, PartialEq, Eq, PartialOrd, Ord, Hash)]
pub struct BranchId(pub u32);
