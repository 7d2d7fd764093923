//! What a search knows of a way.

ghost use Rattle.std.specs.Prelude.{◌≡◌};
ghost use Rattle.limited_path.specs.Labels.{first_label_of};

use plan_base::{ArcId, NodeId};

/// A way from the source to a node.
#[derive(Clone, Copy, Debug)]
pub struct Label {
    pub node: NodeId,
    /// The sum of its weights.
    pub length: u128,
    /// How many arcs it has.
    pub steps: u32,
    /// Its last arc, where it has one.
    pub via: ArcId,
    /// The place of the label that it goes on from along that arc.
    pub parent: usize,
}

/// The label of the source.
pub fn first_label(source: NodeId) -> Label
    ensures { result ≡ first_label_of source }
{
    Label {
        node: source,
        length: 0,
        steps: 0,
        via: ArcId(0),
        parent: 0,
    }
}
