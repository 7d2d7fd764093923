//! The version that would follow in the round of a node.

/// The version that further prices would have in the round of a node. Who has it need not have the prices valued again to
/// publish them.
#[derive(Clone, Copy, Debug, PartialEq, Eq)]
pub struct Following {
    /// The slot of the round.
    pub slot: u32,
    /// The version.
    pub version: u64,
    /// Whether the node's crowd prices were tried then.
    pub crowd_tried: bool,
}
