//! Sets of nodes as bits.

ghost use Rattle.std.specs.Prelude.{◌<◌, IfSome};

/// How many words the bits of a set take.
const WORDS: usize = 8;

/// The numbers of nodes of a set are below it.
pub const NODE_BOUND: u32 = 512;

/// A set of nodes, by one bit for each.
#[derive(Clone, Copy, Debug, PartialEq, Eq, Hash)]
pub struct NodeSet {
    words: [u64; WORDS],
}

impl NodeSet {
    /// No node.
    pub fn empty() -> NodeSet {
        NodeSet { words: [0; WORDS] }
    }

    /// The set with this node.
    pub fn with(self, node: u32) -> NodeSet
        requires { node < NODE_BOUND }
    {
        let mut words = self.words;
        words[(node / 64) as usize] |= 1 << (node % 64);
        NodeSet { words }
    }

    /// Whether the set holds the node.
    pub fn holds(self, node: u32) -> bool
        requires { node < NODE_BOUND }
    {
        self.words[(node / 64) as usize] >> (node % 64) & 1 == 1
    }

    /// The nodes of either set.
    pub fn or(self, other: NodeSet) -> NodeSet {
        let mut words = self.words;
        for place in 0..WORDS {
            words[place] |= other.words[place];
        }
        NodeSet { words }
    }

    /// The nodes of both sets.
    pub fn and(self, other: NodeSet) -> NodeSet {
        let mut words = self.words;
        for place in 0..WORDS {
            words[place] &= other.words[place];
        }
        NodeSet { words }
    }

    /// The nodes of this set that are not in the other.
    pub fn without(self, other: NodeSet) -> NodeSet {
        let mut words = self.words;
        for place in 0..WORDS {
            words[place] &= !other.words[place];
        }
        NodeSet { words }
    }

    /// The first node.
    pub fn first(self) -> Option<u32>
        ensures { IfSome result (λ node. node < NODE_BOUND) }
    {
        for place in 0..WORDS {
            let word = self.words[place];
            if word != 0 {
                return Some(64 * place as u32 + word.trailing_zeros());
            }
        }
        None
    }

    /// How many nodes there are.
    pub fn count(self) -> u32 {
        let mut count: u32 = 0;
        for place in 0..WORDS {
            count = count.saturating_add(self.words[place].count_ones());
        }
        count
    }
}
