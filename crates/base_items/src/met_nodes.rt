//! The nodes that a walk has met.

ghost use Rattle.std.specs.Prelude.{ℕ, ◌≡◌, ◌<◌, ◌||◌, ◌==◌, false};
ghost use Rattle.base_items.specs.Met.{is_met};

use std::marker::Model;

/// The numbers of nodes are below it.
pub const NODE_BOUND: u32 = 512;

/// The nodes that one walk after another has met, by their numbers: those that have the stamp of the walk.
///
/// A new walk takes a new stamp, so that nothing has to be cleared until the stamps run out.
#[derive(Drop)]
pub struct MetNodes {
    stamps: [u8; 512],
    stamp: u8,
}

impl Model for MetNodes {
    ghost use Rattle.base_items.specs.Met.{Stamps, AreKept};

    ghost Value = { Stamps };

    ghost view = { λ a. record { stamps = a.stamps; stamp = a.stamp } };

    ghost invariant = { λ a. AreKept a.stamps a.stamp };
}

impl MetNodes {
    /// No walk yet: no node is met.
    pub fn new() -> MetNodes
        ensures { (n : ℕ) → is_met result n ≡ false }
    {
        MetNodes {
            stamps: [0; 512],
            stamp: 1,
        }
    }

    /// A new walk, which has met its first node alone.
    pub fn begin(&mut self, source: u32)
        requires { source < NODE_BOUND }
        ensures { (n : ℕ) → is_met self.new n ≡ (source == n) }
    {
        self.forget();
        self.add(source);
    }

    /// The walk has met this node too.
    #[tactic(auto, using(crate::proofs::MetLaws::met_laws))]
    pub fn add(&mut self, node: u32)
        requires { node < NODE_BOUND }
        ensures { (n : ℕ) → is_met self.new n ≡ (is_met self.old n || (node == n)) }
    {
        self.stamps[node as usize] = self.stamp;
    }

    /// Whether the walk has met the node.
    pub fn has(&self, node: u32) -> bool
        requires { node < NODE_BOUND }
        ensures { result ≡ is_met self.now node }
    {
        self.stamps[node as usize] == self.stamp
    }

    /// No node is met any more.
    #[tactic(auto, using(crate::proofs::MetLaws::met_laws))]
    fn forget(&mut self)
        ensures { (n : ℕ) → is_met self.new n ≡ false }
    {
        if self.stamp == u8::MAX {
            *self = MetNodes::new();
        } else {
            self.stamp += 1;
        }
    }
}
