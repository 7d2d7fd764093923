//! What nodes, links and demands have in common: a name, what a text can hold, and how they are written.

ghost use Rattle.std.specs.Prelude.{◌≡◌, ◌↔◌, ◌++◌, ℕ, List, length, OnOk, IsTrue};
ghost use Rattle.snd_reader.specs.Readers.{Lexeme};
ghost use Rattle.snd_reader.specs.Writing.{spaced};
ghost use Rattle.snd_network.specs.declared.file.NodeRecord.{NodeRecord as Node};

use crate::file::{DemandRecord, LinkRecord, NodeRecord};
use crate::well_formed::{
    are_costs, are_ends, are_modules, is_grains, is_limit, is_name, is_place, is_whole,
};
use crate::writing::{push_costs, push_ends, push_limit, push_modules, push_place};
use snd_reader::{Name, push_grains, push_whole, push_word};
use std::alloc::AllocError;

/// A record of a section, with its name.
pub(crate) trait Record {
    /// Its name.
    ghost name_of: { Self → List ℕ };

    /// A text can hold it in a network of so many nodes.
    ghost is_good: { ℕ → Self → Type 0 };

    /// The tokens of its line, in a network of these nodes.
    ghost tokens: { List Node → Self → List Lexeme };

    fn name(&self) -> &Name
        ensures { result.now ≡ name_of self.now };

    /// Whether a text can hold it in a network of so many nodes.
    fn fits(&self, count: usize) -> bool
        ensures { IsTrue result ↔ is_good count self.now };

    /// Writes its tokens.
    fn push_tokens(&self, text: &mut Vec<u8>, nodes: &[NodeRecord]) -> Result<(), AllocError>
        requires { is_good (length nodes.now) self.now }
        ensures { OnOk result (text.new.items ≡ text.old.items ++ spaced (tokens nodes.now self.now)) };
}

impl Record for NodeRecord {
    ghost use Rattle.snd_network.specs.WellFormed.{IsGoodNode};
    ghost use Rattle.snd_network.specs.Writing.{node_tokens};

    ghost name_of = { λ n. n.name };

    ghost is_good = { λ _ n. IsGoodNode n };

    ghost tokens = { λ _ n. node_tokens n };

    fn name(&self) -> &Name {
        &self.name
    }

    fn fits(&self, _count: usize) -> bool {
        is_name(&self.name) && is_place(&self.place)
    }

    fn push_tokens(&self, text: &mut Vec<u8>, _nodes: &[NodeRecord]) -> Result<(), AllocError> {
        push_word(text, self.name.as_slice())?;
        push_place(text, &self.place)
    }
}

impl Record for LinkRecord {
    ghost use Rattle.snd_network.specs.WellFormed.{IsGoodLink};
    ghost use Rattle.snd_network.specs.Writing.{link_tokens};

    ghost name_of = { λ l. l.name };

    ghost is_good = { IsGoodLink };

    ghost tokens = { link_tokens };

    fn name(&self) -> &Name {
        &self.name
    }

    fn fits(&self, count: usize) -> bool {
        is_name(&self.name)
            && are_ends(count, self.source, self.target)
            && are_costs(self)
            && are_modules(self.modules.as_slice())
    }

    fn push_tokens(&self, text: &mut Vec<u8>, nodes: &[NodeRecord]) -> Result<(), AllocError> {
        push_word(text, self.name.as_slice())?;
        push_ends(text, nodes, self.source, self.target)?;
        push_costs(text, self)?;
        push_modules(text, self.modules.as_slice())
    }
}

impl Record for DemandRecord {
    ghost use Rattle.snd_network.specs.WellFormed.{IsGoodDemand};
    ghost use Rattle.snd_network.specs.Writing.{demand_tokens};

    ghost name_of = { λ d. d.name };

    ghost is_good = { IsGoodDemand };

    ghost tokens = { demand_tokens };

    fn name(&self) -> &Name {
        &self.name
    }

    fn fits(&self, count: usize) -> bool {
        is_name(&self.name)
            && are_ends(count, self.source, self.target)
            && is_whole(self.unit)
            && is_grains(self.value)
            && is_limit(self.hops)
    }

    fn push_tokens(&self, text: &mut Vec<u8>, nodes: &[NodeRecord]) -> Result<(), AllocError> {
        push_word(text, self.name.as_slice())?;
        push_ends(text, nodes, self.source, self.target)?;
        push_whole(text, self.unit)?;
        push_grains(text, self.value)?;
        push_limit(text, self.hops)
    }
}
