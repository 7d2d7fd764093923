//! Names, and names numbered in the order of the text.

ghost use Rattle.std.specs.Prelude.{◌≡◌, ◌++◌, ◌∷◌, [], List, length, map, IfOk, false};
ghost use Rattle.snd_reader.specs.Names.{is_among, number_of};

use indexmap::IndexSet;
use std::alloc::{AllocError, Global};
use std::marker::Model;

/// A name, or another word that is kept as it is written: its bytes.
#[derive(Debug, Drop)]
pub struct Name {
    bytes: Vec<u8>,
}

impl Model for Name {
    ghost use Rattle.std.specs.Prelude.{List, ℕ};

    ghost Value = { List ℕ };

    ghost view = { λ n. n.bytes.items };
}

impl Name {
    /// These bytes. Takes no memory.
    pub fn from_vec(bytes: Vec<u8>) -> Self
        ensures { result ≡ bytes.items }
    {
        Name { bytes }
    }

    /// A copy of these bytes.
    ///
    /// - Errors: want of memory alone.
    pub fn from_slice(alloc: Global, bytes: &[u8]) -> Result<Name, AllocError>
        ensures { IfOk result (λ name. name ≡ bytes.now) }
    {
        Ok(Name {
            bytes: Vec::from_slice(alloc, bytes)?,
        })
    }

    /// The bytes.
    pub fn as_slice(&self) -> &[u8]
        ensures value { result.now ≡ self.now }
        ensures len { length result.now ≡ length self.now }
    {
        self.bytes.as_slice()
    }

    /// The bytes, and their room.
    pub fn into_vec(self) -> Vec<u8>
        ensures { result.items ≡ self }
    {
        self.bytes
    }
}

/// Different names, in the order of the text.
#[derive(Drop)]
pub struct Names {
    names: IndexSet<Vec<u8>>,
}

impl Model for Names {
    ghost use Rattle.std.specs.Prelude.{List, ℕ, map};
    ghost use Rattle.indexmap.specs.IndexSet.{keys};

    ghost Value = { List (List ℕ) };

    ghost view = { λ a. map (λ n. n.items) (keys a.names) };
}

impl Names {
    ghost use Rattle.std.specs.Prelude.{◌≡◌, ◌<◌, ◌++◌, ◌∷◌, [], List, length, IfOk, IfSome, false};
    ghost use Rattle.snd_reader.specs.Names.{is_among, number_of};

    /// No names.
    pub fn new(alloc: Global) -> Self
        ensures { result ≡ [] }
    {
        Names {
            names: IndexSet::new(alloc),
        }
    }

    /// Whether this is one of the names.
    #[tactic(auto, using(crate::proofs::NameSets::any_viewed))]
    pub fn contains(&self, name: &[u8]) -> bool
        ensures { result ≡ is_among self.now name.now }
    {
        self.names.get_index_of(name).is_some()
    }

    /// The number of this name among the names, from 0 on.
    #[tactic(auto, using(crate::proofs::NameSets::position_viewed))]
    pub fn number_of(&self, name: &[u8]) -> Option<usize>
        ensures number { result ≡ number_of self.now name.now }
        ensures within { IfSome result (λ number. number < length self.now) }
    {
        self.names.get_index_of(name)
    }

    /// One name more, which is none of the names yet.
    pub fn push(&mut self, alloc: Global, name: &[u8]) -> Result<(), AllocError>
        requires { is_among self.old name.now ≡ false }
        ensures { IfOk result (λ _. self.new ≡ self.old ++ name.now ∷ []) }
    {
        self.names.insert_full(Vec::from_slice(alloc, name)?)?;
        Ok(())
    }
}
