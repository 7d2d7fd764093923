//! Networks as they are read, before the ends of links and demands are looked up.

use crate::file::NodeRecord;
use plan_base::Items;
use snd_reader::{Name, Names, Rows};

/// The end of a link or demand: the place of its name in the text, and the name.
#[derive(Drop)]
pub struct End {
    pub at: u32,
    pub name: Name,
}

/// An item with its name.
#[derive(Drop)]
pub struct Named<T> {
    pub name: Name,
    pub part: T,
}

/// A link behind its name, whose ends are not looked up yet.
#[derive(Drop)]
pub struct LinkDraft {
    pub source: End,
    pub target: End,
    pub pre: u64,
    pub pre_cost: u64,
    pub routing: u64,
    pub setup: u64,
    pub modules: Items<(u64, u64)>,
}

/// A demand behind its name, whose ends are not looked up yet.
#[derive(Drop)]
pub struct DemandDraft {
    pub source: End,
    pub target: End,
    pub unit: u64,
    pub value: u64,
    pub hops: Option<u64>,
}

/// What an item of the nodes begins with: a name, or the bracket before a place.
#[derive(Drop)]
pub enum NodeItem {
    Name(Name),
    Place,
}

/// The nodes so far. The last name waits for a place that may stand behind it.
#[derive(Drop)]
pub struct NodeList {
    pub names: Names,
    pub rows: Rows<NodeRecord>,
    pub pending: Option<Name>,
}

/// Items with different names.
#[derive(Drop)]
pub struct Table<T> {
    pub names: Names,
    pub rows: Rows<T>,
}

/// A section of a network text.
#[derive(Clone, Copy)]
pub enum Section {
    Nodes,
    Links,
    Demands,
    Meta,
    Paths,
}

/// The sections so far.
#[derive(Drop)]
pub struct Draft {
    pub nodes: Option<Table<NodeRecord>>,
    pub links: Option<Table<Named<LinkDraft>>>,
    pub demands: Option<Table<Named<DemandDraft>>>,
    pub has_meta: bool,
    pub has_paths: bool,
}
