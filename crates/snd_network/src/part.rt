//! What links and demands have in common as they are read: parts behind a name, and two ends that are names of nodes.

ghost use Rattle.std.specs.Prelude.{◌≡◌, ◌∷◌, [], ◌<◌, ◌≤◌, ◌^◌, ℕ, List, length, None, OnOk, IfOk, IfErr};
ghost use Rattle.snd_reader.specs.Readers.{Reader};
ghost use Rattle.snd_reader.specs.Faults.{Gives};
ghost use Rattle.snd_network.specs.declared.draft.End.{End};
ghost use Rattle.snd_network.specs.declared.draft.Named.{Named};
ghost use Rattle.snd_network.specs.Ends.{IsNode, ends_of, first_unknown};
ghost use Rattle.snd_network.specs.Steps.{IsUnknown};

use crate::draft::{DemandDraft, End, LinkDraft, Named};
use crate::file::{DemandRecord, LinkRecord};
use crate::readers::{demand, link};
use plan_base::NodeId;
use snd_reader::{Cursor, Names, TextFault};
use std::alloc::Global;

/// What stands behind the name of a link or a demand.
pub(crate) trait Part: Drop {
    /// The whole item, with the numbers of its nodes.
    type Found: Drop;

    /// How it is read.
    ghost reading: { Reader Self };

    /// Its source and its target.
    ghost ends: { Self → End × End };

    /// The item, with the numbers of its nodes among these names.
    ghost is_found: { List (List ℕ) → Named Self → Self.Found → Type 0 };

    /// Reads it.
    fn read(cursor: &mut Cursor<'_>, alloc: Global) -> Result<Self, TextFault>
        ensures gives { Gives (λ x. (x, cursor.new)) result (reading cursor.old) }
        ensures shorter { OnOk result (length cursor.new ≤ length cursor.old) };

    /// The item with the numbers of its nodes.
    fn find(names: &Names, item: Named<Self>) -> Result<Self::Found, TextFault>
        requires { length names.now < 2 ^ 32 }
        ensures found { IfOk result (λ found. is_found names.now item found) }
        ensures known { IfOk result (λ _. first_unknown names.now (ends_of ends (item ∷ [])) ≡ None) }
        ensures unknown { IfErr result (IsUnknown names.now (ends_of ends (item ∷ []))) };
}

impl Part for LinkDraft {
    ghost use Rattle.snd_network.specs.Reading.{link};
    ghost use Rattle.snd_network.specs.Ends.{IsLinkOf, link_ends};

    type Found = LinkRecord;

    ghost reading = { link };

    ghost ends = { link_ends };

    ghost is_found = { IsLinkOf };

    #[tactic(auto, using(crate::proofs::Parts::link_shorter))]
    fn read(cursor: &mut Cursor<'_>, alloc: Global) -> Result<LinkDraft, TextFault> {
        link(cursor, alloc)
    }

    fn find(names: &Names, item: Named<LinkDraft>) -> Result<LinkRecord, TextFault>
        requires { length names.now < 2 ^ 32 }
        ensures found { IfOk result (λ found. IsLinkOf names.now item found) }
        ensures known { IfOk result (λ _. first_unknown names.now (ends_of link_ends (item ∷ [])) ≡ None) }
        ensures unknown { IfErr result (IsUnknown names.now (ends_of link_ends (item ∷ []))) }
    {
        let part = item.part;
        Ok(LinkRecord {
            name: item.name,
            source: node_of(names, &part.source)?,
            target: node_of(names, &part.target)?,
            pre: part.pre,
            pre_cost: part.pre_cost,
            routing: part.routing,
            setup: part.setup,
            modules: part.modules,
        })
    }
}

impl Part for DemandDraft {
    ghost use Rattle.snd_network.specs.Reading.{demand};
    ghost use Rattle.snd_network.specs.Ends.{IsDemandOf, demand_ends};

    type Found = DemandRecord;

    ghost reading = { demand };

    ghost ends = { demand_ends };

    ghost is_found = { IsDemandOf };

    #[tactic(auto, using(crate::proofs::Parts::demand_shorter))]
    fn read(cursor: &mut Cursor<'_>, alloc: Global) -> Result<DemandDraft, TextFault> {
        demand(cursor, alloc)
    }

    fn find(names: &Names, item: Named<DemandDraft>) -> Result<DemandRecord, TextFault>
        requires { length names.now < 2 ^ 32 }
        ensures found { IfOk result (λ found. IsDemandOf names.now item found) }
        ensures known { IfOk result (λ _. first_unknown names.now (ends_of demand_ends (item ∷ [])) ≡ None) }
        ensures unknown { IfErr result (IsUnknown names.now (ends_of demand_ends (item ∷ []))) }
    {
        let part = item.part;
        Ok(DemandRecord {
            name: item.name,
            source: node_of(names, &part.source)?,
            target: node_of(names, &part.target)?,
            unit: part.unit,
            value: part.value,
            hops: part.hops,
        })
    }
}

/// The number of the node of this name.
fn node_of(names: &Names, end: &End) -> Result<NodeId, TextFault>
    requires { length names.now < 2 ^ 32 }
    ensures found { IfOk result (λ node. IsNode names.now end.now node) }
    ensures unknown { IfErr result (IsUnknown names.now (end.now ∷ [])) }
{
    match names.number_of(end.name.as_slice()) {
        Some(number) => Ok(NodeId(number as u32)),
        None => Err(TextFault::Unknown { at: end.at }),
    }
}
