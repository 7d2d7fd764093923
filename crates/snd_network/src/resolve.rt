//! Looking up the ends of links and demands among the nodes.

ghost use Rattle.std.specs.Prelude.{◌≡◌, ◌<◌, ◌^◌, length, true, None, IfOk, IfErr};
ghost use Rattle.snd_network.specs.Tests.{is_complete};
ghost use Rattle.snd_network.specs.Ends.{AreAllOf, IsFileOf, names_of, ends_of, all_ends, first_unknown};
ghost use Rattle.snd_network.specs.Steps.{IsUnknown};

use crate::draft::{Draft, Named};
use crate::file::NetworkFile;
use crate::part::Part;
use plan_base::Items;
use snd_reader::{Names, TextFault};
use std::alloc::Global;

/// The items with the numbers of their nodes.
fn find_all<P: Part>(
    alloc: Global,
    names: &Names,
    items: Vec<Named<P>>,
) -> Result<Items<P::Found>, TextFault>
    requires { length names.now < 2 ^ 32 }
    ensures found { IfOk result (λ found. AreAllOf (P.is_found names.now) items.items found) }
    ensures known { IfOk result (λ _. first_unknown names.now (ends_of P.ends items.items) ≡ None) }
    ensures unknown { IfErr result (IsUnknown names.now (ends_of P.ends items.items)) }
{
    let mut found = Vec::new(alloc);
    for item in items {
        let record = P::find(names, item)?;
        found.push(record)?;
    }
    Ok(Items::from_vec(found))
}

/// The network of the sections.
pub(crate) fn file_of(alloc: Global, draft: Draft) -> Result<NetworkFile, TextFault>
    requires complete { is_complete draft ≡ true }
    requires few { length (names_of draft.nodes) < 2 ^ 32 }
    ensures found { IfOk result (IsFileOf draft) }
    ensures unknown { IfErr result (IsUnknown (names_of draft.nodes) (all_ends draft)) }
{
    let (Some(nodes), Some(links), Some(demands)) = (draft.nodes, draft.links, draft.demands) else {
        unreachable!()
    };
    let links = find_all(alloc, &nodes.names, links.rows.into_vec())?;
    let demands = find_all(alloc, &nodes.names, demands.rows.into_vec())?;
    Ok(NetworkFile {
        nodes: Items::from_vec(nodes.rows.into_vec()),
        links,
        demands,
    })
}
