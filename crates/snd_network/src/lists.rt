//! Readers of the lists of a network text.

ghost use Rattle.std.specs.Prelude.{◌≡◌, ◌≤◌, false, length, OnOk};
ghost use Rattle.snd_reader.specs.Readers.{token};
ghost use Rattle.snd_reader.specs.Faults.{Gives};
ghost use Rattle.snd_reader.specs.Names.{is_among};
ghost use Rattle.snd_network.specs.Tests.{list_head};
ghost use Rattle.snd_network.specs.Grammar.{and_named, and_row, with_last};
ghost use Rattle.snd_network.specs.Reading.{node_turn, node_place, node_item, node_list, nodes, list_item, list_of};
ghost use Rattle.snd_network.specs.Steps.{IsNewItem, Makes};

use crate::draft::{Named, NodeItem, NodeList, Table};
use crate::file::NodeRecord;
use crate::part::Part;
use crate::readers::coordinate;
use crate::verdicts::{name_of, node_item_of};
use snd_reader::{Cursor, Name, Names, Rows, TextFault};
use std::alloc::Global;

/// The last name becomes a node of this place.
fn settle(list: &mut NodeList, place: Option<(Name, Name)>) -> Result<(), TextFault>
    ensures gives { Makes list.new result (with_last list.old place) }
{
    if let Some(name) = list.pending.take() {
        list.rows.push(NodeRecord { name, place })?;
    }
    Ok(())
}

/// A name more.
fn node_name(list: &mut NodeList, alloc: Global, name: Name) -> Result<(), TextFault>
    requires { is_among list.old.names name ≡ false }
    ensures gives { Makes list.new result (and_named list.old name) }
{
    list.names.push(alloc, name.as_slice())?;
    settle(list, None)?;
    list.pending = Some(name);
    Ok(())
}

/// The place of the last name.
#[tactic(auto, using(snd_reader::proofs::Faults::through), unfolding(crate::specs::Reading::node_place))]
fn node_place(cursor: &mut Cursor<'_>, alloc: Global, list: &mut NodeList) -> Result<(), TextFault>
    ensures gives { Gives (λ _. (list.new, cursor.new)) result (node_place list.old cursor.old) }
{
    let x = coordinate(cursor, alloc)?;
    let y = coordinate(cursor, alloc)?;
    cursor.close()?;
    settle(list, Some((x, y)))
}

/// An item of the nodes.
#[tactic(auto, unfolding(crate::specs::Reading::node_item))]
fn node_item(
    cursor: &mut Cursor<'_>,
    alloc: Global,
    list: &mut NodeList,
    item: NodeItem,
) -> Result<(), TextFault>
    requires { IsNewItem list.old.names item }
    ensures gives { Gives (λ _. (list.new, cursor.new)) result (node_item list.old item cursor.old) }
{
    match item {
        NodeItem::Name(name) => node_name(list, alloc, name),
        NodeItem::Place => node_place(cursor, alloc, list),
    }
}

/// What an item of the nodes begins with, or that the nodes end.
fn next_node(
    cursor: &mut Cursor<'_>,
    alloc: Global,
    list: &NodeList,
) -> Result<Option<NodeItem>, TextFault>
    ensures gives { Gives (λ x. (x, cursor.new)) result (token (node_turn list.now) cursor.old) }
{
    let verdict = node_item_of(alloc, list, cursor.first())?;
    cursor.judge(verdict)
}

/// The items of the nodes.
fn node_list(cursor: &mut Cursor<'_>, alloc: Global) -> Result<NodeList, TextFault>
    ensures gives { Gives (λ x. (x, cursor.new)) result (node_list cursor.old) }
{
    let mut list = NodeList {
        names: Names::new(alloc),
        rows: Rows::new(alloc),
        pending: None,
    };
    'nodes: loop {
        let Some(item) = next_node(cursor, alloc, &list)? else {
            return Ok(list);
        };
        node_item(cursor, alloc, &mut list, item)?;
    }
}

/// Nodes with different names, up to the bracket that closes them.
pub(crate) fn nodes(cursor: &mut Cursor<'_>, alloc: Global) -> Result<Table<NodeRecord>, TextFault>
    ensures gives { Gives (λ x. (x, cursor.new)) result (nodes cursor.old) }
{
    let mut list = node_list(cursor, alloc)?;
    settle(&mut list, None)?;
    Ok(Table {
        names: list.names,
        rows: list.rows,
    })
}

/// The name with which an item of a list begins, or that the list ends.
fn next_name(
    cursor: &mut Cursor<'_>,
    alloc: Global,
    names: &Names,
) -> Result<Option<Name>, TextFault>
    ensures gives { Gives (λ x. (x, cursor.new)) result (token (λ t. list_head names.now t.is) cursor.old) }
{
    let verdict = name_of(alloc, names, cursor.first())?;
    cursor.judge(verdict)
}

/// An item more, with its name.
fn push_named<T: Drop>(
    table: &mut Table<Named<T>>,
    alloc: Global,
    name: Name,
    part: T,
) -> Result<(), TextFault>
    requires { is_among table.old.names name ≡ false }
    ensures gives { Makes table.new result (and_row table.old name part) }
{
    table.names.push(alloc, name.as_slice())?;
    table.rows.push(Named { name, part })?;
    Ok(())
}

/// An item more, whose name is read.
#[tactic(auto, using(snd_reader::proofs::Faults::through), unfolding(crate::specs::Reading::list_item))]
fn list_item<P: Part>(
    cursor: &mut Cursor<'_>,
    alloc: Global,
    table: &mut Table<Named<P>>,
    name: Name,
) -> Result<(), TextFault>
    requires { is_among table.old.names name ≡ false }
    ensures gives { Gives (λ _. (table.new, cursor.new)) result (list_item P.reading table.old name cursor.old) }
    ensures shorter { OnOk result (length cursor.new ≤ length cursor.old) }
{
    let part = P::read(cursor, alloc)?;
    push_named(table, alloc, name, part)
}

/// Items with different names, up to the bracket that closes them.
pub(crate) fn list_of<P: Part>(
    cursor: &mut Cursor<'_>,
    alloc: Global,
) -> Result<Table<Named<P>>, TextFault>
    ensures gives { Gives (λ x. (x, cursor.new)) result (list_of P.reading cursor.old) }
{
    let mut table = Table {
        names: Names::new(alloc),
        rows: Rows::new(alloc),
    };
    'items: loop {
        let Some(name) = next_name(cursor, alloc, &table.names)? else {
            return Ok(table);
        };
        list_item(cursor, alloc, &mut table, name)?;
    }
}
