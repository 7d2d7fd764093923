//! The table of the evidence that there is no design.

ghost use Rattle.std.specs.Prelude.{◌≡◌, ◌<◌, ◌++◌, ◌∷◌, false, length, slice_index, slice_index_or, OnOk};
ghost use Rattle.plan_base.specs.Places.{there_of, back_of};
ghost use Rattle.plan_table.specs.Tables.{told_word, reached_words, has_price, priced_words, evidence_line, evidence_row, record_row, record_rows};

use crate::fields::{parted, push_digits, push_field};
use crate::rows::Rows;
use plan_base::{Instance, LinkId, NodeId, Prices};
use plan_report::{NamedPlan, demand_name, link_name, node_name};
use proof_tree::{Evidence, TreeNode};
use std::alloc::AllocError;

/// Writes a name behind a blank, where it is one of those that are told.
fn push_if_told(words: &mut Vec<u8>, is_told: bool, name: &[u8]) -> Result<(), AllocError>
    ensures { OnOk result (words.new.items ≡ words.old.items ++ told_word is_told name.now) }
{
    if is_told {
        words.push(b' ')?;
        return words.extend_from_slice(name);
    }
    Ok(())
}

/// Whether a node is reached.
fn is_reached(reached: &[bool], place: u32) -> bool
    ensures { result ≡ slice_index_or reached.now place false }
{
    reached.get(place as usize).copied().unwrap_or(false)
}

/// Writes the names of the nodes that are reached, each behind a blank.
#[tactic(auto, using(plan_report::proofs::Counted::counted_more))]
fn push_reached(words: &mut Vec<u8>, named: &NamedPlan, reached: &[bool]) -> Result<(), AllocError>
    ensures { OnOk result (words.new.items ≡ words.old.items ++ reached_words named.now.net reached.now named.now.parts.nodes) }
{
    for place in 0..named.inst().nodes() {
        let name = node_name(named.net(), NodeId(place));
        push_if_told(words, is_reached(reached, place), name)?;
    }
    Ok(())
}

/// The price of a place; 0 where there is none.
fn price_of(prices: &Prices, place: usize) -> u128
    ensures { result ≡ slice_index prices.now place }
{
    prices.as_slice().get(place).copied().unwrap_or(0)
}

/// Whether one of a link's places has a price.
fn has_price(inst: &Instance, prices: &Prices, id: LinkId) -> bool
    requires { id.0 < length inst.now.links }
    ensures { result ≡ has_price inst.now prices.now id.0 }
{
    inst.lawful();
    let number = id.0 as usize;
    if inst.orient().is_two_way() {
        price_of(prices, 2 * number) > 0 || price_of(prices, 2 * number + 1) > 0
    } else {
        price_of(prices, number) > 0
    }
}

/// Writes the names of the links that have a price, each behind a blank.
#[tactic(auto, using(plan_report::proofs::Counted::counted_more))]
fn push_priced(words: &mut Vec<u8>, named: &NamedPlan, prices: &Prices) -> Result<(), AllocError>
    ensures { OnOk result (words.new.items ≡ words.old.items ++ priced_words named.now.net named.now.parts prices.now (length named.now.parts.links)) }
{
    for place in 0..named.inst().links() {
        let id = LinkId(place);
        let name = link_name(named.net(), id);
        push_if_told(words, has_price(named.inst(), prices, id), name)?;
    }
    Ok(())
}

/// Writes the line of a leaf's evidence: the record's place in the tree, and what the evidence names.
fn push_line(
    text: &mut Vec<u8>,
    place: u64,
    kind: &[u8],
    demand: &[u8],
    nodes: &[u8],
    links: &[u8],
) -> Result<(), AllocError>
    ensures { OnOk result (text.new.items
        ≡ text.old.items ++ evidence_line place kind.now demand.now nodes.now links.now) }
{
    text.extend_from_slice(b"evidence,")?;
    push_digits(text, place)?;
    text.push(b',')?;
    text.extend_from_slice(kind)?;
    push_field(text, demand)?;
    push_field(text, nodes)?;
    push_field(text, links)?;
    text.push(b'\n')?;
    Ok(())
}

/// Writes the line of a record, where it is a leaf that is closed without a cost. The room for words is written over.
fn push_record(
    rows: &mut Rows,
    named: &NamedPlan,
    place: u64,
    node: &TreeNode,
) -> Result<(), AllocError>
    ensures { OnOk result (rows.new.text.items ≡ rows.old.text.items ++ evidence_row named.now.net named.now.parts place node.now) }
{
    let Rows { text, words } = rows;
    words.clear();
    match node {
        TreeNode::Leaf(Evidence::Overfull { link }) => {
            let name = link_name(named.net(), *link);
            push_line(text, place, b"OVERFULL", b"", b"", name)
        }
        TreeNode::Leaf(Evidence::Cut { demand, reached }) => {
            push_reached(words, named, reached.as_slice())?;
            let name = demand_name(named.net(), *demand);
            push_line(text, place, b"CUT", name, parted(words.as_slice()), b"")
        }
        TreeNode::Leaf(Evidence::Far { demand }) => {
            let name = demand_name(named.net(), *demand);
            push_line(text, place, b"FAR", name, b"", b"")
        }
        TreeNode::Leaf(Evidence::Crowd(prices)) => {
            push_priced(words, named, prices)?;
            push_line(text, place, b"CROWD", b"", b"", parted(words.as_slice()))
        }
        _ => Ok(()),
    }
}

/// Writes the line of the record at this place.
#[tactic(auto, unfolding(crate::specs::Tables::record_row))]
fn push_record_at(rows: &mut Rows, named: &NamedPlan, place: usize) -> Result<(), AllocError>
    requires { place < length named.now.plan.tree }
    ensures { OnOk result (rows.new.text.items ≡ rows.old.text.items ++ record_row named.now.net named.now.parts named.now.plan.tree place) }
{
    let node = &named.plan().tree.nodes()[place];
    push_record(rows, named, place as u64, node)
}

/// Writes the lines of the records.
#[tactic(auto, using(plan_report::proofs::Counted::counted_more))]
pub fn push_records(rows: &mut Rows, named: &NamedPlan) -> Result<(), AllocError>
    ensures { OnOk result (rows.new.text.items
        ≡ rows.old.text.items ++ record_rows named.now.net named.now.parts named.now.plan.tree (length named.now.plan.tree)) }
{
    for place in 0..named.plan().tree.nodes().len() {
        push_record_at(rows, named, place)?;
    }
    Ok(())
}
