//! Writing a network as its canonical text.

ghost use Rattle.std.specs.Prelude.{◌≡◌, ◌<◌, ◌++◌, ◌∷◌, [], length, flat_map, OnOk, IfOk, All};
ghost use Rattle.snd_reader.specs.Readers.{open_bracket, close_bracket};
ghost use Rattle.snd_reader.specs.Writing.{spaced, line_of, grains, section_text};
ghost use Rattle.snd_network.specs.Spelling.{SpellsNetwork};
ghost use Rattle.snd_network.specs.WellFormed.{IsWellFormed};
ghost use Rattle.snd_network.specs.Writing.{place_tokens, end_token, module_tokens, limit_token, network_text};

use crate::file::{LinkRecord, NetworkFile, NodeRecord};
use crate::laws::written_is_spelt;
use crate::record::Record;
use plan_base::NodeId;
use snd_reader::{Name, push_close, push_grains, push_open, push_whole, push_word};
use std::alloc::{AllocError, Global};

/// The canonical text of a network.
///
/// - Takes: a network that is `well_formed`.
/// - Gives: the header line; then nodes, links and demands, a line for each record.
/// - Errors: want of memory alone.
/// - Rule: docs/FORMATS.md, "Network texts".
/// - Time: linear in the text.
pub fn write_network(alloc: Global, file: &NetworkFile) -> Result<Vec<u8>, AllocError>
    requires { IsWellFormed file.now }
    ensures text { IfOk result (λ text. text.items ≡ network_text file.now) }
    // It spells the network.
    ensures spelt { IfOk result (λ text. SpellsNetwork text.items file.now) }
{
    let text = canonical_text(alloc, file)?;
    written_is_spelt();
    Ok(text)
}

/// The header line and the sections.
#[tactic(auto, unfolding(crate::specs::Writing::network_text))]
fn canonical_text(alloc: Global, file: &NetworkFile) -> Result<Vec<u8>, AllocError>
    requires { IsWellFormed file.now }
    ensures { IfOk result (λ text. text.items ≡ network_text file.now) }
{
    let nodes = file.nodes.as_slice();
    let header = b"?SNDlib native format; type: network; version: 1.0\n";
    let mut text = Vec::from_slice(alloc, header)?;
    push_section(&mut text, b"NODES", nodes, nodes)?;
    push_section(&mut text, b"LINKS", nodes, file.links.as_slice())?;
    push_section(&mut text, b"DEMANDS", nodes, file.demands.as_slice())?;
    Ok(text)
}

/// Writes the section of this name.
fn push_section<T: Record>(
    text: &mut Vec<u8>,
    name: &[u8],
    nodes: &[NodeRecord],
    rows: &[T],
) -> Result<(), AllocError>
    requires { All (T.is_good (length nodes.now)) rows.now }
    ensures { OnOk result (text.new.items ≡ text.old.items ++ section_text name.now (flat_map (λ row. line_of (T.tokens nodes.now row)) rows.now)) }
{
    text.extend_from_slice(name)?;
    text.extend_from_slice(b" (\n")?;
    push_lines(text, nodes, rows)?;
    text.extend_from_slice(b")\n")
}

/// Writes the lines of records.
fn push_lines<T: Record>(
    text: &mut Vec<u8>,
    nodes: &[NodeRecord],
    rows: &[T],
) -> Result<(), AllocError>
    requires { All (T.is_good (length nodes.now)) rows.now }
    ensures { OnOk result (text.new.items ≡ text.old.items ++ flat_map (λ row. line_of (T.tokens nodes.now row)) rows.now) }
{
    for row in rows {
        push_line(text, nodes, row)?;
    }
    Ok(())
}

/// Writes the line of a record.
fn push_line<T: Record>(text: &mut Vec<u8>, nodes: &[NodeRecord], row: &T) -> Result<(), AllocError>
    requires { T.is_good (length nodes.now) row.now }
    ensures { OnOk result (text.new.items ≡ text.old.items ++ line_of (T.tokens nodes.now row.now)) }
{
    text.push(b' ')?;
    row.push_tokens(text, nodes)?;
    text.push(b'\n')?;
    Ok(())
}

/// Writes a space and the name of a node.
fn push_end(text: &mut Vec<u8>, nodes: &[NodeRecord], node: NodeId) -> Result<(), AllocError>
    requires { node.0 < length nodes.now }
    ensures { OnOk result (text.new.items ≡ text.old.items ++ spaced (end_token nodes.now node ∷ [])) }
{
    push_word(text, nodes[node.0 as usize].name.as_slice())
}

/// Writes the two ends in brackets.
pub(crate) fn push_ends(
    text: &mut Vec<u8>,
    nodes: &[NodeRecord],
    source: NodeId,
    target: NodeId,
) -> Result<(), AllocError>
    requires source { source.0 < length nodes.now }
    requires target { target.0 < length nodes.now }
    ensures { OnOk result (text.new.items
        ≡ text.old.items ++ spaced (open_bracket ∷ end_token nodes.now source ∷ end_token nodes.now target ∷ close_bracket ∷ [])) }
{
    push_open(text)?;
    push_end(text, nodes, source)?;
    push_end(text, nodes, target)?;
    push_close(text)
}

/// Writes the place of a node, if it has one.
pub(crate) fn push_place(text: &mut Vec<u8>, place: &Option<(Name, Name)>) -> Result<(), AllocError>
    ensures { OnOk result (text.new.items ≡ text.old.items ++ spaced (place_tokens place.now)) }
{
    let Some((x, y)) = place else {
        return Ok(());
    };
    push_open(text)?;
    push_word(text, x.as_slice())?;
    push_word(text, y.as_slice())?;
    push_close(text)
}

/// Writes the four numbers of a link.
pub(crate) fn push_costs(text: &mut Vec<u8>, link: &LinkRecord) -> Result<(), AllocError>
    ensures { OnOk result (text.new.items ≡ text.old.items ++ spaced
        (grains link.now.pre ∷ grains link.now.pre_cost ∷ grains link.now.routing ∷ grains link.now.setup ∷ [])) }
{
    push_grains(text, link.pre)?;
    push_grains(text, link.pre_cost)?;
    push_grains(text, link.routing)?;
    push_grains(text, link.setup)
}

/// Writes the capacity and the cost of a module.
fn push_module(text: &mut Vec<u8>, pair: &(u64, u64)) -> Result<(), AllocError>
    ensures { OnOk result (text.new.items ≡ text.old.items ++ spaced (grains pair.now.0 ∷ grains pair.now.1 ∷ [])) }
{
    push_grains(text, pair.0)?;
    push_grains(text, pair.1)
}

/// Writes the capacities and costs of modules.
#[tactic(auto, using(snd_reader::proofs::WrittenLists::tokens_more))]
fn push_pairs(text: &mut Vec<u8>, modules: &[(u64, u64)]) -> Result<(), AllocError>
    ensures { OnOk result (text.new.items ≡ text.old.items ++ spaced (module_tokens modules.now)) }
{
    for pair in modules {
        push_module(text, pair)?;
    }
    Ok(())
}

/// Writes the modules of a link in brackets.
#[tactic(auto, using(snd_reader::proofs::WrittenLists::bracketed))]
pub(crate) fn push_modules(text: &mut Vec<u8>, modules: &[(u64, u64)]) -> Result<(), AllocError>
    ensures { OnOk result (text.new.items
        ≡ text.old.items ++ spaced (open_bracket ∷ (module_tokens modules.now ++ close_bracket ∷ []))) }
{
    push_open(text)?;
    push_pairs(text, modules)?;
    push_close(text)?;
    Ok(())
}

/// Writes a hop limit, or the word for none.
pub(crate) fn push_limit(text: &mut Vec<u8>, hops: Option<u64>) -> Result<(), AllocError>
    ensures { OnOk result (text.new.items ≡ text.old.items ++ spaced (limit_token hops ∷ [])) }
{
    match hops {
        Some(hops) => push_whole(text, hops),
        None => push_word(text, b"UNLIMITED"),
    }
}
