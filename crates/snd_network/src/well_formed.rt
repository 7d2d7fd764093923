//! Whether a text can hold a network.

ghost use Rattle.std.specs.Prelude.{◌≡◌, ◌↔◌, ◌<◌, length, map, IsTrue, All};
ghost use Rattle.snd_lexer.specs.declared.token.Dialect.TheVariants as dialects;
ghost use Rattle.snd_lexer.specs.Cutting.{is_word};
ghost use Rattle.snd_reader.specs.Names.{is_among};
ghost use Rattle.snd_network.specs.WellFormed.{IsWord, IsName, IsCoordinateWord, IsGrains, IsWhole, IsPlace, IsLimit, IsModule, IsGoodNode, IsGoodLink, IsGoodDemand, AreDifferent, node_names, link_names, demand_names, IsWellFormed};

use crate::file::{LinkRecord, NetworkFile};
use crate::limits::MAX_NAME_BYTES;
use crate::record::Record;
use crate::verdicts::checked_coordinate;
use plan_base::NodeId;
use snd_lexer::MAX_TEXT_BYTES;
use snd_reader::Name;

impl NetworkFile {
    ghost use Rattle.std.specs.Prelude.{◌↔◌, IsTrue};
    ghost use Rattle.snd_network.specs.WellFormed.{IsWellFormed};

    /// Whether a text can hold this network: names are words of 1 to 64 bytes and differ among nodes,
    /// among links and among demands; coordinates are words that spell numbers; ends are among the
    /// nodes; and each number has a value below `10^12`.
    ///
    /// - Rule: docs/FORMATS.md, "Network texts".
    /// - Time: linear, but for the names, each of which is compared with those before it. No memory.
    pub fn well_formed(&self) -> bool
        ensures { IsTrue result ↔ IsWellFormed self.now }
    {
        are_good(self) && are_different(self)
    }
}

/// Whether each record is good.
fn are_good(file: &NetworkFile) -> bool
    ensures { IsTrue result ↔ (All IsGoodNode file.now.nodes × All (IsGoodLink (length file.now.nodes)) file.now.links × All (IsGoodDemand (length file.now.nodes)) file.now.demands) }
{
    let nodes = file.nodes.as_slice();
    are_good_rows(nodes.len(), nodes)
        && are_good_rows(nodes.len(), file.links.as_slice())
        && are_good_rows(nodes.len(), file.demands.as_slice())
}

/// Whether each of these records is good in a network of so many nodes.
fn are_good_rows<T: Record>(count: usize, rows: &[T]) -> bool
    ensures { IsTrue result ↔ All (T.is_good count) rows.now }
{
    rows.iter().all(|row| row.fits(count))
}

/// Whether names of each kind differ.
fn are_different(file: &NetworkFile) -> bool
    ensures { IsTrue result ↔ (AreDifferent (node_names file.now.nodes) × AreDifferent (link_names file.now.links) × AreDifferent (demand_names file.now.demands)) }
{
    are_different_rows(file.nodes.as_slice()) && are_different_routes(file)
}

/// Whether names differ among links, and among demands.
fn are_different_routes(file: &NetworkFile) -> bool
    ensures { IsTrue result ↔ (AreDifferent (link_names file.now.links) × AreDifferent (demand_names file.now.demands)) }
{
    are_different_rows(file.links.as_slice()) && are_different_rows(file.demands.as_slice())
}

/// Whether no two of these records have the same name.
fn are_different_rows<T: Record>(rows: &[T]) -> bool
    ensures { IsTrue result ↔ AreDifferent (map T.name_of rows.now) }
{
    for (place, row) in rows.iter().enumerate() {
        if has_name(&rows[..place], row.name()) {
            return false;
        }
    }
    true
}

/// Whether one of these records has the name.
fn has_name<T: Record>(rows: &[T], name: &Name) -> bool
    ensures { result ≡ is_among (map T.name_of rows.now) name.now }
{
    rows.iter()
        .any(|row| name.as_slice() == row.name().as_slice())
}

/// Whether the byte may stand in a word.
fn is_word_byte(byte: u8) -> bool
    ensures { result ≡ is_word dialects.Network byte }
{
    byte > b' ' && byte != 127 && byte != b'#' && byte != b'(' && byte != b')'
}

/// Whether the bytes are a word.
fn is_word(bytes: &[u8]) -> bool
    ensures { IsTrue result ↔ IsWord bytes.now }
{
    !bytes.is_empty() && bytes.iter().all(|byte| is_word_byte(*byte))
}

/// Whether the bytes are a word of at most 64 bytes.
pub(crate) fn is_name(name: &Name) -> bool
    ensures { IsTrue result ↔ IsName name.now }
{
    let bytes = name.as_slice();
    is_word(bytes) && bytes.len() <= MAX_NAME_BYTES
}

/// Whether the bytes are a word that spells a number with at most one sign in front.
fn is_coordinate(word: &Name) -> bool
    ensures { IsTrue result ↔ IsCoordinateWord word.now }
{
    let bytes = word.as_slice();
    is_word(bytes) && bytes.len() <= MAX_TEXT_BYTES && checked_coordinate(bytes).is_ok()
}

/// Whether a node has no place, or two coordinates.
pub(crate) fn is_place(place: &Option<(Name, Name)>) -> bool
    ensures { IsTrue result ↔ IsPlace place.now }
{
    match place {
        Some((x, y)) => is_coordinate(x) && is_coordinate(y),
        None => true,
    }
}

/// Whether a number of millionths is below `10^12`.
pub(crate) fn is_grains(value: u64) -> bool
    ensures { IsTrue result ↔ IsGrains value }
{
    value < 1_000_000_000_000_000_000
}

/// Whether a whole number is below `10^12`.
pub(crate) fn is_whole(value: u64) -> bool
    ensures { IsTrue result ↔ IsWhole value }
{
    value < 1_000_000_000_000
}

pub(crate) fn is_limit(hops: Option<u64>) -> bool
    ensures { IsTrue result ↔ IsLimit hops }
{
    match hops {
        Some(hops) => is_whole(hops),
        None => true,
    }
}

fn is_module(pair: &(u64, u64)) -> bool
    ensures { IsTrue result ↔ IsModule pair.now }
{
    is_grains(pair.0) && is_grains(pair.1)
}

pub(crate) fn are_modules(modules: &[(u64, u64)]) -> bool
    ensures { IsTrue result ↔ All IsModule modules.now }
{
    modules.iter().all(|module| is_module(module))
}

/// Whether both ends are among so many nodes.
pub(crate) fn are_ends(count: usize, source: NodeId, target: NodeId) -> bool
    ensures { IsTrue result ↔ ((source.0 < count) × (target.0 < count)) }
{
    (source.0 as usize) < count && (target.0 as usize) < count
}

/// Whether the four numbers of a link are below `10^12`.
pub(crate) fn are_costs(link: &LinkRecord) -> bool
    ensures { IsTrue result ↔ (IsGrains link.now.pre × IsGrains link.now.pre_cost × IsGrains link.now.routing × IsGrains link.now.setup) }
{
    is_grains(link.pre)
        && is_grains(link.pre_cost)
        && is_grains(link.routing)
        && is_grains(link.setup)
}
