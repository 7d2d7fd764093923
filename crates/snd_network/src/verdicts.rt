//! What single tokens stand for, or what is wrong with them.

ghost use Rattle.std.specs.Prelude.{◌≡◌, ◌≤◌, length, IfOk};
ghost use Rattle.snd_lexer.specs.declared.limits.TheConstants.{MAX_TEXT_BYTES};
ghost use Rattle.scaled_numbers.specs.Scanning.{decimal_of};
ghost use Rattle.snd_reader.specs.Seen.{seen, IsShort};
ghost use Rattle.snd_network.specs.Names.{checked_length, checked_name};
ghost use Rattle.snd_network.specs.Tests.{end_at, list_head, node_head, module_head, sized, checked_coordinate, coordinate_test, hops_test, section_named, has_section, is_complete, section_head};

use crate::draft::{Draft, End, NodeItem, NodeList, Section};
use crate::limits::MAX_NAME_BYTES;
use scaled_numbers::{NumberFault, read_decimal};
use snd_reader::{Complaint, Lexeme, Name, Names, Wanted};
use std::alloc::{AllocError, Global};

/// Whether a name is not too long.
fn checked_length(name: &[u8]) -> Result<(), Complaint>
    ensures { result ≡ checked_length name.now }
{
    if name.len() > MAX_NAME_BYTES {
        return Err(Complaint::LongId);
    }
    Ok(())
}

/// Whether a name is not too long, and is none of these names.
fn checked_name(names: &Names, name: &[u8]) -> Result<(), Complaint>
    ensures { result ≡ checked_name names.now name.now }
{
    checked_length(name)?;
    if names.contains(name) {
        return Err(Complaint::Twice);
    }
    Ok(())
}

/// The end of a link or demand.
pub(crate) fn end_of(
    alloc: Global,
    at: u32,
    lexeme: Lexeme<'_>,
) -> Result<Result<End, Complaint>, AllocError>
    ensures { IfOk result (λ verdict. verdict ≡ end_at at (seen lexeme.entry)) }
{
    match lexeme {
        Lexeme::Word(bytes) => match checked_length(bytes) {
            Ok(()) => {
                let name = Name::from_slice(alloc, bytes)?;
                Ok(Ok(End { at, name }))
            }
            Err(complaint) => Ok(Err(complaint)),
        },
        other => Ok(Err(other.refused(Wanted::Name))),
    }
}

/// The name with which an item of a list begins, or that the list ends.
pub(crate) fn name_of(
    alloc: Global,
    names: &Names,
    lexeme: Lexeme<'_>,
) -> Result<Result<Option<Name>, Complaint>, AllocError>
    ensures { IfOk result (λ verdict. verdict ≡ list_head names.now (seen lexeme.entry)) }
{
    match lexeme {
        Lexeme::Word(bytes) => match checked_name(names, bytes) {
            Ok(()) => {
                let name = Name::from_slice(alloc, bytes)?;
                Ok(Ok(Some(name)))
            }
            Err(complaint) => Ok(Err(complaint)),
        },
        Lexeme::Close => Ok(Ok(None)),
        other => Ok(Err(other.refused(Wanted::Name))),
    }
}

/// What an item of the nodes begins with, or that the nodes end.
pub(crate) fn node_item_of(
    alloc: Global,
    list: &NodeList,
    lexeme: Lexeme<'_>,
) -> Result<Result<Option<NodeItem>, Complaint>, AllocError>
    ensures { IfOk result (λ verdict. verdict ≡ node_head list.now (seen lexeme.entry)) }
{
    match lexeme {
        Lexeme::Word(bytes) => match checked_name(&list.names, bytes) {
            Ok(()) => {
                let name = Name::from_slice(alloc, bytes)?;
                Ok(Ok(Some(NodeItem::Name(name))))
            }
            Err(complaint) => Ok(Err(complaint)),
        },
        Lexeme::Open if list.pending.is_some() => Ok(Ok(Some(NodeItem::Place))),
        Lexeme::Close => Ok(Ok(None)),
        other => Ok(Err(other.refused(Wanted::Name))),
    }
}

/// The capacity with which a module begins, or that the modules end.
pub(crate) fn capacity_of(lexeme: Lexeme<'_>) -> Result<Option<u64>, Complaint>
    requires { IsShort (seen lexeme) }
    ensures { result ≡ module_head (seen lexeme.entry) }
{
    match lexeme {
        Lexeme::Close => Ok(None),
        other => match other.number(6) {
            Ok(capacity) => Ok(Some(capacity)),
            Err(complaint) => Err(complaint),
        },
    }
}

/// Whether the bytes spell a number of any size; so many bytes stand before them.
fn checked_number(before: u32, bytes: &[u8]) -> Result<(), Complaint>
    requires before { before ≤ 1 }
    requires short { length bytes.now ≤ MAX_TEXT_BYTES }
    ensures { result ≡ sized before (decimal_of bytes.now 6) }
{
    match read_decimal(bytes, 6) {
        Ok(_) | Err(NumberFault::Finer) | Err(NumberFault::TooLarge) => Ok(()),
        Err(NumberFault::NotANumber { at }) => Err(Complaint::Number(NumberFault::NotANumber {
            at: before + at,
        })),
    }
}

/// Whether the bytes are a coordinate.
pub(crate) fn checked_coordinate(bytes: &[u8]) -> Result<(), Complaint>
    requires { length bytes.now ≤ MAX_TEXT_BYTES }
    ensures { result ≡ checked_coordinate bytes.now }
{
    match bytes {
        [b'+' | b'-', unsigned @ ..] => checked_number(1, unsigned),
        _ => checked_number(0, bytes),
    }
}

/// A coordinate, as its word.
pub(crate) fn coordinate_of(
    alloc: Global,
    lexeme: Lexeme<'_>,
) -> Result<Result<Name, Complaint>, AllocError>
    requires { IsShort (seen lexeme) }
    ensures { IfOk result (λ verdict. verdict ≡ coordinate_test (seen lexeme.entry)) }
{
    match lexeme {
        Lexeme::Word(bytes) => match checked_coordinate(bytes) {
            Ok(()) => {
                let word = Name::from_slice(alloc, bytes)?;
                Ok(Ok(word))
            }
            Err(complaint) => Ok(Err(complaint)),
        },
        other => Ok(Err(other.refused(Wanted::Number))),
    }
}

/// A hop limit, or none.
pub(crate) fn hops_of(lexeme: Lexeme<'_>) -> Result<Option<u64>, Complaint>
    requires { IsShort (seen lexeme) }
    ensures { result ≡ hops_test (seen lexeme.entry) }
{
    if let Lexeme::Word(bytes) = lexeme {
        if bytes == b"UNLIMITED".as_slice() {
            return Ok(None);
        }
    }
    match lexeme.number(0) {
        Ok(hops) => Ok(Some(hops)),
        Err(complaint) => Err(complaint),
    }
}

/// The section of this name.
fn section_named(name: &[u8]) -> Option<Section>
    ensures { result ≡ section_named name.now }
{
    if name == b"NODES".as_slice() {
        Some(Section::Nodes)
    } else if name == b"LINKS".as_slice() {
        Some(Section::Links)
    } else if name == b"DEMANDS".as_slice() {
        Some(Section::Demands)
    } else if name == b"META".as_slice() {
        Some(Section::Meta)
    } else if name == b"ADMISSIBLE_PATHS".as_slice() {
        Some(Section::Paths)
    } else {
        None
    }
}

/// Whether the section has been read.
fn has_section(draft: &Draft, section: Section) -> bool
    ensures { result ≡ has_section draft.now section }
{
    match section {
        Section::Nodes => draft.nodes.is_some(),
        Section::Links => draft.links.is_some(),
        Section::Demands => draft.demands.is_some(),
        Section::Meta => draft.has_meta,
        Section::Paths => draft.has_paths,
    }
}

/// Whether the sections that must be there are there.
fn is_complete(draft: &Draft) -> bool
    ensures { result ≡ is_complete draft.now }
{
    draft.nodes.is_some() && draft.links.is_some() && draft.demands.is_some()
}

/// The section that begins, or that the text ends.
pub(crate) fn section_of(draft: &Draft, lexeme: Lexeme<'_>) -> Result<Option<Section>, Complaint>
    ensures { result ≡ section_head draft.now (seen lexeme.entry) }
{
    match lexeme {
        Lexeme::Word(bytes) => match section_named(bytes) {
            Some(section) if has_section(draft, section) => Err(Complaint::Twice),
            Some(section) => Ok(Some(section)),
            None => Err(Complaint::Unexpected(Wanted::Section)),
        },
        Lexeme::End if is_complete(draft) => Ok(None),
        other => Err(other.refused(Wanted::Section)),
    }
}
