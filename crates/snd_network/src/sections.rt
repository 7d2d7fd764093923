//! Reading a network section by section.

ghost use Rattle.std.specs.Prelude.{◌≡◌, true, IfOk};
ghost use Rattle.snd_reader.specs.Readers.{token};
ghost use Rattle.snd_reader.specs.Faults.{Gives};
ghost use Rattle.snd_network.specs.Tests.{is_complete};
ghost use Rattle.snd_network.specs.Reading.{section_turn, section, network};

use crate::draft::{Draft, Section};
use crate::lists::{list_of, nodes};
use crate::verdicts::section_of;
use snd_reader::{Cursor, TextFault, skip};
use std::alloc::Global;

/// A section behind its name.
#[tactic(auto, using(snd_reader::proofs::Faults::through, crate::proofs::Opened::section_opens), unfolding(crate::specs::Reading::section))]
fn section(
    cursor: &mut Cursor<'_>,
    alloc: Global,
    draft: &mut Draft,
    kind: Section,
) -> Result<(), TextFault>
    ensures gives { Gives (λ _. (draft.new, cursor.new)) result (section draft.old kind cursor.old) }
{
    cursor.open()?;
    match kind {
        Section::Nodes => draft.nodes = Some(nodes(cursor, alloc)?),
        Section::Links => draft.links = Some(list_of(cursor, alloc)?),
        Section::Demands => draft.demands = Some(list_of(cursor, alloc)?),
        Section::Meta => {
            skip(cursor)?;
            draft.has_meta = true;
        }
        Section::Paths => {
            skip(cursor)?;
            draft.has_paths = true;
        }
    }
    Ok(())
}

/// The section that begins, or that the text ends.
fn next_section(cursor: &mut Cursor<'_>, draft: &Draft) -> Result<Option<Section>, TextFault>
    ensures gives { Gives (λ x. (x, cursor.new)) result (token (section_turn draft.now) cursor.old) }
{
    let verdict = section_of(draft, cursor.first());
    cursor.judge(verdict)
}

/// The sections up to the end of the text.
pub(crate) fn network(cursor: &mut Cursor<'_>, alloc: Global) -> Result<Draft, TextFault>
    ensures gives { Gives (λ x. (x, cursor.new)) result (network cursor.old) }
    ensures complete { IfOk result (λ draft. is_complete draft ≡ true) }
{
    let mut draft = Draft {
        nodes: None,
        links: None,
        demands: None,
        has_meta: false,
        has_paths: false,
    };
    'sections: loop {
        let Some(kind) = next_section(cursor, &draft)? else {
            return Ok(draft);
        };
        section(cursor, alloc, &mut draft, kind)?;
    }
}
