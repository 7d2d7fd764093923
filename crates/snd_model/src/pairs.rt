//! Reading a model pair by pair.

ghost use Rattle.std.specs.Prelude.{◌≡◌, true, IfOk};
ghost use Rattle.snd_reader.specs.Faults.{Gives};
ghost use Rattle.snd_model.specs.Grammar.{is_complete};
ghost use Rattle.snd_model.specs.Reading.{pair, pairs};

use crate::draft::Draft;
use crate::keys::Key;
use crate::verdicts::{key_of, value_of};
use snd_reader::{Cursor, TextFault};

/// A pair behind its key.
#[tactic(auto, using(snd_reader::proofs::Faults::through), unfolding(crate::specs::Reading::pair))]
fn pair(cursor: &mut Cursor<'_>, draft: &mut Draft, key: Key) -> Result<(), TextFault>
    ensures gives { Gives (λ _. (draft.new, cursor.new)) result (pair draft.old key cursor.old) }
{
    cursor.equals()?;
    let verdict = value_of(key, cursor.first());
    let setting = cursor.judge(verdict)?;
    draft.set(setting);
    Ok(())
}

/// The pairs up to the end of the text.
pub(crate) fn pairs(cursor: &mut Cursor<'_>) -> Result<Draft, TextFault>
    ensures gives { Gives (λ x. (x, cursor.new)) result (pairs cursor.old) }
    ensures complete { IfOk result (λ draft. is_complete draft ≡ true) }
{
    let mut draft = Draft::new();
    'pairs: loop {
        let verdict = key_of(&draft, cursor.first());
        let Some(key) = cursor.judge(verdict)? else {
            return Ok(draft);
        };
        pair(cursor, &mut draft, key)?;
    }
}
