//! What a line of a text is read as.

ghost use Rattle.std.specs.Prelude.{◌≡◌, ◌∷◌, List, ℕ, Option};
ghost use Rattle.plan_tokens.specs.Lines.{whole, lines_of};
ghost use Rattle.cert_format.specs.Reading.{one};
ghost use Rattle.cert_format.specs.Answers.{Reads, seen_value};

use plan_tokens::Stop;

/// What the first line of the text was read as, or that reading stops at it.
#[tactic(auto, using(crate::proofs::Accepting::one_read, crate::proofs::Accepting::one_refused))]
pub(crate) fn accept<'a, T: Drop>(
    found: Option<T>,
    text: &'a [u8],
    rest: &'a [u8],
) -> Result<(T, &'a [u8]), Stop>
    ensures { (f : List ℕ → Option T) (body : List ℕ) → lines_of text.now ≡ whole body ∷ lines_of rest.now → found ≡ f body
        → Reads seen_value result (one f (lines_of text.now)) }
{
    match found {
        Some(value) => Ok((value, rest)),
        None => Err(Stop::At(text.len())),
    }
}
