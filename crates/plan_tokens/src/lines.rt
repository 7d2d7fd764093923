//! Lines of a text.

ghost use Rattle.std.specs.Prelude.{◌≡◌, ◌∷◌, IfOk, IfErr};
ghost use Rattle.plan_tokens.specs.Lines.{whole, lines_of};
ghost use Rattle.plan_tokens.specs.Cuts.{IsNoLine, IsCutAt};

use crate::stop::Stop;

/// The bytes before the first that is this one, and the bytes from it on: none where it is none of them.
#[tactic(auto, using(crate::proofs::Cutting::lacks_more, crate::proofs::Cutting::cut_found, crate::proofs::Cutting::cut_nowhere))]
pub fn cut(bytes: &[u8], at: u8) -> (&[u8], &[u8])
    ensures { IsCutAt at bytes.now result.0.now result.1.now }
{
    for (place, byte) in bytes.iter().enumerate() {
        if *byte == at {
            return bytes.split_at(place);
        }
    }
    bytes.split_at(bytes.len())
}

/// The first line without its end, and the text behind it.
///
/// - Errors: `Stop::At` alone: no line end stands in the text.
#[tactic(auto, using(crate::proofs::Cutting::cut_line, crate::proofs::Cutting::cut_no_line))]
pub fn first_line(text: &[u8]) -> Result<(&[u8], &[u8]), Stop>
    ensures ok { IfOk result (λ x. lines_of text.now ≡ whole x.0.now ∷ lines_of x.1.now) }
    ensures err { IfErr result (λ e. IsNoLine text.now e) }
{
    let (body, end) = cut(text, b'\n');
    if end.is_empty() {
        return Err(Stop::At(text.len()));
    }
    let (_, rest) = end.split_at(1);
    Ok((body, rest))
}
