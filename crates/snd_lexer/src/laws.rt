//! Laws of the cutting of texts.

ghost use Rattle.std.specs.Prelude.{◌≡◌, ℕ, List, map};
ghost use Rattle.snd_lexer.specs.declared.token.Dialect.{Dialect};
ghost use Rattle.snd_lexer.specs.declared.token.Token.{Token};
ghost use Rattle.snd_lexer.specs.declared.token.TokenKind.{TokenKind};
ghost use Rattle.snd_lexer.specs.Cutting.{Lexes, StopsAt, Shows, with_bytes};

/// A text is cut in one way at most, and where it is cut, no byte stops the cutting.
pub fn cut_once()
    ensures tokens { (d : Dialect) (text : List ℕ) (ts us : List Token) → Lexes d text ts → Lexes d text us → ts ≡ us }
    ensures stop { (d : Dialect) (text : List ℕ) (at place : ℕ) → StopsAt d text at → StopsAt d text place → at ≡ place }
    ensures apart { (d : Dialect) (text : List ℕ) (ts : List Token) (at : ℕ) → Lexes d text ts → StopsAt d text at → ⊥ }
{}

/// The slices of a text's tokens are the bytes of the pieces that it is cut into.
pub fn shows_bytes()
    ensures { (d : Dialect) (text : List ℕ) (ts : List Token) → Lexes d text ts → Shows d text (map (with_bytes text) ts) }
{}

/// A text shows one list of tokens at most, and they are the slices of its tokens.
pub fn shown_once()
    ensures one { (d : Dialect) (text : List ℕ) (ls ms : List (TokenKind × List ℕ)) → Shows d text ls → Shows d text ms → ls ≡ ms }
    ensures cut { (d : Dialect) (text : List ℕ) (ls : List (TokenKind × List ℕ)) → Shows d text ls → (ts : List Token) × Lexes d text ts × (map (with_bytes text) ts ≡ ls) }
{}
