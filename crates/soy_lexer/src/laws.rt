//! What holds of the definitions of tokens: functions that take nothing and do nothing, whose
//! contracts are the laws.

ghost use Rattle.std.specs.Prelude.{◌≡◌, ℕ, ◌≤◌, List, ◌++◌, ◌⊎◌, true, None};
ghost use Rattle.soy_base.specs.ByteLength.{byte_len};
ghost use Rattle.soy_lexer.specs.AllSourceText.{all_source_text};
ghost use Rattle.soy_lexer.specs.CommandSegment.{command_segment};
ghost use Rattle.soy_lexer.specs.LongestToken.{GivesToken, IsToken, Reaches};
ghost use Rattle.soy_lexer.specs.Segment.{Segment};
ghost use Rattle.soy_lexer.specs.Segments.{Segments};
ghost use Rattle.soy_lexer.specs.Tokens.{Tokens, FirstFault};
ghost use Rattle.soy_lexer.specs.declared.mode.Mode.TheVariants.{Outside};
ghost use Rattle.soy_lexer.specs.declared.token.Token.{Token};
ghost use Rattle.soy_lexer.specs.declared.token.TokenKind.{TokenKind};

/// Every text has one list of tokens, or one first offset where no token begins, and never both.
pub fn law_tokens_unique()
    ensures one_list { (text : List ℕ) (first second : List Token) →
        Tokens text first → Tokens text second → first ≡ second }
    ensures one_fault { (text : List ℕ) (first second : ℕ) →
        FirstFault text first → FirstFault text second → first ≡ second }
    ensures never_both { (text : List ℕ) (tokens : List Token) (offset : ℕ) →
        Tokens text tokens → FirstFault text offset → ⊥ }
    ensures either { (text : List ℕ) →
        ((tokens : List Token) × Tokens text tokens) ⊎ ((offset : ℕ) × FirstFault text offset) }
{}

/// The segments of a text, one after the other, are the text, so that each stands at the offset that
/// is counted for it; and the first offset where no token begins is within the text.
pub fn law_segments_are_the_text()
    ensures whole { (text : List ℕ) (segments : List Segment) →
        Segments 0 (Outside true) text segments None → text ≡ all_source_text segments }
    ensures within { (text : List ℕ) (offset : ℕ) → FirstFault text offset → offset ≤ byte_len text }
{}

/// What a text in a command begins with is a token by its form, and the longest one there. Only
/// where the digits at its start write an int over the limit, it begins with none.
pub fn law_longest_token()
    ensures token { (text : List ℕ) → GivesToken text (command_segment text) }
    ensures longest { (kind : TokenKind) (prefix more : List ℕ) → IsToken kind prefix →
        Reaches prefix (prefix ++ more) (command_segment (prefix ++ more)) }
{}
