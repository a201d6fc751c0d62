//! What holds of canonical texts: functions that take nothing and do nothing, whose contracts are the laws.

ghost use Rattle.std.specs.Prelude.{◌≡◌, ℕ, ◌≤◌, List, ◌++◌, None, true, false};
ghost use Rattle.soy_tree.specs.MessageParts.{MsgParts, no_part};
ghost use Rattle.soy_rules.specs.IcuText.{IsPattern, PatternMode, Reads, begins_with_quote, with_text};
ghost use Rattle.soy_tree.specs.Formed.{is_formed_body, nesting};
ghost use Rattle.soy_base.specs.declared.fault.Span.{Span};
ghost use Rattle.soy_tree.specs.Nodes.{MessageBody, message};
ghost use Rattle.soy_tree.specs.Trees.{Tree};
ghost use Rattle.msg_extract.specs.Canonical.CanonicalText.{canonical_text, is_in_plural, written_text};
ghost use Rattle.msg_extract.specs.Catalogue.{listed};
ghost use Rattle.msg_extract.specs.Fits.{FitsTrees, IsTranslation};
ghost use Rattle.msg_extract.specs.Canonical.RepeatedCases.{has_distinct_cases};
ghost use Rattle.msg_extract.specs.Canonical.SourceParts.{source_parts};

/// A text that is written as in a canonical text is read as that text, before all that is read and begins with no
/// apostrophe: outside of plurals, and directly in a case of one. Alone it is a pattern.
pub fn law_written_text()
    ensures before_more { (mode : PatternMode) (n : ℕ) (text rest end : List ℕ) (ps : MsgParts)
        → begins_with_quote rest ≡ false → Reads mode n rest ps end
        → Reads mode n (written_text (is_in_plural mode) text ++ rest) (with_text text ps) end }
    ensures pattern { (text : List ℕ) → IsPattern (written_text false text) (with_text text no_part) }
{}

/// The canonical text of a formed message is a pattern, and its parts are those of the message's source: its texts, the
/// names of its placeholders and selectors, and of several cases with one key the first alone.
pub fn law_canonical_text()
    ensures { (body : MessageBody) → is_formed_body body ≡ true → nesting body ≤ 63
        → IsPattern (canonical_text body) (source_parts body) }
{}

/// Two formed messages without repeated cases have one canonical text where the parts of their sources are the same.
/// The other way around, a text is one pattern at most, so messages of one canonical text have the same parts.
pub fn law_equal_parts()
    ensures { (a b : MessageBody) → is_formed_body a ≡ true → is_formed_body b ≡ true
        → has_distinct_cases a ≡ true → has_distinct_cases b ≡ true → source_parts a ≡ source_parts b
        → canonical_text a ≡ canonical_text b }
{}

/// A message's canonical text is a translation of it: its parts name what the message has. Without translations, as in
/// the source language, all files fit.
pub fn law_fits()
    ensures own_text { (desc meaning : List ℕ) (body : MessageBody) (span : Span) → is_formed_body body ≡ true
        → nesting body ≤ 63 → IsTranslation (listed (message desc meaning body span)) (source_parts body) }
    ensures no_translations { (trees : List Tree) → FitsTrees (λ id. None) trees }
{}
