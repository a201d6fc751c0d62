//! What holds of bundles: functions that take nothing and do nothing, whose contracts are the laws.

ghost use Rattle.std.specs.Prelude.{◌≡◌, ◌↔◌, ◌⊎◌, ℕ, ◌≤◌, List, true, Ok};
ghost use Rattle.soy_tree.specs.declared.bundle.Bundle.{Bundle};
ghost use Rattle.soy_tree.specs.Formed.{AreFormed, is_formed_body, nesting};
ghost use Rattle.soy_tree.specs.Nodes.{MessageBody};
ghost use Rattle.soy_tree.specs.Trees.{Tree};
ghost use Rattle.msg_extract.specs.Canonical.CanonicalText.{canonical_text};
ghost use Rattle.msg_extract.specs.Catalogue.{catalogue_of};
ghost use Rattle.msg_extract.specs.Canonical.RepeatedCases.{has_distinct_cases};
ghost use Rattle.msg_extract.specs.Canonical.SourceParts.{source_parts};
ghost use Rattle.msg_extract.specs.declared.catalogue.Listed.{Listed};
ghost use Rattle.msg_bundle.specs.declared.fault.BundleFault.{BundleFault};
ghost use Rattle.msg_bundle.specs.BundleFits.{BundleFits};
ghost use Rattle.msg_bundle.specs.BundlesAlike.{BundlesAlike};
ghost use Rattle.msg_bundle.specs.ReadsBundle.{BringsBundle, RefusesBundle};
ghost use Rattle.soy_tree.specs.SourceBundle.{source_bundle};

/// Bytes bring a bundle or have a fault, and never both: so each answer comes exactly where it is said. They have one
/// first fault, and of two bundles that they bring each says what the other says.
pub fn law_bundle()
    ensures apart { (bytes : List ℕ) (rows : List Listed) (bundle : Bundle) (fault : BundleFault)
        → BringsBundle bytes rows bundle → RefusesBundle bytes rows fault → ⊥ }
    ensures either { (bytes : List ℕ) (rows : List Listed)
        → ((bundle : Bundle) × BringsBundle bytes rows bundle)
        ⊎ ((fault : BundleFault) × RefusesBundle bytes rows fault) }
    ensures one_fault { (bytes : List ℕ) (rows : List Listed) (fault other : BundleFault)
        → RefusesBundle bytes rows fault → RefusesBundle bytes rows other → fault ≡ other }
    ensures one_bundle { (bytes : List ℕ) (rows : List Listed) (bundle other : Bundle)
        → BringsBundle bytes rows bundle → BringsBundle bytes rows other → BundlesAlike bundle other }
{}

/// A bundle that is read beside the catalogue of formed trees fits them: the translation of each of their messages is
/// the parts of a pattern and names what that message has, also where a message of the same meaning and canonical text
/// stands for it in the catalogue. The bundle of the source language fits all trees.
pub fn law_fits()
    ensures read { (bytes : List ℕ) (rows : List Listed) (bundle : Bundle) (trees : List Tree)
        → BringsBundle bytes rows bundle → catalogue_of trees ≡ Ok rows → AreFormed trees → BundleFits bundle trees }
    ensures source { (trees : List Tree)
        → BundleFits source_bundle trees }
{}

/// Two formed messages without repeated cases have one canonical text exactly where the parts of their sources are the
/// same. Messages of one canonical text have the same parts also where a case is repeated.
pub fn law_equal_texts()
    ensures exactly { (a b : MessageBody) → is_formed_body a ≡ true → is_formed_body b ≡ true
        → nesting a ≤ 63 → nesting b ≤ 63 → has_distinct_cases a ≡ true → has_distinct_cases b ≡ true
        → (canonical_text a ≡ canonical_text b) ↔ (source_parts a ≡ source_parts b) }
    ensures same_parts { (a b : MessageBody) → is_formed_body a ≡ true → is_formed_body b ≡ true
        → nesting a ≤ 63 → nesting b ≤ 63 → canonical_text a ≡ canonical_text b → source_parts a ≡ source_parts b }
{}
