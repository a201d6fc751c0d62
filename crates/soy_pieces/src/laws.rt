//! What pieces, outcomes and the texts of values come to. Each law is a contract with an empty body.

ghost use Rattle.std.specs.Prelude.{◌≡◌, ◌++◌, ◌∷◌, [], ℕ, IsTrue, List};
ghost use Rattle.std.specs.Prelude.{Some, None};
ghost use Rattle.std.specs.Prelude.{replicate};
ghost use Rattle.std.specs.Prelude.{pos, codes};
ghost use Rattle.soy_base.specs.declared.direction.Dir.TheVariants as dir;
ghost use Rattle.bidi_text.specs.Wrap.{wrapped_text};
ghost use Rattle.soy_base.specs.Piece as page;
ghost use Rattle.soy_rules.specs.Val.{value_text};
ghost use Rattle.soy_tree.specs.Values.{Value};
ghost use Rattle.soy_pieces.specs.Giving.{value_class};
ghost use Rattle.soy_pieces.specs.EscapedAt.{is_text_of};
ghost use Rattle.soy_pieces.specs.Outcome as outcome;
ghost use Rattle.soy_pieces.specs.Outcome.{Outcome, choices_of_outcome, continued_by, costs_of_outcome};
ghost use Rattle.soy_pieces.specs.Outcome.{gathered};
ghost use Rattle.soy_pieces.specs.Outcome.{gives_nothing};
ghost use Rattle.soy_pieces.specs.RowTrees.{site_at};
ghost use Rattle.soy_pieces.specs.RunRows.{attributes_block};
ghost use Rattle.soy_pieces.specs.RunRows.{block_pieces, block_twice, calls, input_pieces};
ghost use Rattle.soy_pieces.specs.RunRows.{offset_translation, pieces_and_end};
ghost use Rattle.soy_pieces.specs.RunRows.{plural_part, plural_translation};
ghost use Rattle.soy_pieces.specs.RunRows.{source_plural};
ghost use Rattle.soy_pieces.specs.RunRows.{translated_meaning};

/// The text of a value is one that its class has, so that what `law_hole` says holds of each printed value.
pub fn law_value_texts()
    ensures { (v : Value) → IsTrue (is_text_of (value_class v) (value_text v)) }
{}

/// Outcomes follow one another as lists do, and what is gathered from two that follow one another is gathered from the
/// one and then from the other.
pub fn law_outcomes()
    ensures joined { (a b c : Outcome) → continued_by (continued_by a b) c ≡ continued_by a (continued_by b c) }
    ensures nothing_first { (o : Outcome) → continued_by gives_nothing o ≡ o }
    ensures nothing_last { (o : Outcome) → continued_by o gives_nothing ≡ o }
    ensures gathered { (text : List ℕ) (o rest : Outcome) (following : List ℕ → Outcome) →
        gathered text (continued_by o rest) following ≡ gathered text o (λ more. gathered more rest following) }
{}

/// Rows that the checker computes: the pieces and the end that small templates give under data, the costs before each
/// piece and the end, and the choices.
pub fn law_run_rows()
    ensures block_twice { pieces_and_end (block_twice (codes "q"))
        ≡ (
          block_pieces (wrapped_text (codes "q") dir.Ltr) ++ block_pieces (wrapped_text (codes "q") dir.Ltr),
          outcome.WholeRun,
        ) }
    ensures block_bytes { pieces_and_end (block_twice (codes "7"))
        ≡ (
          block_pieces (codes "<span dir=\"ltr\">7</span>") ++ block_pieces (codes "<span dir=\"ltr\">7</span>"),
          outcome.WholeRun,
        ) }
    ensures block_costs { costs_of_outcome (block_twice (codes "q")) ≡ 1 ∷ 1 ∷ 0 ∷ 1 ∷ 1 ∷ 0 ∷ 0 ∷ [] }
    ensures attributes_block { pieces_and_end attributes_block ≡ (input_pieces, outcome.WholeRun) }
    ensures calls_to_limit { pieces_and_end (calls (pos 100))
        ≡ (replicate 100 (page.Static (codes "a")), outcome.WholeRun) }
    ensures calls_past_limit { pieces_and_end (calls (pos 101))
        ≡ (replicate 101 (page.Static (codes "a")), outcome.StopsAt (site_at 12)) }
    ensures call_costs { costs_of_outcome (calls (pos 1)) ≡ 3 ∷ 6 ∷ [] }
    ensures call_choices { choices_of_outcome (calls (pos 1))
        ≡ outcome.ArmTaken (Some 0) ∷ outcome.ArmTaken None ∷ [] }
    ensures source_plural { pieces_and_end (source_plural (pos 1))
        ≡ (page.Static (codes "only") ∷ [], outcome.WholeRun) }
    ensures source_default { pieces_and_end (source_plural (pos 3))
        ≡ (page.Value (codes "<span dir=\"ltr\">3</span>") ∷ page.Static (codes " in all") ∷ [], outcome.WholeRun) }
    ensures source_choices { choices_of_outcome (source_plural (pos 3))
        ≡ outcome.TextTaken outcome.SourceText ∷ outcome.ArmTaken (Some 1) ∷ [] }
    ensures plural_zero { pieces_and_end (plural_translation (pos 0))
        ≡ (page.Static (codes "Z") ∷ [], outcome.WholeRun) }
    ensures plural_one { pieces_and_end (plural_translation (pos 1))
        ≡ (page.Static (codes "O") ∷ [], outcome.WholeRun) }
    ensures plural_two { pieces_and_end (plural_translation (pos 2))
        ≡ (page.Static (codes "T") ∷ [], outcome.WholeRun) }
    ensures plural_few { pieces_and_end (plural_translation (pos 3))
        ≡ (page.Static (codes "F") ∷ [], outcome.WholeRun) }
    ensures plural_many { pieces_and_end (plural_translation (pos 11))
        ≡ (page.Static (codes "M") ∷ [], outcome.WholeRun) }
    ensures plural_other { pieces_and_end (plural_translation (pos 100))
        ≡ (page.Static (codes "X ") ∷ page.Value (codes "<span dir=\"ltr\">100</span>") ∷ [], outcome.WholeRun) }
    ensures plural_meaning { translated_meaning plural_part (pos 11) ≡ codes "M" }
    ensures offset_exact { pieces_and_end (offset_translation (pos 1))
        ≡ (page.Static (codes "only") ∷ [], outcome.WholeRun) }
    ensures offset_number { pieces_and_end (offset_translation (pos 2))
        ≡ (
          page.Static (codes "and ") ∷ page.Value (codes "<span dir=\"ltr\">1</span>")
              ∷ page.Static (codes " more") ∷ [],
          outcome.WholeRun,
        ) }
    ensures offset_costs { costs_of_outcome (offset_translation (pos 2)) ≡ 1 ∷ 0 ∷ 0 ∷ 0 ∷ [] }
    ensures offset_choices { choices_of_outcome (offset_translation (pos 2))
        ≡ outcome.TextTaken outcome.OwnTranslation ∷ outcome.ArmTaken (Some 1) ∷ [] }
{}
