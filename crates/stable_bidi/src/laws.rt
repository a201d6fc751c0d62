//! What holds of the lines of two pages that differ in their values: functions with an empty body, whose contracts are
//! the laws.
ghost use Rattle.std.specs.Prelude.{◌≡◌, ℕ, List, map, [], Option, Some};
ghost use Rattle.soy_base.specs.declared.direction.Dir.{Dir};
ghost use Rattle.soy_base.specs.declared.kind.Kind.TheVariants as kind;
ghost use Rattle.bidi_text.specs.Clean.{cleaned_text};
ghost use Rattle.bidi_text.specs.Estimate.{estimated_direction};
ghost use Rattle.bidi_text.specs.Wrap.{wrapped_text};
ghost use Rattle.soy_base.specs.Piece.{Piece};
ghost use Rattle.html_state.specs.Start.{start};
ghost use Rattle.bidi_order.specs.Lines.{Line, lines, lines_of_tokens};
ghost use Rattle.bidi_order.specs.MarkupTokens.{TagReading, no_tag, read_all};
ghost use Rattle.soy_rules.specs.Templates.{Declared, declared};
ghost use Rattle.soy_tree.specs.Trees.{Tree};
ghost use Rattle.soy_meaning.specs.Walks.AcceptedTrees.{AcceptedTrees};
ghost use Rattle.soy_pieces.specs.Giving.{RunEnv};
ghost use Rattle.soy_pieces.specs.Outcome.{choices_of_outcome, pieces_of_outcome};
ghost use Rattle.soy_pieces.specs.Pieces.{RunContext, template_run};
ghost use Rattle.soy_meaning.specs.Walks.States.{IsMember};
ghost use Rattle.soy_meaning.specs.Runs.TranslationFits.{TranslationsFit};
ghost use Rattle.soy_meaning.specs.Runs.TypedData.{AreTypedTrees, FitsData};
ghost use Rattle.stable_bidi.specs.BothLines.{LinesAlike};
ghost use Rattle.stable_bidi.specs.PagesAlike.{PagesAlike};
ghost use Rattle.stable_bidi.specs.SameVisualOrder.{SameVisualOrder};
ghost use Rattle.stable_bidi.specs.TokenParts.{AreFine, AreNumbered, TokenPart, in_data, in_line, one_tokens};
ghost use Rattle.stable_bidi.specs.TokenParts.{other_tokens, span_tokens, unescaped};

/// Under accepted paths two runs of an html template of typed trees, under data that fit it and with the same choices,
/// have the same visual order in each line, whatever their values hold; so have two runs that stop at a call.
pub fn law_same_order()
    ensures { (c : RunContext) (trees : List Tree) (d : Declared) (env other : RunEnv) →
        c.declared ≡ declared trees → IsMember d c.declared → AreTypedTrees trees →
        TranslationsFit c.translation c.declared → AcceptedTrees c.translation trees → d.template.kind ≡ kind.Html →
        FitsData d env → FitsData d other →
        choices_of_outcome (template_run c d env) ≡ choices_of_outcome (template_run c d other) →
        (context : Dir) → SameVisualOrder (lines context (pieces_of_outcome (template_run c d env)))
        (lines context (pieces_of_outcome (template_run c d other))) }
{}

/// Two such runs, of a template of any kind, give pages that are alike: the same static texts, with values at the same
/// points, each as its place has it.
pub fn law_run_pages()
    ensures { (c : RunContext) (trees : List Tree) (d : Declared) (env other : RunEnv) →
        c.declared ≡ declared trees → IsMember d c.declared → AreTypedTrees trees →
        TranslationsFit c.translation c.declared → AcceptedTrees c.translation trees →
        FitsData d env → FitsData d other →
        choices_of_outcome (template_run c d env) ≡ choices_of_outcome (template_run c d other) →
        PagesAlike (start d.template.kind) (pieces_of_outcome (template_run c d env))
        (pieces_of_outcome (template_run c d other)) }
{}

/// Two pages that are alike have as many lines, and each line of the one is that of the other but for what the values
/// hold, which is a cleaned text, and for the values' directions.
pub fn law_page_lines()
    ensures { (context : Dir) (l m : List Piece) → PagesAlike (start kind.Html) l m →
        LinesAlike (lines context l) (lines context m) }
{}

/// Such lines have the same visual order.
pub fn law_lines_order()
    ensures { (one other : List Line) → LinesAlike one other → SameVisualOrder one other }
{}

/// So are the lines of two lists of tokens that are the same but for the values' spans, where these hold cleaned texts
/// and have ascending numbers.
pub fn law_part_lines()
    ensures { (context : ℕ) (parts : List TokenPart) → AreFine parts → AreNumbered 0 parts →
        LinesAlike (lines_of_tokens context (one_tokens parts)) (lines_of_tokens context (other_tokens parts)) }
{}

/// A value in its span, where it stands in data, gives the tokens of the span around its cleaned text; and what it
/// holds stands in its line as a cleaned text.
pub fn law_wrapped_tokens()
    ensures tokens { (k : ℕ) (tag : TagReading) (opening : Option ℕ) (text : List ℕ) (context : Dir) →
        read_all (Some k) (in_data tag opening) (wrapped_text text context)
        ≡ (
          span_tokens k (estimated_direction text context) (map unescaped (cleaned_text text)) [],
          Some (in_data no_tag (Some k)),
        ) }
    ensures cleaned { (text : List ℕ) → cleaned_text (in_line (map unescaped (cleaned_text text)))
        ≡ in_line (map unescaped (cleaned_text text)) }
{}
