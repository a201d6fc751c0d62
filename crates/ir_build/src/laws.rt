//! What follows where the translations of ids fit files. Each law is a contract with an empty body.

ghost use Rattle.std.specs.Prelude.{◌≡◌, ℕ, List, Option, Some, Ok, true, slice_get};
ghost use Rattle.html_state.specs.declared.row.State.{State};
ghost use Rattle.soy_tree.specs.Formed.{AreFormed};
ghost use Rattle.soy_tree.specs.MessageParts.{MsgParts};
ghost use Rattle.soy_rules.specs.Templates.{Declared, declared};
ghost use Rattle.soy_tree.specs.Trees.{Tree};
ghost use Rattle.soy_tree.specs.Values.{Value};
ghost use Rattle.msg_extract.specs.Fits.{FitsTrees};
ghost use Rattle.soy_meaning.specs.Walks.AcceptedTrees.{walk_trees};
ghost use Rattle.soy_pieces.specs.Giving.{RunEnv};
ghost use Rattle.soy_pieces.specs.Pieces.{template_run};
ghost use Rattle.soy_meaning.specs.Runs.TranslationFits.{TranslationsFit};
ghost use Rattle.soy_meaning.specs.Runs.TypedData.{AreTypedTrees, FitsData};
ghost use Rattle.soy_meaning.specs.Walks.Walk.{Walked};
ghost use Rattle.template_ir.specs.CompiledTrees.{ArePatterns};
ghost use Rattle.template_ir.specs.Compiles.{Compiles};
ghost use Rattle.template_ir.specs.Ops.{Program};
ghost use Rattle.soy_pieces.specs.LanguageContext.{language_context};
ghost use Rattle.soy_pieces.specs.Outcome.{pieces_end_costs};
ghost use Rattle.template_ir.specs.Run.{run, template_gives};
ghost use Rattle.soy_pieces.specs.InputEnv.{input_env, names_of};
ghost use Rattle.template_ir.specs.Sound.{is_sound};
ghost use Rattle.ir_build.specs.Translated.{Brought, language_by, translated_by};

/// Where the translations of ids fit formed files, that of each message fits the message: its plurals and selects have
/// an arm other and name selectors of the message. And each is a pattern.
pub fn law_fitting_translations()
    ensures fit { (translation : List ℕ → Option MsgParts) (trees : List Tree) → AreFormed trees →
        FitsTrees translation trees → TranslationsFit (translated_by translation) (declared trees) }
    ensures patterns { (translation : List ℕ → Option MsgParts) (trees : List Tree) → AreFormed trees →
        FitsTrees translation trees → ArePatterns (translated_by translation) (declared trees) }
{}

/// Of typed trees that a bundle fits and that the walk goes through, a program that stands for them with the places
/// that the walk gives can't go wrong; and under data that fit, or an input whose members are the parameters and fit,
/// it gives what the trees give, with the same costs and the same end.
pub fn law_fitting_program()
    ensures sound { (b : Brought) (trees : List Tree) (v : Walked State) (p : Program) → AreTypedTrees trees →
        FitsTrees b.translation trees → walk_trees (translated_by b.translation) trees ≡ Ok v →
        Compiles trees v.places (language_by b) p → is_sound p ≡ true }
    ensures variables { (b : Brought) (trees : List Tree) (v : Walked State) (p : Program) → AreTypedTrees trees →
        FitsTrees b.translation trees → walk_trees (translated_by b.translation) trees ≡ Ok v →
        Compiles trees v.places (language_by b) p →
        (number : ℕ) (d : Declared) → slice_get (declared trees) number ≡ Some d → (env : RunEnv) → FitsData d env →
        pieces_end_costs (template_gives p number env)
        ≡ pieces_end_costs (template_run (language_context (language_by b) (declared trees)) d env) }
    ensures input { (b : Brought) (trees : List Tree) (v : Walked State) (p : Program) → AreTypedTrees trees →
        FitsTrees b.translation trees → walk_trees (translated_by b.translation) trees ≡ Ok v →
        Compiles trees v.places (language_by b) p →
        (number : ℕ) (d : Declared) → slice_get (declared trees) number ≡ Some d →
        (input : Value) → FitsData d (input_env (names_of d.template.params) input) →
        pieces_end_costs (run p number input)
        ≡ pieces_end_costs (template_run (language_context (language_by b) (declared trees)) d
        (input_env (names_of d.template.params) input)) }
{}
