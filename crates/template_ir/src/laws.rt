//! What the definitions come to. Each law is a contract with an empty body.

ghost use Rattle.std.specs.Prelude.{◌≡◌, ℕ, List, [], ◌∷◌, Some, Ok, true, pos, codes, slice_get};
ghost use Rattle.soy_base.specs.declared.place.Place.TheVariants as place;
ghost use Rattle.soy_base.specs.declared.place.Place.{Place};
ghost use Rattle.html_state.specs.declared.row.State.{State};
ghost use Rattle.soy_tree.specs.Nodes.{Nodes};
ghost use Rattle.soy_rules.specs.Templates.{Declared, declared};
ghost use Rattle.soy_tree.specs.Trees.{Tree};
ghost use Rattle.soy_rules.specs.TypeOf.{Scope};
ghost use Rattle.soy_tree.specs.Values.{Value};
ghost use Rattle.soy_meaning.specs.Walks.AcceptedTrees.{walk_trees};
ghost use Rattle.soy_pieces.specs.Giving.{RunEnv};
ghost use Rattle.soy_meaning.specs.Runs.TranslationFits.{TranslationsFit};
ghost use Rattle.soy_meaning.specs.Runs.TypedData.{AreTypedTrees, FitsData};
ghost use Rattle.soy_meaning.specs.Walks.Walk.{Walked};
ghost use Rattle.soy_pieces.specs.Pieces.{template_run};
ghost use Rattle.soy_meaning.specs.Walks.Holes.{hole_count};
ghost use Rattle.soy_meaning.specs.Paths.PlanOfNodes.{PlanContext, nodes_plan};
ghost use Rattle.soy_pieces.specs.RunRows.{attributes_block, attributes_body, block_body, block_twice, calls};
ghost use Rattle.soy_pieces.specs.RunRows.{calls_body, number_env, number_param, offset_translation, plural_source};
ghost use Rattle.soy_pieces.specs.RunRows.{row_trees, source_body, source_plural, text_env, text_param};
ghost use Rattle.template_ir.specs.Compiles.{CompileContext, Compiles, StandsNodes, with_more};
ghost use Rattle.soy_rules.specs.Language.{Language};
ghost use Rattle.template_ir.specs.CompiledTrees.{ArePatterns};
ghost use Rattle.template_ir.specs.Ops.{Op, Program};
ghost use Rattle.template_ir.specs.Placed.{EntryPlaced};
ghost use Rattle.soy_pieces.specs.LanguageContext.{language_context};
ghost use Rattle.template_ir.specs.HoleCounts.{nodes_holes};
ghost use Rattle.template_ir.specs.ProgramRows.{attributes_program, block_program, calls_program, every_env};
ghost use Rattle.template_ir.specs.ProgramRows.{every_outcome, every_places, every_program, every_trees};
ghost use Rattle.template_ir.specs.ProgramRows.{offset_language, offset_program, plural_program};
ghost use Rattle.soy_pieces.specs.Outcome.{pieces_end_costs};
ghost use Rattle.template_ir.specs.ProgramRows.{source_language};
ghost use Rattle.template_ir.specs.Run.{run, template_gives};
ghost use Rattle.soy_pieces.specs.InputEnv.{input_env, names_of};
ghost use Rattle.template_ir.specs.Sound.{is_sound};

/// The holes that are counted in nodes are those of their plan, whatever the variables are.
pub fn law_hole_counts()
    ensures { (c : PlanContext) (ns : Nodes) (scope : Scope) →
        hole_count (nodes_plan c ns scope) ≡ nodes_holes c.translation ns }
{}

/// Ops that stand for nodes still do where more ops are added at the end.
pub fn law_ops_stay()
    ensures { (c : CompileContext) (more : List Op) (ns : Nodes) (hole at end : ℕ) →
        StandsNodes c ns hole at end → StandsNodes (with_more c more) ns hole at end }
{}

/// A program gives what the trees give that it stands for, with the same costs and the same end, where their run is as
/// the checks leave it: where the place of each value is the one that is kept for its hole.
pub fn law_run_is_pieces()
    ensures { (trees : List Tree) (places : List Place) (l : Language) (p : Program) → Compiles trees places l p →
        (number : ℕ) (d : Declared) → slice_get (declared trees) number ≡ Some d → (env : RunEnv) →
        EntryPlaced (language_context l (declared trees)) places number env →
        pieces_end_costs (template_gives p number env)
        ≡ pieces_end_costs (template_run (language_context l (declared trees)) d env) }
{}

/// A run of a template is as `law_run_is_pieces` asks, where the trees are typed, the translations fit, the walk over
/// the trees meets no fault and the data fit: each value stands, by the pieces of its frame so far, at the place that
/// the walk gave its hole.
pub fn law_runs_are_placed()
    ensures { (trees : List Tree) (l : Language) (v : Walked State) → AreTypedTrees trees →
        TranslationsFit l.translation (declared trees) → walk_trees l.translation trees ≡ Ok v →
        (number : ℕ) (d : Declared) → slice_get (declared trees) number ≡ Some d → (env : RunEnv) → FitsData d env →
        EntryPlaced (language_context l (declared trees)) v.places number env }
{}

/// A program that stands for typed trees gives what they give, with the same costs and the same end, under data that
/// fit, where the translations fit and the places are those that the walk gives, which meets no fault. So it does under
/// an input whose members are the template's parameters.
pub fn law_compiled_run_is_pieces()
    ensures variables { (trees : List Tree) (l : Language) (v : Walked State) (p : Program) → AreTypedTrees trees →
        TranslationsFit l.translation (declared trees) → walk_trees l.translation trees ≡ Ok v →
        Compiles trees v.places l p →
        (number : ℕ) (d : Declared) → slice_get (declared trees) number ≡ Some d → (env : RunEnv) → FitsData d env →
        pieces_end_costs (template_gives p number env)
        ≡ pieces_end_costs (template_run (language_context l (declared trees)) d env) }
    ensures input { (trees : List Tree) (l : Language) (v : Walked State) (p : Program) → AreTypedTrees trees →
        TranslationsFit l.translation (declared trees) → walk_trees l.translation trees ≡ Ok v →
        Compiles trees v.places l p →
        (number : ℕ) (d : Declared) → slice_get (declared trees) number ≡ Some d →
        (input : Value) → FitsData d (input_env (names_of d.template.params) input) →
        pieces_end_costs (run p number input)
        ≡ pieces_end_costs (template_run (language_context l (declared trees)) d
        (input_env (names_of d.template.params) input)) }
{}

/// A program that stands for trees can't go wrong, where the trees are typed, the translations are patterns and fit,
/// and the places are those that the walk gives, which meets no fault.
pub fn law_compiled_is_sound()
    ensures { (trees : List Tree) (l : Language) (v : Walked State) (p : Program) → AreTypedTrees trees →
        TranslationsFit l.translation (declared trees) → ArePatterns l.translation (declared trees) →
        walk_trees l.translation trees ≡ Ok v → Compiles trees v.places l p → is_sound p ≡ true }
{}

/// Rows that the checker computes: programs written by hand stand for the trees of their rows, they are sound, and they
/// give the pieces, the end and the costs that the trees give. The last has every command.
pub fn law_program_rows()
    ensures block_compiles { Compiles (row_trees (text_param (codes "x")) block_body)
        (place.Text ∷ place.Text ∷ place.Text ∷ []) source_language block_program }
    ensures calls_compile { Compiles (row_trees number_param calls_body) (place.Text ∷ []) source_language
        calls_program }
    ensures plural_compiles { Compiles (row_trees number_param source_body) (place.Text ∷ []) source_language
        plural_program }
    ensures offset_compiles { Compiles (row_trees number_param plural_source) (place.Text ∷ []) offset_language
        offset_program }
    ensures every_compiles { Compiles every_trees every_places source_language every_program }
    ensures block_placed { EntryPlaced
        (language_context source_language (declared (row_trees (text_param (codes "x")) block_body)))
        (place.Text ∷ place.Text ∷ place.Text ∷ []) 0 (text_env (codes "x") (codes "q")) }
    ensures block_sound { is_sound block_program ≡ true }
    ensures attributes_sound { is_sound attributes_program ≡ true }
    ensures calls_sound { is_sound calls_program ≡ true }
    ensures plural_sound { is_sound plural_program ≡ true }
    ensures offset_sound { is_sound offset_program ≡ true }
    ensures every_sound { is_sound every_program ≡ true }
    ensures block_runs { pieces_end_costs (template_gives block_program 0 (text_env (codes "x") (codes "q")))
        ≡ pieces_end_costs (block_twice (codes "q")) }
    ensures attributes_run { pieces_end_costs (template_gives attributes_program 0
        (text_env (codes "k") (codes "a\"b"))) ≡ pieces_end_costs attributes_block }
    ensures calls_run { pieces_end_costs (template_gives calls_program 0 (number_env (pos 100)))
        ≡ pieces_end_costs (calls (pos 100)) }
    ensures calls_stop { pieces_end_costs (template_gives calls_program 0 (number_env (pos 101)))
        ≡ pieces_end_costs (calls (pos 101)) }
    ensures plural_runs { pieces_end_costs (template_gives plural_program 0 (number_env (pos 3)))
        ≡ pieces_end_costs (source_plural (pos 3)) }
    ensures exact_runs { pieces_end_costs (template_gives offset_program 0 (number_env (pos 1)))
        ≡ pieces_end_costs (offset_translation (pos 1)) }
    ensures offset_runs { pieces_end_costs (template_gives offset_program 0 (number_env (pos 2)))
        ≡ pieces_end_costs (offset_translation (pos 2)) }
    ensures other_runs { pieces_end_costs (template_gives offset_program 0 (number_env (pos 5)))
        ≡ pieces_end_costs (offset_translation (pos 5)) }
    ensures every_runs { pieces_end_costs (template_gives every_program 0 every_env)
        ≡ pieces_end_costs every_outcome }
{}
