//! What holds of the renderings on a desk: functions with an empty body, whose contracts are the laws.

ghost use Rattle.std.specs.Prelude.{◌≡◌, ℕ, Bool, false, List, Ok, Err, Some, slice_get};
ghost use Rattle.html_state.specs.declared.row.State.{State};
ghost use Rattle.soy_base.specs.declared.memory.Refusal.TheVariants.{OutOfMemory};
ghost use Rattle.soy_rules.specs.Templates.{Declared, declared};
ghost use Rattle.soy_tree.specs.Trees.{Tree};
ghost use Rattle.soy_tree.specs.ViewValues.{view_value};
ghost use Rattle.soy_meaning.specs.Walks.AcceptedTrees.{walk_trees};
ghost use Rattle.soy_pieces.specs.Meaning.{meaning};
ghost use Rattle.soy_meaning.specs.Runs.TranslationFits.{TranslationsFit};
ghost use Rattle.soy_meaning.specs.Runs.TypedData.{AreTypedTrees, FitsData};
ghost use Rattle.soy_meaning.specs.Walks.Walk.{Walked};
ghost use Rattle.template_ir.specs.Compiles.{Compiles};
ghost use Rattle.soy_rules.specs.Language.{Language};
ghost use Rattle.soy_pieces.specs.LanguageContext.{language_context};
ghost use Rattle.soy_pieces.specs.InputEnv.{input_env, names_of};
ghost use Rattle.template_ir.specs.ViewOps.{view_program};
ghost use Rattle.template_ir.specs.declared.program.ProgramParts.{ProgramParts};
ghost use Rattle.render_core.specs.Rest.{Rest};
ghost use Rattle.soy_desk.specs.Alone.{Alone, NoneRefused, answers_of, rooms_of};
ghost use Rattle.soy_desk.specs.DeskRun.{DeskAnswer, DeskRun, Pull, PullCall, RenderingAnswer, Step, StepsTo};
ghost use Rattle.soy_desk.specs.DeskState.{DeskState, desk_with, first_rest};
ghost use Rattle.soy_desk.specs.Given.{given, pulls_of};
ghost use Rattle.soy_desk.specs.ManyRenderings.{IsAlone, IsPrefix, entry_of, lefts};
ghost use Rattle.soy_desk.specs.Openings.{Opening, opening_of, openings, published_after, run_bytes};

/// Many renderings. For every list of steps on a new desk: the pulls of a name are pulls of its rendering alone, so
/// that the same pulls of that rendering alone are answered alike, where memory refuses none; what is given for it is
/// the beginning of what the program of its opening gives for the input of its opening; a pull that memory refused
/// leaves what each rendering has still to give; and the openings and the published program are those of the steps.
pub fn law_many_renderings()
    ensures alone { (program : ProgramParts) (steps : List Step) (after : DeskState) →
        DeskRun (desk_with program) steps after → (name : ℕ) (o : Opening) →
        opening_of name program steps ≡ Some o → IsAlone (entry_of name o) (pulls_of name steps) name after }
    ensures answers { (program : ProgramParts) (steps : List Step) (after : DeskState) →
        DeskRun (desk_with program) steps after → (name : ℕ) (o : Opening) →
        opening_of name program steps ≡ Some o →
        (calls : List (PullCall RenderingAnswer)) (rest : Rest) (done : Bool) →
        Alone (first_rest o.program o.input o.template) false calls rest done →
        rooms_of calls ≡ rooms_of (pulls_of name steps) → NoneRefused calls → NoneRefused (pulls_of name steps) →
        answers_of (pulls_of name steps) ≡ answers_of calls }
    ensures prefix { (program : ProgramParts) (steps : List Step) (after : DeskState) →
        DeskRun (desk_with program) steps after → (name : ℕ) (o : Opening) →
        opening_of name program steps ≡ Some o → IsPrefix (given name steps) (run_bytes o) }
    ensures refused { (before after : DeskState) (name : ℕ) (c : PullCall DeskAnswer) → c.answer ≡ Err OutOfMemory →
        StepsTo before (Pull name c) after → lefts after.entries ≡ lefts before.entries }
    ensures opened { (program : ProgramParts) (steps : List Step) (after : DeskState) →
        DeskRun (desk_with program) steps after → after.opened ≡ openings steps }
    ensures published { (program : ProgramParts) (steps : List Step) (after : DeskState) →
        DeskRun (desk_with program) steps after → after.published ≡ published_after program steps }
{}

/// What the program of an opening gives for its input is the meaning of the template of the trees that it stands for,
/// under the bundle that it was compiled under. So what is given for a name, the beginning of the one, is that of the
/// other.
pub fn law_opening_is_meaning()
    ensures { (trees : List Tree) (l : Language) (v : Walked State) (o : Opening) → AreTypedTrees trees →
        TranslationsFit l.translation (declared trees) → walk_trees l.translation trees ≡ Ok v →
        Compiles trees v.places l (view_program o.program) →
        (d : Declared) → slice_get (declared trees) o.template ≡ Some d →
        FitsData d (input_env (names_of d.template.params) (view_value o.input)) →
        run_bytes o ≡ meaning (language_context l (declared trees)) d
        (input_env (names_of d.template.params) (view_value o.input)) }
{}
