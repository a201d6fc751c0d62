//! What the definitions come to, for the tokenizer of a page. Each law is a contract with an empty body.

ghost use Rattle.std.specs.Prelude.{◌≡◌, ◌+◌, ◌++◌, ◌∷◌, [], ℕ, IsTrue, List, Option};
ghost use Rattle.std.specs.Prelude.{Some, Ok, Err, length, get_or};
ghost use Rattle.std.specs.Prelude.{map};
ghost use Rattle.std.specs.Prelude.{ℤ, codes, true};
ghost use Rattle.soy_base.specs.declared.code.Code.TheVariants as code;
ghost use Rattle.soy_base.specs.declared.direction.Dir.TheVariants as dir;
ghost use Rattle.soy_base.specs.declared.direction.Dir.{Dir};
ghost use Rattle.soy_base.specs.declared.kind.Kind.{Kind};
ghost use Rattle.soy_base.specs.declared.kind.Kind.TheVariants as kind;
ghost use Rattle.soy_base.specs.declared.place.Place.TheVariants as place;
ghost use Rattle.soy_base.specs.declared.place.Place.{Place};
ghost use Rattle.soy_base.specs.declared.place.Placing.TheVariants.{Refuses, Takes};
ghost use Rattle.soy_base.specs.declared.place.ValueClass.{ValueClass};
ghost use Rattle.html_state.specs.AfterValue.{after_value};
ghost use Rattle.html_state.specs.Follows.{Follows};
ghost use Rattle.html_state.specs.Leads.{Leads};
ghost use Rattle.soy_base.specs.Piece as page;
ghost use Rattle.html_state.specs.AfterPieces.{after_pieces, placing_after};
ghost use Rattle.html_state.specs.Start.{start};
ghost use Rattle.html_state.specs.StatePlacing.{placing};
ghost use Rattle.html_state.specs.TakesClass.{takes_class};
ghost use Rattle.html_state.specs.declared.row.Reference.TheVariants as reference;
ghost use Rattle.html_state.specs.declared.row.State.{State};
ghost use Rattle.html_state.specs.declared.row.Tag.{Tag};
ghost use Rattle.soy_tree.specs.MessageParts.{MsgParts};
ghost use Rattle.soy_tree.specs.Nodes.{Message, Node, Nodes};
ghost use Rattle.soy_rules.specs.TypeOf.{Scope, type_of};
ghost use Rattle.soy_rules.specs.Bodies.{is_printed};
ghost use Rattle.soy_tree.specs.Expressions.{Expr};
ghost use Rattle.soy_rules.specs.Fits.{Fits};
ghost use Rattle.soy_rules.specs.Has.{IsWithinRange};
ghost use Rattle.soy_tree.specs.Formed.{is_formed_expr};
ghost use Rattle.soy_tree.specs.Types.{SoyType};
ghost use Rattle.soy_tree.specs.Trees.{Tree};
ghost use Rattle.soy_rules.specs.Val.{Known, val};
ghost use Rattle.soy_meaning.specs.Paths.PlanOfParts.{printed_classes};
ghost use Rattle.soy_tree.specs.Values.{Value};
ghost use Rattle.soy_rules.specs.Templates.{Declared, declared};
ghost use Rattle.soy_pieces.specs.Giving.{RunEnv, value_class};
ghost use Rattle.soy_pieces.specs.Pieces.{RunContext, template_run};
ghost use Rattle.soy_meaning.specs.Runs.FrameRun.{FrameRun, entry_frame, run_outcome, run_plan};
ghost use Rattle.soy_meaning.specs.Runs.RunsAlong.{BindsValues, EnvRuns, FilledByRuns, FitsClasses, IsFrameWithin};
ghost use Rattle.soy_meaning.specs.Runs.RunsAlong.{RunsAlong};
ghost use Rattle.soy_meaning.specs.Runs.StopsWithin.{StopsWithin};
ghost use Rattle.soy_meaning.specs.Runs.TypedData.{AreTypedTrees, FitsData};
ghost use Rattle.soy_meaning.specs.Runs.RunPlaces.{ArePlaced, ArePlacedInBoth, FrameWithin};
ghost use Rattle.soy_meaning.specs.Runs.TranslationFits.{TranslationsFit};
ghost use Rattle.soy_meaning.specs.Runs.EqualChoices.{AlikeByChoices, AlikeRuns, EnvsAlike, FilledAlike, NestAlike};
ghost use Rattle.soy_meaning.specs.Runs.PicksValues.{TemplatesPick, param_marks};
ghost use Rattle.soy_meaning.specs.Walks.AcceptedTrees.{AcceptedTrees, walk_trees};
ghost use Rattle.soy_pieces.specs.EscapedAt.{escaped_where, is_text_of};
ghost use Rattle.soy_meaning.specs.Paths.Filled.{Filled, FillsHoles, IsBlockKind, IsFrameOf, filled_pieces};
ghost use Rattle.soy_meaning.specs.Paths.Filled.{parts_of_filled};
ghost use Rattle.soy_meaning.specs.Walks.FourPoints.{AcceptedPaths, StartsAs};
ghost use Rattle.soy_meaning.specs.Walks.Holes.{hole_count, holes_before};
ghost use Rattle.soy_pieces.specs.Outcome as outcome;
ghost use Rattle.soy_pieces.specs.Outcome.{choices_of_outcome};
ghost use Rattle.soy_pieces.specs.Outcome.{end_of_outcome};
ghost use Rattle.soy_pieces.specs.Outcome.{pieces_of_outcome};
ghost use Rattle.soy_meaning.specs.Walks.PageMachine.{page_machine};
ghost use Rattle.soy_meaning.specs.Paths.Plan.{Plan};
ghost use Rattle.soy_pieces.specs.Site.{Site};
ghost use Rattle.soy_meaning.specs.Paths.Blocks.{block_frame, nodes_blocks, plan_frames};
ghost use Rattle.soy_meaning.specs.Paths.PlanOfNodes.{PlanContext, kind_class, nodes_plan, trees_plan};
ghost use Rattle.soy_meaning.specs.Paths.PathParts.{IsPath, PathPart, StandsAfter};
ghost use Rattle.soy_meaning.specs.Paths.Ways.{IsWayOfNodes};
ghost use Rattle.soy_meaning.specs.Walks.States.{AtMost, IsMember};
ghost use Rattle.soy_meaning.specs.Walks.Points.{Address, AtHole, LeadsTo, Point, StandsAt, frame_at, point_at};
ghost use Rattle.soy_meaning.specs.Rows.{ampersand_in_arm, ampersand_in_fallback, ampersand_in_plural};
ghost use Rattle.soy_meaning.specs.Rows.{ampersand_in_translation, block_in_attribute, block_in_title, mixed_places};
ghost use Rattle.soy_meaning.specs.Rows.{narrowed_attributes, number_in_tag, number_in_title, open_tag_in_let};
ghost use Rattle.soy_meaning.specs.Rows.{open_tag_in_param, optional_attribute, refused_source, second_turn};
ghost use Rattle.soy_meaning.specs.Rows.{second_uri_value, seventeen_states, sixteen_states};
ghost use Rattle.soy_pieces.specs.RowTrees.{site_at};
ghost use Rattle.soy_meaning.specs.Rows.{tag_in_translation};
ghost use Rattle.soy_meaning.specs.RunRows.{MeetsPremises};
ghost use Rattle.soy_pieces.specs.RunRows.{attributes_body, block_body};
ghost use Rattle.soy_meaning.specs.RunRows.{blocks_filled, flat_filled};
ghost use Rattle.soy_pieces.specs.RunRows.{block_twice, calls, calls_body, number_env};
ghost use Rattle.soy_pieces.specs.RunRows.{number_param, offset_part};
ghost use Rattle.soy_pieces.specs.RunRows.{plural_part, plural_source, row_context};
ghost use Rattle.soy_pieces.specs.RunRows.{row_template, row_trees, source_body, text_env, text_param};
ghost use Rattle.soy_pieces.specs.RunRows.{translated_context};
ghost use Rattle.soy_meaning.specs.Walks.Walk.{Walked, mixed_at, walk, walk_fault, walked};

/// The escaped form of a value at the place that a state gives, and then the mark that the value sets, lead to the
/// state that the walk has after the hole, for each class of what isn't markup and each text of a value of the class.
pub fn law_hole()
    ensures { (state : State) (class : ValueClass) (text : List ℕ) (context : Dir) →
        IsTrue (takes_class (placing state) class) → IsTrue (is_text_of class text) →
        (out : List ℕ) × (escaped_where (placing state) class text context ≡ Some out) × Leads state out }
{}

/// The value of a typed print, where it is no block, has one of the classes of its hole.
pub fn law_printed_classes()
    ensures { (e : Expr) (scope : Scope) (env : RunEnv) (t : SoyType) (v : Value) → is_formed_expr e ≡ true →
        Fits scope env → type_of e scope ≡ Ok t → is_printed t ≡ true → val e env ≡ Known v →
        IsMember (value_class v) (printed_classes e scope) }
{}

/// The walk over trees meets no fault exactly where what is demanded of all paths holds of each frame. Then the place
/// that it gives to a hole of a frame is the placing of each state in which a path of the frame leads to the hole.
pub fn law_walk()
    ensures accepted { (translation : Message → Option MsgParts) (trees : List Tree) (v : Walked State) →
        walk_trees translation trees ≡ Ok v → AcceptedTrees translation trees }
    ensures walked { (translation : Message → Option MsgParts) (trees : List Tree) → AcceptedTrees translation trees →
        (v : Walked State) × (walk_trees translation trees ≡ Ok v) }
    ensures places { (p : Plan) (w v : Walked State) → walk page_machine p w ≡ Ok v →
        (new : List Place) × (v.places ≡ w.places ++ new) × (length new ≡ hole_count p)
        × ((y : Address) (kind : Kind) (q : Plan) → frame_at p y ≡ Some (kind, q) →
        (x : Address) (classes : List ValueClass) → point_at q x ≡ Some (AtHole classes) →
        (t : State) → StandsAt page_machine q (StartsAs page_machine kind) x t →
        (d : Place) → placing t ≡ Takes (get_or new (holes_before p y + holes_before q x) d)) }
{}

/// The demands are made where arms and turns meet, and hold everywhere: at each point of an accepted frame, and at its
/// end, at most 16 different states stand.
pub fn law_few_states()
    ensures points { (translation : Message → Option MsgParts) (trees : List Tree) → AcceptedTrees translation trees →
        (y : Address) (kind : Kind) (q : Plan) → frame_at (trees_plan translation trees) y ≡ Some (kind, q) →
        (x : Address) (point : Point) → point_at q x ≡ Some point →
        AtMost 16 (StandsAt page_machine q (StartsAs page_machine kind) x) }
    ensures ends { (translation : Message → Option MsgParts) (trees : List Tree) → AcceptedTrees translation trees →
        (y : Address) (kind : Kind) (q : Plan) → frame_at (trees_plan translation trees) y ≡ Some (kind, q) →
        AtMost 16 (StandsAfter page_machine q (StartsAs page_machine kind)) }
{}

/// A frame that stands in a hole, at any depth, keeps what ties the page's state to the walk's: where its hole takes it
/// and its path is one of an accepted frame, the page that has read its pieces goes on as the walk past the hole. The
/// tag around a block of attributes is known to the relation.
pub fn law_frame()
    ensures { (around : Option Tag) (page walk : State) (context : Dir) (kind : Kind) (f : Filled) →
        Follows around page walk → walk.reference ≡ reference.Decided → IsBlockKind kind →
        IsTrue (takes_class (placing walk) (kind_class kind)) → IsFrameOf kind (parts_of_filled f) → FillsHoles f →
        (now : State) × (after_pieces page (filled_pieces context f kind []) ≡ Ok now)
        × Follows around now (after_value walk) }
{}

/// Where the walk meets no fault, the place of a hole of a frame, by the frame's pieces so far with the characters of
/// their values and of the frames in them, is the one that the walk gave.
pub fn law_places_are_static()
    ensures { (p : Plan) (w v : Walked State) → walk page_machine p w ≡ Ok v →
        (new : List Place) × (v.places ≡ w.places ++ new) × (length new ≡ hole_count p)
        × ((y : Address) (kind : Kind) (q : Plan) → frame_at p y ≡ Some (kind, q) →
        (x : Address) (classes : List ValueClass) → point_at q x ≡ Some (AtHole classes) →
        (context : Dir) (f : Filled) → LeadsTo q (parts_of_filled f) x → FillsHoles f →
        (d : Place) → placing_after kind (filled_pieces context f kind [])
        ≡ Ok (Takes (get_or new (holes_before p y + holes_before q x) d))) }
{}

/// A plan has the ways through its tree as its paths, and the blocks that stand in the tree as its frames, each with
/// the plan of its body in the scope that it sees.
pub fn law_plan_is_of_tree()
    ensures paths { (c : PlanContext) (ns : Nodes) (scope : Scope) (l : List PathPart) →
        IsPath (nodes_plan c ns scope) l → IsWayOfNodes c ns scope l }
    ensures ways { (c : PlanContext) (ns : Nodes) (scope : Scope) (l : List PathPart) →
        IsWayOfNodes c ns scope l → IsPath (nodes_plan c ns scope) l }
    ensures frames { (c : PlanContext) (ns : Nodes) (scope : Scope) →
        plan_frames (nodes_plan c ns scope) ≡ map (block_frame c) (nodes_blocks ns scope) }
{}

/// What a template gives goes along a path of its plan, under any bundle whose translations fit their messages, and any
/// variables whose blocks run along frames of the trees, as data do, which hold no blocks: the pieces are those of a
/// path, or of a prefix of one where it stops at a call, with each hole filled by a value or by the run of the frame
/// that is printed or called at its command. Under data alone the call at which it stops comes in a frame that the
/// hundredth call has opened.
pub fn law_runs_are_paths()
    ensures runs { (c : RunContext) (trees : List Tree) (d : Declared) (env : RunEnv) →
        c.declared ≡ declared trees → IsMember d c.declared → TranslationsFit c.translation c.declared →
        EnvRuns c (trees_plan c.translation trees) env →
        RunsAlong c (trees_plan c.translation trees) (entry_frame d env) }
    ensures entry { (c : RunContext) (d : Declared) (env : RunEnv) →
        run_outcome c (entry_frame d env) ≡ template_run c d env }
    ensures stops { (c : RunContext) (d : Declared) (env : RunEnv) (call : Site) →
        IsMember d c.declared → TranslationsFit c.translation c.declared → BindsValues env →
        end_of_outcome (template_run c d env) ≡ outcome.StopsAt call → StopsWithin c (entry_frame d env) call }
    ensures frames { (c : RunContext) (trees : List Tree) (d : Declared) (env : RunEnv) →
        c.declared ≡ declared trees → IsMember d c.declared →
        IsFrameWithin (trees_plan c.translation trees) d.template.kind (run_plan c (entry_frame d env)) }
{}

/// Where expressions pick values alone, two runs of a template with the same choices are alike: the same texts stand
/// there, in nested frames too, with values at the same points between them, and both end whole or stop at the same
/// call. So it is for all environments that bind values, or blocks that are alike by their choices. The choices of
/// neither run begin those of the other.
pub fn law_equal_choices()
    ensures alike { (c : RunContext) (d : Declared) (env other : RunEnv) → IsMember d c.declared →
        TranslationsFit c.translation c.declared → TemplatesPick c c.declared →
        EnvsAlike (param_marks d.template.params) env other →
        choices_of_outcome (template_run c d env) ≡ choices_of_outcome (template_run c d other) →
        AlikeRuns (template_run c d env) (template_run c d other) }
    ensures no_beginning { (c : RunContext) (d : Declared) (env other : RunEnv) → IsMember d c.declared →
        TranslationsFit c.translation c.declared → TemplatesPick c c.declared →
        EnvsAlike (param_marks d.template.params) env other →
        AlikeByChoices (template_run c d env) (template_run c d other) }
{}

/// Under accepted paths what fills a path by runs fills its holes, where values and frames have classes of theirs. The
/// pieces of a run are read without a fault then, also those of one that stops.
pub fn law_runs_are_read()
    ensures holes { (c : RunContext) (whole : Plan) (q : FrameRun) (f : Filled) → AcceptedPaths page_machine whole →
        FilledByRuns c whole q outcome.WholeRun f → FitsClasses f → FillsHoles f }
    ensures read { (c : RunContext) (whole : Plan) (q : FrameRun) →
        AcceptedPaths page_machine whole → IsFrameWithin whole q.kind (run_plan c q) → (r : RunsAlong c whole q) →
        FitsClasses r.filled → (now : State)
        × (after_pieces (start q.kind) (pieces_of_outcome (run_outcome c q)) ≡ Ok now) }
{}

/// A template of typed trees, under data that fit it and a bundle whose translations fit their messages, runs along a
/// path in whose holes each value and each frame, at any depth, has one of the hole's classes. So under accepted paths
/// its pieces are read without a fault. And where the walk meets no fault, whatever fills the holes of a run with
/// values and frames of their classes stands, by the pieces of its frame so far, at the places that the walk gave.
pub fn law_typed_runs()
    ensures classes { (c : RunContext) (trees : List Tree) (d : Declared) (env : RunEnv) →
        c.declared ≡ declared trees → IsMember d c.declared → AreTypedTrees trees →
        TranslationsFit c.translation c.declared → FitsData d env →
        (r : RunsAlong c (trees_plan c.translation trees) (entry_frame d env)) × FitsClasses r.filled }
    ensures read { (c : RunContext) (trees : List Tree) (d : Declared) (env : RunEnv) →
        c.declared ≡ declared trees → IsMember d c.declared → AreTypedTrees trees →
        TranslationsFit c.translation c.declared → FitsData d env → AcceptedTrees c.translation trees →
        (now : State) × (after_pieces (start d.template.kind) (pieces_of_outcome (template_run c d env)) ≡ Ok now) }
    ensures places { (c : RunContext) (trees : List Tree) (d : Declared) (env : RunEnv) →
        c.declared ≡ declared trees → IsMember d c.declared → (v : Walked State) →
        walk_trees c.translation trees ≡ Ok v →
        (r : RunsAlong c (trees_plan c.translation trees) (entry_frame d env)) → FitsClasses r.filled →
        (q : FrameWithin (trees_plan c.translation trees) d.template.kind)
        × ArePlaced (trees_plan c.translation trees) v.places c.direction d.template.kind q [] [] r.filled }
{}

/// In typed trees expressions pick values alone. So two runs of a template with the same choices, each under data that
/// fit it, are alike, and the choices of neither begin those of the other.
pub fn law_typed_choices()
    ensures picks { (c : RunContext) (trees : List Tree) → c.declared ≡ declared trees → AreTypedTrees trees →
        TemplatesPick c c.declared }
    ensures alike { (c : RunContext) (trees : List Tree) (d : Declared) (env other : RunEnv) →
        c.declared ≡ declared trees → IsMember d c.declared → AreTypedTrees trees →
        TranslationsFit c.translation c.declared → FitsData d env → FitsData d other →
        choices_of_outcome (template_run c d env) ≡ choices_of_outcome (template_run c d other) →
        AlikeRuns (template_run c d env) (template_run c d other) }
    ensures no_beginning { (c : RunContext) (trees : List Tree) (d : Declared) (env other : RunEnv) →
        c.declared ≡ declared trees → IsMember d c.declared → AreTypedTrees trees →
        TranslationsFit c.translation c.declared → FitsData d env → FitsData d other →
        AlikeByChoices (template_run c d env) (template_run c d other) }
{}

/// Two runs of a template with the same choices, under data, nest their frames alike: they go along one path of the
/// template's plan, with values in the same holes of it, and in each other hole two frames of one kind, which go along
/// paths with the same parts in their turn. Where they stop, that is the path up to the stop. In typed trees each value
/// and each frame of both has one of its hole's classes. Where the walk meets no fault, what stands in a hole of the
/// path, at any depth, stands then in both runs at the place that the walk gave to one hole.
pub fn law_alike_nests()
    ensures alike { (c : RunContext) (trees : List Tree) (d : Declared) (env other : RunEnv) →
        c.declared ≡ declared trees → IsMember d c.declared → TranslationsFit c.translation c.declared →
        TemplatesPick c c.declared → EnvsAlike (param_marks d.template.params) env other → BindsValues env →
        BindsValues other →
        choices_of_outcome (template_run c d env) ≡ choices_of_outcome (template_run c d other) →
        NestAlike c (trees_plan c.translation trees) (entry_frame d env) (entry_frame d other) }
    ensures classes { (c : RunContext) (trees : List Tree) (d : Declared) (env other : RunEnv) →
        c.declared ≡ declared trees → IsMember d c.declared → AreTypedTrees trees →
        TranslationsFit c.translation c.declared → FitsData d env → FitsData d other →
        choices_of_outcome (template_run c d env) ≡ choices_of_outcome (template_run c d other) →
        (n : NestAlike c (trees_plan c.translation trees) (entry_frame d env) (entry_frame d other))
        × FitsClasses n.one.filled × FitsClasses n.two.filled }
    ensures path { (f g : Filled) → FilledAlike f g → parts_of_filled f ≡ parts_of_filled g }
    ensures places { (c : RunContext) (trees : List Tree) (d : Declared) (env other : RunEnv) →
        c.declared ≡ declared trees → IsMember d c.declared → (v : Walked State) →
        walk_trees c.translation trees ≡ Ok v →
        (n : NestAlike c (trees_plan c.translation trees) (entry_frame d env) (entry_frame d other)) →
        FitsClasses n.one.filled → FitsClasses n.two.filled →
        (q : FrameWithin (trees_plan c.translation trees) d.template.kind)
        × ArePlacedInBoth (trees_plan c.translation trees) v.places c.direction d.template.kind q [] [] [] n.one.filled
        n.two.filled }
{}

/// Rows that the checker computes: which fault the walk meets first, and where, or that it meets none.
pub fn law_rows()
    ensures second_uri_value { second_uri_value ≡ Err (walk_fault (site_at 13) code.UriStart) }
    ensures second_turn { second_turn ≡ Err (mixed_at (site_at 23) (Takes place.UriStart) (Refuses code.UriStart)) }
    ensures mixed_places { mixed_places ≡ Err (mixed_at (site_at 21) (Takes place.UriStart) (Takes place.Tag)) }
    ensures optional_attribute { optional_attribute ≡ Ok (walked [] []) }
    ensures block_in_attribute { block_in_attribute ≡ Ok (walked [] (place.UriStart ∷ [])) }
    ensures open_tag_in_let { open_tag_in_let ≡ Err (walk_fault (site_at 22) code.EndState) }
    ensures open_tag_in_param { open_tag_in_param ≡ Err (walk_fault (site_at 31) code.EndState) }
    ensures block_in_title { block_in_title ≡ Err (walk_fault (site_at 37) code.Place) }
    ensures narrowed_attributes { narrowed_attributes ≡ Ok (walked [] (place.Tag ∷ [])) }
    ensures ampersand_in_translation { ampersand_in_translation ≡ Err (walk_fault (site_at 10) code.Ampersand) }
    ensures ampersand_in_fallback { ampersand_in_fallback ≡ Err (walk_fault (site_at 10) code.Ampersand) }
    ensures ampersand_in_plural { ampersand_in_plural ≡ Err (walk_fault (site_at 53) code.Ampersand) }
    ensures ampersand_in_arm { ampersand_in_arm ≡ Err (walk_fault (site_at 10) code.Ampersand) }
    ensures refused_source { refused_source ≡ Err (walk_fault (site_at 14) code.InName) }
    ensures tag_in_translation { tag_in_translation ≡ Ok (walked [] (place.UriStart ∷ place.UriStart ∷ [])) }
    ensures number_in_title { number_in_title ≡ Ok (walked [] (place.Attr ∷ [])) }
    ensures number_in_tag { number_in_tag ≡ Err (walk_fault (site_at 7) code.Place) }
    ensures sixteen_states { sixteen_states ≡ Err (walk_fault (site_at 100) code.EndState) }
    ensures seventeen_states { seventeen_states ≡ Err (walk_fault (site_at 0) code.States) }
{}

/// Rows that the checker computes: what fills the path of a template that prints a block twice. Two runs of it nest
/// their frames alike, and a template with the same pieces and no block doesn't nest as it does.
pub fn law_nest_rows()
    ensures pieces { filled_pieces dir.Ltr (blocks_filled (codes "q")) kind.Html []
        ≡ pieces_of_outcome (block_twice (codes "q")) }
    ensures path { IsPath (run_plan (row_context (text_param (codes "x")) block_body)
        (entry_frame (row_template (text_param (codes "x")) block_body) (text_env (codes "x") (codes "q"))))
        (parts_of_filled (blocks_filled (codes "q"))) }
    ensures alike { FilledAlike (blocks_filled (codes "q")) (blocks_filled (codes "<7")) }
    ensures same_pieces { filled_pieces dir.Ltr (flat_filled (codes "7")) kind.Html []
        ≡ filled_pieces dir.Ltr (blocks_filled (codes "7")) kind.Html [] }
    ensures apart { FilledAlike (blocks_filled (codes "7")) (flat_filled (codes "7")) → ⊥ }
{}

/// The files of the rows meet what the laws on runs ask, and their variables what those on choices do: data bind no
/// blocks, and two numbers are alike.
pub fn law_row_premises()
    ensures block { MeetsPremises (row_context (text_param (codes "x")) block_body) (text_param (codes "x")) block_body
        (place.Text ∷ place.Text ∷ place.Text ∷ []) }
    ensures attributes { MeetsPremises (row_context (text_param (codes "k")) attributes_body) (text_param (codes "k"))
        attributes_body (place.Attr ∷ place.Tag ∷ []) }
    ensures calls { MeetsPremises (row_context number_param calls_body) number_param calls_body (place.Text ∷ []) }
    ensures source { MeetsPremises (row_context number_param source_body) number_param source_body (place.Text ∷ []) }
    ensures plural { MeetsPremises (translated_context plural_part) number_param plural_source (place.Text ∷ []) }
    ensures offset { MeetsPremises (translated_context offset_part) number_param plural_source (place.Text ∷ []) }
    ensures values { (n : ℤ) → BindsValues (number_env n) }
    ensures alike { (n m : ℤ) (body : List Node) →
        EnvsAlike (param_marks (row_template number_param body).template.params) (number_env n) (number_env m) }
{}

/// The files of the rows are typed, and their data fit.
pub fn law_typed_rows()
    ensures block { AreTypedTrees (row_trees (text_param (codes "x")) block_body) }
    ensures attributes { AreTypedTrees (row_trees (text_param (codes "k")) attributes_body) }
    ensures calls { AreTypedTrees (row_trees number_param calls_body) }
    ensures source { AreTypedTrees (row_trees number_param source_body) }
    ensures plural { AreTypedTrees (row_trees number_param plural_source) }
    ensures number { (n : ℤ) (body : List Node) → IsWithinRange n →
        FitsData (row_template number_param body) (number_env n) }
    ensures text { (name text : List ℕ) (body : List Node) →
        FitsData (row_template (text_param name) body) (text_env name text) }
{}
