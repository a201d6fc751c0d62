//! The laws of the answer: contracts with an empty body, so they hold of the definitions that the code follows.

ghost use Rattle.std.specs.Prelude.{◌≡◌, ℕ, ◌≤◌, List, Option, Some, IfSome, length, slice_get};
ghost use Rattle.std.specs.Str.{IsUtf8};
ghost use Rattle.alike_files.specs.AllAlike.{AllAlike};
ghost use Rattle.alike_files.specs.IdsIn.{ids_in};
ghost use Rattle.alike_files.specs.MeaningUnder.{meaning_under};
ghost use Rattle.soy_desk.specs.Alone.{left_of};
ghost use Rattle.soy_desk.specs.DeskRun.{DeskRun, Step};
ghost use Rattle.soy_desk.specs.DeskState.{DeskState, desk_with, first_rest};
ghost use Rattle.soy_front.specs.Accepted.{Accepted};
ghost use Rattle.soy_front.specs.Compiled.{AreCompiled};
ghost use Rattle.soy_front.specs.Entries.{entry_number};
ghost use Rattle.soy_front.specs.FilesAnswer.{files_answer};
ghost use Rattle.soy_front.specs.FrontAnswer.{front_answer};
ghost use Rattle.soy_front.specs.declared.compiling.Compiled.{Compiled};
ghost use Rattle.soy_io.specs.FileOf.{Files, file_of};
ghost use Rattle.soy_meaning.specs.Runs.TypedData.{FitsData};
ghost use Rattle.soy_top.specs.Commands.AcceptedRender.{AcceptedPreview, AcceptedRender};
ghost use Rattle.soy_top.specs.AlikeFiles.{AlikeFiles};
ghost use Rattle.soy_top.specs.AnswersWithoutPositions.{answer_without_positions, files_without_positions};
ghost use Rattle.soy_top.specs.Answer.{Done, Refused, TooDeep, answer, known_answer, template_outcome};
ghost use Rattle.soy_top.specs.Asked.{asked_by_words};
ghost use Rattle.soy_top.specs.Scripts.DeskLines.{ShowsAll};
ghost use Rattle.soy_top.specs.Commands.IsFormatted.{IsFormatted};
ghost use Rattle.soy_top.specs.Commands.IsPage.{IsRefusedPage};
ghost use Rattle.soy_top.specs.Commands.IsPreview.{IsRefusedPreview};
ghost use Rattle.soy_top.specs.Commands.IsRefusedFormat.{AreFormat, IsRefusedFormat};
ghost use Rattle.soy_top.specs.Commands.IsStopped.{IsStopped};
ghost use Rattle.soy_top.specs.Commands.IsText.{IsText};
ghost use Rattle.soy_top.specs.Commands.OneText.{IsOneText};
ghost use Rattle.soy_top.specs.Scripts.Played.{PlayStep, first_left, played_text};
ghost use Rattle.soy_top.specs.ReadBack.{AreCanonical, IsCanonicalOf, IsReadBack};
ghost use Rattle.soy_top.specs.RenderAsked.{AsksRender};
ghost use Rattle.soy_top.specs.Rendered.{Rendered, known_rendered, rendered_answer};
ghost use Rattle.soy_top.specs.Words.{Word};
ghost use Rattle.soy_rules.specs.Templates.{Declared, declared};
ghost use Rattle.soy_tree.specs.Trees.{Tree};
ghost use Rattle.soy_tree.specs.Types.{Name};
ghost use Rattle.soy_tree.specs.Values as values;
ghost use Rattle.soy_tree.specs.ViewTrees.{view_trees};
ghost use Rattle.soy_tree.specs.ViewValues.{view_value};
ghost use Rattle.soy_tree.specs.declared.bundle.Bundle.{Bundle};
ghost use Rattle.soy_tree.specs.declared.value.Value.{Value};
ghost use Rattle.soy_pieces.specs.InputEnv.{input_env, names_of};
ghost use Rattle.template_ir.specs.declared.program.ProgramParts.{ProgramParts};

/// The answer is a text exactly where the text is the page, the catalogue, the lines of the script, the shown lines or
/// the canonical source of the words and of the files that are held, or says that these are accepted, or is the summary
/// of the workload that the words name. It is a text that ends too deep exactly where that is a page up to a call that
/// nests too deep, or nothing of a `preview` that ends at one, with the line of the call. Of a `render` whose files and
/// bundle are accepted, it is a refusal exactly where no template may be rendered under the name (29), the data are no
/// JSON (27) or they give no values (28).
pub fn law_answer_is_text()
    ensures text { (files : Files) (words : List Word) (text : List ℕ) → answer files words ≡ Done text →
        IsText files words text }
    ensures only_text { (files : Files) (words : List Word) (text : List ℕ) → IsText files words text →
        answer files words ≡ Done text }
    ensures stopped { (files : Files) (words : List Word) (text line : List ℕ) →
        answer files words ≡ TooDeep text line → IsStopped files words text line }
    ensures only_stopped { (files : Files) (words : List Word) (text line : List ℕ) →
        IsStopped files words text line → answer files words ≡ TooDeep text line }
    ensures refused { (files : Files) (words : List Word) (line : List ℕ) → AcceptedRender files words →
        answer files words ≡ Refused line → IsRefusedPage files words line }
    ensures only_refused { (files : Files) (words : List Word) (line : List ℕ) → IsRefusedPage files words line →
        answer files words ≡ Refused line }
{}

/// Of a `preview` whose files and bundle are accepted, the answer is a refusal exactly where no template may be
/// previewed under the name (29), the data are no JSON (27), they give no values (28) or the page is too long (33).
pub fn law_refused_preview()
    ensures refused { (files : Files) (words : List Word) (line : List ℕ) → AcceptedPreview files words →
        answer files words ≡ Refused line → IsRefusedPreview files words line }
    ensures only_refused { (files : Files) (words : List Word) (line : List ℕ) → IsRefusedPreview files words line →
        answer files words ≡ Refused line }
{}

/// The answer to a `format` is a refusal exactly where its file is held and is over the limit (2), or deserves a fault
/// by itself: 1, 3, 4, 5, or the 8 of an unknown type name.
pub fn law_refused_format()
    ensures refused { (files : Files) (words : List Word) (name : Word) (line : List ℕ) → AreFormat words name →
        answer files words ≡ Refused line → IsRefusedFormat files words line }
    ensures only_refused { (files : Files) (words : List Word) (line : List ℕ) → IsRefusedFormat files words line →
        answer files words ≡ Refused line }
{}

/// What a `format` answers is the canonical source of its file. Where that is UTF-8 and no larger than a file may be, it
/// has a tree by itself, which differs in spans alone from the file's; it is its own canonical source, so another
/// `format` answers it again; and files and their canonical sources are alike.
pub fn law_canonical_source()
    ensures formatted { (files : Files) (words : List Word) (text : List ℕ) (is : IsFormatted files words text) →
        IsUtf8 text → length text ≤ 1048576 → IsCanonicalOf is.bytes text }
    ensures read_back { (bytes text : List ℕ) (is : IsCanonicalOf bytes text) → IsReadBack text is.tree }
    ensures again { (files : Files) (words : List Word) (name : Word) (bytes text : List ℕ) →
        IsCanonicalOf bytes text → AreFormat words name → file_of files name ≡ Some text →
        answer files words ≡ Done text }
    ensures alike { (contents texts : List (List ℕ)) → AreCanonical contents texts → AlikeFiles contents texts }
{}

/// Files whose trees are alike are accepted alike under every bundle: both or neither, and what is answered of them is
/// the same but for positions. So is what is answered of the files alone. They have the same ids; their templates of
/// one number mean the same, for all data and bundles; and a name is that of the same entry.
pub fn law_alike_files()
    ensures accepted { (contents others : List (List ℕ)) (bundle : Option (List ℕ)) → AlikeFiles contents others →
        Accepted contents bundle → Accepted others bundle }
    ensures answers { (contents others : List (List ℕ)) (bundle : Option (List ℕ)) → AlikeFiles contents others →
        answer_without_positions (front_answer contents bundle)
        ≡ answer_without_positions (front_answer others bundle) }
    ensures files { (contents others : List (List ℕ)) → AlikeFiles contents others →
        files_without_positions (files_answer contents) ≡ files_without_positions (files_answer others) }
    ensures ids { (contents others : List (List ℕ)) (are : AlikeFiles contents others) →
        ids_in (view_trees are.trees) ≡ ids_in (view_trees are.other_trees) }
    ensures meaning { (contents others : List (List ℕ)) (are : AlikeFiles contents others) (bundle : Bundle)
        (number : ℕ) (d other : Declared) (v : values.Value) →
        slice_get (declared (view_trees are.trees)) number ≡ Some d →
        slice_get (declared (view_trees are.other_trees)) number ≡ Some other →
        meaning_under bundle (view_trees are.trees) d v ≡ meaning_under bundle (view_trees are.other_trees) other v }
    ensures entries { (trees others : List Tree) (name : Name) → AllAlike trees others →
        entry_number name (declared trees) ≡ entry_number name (declared others) }
{}

/// What is written for the steps of a script is what a desk shows: for every list of steps of a new desk, on which the
/// program of the first bundle is published, of which each stands for one step of the script and none was refused by
/// memory.
pub fn law_desk_shows()
    ensures { (first second : ProgramParts) (steps : List PlayStep) (run : List Step) (after : DeskState)
        (text : List ℕ) → DeskRun (desk_with first) run after → ShowsAll first second steps run text →
        text ≡ played_text steps }
{}

/// What a rendering has to give at first, of a program that files are compiled to under a bundle, is what the template
/// gives under the bundle.
pub fn law_first_left()
    ensures { (contents : List (List ℕ)) (bundle : Option (List ℕ)) (c : Compiled)
        (are : AreCompiled contents bundle c) (number : ℕ) (d : Declared) →
        slice_get (declared (view_trees c.typed)) number ≡ Some d → (input : Value) →
        FitsData d (input_env (names_of d.template.params) (view_value input)) →
        left_of (first_rest c.program input number) ≡ first_left (template_outcome are.of d (view_value input)) }
{}

/// A page that is rendered is the answer, to words that ask for a `render`; and where the answer to such words is a
/// text, whole or up to a call that nests too deep, a page is rendered.
pub fn law_rendered_answer()
    ensures answer { (held : Option Files) (words : List Word) → IfSome (known_rendered held words) (λ page.
        AsksRender (asked_by_words words) × (known_answer held words ≡ Some (rendered_answer page))) }
    ensures whole { (held : Option Files) (words : List Word) (text : List ℕ) → AsksRender (asked_by_words words) →
        known_answer held words ≡ Some (Done text) → (page : Rendered) × (known_rendered held words ≡ Some page) }
    ensures stopped { (held : Option Files) (words : List Word) (text line : List ℕ) →
        AsksRender (asked_by_words words) → known_answer held words ≡ Some (TooDeep text line) →
        (page : Rendered) × (known_rendered held words ≡ Some page) }
{}

/// An html page that is rendered, taken as one static text, is read to its end without a fault.
pub fn law_page_is_one_text()
    ensures { (held : Option Files) (words : List Word) → IfSome (known_rendered held words) (λ page. IsOneText page) }
{}
