//! The laws of files and of their first fault. Each is a contract with an empty body.

ghost use Rattle.std.specs.Prelude.{◌≡◌, ℕ, List, Option, Result, Ok, Err, Some, slice_get};
ghost use Rattle.soy_base.specs.declared.fault.Fault.{Fault};
ghost use Rattle.soy_tree.specs.declared.tree.Tree.{Tree};
ghost use Rattle.soy_rules.specs.ShortLists.{HasShortLists};
ghost use Rattle.soy_rules.specs.Templates.{Declared, declared};
ghost use Rattle.soy_rules.specs.Typed.{AreTyped, params_at, templates_of};
ghost use Rattle.soy_tree.specs.Values.{Value};
ghost use Rattle.soy_tree.specs.ViewTrees.{view_params, view_trees};
ghost use Rattle.msg_extract.specs.declared.catalogue.Listed.{Listed};
ghost use Rattle.soy_types.specs.ReadData.{data_at};
ghost use Rattle.soy_meaning.specs.Runs.TypedData.{FitsData};
ghost use Rattle.soy_pieces.specs.InputEnv.{input_env, names_of};
ghost use Rattle.soy_front.specs.Accepted.{Accepted, AreFiles, FilesFault, FirstFault};
ghost use Rattle.soy_front.specs.Accepts.{AreAcceptedAs};
ghost use Rattle.soy_front.specs.Deserves.{Deserves};
ghost use Rattle.soy_front.specs.DetailAnswer.{front_detail};
ghost use Rattle.soy_front.specs.Details.{fault_detail};
ghost use Rattle.soy_front.specs.FilesAnswer.{ReadFiles, files_answer};
ghost use Rattle.soy_front.specs.FrontAnswer.{DeserveFront, Front, IsFront, front_answer};
ghost use Rattle.soy_front.specs.Sources.{source_answer};
ghost use Rattle.soy_front.specs.declared.accepting.AcceptedFiles.{AcceptedFiles};
ghost use Rattle.soy_front.specs.declared.fault.FrontFault.{FrontFault};

/// What a file is answered by is its tree or its first fault by the rules of its text, its tokens and the grammar, and
/// nothing else.
pub fn law_source_answer()
    ensures deserved { (bytes : List ℕ) → Deserves bytes (source_answer bytes) }
    ensures only { (bytes : List ℕ) (answer : Result Tree Fault) → Deserves bytes answer →
        source_answer bytes ≡ answer }
{}

/// What files are answered by are the trees that they deserve, which meet all demands, with their catalogue, or their
/// first fault, and nothing else.
pub fn law_files()
    ensures read { (contents : List (List ℕ)) (files : ReadFiles) → files_answer contents ≡ Ok files →
        AreFiles contents files.trees files.rows }
    ensures refused { (contents : List (List ℕ)) (fault : Fault) → files_answer contents ≡ Err fault →
        FilesFault contents fault }
    ensures only_files { (contents : List (List ℕ)) (trees : List Tree) (rows : List Listed) →
        AreFiles contents trees rows → files_answer contents ≡ Ok (record { trees = trees; rows = rows }) }
    ensures only_fault { (contents : List (List ℕ)) (fault : Fault) → FilesFault contents fault →
        files_answer contents ≡ Err fault }
{}

/// Files and a bundle that are accepted have no first fault, and others have one at most. So each answer of `accept`
/// comes exactly where it is said.
pub fn law_first_fault()
    ensures apart { (contents : List (List ℕ)) (bundle : Option (List ℕ)) (fault : FrontFault) →
        Accepted contents bundle → FirstFault contents bundle fault → ⊥ }
    ensures one { (contents : List (List ℕ)) (bundle : Option (List ℕ)) (fault other : FrontFault) →
        FirstFault contents bundle fault → FirstFault contents bundle other → fault ≡ other }
{}

/// What files and a bundle are answered by is what they are accepted as, where they are, or their first fault, and
/// nothing else; and what is accepted of them is what they are answered by.
pub fn law_front_answer()
    ensures accepted { (contents : List (List ℕ)) (bundle : Option (List ℕ)) (of : Front) →
        front_answer contents bundle ≡ Ok of → Accepted contents bundle }
    ensures deserved { (contents : List (List ℕ)) (bundle : Option (List ℕ)) (of : Front) →
        front_answer contents bundle ≡ Ok of → DeserveFront contents bundle of }
    ensures refused { (contents : List (List ℕ)) (bundle : Option (List ℕ)) (fault : FrontFault) →
        front_answer contents bundle ≡ Err fault → FirstFault contents bundle fault }
    ensures only_accepted { (contents : List (List ℕ)) (bundle : Option (List ℕ)) (a : AcceptedFiles) →
        AreAcceptedAs contents bundle a → IsFront (front_answer contents bundle) a }
    ensures only_fault { (contents : List (List ℕ)) (bundle : Option (List ℕ)) (fault : FrontFault) →
        FirstFault contents bundle fault → front_answer contents bundle ≡ Err fault }
{}

/// What goes with a refusal of files and a bundle is what goes with their first fault by the rule that finds it.
pub fn law_detail()
    ensures { (contents : List (List ℕ)) (bundle : Option (List ℕ)) (fault : FrontFault)
        (first : FirstFault contents bundle fault) →
        front_detail contents bundle ≡ fault_detail contents bundle fault first }
{}

/// Data that are read for the parameters of a template of typed trees, and whose lists are short, fit the template.
pub fn law_data_fits()
    ensures { (trees : List Tree) (number : ℕ) (d : Declared) (bytes : List ℕ) (v : Value) → AreTyped trees →
        slice_get (declared (view_trees trees)) number ≡ Some d →
        data_at (view_params (params_at number (templates_of trees))) bytes ≡ Ok v → HasShortLists v →
        FitsData d (input_env (names_of d.template.params) v) }
{}
