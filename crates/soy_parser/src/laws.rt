//! What holds of the grammar and of the machine: functions that take nothing and do nothing, whose contracts are the
//! laws.

ghost use Rattle.std.specs.Prelude.{◌≡◌, ◌≢◌, ℕ, Bool, true, List, Some, Result, Err};
ghost use Rattle.soy_base.specs.declared.fault.Fault.{Fault};
ghost use Rattle.soy_base.specs.declared.memory.Refusal.{Refusal};
ghost use Rattle.soy_base.specs.declared.memory.Refusal.TheVariants.{OutOfMemory};
ghost use Rattle.soy_base.specs.ByteLength.{byte_len};
ghost use Rattle.soy_lexer.specs.InOrder.{InOrder};
ghost use Rattle.soy_lexer.specs.Tokens.{Tokens};
ghost use Rattle.soy_lexer.specs.declared.token.Token.{Token};
ghost use Rattle.soy_tree.specs.Formed.{is_formed_tree};
ghost use Rattle.soy_tree.specs.ViewTrees.{view_tree};
ghost use Rattle.soy_tree.specs.declared.tree.Tree.{Tree};
ghost use Rattle.expr_parser.specs.AreNamed.{AreNamed};
ghost use Rattle.expr_parser.specs.Depths.{AreWithin};
ghost use Rattle.soy_parser.specs.FileSpans.{TreeAscends};
ghost use Rattle.soy_parser.specs.FileRuns.{file_run, file_depths, file_words};
ghost use Rattle.soy_parser.specs.FileSteps.{file_start, whole_file};
ghost use Rattle.soy_parser.specs.ParsesFile.{IsFile, ParsesFile};
ghost use Rattle.soy_parser.specs.SpellsFile.{SpellsFile, BeginsFile};
ghost use Rattle.soy_parser.specs.declared.spot.FileState.{FileState};

/// A list of tokens has one answer as a file, but where memory runs out.
pub fn law_one_answer()
    ensures { (file : ℕ) (tokens : List Token) (a b : Result Tree (Refusal Fault)) →
        ParsesFile file tokens a → ParsesFile file tokens b → a ≢ Err OutOfMemory → b ≢ Err OutOfMemory → a ≡ b }
{}

/// A list of tokens spells one file at most, and has one depth at each token and one set of words that stand as types.
pub fn law_one_file()
    ensures one_file { (tokens : List Token) (ds es : List ℕ) (ws vs : List Bool) (x y : Tree) →
        SpellsFile tokens ds ws x → SpellsFile tokens es vs y → x ≡ y }
    ensures one_depth { (tokens : List Token) (ds es : List ℕ) (ws vs : List Bool) →
        BeginsFile tokens ds ws → BeginsFile tokens es vs → ds ≡ es }
    ensures one_word { (tokens : List Token) (ds es : List ℕ) (ws vs : List Bool) →
        BeginsFile tokens ds ws → BeginsFile tokens es vs → ws ≡ vs }
{}

/// The machine has a state after tokens exactly where some file begins with them, its depths are those at the tokens
/// and its words those that stand as types, and what it has read is a whole file exactly where they spell one.
pub fn law_file_machine()
    ensures runs { (tokens : List Token) (ds : List ℕ) (ws : List Bool) → BeginsFile tokens ds ws →
        (s : FileState) × (file_run tokens file_start ≡ Some s) × (ds ≡ file_depths tokens file_start)
        × (ws ≡ file_words tokens file_start) }
    ensures begins { (tokens : List Token) (s : FileState) → file_run tokens file_start ≡ Some s →
        BeginsFile tokens (file_depths tokens file_start) (file_words tokens file_start) }
    ensures whole { (tokens : List Token) (s : FileState) (x : Tree) → file_run tokens file_start ≡ Some s →
        whole_file s ≡ Some x → SpellsFile tokens (file_depths tokens file_start) (file_words tokens file_start) x }
    ensures spelled { (tokens : List Token) (ds : List ℕ) (ws : List Bool) (x : Tree) → SpellsFile tokens ds ws x →
        (s : FileState) × (file_run tokens file_start ≡ Some s) × (whole_file s ≡ Some x) }
{}

/// The tree of a file is formed, as the grammar has its ints, names, texts and messages: where the words and variables
/// of the tokens are names and none lies too deep, and so for each tree that `parse` answers for the tokens of a text.
pub fn law_formed_file()
    ensures formed { (tokens : List Token) (ds : List ℕ) (ws : List Bool) (x : Tree) → AreNamed tokens →
        AreWithin 0 ds → SpellsFile tokens ds ws x → is_formed_tree (view_tree x) ≡ true }
    ensures of_a_text { (text : List ℕ) (tokens : List Token) (x : Tree) → Tokens text tokens → IsFile tokens x →
        is_formed_tree (view_tree x) ≡ true }
{}

/// The spans of a file lie within its text and ascend: that of a node holds those of the nodes and expressions in it,
/// and what stands beside it begins at its end or further on, unless it is the same body, as the cases of one
/// `{case 1, 2}` have it.
pub fn law_file_spans()
    ensures in_order { (tokens : List Token) (ds : List ℕ) (ws : List Bool) (x : Tree) (from to : ℕ) →
        InOrder from to tokens → SpellsFile tokens ds ws x → TreeAscends from to (view_tree x) }
    ensures of_a_text { (text : List ℕ) (tokens : List Token) (x : Tree) → Tokens text tokens → IsFile tokens x →
        TreeAscends 0 (byte_len text) (view_tree x) }
{}
