//! What holds of canonical source: functions with an empty body, whose contracts are the laws.
ghost use Rattle.std.specs.Prelude.{◌≡◌, ◌≤◌, ℕ, true, [], List, Bool, Result, length};
ghost use Rattle.std.specs.Str.{chars};
ghost use Rattle.std.specs.declared.alloc.Global.{Global};
ghost use Rattle.std.specs.declared.vec.Vec.{Vec};
ghost use Rattle.soy_base.specs.declared.fault.Fault.{Fault};
ghost use Rattle.soy_base.specs.declared.memory.Refusal.{Refusal};
ghost use Rattle.soy_lexer.specs.Lexes.{Lexes};
ghost use Rattle.soy_base.specs.Limits.{largest_file};
ghost use Rattle.soy_lexer.specs.Tokens.{Tokens};
ghost use Rattle.soy_lexer.specs.declared.token.Token.{Token};
ghost use Rattle.soy_tree.specs.Formed.{is_formed_tree};
ghost use Rattle.soy_tree.specs.Trees.{Tree};
ghost use Rattle.soy_rules.specs.TypeText.{type_text};
ghost use Rattle.soy_tree.specs.ViewExpressions.{view_expr};
ghost use Rattle.soy_tree.specs.ViewTrees.{view_tree};
ghost use Rattle.soy_tree.specs.ViewTypes.{view_type};
ghost use Rattle.soy_tree.specs.declared.tree.Tree as code;
ghost use Rattle.expr_parser.specs.AreNamed.{AreNamed};
ghost use Rattle.expr_parser.specs.Depths.{AreWithin};
ghost use Rattle.expr_parser.specs.ParsesType.{NameTypes};
ghost use Rattle.expr_parser.specs.SpellsExpr.{SpellsExpr};
ghost use Rattle.expr_parser.specs.SpellsType.{SpellsType};
ghost use Rattle.expr_parser.specs.declared.operand.Operand.{Operand};
ghost use Rattle.expr_parser.specs.declared.type_frame.TypeOperand.{TypeOperand};
ghost use Rattle.soy_parser.specs.ParsesFile.{IsFile};
ghost use Rattle.soy_format.specs.Formatted.{formatted_tree};
ghost use Rattle.soy_format.specs.FormattedExpression.{formatted_expr};
ghost use Rattle.formatted_source.specs.CommandLexemes.{ends_name, ends_type};
ghost use Rattle.formatted_source.specs.ReadsAlike.{IsFileAlike, ReadsAlike};
ghost use Rattle.formatted_source.specs.ReadsAs.{HasTokens, IsReadAsExpr, IsReadAsType, LexesAs};
ghost use Rattle.formatted_source.specs.SourcedTrees.{is_sourced_tree};
ghost use Rattle.formatted_source.specs.TreeLexemes.{tree_lexemes};

/// The canonical source of a tree has the tokens that it is written for: of a tree that is formed and that a text may
/// have, and so of each tree of a text. They are what `lex` answers, where the source is no larger than a file may be.
pub fn law_formatted_tokens()
    ensures by_its_form { (t : Tree) → is_formed_tree t ≡ true → is_sourced_tree t ≡ true →
        HasTokens (formatted_tree t) (tree_lexemes t) }
    ensures of_a_text { (text : List ℕ) (tokens : List Token) (t : code.Tree) → Tokens text tokens → IsFile tokens t →
        HasTokens (formatted_tree (view_tree t)) (tree_lexemes (view_tree t)) }
    ensures lexed { (text : List ℕ) (tokens : List Token) (t : code.Tree) → Tokens text tokens → IsFile tokens t →
        (file : ℕ) (page : List ℕ) (answer : Result (Vec Token Global) (Refusal Fault)) →
        chars page ≡ formatted_tree (view_tree t) → length page ≤ largest_file → Lexes file page answer →
        LexesAs (tree_lexemes (view_tree t)) answer }
{}

/// The canonical source of a tree of a text is a file whose tree differs from it in spans alone: its tokens are one, and
/// where it is at most 1,048,576 bytes, `lex` and `parse` answer that, where memory doesn't run out.
pub fn law_formatted_file()
    ensures is_file { (text : List ℕ) (tokens : List Token) (t : code.Tree) → Tokens text tokens → IsFile tokens t →
        (own : List Token) → Tokens (formatted_tree (view_tree t)) own → IsFileAlike own t }
    ensures reads { (text : List ℕ) (tokens : List Token) (t : code.Tree) → Tokens text tokens → IsFile tokens t →
        (file : ℕ) (page : List ℕ) (lexed : Result (Vec Token Global) (Refusal Fault)) →
        chars page ≡ formatted_tree (view_tree t) → length page ≤ largest_file → Lexes file page lexed →
        ReadsAlike file t lexed }
{}

/// An expression that the tokens of a text spell is read, as it is written, as one that is alike, and lies no deeper.
pub fn law_formatted_expr()
    ensures { (blocks : ℕ) (tokens : List Token) (depths : List ℕ) (x : Operand) → AreNamed tokens →
        SpellsExpr 9 tokens depths x → AreWithin blocks depths → (rest : List ℕ) → ends_name rest ≡ true →
        IsReadAsExpr blocks (formatted_expr (view_expr x.expr)) rest (view_expr x.expr) }
{}

/// A type that the tokens of a text spell is read, as it is written, as that type, at the same depths.
pub fn law_formatted_type()
    ensures { (tokens : List Token) (depths : List ℕ) (words : List Bool) (x : TypeOperand) → AreNamed tokens →
        SpellsType tokens depths words x → NameTypes tokens words [] → (rest : List ℕ) → ends_type rest ≡ true →
        IsReadAsType (type_text (view_type x.of)) rest depths words x }
{}
