//! What holds of the grammar and of the machine: functions that take nothing and do nothing, whose contracts are the
//! laws.

ghost use Rattle.std.specs.Prelude.{◌≡◌, ◌≢◌, ℕ, Bool, true, not, ◌&&◌, List, [], ◌∷◌, ◌++◌, Some, None};
ghost use Rattle.std.specs.Prelude.{Result, Err, if◌then◌else◌};
ghost use Rattle.soy_base.specs.declared.fault.Fault.{Fault};
ghost use Rattle.soy_base.specs.declared.memory.Refusal.{Refusal};
ghost use Rattle.soy_base.specs.declared.memory.Refusal.TheVariants.{OutOfMemory};
ghost use Rattle.soy_lexer.specs.InOrder.{InOrder};
ghost use Rattle.soy_lexer.specs.Tokens.{Tokens};
ghost use Rattle.soy_lexer.specs.declared.token.Token.{Token};
ghost use Rattle.soy_tree.specs.Formed.{is_formed_expr, is_formed_type};
ghost use Rattle.soy_tree.specs.ViewExpressions.{view_expr};
ghost use Rattle.soy_tree.specs.ViewTypes.{view_type};
ghost use Rattle.soy_tree.specs.declared.expr.Expr.{Expr};
ghost use Rattle.soy_tree.specs.declared.soy_type.SoyType.{SoyType};
ghost use Rattle.expr_parser.specs.AreNamed.{AreNamed};
ghost use Rattle.expr_parser.specs.BeginsExpr.{BeginsExpr};
ghost use Rattle.expr_parser.specs.BeginsType.{BeginsType};
ghost use Rattle.expr_parser.specs.ExprRuns.{expr_run, expr_depths, expr_start};
ghost use Rattle.expr_parser.specs.ExprSteps.{whole_expr};
ghost use Rattle.expr_parser.specs.ParsesExpr.{ParsesExpr};
ghost use Rattle.expr_parser.specs.ParsesType.{ParsesType};
ghost use Rattle.expr_parser.specs.SpansInOrder.{SpansInOrder};
ghost use Rattle.expr_parser.specs.SpellsExpr.{SpellsExpr};
ghost use Rattle.expr_parser.specs.SpellsType.{SpellsType};
ghost use Rattle.expr_parser.specs.TypeRuns.{type_run, type_depths, type_words, type_start};
ghost use Rattle.expr_parser.specs.TypeSteps.{unknown_type, whole_type};
ghost use Rattle.expr_parser.specs.TypeTerminals.{begins_with_less, is_type_name};
ghost use Rattle.expr_parser.specs.declared.operand.Operand.{Operand};
ghost use Rattle.expr_parser.specs.declared.state.ExprState.{ExprState};
ghost use Rattle.expr_parser.specs.declared.type_frame.TypeOperand.{TypeOperand};
ghost use Rattle.expr_parser.specs.declared.type_state.TypeState.{TypeState};

/// A list of tokens has one answer as an expression and one as a type, but where memory runs out.
pub fn law_one_answer()
    ensures one_expr_answer { (file blocks : ℕ) (tokens : List Token) (a b : Result (Expr × ℕ) (Refusal Fault)) →
        ParsesExpr file blocks tokens a → ParsesExpr file blocks tokens b → a ≢ Err OutOfMemory →
        b ≢ Err OutOfMemory → a ≡ b }
    ensures one_type_answer { (file blocks : ℕ) (tokens : List Token) (a b : Result (SoyType × ℕ) (Refusal Fault)) →
        ParsesType file blocks tokens a → ParsesType file blocks tokens b → a ≢ Err OutOfMemory →
        b ≢ Err OutOfMemory → a ≡ b }
{}

/// A list of tokens spells one expression at most, and has one depth at each token.
pub fn law_one_expr()
    ensures one_expr { (tokens : List Token) (ds es : List ℕ) (x y : Operand) →
        SpellsExpr 9 tokens ds x → SpellsExpr 9 tokens es y → x ≡ y }
    ensures one_depth { (tokens : List Token) (ds es : List ℕ) →
        BeginsExpr tokens ds → BeginsExpr tokens es → ds ≡ es }
{}

/// A list of tokens spells one type at most, has one depth at each token, and one set of words that stand as types.
pub fn law_one_type()
    ensures one_type { (tokens : List Token) (ds es : List ℕ) (ws vs : List Bool) (x y : TypeOperand) →
        SpellsType tokens ds ws x → SpellsType tokens es vs y → x ≡ y }
    ensures one_depth { (tokens : List Token) (ds es : List ℕ) (ws vs : List Bool) →
        BeginsType tokens ds ws → BeginsType tokens es vs → ds ≡ es }
    ensures one_word { (tokens : List Token) (ds es : List ℕ) (ws vs : List Bool) →
        BeginsType tokens ds ws → BeginsType tokens es vs → ws ≡ vs }
{}

/// The machine has a state after tokens exactly where some expression begins with them, its depths are those at the
/// tokens, and what it has read is a whole expression exactly where they spell one.
pub fn law_expr_machine()
    ensures runs { (tokens : List Token) (ds : List ℕ) → BeginsExpr tokens ds →
        (s : ExprState) × (expr_run tokens expr_start ≡ Some s) × (ds ≡ expr_depths tokens expr_start) }
    ensures begins { (tokens : List Token) (s : ExprState) → expr_run tokens expr_start ≡ Some s →
        BeginsExpr tokens (expr_depths tokens expr_start) }
    ensures whole { (tokens : List Token) (s : ExprState) (x : Operand) → expr_run tokens expr_start ≡ Some s →
        whole_expr s ≡ Some x → SpellsExpr 9 tokens (expr_depths tokens expr_start) x }
    ensures spelled { (tokens : List Token) (ds : List ℕ) (x : Operand) → SpellsExpr 9 tokens ds x →
        (s : ExprState) × (expr_run tokens expr_start ≡ Some s) × (whole_expr s ≡ Some x) }
{}

/// The same of the machine of types, which also knows the words that stand as types.
pub fn law_type_machine()
    ensures runs { (tokens : List Token) (ds : List ℕ) (ws : List Bool) → BeginsType tokens ds ws →
        (s : TypeState) × (type_run tokens type_start ≡ Some s) × (ds ≡ type_depths tokens type_start)
        × (ws ≡ type_words tokens type_start) }
    ensures begins { (tokens : List Token) (s : TypeState) → type_run tokens type_start ≡ Some s →
        BeginsType tokens (type_depths tokens type_start) (type_words tokens type_start) }
    ensures whole { (tokens : List Token) (s : TypeState) (x : TypeOperand) → type_run tokens type_start ≡ Some s →
        whole_type s ≡ Some x → SpellsType tokens (type_depths tokens type_start) (type_words tokens type_start) x }
    ensures spelled { (tokens : List Token) (ds : List ℕ) (ws : List Bool) (x : TypeOperand) →
        SpellsType tokens ds ws x →
        (s : TypeState) × (type_run tokens type_start ≡ Some s) × (whole_type s ≡ Some x) }
{}

/// Of a state after tokens it is asked whether the last of them is a word that stands as a type and names none before
/// what follows: the answer is its offset.
pub fn law_unknown_type()
    ensures after_a_token { (before after : List Token) (token : Token) (words : List Bool) (word : Bool)
        (s : TypeState) → type_run (before ++ token ∷ []) type_start ≡ Some s →
        type_words (before ++ token ∷ []) type_start ≡ words ++ word ∷ [] →
        unknown_type s (begins_with_less after)
        ≡ (if word && not (is_type_name token after) then Some token.span.start else None) }
    ensures at_the_start { (less_follows : Bool) → unknown_type type_start less_follows ≡ None }
{}

/// What tokens spell whose words and variables are names is formed: each int literal is from 0 to 9007199254740991,
/// each name is one, and no member of a union is a union. The tokens of a text are such, and so is each part of them.
pub fn law_formed()
    ensures formed_expr { (tokens : List Token) (ds : List ℕ) (x : Operand) → AreNamed tokens →
        SpellsExpr 9 tokens ds x → is_formed_expr (view_expr x.expr) ≡ true }
    ensures formed_type { (tokens : List Token) (ds : List ℕ) (ws : List Bool) (x : TypeOperand) → AreNamed tokens →
        SpellsType tokens ds ws x → is_formed_type (view_type x.of) ≡ true }
    ensures named { (text : List ℕ) (tokens : List Token) → Tokens text tokens → AreNamed tokens }
    ensures part { (before tokens after : List Token) → AreNamed (before ++ (tokens ++ after)) → AreNamed tokens }
{}

/// The spans of what tokens in order spell lie within those of the tokens and ascend.
pub fn law_expr_spans()
    ensures { (tokens : List Token) (ds : List ℕ) (x : Operand) (from to : ℕ) → InOrder from to tokens →
        SpellsExpr 9 tokens ds x → SpansInOrder from to (view_expr x.expr) }
{}
