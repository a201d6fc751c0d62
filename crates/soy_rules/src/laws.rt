//! Laws of the definitions, each a function that does nothing and whose contract is the law.

ghost use Rattle.std.specs.Prelude.{◌≡◌, ℕ, Ok, Some, true, ◌<◌, ◌≤◌, ◌^◌, ◌⊎◌, List, length, slice_get};
ghost use Rattle.std.specs.List.{list_any, list_all};
ghost use Rattle.soy_tree.specs.Types.{SoyType};
ghost use Rattle.soy_tree.specs.Values.{Value, NullValue};
ghost use Rattle.soy_tree.specs.Expressions.{Expr};
ghost use Rattle.soy_rules.specs.Members.{members, type_without_null, joined};
ghost use Rattle.soy_rules.specs.Accepts.{accepts, accepts_member};
ghost use Rattle.soy_rules.specs.Has.{Has};
ghost use Rattle.soy_rules.specs.Fits.{Fits, IsOf};
ghost use Rattle.soy_tree.specs.Formed.{is_formed_expr};
ghost use Rattle.soy_rules.specs.TypeOf.{Scope, type_of};
ghost use Rattle.soy_rules.specs.Narrowing.{narrowed};
ghost use Rattle.soy_rules.specs.Val.{Env, is_truthy, val};
ghost use Rattle.soy_rules.specs.Cost.{cost, node_count};
ghost use Rattle.soy_rules.specs.Placeholders.{Use, is_same_content, name_of};

/// A type accepts another where each member of the other is accepted by one of its own members.
pub fn law_accepts_by_members()
    ensures { (to from : SoyType) → accepts to from
        ≡ list_all (λ u. list_any (λ t. accepts_member t u) (members to)) (members from) }
{}

/// A value of a type is of each type that accepts it.
pub fn law_accepted_value()
    ensures { (v : Value) (to from : SoyType) → accepts to from ≡ true → Has v from → Has v to }
{}

/// The type without null is without null, and has every other value of the type and no more.
pub fn law_narrow()
    ensures null_or_narrowed { (v : Value) (t : SoyType) → Has v t → (v ≡ NullValue) ⊎ Has v (type_without_null t) }
    ensures null_gone { (t : SoyType) → Has NullValue (type_without_null t) → ⊥ }
    ensures nothing_else { (v : Value) (t : SoyType) → Has v (type_without_null t) → Has v t }
{}

/// The values of the joined type are those of either type.
pub fn law_joined()
    ensures left { (v : Value) (t u : SoyType) → Has v t → Has v (joined t u) }
    ensures right { (v : Value) (t u : SoyType) → Has v u → Has v (joined t u) }
    ensures no_other { (v : Value) (t u : SoyType) → Has v (joined t u) → Has v t ⊎ Has v u }
{}

/// The value of an expression is of the type that the rules give, or a block where that has html or attributes.
pub fn law_value_type<A>()
    ensures { (e : Expr) (scope : Scope) (env : Env A) (t : SoyType) → is_formed_expr e ≡ true
        → Fits scope env → type_of e scope ≡ Ok t → IsOf (val e env) t }
{}

/// Where a condition holds, an environment that fits the scope fits that of the branch too.
pub fn law_branch<A>()
    ensures { (when : Expr) (scope : Scope) (env : Env A) → is_truthy (val when env) ≡ true
        → Fits scope env → Fits (narrowed when scope) env }
{}

/// An expression values at least one node, and no more than it has.
pub fn law_cost<A>()
    ensures some { (e : Expr) (env : Env A) → 0 < cost e env }
    ensures at_most { (e : Expr) (env : Env A) → cost e env ≤ node_count e }
{}

/// Two placeholders or selectors of a message that have one name have the same base name and the same content. A
/// message has fewer than 2^64 of them.
pub fn law_placeholder_names()
    ensures { (uses : List Use) (i j : ℕ) (u v : Use) → length uses < 2 ^ 64 → slice_get uses i ≡ Some u
        → slice_get uses j ≡ Some v → name_of uses u.base u.content ≡ name_of uses v.base v.content
        → (u.base ≡ v.base) × (is_same_content u.content v.content ≡ true) }
{}
