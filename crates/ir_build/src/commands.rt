//! The ops of single commands, over the blocks that they name.

ghost use Rattle.std.specs.Prelude.{◌≡◌, ◌∷◌, [], ◌++◌, Some, None, codes, false, map, IfOk, OnOk};
ghost use Rattle.soy_tree.specs.ViewExpressions.{view_expr, view_exprs};
ghost use Rattle.template_ir.specs.Compiles.{other_arm, other_word};
ghost use Rattle.template_ir.specs.Ops.{ForOp, IfOp, LetBlockOp, LetOp, NumberOp, PrintOp, SwitchOp};
ghost use Rattle.template_ir.specs.StandFor.{place_of};
ghost use Rattle.template_ir.specs.ViewOps.{view_branch, view_choice, view_ops};
ghost use Rattle.ir_build.specs.Laid.{laid_block, view_output, with_hole, with_ops};
ghost use Rattle.ir_build.specs.Rows.{branch, choice, named_block, plural_op, select_op, word_block};
ghost use Rattle.ir_build.specs.TextOps.{text_ops};

use crate::output::Output;
use plural_rules::Category;
use soy_base::{Boxed, Kind, OutOfMemory, Place, Seq, Text};
use soy_tree::Expr;
use std::alloc::Global;
use template_ir::{
    Block, Branch, Choice, ExactBlock, NamedBlock, Op, PluralOp, SelectOp, WordBlock,
};

/// Adds an op.
#[tactic(auto, using(crate::proofs::OpLists::map_append))]
pub(crate) fn push_op(own: &mut Vec<Op>, op: Op) -> Result<(), OutOfMemory>
    ensures { OnOk result (view_ops own.new.items ≡ view_ops own.old.items ++ view_ops (op ∷ [])) }
{
    own.push(op)?;
    Ok(())
}

/// Adds a text, unless it is empty.
pub(crate) fn push_text(alloc: Global, own: &mut Vec<Op>, text: &Text) -> Result<(), OutOfMemory>
    ensures { OnOk result (view_ops own.new.items ≡ view_ops own.old.items ++ text_ops text.now) }
{
    if text.is_empty() {
        return Ok(());
    }
    let text = text.copy(alloc)?;
    push_op(own, Op::Static(text))
}

/// Adds a print, whose hole is the next one.
pub(crate) fn push_print(
    alloc: Global,
    places: &[Place],
    out: &mut Output,
    own: &mut Vec<Op>,
    expr: &Expr,
) -> Result<(), OutOfMemory>
    ensures own { OnOk result (view_ops own.new.items
        ≡ view_ops own.old.items ++ PrintOp (view_expr expr.now) (place_of places.now out.old.holes) ∷ []) }
    ensures made { OnOk result (view_output out.new ≡ with_hole (view_output out.old)) }
{
    let place = out.take_place(places)?;
    let expr = expr.copy(alloc)?;
    push_op(own, Op::Print(expr, place))
}

/// Adds an if without an else.
pub(crate) fn push_if(own: &mut Vec<Op>, branches: Vec<Branch>) -> Result<(), OutOfMemory>
    ensures { OnOk result (view_ops own.new.items
        ≡ view_ops own.old.items ++ IfOp (map view_branch branches.items) None ∷ []) }
{
    push_op(own, Op::If(Seq::new(branches), None))
}

/// Adds an if with an else, of these ops.
pub(crate) fn push_if_else(
    out: &mut Output,
    own: &mut Vec<Op>,
    branches: Vec<Branch>,
    other: Vec<Op>,
) -> Result<(), OutOfMemory>
    ensures own { OnOk result (view_ops own.new.items ≡ view_ops own.old.items
        ++ IfOp (map view_branch branches.items)
        (Some (laid_block (view_output out.old) (view_ops other.items))) ∷ []) }
    ensures made { OnOk result (view_output out.new ≡ with_ops (view_output out.old) (view_ops other.items)) }
{
    let other = out.lay(other)?;
    push_op(own, Op::If(Seq::new(branches), Some(other)))
}

/// Adds a branch of an if, whose body is these ops.
#[tactic(auto, using(crate::proofs::OpLists::map_append))]
pub(crate) fn push_branch(
    alloc: Global,
    out: &mut Output,
    branches: &mut Vec<Branch>,
    when: &Expr,
    body: Vec<Op>,
) -> Result<(), OutOfMemory>
    ensures branches { OnOk result (map view_branch branches.new.items ≡ map view_branch branches.old.items
        ++ branch (view_expr when.now) (laid_block (view_output out.old) (view_ops body.items)) ∷ []) }
    ensures made { OnOk result (view_output out.new ≡ with_ops (view_output out.old) (view_ops body.items)) }
{
    let body = out.lay(body)?;
    let when = when.copy(alloc)?;
    branches.push(Branch { when, body })?;
    Ok(())
}

/// Adds a switch without a default.
pub(crate) fn push_switch(
    alloc: Global,
    own: &mut Vec<Op>,
    subject: &Expr,
    choices: Vec<Choice>,
) -> Result<(), OutOfMemory>
    ensures { OnOk result (view_ops own.new.items ≡ view_ops own.old.items
        ++ SwitchOp (view_expr subject.now) (map view_choice choices.items) None ∷ []) }
{
    let subject = subject.copy(alloc)?;
    push_op(own, Op::Switch(subject, Seq::new(choices), None))
}

/// Adds a switch with a default, of these ops.
pub(crate) fn push_switch_default(
    alloc: Global,
    out: &mut Output,
    own: &mut Vec<Op>,
    subject: &Expr,
    choices: Vec<Choice>,
    other: Vec<Op>,
) -> Result<(), OutOfMemory>
    ensures own { OnOk result (view_ops own.new.items ≡ view_ops own.old.items
        ++ SwitchOp (view_expr subject.now) (map view_choice choices.items)
        (Some (laid_block (view_output out.old) (view_ops other.items))) ∷ []) }
    ensures made { OnOk result (view_output out.new ≡ with_ops (view_output out.old) (view_ops other.items)) }
{
    let other = out.lay(other)?;
    let subject = subject.copy(alloc)?;
    push_op(own, Op::Switch(subject, Seq::new(choices), Some(other)))
}

/// Adds a case of a switch, whose body is these ops.
#[tactic(auto, using(crate::proofs::OpLists::map_append))]
pub(crate) fn push_choice(
    alloc: Global,
    out: &mut Output,
    choices: &mut Vec<Choice>,
    values: &[Expr],
    body: Vec<Op>,
) -> Result<(), OutOfMemory>
    ensures choices { OnOk result (map view_choice choices.new.items ≡ map view_choice choices.old.items
        ++ choice (view_exprs values.now) (laid_block (view_output out.old) (view_ops body.items)) ∷ []) }
    ensures made { OnOk result (view_output out.new ≡ with_ops (view_output out.old) (view_ops body.items)) }
{
    let body = out.lay(body)?;
    let values = copied_exprs(alloc, values)?;
    choices.push(Choice { values, body })?;
    Ok(())
}

/// Adds a loop, whose body is these ops.
pub(crate) fn push_for(
    alloc: Global,
    out: &mut Output,
    own: &mut Vec<Op>,
    name: &Boxed<Text>,
    index: &Option<Boxed<Text>>,
    list: &Expr,
    body: Vec<Op>,
) -> Result<(), OutOfMemory>
    ensures own { OnOk result (view_ops own.new.items ≡ view_ops own.old.items
        ++ ForOp name.now index.now (view_expr list.now)
        (laid_block (view_output out.old) (view_ops body.items)) ∷ []) }
    ensures made { OnOk result (view_output out.new ≡ with_ops (view_output out.old) (view_ops body.items)) }
{
    let body = out.lay(body)?;
    let index = copied_index(alloc, index)?;
    let name = Boxed::new(alloc, name.get().copy(alloc)?)?;
    let list = list.copy(alloc)?;
    push_op(own, Op::For(name, index, list, body))
}

/// An equal name of an index, if there is one.
fn copied_index(
    alloc: Global,
    index: &Option<Boxed<Text>>,
) -> Result<Option<Boxed<Text>>, OutOfMemory>
    ensures { IfOk result (λ n. n ≡ index.now) }
{
    match index {
        None => Ok(None),
        Some(index) => Ok(Some(Boxed::new(alloc, index.get().copy(alloc)?)?)),
    }
}

/// Adds a let of an expression.
pub(crate) fn push_let(
    alloc: Global,
    own: &mut Vec<Op>,
    name: &Text,
    expr: &Expr,
) -> Result<(), OutOfMemory>
    ensures { OnOk result (view_ops own.new.items
        ≡ view_ops own.old.items ++ LetOp name.now (view_expr expr.now) ∷ []) }
{
    let name = name.copy(alloc)?;
    let expr = expr.copy(alloc)?;
    push_op(own, Op::Let(name, expr))
}

/// Adds a let of a block of these ops.
pub(crate) fn push_let_block(
    alloc: Global,
    out: &mut Output,
    own: &mut Vec<Op>,
    name: &Text,
    kind: Kind,
    body: Vec<Op>,
) -> Result<(), OutOfMemory>
    ensures own { OnOk result (view_ops own.new.items ≡ view_ops own.old.items
        ++ LetBlockOp name.now kind (laid_block (view_output out.old) (view_ops body.items)) ∷ []) }
    ensures made { OnOk result (view_output out.new ≡ with_ops (view_output out.old) (view_ops body.items)) }
{
    let body = out.lay(body)?;
    let name = name.copy(alloc)?;
    push_op(own, Op::LetBlock(name, kind, body))
}

/// Adds a `#`, whose hole is the next one.
pub(crate) fn push_number(
    places: &[Place],
    out: &mut Output,
    own: &mut Vec<Op>,
) -> Result<(), OutOfMemory>
    ensures own { OnOk result (view_ops own.new.items
        ≡ view_ops own.old.items ++ NumberOp (place_of places.now out.old.holes) ∷ []) }
    ensures made { OnOk result (view_output out.new ≡ with_hole (view_output out.old)) }
{
    let place = out.take_place(places)?;
    push_op(own, Op::Number(place))
}

/// Adds a plural.
pub(crate) fn push_plural(
    alloc: Global,
    own: &mut Vec<Op>,
    number: &Expr,
    offset: u64,
    ordinal: bool,
    exact: Seq<ExactBlock>,
    named: Seq<NamedBlock>,
) -> Result<(), OutOfMemory>
    ensures { OnOk result (view_ops own.new.items
        ≡ view_ops own.old.items ++ plural_op (view_expr number.now) offset ordinal exact named ∷ []) }
{
    let number = number.copy(alloc)?;
    let plural = PluralOp {
        number,
        offset,
        ordinal,
        exact,
        named,
    };
    push_op(own, Op::Plural(Boxed::new(alloc, plural)?))
}

/// Adds a plural of the source, whose default is these ops, as the arm of the category other.
pub(crate) fn push_source_plural(
    alloc: Global,
    out: &mut Output,
    own: &mut Vec<Op>,
    number: &Expr,
    offset: u64,
    exact: Vec<ExactBlock>,
    other: Vec<Op>,
) -> Result<(), OutOfMemory>
    ensures own { OnOk result (view_ops own.new.items ≡ view_ops own.old.items
        ++ plural_op (view_expr number.now) offset false exact.items
        (other_arm (laid_block (view_output out.old) (view_ops other.items)) ∷ []) ∷ []) }
    ensures made { OnOk result (view_output out.new ≡ with_ops (view_output out.old) (view_ops other.items)) }
{
    let body = out.lay(other)?;
    let mut named = Vec::new(alloc);
    named.push(NamedBlock {
        category: Category::Other,
        body,
    })?;
    push_plural(
        alloc,
        own,
        number,
        offset,
        false,
        Seq::new(exact),
        Seq::new(named),
    )
}

/// Adds an arm of a plural for a category, whose body is these ops.
pub(crate) fn push_named(
    out: &mut Output,
    blocks: &mut Vec<NamedBlock>,
    category: Category,
    body: Vec<Op>,
) -> Result<(), OutOfMemory>
    ensures blocks { OnOk result (blocks.new.items ≡ blocks.old.items
        ++ named_block category (laid_block (view_output out.old) (view_ops body.items)) ∷ []) }
    ensures made { OnOk result (view_output out.new ≡ with_ops (view_output out.old) (view_ops body.items)) }
{
    let body = out.lay(body)?;
    blocks.push(NamedBlock { category, body })?;
    Ok(())
}

/// Adds a select.
pub(crate) fn push_select(
    alloc: Global,
    own: &mut Vec<Op>,
    word: &Expr,
    arms: Seq<WordBlock>,
) -> Result<(), OutOfMemory>
    ensures { OnOk result (view_ops own.new.items
        ≡ view_ops own.old.items ++ select_op (view_expr word.now) arms ∷ []) }
{
    let word = word.copy(alloc)?;
    push_op(own, Op::Select(Boxed::new(alloc, SelectOp { word, arms })?))
}

/// Adds a select of the source, whose default is these ops, as the arm of the word other, the last one.
pub(crate) fn push_source_select(
    alloc: Global,
    out: &mut Output,
    own: &mut Vec<Op>,
    word: &Expr,
    arms: Vec<WordBlock>,
    other: Vec<Op>,
) -> Result<(), OutOfMemory>
    ensures own { OnOk result (view_ops own.new.items ≡ view_ops own.old.items
        ++ select_op (view_expr word.now)
        (arms.items ++ other_word (laid_block (view_output out.old) (view_ops other.items)) ∷ []) ∷ []) }
    ensures made { OnOk result (view_output out.new ≡ with_ops (view_output out.old) (view_ops other.items)) }
{
    let body = out.lay(other)?;
    let mut arms = arms;
    let is = other_key(alloc)?;
    arms.push(WordBlock { is, body })?;
    push_select(alloc, own, word, Seq::new(arms))
}

/// The word other.
fn other_key(alloc: Global) -> Result<Text, OutOfMemory>
    ensures { IfOk result (λ t. t ≡ codes "other") }
{
    let word = String::from_str(alloc, "other")?;
    Ok(Text::new(word))
}

/// Adds a case or arm of a select, whose body is these ops.
pub(crate) fn push_word(
    alloc: Global,
    out: &mut Output,
    blocks: &mut Vec<WordBlock>,
    is: &Text,
    body: Vec<Op>,
) -> Result<(), OutOfMemory>
    ensures blocks { OnOk result (blocks.new.items ≡ blocks.old.items
        ++ word_block is.now (laid_block (view_output out.old) (view_ops body.items)) ∷ []) }
    ensures made { OnOk result (view_output out.new ≡ with_ops (view_output out.old) (view_ops body.items)) }
{
    let body = out.lay(body)?;
    let is = is.copy(alloc)?;
    blocks.push(WordBlock { is, body })?;
    Ok(())
}

/// Equal expressions.
pub(crate) fn copied_exprs(alloc: Global, exprs: &[Expr]) -> Result<Seq<Expr>, OutOfMemory>
    ensures { IfOk result (λ es. es ≡ exprs.now) }
{
    let mut copied = Vec::new(alloc);
    for expr in exprs {
        copied.push(expr.copy(alloc)?)?;
    }
    Ok(Seq::new(copied))
}
