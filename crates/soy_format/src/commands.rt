//! Commands, each from its `{` to its `}`.

ghost use Rattle.std.specs.Prelude.{◌≡◌, ◌++◌, true, OnOk};
ghost use Rattle.soy_base.specs.Appends.{Appends};
ghost use Rattle.soy_tree.specs.ViewExpressions.{view_expr, view_exprs};
ghost use Rattle.soy_tree.specs.ViewNodes.{view_arguments};
ghost use Rattle.soy_format.specs.Ascii.{is_ascii};
ghost use Rattle.soy_format.specs.FormattedBody.{arm_text, call_close, call_end, call_text, case_text, expr_command};
ghost use Rattle.soy_format.specs.FormattedBody.{for_text, index_text, let_block_text, let_text, message_text};
ghost use Rattle.soy_format.specs.FormattedBody.{param_block_text, param_text};
ghost use Rattle.soy_format.specs.FormattedBody.{plural_text, print_start, print_text, value_end};
ghost use Rattle.soy_format.specs.FormattedExpression.{begins_with_variable, formatted_values};
ghost use Rattle.soy_format.specs.FormattedString.{formatted_string};
ghost use Rattle.std.specs.Fmt.{signed_decimal};

use crate::ascii::{push_ascii, push_signed_decimal};
use crate::attribute::{
    push_attribute, push_data, push_kind, push_meaning, push_offset, push_phname,
};
use crate::expression::{begins_with_variable, push_expr, push_values, push_variable};
use crate::string::push_string;
use soy_base::{Boxed, Kind, OutOfMemory, Text, push_text};
use soy_tree::{Argument, Expr, Message};
use std::alloc::Global;

/// Adds a command of a word and an expression.
#[tactic(auto, using(crate::proofs::Pushes::three_pushed))]
pub(crate) fn push_expr_command(
    alloc: Global,
    out: &mut String,
    word: &str,
    of: &Expr,
) -> Result<(), OutOfMemory>
    requires { is_ascii word.now ≡ true }
    ensures { OnOk result (Appends out.old out.new (expr_command word.now (view_expr of.now))) }
{
    push_ascii(out, word)?;
    push_expr(alloc, out, of)?;
    push_ascii(out, "}")
}

/// Adds the command of an arm; whether it is the first of its if.
pub(crate) fn push_arm(
    alloc: Global,
    out: &mut String,
    is_first: bool,
    when: &Expr,
) -> Result<(), OutOfMemory>
    ensures { OnOk result (Appends out.old out.new (arm_text is_first (view_expr when.now))) }
{
    if is_first {
        return push_expr_command(alloc, out, "{if ", when);
    }
    push_expr_command(alloc, out, "{elseif ", when)
}

/// Adds the start of a print.
fn push_print_start(out: &mut String, of: &Expr) -> Result<(), OutOfMemory>
    ensures { OnOk result (Appends out.old out.new (print_start (begins_with_variable (view_expr of.now)))) }
{
    if begins_with_variable(of) {
        return push_ascii(out, "{");
    }
    push_ascii(out, "{print ")
}

/// Adds a print.
#[tactic(auto, using(crate::proofs::Pushes::four_pushed))]
pub(crate) fn push_print(
    alloc: Global,
    out: &mut String,
    of: &Expr,
    phname: &Option<Text>,
) -> Result<(), OutOfMemory>
    ensures { OnOk result (Appends out.old out.new (print_text (view_expr of.now) phname.now)) }
{
    push_print_start(out, of)?;
    push_expr(alloc, out, of)?;
    push_phname(out, phname)?;
    push_ascii(out, "}")
}

/// Adds the variable of a loop's index, if there is one.
#[tactic(auto, using(crate::proofs::Pushes::append_assoc))]
fn push_index(out: &mut String, index: &Option<Boxed<Text>>) -> Result<(), OutOfMemory>
    ensures { OnOk result (Appends out.old out.new (index_text index.now)) }
{
    match index {
        None => Ok(()),
        Some(name) => {
            push_ascii(out, ", ")?;
            push_variable(out, name.get())
        }
    }
}

/// Adds the command of a loop.
#[tactic(auto, using(crate::proofs::Pushes::four_pushed))]
pub(crate) fn push_for(
    alloc: Global,
    out: &mut String,
    name: &Text,
    index: &Option<Boxed<Text>>,
    list: &Expr,
) -> Result<(), OutOfMemory>
    ensures { OnOk result (Appends out.old out.new (for_text name.now index.now (view_expr list.now))) }
{
    push_ascii(out, "{for ")?;
    push_variable(out, name)?;
    push_index(out, index)?;
    push_expr_command(alloc, out, " in ", list)
}

/// Adds a colon, an expression and the end of its command.
#[tactic(auto, using(crate::proofs::Pushes::three_pushed))]
fn push_value_end(alloc: Global, out: &mut String, of: &Expr) -> Result<(), OutOfMemory>
    ensures { OnOk result (Appends out.old out.new (value_end (view_expr of.now))) }
{
    push_ascii(out, ": ")?;
    push_expr(alloc, out, of)?;
    push_ascii(out, " /}")
}

/// Adds a let of an expression.
#[tactic(auto, using(crate::proofs::Pushes::three_pushed))]
pub(crate) fn push_let(
    alloc: Global,
    out: &mut String,
    name: &Text,
    of: &Expr,
) -> Result<(), OutOfMemory>
    ensures { OnOk result (Appends out.old out.new (let_text name.now (view_expr of.now))) }
{
    push_ascii(out, "{let ")?;
    push_variable(out, name)?;
    push_value_end(alloc, out, of)
}

/// Adds the command of a let that is a block.
#[tactic(auto, using(crate::proofs::Pushes::four_pushed))]
pub(crate) fn push_let_block(out: &mut String, name: &Text, kind: Kind) -> Result<(), OutOfMemory>
    ensures { OnOk result (Appends out.old out.new (let_block_text name.now kind)) }
{
    push_ascii(out, "{let ")?;
    push_variable(out, name)?;
    push_kind(out, kind)?;
    push_ascii(out, "}")
}

/// Adds the command of a call without its end.
#[tactic(auto, using(crate::proofs::Pushes::three_pushed))]
pub(crate) fn push_call(out: &mut String, name: &Text, all: bool) -> Result<(), OutOfMemory>
    ensures { OnOk result (Appends out.old out.new (call_text name.now all)) }
{
    push_ascii(out, "{call ")?;
    push_text(out, name.text())?;
    push_data(out, all)
}

/// Adds the end of a call's command, which closes itself where no param follows.
pub(crate) fn push_call_end(out: &mut String, given: &[Argument]) -> Result<(), OutOfMemory>
    ensures { OnOk result (Appends out.old out.new (call_end (view_arguments given.now))) }
{
    match given {
        [] => push_ascii(out, " /}"),
        [_first, _rest @ ..] => push_ascii(out, "}"),
    }
}

/// Adds the command that closes a call with params.
pub(crate) fn push_call_close(out: &mut String, given: &[Argument]) -> Result<(), OutOfMemory>
    ensures { OnOk result (Appends out.old out.new (call_close (view_arguments given.now))) }
{
    match given {
        [] => Ok(()),
        [_first, _rest @ ..] => push_ascii(out, "{/call}"),
    }
}

/// Adds a param of an expression.
#[tactic(auto, using(crate::proofs::Pushes::three_pushed))]
pub(crate) fn push_param(
    alloc: Global,
    out: &mut String,
    name: &Text,
    of: &Expr,
) -> Result<(), OutOfMemory>
    ensures { OnOk result (Appends out.old out.new (param_text name.now (view_expr of.now))) }
{
    push_ascii(out, "{param ")?;
    push_text(out, name.text())?;
    push_value_end(alloc, out, of)
}

/// Adds the command of a param that is a block.
#[tactic(auto, using(crate::proofs::Pushes::four_pushed))]
pub(crate) fn push_param_block(out: &mut String, name: &Text, kind: Kind) -> Result<(), OutOfMemory>
    ensures { OnOk result (Appends out.old out.new (param_block_text name.now kind)) }
{
    push_ascii(out, "{param ")?;
    push_text(out, name.text())?;
    push_kind(out, kind)?;
    push_ascii(out, "}")
}

/// Adds the command of a message or a fallback.
#[tactic(auto, using(crate::proofs::Pushes::four_pushed))]
pub(crate) fn push_message_start(
    out: &mut String,
    word: &str,
    message: &Message,
) -> Result<(), OutOfMemory>
    requires { is_ascii word.now ≡ true }
    ensures { OnOk result (Appends out.old out.new (message_text word.now message.now.desc message.now.meaning)) }
{
    push_ascii(out, word)?;
    push_attribute(out, "desc", message.desc.text())?;
    push_meaning(out, &message.meaning)?;
    push_ascii(out, "}")
}

/// Adds the command of a plural.
#[tactic(auto, using(crate::proofs::Pushes::four_pushed))]
pub(crate) fn push_plural(
    alloc: Global,
    out: &mut String,
    selector: &Expr,
    offset: u64,
) -> Result<(), OutOfMemory>
    ensures { OnOk result (Appends out.old out.new (plural_text (view_expr selector.now) offset)) }
{
    push_ascii(out, "{plural ")?;
    push_expr(alloc, out, selector)?;
    push_offset(alloc, out, offset)?;
    push_ascii(out, "}")
}

/// Adds the command of a case of a switch.
#[tactic(auto, using(crate::proofs::Pushes::three_pushed))]
pub(crate) fn push_case(alloc: Global, out: &mut String, values: &[Expr]) -> Result<(), OutOfMemory>
    ensures { OnOk result (Appends out.old out.new (case_text (formatted_values (view_exprs values.now)))) }
{
    push_ascii(out, "{case ")?;
    push_values(alloc, out, values)?;
    push_ascii(out, "}")
}

/// Adds the command of a case of a plural.
#[tactic(auto, using(crate::proofs::Pushes::three_pushed))]
pub(crate) fn push_number_case(
    alloc: Global,
    out: &mut String,
    number: i64,
) -> Result<(), OutOfMemory>
    ensures { OnOk result (Appends out.old out.new (case_text (signed_decimal number))) }
{
    push_ascii(out, "{case ")?;
    push_signed_decimal(alloc, out, number)?;
    push_ascii(out, "}")
}

/// Adds the command of a case of a select.
#[tactic(auto, using(crate::proofs::Pushes::three_pushed))]
pub(crate) fn push_word_case(out: &mut String, word: &Text) -> Result<(), OutOfMemory>
    ensures { OnOk result (Appends out.old out.new (case_text (formatted_string word.now))) }
{
    push_ascii(out, "{case ")?;
    push_string(out, word)?;
    push_ascii(out, "}")
}
