//! What a token does in a command, by where its reading stands.

ghost use Rattle.std.specs.Prelude.{◌≡◌, ◌++◌, ◌∷◌, [], IfOk, Some, None, pos};
ghost use Rattle.std.specs.Str.{chars};
ghost use Rattle.soy_lexer.specs.CommandSegment.{number_after};
ghost use Rattle.expr_parser.specs.ExprRuns.{expr_start};
ghost use Rattle.expr_parser.specs.ExprSteps.{expr_step};
ghost use Rattle.expr_parser.specs.ExprSteps.{ExprStep as expr_does};
ghost use Rattle.soy_parser.specs.FileSteps.{after_case_word_step, after_int_step, call_step};
ghost use Rattle.soy_parser.specs.FileSteps.{dotted_head, dotted_step, for_in_step, head_done};
ghost use Rattle.soy_parser.specs.FileSteps.{if_in, if_int};
ghost use Rattle.soy_parser.specs.ExprEnds.{ended_in};
ghost use Rattle.soy_parser.specs.FileSteps.{in_expr, let_colon_step, next_value, param_colon_step};
ghost use Rattle.soy_parser.specs.FileSteps.{spot_step, stands, template_step};
ghost use Rattle.soy_parser.specs.CommandTerminals.{command_terminal_of};
ghost use Rattle.soy_parser.specs.Reached.{reached};
ghost use Rattle.soy_parser.specs.declared.command.CommandForm.TheVariants as says;
ghost use Rattle.soy_parser.specs.declared.command.Single.TheVariants as single;
ghost use Rattle.soy_parser.specs.declared.command.Opening.TheVariants as opening;
ghost use Rattle.soy_parser.specs.declared.head.Head.TheVariants as head;
ghost use Rattle.soy_parser.specs.declared.spot.CommandSpot.TheVariants as where_;
ghost use Rattle.soy_parser.specs.declared.spot.Spot.TheVariants as spot;
ghost use Rattle.soy_parser.specs.declared.spot.Use.TheVariants as use_;
ghost use Rattle.soy_parser.specs.declared.terminal.CommandTerminal.TheVariants as terminal;

use crate::attribute_spots::{attributes_go_on, equals, form_done, head_done, value};
use crate::command::{CommandForm, Middle, Opening, Single};
use crate::files::{after_head, stands, stands_in_expr, taken};
use crate::head::Head;
use crate::heads::text_of;
use crate::held::{Held, expr_takes, given_by};
use crate::nodes::joined;
use crate::params::{
    in_type, template_param, template_param_colon, template_param_name, template_param_word,
};
use crate::spot::{CommandSpot, DottedUse, FileState, Spot, Use};
use crate::terminal::{CommandTerminal, CommandWord};
use crate::values::{is_case_word, with_int, with_word, written_int};
use expr_parser::{ExprState, Operand};
use soy_base::{Boxed, OutOfMemory, Row, Span, Text};
use soy_lexer::Token;
use soy_tree::Expr;
use std::alloc::Global;

/// A token in a command. Most tokens of expressions and types aren't looked at as those of commands.
pub(crate) fn inside(
    alloc: Global,
    file: &mut FileState,
    from: Span,
    spot: Spot,
    token: &Token,
) -> Result<bool, OutOfMemory>
    ensures { IfOk result (λ on. reached on file.new ≡ spot_step file.old.commands from spot token.now
        (command_terminal_of token.now)) }
{
    match spot {
        Spot::TemplateParam => Ok(template_param(file, from, token)),
        Spot::TemplateParamWord => template_param_word(alloc, file, from, token),
        Spot::TemplateParamName => template_param_name(alloc, file, from, token),
        Spot::TemplateParamColon(name, required) => {
            template_param_colon(alloc, file, from, name, required, token)
        }
        Spot::Type(name, required, state) => {
            in_type(alloc, file, from, name, required, state, token)
        }
        Spot::Template => template(alloc, file, from, token),
        Spot::TemplateName => template_name(alloc, file, from, token),
        Spot::Call => call(alloc, file, from, token),
        Spot::DottedName(of, text) => dotted_name(file, from, of, text, token),
        Spot::Dotted(of, text) => dotted(alloc, file, from, of, text, token),
        Spot::For => for_variable(alloc, file, from, token),
        Spot::ForIn(name) => for_in(alloc, file, from, name, token),
        Spot::ForIndex(name) => for_index(alloc, file, from, name, token),
        Spot::ForIndexIn(name, index) => { for_index_in(alloc, file, from, name, index, token) }
        Spot::Let => let_variable(alloc, file, from, token),
        Spot::LetColon(name) => let_colon(alloc, file, from, name, token),
        Spot::Param => param_name(alloc, file, from, token),
        Spot::ParamColon(name) => param_colon(alloc, file, from, name, token),
        Spot::IntValue(values) => int_value(file, from, values, token),
        Spot::AfterInt(values) => after_int(alloc, file, from, values, token),
        Spot::CaseWord(words) => case_word(alloc, file, from, words, token),
        Spot::AfterCaseWord(words) => { after_case_word(alloc, file, from, words, token) }
        Spot::Expr(of, state) => expr_goes_on(alloc, file, from, of, state, token),
        Spot::Attributes(head, attributes) => {
            attributes_go_on(alloc, file, from, head, attributes, token)
        }
        Spot::Equals(head, attributes, name) => {
            Ok(equals(file, from, head, attributes, name, token))
        }
        Spot::Value(head, attributes, name) => {
            value(alloc, file, from, head, attributes, name, token)
        }
    }
}

/// After the word `template`.
#[inline(never)]
fn template(
    alloc: Global,
    file: &mut FileState,
    from: Span,
    token: &Token,
) -> Result<bool, OutOfMemory>
    ensures { IfOk result (λ on. reached on file.new ≡
        template_step file.old.commands from token.now (command_terminal_of token.now)) }
{
    match CommandTerminal::of(token) {
        CommandTerminal::Dot => Ok(stands(file, from, Spot::TemplateName)),
        CommandTerminal::Word(_) => {
            let head = Head::Template(token.text.copy(alloc)?);
            let spot = after_head(alloc, head)?;
            Ok(stands(file, from, spot))
        }
        _ => Ok(false),
    }
}

/// After the dot before the name of a template.
#[inline(never)]
fn template_name(
    alloc: Global,
    file: &mut FileState,
    from: Span,
    token: &Token,
) -> Result<bool, OutOfMemory>
    ensures { IfOk result (λ on. reached on file.new ≡
        spot_step file.old.commands from spot.TemplateName token.now (command_terminal_of token.now)) }
{
    match CommandTerminal::of(token) {
        CommandTerminal::Word(_) => {
            let head = Head::Template(token.text.copy(alloc)?);
            let spot = after_head(alloc, head)?;
            Ok(stands(file, from, spot))
        }
        _ => Ok(false),
    }
}

/// After the word `call`.
#[inline(never)]
fn call(alloc: Global, file: &mut FileState, from: Span, token: &Token) -> Result<bool, OutOfMemory>
    ensures { IfOk result (λ on. reached on file.new ≡
        call_step file.old.commands from token.now (command_terminal_of token.now)) }
{
    match CommandTerminal::of(token) {
        CommandTerminal::Dot => {
            let spot = Spot::DottedName(DottedUse::Call, Text::empty(alloc));
            Ok(stands(file, from, spot))
        }
        CommandTerminal::Word(_) => {
            let spot = Spot::Dotted(DottedUse::Call, token.text.copy(alloc)?);
            Ok(stands(file, from, spot))
        }
        _ => Ok(false),
    }
}

/// Where a name joined by dots goes on with a name.
#[inline(never)]
fn dotted_name(
    file: &mut FileState,
    from: Span,
    of: DottedUse,
    text: Text,
    token: &Token,
) -> Result<bool, OutOfMemory>
    ensures { IfOk result (λ on. reached on file.new ≡
        spot_step file.old.commands from (spot.DottedName of text) token.now (command_terminal_of token.now)) }
{
    match CommandTerminal::of(token) {
        CommandTerminal::Word(_) => {
            let mut text = text;
            text.append(&token.text)?;
            Ok(stands(file, from, Spot::Dotted(of, text)))
        }
        _ => Ok(false),
    }
}

/// Where a name joined by dots goes on with a dot, or ends.
#[inline(never)]
fn dotted(
    alloc: Global,
    file: &mut FileState,
    from: Span,
    of: DottedUse,
    text: Text,
    token: &Token,
) -> Result<bool, OutOfMemory>
    ensures { IfOk result (λ on. reached on file.new ≡
        dotted_step file.old.commands from of text token.now (command_terminal_of token.now)) }
{
    match CommandTerminal::of(token) {
        CommandTerminal::Dot => {
            let text = with_dot(alloc, text)?;
            Ok(stands(file, from, Spot::DottedName(of, text)))
        }
        _ => head_done(alloc, file, from, dotted_head(of, text), token),
    }
}

/// The text and a dot.
fn with_dot(alloc: Global, text: Text) -> Result<Text, OutOfMemory>
    ensures { IfOk result (λ to. to ≡ text ++ (46 ∷ [])) }
{
    let dot = text_of(alloc, '.')?;
    let mut text = text;
    text.append(&dot)?;
    Ok(text)
}

/// The head that a name joined by dots ends.
fn dotted_head(of: DottedUse, text: Text) -> Head
    ensures { result ≡ dotted_head of text }
{
    match of {
        DottedUse::Namespace => Head::Whole(CommandForm::Namespace(text)),
        DottedUse::Call => Head::Call(text),
    }
}

/// After the word `for`.
#[inline(never)]
fn for_variable(
    alloc: Global,
    file: &mut FileState,
    from: Span,
    token: &Token,
) -> Result<bool, OutOfMemory>
    ensures { IfOk result (λ on. reached on file.new ≡
        spot_step file.old.commands from spot.For token.now (command_terminal_of token.now)) }
{
    match CommandTerminal::of(token) {
        CommandTerminal::Variable => {
            let name = token.text.copy(alloc)?;
            Ok(stands(file, from, Spot::ForIn(name)))
        }
        _ => Ok(false),
    }
}

/// After the variable of a loop.
#[inline(never)]
fn for_in(
    alloc: Global,
    file: &mut FileState,
    from: Span,
    name: Text,
    token: &Token,
) -> Result<bool, OutOfMemory>
    ensures { IfOk result (λ on. reached on file.new ≡
        for_in_step file.old.commands from name (command_terminal_of token.now)) }
{
    match CommandTerminal::of(token) {
        CommandTerminal::Comma => Ok(stands(file, from, Spot::ForIndex(name))),
        CommandTerminal::Word(CommandWord::In) => {
            let name = Boxed::new(alloc, name)?;
            stands_in_expr(alloc, file, from, Use::For(name, None))
        }
        _ => Ok(false),
    }
}

/// After the comma in a loop.
#[inline(never)]
fn for_index(
    alloc: Global,
    file: &mut FileState,
    from: Span,
    name: Text,
    token: &Token,
) -> Result<bool, OutOfMemory>
    ensures { IfOk result (λ on. reached on file.new ≡
        spot_step file.old.commands from (spot.ForIndex name) token.now (command_terminal_of token.now)) }
{
    match CommandTerminal::of(token) {
        CommandTerminal::Variable => {
            let index = token.text.copy(alloc)?;
            Ok(stands(file, from, Spot::ForIndexIn(name, index)))
        }
        _ => Ok(false),
    }
}

/// After both variables of a loop.
#[inline(never)]
fn for_index_in(
    alloc: Global,
    file: &mut FileState,
    from: Span,
    name: Text,
    index: Text,
    token: &Token,
) -> Result<bool, OutOfMemory>
    ensures { IfOk result (λ on. reached on file.new ≡
        if_in (command_terminal_of token.now)
        (stands file.old.commands from (spot.Expr (use_.For name (Some index)) expr_start))) }
{
    match CommandTerminal::of(token) {
        CommandTerminal::Word(CommandWord::In) => {
            let name = Boxed::new(alloc, name)?;
            let index = Boxed::new(alloc, index)?;
            stands_in_expr(alloc, file, from, Use::For(name, Some(index)))
        }
        _ => Ok(false),
    }
}

/// After the word `let`.
#[inline(never)]
fn let_variable(
    alloc: Global,
    file: &mut FileState,
    from: Span,
    token: &Token,
) -> Result<bool, OutOfMemory>
    ensures { IfOk result (λ on. reached on file.new ≡
        spot_step file.old.commands from spot.Let token.now (command_terminal_of token.now)) }
{
    match CommandTerminal::of(token) {
        CommandTerminal::Variable => {
            let name = token.text.copy(alloc)?;
            Ok(stands(file, from, Spot::LetColon(name)))
        }
        _ => Ok(false),
    }
}

/// After the variable of a let.
#[inline(never)]
fn let_colon(
    alloc: Global,
    file: &mut FileState,
    from: Span,
    name: Text,
    token: &Token,
) -> Result<bool, OutOfMemory>
    ensures { IfOk result (λ on. reached on file.new ≡
        let_colon_step file.old.commands from name token.now (command_terminal_of token.now)) }
{
    match CommandTerminal::of(token) {
        CommandTerminal::Colon => stands_in_expr(alloc, file, from, Use::Let(name)),
        _ => head_done(alloc, file, from, Head::Let(name), token),
    }
}

/// After the word `param`.
#[inline(never)]
fn param_name(
    alloc: Global,
    file: &mut FileState,
    from: Span,
    token: &Token,
) -> Result<bool, OutOfMemory>
    ensures { IfOk result (λ on. reached on file.new ≡
        spot_step file.old.commands from spot.Param token.now (command_terminal_of token.now)) }
{
    match CommandTerminal::of(token) {
        CommandTerminal::Word(_) => {
            let name = token.text.copy(alloc)?;
            Ok(stands(file, from, Spot::ParamColon(name)))
        }
        _ => Ok(false),
    }
}

/// After the name of a param.
#[inline(never)]
fn param_colon(
    alloc: Global,
    file: &mut FileState,
    from: Span,
    name: Text,
    token: &Token,
) -> Result<bool, OutOfMemory>
    ensures { IfOk result (λ on. reached on file.new ≡
        param_colon_step file.old.commands from name token.now (command_terminal_of token.now)) }
{
    match CommandTerminal::of(token) {
        CommandTerminal::Colon => stands_in_expr(alloc, file, from, Use::Param(name)),
        _ => head_done(alloc, file, from, Head::Param(name), token),
    }
}

/// Where the int of a plural's case is expected.
#[inline(never)]
fn int_value(
    file: &mut FileState,
    from: Span,
    values: Row<i64>,
    token: &Token,
) -> Result<bool, OutOfMemory>
    ensures { IfOk result (λ on. reached on file.new ≡
        spot_step file.old.commands from (spot.IntValue values) token.now (command_terminal_of token.now)) }
{
    match CommandTerminal::of(token) {
        CommandTerminal::Int => int_of_case(file, from, values, token.text.text()),
        _ => Ok(false),
    }
}

/// An int of a plural's case, if the text is one.
fn int_of_case(
    file: &mut FileState,
    from: Span,
    values: Row<i64>,
    text: &str,
) -> Result<bool, OutOfMemory>
    ensures { IfOk result (λ on. reached on file.new ≡ if_int terminal.Int (chars text.now)
        (stands file.old.commands from (spot.AfterInt (values ++ (pos (number_after 0 (chars text.now)) ∷ []))))) }
{
    match written_int(text) {
        Some(value) => {
            let values = with_int(values, value as i64)?;
            Ok(stands(file, from, Spot::AfterInt(values)))
        }
        None => Ok(false),
    }
}

/// After an int of a plural's case.
#[inline(never)]
fn after_int(
    alloc: Global,
    file: &mut FileState,
    from: Span,
    values: Row<i64>,
    token: &Token,
) -> Result<bool, OutOfMemory>
    ensures { IfOk result (λ on. reached on file.new ≡
        after_int_step file.old.commands from values token.now (command_terminal_of token.now)) }
{
    match CommandTerminal::of(token) {
        CommandTerminal::Comma => Ok(stands(file, from, Spot::IntValue(values))),
        _ => middle_done(alloc, file, from, Middle::PluralCase(values), token),
    }
}

/// Where the word of a select's case is expected.
#[inline(never)]
fn case_word(
    alloc: Global,
    file: &mut FileState,
    from: Span,
    words: Row<Text>,
    token: &Token,
) -> Result<bool, OutOfMemory>
    ensures { IfOk result (λ on. reached on file.new ≡
        spot_step file.old.commands from (spot.CaseWord words) token.now (command_terminal_of token.now)) }
{
    match CommandTerminal::of(token) {
        CommandTerminal::Str => {
            if is_case_word(&token.text) {
                let words = with_word(alloc, words, &token.text)?;
                Ok(stands(file, from, Spot::AfterCaseWord(words)))
            } else {
                Ok(false)
            }
        }
        _ => Ok(false),
    }
}

/// After a word of a select's case.
#[inline(never)]
fn after_case_word(
    alloc: Global,
    file: &mut FileState,
    from: Span,
    words: Row<Text>,
    token: &Token,
) -> Result<bool, OutOfMemory>
    ensures { IfOk result (λ on. reached on file.new ≡
        after_case_word_step file.old.commands from words token.now (command_terminal_of token.now)) }
{
    match CommandTerminal::of(token) {
        CommandTerminal::Comma => Ok(stands(file, from, Spot::CaseWord(words))),
        _ => middle_done(alloc, file, from, Middle::SelectCase(words), token),
    }
}

/// In an expression.
#[inline(never)]
fn expr_goes_on(
    alloc: Global,
    file: &mut FileState,
    from: Span,
    of: Use,
    state: Held<ExprState>,
    token: &Token,
) -> Result<bool, OutOfMemory>
    ensures { IfOk result (λ on. reached on file.new ≡
        in_expr file.old.commands from of token.now (expr_step state token.now)) }
{
    let mut state = state;
    match expr_takes(&mut state, alloc, token) {
        Ok(true) => Ok(stands(file, from, Spot::Expr(of, state))),
        Ok(false) => expr_ends(alloc, file, from, of, given_by(&mut state), token),
        Err(out) => {
            drop(of);
            Err(out)
        }
    }
}

/// In an expression that didn't go on with the token.
#[inline(never)]
pub(crate) fn expr_ended(
    alloc: Global,
    file: &mut FileState,
    token: &Token,
) -> Result<bool, OutOfMemory>
    ensures { IfOk result (λ on. reached on file.new ≡ ended_in file.old.commands token.now file.old.spot) }
{
    match file.take_spot() {
        CommandSpot::Between => Ok(false),
        CommandSpot::Opened(_) => Ok(false),
        CommandSpot::Inside(from, spot) => ended_inside(alloc, file, from, spot, token),
    }
}

/// The same, in a command.
fn ended_inside(
    alloc: Global,
    file: &mut FileState,
    from: Span,
    spot: Spot,
    token: &Token,
) -> Result<bool, OutOfMemory>
    ensures { IfOk result (λ on. reached on file.new ≡
        ended_in file.old.commands token.now (where_.Inside from spot)) }
{
    match spot {
        Spot::Expr(of, state) => {
            let mut state = state;
            expr_ends(alloc, file, from, of, given_by(&mut state), token)
        }
        spot => {
            drop(spot);
            Ok(false)
        }
    }
}

/// Where an expression has ended, if what was read is one.
fn expr_ends(
    alloc: Global,
    file: &mut FileState,
    from: Span,
    of: Use,
    operand: Option<Operand>,
    token: &Token,
) -> Result<bool, OutOfMemory>
    ensures { IfOk result (λ on. reached on file.new ≡
        in_expr file.old.commands from of token.now (expr_does.End operand)) }
{
    match operand {
        Some(operand) => after_expr(alloc, file, from, of, operand, token),
        None => {
            drop(of);
            Ok(false)
        }
    }
}

/// After an expression.
fn after_expr(
    alloc: Global,
    file: &mut FileState,
    from: Span,
    of: Use,
    operand: Operand,
    token: &Token,
) -> Result<bool, OutOfMemory>
    ensures { IfOk result (λ on. reached on file.new ≡
        next_value file.old.commands from of operand token.now (command_terminal_of token.now)) }
{
    match of {
        Use::Print => print_done(alloc, file, from, operand.expr, token),
        Use::MessagePrint => message_print_done(alloc, file, from, operand.expr, token),
        Use::If => opening_done(alloc, file, from, Opening::If(operand.expr), token),
        Use::ElseIf => middle_done(alloc, file, from, Middle::ElseIf(operand.expr), token),
        Use::Switch => opening_done(alloc, file, from, Opening::Switch(operand.expr), token),
        Use::Plural => plural_done(alloc, file, from, operand.expr, token),
        Use::Select => opening_done(alloc, file, from, Opening::Select(operand.expr), token),
        Use::Case(values) => after_case_value(alloc, file, from, values, operand, token),
        Use::For(name, index) => for_done(alloc, file, from, name, index, operand.expr, token),
        Use::Let(name) => let_done(alloc, file, from, name, operand.expr, token),
        Use::Param(name) => param_done(alloc, file, from, name, operand.expr, token),
    }
}

/// After the expression of a print in a message.
#[inline(never)]
fn message_print_done(
    alloc: Global,
    file: &mut FileState,
    from: Span,
    expr: Expr,
    token: &Token,
) -> Result<bool, OutOfMemory>
    ensures { IfOk result (λ on. reached on file.new ≡
        head_done file.old.commands from (head.MessagePrint expr) token.now) }
{
    head_done(alloc, file, from, Head::MessagePrint(expr), token)
}

/// After the selector of a plural.
#[inline(never)]
fn plural_done(
    alloc: Global,
    file: &mut FileState,
    from: Span,
    expr: Expr,
    token: &Token,
) -> Result<bool, OutOfMemory>
    ensures { IfOk result (λ on. reached on file.new ≡
        head_done file.old.commands from (head.Plural expr) token.now) }
{
    head_done(alloc, file, from, Head::Plural(expr), token)
}

/// After the list of a loop.
#[inline(never)]
fn for_done(
    alloc: Global,
    file: &mut FileState,
    from: Span,
    name: Boxed<Text>,
    index: Option<Boxed<Text>>,
    expr: Expr,
    token: &Token,
) -> Result<bool, OutOfMemory>
    ensures { IfOk result (λ on. reached on file.new ≡
        head_done file.old.commands from (head.Whole (says.Opens (opening.For name index expr))) token.now) }
{
    opening_done(alloc, file, from, Opening::For(name, index, expr), token)
}

/// After the expression of a let.
#[inline(never)]
fn let_done(
    alloc: Global,
    file: &mut FileState,
    from: Span,
    name: Text,
    expr: Expr,
    token: &Token,
) -> Result<bool, OutOfMemory>
    ensures { IfOk result (λ on. reached on file.new ≡
        head_done file.old.commands from (head.Alone (single.Let name expr)) token.now) }
{
    head_done(
        alloc,
        file,
        from,
        Head::Alone(Single::Let(name, expr)),
        token,
    )
}

/// After the expression of a param.
#[inline(never)]
fn param_done(
    alloc: Global,
    file: &mut FileState,
    from: Span,
    name: Text,
    expr: Expr,
    token: &Token,
) -> Result<bool, OutOfMemory>
    ensures { IfOk result (λ on. reached on file.new ≡
        head_done file.old.commands from (head.Alone (single.Param name expr)) token.now) }
{
    head_done(
        alloc,
        file,
        from,
        Head::Alone(Single::Param(name, expr)),
        token,
    )
}

/// After a value of a case.
#[inline(never)]
fn after_case_value(
    alloc: Global,
    file: &mut FileState,
    from: Span,
    values: Row<Expr>,
    operand: Operand,
    token: &Token,
) -> Result<bool, OutOfMemory>
    ensures { IfOk result (λ on. reached on file.new ≡
        next_value file.old.commands from (use_.Case values) operand token.now (command_terminal_of token.now)) }
{
    let mut values = values;
    values.push(operand.expr)?;
    match CommandTerminal::of(token) {
        CommandTerminal::Comma => stands_in_expr(alloc, file, from, Use::Case(values)),
        _ => middle_done(alloc, file, from, Middle::Case(values), token),
    }
}

/// After the expression of a print.
#[inline(never)]
fn print_done(
    alloc: Global,
    file: &mut FileState,
    from: Span,
    expr: Expr,
    token: &Token,
) -> Result<bool, OutOfMemory>
    ensures { IfOk result (λ on. reached on file.new ≡
        head_done file.old.commands from (head.Whole (says.Single (single.Print expr))) token.now) }
{
    match CommandTerminal::of(token) {
        CommandTerminal::End => {
            let is_taken = file
                .commands
                .takes_print(alloc, expr, joined(from, token.span))?;
            Ok(taken(file, is_taken))
        }
        _ => {
            let form = CommandForm::Single(Single::Print(expr));
            head_done(alloc, file, from, Head::Whole(form), token)
        }
    }
}

/// After what a command says that opens a block and has no attributes.
#[inline(never)]
fn opening_done(
    alloc: Global,
    file: &mut FileState,
    from: Span,
    of: Opening,
    token: &Token,
) -> Result<bool, OutOfMemory>
    ensures { IfOk result (λ on. reached on file.new ≡
        head_done file.old.commands from (head.Whole (says.Opens of)) token.now) }
{
    form_done(alloc, file, from, CommandForm::Opens(of), token)
}

/// After what a command says with which a block goes on, and that has no attributes.
#[inline(never)]
fn middle_done(
    alloc: Global,
    file: &mut FileState,
    from: Span,
    of: Middle,
    token: &Token,
) -> Result<bool, OutOfMemory>
    ensures { IfOk result (λ on. reached on file.new ≡
        head_done file.old.commands from (head.Whole (says.GoesOn of)) token.now) }
{
    form_done(alloc, file, from, CommandForm::GoesOn(of), token)
}
