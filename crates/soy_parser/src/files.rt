//! The machine that reads a file, a token a step: what is between commands, and how a command begins.

ghost use Rattle.std.specs.Prelude.{◌≡◌, IfOk, Some, None, if◌then◌else◌};
ghost use Rattle.soy_parser.specs.CommandSteps.{command_step};
ghost use Rattle.soy_parser.specs.FileSteps.{bare_expr, bare_opens, between_step, case_opens, ended_command, file_at};
ghost use Rattle.soy_parser.specs.FileSteps.{file_start, file_step, opened_step, opens_if, print_opens, print_use};
ghost use Rattle.soy_parser.specs.FileSteps.{depth_in, stands, taken, tree_of, unknown_in, whole_file};
ghost use Rattle.soy_parser.specs.Reached.{reached};
ghost use Rattle.soy_parser.specs.SpellsHead.{bare_head};
ghost use Rattle.expr_parser.specs.ExprRuns.{expr_start};
ghost use Rattle.expr_parser.specs.ExprSteps.ExprStep.{Next};
ghost use Rattle.soy_parser.specs.Heads.{no_attributes};
ghost use Rattle.soy_parser.specs.declared.command.CommandForm.TheVariants as says;
ghost use Rattle.soy_parser.specs.declared.head.Head.TheVariants as head;
ghost use Rattle.soy_parser.specs.declared.spot.CommandSpot.TheVariants as where_;
ghost use Rattle.soy_parser.specs.declared.spot.Spot.TheVariants as spot;
ghost use Rattle.soy_parser.specs.declared.terminal.CommandTerminal.TheVariants as terminal;

use crate::attributes::Attributes;
use crate::block::{CommandState, Content};
use crate::command::CommandForm;
use crate::head::{Head, HeadKind};
use crate::held::{Held, expr_takes};
use crate::nodes::joined;
use crate::spot::{CommandSpot, DottedUse, FileState, Spot, Use};
use crate::spots::{expr_ended, inside};
use crate::terminal::{BlockName, CommandTerminal, CommandWord};
use expr_parser::ExprState;
use soy_base::{OutOfMemory, Row, Span, Text};
use soy_lexer::Token;
use soy_tree::Tree;
use std::alloc::Global;
use std::mem::replace;

impl FileState {
    /// Nothing was read. Takes no memory.
    pub(crate) fn start(alloc: Global) -> FileState
        ensures { result ≡ file_start }
    {
        FileState {
            commands: CommandState::start(alloc),
            spot: CommandSpot::Between,
        }
    }

    /// Takes a token, and says whether some file goes on with it; if none does, what was read is of no use.
    pub(crate) fn step(&mut self, alloc: Global, token: &Token) -> Result<bool, OutOfMemory>
        ensures { IfOk result (λ on. reached on self.new ≡ file_step self.old token.now) }
    {
        match &mut self.spot {
            CommandSpot::Between => between(alloc, self, token, CommandTerminal::of(token)),
            CommandSpot::Opened(from) => {
                let from = *from;
                opened(alloc, self, from, token, CommandTerminal::of(token))
            }
            CommandSpot::Inside(_, Spot::Expr(_, state)) => {
                if expr_takes(state, alloc, token)? {
                    Ok(true)
                } else {
                    expr_ended(alloc, self, token)
                }
            }
            CommandSpot::Inside(_, _) => further_on(alloc, self, token),
        }
    }

    /// Where the reading stands, for a step that says where it stands next.
    pub(crate) fn take_spot(&mut self) -> CommandSpot
        ensures spot { result ≡ self.old.spot }
        ensures commands { self.new.commands ≡ self.old.commands }
    {
        replace(&mut self.spot, CommandSpot::Between)
    }

    /// The reading stands there.
    pub(crate) fn set_spot(&mut self, spot: CommandSpot)
        ensures { self.new ≡ record { commands = self.old.commands; spot = spot } }
    {
        self.spot = spot;
    }

    /// The reading stands there, if this holds.
    #[tactic(auto, using(crate::proofs::OfFiles::Reaching::reached_if))]
    fn stands_if(&mut self, spot: CommandSpot, holds: bool) -> bool
        ensures { reached result self.new ≡ (if holds then file_at self.old.commands spot else None) }
    {
        self.set_spot(spot);
        holds
    }

    /// The reading stands directly after the `{` of a command.
    fn opens(&mut self, from: Span) -> bool
        ensures { reached result self.new ≡ file_at self.old.commands (where_.Opened from) }
    {
        self.spot = CommandSpot::Opened(from);
        true
    }

    /// The reading stands between two commands, as it mostly does already.
    fn ends_command(&mut self)
        ensures { self.new ≡ record { commands = self.old.commands; spot = where_.Between } }
    {
        match &self.spot {
            CommandSpot::Between => {}
            _ => self.set_spot(CommandSpot::Between),
        }
    }

    /// What was read, if it is a whole file.
    pub(crate) fn finish(&mut self) -> Option<Tree>
        ensures { result ≡ whole_file self.old }
    {
        match &self.spot {
            CommandSpot::Between => tree_of(self.commands.take_content()),
            _ => None,
        }
    }
}

impl CommandSpot {
    /// The nodes on the longest branch of the expression or type that is read.
    pub(crate) fn depth(&self) -> u32
        ensures { result ≡ depth_in self.now }
    {
        match self {
            CommandSpot::Inside(_, Spot::Expr(_, state)) => state.get().depth(),
            CommandSpot::Inside(_, Spot::Type(_, _, state)) => state.get().depth(),
            _ => 0,
        }
    }

    /// The offset of the word that was read last, if it stands as a type and names none where a `<` follows it or
    /// doesn't.
    pub(crate) fn unknown(&self, less_follows: bool) -> Option<u64>
        ensures { result ≡ unknown_in self.now less_follows }
    {
        match self {
            CommandSpot::Inside(_, Spot::Type(_, _, state)) => state.get().unknown(less_follows),
            _ => None,
        }
    }
}

/// A token in a command, but for its `{`.
#[inline(never)]
fn further_on(alloc: Global, file: &mut FileState, token: &Token) -> Result<bool, OutOfMemory>
    ensures { IfOk result (λ on. reached on file.new ≡ file_step file.old token.now) }
{
    match file.take_spot() {
        CommandSpot::Between => between(alloc, file, token, CommandTerminal::of(token)),
        CommandSpot::Opened(from) => opened(alloc, file, from, token, CommandTerminal::of(token)),
        CommandSpot::Inside(from, spot) => inside(alloc, file, from, spot, token),
    }
}

/// The tree, where a file may end.
fn tree_of(content: Content) -> Option<Tree>
    ensures { result ≡ tree_of content }
{
    match content {
        Content::Templates(namespace, templates) => Some(Tree {
            namespace,
            templates: templates.done(),
        }),
        content => {
            drop(content);
            None
        }
    }
}

/// A command goes on here.
pub(crate) fn stands(file: &mut FileState, from: Span, spot: Spot) -> bool
    ensures { reached result file.new ≡ stands file.old.commands from spot }
{
    file.stands_if(CommandSpot::Inside(from, spot), true)
}

/// A command goes on here, if this holds.
pub(crate) fn stands_if(file: &mut FileState, from: Span, spot: Spot, holds: bool) -> bool
    ensures { reached result file.new ≡ (if holds then stands file.old.commands from spot else None) }
{
    file.stands_if(CommandSpot::Inside(from, spot), holds)
}

/// A command has come, as a whole.
#[inline(never)]
pub(crate) fn takes(
    alloc: Global,
    file: &mut FileState,
    form: CommandForm,
    span: Span,
) -> Result<bool, OutOfMemory>
    ensures { IfOk result (λ on. reached on file.new ≡
        taken (command_step file.old.commands (record { form = form; span = span }))) }
{
    let is_taken = file.commands.step(alloc, form, span)?;
    Ok(taken(file, is_taken))
}

/// A command was taken, if this says so.
pub(crate) fn taken(file: &mut FileState, is_taken: bool) -> bool
    ensures { reached result file.new ≡ taken (reached is_taken file.old.commands) }
{
    if is_taken {
        file.ends_command();
        true
    } else {
        false
    }
}

/// A command ends.
pub(crate) fn ended_command(
    alloc: Global,
    file: &mut FileState,
    from: Span,
    form: Option<CommandForm>,
    token: &Token,
) -> Result<bool, OutOfMemory>
    ensures { IfOk result (λ on. reached on file.new ≡ ended_command file.old.commands from form token.now) }
{
    match form {
        Some(form) => takes(alloc, file, form, joined(from, token.span)),
        None => Ok(false),
    }
}

/// A token between commands.
#[inline(never)]
fn between(
    alloc: Global,
    file: &mut FileState,
    token: &Token,
    terminal: CommandTerminal,
) -> Result<bool, OutOfMemory>
    ensures { IfOk result (λ on. reached on file.new ≡ between_step file.old.commands token.now terminal) }
{
    match terminal {
        CommandTerminal::Text => {
            let text = token.text.copy(alloc)?;
            let is_taken = file.commands.takes_text(alloc, text, token.span)?;
            Ok(taken(file, is_taken))
        }
        CommandTerminal::Begin => Ok(file.opens(token.span)),
        _ => Ok(false),
    }
}

/// A command goes on here, if some file goes on with one of this kind.
fn opens_if(file: &mut FileState, from: Span, kind: HeadKind, spot: Spot) -> bool
    ensures { reached result file.new ≡ opens_if file.old.commands from kind spot }
{
    let is_admitted = file.commands.admits(kind);
    stands_if(file, from, spot, is_admitted)
}

/// A token directly after the `{` of a command.
fn opened(
    alloc: Global,
    file: &mut FileState,
    from: Span,
    token: &Token,
    terminal: CommandTerminal,
) -> Result<bool, OutOfMemory>
    ensures { IfOk result (λ on. reached on file.new ≡ opened_step file.old.commands from token.now terminal) }
{
    match terminal {
        CommandTerminal::At => Ok(opens_if(
            file,
            from,
            HeadKind::TemplateParam,
            Spot::TemplateParam,
        )),
        CommandTerminal::Word(word) => opened_word(alloc, file, from, token, word),
        CommandTerminal::Variable => opens_expr(alloc, file, from, token),
        CommandTerminal::Close(BlockName::Other) => opens_expr(alloc, file, from, token),
        CommandTerminal::Close(name) => opens_close(alloc, file, from, token, name),
        terminal => opens_bare(alloc, file, from, token, terminal),
    }
}

/// The name of a block command that closes, directly after the `{` of a command: its head is made where it stays.
#[inline(never)]
fn opens_close(
    alloc: Global,
    file: &mut FileState,
    from: Span,
    token: &Token,
    name: BlockName,
) -> Result<bool, OutOfMemory>
    ensures { IfOk result (λ on. reached on file.new ≡
        bare_opens file.old.commands from (Some (head.Whole (says.Closes name))) token.now) }
{
    let head = Held::new(alloc, Head::Whole(CommandForm::Closes(name)))?;
    let attributes = Held::new(alloc, Attributes::none())?;
    let spot = Spot::Attributes(head, attributes);
    Ok(opens_if(file, from, HeadKind::Closes(name), spot))
}

/// A head of one token, or an expression, directly after the `{` of a command.
#[inline(never)]
fn opens_bare(
    alloc: Global,
    file: &mut FileState,
    from: Span,
    token: &Token,
    terminal: CommandTerminal,
) -> Result<bool, OutOfMemory>
    ensures { IfOk result (λ on. reached on file.new ≡
        bare_opens file.old.commands from (bare_head terminal) token.now) }
{
    let head = Head::bare(alloc, terminal)?;
    bare_opens(alloc, file, from, head, token)
}

/// A word directly after the `{` of a command.
#[inline(never)]
fn opened_word(
    alloc: Global,
    file: &mut FileState,
    from: Span,
    token: &Token,
    word: CommandWord,
) -> Result<bool, OutOfMemory>
    ensures { IfOk result (λ on. reached on file.new ≡
        opened_step file.old.commands from token.now (terminal.Word word)) }
{
    match word {
        CommandWord::Namespace => {
            let spot = Spot::DottedName(DottedUse::Namespace, Text::empty(alloc));
            Ok(opens_if(file, from, HeadKind::Namespace, spot))
        }
        CommandWord::Template => Ok(opens_if(file, from, HeadKind::Template, Spot::Template)),
        CommandWord::If => opens_expr_if(alloc, file, from, HeadKind::If, Use::If),
        CommandWord::ElseIf => opens_expr_if(alloc, file, from, HeadKind::ElseIf, Use::ElseIf),
        CommandWord::Switch => opens_expr_if(alloc, file, from, HeadKind::Switch, Use::Switch),
        CommandWord::Plural => opens_expr_if(alloc, file, from, HeadKind::Plural, Use::Plural),
        CommandWord::Select => opens_expr_if(alloc, file, from, HeadKind::Select, Use::Select),
        CommandWord::For => Ok(opens_if(file, from, HeadKind::For, Spot::For)),
        CommandWord::Let => Ok(opens_if(file, from, HeadKind::Let, Spot::Let)),
        CommandWord::Call => Ok(opens_if(file, from, HeadKind::Call, Spot::Call)),
        CommandWord::Param => Ok(opens_if(file, from, HeadKind::Param, Spot::Param)),
        CommandWord::Print => print_opens(alloc, file, from),
        CommandWord::Case => case_opens(alloc, file, from),
        word => opens_bare(alloc, file, from, token, CommandTerminal::Word(word)),
    }
}

/// Where an expression is expected.
fn in_expr(alloc: Global, of: Use) -> Result<Spot, OutOfMemory>
    ensures { IfOk result (λ at. at ≡ spot.Expr of expr_start) }
{
    match Held::new(alloc, ExprState::start(alloc)) {
        Ok(state) => Ok(Spot::Expr(of, state)),
        Err(out) => {
            drop(of);
            Err(out)
        }
    }
}

/// An expression goes on here.
pub(crate) fn stands_in_expr(
    alloc: Global,
    file: &mut FileState,
    from: Span,
    of: Use,
) -> Result<bool, OutOfMemory>
    ensures { IfOk result (λ on. reached on file.new ≡
        stands file.old.commands from (spot.Expr of expr_start)) }
{
    let spot = in_expr(alloc, of)?;
    Ok(stands(file, from, spot))
}

/// An expression is expected here, if some file goes on with a command of this kind.
#[inline(never)]
fn opens_expr_if(
    alloc: Global,
    file: &mut FileState,
    from: Span,
    kind: HeadKind,
    of: Use,
) -> Result<bool, OutOfMemory>
    ensures { IfOk result (λ on. reached on file.new ≡
        opens_if file.old.commands from kind (spot.Expr of expr_start)) }
{
    let spot = in_expr(alloc, of)?;
    Ok(opens_if(file, from, kind, spot))
}

/// What an expression is for that begins a command, where a print may stand.
fn print_use(commands: &CommandState) -> Option<Use>
    ensures { result ≡ print_use commands.now }
{
    if commands.admits(HeadKind::Print) {
        Some(Use::Print)
    } else if commands.admits(HeadKind::MessagePrint) {
        Some(Use::MessagePrint)
    } else {
        None
    }
}

/// After the word `print`.
#[inline(never)]
fn print_opens(alloc: Global, file: &mut FileState, from: Span) -> Result<bool, OutOfMemory>
    ensures { IfOk result (λ on. reached on file.new ≡
        print_opens file.old.commands from (print_use file.old.commands)) }
{
    match print_use(&file.commands) {
        Some(of) => stands_in_expr(alloc, file, from, of),
        None => Ok(false),
    }
}

/// After the word `case`.
#[inline(never)]
fn case_opens(alloc: Global, file: &mut FileState, from: Span) -> Result<bool, OutOfMemory>
    ensures { IfOk result (λ on. reached on file.new ≡ case_opens file.old.commands from) }
{
    if file.commands.admits(HeadKind::Case) {
        stands_in_expr(alloc, file, from, Use::Case(Row::empty(alloc)))
    } else if file.commands.admits(HeadKind::PluralCase) {
        Ok(stands(file, from, Spot::IntValue(Row::empty(alloc))))
    } else {
        let spot = Spot::CaseWord(Row::empty(alloc));
        Ok(opens_if(file, from, HeadKind::SelectCase, spot))
    }
}

/// A command that begins with a head of one token, or with an expression.
fn bare_opens(
    alloc: Global,
    file: &mut FileState,
    from: Span,
    head: Option<Head>,
    token: &Token,
) -> Result<bool, OutOfMemory>
    ensures { IfOk result (λ on. reached on file.new ≡ bare_opens file.old.commands from head token.now) }
{
    match head {
        Some(head) => {
            let kind = head.kind();
            let spot = after_head(alloc, head)?;
            Ok(opens_if(file, from, kind, spot))
        }
        None => opens_expr(alloc, file, from, token),
    }
}

/// Where an attribute is expected first, or the end of the command.
pub(crate) fn after_head(alloc: Global, head: Head) -> Result<Spot, OutOfMemory>
    ensures { IfOk result (λ at. at ≡ spot.Attributes head no_attributes) }
{
    let head = Held::new(alloc, head)?;
    let attributes = Held::new(alloc, Attributes::none())?;
    Ok(Spot::Attributes(head, attributes))
}

/// A token that begins an expression, if one may stand there.
#[inline(never)]
fn opens_expr(
    alloc: Global,
    file: &mut FileState,
    from: Span,
    token: &Token,
) -> Result<bool, OutOfMemory>
    ensures { IfOk result (λ on. reached on file.new ≡ bare_opens file.old.commands from None token.now) }
{
    let mut state = Held::new(alloc, ExprState::start(alloc))?;
    if expr_takes(&mut state, alloc, token)? {
        Ok(bare_expr(file, from, state))
    } else {
        Ok(false)
    }
}

/// A command that begins with an expression, of which this was read.
fn bare_expr(file: &mut FileState, from: Span, state: Held<ExprState>) -> bool
    ensures { reached result file.new ≡
        bare_expr file.old.commands from (print_use file.old.commands) (Next state) }
{
    match print_use(&file.commands) {
        Some(of) => stands(file, from, Spot::Expr(of, state)),
        None => {
            drop(state);
            false
        }
    }
}
