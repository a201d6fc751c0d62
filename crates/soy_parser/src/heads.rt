//! The attributes that a command takes after its head, and what it says with them and its end.

ghost use Rattle.std.specs.Prelude.{◌≡◌, ◌∷◌, [], IfOk, Some, None, option_map, unwrap_or, true, if◌then◌else◌};
ghost use Rattle.soy_parser.specs.Heads.{allows, attribute_name, kind_named, no_attributes, plain_form, slash_form};
ghost use Rattle.soy_parser.specs.Heads.{form_at};
ghost use Rattle.soy_parser.specs.Heads.{template_form, with_attribute, with_kind, with_offset, with_phname};
ghost use Rattle.soy_parser.specs.Reached.{reached};
ghost use Rattle.soy_parser.specs.SpellsHead.{bare_head};
ghost use Rattle.soy_parser.specs.declared.command.Opening.TheVariants as opening;
ghost use Rattle.soy_parser.specs.declared.command.CommandForm.TheVariants as says;
ghost use Rattle.soy_parser.specs.declared.head.Head.TheVariants as head;
ghost use Rattle.soy_parser.specs.declared.terminal.CommandTerminal.TheVariants as terminal;

use crate::attributes::{AttributeName, Attributes};
use crate::command::{CommandForm, Middle, Opening, Single, TemplateOpening};
use crate::head::Head;
use crate::terminal::{BlockName, CommandTerminal, CommandWord};
use crate::values::written_int;
use soy_base::{Kind, OutOfMemory, Text, is_name, push_char};
use std::alloc::Global;

impl AttributeName {
    /// The attribute that a token names.
    pub(crate) fn of(terminal: CommandTerminal) -> Option<AttributeName>
        ensures { result ≡ attribute_name terminal }
    {
        match terminal {
            CommandTerminal::Word(CommandWord::Kind) => Some(AttributeName::Kind),
            CommandTerminal::Word(CommandWord::Visibility) => Some(AttributeName::Visibility),
            CommandTerminal::Word(CommandWord::Data) => Some(AttributeName::Data),
            CommandTerminal::Word(CommandWord::Desc) => Some(AttributeName::Desc),
            CommandTerminal::Word(CommandWord::Meaning) => Some(AttributeName::Meaning),
            CommandTerminal::Word(CommandWord::Offset) => Some(AttributeName::Offset),
            CommandTerminal::Word(CommandWord::Phname) => Some(AttributeName::Phname),
            _ => None,
        }
    }
}

impl Attributes {
    /// No attributes.
    pub(crate) fn none() -> Attributes
        ensures { result ≡ no_attributes }
    {
        Attributes {
            kind: None,
            private: false,
            all: false,
            desc: None,
            meaning: None,
            offset: None,
            phname: None,
        }
    }

    /// One more attribute; says whether its value is allowed there.
    #[tactic(auto, using(crate::proofs::Literals::chars_private, crate::proofs::Literals::chars_all))]
    pub(crate) fn add(
        &mut self,
        alloc: Global,
        name: AttributeName,
        value: &Text,
    ) -> Result<bool, OutOfMemory>
        ensures { IfOk result (λ on. reached on self.new ≡ with_attribute self.old name value.now) }
    {
        match name {
            AttributeName::Kind => Ok(self.add_kind(kind_named(value))),
            AttributeName::Visibility => Ok(self.add_private(value.is("private"))),
            AttributeName::Data => Ok(self.add_all(value.is("all"))),
            AttributeName::Desc => {
                self.desc = Some(value.copy(alloc)?);
                Ok(true)
            }
            AttributeName::Meaning => {
                self.meaning = Some(value.copy(alloc)?);
                Ok(true)
            }
            AttributeName::Offset => Ok(self.add_offset(value)),
            AttributeName::Phname => self.add_phname(alloc, value),
        }
    }

    /// A kind, if the value names one.
    fn add_kind(&mut self, kind: Option<Kind>) -> bool
        ensures { reached result self.new ≡ option_map (with_kind self.old) kind }
    {
        match kind {
            Some(kind) => {
                self.kind = Some(kind);
                true
            }
            None => false,
        }
    }

    /// `visibility="private"`, if its value is allowed.
    fn add_private(&mut self, allowed: bool) -> bool
        ensures { reached result self.new ≡ (if allowed then Some (record self.old { private = true }) else None) }
    {
        if allowed {
            self.private = true;
            true
        } else {
            false
        }
    }

    /// `data="all"`, if its value is allowed.
    fn add_all(&mut self, allowed: bool) -> bool
        ensures { reached result self.new ≡ (if allowed then Some (record self.old { all = true }) else None) }
    {
        if allowed {
            self.all = true;
            true
        } else {
            false
        }
    }

    /// An offset, if the value is an int.
    fn add_offset(&mut self, value: &Text) -> bool
        ensures { reached result self.new ≡ with_offset self.old value.now }
    {
        match written_int(value.text()) {
            Some(offset) => {
                self.offset = Some(offset);
                true
            }
            None => false,
        }
    }

    /// A `phname`, if the value is a name.
    fn add_phname(&mut self, alloc: Global, name: &Text) -> Result<bool, OutOfMemory>
        ensures { IfOk result (λ on. reached on self.new ≡ with_phname self.old name.now) }
    {
        if is_name(name.text()) {
            self.phname = Some(name.copy(alloc)?);
            Ok(true)
        } else {
            Ok(false)
        }
    }
}

/// The kind of a block that a value names.
#[tactic(auto, using(crate::proofs::Literals::chars_html, crate::proofs::Literals::chars_attributes, crate::proofs::Literals::chars_text))]
fn kind_named(value: &Text) -> Option<Kind>
    ensures { result ≡ kind_named value.now }
{
    if value.is("html") {
        Some(Kind::Html)
    } else if value.is("attributes") {
        Some(Kind::Attributes)
    } else if value.is("text") {
        Some(Kind::Text)
    } else {
        None
    }
}

impl Head {
    /// Whether the command may have this attribute after those.
    pub(crate) fn allows(&self, attributes: &Attributes, name: AttributeName) -> bool
        ensures { result ≡ allows self.now attributes.now name }
    {
        match (self, name) {
            (Head::Template(_), AttributeName::Kind) => !attributes.kind.is_some(),
            (Head::Template(_), AttributeName::Visibility) => !attributes.private,
            (Head::Let(_), AttributeName::Kind) => !attributes.kind.is_some(),
            (Head::Param(_), AttributeName::Kind) => !attributes.kind.is_some(),
            (Head::Call(_), AttributeName::Data) => !attributes.all,
            (Head::Message, AttributeName::Desc) => !attributes.desc.is_some(),
            (Head::Message, AttributeName::Meaning) => !attributes.meaning.is_some(),
            (Head::Fallback, AttributeName::Desc) => !attributes.desc.is_some(),
            (Head::Fallback, AttributeName::Meaning) => !attributes.meaning.is_some(),
            (Head::Plural(_), AttributeName::Offset) => !attributes.offset.is_some(),
            (Head::MessagePrint(_), AttributeName::Phname) => !attributes.phname.is_some(),
            _ => false,
        }
    }

    /// What the command says with its attributes and this end, if it may end so.
    pub(crate) fn form(
        self,
        alloc: Global,
        attributes: &mut Attributes,
        terminal: CommandTerminal,
    ) -> Option<CommandForm>
        ensures { result ≡ form_at self attributes.old terminal }
    {
        match terminal {
            CommandTerminal::End => self.plain_form(alloc, attributes),
            CommandTerminal::SlashEnd => self.slash_form(attributes),
            _ => no_form(self),
        }
    }

    /// What the command says that ends with `}`.
    fn plain_form(self, alloc: Global, attributes: &mut Attributes) -> Option<CommandForm>
        ensures { result ≡ plain_form self attributes.old }
    {
        match self {
            Head::Whole(form) => Some(form),
            Head::Alone(of) => no_single(of),
            Head::Template(name) => Some(template_form(name, attributes)),
            Head::MessagePrint(expr) => {
                let phname = attributes.phname.take();
                Some(CommandForm::Single(Single::MessagePrint(expr, phname)))
            }
            Head::Let(name) => let_form(name, attributes.kind),
            Head::Param(name) => param_form(name, attributes.kind),
            Head::Call(name) => Some(CommandForm::Opens(Opening::Call(name, attributes.all))),
            Head::Message => message_form(alloc, attributes),
            Head::Fallback => fallback_form(alloc, attributes),
            Head::Plural(selector) => Some(CommandForm::Opens(Opening::Plural(
                selector,
                attributes.offset.unwrap_or(0),
            ))),
        }
    }

    /// What the command says that ends with `/}`.
    fn slash_form(self, attributes: &Attributes) -> Option<CommandForm>
        ensures { result ≡ slash_form self attributes.now }
    {
        match self {
            Head::Alone(single) => Some(CommandForm::Single(single)),
            Head::Call(name) => Some(CommandForm::Single(Single::Call(name, attributes.all))),
            head => no_form(head),
        }
    }

    /// A head of one token.
    pub(crate) fn bare(
        alloc: Global,
        terminal: CommandTerminal,
    ) -> Result<Option<Head>, OutOfMemory>
        ensures { IfOk result (λ head. head ≡ bare_head terminal) }
    {
        match terminal {
            CommandTerminal::Word(word) => Head::bare_word(alloc, word),
            CommandTerminal::LineFeed => character(alloc, '\n'),
            CommandTerminal::CarriageReturn => character(alloc, '\r'),
            CommandTerminal::Tab => character(alloc, '\t'),
            CommandTerminal::Close(BlockName::Other) => Ok(None),
            CommandTerminal::Close(name) => Ok(Some(Head::Whole(CommandForm::Closes(name)))),
            _ => Ok(None),
        }
    }

    /// A head of one word.
    fn bare_word(alloc: Global, word: CommandWord) -> Result<Option<Head>, OutOfMemory>
        ensures { IfOk result (λ head. head ≡ bare_head (terminal.Word word)) }
    {
        match word {
            CommandWord::Space => character(alloc, ' '),
            CommandWord::Nil => Ok(Some(Head::Whole(CommandForm::Character(Text::empty(alloc))))),
            CommandWord::LeftBrace => character(alloc, '{'),
            CommandWord::RightBrace => character(alloc, '}'),
            CommandWord::NoBreakSpace => character(alloc, '\u{a0}'),
            CommandWord::Else => Ok(Some(Head::Whole(CommandForm::GoesOn(Middle::Else)))),
            CommandWord::Default => Ok(Some(Head::Whole(CommandForm::GoesOn(Middle::Default)))),
            CommandWord::Msg => Ok(Some(Head::Message)),
            CommandWord::FallbackMsg => Ok(Some(Head::Fallback)),
            _ => Ok(None),
        }
    }
}

/// A command that has no such end.
fn no_form(head: Head) -> Option<CommandForm>
    ensures { result ≡ None }
{
    drop(head);
    None
}

/// A command that holds no block and has no such end.
fn no_single(of: Single) -> Option<CommandForm>
    ensures { result ≡ None }
{
    drop(of);
    None
}

/// What a let with a block says, if its kind is there.
fn let_form(name: Text, kind: Option<Kind>) -> Option<CommandForm>
    ensures { result ≡ option_map (λ kind. says.Opens (opening.Let name kind)) kind }
{
    match kind {
        Some(kind) => Some(CommandForm::Opens(Opening::Let(name, kind))),
        None => None,
    }
}

/// What a param with a block says, if its kind is there.
fn param_form(name: Text, kind: Option<Kind>) -> Option<CommandForm>
    ensures { result ≡ option_map (λ kind. says.Opens (opening.Param name kind)) kind }
{
    match kind {
        Some(kind) => Some(CommandForm::Opens(Opening::Param(name, kind))),
        None => None,
    }
}

/// What a message says, if its `desc` is there.
fn message_form(alloc: Global, attributes: &mut Attributes) -> Option<CommandForm>
    ensures { result ≡ plain_form head.Message attributes.old }
{
    match attributes.desc.take() {
        Some(desc) => {
            let meaning = or_empty(alloc, attributes.meaning.take());
            Some(CommandForm::Opens(Opening::Message(desc, meaning)))
        }
        None => None,
    }
}

/// What a fallback says, if its `desc` is there.
fn fallback_form(alloc: Global, attributes: &mut Attributes) -> Option<CommandForm>
    ensures { result ≡ plain_form head.Fallback attributes.old }
{
    match attributes.desc.take() {
        Some(desc) => {
            let meaning = or_empty(alloc, attributes.meaning.take());
            Some(CommandForm::GoesOn(Middle::Fallback(desc, meaning)))
        }
        None => None,
    }
}

/// What the opening command of a template says.
fn template_form(name: Text, attributes: &Attributes) -> CommandForm
    ensures { result ≡ template_form name attributes.now }
{
    CommandForm::Opens(Opening::Template(TemplateOpening {
        name,
        kind: attributes.kind.unwrap_or(Kind::Html),
        private: attributes.private,
    }))
}

/// The text, or the empty one where there is none.
fn or_empty(alloc: Global, text: Option<Text>) -> Text
    ensures { result ≡ unwrap_or text [] }
{
    match text {
        Some(text) => text,
        None => Text::empty(alloc),
    }
}

/// A character command.
fn character(alloc: Global, c: char) -> Result<Option<Head>, OutOfMemory>
    ensures { IfOk result (λ found. found ≡ Some (head.Whole (says.Character (c ∷ [])))) }
{
    Ok(Some(Head::Whole(CommandForm::Character(text_of(alloc, c)?))))
}

/// The text of one character.
pub(crate) fn text_of(alloc: Global, c: char) -> Result<Text, OutOfMemory>
    ensures { IfOk result (λ text. text ≡ c ∷ []) }
{
    let mut text = String::new(alloc);
    push_char(&mut text, c)?;
    Ok(Text::new(text))
}
