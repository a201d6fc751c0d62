//! A page cut into its characters of text and its tags (WHATWG HTML, 13.2.5).
ghost use Rattle.std.specs.Prelude.{◌≡◌, ◌++◌, ◌∷◌, [], None, Some, IfOk, OnOk};
ghost use Rattle.std.specs.Char.{to_ascii_lowercase};
ghost use Rattle.html_state.specs.declared.row.State.{State};
ghost use Rattle.bidi_order.specs.MarkupTokens.{character_read, named_tag, no_tag, row_in_tag, tag_read};
ghost use Rattle.bidi_order.specs.MarkupTokens.{first_reading, in_tag_read, tag_token, text_given, text_pending};
ghost use Rattle.bidi_order.specs.MarkupTokens.{with_value};
ghost use Rattle.bidi_preview.specs.ReadingSteps.{GivesRest, pending_of, tokens_given, view_reader};

use crate::names::{copy, is_text};
use crate::reference::{Pending, decode};
use html_state::{HtmlRow, State, Tag, TagKind, TagRow};
use soy_base::{Kind, OutOfMemory};
use std::alloc::Global;
use std::marker::Model;
use std::mem::replace;

/// A whole tag: its name, and of a start tag the value of its first `dir`.
#[derive(Debug, Drop)]
pub(crate) enum GivenTag {
    Start(Vec<char>, Option<Vec<char>>),
    End(Vec<char>),
}

/// What a character of a page gives: characters of text, or a tag.
#[derive(Debug, Drop)]
pub(crate) struct Given {
    pub(crate) characters: Vec<char>,
    pub(crate) tag: Option<GivenTag>,
}

impl Given {
    /// Nothing. Takes no memory.
    pub(crate) fn new(alloc: Global) -> Given
        ensures { tokens_given result.characters.items result.tag ≡ [] }
    {
        Given {
            characters: Vec::new(alloc),
            tag: None,
        }
    }

    fn clear(&mut self)
        ensures characters { self.new.characters.items ≡ [] }
        ensures tag { self.new.tag ≡ None }
    {
        self.characters.clear();
        self.tag = None;
    }
}

/// What is known of a tag that is being read.
#[derive(Debug, Drop)]
pub(crate) struct TagReader {
    name: Vec<char>,
    attribute: Vec<char>,
    value: Vec<char>,
    dir: Option<Vec<char>>,
}

impl Model for TagReader {
    ghost use Rattle.std.specs.Prelude.{option_map};
    ghost use Rattle.bidi_order.specs.MarkupTokens.{TagReading};

    ghost Value = { TagReading };

    ghost view = { λ t. record {
      name = t.name.items;
      attribute = t.attribute.items;
      value = t.value.items;
      dir = option_map (λ d. d.items) t.dir;
    } };
}

impl TagReader {
    /// No tag. Takes no memory.
    fn new(alloc: Global) -> TagReader
        ensures { result ≡ no_tag }
    {
        TagReader {
            name: Vec::new(alloc),
            attribute: Vec::new(alloc),
            value: Vec::new(alloc),
            dir: None,
        }
    }

    fn clear(&mut self)
        ensures { self.new ≡ no_tag }
    {
        self.name.clear();
        self.attribute.clear();
        self.value.clear();
        self.dir = None;
    }

    /// One more character of the name.
    fn push_name(&mut self, c: char) -> Result<(), OutOfMemory>
        ensures { OnOk result (self.new ≡ named_tag (self.old.name ++ to_ascii_lowercase c ∷ [])) }
    {
        self.name.push(c.to_ascii_lowercase())?;
        self.attribute.clear();
        self.value.clear();
        self.dir = None;
        Ok(())
    }

    /// The first character of the name.
    fn begin_name(&mut self, c: char) -> Result<(), OutOfMemory>
        ensures { OnOk result (self.new ≡ named_tag (to_ascii_lowercase c ∷ [])) }
    {
        self.clear();
        self.push_name(c)
    }

    /// A tag of a name of ASCII.
    fn take_name(&mut self, name: &[u8]) -> Result<(), OutOfMemory>
        ensures { OnOk result (self.new ≡ named_tag name.now) }
    {
        self.clear();
        push_ascii(&mut self.name, name)
    }

    /// Reads a character in the tag, by the row before it and the row after it.
    fn read(
        &mut self,
        alloc: Global,
        before: &TagRow,
        after: &HtmlRow,
        c: char,
    ) -> Result<(), OutOfMemory>
        ensures { OnOk result (self.new ≡ tag_read before.now (row_in_tag after.now) c self.old) }
    {
        match (before, after) {
            (TagRow::AttributeName(_), HtmlRow::InTag(_, TagRow::AttributeName(_))) => {
                self.attribute.push(c.to_ascii_lowercase())?;
            }
            (TagRow::AttributeName(_), HtmlRow::InTag(_, TagRow::BeforeValue(_))) => {}
            (TagRow::AttributeName(_), _) => self.end_value(Vec::new(alloc)),
            (TagRow::BeforeValue(_), HtmlRow::InTag(_, TagRow::Unquoted(_))) => {
                self.value.clear();
                self.value.push(c)?;
            }
            (TagRow::BeforeValue(_), HtmlRow::InTag(_, _)) => {}
            (TagRow::BeforeValue(_), _) => self.end_value(Vec::new(alloc)),
            (TagRow::Quoted(_, _), HtmlRow::InTag(_, TagRow::Quoted(_, _))) => self.value.push(c)?,
            (TagRow::Quoted(_, _), _) => {
                let value = decode(alloc, &self.value)?;
                self.end_value(value);
            }
            (TagRow::Unquoted(_), HtmlRow::InTag(_, TagRow::Unquoted(_))) => self.value.push(c)?,
            (TagRow::Unquoted(_), _) => {
                let value = copy(alloc, &self.value)?;
                self.end_value(value);
            }
            (_, HtmlRow::InTag(_, TagRow::AttributeName(_))) => {
                self.attribute.clear();
                self.attribute.push(c.to_ascii_lowercase())?;
                self.value.clear();
            }
            _ => {}
        }
        Ok(())
    }

    /// After the value of the last attribute.
    fn end_value(&mut self, value: Vec<char>)
        ensures { self.new ≡ with_value value.items self.old }
    {
        if is_text(&self.attribute, b"dir") && self.dir.is_none() {
            self.dir = Some(value);
        }
    }

    /// The whole tag. None is left.
    fn take(&mut self, alloc: Global, kind: TagKind) -> GivenTag
        ensures tag { tokens_given [] (Some result) ≡ tag_token kind self.old None }
        ensures none { self.new ≡ no_tag }
    {
        let name = replace(&mut self.name, Vec::new(alloc));
        let dir = replace(&mut self.dir, None);
        self.clear();
        match kind {
            TagKind::Start => GivenTag::Start(name, dir),
            TagKind::End => GivenTag::End(name),
        }
    }
}

/// Puts a text of ASCII at the end.
fn push_ascii(out: &mut Vec<char>, text: &[u8]) -> Result<(), OutOfMemory>
    ensures { OnOk result (out.new.items ≡ out.old.items ++ text.now) }
{
    for byte in text {
        out.push(*byte as char)?;
    }
    Ok(())
}

/// What is known between the characters of a page, beside the state of the tokenizer.
#[derive(Debug, Drop)]
pub(crate) struct Reader {
    tag: TagReader,
    reference: Pending,
}

impl Reader {
    /// Before the first character. Takes no memory.
    fn new(alloc: Global) -> Reader
        ensures tag { result.tag ≡ no_tag }
        ensures reference { pending_of result.reference.begun result.reference.letters.items ≡ None }
    {
        Reader {
            tag: TagReader::new(alloc),
            reference: Pending::new(alloc),
        }
    }

    /// Reads a character, by the row before it and the row after it.
    fn read(
        &mut self,
        alloc: Global,
        before: &HtmlRow,
        after: &HtmlRow,
        c: char,
        given: &mut Given,
    ) -> Result<(), OutOfMemory>
        requires characters { given.old.characters.items ≡ [] }
        requires tag { given.old.tag ≡ None }
        ensures { OnOk result ((s : State)
            → (tokens_given given.new.characters.items given.new.tag, view_reader s self.new)
            ≡ character_read before.now after.now None c (view_reader s self.old)) }
    {
        match (before, after) {
            (HtmlRow::Data, _) => {
                self.read_text(c, given)?;
                Ok(())
            }
            (HtmlRow::TagOpen, HtmlRow::Data | HtmlRow::TagOpen) => {
                given.characters.push('<')?;
                self.read_text(c, given)?;
                Ok(())
            }
            (HtmlRow::TagOpen | HtmlRow::EndTagOpen, HtmlRow::TagName(_, _)) => {
                self.tag.begin_name(c)
            }
            (HtmlRow::TagName(_, _), HtmlRow::TagName(_, _)) => self.tag.push_name(c),
            (HtmlRow::TagName(_, _), HtmlRow::InTag(_, _)) => Ok(()),
            (
                HtmlRow::TagName(kind, _),
                HtmlRow::Data
                | HtmlRow::TagOpen
                | HtmlRow::EndTagOpen
                | HtmlRow::MarkupDeclaration(_)
                | HtmlRow::InDeclaration(_)
                | HtmlRow::Within(_)
                | HtmlRow::BegunEndTag(_, _)
                | HtmlRow::Outside
                | HtmlRow::Plain,
            ) => {
                given.tag = Some(self.tag.take(alloc, *kind));
                Ok(())
            }
            (HtmlRow::InTag(Tag::Named(kind, _), inner), _) => {
                self.read_in_tag(alloc, *kind, inner, after, c, given)
            }
            (HtmlRow::BegunEndTag(element, _), HtmlRow::InTag(_, _)) => {
                self.tag.take_name(element.name())
            }
            (HtmlRow::BegunEndTag(element, _), HtmlRow::Data) => {
                let mut name = Vec::new(alloc);
                push_ascii(&mut name, element.name())?;
                given.tag = Some(GivenTag::End(name));
                Ok(())
            }
            _ => Ok(()),
        }
    }

    /// Reads a character in a tag. Past the tag's end the tag is given.
    fn read_in_tag(
        &mut self,
        alloc: Global,
        kind: TagKind,
        before: &TagRow,
        after: &HtmlRow,
        c: char,
        given: &mut Given,
    ) -> Result<(), OutOfMemory>
        requires characters { given.old.characters.items ≡ [] }
        requires tag { given.old.tag ≡ None }
        ensures { OnOk result ((s : State)
            → (tokens_given given.new.characters.items given.new.tag, view_reader s self.new)
            ≡ in_tag_read kind (tag_read before.now (row_in_tag after.now) c self.old.tag) after.now None
            (view_reader s self.old)) }
    {
        self.tag.read(alloc, before, after, c)?;
        match after {
            HtmlRow::InTag(_, _) => {}
            HtmlRow::Data
            | HtmlRow::TagOpen
            | HtmlRow::EndTagOpen
            | HtmlRow::TagName(_, _)
            | HtmlRow::MarkupDeclaration(_)
            | HtmlRow::InDeclaration(_)
            | HtmlRow::Within(_)
            | HtmlRow::BegunEndTag(_, _)
            | HtmlRow::Outside
            | HtmlRow::Plain => given.tag = Some(self.tag.take(alloc, kind)),
        }
        Ok(())
    }

    /// Reads a character of text.
    fn read_text(&mut self, c: char, given: &mut Given) -> Result<(), OutOfMemory>
        ensures tag { given.new.tag ≡ given.old.tag }
        ensures same { self.new.tag ≡ self.old.tag }
        ensures characters { OnOk result (given.new.characters.items ≡ given.old.characters.items
            ++ text_given (pending_of self.old.reference.begun self.old.reference.letters.items) c) }
        ensures reference { OnOk result (pending_of self.new.reference.begun self.new.reference.letters.items
            ≡ text_pending (pending_of self.old.reference.begun self.old.reference.letters.items) c) }
    {
        if c == '<' {
            self.reference.give_up(&mut given.characters)
        } else {
            self.reference.read(c, &mut given.characters)
        }
    }
}

/// What is known of a page up to a character.
#[derive(Debug, Drop)]
pub(crate) struct PageReader {
    state: State,
    reader: Reader,
}

impl PageReader {
    /// Before the first character of a page. Takes no memory.
    pub(crate) fn new(alloc: Global) -> PageReader
        ensures { view_reader result.state result.reader ≡ first_reading }
    {
        PageReader {
            state: State::start(Kind::Html),
            reader: Reader::new(alloc),
        }
    }

    /// Reads a character, and says whether it is no fault. What it gives is put into `given`.
    #[tactic(auto, using(crate::proofs::PageReadings::reads_more, crate::proofs::PageReadings::reads_none))]
    pub(crate) fn read(
        &mut self,
        alloc: Global,
        c: char,
        given: &mut Given,
    ) -> Result<bool, OutOfMemory>
        ensures { IfOk result (λ more. GivesRest more (view_reader self.old.state self.old.reader) c
            (tokens_given given.new.characters.items given.new.tag) (view_reader self.new.state self.new.reader)) }
    {
        let before = self.state.row();
        match self.state.step(c) {
            Err(_) => Ok(false),
            Ok(()) => {
                let after = self.state.row();
                given.clear();
                self.reader.read(alloc, &before, &after, c, given)?;
                Ok(true)
            }
        }
    }
}
