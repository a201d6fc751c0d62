//! The lines of a page, by the tags that end a line, with what stands in a line for its elements (UAX #9, 4.3, HL3).
ghost use Rattle.std.specs.Prelude.{◌≡◌, ◌++◌, [], ◌∷◌, false, IfOk, None, OnOk, drop, option_map, slice_index_or};
ghost use Rattle.bidi_order.specs.Elements.{has_override};
ghost use Rattle.bidi_order.specs.Lines.{direction_level, ends_line};
ghost use Rattle.bidi_order.specs.MarkupTokens.{labelled_characters};
ghost use Rattle.bidi_order.specs.MarkupTokens.MarkupToken.{Character, EndTag, StartTag};
ghost use Rattle.bidi_preview.specs.LinesSoFar.{view_lines};
ghost use Rattle.bidi_preview.specs.PageSteps.{EndsLine, EndsUnless, GoOn, GoesPast, left_directions, page_opened};
ghost use Rattle.bidi_preview.specs.PageSteps.{shown_of, taken_direction, with_rest};
ghost use Rattle.bidi_preview.specs.ReadingSteps.{tokens_given};
ghost use Rattle.bidi_preview.specs.Seen.{shown_text};
ghost use Rattle.bidi_preview.specs.DirValues.{view_dir};

use crate::direction::{DirValue, goes_by_content, read_dir};
use crate::names::{is_inline, is_text, is_void};
use crate::opened::{Element, OpenElements};
use crate::reading::{Given, GivenTag};
use crate::shown::{is_shown, show_line};
use bidi_class::{Class, class_of};
use soy_base::{Dir, OutOfMemory, Row, Seq, Text};
use std::alloc::Global;
use std::mem::replace;

/// The lines that ended, as texts, and the line that has begun.
#[derive(Debug, Drop)]
pub(crate) struct Lines {
    context: Dir,
    opened: OpenElements,
    directions: Vec<bool>,
    next: usize,
    base: Dir,
    characters: Vec<char>,
    texts: Row<Text>,
}

impl Lines {
    /// The first line, in which no element is open. Takes no memory.
    pub(crate) fn new(alloc: Global, context: Dir, directions: Vec<bool>) -> Lines
        ensures context { result.context ≡ context }
        ensures page { view_lines result ≡ record {
          opened = [];
          directions = directions.items;
          base = direction_level context;
          characters = [];
          texts = [];
        } }
    {
        Lines {
            context,
            opened: OpenElements::none(alloc),
            directions,
            next: 0,
            base: context,
            characters: Vec::new(alloc),
            texts: Row::empty(alloc),
        }
    }

    /// The last line ends, and the page.
    #[tactic(auto, using(crate::proofs::PageLines::page_ended))]
    pub(crate) fn done(self, alloc: Global) -> Result<Seq<Text>, OutOfMemory>
        ensures { IfOk result (λ texts. texts ≡ with_rest (view_lines self) ([], [])) }
    {
        let mut texts = self.texts;
        push_line(alloc, self.base, &self.characters, &mut texts)?;
        Ok(texts.done())
    }

    /// Reads what a character of the page gives.
    pub(crate) fn read(&mut self, alloc: Global, given: &mut Given) -> Result<(), OutOfMemory>
        ensures context { OnOk result (self.new.context ≡ self.old.context) }
        ensures texts { OnOk result (GoOn (direction_level self.old.context) (view_lines self.old)
            (tokens_given given.old.characters.items given.old.tag) (view_lines self.new)) }
    {
        match given.tag.take() {
            Some(GivenTag::Start(name, dir)) => self.read_start(alloc, name, dir),
            Some(GivenTag::End(name)) => self.read_end(alloc, &name),
            None => self.read_characters(alloc, &given.characters),
        }
    }

    /// Reads characters of text.
    fn read_characters(&mut self, alloc: Global, characters: &[char]) -> Result<(), OutOfMemory>
        ensures context { OnOk result (self.new.context ≡ self.old.context) }
        ensures texts { OnOk result (GoOn (direction_level self.old.context) (view_lines self.old)
            (labelled_characters None characters.now) (view_lines self.new)) }
    {
        for c in characters {
            self.read_character(alloc, *c)?;
        }
        Ok(())
    }

    /// Reads a character of text.
    #[tactic(auto, using(crate::proofs::PageLines::character_ends, crate::proofs::PageLines::character_stays))]
    fn read_character(&mut self, alloc: Global, c: char) -> Result<(), OutOfMemory>
        ensures context { OnOk result (self.new.context ≡ self.old.context) }
        ensures texts { OnOk result (GoOn (direction_level self.old.context) (view_lines self.old)
            (Character c None ∷ []) (view_lines self.new)) }
    {
        if ends_line(c) {
            return self.end_line(alloc);
        }
        self.characters
            .push(if c.is_ascii_whitespace() { ' ' } else { c })?;
        Ok(())
    }

    /// Reads a start tag.
    #[tactic(auto, using(crate::proofs::PageLines::tag_goes_on))]
    fn read_start(
        &mut self,
        alloc: Global,
        name: Vec<char>,
        dir: Option<Vec<char>>,
    ) -> Result<(), OutOfMemory>
        ensures context { OnOk result (self.new.context ≡ self.old.context) }
        ensures texts { OnOk result (GoOn (direction_level self.old.context) (view_lines self.old)
            (StartTag name.items (option_map (λ d. d.items) dir) None ∷ []) (view_lines self.new)) }
    {
        let inline = is_inline(&name);
        self.open_content(alloc, name, &dir)?;
        self.end_unless(alloc, inline)
    }

    /// Opens the element of a start tag, unless it is void.
    #[tactic(auto, using(crate::proofs::PageLines::start_opens, crate::proofs::PageLines::start_void))]
    fn open_content(
        &mut self,
        alloc: Global,
        name: Vec<char>,
        dir: &Option<Vec<char>>,
    ) -> Result<(), OutOfMemory>
        ensures context { OnOk result (self.new.context ≡ self.old.context) }
        ensures past { OnOk result (GoesPast (direction_level self.old.context) (view_lines self.old)
            (StartTag name.items (option_map (λ d. d.items) dir.now) None) name.items (view_lines self.new)) }
    {
        if is_void(&name) {
            return Ok(());
        }
        self.open(alloc, name, read_dir(dir))
    }

    /// Opens an element, with what stands for its start.
    fn open(
        &mut self,
        alloc: Global,
        name: Vec<char>,
        dir: Option<DirValue>,
    ) -> Result<(), OutOfMemory>
        ensures context { OnOk result (self.new.context ≡ self.old.context) }
        ensures page { OnOk result (view_lines self.new
            ≡ page_opened name.items (option_map view_dir dir) (view_lines self.old)) }
    {
        let overrides = dir_overrides(&name, dir);
        let direction = self.direction_of(&name, dir);
        let element = Element::new(name, direction, overrides);
        element.push_start(&mut self.characters)?;
        let opened = replace(&mut self.opened, OpenElements::none(alloc));
        self.opened = opened.opened(alloc, element)?;
        Ok(())
    }

    /// The direction of an element. Where it goes by its content, it is the next of those that were found.
    fn direction_of(&mut self, name: &[char], dir: Option<DirValue>) -> Option<bool>
        ensures result { result ≡ taken_direction name.now (option_map view_dir dir) (view_lines self.old).directions }
        ensures page { view_lines self.new ≡ record (view_lines self.old) {
          directions = left_directions name.now (option_map view_dir dir) (view_lines self.old).directions;
        } }
        ensures context { self.new.context ≡ self.old.context }
    {
        match dir {
            Some(DirValue::Ltr) => Some(false),
            Some(DirValue::Rtl) => Some(true),
            _ if goes_by_content(name, dir) => Some(self.next_direction()),
            _ => None,
        }
    }

    /// The next of the directions that were found.
    fn next_direction(&mut self) -> bool
        ensures result { result ≡ slice_index_or (view_lines self.old).directions 0 false }
        ensures page { view_lines self.new ≡ record (view_lines self.old) {
          directions = drop 1 (view_lines self.old).directions;
        } }
        ensures context { self.new.context ≡ self.old.context }
    {
        match self.directions.get(self.next) {
            Some(direction) => {
                self.next += 1;
                *direction
            }
            None => false,
        }
    }

    /// Reads an end tag.
    #[tactic(auto, using(crate::proofs::PageLines::tag_goes_on))]
    fn read_end(&mut self, alloc: Global, name: &Vec<char>) -> Result<(), OutOfMemory>
        ensures context { OnOk result (self.new.context ≡ self.old.context) }
        ensures texts { OnOk result (GoOn (direction_level self.old.context) (view_lines self.old)
            (EndTag name.now.items ∷ []) (view_lines self.new)) }
    {
        self.close(alloc, name)?;
        self.end_unless(alloc, is_inline(name))
    }

    /// Closes the innermost element of a name, if one is open, and those in it.
    #[tactic(auto, using(crate::proofs::PageLines::closes_past))]
    fn close(&mut self, alloc: Global, name: &Vec<char>) -> Result<(), OutOfMemory>
        ensures context { OnOk result (self.new.context ≡ self.old.context) }
        ensures past { OnOk result (GoesPast (direction_level self.old.context) (view_lines self.old)
            (EndTag name.now.items) name.now.items (view_lines self.new)) }
    {
        let opened = replace(&mut self.opened, OpenElements::none(alloc));
        self.opened = opened.closed(name, &mut self.characters)?;
        Ok(())
    }

    /// The line ends, and one begins inside the open elements.
    #[tactic(auto, using(crate::proofs::PageLines::line_ended))]
    fn end_line(&mut self, alloc: Global) -> Result<(), OutOfMemory>
        ensures context { OnOk result (self.new.context ≡ self.old.context) }
        ensures ends { OnOk result (EndsLine (direction_level self.old.context) (view_lines self.old)
            (view_lines self.new)) }
    {
        push_line(alloc, self.base, &self.characters, &mut self.texts)?;
        self.base = self.opened.base(self.context);
        self.characters.clear();
        self.characters.extend_from_slice(self.opened.start())?;
        Ok(())
    }

    /// The line ends unless the tag was inline.
    fn end_unless(&mut self, alloc: Global, inline: bool) -> Result<(), OutOfMemory>
        ensures context { OnOk result (self.new.context ≡ self.old.context) }
        ensures ends { OnOk result (EndsUnless inline (direction_level self.old.context) (view_lines self.old)
            (view_lines self.new)) }
    {
        if inline {
            return Ok(());
        }
        self.end_line(alloc)
    }
}

/// Puts the text of a line at the end, where it is shown.
fn push_line(
    alloc: Global,
    base: Dir,
    line: &[char],
    texts: &mut Row<Text>,
) -> Result<(), OutOfMemory>
    ensures { OnOk result (texts.new ≡ texts.old ++ shown_of (shown_text (direction_level base) line.now)) }
{
    let text = show_line(alloc, base, line)?;
    if is_shown(&text) {
        texts.push(text)?;
    }
    Ok(())
}

/// Whether a character ends a line.
fn ends_line(c: char) -> bool
    ensures { result ≡ ends_line c None }
{
    c != '\n' && c != '\r' && matches!(class_of(c), Class::B)
}

/// Whether an element overrides the directions of its characters.
fn dir_overrides(name: &[char], dir: Option<DirValue>) -> bool
    ensures { result ≡ has_override name.now (option_map view_dir dir) }
{
    match dir {
        Some(DirValue::Ltr | DirValue::Rtl) => is_text(name, b"bdo"),
        _ => false,
    }
}
