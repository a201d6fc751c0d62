//! The directions of the elements that go by their content (WHATWG HTML, "The dir attribute"), found in one pass.
ghost use Rattle.std.specs.Prelude.{◌≡◌, ◌++◌, [], List, None, Some, IfOk, OnOk, length, map, option_map};
ghost use Rattle.std.specs.Str.{bytes_eq};
ghost use Rattle.bidi_order.specs.Elements.{dir_attribute};
ghost use Rattle.bidi_preview.specs.AutoDirections.{answer_at, character_answers};
ghost use Rattle.bidi_preview.specs.AutoDirections.{end_opened, goes_by_content, is_apart};
ghost use Rattle.bidi_preview.specs.AutoDirections.{or_left, start_answers, start_opened, top_waits, with_answer};
ghost use Rattle.bidi_preview.specs.DirValues.{view_dir};
ghost use Rattle.bidi_preview.specs.ReadingSteps.{tokens_given};
ghost use Rattle.bidi_preview.specs.SearchedNames.{AreCounted};
ghost use Rattle.bidi_order.specs.MarkupTokens.{MarkupToken, labelled_characters};
ghost use Rattle.bidi_preview.specs.AutoDirections.{answers_from};

use crate::names::{is_lower, is_same, is_text, is_void};
use crate::open_names::OpenNames;
use crate::reading::{Given, GivenTag};
use bidi_class::{Class, class_of};
use soy_base::{OutOfMemory, Stack};
use std::alloc::Global;
use std::marker::Model;

/// What a `dir` says.
#[derive(Clone, Copy, Debug)]
pub(crate) enum DirValue {
    Ltr,
    Rtl,
    Auto,
}

/// An open element, and the number of the answer for which a strong character directly in it decides.
#[derive(Debug, Drop)]
pub(crate) struct Searched {
    name: Vec<char>,
    waits: Option<usize>,
}

impl Model for Searched {
    ghost use Rattle.bidi_preview.specs.AutoDirections.{OpenName};

    ghost Value = { OpenName };

    ghost view = { λ s. record { name = s.name.items; waits = s.waits } };
}

/// The directions that are found so far.
#[derive(Debug, Drop)]
pub(crate) struct Directions {
    opened: Stack<Searched>,
    names: OpenNames,
    answers: Vec<Option<bool>>,
}

impl Searched {
    fn new(name: Vec<char>, waits: Option<usize>) -> Searched
        ensures { result ≡ record { name = name.items; waits = waits } }
    {
        Searched { name, waits }
    }

    fn has_name(&self, name: &Vec<char>) -> bool
        ensures { result ≡ bytes_eq self.now.name name.now.items }
    {
        is_same(&self.name, name)
    }

    fn into_name(self) -> Vec<char>
        ensures { result.items ≡ self.name }
    {
        self.name
    }

    fn waits(&self) -> Option<usize>
        ensures { result ≡ self.now.waits }
    {
        self.waits
    }
}

impl Directions {
    /// No element is open. Takes no memory.
    pub(crate) fn new(alloc: Global) -> Directions
        ensures opened { result.opened ≡ [] }
        ensures names { AreCounted result }
        ensures answers { result.answers.items ≡ [] }
    {
        Directions {
            opened: Stack::empty(alloc),
            names: OpenNames::none(alloc),
            answers: Vec::new(alloc),
        }
    }

    /// Reads what a character of the page gives.
    pub(crate) fn read(&mut self, alloc: Global, given: &mut Given) -> Result<(), OutOfMemory>
        requires { AreCounted self.old }
        ensures names { OnOk result (AreCounted self.new) }
        ensures answers { OnOk result ((rest : List MarkupToken)
            → answers_from self.new.opened self.new.answers.items rest
            ≡ answers_from self.old.opened self.old.answers.items
            (tokens_given given.old.characters.items given.old.tag ++ rest)) }
    {
        match given.tag.take() {
            Some(GivenTag::Start(name, dir)) => { self.read_start(alloc, name, read_dir(&dir)) }
            Some(GivenTag::End(name)) => self.read_end(&name),
            None => {
                self.read_characters(&given.characters);
                Ok(())
            }
        }
    }

    /// Reads characters of text.
    fn read_characters(&mut self, characters: &[char])
        requires { AreCounted self.old }
        ensures names { AreCounted self.new }
        ensures answers { (rest : List MarkupToken)
            → answers_from self.new.opened self.new.answers.items rest
            ≡ answers_from self.old.opened self.old.answers.items
            (labelled_characters None characters.now ++ rest) }
    {
        for c in characters {
            self.read_character(*c);
        }
    }

    /// Reads a character of text.
    fn read_character(&mut self, c: char)
        ensures opened { self.new.opened ≡ self.old.opened }
        ensures names { AreCounted self.old → AreCounted self.new }
        ensures answers { self.new.answers.items
            ≡ character_answers (top_waits self.old.opened) c self.old.answers.items }
    {
        let waits = top_waits(&self.opened);
        match class_of(c) {
            Class::L => answer(waits, false, &mut self.answers),
            Class::R | Class::AL => answer(waits, true, &mut self.answers),
            _ => {}
        }
    }

    /// Reads a start tag.
    #[tactic(auto, using(crate::proofs::SearchedElements::names_more))]
    fn read_start(
        &mut self,
        alloc: Global,
        name: Vec<char>,
        dir: Option<DirValue>,
    ) -> Result<(), OutOfMemory>
        requires { AreCounted self.old }
        ensures names { OnOk result (AreCounted self.new) }
        ensures opened { OnOk result (self.new.opened
            ≡ start_opened name.items (option_map view_dir dir) (length self.old.answers.items)
            self.old.opened) }
        ensures answers { OnOk result (self.new.answers.items
            ≡ start_answers name.items (option_map view_dir dir) self.old.answers.items) }
    {
        if is_void(&name) {
            return Ok(());
        }
        let waits = if goes_by_content(&name, dir) {
            let number = self.answers.len();
            self.answers.push(None)?;
            Some(number)
        } else if is_apart(&name, dir) {
            None
        } else {
            top_waits(&self.opened)
        };
        self.names.add(alloc, &name)?;
        self.opened.push(Searched::new(name, waits))?;
        Ok(())
    }

    /// Reads an end tag.
    #[tactic(auto, using(crate::proofs::SearchedElements::ends_last, crate::proofs::SearchedElements::ends_nothing, crate::proofs::SearchedElements::ends_one, crate::proofs::SearchedElements::names_less, crate::proofs::SearchedElements::search_goes_on))]
    fn read_end(&mut self, name: &Vec<char>) -> Result<(), OutOfMemory>
        requires { AreCounted self.old }
        ensures names { OnOk result (AreCounted self.new) }
        ensures opened { OnOk result (self.new.opened ≡ end_opened name.now.items self.old.opened) }
        ensures answers { self.new.answers.items ≡ self.old.answers.items }
    {
        if self.names.count(name) == 0 {
            return Ok(());
        }
        while let Some(element) = self.opened.pop() {
            let last = element.has_name(name);
            self.names.remove(element.into_name())?;
            if last {
                return Ok(());
            }
        }
        Ok(())
    }

    /// The directions, in the order of their start tags.
    pub(crate) fn done(self, alloc: Global) -> Result<Vec<bool>, OutOfMemory>
        ensures { IfOk result (λ found. found.items ≡ map or_left self.answers.items) }
    {
        let mut found = Vec::new(alloc);
        for answer in &self.answers {
            found.push(matches!(answer, Some(true)))?;
        }
        Ok(found)
    }
}

/// For which answer the innermost open element waits.
fn top_waits(opened: &Stack<Searched>) -> Option<usize>
    ensures { result ≡ top_waits opened.now }
{
    match opened.top() {
        Some(top) => top.waits(),
        None => None,
    }
}

/// Gives an answer where none was.
fn answer(waits: Option<usize>, right_to_left: bool, answers: &mut [Option<bool>])
    ensures { answers.new ≡ with_answer waits right_to_left answers.old }
{
    if let Some(k) = waits {
        answer_at(k, right_to_left, answers);
    }
}

#[tactic(auto, using(crate::proofs::GivenAnswers::answer_set, crate::proofs::GivenAnswers::answer_kept, crate::proofs::GivenAnswers::answer_past))]
fn answer_at(k: usize, right_to_left: bool, answers: &mut [Option<bool>])
    ensures { answers.new ≡ answer_at k right_to_left answers.old }
{
    if k >= answers.len() {
        return;
    }
    match answers[k] {
        None => answers[k] = Some(right_to_left),
        Some(_) => {}
    }
}

/// Whether the direction of an element goes by its content.
pub(crate) fn goes_by_content(name: &[char], dir: Option<DirValue>) -> bool
    ensures { result ≡ goes_by_content name.now (option_map view_dir dir) }
{
    match dir {
        None => is_text(name, b"bdi"),
        Some(DirValue::Auto) => true,
        Some(_) => false,
    }
}

/// Whether the content of an element doesn't count for those around it.
fn is_apart(name: &[char], dir: Option<DirValue>) -> bool
    ensures { result ≡ is_apart name.now (option_map view_dir dir) }
{
    dir.is_some() || is_text(name, b"bdi")
}

/// What the value of a first `dir` says, in any case.
pub(crate) fn read_dir(value: &Option<Vec<char>>) -> Option<DirValue>
    ensures { option_map view_dir result ≡ dir_attribute (option_map (λ v. v.items) value.now) }
{
    match value {
        None => None,
        Some(value) => {
            if is_lower(value, b"ltr") {
                Some(DirValue::Ltr)
            } else if is_lower(value, b"rtl") {
                Some(DirValue::Rtl)
            } else if is_lower(value, b"auto") {
                Some(DirValue::Auto)
            } else {
                None
            }
        }
    }
}
