//! The calls of a state.

ghost use Rattle.std.specs.Prelude.{◌≡◌, Ok, Err, OnOk, OnErr, IfErr, IsTrue};
ghost use Rattle.html_state.specs.AfterValue.{after_value};
ghost use Rattle.html_state.specs.MayEnd.{may_end};
ghost use Rattle.html_state.specs.Next.{next, text_end, value_character_next};
ghost use Rattle.html_state.specs.PartOf.{part_of};
ghost use Rattle.html_state.specs.Start.{start};
ghost use Rattle.html_state.specs.StatePlacing.{placing};
ghost use Rattle.html_state.specs.TakesClass.{takes_class};

use crate::markup::step_row;
use crate::place::{mark_row, row_placing};
use crate::reference::step_static;
use crate::row::{HtmlRow, Part, Reference, State, Tag, TagRow};
use soy_base::{Code, Kind, Placing, ValueClass};

impl State {
    /// The state in which a text of a kind begins.
    pub fn start(kind: Kind) -> State
        ensures { result ≡ start kind }
    {
        let row = match kind {
            Kind::Html => HtmlRow::Data,
            Kind::Attributes => HtmlRow::InTag(Tag::Block, TagRow::BeforeName),
            Kind::Text => HtmlRow::Plain,
        };
        State {
            row,
            reference: Reference::Decided,
        }
    }

    /// Reads a character of static text. The code says which fault it is, where it is one.
    pub fn step(&mut self, c: char) -> Result<(), Code>
        ensures ok { OnOk result (next self.old c ≡ Ok self.new) }
        ensures err { IfErr result (λ code. next self.old c ≡ Err code) }
        ensures unchanged { OnErr result (self.new ≡ self.old) }
    {
        step_static(self, c)
    }

    /// Reads a character of a value. It begins no reference and leaves the part of a URI.
    pub fn value_step(&mut self, c: char) -> Result<(), Code>
        ensures ok { OnOk result (value_character_next self.old c ≡ Ok self.new) }
        ensures err { IfErr result (λ code. value_character_next self.old c ≡ Err code) }
        ensures unchanged { OnErr result (self.new ≡ self.old) }
    {
        step_row(&mut self.row, c, false)
    }

    /// A static text ends here. It is refused with `Code::Ampersand` where its `&` isn't decided.
    pub fn end_text(&self) -> Result<(), Code>
        ensures ok { OnOk result (text_end self.now ≡ Ok self.now) }
        ensures err { IfErr result (λ code. text_end self.now ≡ Err code) }
    {
        match self.reference {
            Reference::Decided => Ok(()),
            _ => Err(Code::Ampersand),
        }
    }

    /// A value is printed here: it sets its mark.
    pub fn value(&mut self, class: ValueClass)
        requires { IsTrue (takes_class (placing self.old) class) }
        ensures { self.new ≡ after_value self.old }
    {
        let _ = class;
        mark_row(&mut self.row);
    }

    /// What happens to a value here.
    pub fn placing(&self) -> Placing
        ensures { result ≡ placing self.now }
    {
        row_placing(&self.row)
    }

    /// Whether a text of this kind may end here.
    pub fn may_end(&self, kind: Kind) -> bool
        ensures { result ≡ may_end kind self.now }
    {
        match (kind, &self.row) {
            (Kind::Html, HtmlRow::Data) => true,
            (Kind::Attributes, HtmlRow::InTag(_, inner)) => {
                matches!(
                    inner,
                    TagRow::BeforeName
                        | TagRow::AfterPrinted
                        | TagRow::AttributeName(_)
                        | TagRow::AfterQuoted
                )
            }
            (Kind::Text, HtmlRow::Plain) => true,
            _ => false,
        }
    }

    /// The row of the tokenizer's table that the state is in, with what it keeps.
    pub fn row(&self) -> HtmlRow
        ensures { result ≡ self.now.row }
    {
        self.row
    }

    /// The part of the markup that the state is in.
    pub fn part(&self) -> Part
        ensures { result ≡ part_of self.now }
    {
        match &self.row {
            HtmlRow::Data => Part::Text,
            HtmlRow::TagOpen | HtmlRow::EndTagOpen | HtmlRow::TagName(_, _) => Part::TagName,
            HtmlRow::InTag(_, TagRow::AttributeName(_)) => Part::AttrName,
            HtmlRow::InTag(_, TagRow::Quoted(_, _) | TagRow::Unquoted(_)) => Part::AttrValue,
            _ => Part::Hidden,
        }
    }
}
