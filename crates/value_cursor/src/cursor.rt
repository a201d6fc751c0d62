//! Cursors: what they stand for, and the calls on them.
ghost use Rattle.std.specs.Prelude.{◌≡◌, ◌≢◌, ◌≤◌, ◌<◌, ◌++◌, ℕ, List, [], Some, length, take, drop, min};
ghost use Rattle.std.specs.Prelude.{IfOk, OnErr, IsTrue, option_map, encode_utf8_all};
ghost use Rattle.std.specs.List.{flat_map, list_any};
ghost use Rattle.std.specs.Str.{chars, IsCharBoundary};
ghost use Rattle.bidi_class.specs.Pairs.{is_initiator};
ghost use Rattle.bidi_text.specs.Wrap.{wrapped_text};
ghost use Rattle.escapers.specs.Esc.{esc, escaped_character, is_by_characters};
ghost use Rattle.escapers.specs.EscaperFor.{IsEscaperOf};
ghost use Rattle.escapers.specs.JsValue.{js_value};
ghost use Rattle.value_cursor.specs.BytesLeft.{bytes_from, bytes_left, source, CursorFits, IsPlan};
ghost use Rattle.value_cursor.specs.Cleaned.{MarksAscend, Cleans};
ghost use Rattle.value_cursor.specs.EscapedForm.{escaped_form};
ghost use Rattle.value_cursor.specs.Gives.{Gives};

use crate::cleaning::Cleaning;
use crate::plan::Plan;
use crate::progress::Progress;
use bidi_text::estimate;
use esc_table::Tail;
use escapers::{Escaper, is_css_value, may_start_uri};
use soy_base::{Dir, OutOfMemory, ValueClass};
use std::alloc::Global;

/// What is still to be given of the escaped form of a value's text.
///
/// It keeps offsets in the text and no part of it, so each call takes the text again.
#[derive(Debug, Drop)]
pub struct Cursor {
    plan: Plan,
    progress: Progress,
    /// What follows the forms of all characters.
    closing: &'static str,
    /// How many bytes are left.
    left: u128,
}

impl Cursor {
    /// A cursor that has all bytes of the escaped form of a text left.
    ///
    /// Takes memory only where the text is wrapped and has an isolate initiator.
    pub fn begin(
        alloc: Global,
        how: Escaper,
        class: ValueClass,
        text: &str,
        context: Dir,
    ) -> Result<Cursor, OutOfMemory>
        requires not_as_is { how ≢ Escaper.AsIs }
        requires of_class { IsEscaperOf how class }
        ensures fits { IfOk result (λ cursor. CursorFits cursor text.now) }
        ensures whole { IfOk result (λ cursor.
            option_map encode_utf8_all (escaped_form how class (chars text.now) context)
            ≡ Some (bytes_left cursor text.now)) }
        ensures initiator { OnErr result (IsTrue (list_any is_initiator (chars text.now))) }
        ensures wrapped { OnErr result (how ≡ Escaper.Wrap) }
    {
        match how {
            Escaper::Wrap => {
                let cleaning = Cleaning::of(alloc, text)?;
                Ok(Cursor::wrapped(cleaning, text, context))
            }
            _ => Ok(Cursor::escaped(how, class, text)),
        }
    }

    /// How many bytes are left.
    pub fn left(&self) -> u128
        ensures { (text : List ℕ) → CursorFits self.now text → result ≡ length (bytes_left self.now text) }
    {
        self.left
    }

    /// Gives the next bytes to the beginning of the room, as many as are left or as it takes, and answers their number.
    pub fn fill(&mut self, text: &str, room: &mut [u8]) -> usize
        requires { CursorFits self.old text.now }
        ensures count { result ≡ min (length (bytes_left self.old text.now)) (length room.old) }
        ensures given { room.new ≡ take result (bytes_left self.old text.now) ++ drop result room.old }
        ensures rest { bytes_left self.new text.now ≡ drop result (bytes_left self.old text.now) }
        ensures fits { CursorFits self.new text.now }
    {
        let filled = self.advance(text, room);
        self.left -= filled as u128;
        filled
    }

    /// Gives the next bytes to the beginning of the room, but doesn't count them.
    fn advance(&mut self, text: &str, room: &mut [u8]) -> usize
        requires { CursorFits self.old text.now }
        ensures gives { Gives (bytes_left self.old text.now) (bytes_left self.new text.now) room.old room.new result }
        ensures all { result < length room.old → bytes_left self.new text.now ≡ [] }
        ensures plan { self.new.plan ≡ self.old.plan }
        ensures boundary { IsCharBoundary (source self.new.plan text.now) self.new.progress.offset }
        ensures closing { length self.new.closing.now ≤ 16 }
        ensures count { self.new.left ≡ self.old.left }
    {
        let source = self.plan.source(text);
        let filled = self.progress.run(&self.plan, source, room);
        if filled == room.len() {
            return filled;
        }
        filled + self.close(&mut room[filled..])
    }

    /// Gives what follows the forms of all characters, once they are given.
    fn close(&mut self, room: &mut [u8]) -> usize
        requires none_pending { self.old.progress.pending ≡ [] }
        requires closing { length self.old.closing.now ≤ 16 }
        ensures gives { Gives self.old.closing.now self.new.progress.pending room.old room.new result }
        ensures all { result < length room.old → self.new.progress.pending ≡ [] }
        ensures closed { self.new.closing.now ≡ [] }
        ensures plan { self.new.plan ≡ self.old.plan }
        ensures offset { self.new.progress.offset ≡ self.old.progress.offset }
        ensures count { self.new.left ≡ self.old.left }
    {
        if self.closing.is_empty() {
            return 0;
        }
        self.progress.pending.push(self.closing);
        self.closing = "";
        self.progress.pending.take(room)
    }

    /// The cursor of a text by an escaper that doesn't wrap.
    #[inline(always)]
    fn escaped(how: Escaper, class: ValueClass, text: &str) -> Cursor
        requires not_wrapped { how ≢ Escaper.Wrap }
        requires not_as_is { how ≢ Escaper.AsIs }
        ensures fits { CursorFits result text.now }
        ensures whole { option_map encode_utf8_all (esc how class (chars text.now))
            ≡ Some (bytes_left result text.now) }
    {
        match how {
            Escaper::UriStart if may_start_uri(text) => Cursor::by_characters(
                Escaper::UriNormal,
                text,
            ),
            Escaper::UriStart => Cursor::replaced("about:invalid#zSoyz", text),
            Escaper::CssValue if is_css_value(text) => Cursor::by_characters(Escaper::Plain, text),
            Escaper::CssValue => Cursor::replaced("zSoyz", text),
            Escaper::JsValue => Cursor::js_value(class, text),
            _ => Cursor::by_characters(how, text),
        }
    }

    /// The cursor of a text whose characters have forms of their own, and nothing else.
    #[inline(always)]
    fn by_characters(how: Escaper, text: &str) -> Cursor
        requires { IsTrue (is_by_characters how) }
        ensures fits { CursorFits result text.now }
        ensures whole { bytes_left result text.now
            ≡ encode_utf8_all (flat_map (escaped_character how) (chars text.now)) }
    {
        Cursor::enclosed(Plan::escaping(how), "", "", text)
    }

    /// The cursor of a text that another one stands instead of.
    fn replaced(other: &'static str, text: &str) -> Cursor
        ensures fits { CursorFits result text.now }
        ensures whole { bytes_left result text.now ≡ other.now }
    {
        let plan = Plan {
            how: Escaper::Plain,
            cleaning: Cleaning::Nothing,
            instead: Some(other),
        };
        Cursor::enclosed(plan, "", "", text)
    }

    /// The cursor of a value of a script.
    fn js_value(class: ValueClass, text: &str) -> Cursor
        ensures fits { CursorFits result text.now }
        ensures whole { bytes_left result text.now ≡ encode_utf8_all (js_value class (chars text.now)) }
    {
        match class {
            ValueClass::Text => Cursor::enclosed(Plan::escaping(Escaper::JsString), "'", "'", text),
            _ => Cursor::enclosed(Plan::escaping(Escaper::Plain), " ", " ", text),
        }
    }

    /// The cursor of a wrapped text.
    #[inline(always)]
    fn wrapped(cleaning: Cleaning, text: &str, context: Dir) -> Cursor
        requires cleans { Cleans cleaning (chars text.now) }
        requires ascending { MarksAscend cleaning }
        ensures fits { CursorFits result text.now }
        ensures whole { bytes_left result text.now ≡ encode_utf8_all (wrapped_text (chars text.now) context) }
    {
        let opening = match estimate(text, context) {
            Dir::Ltr => "<span dir=\"ltr\">",
            Dir::Rtl => "<span dir=\"rtl\">",
        };
        let plan = Plan {
            how: Escaper::Html,
            cleaning,
            instead: None,
        };
        Cursor::enclosed(plan, opening, "</span>", text)
    }

    /// The cursor of a form that has an opening, the forms of the characters and a closing.
    #[inline(always)]
    fn enclosed(plan: Plan, opening: &str, closing: &'static str, text: &str) -> Cursor
        requires plan { IsPlan plan }
        requires opening { length opening.now ≤ 16 }
        requires closing { length closing.now ≤ 16 }
        ensures fits { CursorFits result text.now }
        ensures whole { bytes_left result text.now
            ≡ (opening.now ++ bytes_from plan (source plan text.now) 0) ++ closing.now }
    {
        let len = plan.len(plan.source(text));
        let mut pending = Tail::empty();
        pending.push(opening);
        Cursor {
            plan,
            progress: Progress { pending, offset: 0 },
            closing,
            left: opening.len() as u128 + len + closing.len() as u128,
        }
    }
}
