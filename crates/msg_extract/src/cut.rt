//! A message's text cut into text, prints and tags.

ghost use Rattle.std.specs.Prelude.{◌≡◌, [], ◌∷◌, ◌++◌, map, option_map, IfOk};
ghost use Rattle.soy_tree.specs.MessageText.{begins_with_letter, cuts, cuts_after_text, cuts_in_tag, ends_tag};
ghost use Rattle.soy_tree.specs.MessageText.{goes_on_as_tag, quote_after, text_cut};
ghost use Rattle.msg_extract.specs.Views.ViewItems.{view_cut, view_item};
ghost use Rattle.msg_extract.specs.Views.ViewCutter.{cutter_cuts, cuts_before};

use crate::item::Item;
use soy_base::{OutOfMemory, Row, Span, Text};
use soy_tree::Expr;
use std::alloc::Global;

/// A part of a message's text: text, a print with its `phname`, or a tag of characters and prints.
#[derive(Drop)]
pub enum MessageCut<'a> {
    Text(Row<Item<'a>>),
    Print(&'a Expr, &'a Option<Text>, Span),
    Tag(Row<Item<'a>>),
}

/// Whether text or a tag is open, and in a tag the quote that is.
#[derive(Clone, Copy)]
enum CutMode {
    Text,
    Tag(Option<char>),
}

/// The cuts so far, and the text or tag that is open.
#[derive(Drop)]
struct Cutter<'a> {
    cuts: Row<MessageCut<'a>>,
    begun: Row<Item<'a>>,
    mode: CutMode,
}

/// Whether these begin with a letter.
fn begins_with_letter(items: &[Item<'_>]) -> bool
    ensures { result ≡ begins_with_letter (map view_item items.now) }
{
    match items.split_first() {
        Some((Item::Character(c, _), _)) => c.is_ascii_alphabetic(),
        Some((Item::Printed(_, _, _), _)) => false,
        None => false,
    }
}

/// Whether a tag begins where these follow a `<`.
fn goes_on_as_tag(items: &[Item<'_>]) -> bool
    ensures { result ≡ goes_on_as_tag (map view_item items.now) }
{
    match items.split_first() {
        Some((Item::Character(c, _), rest)) => {
            c.is_ascii_alphabetic() || *c == '/' && begins_with_letter(rest)
        }
        Some((Item::Printed(_, _, _), _)) => false,
        None => false,
    }
}

/// The quote that is open after a character.
fn quote_after(quote: Option<char>, c: char) -> Option<char>
    ensures { result ≡ quote_after quote c }
{
    match quote {
        None => { if c == '"' || c == '\'' { Some(c) } else { None } }
        Some(open) => { if c == open { None } else { Some(open) } }
    }
}

/// Whether a character ends the tag.
fn ends_tag(quote: Option<char>, c: char) -> bool
    ensures { result ≡ ends_tag quote c }
{
    match quote {
        None => c == '>',
        Some(_) => false,
    }
}

/// The cuts, and the open text as one of them, if it has items.
#[tactic(auto, using(crate::proofs::CutSteps::map_append))]
fn with_text<'a>(
    cuts: Row<MessageCut<'a>>,
    text: Row<Item<'a>>,
) -> Result<Row<MessageCut<'a>>, OutOfMemory>
    ensures { IfOk result (λ to. map view_cut to ≡ map view_cut cuts.entry ++ text_cut (map view_item text.entry)) }
{
    let mut cuts = cuts;
    if !text.items().is_empty() {
        cuts.push(MessageCut::Text(text))?;
    }
    Ok(cuts)
}

/// An item after text.
#[tactic(auto, using(crate::proofs::CutSteps::map_append, crate::proofs::CutSteps::print_after_text, crate::proofs::CutSteps::tag_after_text))]
fn after_text<'a>(
    alloc: Global,
    cuts: Row<MessageCut<'a>>,
    text: Row<Item<'a>>,
    item: Item<'a>,
    rest: &[Item<'a>],
) -> Result<Cutter<'a>, OutOfMemory>
    ensures { IfOk result (λ to. cutter_cuts to (map view_item rest.now)
        ≡ cuts_before (map view_cut cuts.entry)
        (cuts_after_text (view_item item.entry ∷ map view_item rest.now) (map view_item text.entry))) }
{
    match item {
        Item::Printed(expr, phname, span) => {
            let mut cuts = with_text(cuts, text)?;
            cuts.push(MessageCut::Print(expr, phname, span))?;
            Ok(Cutter {
                cuts,
                begun: Row::empty(alloc),
                mode: CutMode::Text,
            })
        }
        Item::Character(c, span) => {
            if c == '<' && goes_on_as_tag(rest) {
                let cuts = with_text(cuts, text)?;
                let mut begun = Row::empty(alloc);
                begun.push(Item::Character(c, span))?;
                Ok(Cutter {
                    cuts,
                    begun,
                    mode: CutMode::Tag(None),
                })
            } else {
                let mut begun = text;
                begun.push(Item::Character(c, span))?;
                Ok(Cutter {
                    cuts,
                    begun,
                    mode: CutMode::Text,
                })
            }
        }
    }
}

/// An item in a tag.
#[tactic(auto, using(crate::proofs::CutSteps::map_append, crate::proofs::CutSteps::tag_ends))]
fn in_tag<'a>(
    alloc: Global,
    cuts: Row<MessageCut<'a>>,
    tag: Row<Item<'a>>,
    quote: Option<char>,
    item: Item<'a>,
    rest: &[Item<'a>],
) -> Result<Cutter<'a>, OutOfMemory>
    ensures { IfOk result (λ to. cutter_cuts to (map view_item rest.now)
        ≡ cuts_before (map view_cut cuts.entry)
        (cuts_in_tag (view_item item.entry ∷ map view_item rest.now) quote (map view_item tag.entry))) }
{
    let mut tag = tag;
    tag.push(item)?;
    match item {
        Item::Printed(_, _, _) => Ok(Cutter {
            cuts,
            begun: tag,
            mode: CutMode::Tag(quote),
        }),
        Item::Character(c, _) => {
            if ends_tag(quote, c) {
                let mut cuts = cuts;
                cuts.push(MessageCut::Tag(tag))?;
                Ok(Cutter {
                    cuts,
                    begun: Row::empty(alloc),
                    mode: CutMode::Text,
                })
            } else {
                Ok(Cutter {
                    cuts,
                    begun: tag,
                    mode: CutMode::Tag(quote_after(quote, c)),
                })
            }
        }
    }
}

impl<'a> Cutter<'a> {
    /// What is open and cut after an item, which these follow.
    fn after(
        self,
        alloc: Global,
        item: Item<'a>,
        rest: &[Item<'a>],
    ) -> Result<Cutter<'a>, OutOfMemory>
        ensures { IfOk result (λ to. cutter_cuts to (map view_item rest.now)
            ≡ cutter_cuts self.entry (view_item item.entry ∷ map view_item rest.now)) }
    {
        match self.mode {
            CutMode::Text => after_text(alloc, self.cuts, self.begun, item, rest),
            CutMode::Tag(quote) => in_tag(alloc, self.cuts, self.begun, quote, item, rest),
        }
    }

    /// The cuts at the end of the text; none where a tag is open.
    #[tactic(auto, using(crate::proofs::CutSteps::map_append))]
    fn done(self) -> Result<Option<Row<MessageCut<'a>>>, OutOfMemory>
        ensures { IfOk result (λ found. option_map (map view_cut) found ≡ cutter_cuts self.entry []) }
    {
        match self.mode {
            CutMode::Text => Ok(Some(with_text(self.cuts, self.begun)?)),
            CutMode::Tag(_) => Ok(None),
        }
    }
}

/// The cuts of items; none where a tag has no end.
#[tactic(auto, using(crate::proofs::CutSteps::none_before))]
pub fn cut<'a>(
    alloc: Global,
    items: &[Item<'a>],
) -> Result<Option<Row<MessageCut<'a>>>, OutOfMemory>
    ensures { IfOk result (λ found. option_map (map view_cut) found ≡ cuts (map view_item items.now)) }
{
    let mut cutter = Cutter {
        cuts: Row::empty(alloc),
        begun: Row::empty(alloc),
        mode: CutMode::Text,
    };
    let mut number = 0usize;
    for item in items {
        number += 1;
        cutter = cutter.after(alloc, *item, &items[number..])?;
    }
    cutter.done()
}
