//! Parts and arms that are being read, which contracts see as the plain data that they stand for.

ghost use Rattle.std.specs.Prelude.{◌≡◌, [], ◌∷◌, ◌++◌, OnOk, IfOk, map};
ghost use Rattle.std.specs.Str.{chars};
ghost use Rattle.soy_tree.specs.ViewMessageParts.{parts_of, view_part, view_parts, view_exact, view_named};
ghost use Rattle.soy_tree.specs.ViewMessageParts.{view_select_arm, exact_arms_of, named_arms_of, select_arms_of};
ghost use Rattle.icu_text.specs.FirstArms.{has_category, has_word, with_exact, with_named, with_select};

use plural_rules::Category;
use soy_base::{OutOfMemory, Row, Seq, Text, push_char, push_text};
use soy_tree::{ExactArm, MsgPart, NamedArm, SelectArm};
use std::alloc::Global;
use std::collections::BTreeSet;
use std::marker::Model;

/// Characters that are being read, which contracts see as the list of them.
#[derive(Drop)]
pub struct Characters {
    text: String,
}

impl Model for Characters {
    ghost use Rattle.std.specs.Prelude.{List, ℕ};
    ghost use Rattle.std.specs.Str.{chars};
    ghost use Rattle.std.specs.String.{string_bytes};

    ghost Value = { List ℕ };

    ghost view = { λ t. chars (string_bytes t.text) };
}

impl Characters {
    /// No characters. Takes no memory.
    pub fn empty(alloc: Global) -> Characters
        ensures { result ≡ [] }
    {
        Characters {
            text: String::new(alloc),
        }
    }

    /// Adds a character at the end.
    pub fn push(&mut self, c: char) -> Result<(), OutOfMemory>
        ensures { OnOk result (self.new ≡ self.old ++ c ∷ []) }
    {
        push_char(&mut self.text, c)
    }

    /// Adds characters at the end.
    pub fn push_text(&mut self, more: &str) -> Result<(), OutOfMemory>
        ensures { OnOk result (self.new ≡ self.old ++ chars more.now) }
    {
        push_text(&mut self.text, more)
    }

    /// The text of the characters.
    pub fn done(self) -> Text
        ensures { result ≡ self }
    {
        Text::new(self.text)
    }
}

/// The parts of a text.
#[derive(Drop)]
pub struct Parts {
    items: Row<MsgPart>,
}

impl Model for Parts {
    ghost use Rattle.std.specs.Prelude.{List, map};
    ghost use Rattle.soy_tree.specs.MessageParts.{MsgPart};
    ghost use Rattle.soy_tree.specs.ViewMessageParts.{view_part};
    ghost use Rattle.icu_text.specs.CodedParts.{coded_part};
    ghost use Rattle.std.specs.Coded.{coded_list};

    ghost Value = { List MsgPart };

    ghost coded = { coded_list coded_part };

    ghost view = { λ p. map view_part p.items };
}

impl Parts {
    /// No parts. Takes no memory.
    pub fn empty(alloc: Global) -> Parts
        ensures { result ≡ [] }
    {
        Parts {
            items: Row::empty(alloc),
        }
    }

    /// Adds a part at the end.
    pub fn push(&mut self, part: MsgPart) -> Result<(), OutOfMemory>
        ensures { OnOk result (self.new ≡ self.old ++ view_part part ∷ []) }
    {
        self.items.push(part)
    }

    /// The parts, as a list.
    pub fn done(self) -> Seq<MsgPart>
        ensures { view_parts result ≡ parts_of self }
    {
        self.items.done()
    }
}

/// The arms of a plural for single numbers, each number once.
#[derive(Drop)]
pub struct ExactArms {
    items: Row<ExactArm>,
    /// The numbers of the arms.
    numbers: BTreeSet<i64>,
}

impl Model for ExactArms {
    ghost use Rattle.std.specs.Prelude.{List, ℤ, map};
    ghost use Rattle.soy_tree.specs.MessageParts.{MsgParts};
    ghost use Rattle.soy_tree.specs.ViewMessageParts.{view_exact};
    ghost use Rattle.icu_text.specs.CodedParts.{coded_exact};
    ghost use Rattle.icu_text.specs.FirstArms.{HasNumbers};

    ghost Value = { List (ℤ × MsgParts) };

    ghost coded = { coded_exact };

    ghost view = { λ a. map view_exact a.items };

    ghost invariant = { λ a. HasNumbers a.numbers (map view_exact a.items) };
}

impl ExactArms {
    /// No arms. Takes no memory.
    pub fn empty(alloc: Global) -> ExactArms
        ensures { result ≡ [] }
    {
        ExactArms {
            items: Row::empty(alloc),
            numbers: BTreeSet::new(alloc),
        }
    }

    /// With an arm more, if none is there for its number.
    pub fn with(self, is: i64, parts: Parts) -> Result<ExactArms, OutOfMemory>
        ensures { IfOk result (λ arms. arms ≡ with_exact self is (parts_of parts)) }
    {
        let ExactArms { items, numbers } = self;
        let mut items = items;
        let mut numbers = numbers;
        if !numbers.insert(is)? {
            return Ok(ExactArms { items, numbers });
        }
        items.push(ExactArm {
            is,
            parts: parts.done(),
        })?;
        Ok(ExactArms { items, numbers })
    }

    /// The arms, as a list.
    pub fn done(self) -> Seq<ExactArm>
        ensures { map view_exact result ≡ self }
    {
        self.items.done()
    }
}

/// The arms of a plural for categories, each category once.
#[derive(Drop)]
pub struct NamedArms {
    items: Row<NamedArm>,
}

impl Model for NamedArms {
    ghost use Rattle.std.specs.Prelude.{List, map};
    ghost use Rattle.plural_rules.specs.declared.category.Category.{Category};
    ghost use Rattle.soy_tree.specs.MessageParts.{MsgParts};
    ghost use Rattle.soy_tree.specs.ViewMessageParts.{view_named};
    ghost use Rattle.icu_text.specs.CodedParts.{coded_named};

    ghost Value = { List (Category × MsgParts) };

    ghost coded = { coded_named };

    ghost view = { λ a. map view_named a.items };
}

impl NamedArms {
    /// No arms. Takes no memory.
    pub fn empty(alloc: Global) -> NamedArms
        ensures { result ≡ [] }
    {
        NamedArms {
            items: Row::empty(alloc),
        }
    }

    /// Whether there is an arm for the category.
    pub fn has(&self, category: Category) -> bool
        ensures { result ≡ has_category category self.now }
    {
        has_category(self.items.items(), category)
    }

    /// Adds an arm, if none is there for its category.
    pub fn add(&mut self, category: Category, parts: Parts) -> Result<(), OutOfMemory>
        ensures { OnOk result (self.new ≡ with_named self.old category (parts_of parts)) }
    {
        if self.has(category) {
            return Ok(());
        }
        self.items.push(NamedArm {
            category,
            parts: parts.done(),
        })
    }

    /// The arms, as a list.
    pub fn done(self) -> Seq<NamedArm>
        ensures { map view_named result ≡ self }
    {
        self.items.done()
    }
}

/// The arms of a select, each word once.
#[derive(Drop)]
pub struct SelectArms {
    items: Row<SelectArm>,
    /// The words of the arms.
    words: BTreeSet<String>,
}

impl Model for SelectArms {
    ghost use Rattle.std.specs.Prelude.{List, ℕ, map};
    ghost use Rattle.soy_tree.specs.MessageParts.{MsgParts};
    ghost use Rattle.soy_tree.specs.ViewMessageParts.{view_select_arm};
    ghost use Rattle.icu_text.specs.CodedParts.{coded_select};
    ghost use Rattle.icu_text.specs.FirstArms.{HasWords};

    ghost Value = { List (List ℕ × MsgParts) };

    ghost coded = { coded_select };

    ghost view = { λ a. map view_select_arm a.items };

    ghost invariant = { λ a. HasWords a.words (map view_select_arm a.items) };
}

impl SelectArms {
    /// No arms. Takes no memory.
    pub fn empty(alloc: Global) -> SelectArms
        ensures { result ≡ [] }
    {
        SelectArms {
            items: Row::empty(alloc),
            words: BTreeSet::new(alloc),
        }
    }

    /// Whether there is an arm for the word.
    pub fn has(&self, word: &str) -> bool
        ensures { result ≡ has_word (chars word.now) self.now }
    {
        has_word(self.items.items(), word)
    }

    /// With an arm more, if none is there for its word.
    pub fn with(self, alloc: Global, word: Text, parts: Parts) -> Result<SelectArms, OutOfMemory>
        ensures { IfOk result (λ arms. arms ≡ with_select self word (parts_of parts)) }
    {
        let SelectArms { items, words } = self;
        let mut words = words;
        let key = String::from_str(alloc, word.text())?;
        if !words.insert(key)? {
            return Ok(SelectArms { items, words });
        }
        let longer = with_arm(items, word, parts)?;
        Ok(SelectArms {
            items: longer,
            words,
        })
    }

    /// The arms, as a list.
    pub fn done(self) -> Seq<SelectArm>
        ensures { map view_select_arm result ≡ self }
    {
        self.items.done()
    }
}

/// Whether there is an arm for the category.
fn has_category(arms: &[NamedArm], category: Category) -> bool
    ensures { result ≡ has_category category (map view_named arms.now) }
{
    for arm in arms {
        if category == arm.category {
            return true;
        }
    }
    false
}

/// Whether there is an arm for the word.
fn has_word(arms: &[SelectArm], word: &str) -> bool
    ensures { result ≡ has_word (chars word.now) (map view_select_arm arms.now) }
{
    for arm in arms {
        if arm.is.is(word) {
            return true;
        }
    }
    false
}

/// The arms, and one more at the end.
fn with_arm(items: Row<SelectArm>, is: Text, parts: Parts) -> Result<Row<SelectArm>, OutOfMemory>
    ensures { IfOk result (λ arms. map view_select_arm arms ≡ map view_select_arm items ++ (is, parts_of parts) ∷ []) }
{
    let mut items = items;
    items.push(SelectArm {
        is,
        parts: parts.done(),
    })?;
    Ok(items)
}
