//! The directional status (UAX #9, 3.3.2, X1 to X7).
ghost use Rattle.std.specs.Prelude.{◌≡◌, ◌+◌, ◌^◌, ◌<◌, ◌≤◌, [], IfOk, OnOk};
ghost use Rattle.std.specs.Option.{option_map_or};
ghost use Rattle.bidi_class.specs.Class.{bidi_class};
ghost use Rattle.bidi_order.specs.DirectionalStatus.{act_of_class, has_room, initial_status, next_level};
ghost use Rattle.bidi_order.specs.DirectionalStatus.{status_after};
ghost use Rattle.bidi_order.specs.DirectionalStatus.{embedding_popped, isolate_popped, strong_class, top_entry};
ghost use Rattle.bidi_order.specs.DirectionalStatus.ExplicitAct.{Embeds, EndsEmbedding, EndsIsolate, Isolates};
ghost use Rattle.bidi_order.specs.Explicit.{explicit_character, kept_character};
ghost use Rattle.bidi_preview.specs.ExplicitSteps.{IsDirected, view_status};
ghost use Rattle.bidi_preview.specs.Roles.{isolate_role};

use crate::brackets::strong_class;
use crate::kept::{Kept, Role};
use bidi_class::{Bracket, Class, bracket_of};
use soy_base::{OutOfMemory, Stack};
use std::alloc::Global;
use std::marker::Model;

/// The greatest explicit level (UAX #9, BD2).
const MAX_DEPTH: u8 = 125;

/// An entry of the directional status stack.
#[derive(Debug, Drop)]
struct Entry {
    level: u8,
    /// The direction of an override; true is from right to left.
    direction: Option<bool>,
    isolate: bool,
}

impl Model for Entry {
    ghost use Rattle.std.specs.Prelude.{◌≤◌};
    ghost use Rattle.bidi_order.specs.DirectionalStatus.{StatusEntry};

    ghost Value = { StatusEntry };

    ghost view = { λ e. record { level = e.level; override = e.direction; isolate = e.isolate } };

    ghost invariant = { λ e. e.level ≤ 125 };
}

/// The status stack above the base, and the three counts of X1.
#[derive(Debug, Drop)]
pub(crate) struct Status {
    base: u8,
    stack: Stack<Entry>,
    overflow_isolates: usize,
    overflow_embeddings: usize,
    valid_isolates: usize,
}

/// The least odd level above a level, for what runs from right to left, or the least even one.
fn next_level(right_to_left: bool, level: u8) -> u8
    requires { level ≤ 125 }
    ensures value { result ≡ next_level right_to_left level }
    ensures bound { result ≤ 127 }
{
    if level % 2 == 1 {
        if right_to_left { level + 2 } else { level + 1 }
    } else if right_to_left {
        level + 1
    } else {
        level + 2
    }
}

impl Status {
    /// X1: the status in which a line with this base begins.
    pub(crate) fn new(alloc: Global, base: u8) -> Status
        ensures { view_status result ≡ initial_status base }
    {
        Status {
            base,
            stack: Stack::empty(alloc),
            overflow_isolates: 0,
            overflow_embeddings: 0,
            valid_isolates: 0,
        }
    }

    /// The level of the top.
    #[tactic(auto, using(crate::proofs::Tops::last_entry_top))]
    fn top_level(&self) -> u8
        requires { self.now.base ≤ 125 }
        ensures value { result ≡ (top_entry (view_status self.now)).level }
        ensures bound { result ≤ 125 }
    {
        match self.stack.top() {
            Some(entry) => entry.level,
            None => self.base,
        }
    }

    /// The direction of the top's override.
    #[tactic(auto, using(crate::proofs::Tops::last_entry_top))]
    fn top_direction(&self) -> Option<bool>
        ensures { result ≡ (top_entry (view_status self.now)).override }
    {
        match self.stack.top() {
            Some(entry) => entry.direction,
            None => None,
        }
    }

    /// Whether an entry of this level may be pushed.
    fn has_room(&self, level: u8) -> bool
        ensures { result ≡ has_room level (view_status self.now) }
    {
        level <= MAX_DEPTH && self.overflow_isolates == 0 && self.overflow_embeddings == 0
    }

    /// X2 to X5: after an embedding or an override.
    fn embed(&mut self, right_to_left: bool, direction: Option<bool>) -> Result<(), OutOfMemory>
        requires base { self.old.base ≤ 125 }
        requires room { self.old.overflow_embeddings + 1 < 2 ^ 64 }
        ensures status { OnOk result (view_status self.new
            ≡ status_after (Embeds right_to_left direction) (view_status self.old)) }
        ensures base { OnOk result (self.new.base ≡ self.old.base) }
        ensures isolates { OnOk result (self.new.overflow_isolates ≡ self.old.overflow_isolates) }
        ensures embeddings { OnOk result (self.new.overflow_embeddings ≤ self.old.overflow_embeddings + 1) }
        ensures valid { OnOk result (self.new.valid_isolates ≡ self.old.valid_isolates) }
    {
        let level = next_level(right_to_left, self.top_level());
        if self.has_room(level) {
            self.stack.push(Entry {
                level,
                direction,
                isolate: false,
            })?;
        } else if self.overflow_isolates == 0 {
            self.overflow_embeddings += 1;
        }
        Ok(())
    }

    /// X5a, X5b: after an initiator.
    fn isolate(&mut self, right_to_left: bool) -> Result<(), OutOfMemory>
        requires base { self.old.base ≤ 125 }
        requires overflow { self.old.overflow_isolates + 1 < 2 ^ 64 }
        requires valid { self.old.valid_isolates + 1 < 2 ^ 64 }
        ensures status { OnOk result (view_status self.new
            ≡ status_after (Isolates right_to_left) (view_status self.old)) }
        ensures base { OnOk result (self.new.base ≡ self.old.base) }
        ensures isolates { OnOk result (self.new.overflow_isolates ≤ self.old.overflow_isolates + 1) }
        ensures embeddings { OnOk result (self.new.overflow_embeddings ≡ self.old.overflow_embeddings) }
        ensures valid { OnOk result (self.new.valid_isolates ≤ self.old.valid_isolates + 1) }
    {
        let level = next_level(right_to_left, self.top_level());
        if self.has_room(level) {
            self.stack.push(Entry {
                level,
                direction: None,
                isolate: true,
            })?;
            self.valid_isolates += 1;
        } else {
            self.overflow_isolates += 1;
        }
        Ok(())
    }

    /// X6a: after a PDI.
    fn end_isolate(&mut self)
        ensures status { view_status self.new ≡ status_after EndsIsolate (view_status self.old) }
        ensures base { self.new.base ≡ self.old.base }
        ensures isolates { self.new.overflow_isolates ≤ self.old.overflow_isolates }
        ensures embeddings { self.new.overflow_embeddings ≤ self.old.overflow_embeddings }
        ensures valid { self.new.valid_isolates ≤ self.old.valid_isolates }
    {
        if self.overflow_isolates > 0 {
            self.overflow_isolates -= 1;
        } else if self.valid_isolates > 0 {
            pop_isolate(&mut self.stack);
            self.overflow_embeddings = 0;
            self.valid_isolates -= 1;
        }
    }

    /// X7: after a PDF.
    fn end_embedding(&mut self)
        ensures status { view_status self.new ≡ status_after EndsEmbedding (view_status self.old) }
        ensures base { self.new.base ≡ self.old.base }
        ensures isolates { self.new.overflow_isolates ≤ self.old.overflow_isolates }
        ensures embeddings { self.new.overflow_embeddings ≤ self.old.overflow_embeddings }
        ensures valid { self.new.valid_isolates ≤ self.old.valid_isolates }
    {
        if self.overflow_isolates > 0 {
            return;
        }
        if self.overflow_embeddings > 0 {
            self.overflow_embeddings -= 1;
        } else {
            pop_embedding(&mut self.stack);
        }
    }

    /// X5a to X6a and X9: the character as it is kept, if it is, and the status after it. Its class is RLI or LRI where
    /// it is an FSI.
    pub(crate) fn read(&mut self, c: char, class: Class) -> Result<Option<Kept>, OutOfMemory>
        requires base { self.old.base ≤ 125 }
        requires isolates { self.old.overflow_isolates + 1 < 2 ^ 64 }
        requires embeddings { self.old.overflow_embeddings + 1 < 2 ^ 64 }
        requires valid { self.old.valid_isolates + 1 < 2 ^ 64 }
        requires class { IsDirected class (bidi_class c) }
        ensures kept { IfOk result (λ k. k ≡ explicit_character c (act_of_class class []) (view_status self.old)) }
        ensures status { OnOk result (view_status self.new
            ≡ status_after (act_of_class class []) (view_status self.old)) }
        ensures base { OnOk result (self.new.base ≡ self.old.base) }
        ensures isolates { OnOk result (self.new.overflow_isolates ≤ self.old.overflow_isolates + 1) }
        ensures embeddings { OnOk result (self.new.overflow_embeddings ≤ self.old.overflow_embeddings + 1) }
        ensures valid { OnOk result (self.new.valid_isolates ≤ self.old.valid_isolates + 1) }
    {
        match class {
            Class::LRI | Class::FSI => self.initiator(false),
            Class::RLI => self.initiator(true),
            Class::PDI => {
                self.end_isolate();
                Ok(Some(self.kept(Role::Terminates, class, None)))
            }
            Class::LRE => self.removed_embedding(false, None),
            Class::RLE => self.removed_embedding(true, None),
            Class::LRO => self.removed_embedding(false, Some(false)),
            Class::RLO => self.removed_embedding(true, Some(true)),
            Class::PDF => {
                self.end_embedding();
                Ok(None)
            }
            Class::BN => Ok(None),
            _ => Ok(Some(self.kept(Role::Neither, class, bracket_of(c)))),
        }
    }

    /// A character at the level of the top, of the class of its override where there is one.
    fn kept(&self, role: Role, class: Class, bracket: Option<Bracket>) -> Kept
        requires { self.now.base ≤ 125 }
        ensures { Some result ≡ kept_character (top_entry (view_status self.now)) (isolate_role role) class bracket }
    {
        let class = overridden(self.top_direction(), class);
        Kept::new(self.top_level(), role, class, bracket)
    }

    /// X5a, X5b: an initiator, and the status after it.
    fn initiator(&mut self, right_to_left: bool) -> Result<Option<Kept>, OutOfMemory>
        requires base { self.old.base ≤ 125 }
        requires isolates { self.old.overflow_isolates + 1 < 2 ^ 64 }
        requires valid { self.old.valid_isolates + 1 < 2 ^ 64 }
        ensures kept { IfOk result (λ k. k
            ≡ kept_character (top_entry (view_status self.old)) (isolate_role Role.Initiates) Class.LRI None) }
        ensures status { OnOk result (view_status self.new
            ≡ status_after (Isolates right_to_left) (view_status self.old)) }
        ensures base { OnOk result (self.new.base ≡ self.old.base) }
        ensures isolates { OnOk result (self.new.overflow_isolates ≤ self.old.overflow_isolates + 1) }
        ensures embeddings { OnOk result (self.new.overflow_embeddings ≡ self.old.overflow_embeddings) }
        ensures valid { OnOk result (self.new.valid_isolates ≤ self.old.valid_isolates + 1) }
    {
        let k = self.kept(Role::Initiates, Class::LRI, None);
        self.isolate(right_to_left)?;
        Ok(Some(k))
    }

    /// X2 to X5: an embedding or an override, which is removed.
    fn removed_embedding(
        &mut self,
        right_to_left: bool,
        direction: Option<bool>,
    ) -> Result<Option<Kept>, OutOfMemory>
        requires base { self.old.base ≤ 125 }
        requires embeddings { self.old.overflow_embeddings + 1 < 2 ^ 64 }
        ensures kept { IfOk result (λ k. k ≡ None) }
        ensures status { OnOk result (view_status self.new
            ≡ status_after (Embeds right_to_left direction) (view_status self.old)) }
        ensures base { OnOk result (self.new.base ≡ self.old.base) }
        ensures isolates { OnOk result (self.new.overflow_isolates ≡ self.old.overflow_isolates) }
        ensures embeddings { OnOk result (self.new.overflow_embeddings ≤ self.old.overflow_embeddings + 1) }
        ensures valid { OnOk result (self.new.valid_isolates ≡ self.old.valid_isolates) }
    {
        self.embed(right_to_left, direction)?;
        Ok(None)
    }
}

/// The class under an override.
fn overridden(direction: Option<bool>, class: Class) -> Class
    ensures { result ≡ option_map_or strong_class direction class }
{
    match direction {
        Some(right_to_left) => strong_class(right_to_left),
        None => class,
    }
}

/// Takes the entries down to the topmost isolate, and that.
fn pop_isolate(stack: &mut Stack<Entry>)
    ensures { stack.new ≡ isolate_popped stack.old }
{
    while let Some(entry) = stack.pop() {
        if entry.isolate {
            break;
        }
    }
}

/// Takes the last entry, where that is no isolate.
fn pop_embedding(stack: &mut Stack<Entry>)
    ensures { stack.new ≡ embedding_popped stack.old }
{
    let embeds = match stack.top() {
        Some(entry) => !entry.isolate,
        None => false,
    };
    if embeds {
        stack.pop();
    }
}
