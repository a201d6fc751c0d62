//! The open elements of a page, with what a line in them begins with (UAX #9, 4.3, HL3).
ghost use Rattle.std.specs.Prelude.{◌≡◌, ◌++◌, ◌∷◌, [], ℕ, List, IfOk, None, OnOk, length};
ghost use Rattle.std.specs.Str.{bytes_eq};
ghost use Rattle.soy_base.specs.Stacks.{top_of};
ghost use Rattle.bidi_order.specs.Elements.{OpenElement};
ghost use Rattle.bidi_order.specs.Lines.{base_level, block_direction, direction_level, element_end, element_start};
ghost use Rattle.bidi_order.specs.Lines.{line_start};
ghost use Rattle.bidi_order.specs.WithinLimit.{line_characters};
ghost use Rattle.bidi_preview.specs.OpenedSteps.{Closes, StandsAround, side_before, sides_after};

use crate::names::{is_inline, is_same};
use crate::open_names::OpenNames;
use soy_base::{Dir, OutOfMemory, Stack};
use std::alloc::Global;
use std::marker::Model;

/// An open element.
#[derive(Debug, Drop)]
pub(crate) struct Element {
    name: Vec<char>,
    /// True is from right to left.
    direction: Option<bool>,
    /// It is a `bdo` whose `dir` is `ltr` or `rtl`.
    overrides: bool,
}

impl Model for Element {
    ghost use Rattle.std.specs.Prelude.{None};
    ghost use Rattle.bidi_order.specs.Elements.{OpenElement};

    ghost Value = { OpenElement };

    ghost view = { λ e. record {
      name = e.name.items;
      direction = e.direction;
      overrides = e.overrides;
      label = None;
    } };
}

impl Element {
    pub(crate) fn new(name: Vec<char>, direction: Option<bool>, overrides: bool) -> Element
        ensures { result ≡ record {
          name = name.items;
          direction = direction;
          overrides = overrides;
          label = None;
        } }
    {
        Element {
            name,
            direction,
            overrides,
        }
    }

    fn has_name(&self, name: &Vec<char>) -> bool
        ensures { result ≡ bytes_eq self.now.name name.now.items }
    {
        is_same(&self.name, name)
    }

    fn into_name(self) -> Vec<char>
        ensures { result.items ≡ self.name }
    {
        self.name
    }

    /// Puts what stands for its start at the end of a line.
    pub(crate) fn push_start(&self, line: &mut Vec<char>) -> Result<(), OutOfMemory>
        ensures { OnOk result (line.new.items ≡ line.old.items ++ line_characters (element_start self.now)) }
    {
        if !is_inline(&self.name) {
            return Ok(());
        }
        if let Some(right_to_left) = self.direction {
            line.push(if right_to_left {
                '\u{2067}'
            } else {
                '\u{2066}'
            })?;
            if self.overrides {
                line.push(if right_to_left {
                    '\u{202e}'
                } else {
                    '\u{202d}'
                })?;
            }
        }
        Ok(())
    }

    /// Puts what stands for its close at the end of a line.
    fn push_end(&self, line: &mut Vec<char>) -> Result<(), OutOfMemory>
        ensures { OnOk result (line.new.items ≡ line.old.items ++ line_characters (element_end self.now)) }
    {
        if !is_inline(&self.name) || self.direction.is_none() {
            return Ok(());
        }
        if self.overrides {
            line.push('\u{202c}')?;
        }
        line.push('\u{2069}')?;
        Ok(())
    }

    /// How many characters stand for its start.
    fn start_len(&self) -> usize
        ensures { result ≡ length (line_characters (element_start self.now)) }
    {
        if !is_inline(&self.name) || self.direction.is_none() {
            return 0;
        }
        if self.overrides { 2 } else { 1 }
    }

    /// Takes what stands for its start from the end of a line.
    #[tactic(auto, using(crate::proofs::OpenedElements::start_taken))]
    fn take_start(&self, line: &mut Vec<char>)
        ensures { (before : List ℕ) → line.old.items ≡ before ++ line_characters (element_start self.now)
            → line.new.items ≡ before }
    {
        let left = line.as_slice().len().saturating_sub(self.start_len());
        line.truncate(left);
    }

    /// The direction that it gives to the lines in it, where it is a block with one.
    fn block_direction(&self) -> Option<bool>
        ensures { result ≡ block_direction self.now }
    {
        if is_inline(&self.name) {
            None
        } else {
            self.direction
        }
    }
}

/// What is known of the open elements, so that a line that begins needs no walk over them.
#[derive(Debug, Drop)]
pub(crate) struct Around {
    /// What a line in them begins with.
    start: Vec<char>,
    /// The directions of the blocks that have one.
    sides: Stack<bool>,
    names: OpenNames,
}

impl Around {
    /// What is known of no elements. Takes no memory.
    fn none(alloc: Global) -> Around
        ensures { StandsAround [] result }
    {
        Around {
            start: Vec::new(alloc),
            sides: Stack::empty(alloc),
            names: OpenNames::none(alloc),
        }
    }

    /// An element is opened.
    #[tactic(auto, using(crate::proofs::OpenedElements::around_opened))]
    fn open(&mut self, alloc: Global, element: &Element) -> Result<(), OutOfMemory>
        ensures { OnOk result ((es : List OpenElement) → StandsAround es self.old
            → StandsAround (element.now ∷ es) self.new) }
    {
        element.push_start(&mut self.start)?;
        push_side(&mut self.sides, element.block_direction())?;
        self.names.add(alloc, &element.name)?;
        Ok(())
    }

    /// The innermost element is closed.
    #[tactic(auto, using(crate::proofs::OpenedElements::around_closed))]
    fn close(&mut self, element: Element) -> Result<(), OutOfMemory>
        ensures { OnOk result ((es : List OpenElement) → StandsAround (element ∷ es) self.old
            → StandsAround es self.new) }
    {
        element.take_start(&mut self.start);
        pop_side(&mut self.sides, element.block_direction());
        self.names.remove(element.into_name())?;
        Ok(())
    }

    /// The direction of the innermost block that has one.
    fn side(&self) -> Option<bool>
        ensures { result ≡ top_of self.now.sides }
    {
        match self.sides.top() {
            Some(side) => Some(*side),
            None => None,
        }
    }
}

fn push_side(sides: &mut Stack<bool>, side: Option<bool>) -> Result<(), OutOfMemory>
    ensures { OnOk result (sides.new ≡ side_before side sides.old) }
{
    match side {
        Some(side) => sides.push(side),
        None => Ok(()),
    }
}

fn pop_side(sides: &mut Stack<bool>, side: Option<bool>)
    ensures { sides.new ≡ sides_after side sides.old }
{
    match side {
        Some(_) => {
            sides.pop();
        }
        None => {}
    }
}

/// The open elements, which contracts see as their list, innermost first.
#[derive(Debug, Drop)]
pub(crate) struct OpenElements {
    elements: Stack<Element>,
    around: Around,
}

impl Model for OpenElements {
    ghost use Rattle.std.specs.Prelude.{List};
    ghost use Rattle.bidi_order.specs.Elements.{OpenElement};
    ghost use Rattle.bidi_preview.specs.OpenedSteps.{StandsAround};

    ghost Value = { List OpenElement };

    ghost view = { λ s. s.elements };

    ghost invariant = { λ s. StandsAround s.elements s.around };
}

impl OpenElements {
    /// No element is open. Takes no memory.
    #[tactic(auto, using(crate::proofs::OpenedElements::stands_none))]
    pub(crate) fn none(alloc: Global) -> OpenElements
        ensures { result ≡ [] }
    {
        OpenElements {
            elements: Stack::empty(alloc),
            around: Around::none(alloc),
        }
    }

    /// What a line in them begins with.
    pub(crate) fn start(&self) -> &[char]
        ensures { result.now ≡ line_characters (line_start self.now) }
    {
        &self.around.start
    }

    /// The direction of the base of a line in them.
    #[tactic(auto, using(crate::proofs::OpenedElements::base_outside, crate::proofs::OpenedElements::base_right, crate::proofs::OpenedElements::base_left))]
    pub(crate) fn base(&self, context: Dir) -> Dir
        ensures { direction_level result ≡ base_level (direction_level context) self.now }
    {
        match self.around.side() {
            Some(true) => Dir::Rtl,
            Some(false) => Dir::Ltr,
            None => context,
        }
    }

    /// With one more element.
    #[tactic(auto, using(crate::proofs::OpenedElements::stands_more))]
    pub(crate) fn opened(self, alloc: Global, element: Element) -> Result<OpenElements, OutOfMemory>
        ensures { IfOk result (λ now. now ≡ element ∷ self) }
    {
        let OpenElements {
            mut elements,
            mut around,
        } = self;
        around.open(alloc, &element)?;
        elements.push(element)?;
        Ok(OpenElements { elements, around })
    }

    /// Without the innermost element of a name and those in it, if one has the name. What stands for their closes is put
    /// at the end of a line.
    #[tactic(auto, using(crate::proofs::OpenedElements::closes_last, crate::proofs::OpenedElements::closes_nothing, crate::proofs::OpenedElements::closes_one, crate::proofs::OpenedElements::left_goes_on, crate::proofs::OpenedElements::line_goes_on, crate::proofs::OpenedElements::stands_less))]
    pub(crate) fn closed(
        self,
        name: &Vec<char>,
        line: &mut Vec<char>,
    ) -> Result<OpenElements, OutOfMemory>
        ensures { IfOk result (λ now. Closes name.now.items self now line.old.items line.new.items) }
    {
        if self.around.names.count(name) == 0 {
            return Ok(self);
        }
        let OpenElements {
            mut elements,
            mut around,
        } = self;
        while let Some(element) = elements.pop() {
            let last = element.has_name(name);
            element.push_end(line)?;
            around.close(element)?;
            if last {
                return Ok(OpenElements { elements, around });
            }
        }
        Ok(OpenElements { elements, around })
    }
}
