//! What is open around a text.

use crate::rows::{ExactArms, NamedArms, Parts, SelectArms};
use plural_rules::Category;
use soy_base::Text;

/// The key of an arm of a plural.
#[derive(Clone, Copy)]
pub enum ArmKey {
    Exact(i64),
    Named(Category),
}

/// A plural or selectordinal that is open, and the parts before it.
#[derive(Drop)]
pub struct OpenPlural {
    pub before: Parts,
    pub ordinal: bool,
    pub name: Text,
    pub offset: u64,
    pub exact: ExactArms,
    pub named: NamedArms,
}

/// A select that is open, and the parts before it.
#[derive(Drop)]
pub struct OpenSelect {
    pub before: Parts,
    pub name: Text,
    pub arms: SelectArms,
}

/// What is open around a text: a plural or select, with the key of the arm whose text it is.
#[derive(Drop)]
pub enum Frame {
    Plural(OpenPlural, ArmKey),
    Select(OpenSelect, Text),
}

/// Which of the three follows a name.
#[derive(Clone, Copy)]
pub enum ChoiceKind {
    Plural,
    Ordinal,
    Select,
}
