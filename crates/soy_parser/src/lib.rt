//! Files from their tokens, by a machine that takes a token a step: a stack holds the block commands that are open, and
//! one state reads the head of a command, its attributes and its end.
//!
//! `parse` answers by `SpellsFile`, which has a case for each row of the grammar: the tree that all the tokens spell,
//! or the first token with which no file goes on, that lies too deep or that names no type. Depends on soy_base,
//! soy_lexer, soy_tree and expr_parser.
#![tactic(auto)]

mod admission;
mod attribute_spots;
mod attributes;
mod block;
mod blocks;
mod command;
mod commands;
mod files;
mod head;
mod heads;
mod held;
mod laws;
mod messages;
mod nodes;
mod params;
mod reading;
mod spot;
mod spots;
mod terminal;
mod values;

pub use attributes::{AttributeName, Attributes};
pub use block::{
    Block, CommandState, Content, Nodes, OpenFallback, OpenIf, OpenMessage, OpenPlural, OpenSelect,
    OpenSwitch, OpenTemplate, TextRun,
};
pub use command::{Command, CommandForm, Middle, Opening, Single, TemplateOpening};
pub use head::{Head, HeadKind};
pub use held::Held;
pub use laws::{law_file_machine, law_file_spans, law_formed_file, law_one_answer, law_one_file};
pub use reading::parse;
pub use spot::{CommandSpot, DottedUse, FileState, Spot, Use};
pub use terminal::{BlockName, CommandTerminal, CommandWord};
