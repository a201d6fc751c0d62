//! Ops, and the blocks of them that they name.

use plural_rules::Category;
use soy_base::{Boxed, Kind, Place, Seq, Text};
use soy_tree::Expr;

/// The ops from `first` up to but not with `end`.
#[derive(Clone, Copy, Debug, PartialEq, Eq)]
pub struct Block {
    pub first: usize,
    pub end: usize,
}

/// What a program does at one point. The blocks that an op names stand before it.
#[derive(Drop)]
pub enum Op {
    /// A static text.
    Static(Text),
    /// A printed expression; its place and the value's class give the escaper.
    Print(Expr, Place),
    /// `#`: the number of the plural in whose arm it stands, without the offset.
    Number(Place),
    /// The first branch whose condition is truthy, else the block.
    If(Seq<Branch>, Option<Block>),
    /// The first choice with a value that equals the subject, else the block.
    Switch(Expr, Seq<Choice>, Option<Block>),
    /// The variable of a loop, that of its index, the list and the body. The names are in boxes, as is what a call, a
    /// plural and a select are made of: few ops are such, and an op is as large as its largest form.
    For(Boxed<Text>, Option<Boxed<Text>>, Expr, Block),
    /// What a name is bound to.
    Let(Text, Expr),
    /// What a name is bound to: the joined text of a block of kind text, or a block of another kind.
    LetBlock(Text, Kind, Block),
    Call(Boxed<Callee>),
    Plural(Boxed<PluralOp>),
    Select(Boxed<SelectOp>),
}

/// A branch of an if.
#[derive(Drop)]
pub struct Branch {
    pub when: Expr,
    pub body: Block,
}

/// A case of a switch.
#[derive(Drop)]
pub struct Choice {
    pub values: Seq<Expr>,
    pub body: Block,
}

/// A call: the number of its template, what is handed to it, its place, and where its command begins.
#[derive(Drop)]
pub struct Callee {
    pub template: usize,
    /// In the order in which it is valued; of two of one name the last counts.
    pub given: Seq<Handed>,
    pub place: Place,
    pub file: u32,
    pub at: u64,
}

/// What a parameter of a callee is handed.
#[derive(Drop)]
pub struct Handed {
    pub name: Text,
    pub by: HandedBy,
}

/// How it is handed: as a value, as a block, or as what the same name means to the caller.
#[derive(Drop)]
pub enum HandedBy {
    Plain(Expr),
    Block(Kind, Block),
    Same,
}

/// A plural, of the source or of a translation; a default of the source is the arm of the category other.
#[derive(Drop)]
pub struct PluralOp {
    pub number: Expr,
    pub offset: u64,
    pub ordinal: bool,
    pub exact: Seq<ExactBlock>,
    pub named: Seq<NamedBlock>,
}

/// An arm of a plural for one number.
#[derive(Drop)]
pub struct ExactBlock {
    pub is: i64,
    pub body: Block,
}

/// An arm of a plural for one category.
#[derive(Drop)]
pub struct NamedBlock {
    pub category: Category,
    pub body: Block,
}

/// A select, of the source or of a translation; a default of the source is the arm of the word other.
#[derive(Drop)]
pub struct SelectOp {
    pub word: Expr,
    pub arms: Seq<WordBlock>,
}

/// An arm of a select for one word.
#[derive(Drop)]
pub struct WordBlock {
    pub is: Text,
    pub body: Block,
}
