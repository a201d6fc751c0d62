//! The attributes of commands.

use soy_base::{Kind, Text};

/// The name of an attribute.
#[derive(Clone, Copy)]
pub enum AttributeName {
    Kind,
    Visibility,
    Data,
    Desc,
    Meaning,
    Offset,
    Phname,
}

/// The attributes of a command that were read; each command has some of them.
#[derive(Drop)]
pub struct Attributes {
    pub kind: Option<Kind>,
    /// Whether `visibility="private"` is there.
    pub private: bool,
    /// Whether `data="all"` is there.
    pub all: bool,
    pub desc: Option<Text>,
    pub meaning: Option<Text>,
    pub offset: Option<u64>,
    pub phname: Option<Text>,
}
