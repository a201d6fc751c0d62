//! The direction of a text.

/// A direction of text: left to right or right to left.
#[derive(Clone, Copy, Debug, PartialEq, Eq)]
pub enum Dir {
    Ltr,
    Rtl,
}
