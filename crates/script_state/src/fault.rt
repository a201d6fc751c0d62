//! Why a step is refused.

/// A character that may not stand where it does: the script or style can't be followed from here.
/// It is refused as `Code::Script`.
#[derive(Clone, Copy, Debug, PartialEq, Eq)]
pub struct Bad;
