//! Frames: what a rendering has still to run, by numbers.

/// The ops that are still to be run in a block.
#[derive(Clone, Copy)]
pub(crate) struct Ahead {
    pub(crate) at: usize,
    pub(crate) end: usize,
    /// The number of the variables.
    pub(crate) env: usize,
    /// How many more calls may be opened.
    pub(crate) left: u32,
    /// What `#` stands for.
    pub(crate) number: i64,
    /// How many variables there were before this frame's own.
    pub(crate) mark: usize,
}

/// The turns of the loop at an op that are still to come; its list is what the variable at a place is bound to.
#[derive(Clone, Copy)]
pub(crate) struct Round {
    pub(crate) op: usize,
    pub(crate) list: usize,
    pub(crate) next: usize,
    pub(crate) env: usize,
    pub(crate) left: u32,
    pub(crate) mark: usize,
}

/// How far a call has handed its parameters: the next one, the number of the callee's variables so far, and how many
/// variables there were before them.
#[derive(Clone, Copy)]
pub(crate) struct Handing {
    pub(crate) next: usize,
    pub(crate) inner: usize,
    pub(crate) mark: usize,
}

/// What a gathered text is for.
#[derive(Clone, Copy)]
pub(crate) enum Purpose {
    /// It is bound by the op.
    Bind,
    /// It is what the call at the op prints.
    Show,
    /// It is the next parameter of the call at the op.
    Hand(Handing),
}

/// What is run next. Those that hold an `Ahead` stand at its op.
#[derive(Clone, Copy)]
pub(crate) enum Frame {
    Ops(Ahead),
    Turns(Round),
    /// The text that the frames above gather.
    Gather(Ahead, Purpose),
    /// The print of the text that the variable at a place is bound to.
    Show(Ahead, usize),
    /// A call whose parameters are being handed.
    Call(Ahead, Handing),
}
