//! The compiled form of templates, which the builder makes and the renderer reads.
//!
//! A `Program` is a flat list of ops; each template, arm, loop and block is a range of it. `Compiles` says when a
//! program stands for trees, and `run` what it gives.
//! Depends on soy_base, soy_tree, soy_rules, plural_rules, html_state, soy_pieces and soy_meaning, and in proofs on
//! bidi_class and bidi_text.
#![tactic(auto)]

mod laws;
mod op;
mod program;

pub use laws::{
    law_compiled_is_sound, law_compiled_run_is_pieces, law_hole_counts, law_ops_stay,
    law_program_rows, law_run_is_pieces, law_runs_are_placed,
};
pub use op::{
    Block, Branch, Callee, Choice, ExactBlock, Handed, HandedBy, NamedBlock, Op, PluralOp,
    SelectOp, WordBlock,
};
pub use program::{Program, ProgramParts, Routine};
