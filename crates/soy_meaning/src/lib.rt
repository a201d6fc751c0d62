//! Which templates are accepted, and where their runs go: the paths of static texts and holes, what is demanded of all
//! of them, the walk over all paths together, and the paths that runs take.
//!
//! Nothing here runs: the definitions of specs/ are what the contracts of the crates above cite, and the law functions,
//! each a contract with an empty body, say what they come to.
//! Depends on soy_base, soy_tree, soy_pieces, soy_rules, html_state, escapers, bidi_text and plural_rules, and in
//! proofs on script_state, esc_table and bidi_class.
#![tactic(auto)]

mod laws;

pub use laws::{
    law_alike_nests, law_equal_choices, law_few_states, law_frame, law_hole, law_nest_rows,
    law_places_are_static, law_plan_is_of_tree, law_printed_classes, law_row_premises, law_rows,
    law_runs_are_paths, law_runs_are_read, law_typed_choices, law_typed_rows, law_typed_runs,
    law_walk,
};
