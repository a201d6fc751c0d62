//! The top call of `soyc`: all that the program does, over any library of files and any two sinks.
//!
//! `run` goes by `answered`, a function of the words and of the files that the library is known to
//! hold. Its clauses say of each status exactly when it comes, what each sink took, and what is
//! unchanged; running out of memory alone is free. Each command fetches its files and refuses the first
//! template file that has a fault, and then, but for `format`, what the trees of all template files may not
//! have, and, but for `extract`, what the bundle and the paths of the pages may not have. `render` writes
//! pages, pull by pull, `check` says that all is accepted, `extract` writes the catalogue of messages, `gen` sums up a
//! page of files that it makes, `play` plays a script on a desk, `preview` writes the lines of a page as they are seen,
//! and `format` writes the canonical source of a file.
//!
//! Depends on soy_base and soy_io; on soy_front for the files and the bundle as one program; on soy_types for
//! the data, render_core for the page, soy_desk for scripts, msg_extract for the catalogue, bidi_preview for the lines
//! of a page, soy_format for canonical source, and work_gen for what `gen` renders.
#![tactic(auto)]

mod accept;
mod catalogue;
mod command;
mod ending;
mod faults;
mod fetch;
mod formatted;
mod generated;
mod inputs;
mod laws;
mod line;
mod made_bundle;
mod output;
mod page;
mod play;
mod played;
mod preview;
mod program;
mod render;
mod script;
mod seen;
mod status;
mod summary;
mod wanted;

pub use faults::{call_line, front_line};
pub use laws::{
    law_alike_files, law_answer_is_text, law_canonical_source, law_desk_shows, law_first_left,
    law_page_is_one_text, law_refused_format, law_refused_preview, law_rendered_answer,
};
pub use line::{entry_line, pointer_line, too_large_line};
pub use program::run;
pub use status::Status;
