//! The workload of a number.
ghost use Rattle.std.specs.Prelude.{◌≡◌, IfOk};
ghost use Rattle.work_gen.specs.Workload.{workload};

use crate::data::data_json;
use crate::source::source_text;
use soy_base::{OutOfMemory, Seq, Text};
use std::alloc::Global;

/// What is compiled and rendered.
#[derive(Debug, Drop)]
pub struct Workload {
    /// The texts of the source files, of which there is one.
    pub sources: Seq<Text>,
    /// The data, as JSON (RFC 8259).
    pub json: Text,
    /// The full name of the template to render.
    pub entry: Text,
}

const TEMPLATES: u32 = 200;

const ITEMS: u32 = 4000;

/// The workload of a number. Linear in its length.
pub fn make(alloc: Global, number: u32) -> Result<Workload, OutOfMemory>
    ensures { IfOk result (λ made. made ≡ workload number) }
{
    let mut sources = Vec::new(alloc);
    sources.push(Text::new(source_text(alloc, TEMPLATES)?))?;
    Ok(Workload {
        sources: Seq::new(sources),
        json: Text::new(data_json(alloc, ITEMS, number)?),
        entry: Text::new(String::from_str(alloc, "gen.main")?),
    })
}
