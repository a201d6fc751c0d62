//! Opens pages.

ghost use Rattle.std.specs.Prelude.{IfOk};
ghost use Rattle.std.specs.Arc.{arc_value};
ghost use Rattle.soy_page.specs.Begun.{HasBegun};
ghost use Rattle.soy_page.specs.Opens.{OpensAt, OpensPage};

use crate::fault::PageFault;
use crate::page::Page;
use crate::templates::Templates;
use render_core::Rendering;
use soy_base::{OutOfMemory, Refusal};
use soy_tree::Value;
use soy_types::read_data;
use std::alloc::Global;
use std::sync::Arc;

impl Page {
    /// The page of the template that may be rendered under a full name, with data of JSON, of which nothing is given
    /// yet; or why there is none.
    pub fn open(
        alloc: Global,
        templates: Arc<Templates, Global>,
        name: &str,
        json: &[u8],
    ) -> Result<Page, Refusal<PageFault>>
        ensures { OpensPage (arc_value templates) name.now json.now result }
    {
        match templates.compiled.entry(name) {
            Some(number) => Page::open_at(alloc, templates, number, json),
            None => Err(Refusal::Because(PageFault::Entry)),
        }
    }

    /// The page of the template of a number.
    fn open_at(
        alloc: Global,
        templates: Arc<Templates, Global>,
        number: usize,
        json: &[u8],
    ) -> Result<Page, Refusal<PageFault>>
        ensures { OpensAt (arc_value templates) number json.now result }
    {
        match read_data(alloc, json, templates.compiled.typed.params(number)) {
            Ok(input) => Ok(Page::begin(alloc, templates, number, input)?),
            Err(Refusal::Because(fault)) => Err(Refusal::Because(PageFault::Data(fault))),
            Err(Refusal::OutOfMemory) => Err(Refusal::OutOfMemory),
        }
    }

    /// The page of the template of a number with data that were read.
    fn begin(
        alloc: Global,
        templates: Arc<Templates, Global>,
        number: usize,
        input: Value,
    ) -> Result<Page, OutOfMemory>
        ensures { IfOk result (λ page. HasBegun (arc_value templates) number input page) }
    {
        let rendering = Rendering::begin(alloc, &templates.compiled.program, &input, number)?;
        Ok(Page {
            templates,
            input,
            rendering,
        })
    }
}
