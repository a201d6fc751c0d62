//! Pages: a file with its template `t.m`, and its data.

use soy_base::{Seq, Text};
use soy_front::{Compiled, Source, compile};
use soy_tree::Value;
use soy_types::read_data;
use std::alloc::Global;

/// What a page is made of, and its text.
#[derive(Clone, Copy, Debug)]
pub(crate) struct Row {
    pub(crate) name: &'static str,
    pub(crate) params: &'static str,
    pub(crate) body: &'static str,
    /// The templates beside `t.m`.
    pub(crate) others: &'static str,
    pub(crate) json: &'static str,
    /// The bundle, or nothing.
    pub(crate) bundle: &'static str,
    pub(crate) text: &'static str,
}

/// A compiled page.
#[derive(Drop)]
pub(crate) struct Page {
    pub(crate) compiled: Compiled,
    pub(crate) template: usize,
    pub(crate) input: Value,
}

/// The file of a template with these parameters and this body, and of other templates.
fn source(alloc: Global, params: &str, body: &str, others: &str) -> Option<Source> {
    let mut bytes = Vec::new(alloc);
    for text in [
        "{namespace t}\n{template m}\n",
        params,
        "\n",
        body,
        "\n{/template}\n",
        others,
    ] {
        bytes.extend_from_slice(text.as_bytes()).ok()?;
    }
    Some(Source {
        name: Text::new(String::from_str(alloc, "t.soy").ok()?),
        bytes: Seq::new(bytes),
    })
}

fn compiled(alloc: Global, source: Source, bundle: &str) -> Option<Compiled> {
    let mut sources = Vec::new(alloc);
    sources.push(source).ok()?;
    let bundle = if bundle.is_empty() {
        None
    } else {
        Some(bundle.as_bytes())
    };
    compile(alloc, sources.as_slice(), bundle).ok()
}

/// The page of a program with these data.
fn page_of(alloc: Global, compiled: Compiled, json: &[u8]) -> Option<Page> {
    let template = compiled.entry("t.m")?;
    let routine = compiled.program.parts().template(template)?;
    let input = read_data(alloc, json, routine.params.items()).ok()?;
    Some(Page {
        compiled,
        template,
        input,
    })
}

/// The page of a template with these parameters and this body, and of these data.
pub(crate) fn page_with(alloc: Global, params: &str, body: &str, json: &[u8]) -> Option<Page> {
    page_of(
        alloc,
        compiled(alloc, source(alloc, params, body, "")?, "")?,
        json,
    )
}

/// The page of a row.
pub(crate) fn page_of_row(alloc: Global, row: &Row) -> Option<Page> {
    let source = source(alloc, row.params, row.body, row.others)?;
    page_of(
        alloc,
        compiled(alloc, source, row.bundle)?,
        row.json.as_bytes(),
    )
}
