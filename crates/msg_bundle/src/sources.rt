//! The messages of a catalogue by their ids.

ghost use Rattle.std.specs.Prelude.{◌≡◌, IfOk, option_map};
ghost use Rattle.std.specs.Str.{chars};
ghost use Rattle.msg_extract.specs.Catalogue.{find_listed};
ghost use Rattle.msg_extract.specs.declared.catalogue.Listed.{Listed};
ghost use Rattle.std.specs.Prelude.{List};
ghost use Rattle.msg_bundle.specs.Sources.{FindsRows};

use msg_extract::Listed;
use soy_base::OutOfMemory;
use std::alloc::Global;
use std::collections::HashMap;

/// The rows of a catalogue, each under its id: of two of one id the first.
pub(crate) fn sources_of<'a>(
    alloc: Global,
    rows: &'a [Listed],
) -> Result<HashMap<&'a str, &'a Listed>, OutOfMemory>
    ensures { IfOk result (λ sources. FindsRows sources rows.now) }
{
    let mut sources = HashMap::new(alloc);
    let mut left = rows.len();
    while left > 0 {
        left -= 1;
        let row = &rows[left];
        sources.insert(row.id.text(), row)?;
    }
    Ok(sources)
}

/// The row of an id, if the catalogue has it.
pub(crate) fn source_of<'a>(sources: &HashMap<&'a str, &'a Listed>, id: &str) -> Option<&'a Listed>
    ensures { (rows : List Listed) → FindsRows sources.now rows
        → option_map (λ row. row.now) result ≡ find_listed (chars id.now) rows }
{
    sources.get(&id).copied()
}
