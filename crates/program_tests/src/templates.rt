//! Templates of two files, found by the names that calls give.

use crate::reading::checked;
use soy_base::Text;
use soy_rules::{Templates, all_templates, called_name};
use std::alloc::Global;

const FIRST: &str = "{namespace t}{template m}{/template}{template n}{/template}";

const SECOND: &str = "{namespace u.v}{template n}{/template}";

/// The file of the template that a call in a namespace means by a name, and how many templates stand before it.
fn meant(alloc: Global, namespace: &str, name: &str) -> Option<Option<(u32, usize)>> {
    let Some(Ok(typed)) = checked(alloc, FIRST, SECOND) else {
        return None;
    };
    let declared = all_templates(alloc, typed.trees()).ok()?;
    let all = Templates::new(alloc, declared.as_slice()).ok()?;
    let namespace = Text::new(String::from_str(alloc, namespace).ok()?);
    let name = Text::new(String::from_str(alloc, name).ok()?);
    let full = called_name(alloc, &namespace, &name).ok()?;
    match (all.of_name(&full), all.number(&full)) {
        (Some(one), Some(number)) => Some(Some((one.file, number))),
        (None, None) => Some(None),
        _ => None,
    }
}

/// A namespace, a name, and the file and the number of the template.
const ROWS: &[(&str, &str, Option<(u32, usize)>)] = &[
    ("t", "m", Some((0, 0))),
    ("t", "n", Some((0, 1))),
    ("u.v", "n", Some((1, 2))),
    ("u.v", "t.n", Some((0, 1))),
    ("t", "u.v.n", Some((1, 2))),
    ("u.v", "m", None),
    ("t", "v.n", None),
];

#[test]
fn calls_mean_templates_of_all_files(rt: HostRuntime) {
    for (namespace, name, wanted) in ROWS {
        assert!(rt;
            meant(rt.alloc(), namespace, name) == Some(*wanted),
            "{namespace} {name}"
        );
    }
}
