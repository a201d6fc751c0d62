//! Rows of the order of faults, over whole files and bundles.

use soy_base::{Code, OutOfMemory, Refusal, Seq, Text};
use soy_front::{FrontFault, Source, accept};
use std::alloc::Global;

/// A file of this text.
pub(crate) fn source(alloc: Global, text: &str) -> Result<Source, OutOfMemory> {
    let mut bytes = Vec::new(alloc);
    bytes.extend_from_slice(text.as_bytes())?;
    Ok(Source {
        name: Text::new(String::from_str(alloc, "t.soy")?),
        bytes: Seq::new(bytes),
    })
}

/// What is asked of two files and a bundle: that they are accepted, or their first fault.
enum Wanted {
    Accepted,
    In(u32, u64, Code),
    OfBundle(Code),
}

/// Whether the answer for two files and a bundle, none where it is empty, is this one.
fn answers(
    alloc: Global,
    first: &str,
    second: &str,
    bundle: &str,
    wanted: &Wanted,
) -> Result<bool, OutOfMemory> {
    let mut sources = Vec::new(alloc);
    sources.push(source(alloc, first)?)?;
    sources.push(source(alloc, second)?)?;
    let bundle = if bundle.is_empty() {
        None
    } else {
        Some(bundle.as_bytes())
    };
    match (accept(alloc, sources.as_slice(), bundle), wanted) {
        (Ok(accepted), Wanted::Accepted) => Ok(accepted.files.typed.trees().len() == 2),
        (Err(Refusal::Because(refusal)), _) => Ok(is_wanted(&refusal.fault, wanted)),
        (Err(Refusal::OutOfMemory), _) => Err(OutOfMemory),
        _ => Ok(false),
    }
}

/// Whether a fault is what is asked.
fn is_wanted(fault: &FrontFault, wanted: &Wanted) -> bool {
    match (fault, wanted) {
        (FrontFault::Soy(fault), Wanted::In(file, at, code)) => {
            fault.file == *file && fault.at == *at && fault.code == *code
        }
        (FrontFault::Bundle(fault), Wanted::OfBundle(code)) => fault.code == *code,
        _ => false,
    }
}

/// Two files, a bundle, and the answer.
const ROWS: &[(&str, &str, &str, Wanted)] = &[
    ("{namespace a}", "{namespace b}", "", Wanted::Accepted),
    // Of each file by itself before what is demanded of all.
    (
        "{namespace a}{template t}{$x}{/template}",
        "{namespace b",
        "",
        Wanted::In(1, 12, Code::Syntax),
    ),
    (
        "{namespace a",
        "{namespace b",
        "",
        Wanted::In(0, 12, Code::Syntax),
    ),
    (
        "{namespace a}{template t}{$x}{/template}",
        "{namespace b}",
        "",
        Wanted::In(0, 26, Code::Unknown),
    ),
    // Demands before the walk.
    (
        "{namespace a}{template t}<p {/template}",
        "{namespace b}{template t}{$x}{/template}",
        "",
        Wanted::In(1, 26, Code::Unknown),
    ),
    // The bundle before the walk.
    (
        "{namespace a}{template t}<p {/template}",
        "{namespace b}",
        "[]",
        Wanted::OfBundle(Code::Bundle),
    ),
    (
        "{namespace a}",
        "{namespace b}",
        "{\"dir\":\"rtl\",\"messages\":{}}",
        Wanted::Accepted,
    ),
    (
        "{namespace a}",
        "{namespace b}{template t}<p {/template}",
        "{\"dir\":\"rtl\",\"messages\":{}}",
        Wanted::In(1, 28, Code::EndState),
    ),
];

#[test]
fn faults_come_in_order(rt: HostRuntime) {
    for (first, second, bundle, wanted) in ROWS {
        match answers(rt.alloc(), first, second, bundle, wanted) {
            Ok(found) => assert!(rt; found, "{first} {second} {bundle}"),
            Err(_) => assert!(rt; false, "{first}"),
        }
    }
}
