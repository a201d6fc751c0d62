//! A bundle as it is read.

ghost use Rattle.std.specs.Prelude.{IfOk};
ghost use Rattle.serde_json.specs.View.{view};
ghost use Rattle.msg_bundle.specs.BundleFits.{AreOfOneEach};
ghost use Rattle.msg_bundle.specs.ReadsBundle.{ReadsBundle, ReadsJson};

use crate::fault::BundleFault;
use crate::form::read_form;
use crate::rules::read_rules;
use crate::translations::read_translations;
use msg_extract::{Catalogue, Listed};
use serde_json::Value as Json;
use soy_base::{Code, Refusal, Seq};
use soy_tree::Bundle;
use std::alloc::Global;

/// The bundle that a JSON value stands for, or its first fault.
fn bundle_of(alloc: Global, json: &Json, rows: &[Listed]) -> Result<Bundle, Refusal<BundleFault>>
    ensures read { ReadsJson (view json.now) rows.now result }
    ensures one_each { IfOk result (λ bundle. AreOfOneEach bundle.messages) }
{
    let dir = read_form(alloc, json)?;
    let plural = read_rules(alloc, "plural", json)?;
    let ordinal = read_rules(alloc, "ordinal", json)?;
    let messages = read_translations(alloc, rows, json)?;
    Ok(Bundle {
        dir,
        plural,
        ordinal,
        messages,
    })
}

/// The bundle that bytes bring for the messages of a catalogue, or its first fault: bytes that aren't UTF-8 or JSON, a
/// part that is missing or of another form (21), a plural rule that is none (23), and of the translations of the ids
/// that the catalogue has, in the order of their bytes, one that is no pattern (22) or names a placeholder (24) or a
/// selector (25) that its message lacks. Ids that the catalogue lacks are passed over.
pub fn read_bundle(
    alloc: Global,
    bytes: &[u8],
    catalogue: &Catalogue,
) -> Result<Bundle, Refusal<BundleFault>>
    ensures read { ReadsBundle bytes.now catalogue.now.messages result }
    ensures one_each { IfOk result (λ bundle. AreOfOneEach bundle.messages) }
{
    match Json::from_slice(alloc, bytes) {
        Ok(json) => bundle_of(alloc, &json, catalogue.messages.items()),
        Err(error) => {
            if error.is_memory() {
                return Err(Refusal::OutOfMemory);
            }
            Err(Refusal::Because(BundleFault {
                code: Code::Bundle,
                path: Seq::new(Vec::new(alloc)),
            }))
        }
    }
}
