//! Files with their trees, as the checker takes them.

ghost use Rattle.std.specs.Prelude.{◌≡◌, true, IfOk};
ghost use Rattle.soy_tree.specs.Formed.{is_formed_tree};
ghost use Rattle.soy_tree.specs.ViewTrees.{view_tree};

use soy_base::{Fault, Refusal};
use soy_check::{CheckFault, check};
use soy_lexer::lex;
use soy_parser::parse;
use soy_rules::Typed;
use soy_tree::Tree;
use std::alloc::Global;

/// The tree of a file, or its first fault.
#[tactic(auto, using(crate::proofs::FormedTrees::parsed_formed))]
fn tree(alloc: Global, text: &str, file: u32) -> Result<Tree, Refusal<Fault>>
    ensures { IfOk result (λ tree. is_formed_tree (view_tree tree) ≡ true) }
{
    match lex(alloc, text, file) {
        Ok(tokens) => parse(alloc, tokens.as_slice(), file),
        Err(refusal) => Err(refusal),
    }
}

/// Two files that are checked together, or the first failure; none where one isn't read, or memory ran out.
pub(crate) fn checked(
    alloc: Global,
    first: &str,
    second: &str,
) -> Option<Result<Typed, CheckFault>> {
    let (Ok(first), Ok(second)) = (tree(alloc, first, 0), tree(alloc, second, 1)) else {
        return None;
    };
    let mut trees = Vec::new(alloc);
    trees.push(first).ok()?;
    trees.push(second).ok()?;
    match check(alloc, trees) {
        Ok(typed) => Some(Ok(typed)),
        Err(Refusal::Because(found)) => Some(Err(found)),
        Err(Refusal::OutOfMemory) => None,
    }
}
