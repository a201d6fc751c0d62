//! Runs of characters that stand for themselves.
ghost use Rattle.std.specs.Prelude.{◌≡◌, ◌≤◌, ◌+◌, ◌++◌, ℕ, List, length, true};
ghost use Rattle.std.specs.List.{list_all};
ghost use Rattle.std.specs.Str.{chars, IsUtf8};
ghost use Rattle.escapers.specs.PlainPrefix.{stands_for_itself};
ghost use Rattle.value_cursor.specs.BytesLeft.{forms, IsPlan};
ghost use Rattle.value_cursor.specs.Shares.{AreShares};

use crate::cleaning::{Cleaning, is_clean};
use crate::plan::Plan;
use crate::shares::{first_other, shares_by};
use escapers::{Escaper, plain_prefix};
use soy_base::split_while;

/// How far ahead a text that is cleaned is searched for a character that doesn't stand for itself. It is searched
/// twice, for what is escaped and for what is cleaned, and the one may stand far behind the other.
const WINDOW: usize = 128;

/// A prefix of the text whose characters stand for themselves, and the rest.
pub(crate) fn plain_run<'a>(plan: &Plan, text: &'a str) -> (&'a str, &'a str)
    requires { IsPlan plan.now }
    ensures whole { text.now ≡ result.0.now ++ result.1.now }
    ensures run_utf8 { IsUtf8 result.0.now }
    ensures rest_utf8 { IsUtf8 result.1.now }
    ensures plain { (offset : ℕ) → forms plan.now offset (chars result.0.now) ≡ chars result.0.now }
{
    match plan.cleaning {
        Cleaning::Nothing => plain_bytes(plan, text),
        Cleaning::Unpaired | Cleaning::Marked(_) => {
            let (plain, _) = plain_prefix(plan.how, clipped(text, WINDOW));
            let (_, others) = split_while(plain, is_clean);
            text.split_at(plain.len() - others.len())
        }
    }
}

/// A prefix of the text whose characters stand for themselves by the plan's escaper, and the rest.
fn plain_bytes<'a>(plan: &Plan, text: &'a str) -> (&'a str, &'a str)
    requires { IsPlan plan.now }
    ensures whole { text.now ≡ result.0.now ++ result.1.now }
    ensures run_utf8 { IsUtf8 result.0.now }
    ensures rest_utf8 { IsUtf8 result.1.now }
    ensures plain { list_all (stands_for_itself plan.now.how) (chars result.0.now) ≡ true }
{
    match shares_by(plan.how) {
        Some(shares) => own_run(plan.how, shares, text),
        None => plain_prefix(plan.how, text),
    }
}

/// The longest prefix of the text whose bytes have the share 1, and the rest. Its characters stand for themselves.
#[inline(always)]
pub(crate) fn own_run<'a>(_how: Escaper, shares: &[u16; 256], text: &'a str) -> (&'a str, &'a str)
    requires { AreShares _how shares.now }
    ensures whole { text.now ≡ result.0.now ++ result.1.now }
    ensures run_utf8 { IsUtf8 result.0.now }
    ensures rest_utf8 { IsUtf8 result.1.now }
    ensures plain { list_all (stands_for_itself _how) (chars result.0.now) ≡ true }
    ensures size { length result.0.now + length result.1.now ≡ length text.now }
{
    match first_other(shares, text.as_bytes()) {
        Some(at) => text.split_at(at),
        None => (text, ""),
    }
}

/// The longest prefix of whole characters of a text in so many bytes.
pub(crate) fn clipped(text: &str, limit: usize) -> &str
    ensures prefix { (rest : List ℕ) × (text.now ≡ result.now ++ rest) × IsUtf8 rest }
    ensures utf8 { IsUtf8 result.now }
    ensures within { length result.now ≤ limit }
{
    let (prefix, _) = text.split_at(text.floor_char_boundary(limit));
    prefix
}
