//! The script of a `play`: its lines, and what each asks for.

ghost use Rattle.std.specs.Prelude.{◌≡◌, ◌<◌, ◌∷◌, length, option_map, IfSome};
ghost use Rattle.std.specs.Char.{is_ascii_digit};
ghost use Rattle.std.specs.List.{list_all};
ghost use Rattle.std.specs.Str.{chars};
ghost use Rattle.soy_top.specs.Scripts.Script.{begins_numeral, close_line, is_numeral, numbered_bundle, open_line};
ghost use Rattle.soy_top.specs.Scripts.Script.{pull_count};
ghost use Rattle.soy_top.specs.Scripts.Script.{pull_line, publish_line, script_line, script_lines, script_number};
ghost use Rattle.soy_top.specs.Scripts.ViewScript.{lines_left, view_bundle, view_line};

use soy_base::{after_prefix, cut_at, first, first_part, is_empty};

/// The most bytes that are pulled at once.
const PULL_LIMIT: u64 = 4096;

/// Which of the two bundles of a `play`.
#[derive(Clone, Copy)]
pub(crate) enum ScriptBundle {
    First,
    Second,
}

/// What a line of a script asks for.
#[derive(Clone, Copy)]
pub(crate) enum ScriptLine<'a> {
    Open { template: &'a str, json: &'a str },
    Pull { name: u64, count: u64 },
    Close { name: u64 },
    Publish(ScriptBundle),
}

/// The first line of a text and what follows it, if there is more.
pub(crate) fn first_line(text: &str) -> (&str, Option<&str>)
    ensures lines { script_lines (chars text.now) ≡ chars result.0.now ∷ lines_left result.1 }
    ensures shorter { IfSome result.1 (λ rest. length (chars rest.now) < length (chars text.now)) }
{
    let (line, rest) = first_part(text, '\n');
    match rest {
        Some(more) => {
            if is_empty(more) {
                return (line, None);
            }
            (line, Some(more))
        }
        None => (line, None),
    }
}

/// What a line asks for, and none exactly where it is no line of a script.
pub(crate) fn read_line(line: &str) -> Option<ScriptLine<'_>>
    ensures { option_map view_line result ≡ script_line (chars line.now) }
{
    if let Some(rest) = after_prefix(line, "open ") {
        return open_line(rest);
    }
    if let Some(rest) = after_prefix(line, "pull ") {
        return pull_line(rest);
    }
    if let Some(rest) = after_prefix(line, "close ") {
        return close_line(rest);
    }
    match after_prefix(line, "publish ") {
        Some(rest) => publish_line(rest),
        None => None,
    }
}

/// What an `open` asks for.
fn open_line(rest: &str) -> Option<ScriptLine<'_>>
    ensures { option_map view_line result ≡ open_line (chars rest.now) }
{
    let (template, json) = cut_at(rest, ' ')?;
    if is_empty(template) {
        return None;
    }
    Some(ScriptLine::Open { template, json })
}

/// What a `pull` asks for.
fn pull_line(rest: &str) -> Option<ScriptLine<'_>>
    ensures { option_map view_line result ≡ pull_line (chars rest.now) }
{
    let (name, count) = cut_at(rest, ' ')?;
    let name = number_of(name)?;
    let count = pull_count(number_of(count)?)?;
    Some(ScriptLine::Pull { name, count })
}

/// What a `close` asks for.
fn close_line(rest: &str) -> Option<ScriptLine<'_>>
    ensures { option_map view_line result ≡ close_line (chars rest.now) }
{
    let name = number_of(rest)?;
    Some(ScriptLine::Close { name })
}

/// What a `publish` asks for.
fn publish_line(rest: &str) -> Option<ScriptLine<'_>>
    ensures { option_map view_line result ≡ publish_line (chars rest.now) }
{
    let bundle = numbered_bundle(number_of(rest)?)?;
    Some(ScriptLine::Publish(bundle))
}

/// The bundle of a number, which are counted from 1.
fn numbered_bundle(number: u64) -> Option<ScriptBundle>
    ensures { option_map view_bundle result ≡ numbered_bundle number }
{
    match number {
        1 => Some(ScriptBundle::First),
        2 => Some(ScriptBundle::Second),
        _ => None,
    }
}

/// A number of bytes that may be pulled.
fn pull_count(number: u64) -> Option<u64>
    ensures { result ≡ pull_count number }
{
    if 1 <= number && number <= PULL_LIMIT {
        return Some(number);
    }
    None
}

/// The number that a text writes in decimal digits without a leading zero, if it fits.
fn number_of(text: &str) -> Option<u64>
    ensures { result ≡ script_number (chars text.now) }
{
    if !is_numeral(text) {
        return None;
    }
    text.parse::<u64>().ok()
}

/// Whether a text is decimal digits without a leading zero.
fn is_numeral(text: &str) -> bool
    ensures { result ≡ is_numeral (chars text.now) }
{
    all_digits(text) && begins_numeral(text)
}

/// Whether a text has digits alone.
fn all_digits(text: &str) -> bool
    ensures { result ≡ list_all is_ascii_digit (chars text.now) }
{
    text.chars().all(|c| c.is_ascii_digit())
}

/// Whether there are digits, none behind a zero that leads.
fn begins_numeral(digits: &str) -> bool
    ensures { result ≡ begins_numeral (chars digits.now) }
{
    match first(digits) {
        Some((digit, rest)) => is_empty(rest) || digit != '0',
        None => false,
    }
}
