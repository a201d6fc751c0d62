//! Files with their programs, compared with ones that were written by hand.

ghost use Rattle.std.specs.Prelude.{◌≤◌, ◌<◌, ◌^◌, IfOk, length};

use crate::written::written;
use icu_text::parse_message;
use ir_build::program_parts;
use msg_extract::extract;
use plural_rules::Rules;
use soy_base::{Dir, OutOfMemory, Place, Refusal, Seq, Text, push_text};
use soy_lexer::lex;
use soy_parser::parse;
use soy_tree::{Bundle, Translation, Tree};
use std::alloc::Global;

/// The file of the namespace `t` with a template `m` of this body, and what follows it.
fn file(alloc: Global, body: &str, more: &str) -> Result<String, OutOfMemory> {
    let mut text = String::new(alloc);
    push_text(&mut text, "{namespace t}{template m}")?;
    push_text(&mut text, body)?;
    push_text(&mut text, "{/template}")?;
    push_text(&mut text, more)?;
    Ok(text)
}

/// The trees of one file, or none where it has a fault.
fn trees(alloc: Global, text: &str) -> Result<Vec<Tree>, OutOfMemory>
    ensures { IfOk result (λ trees. length trees.items ≤ 1) }
{
    let mut trees = Vec::new(alloc);
    if let Ok(tokens) = lex(alloc, text, 0) {
        if let Ok(tree) = parse(alloc, tokens.as_slice(), 0) {
            trees.push(tree)?;
        }
    }
    Ok(trees)
}

/// The bundle that has these translations of the messages of trees, in their order; an empty one is left out.
pub(crate) fn bundle(
    alloc: Global,
    trees: &[Tree],
    patterns: &[&str],
) -> Result<Bundle, OutOfMemory>
    requires { length trees.now < 2 ^ 32 }
{
    let mut messages = Vec::new(alloc);
    if let Ok(catalogue) = extract(alloc, trees) {
        for (listed, pattern) in catalogue.messages.items().iter().zip(patterns) {
            if pattern.is_empty() {
                continue;
            }
            if let Ok(parts) = parse_message(alloc, pattern) {
                let id = listed.id.copy(alloc)?;
                messages.push(Translation { id, parts })?;
            }
        }
    }
    Ok(Bundle {
        dir: Dir::Rtl,
        plural: Rules::none(alloc),
        ordinal: Rules::none(alloc),
        messages: Seq::new(messages),
    })
}

/// The program of a body, with what follows it and with translations, whose holes have the places text, attr and uri in
/// their order.
fn program(
    alloc: Global,
    body: &str,
    more: &str,
    patterns: &[&str],
) -> Result<String, OutOfMemory> {
    let text = file(alloc, body, more)?;
    let trees = trees(alloc, text.as_str())?;
    let bundle = bundle(alloc, trees.as_slice(), patterns)?;
    let places = [Place::Plain, Place::Attr, Place::UriStart];
    let parts = program_parts(alloc, trees.as_slice(), &places, &bundle)?;
    written(alloc, &parts)
}

/// The name of a row, a body, what follows its template, and the program.
const COMMANDS: &[(&str, &str, &str, &str)] = &[
    ("empty body", "", "", " | t.m 0-0"),
    (
        "prints between texts",
        "a{$x}{$y}b",
        "",
        "'a'; $x@plain; $y@attr; 'b' | t.m 0-4",
    ),
    (
        "arms and an else",
        "{if $x}a{$y}{elseif $z}{else}b{$x}{/if}{$z}",
        "",
        "'a'; $y@plain; 'b'; $x@attr; if $x 0-2 $z 2-2 else 2-4; $z@uri | t.m 4-6",
    ),
    (
        "cases and a default",
        "{switch $x}{case 1, $y}a{case 2}{$x}{default}{$y}{/switch}",
        "",
        "'a'; $x@plain; $y@attr; switch $x 1 $y 0-1 2 1-2 else 2-3 | t.m 3-4",
    ),
    (
        "loops inside one another",
        "{for $x, $i in $l}{for $y in $x}{$y}{/for}{$i}{/for}",
        "",
        "$y@plain; for y $x 0-1; $i@attr; for x,i $l 1-3 | t.m 3-4",
    ),
    (
        "lets",
        "{let $x: 5 /}{let $y kind=\"html\"}a{/let}{$y}{$x}",
        "",
        "'a'; let x=5; let y html 0-1; $y@plain; $x@attr | t.m 1-5",
    ),
    (
        "params and what is handed on",
        "{@param p: int}{@param? q: int}{call n data=\"all\"}{param r kind=\"text\"}\
        {$p}{/param}{param q: 1 /}{/call}{$q}",
        "{template n}{@param r: string}{@param? p: int}{@param? q: int}{@param? s: int}{$r}{/template}",
        "$p@attr; call 1 r: text 0-1 q=1 p! @plain at 56; $q@uri; $r@text | t.m 1-3 | t.n 3-4",
    ),
    (
        "names that mean no template, and private ones",
        "{call u.n /}{call n /}",
        "{template n visibility=\"private\"}{/template}",
        "call 2 @plain at 25; call 1 @attr at 37 | t.m 0-2 | t.n 2-2",
    ),
    (
        "a source's plural and select",
        "{msg desc=\"\"}{plural $n offset=\"1\"}{case 1}a{$x}{default}\
        {select $y}{case 'b'}{$x}{default}c{/select}{/plural}{/msg}{$n}",
        "",
        "'a'; $x@plain; $x@attr; 'c'; select $y b 2-3 other 3-4; plural $n less 1 1 0-2 other 4-5; $n@uri | t.m 5-7",
    ),
];

#[test]
fn files_have_their_programs(rt: HostRuntime) {
    for (name, body, more, wanted) in COMMANDS {
        match program(rt.alloc(), body, more, &[]) {
            Ok(found) => assert!(rt; found.as_str() == *wanted, "{name}: {found}"),
            Err(_) => assert!(rt; false, "{name}"),
        }
    }
}

/// The name of a row, a body, the translations of its messages, and the program.
const MESSAGES: &[(&str, &str, &[&str], &str)] = &[
    (
        "a placeholder twice",
        "{msg desc=\"\"}a{$x}{/msg}{$y}",
        &["{X}b{X}"],
        "$x@attr; 'b'; $x@uri; $y@text | t.m 0-4",
    ),
    (
        "the placeholders of a tag",
        "{msg desc=\"\"}<a href=\"{$u}\">b</a>{/msg}",
        &["{START_LINK}c{END_LINK}"],
        "'<a href=\"'; $u@attr; '\">'; 'c'; '</a>' | t.m 0-5",
    ),
    (
        "a translation's plural and ordinal",
        "{msg desc=\"\"}{plural $n}{case 1}a{default}b{/plural}{/msg}",
        &["{N,plural,offset:1 =2{x}one{#}other{{N,selectordinal,other{y#}}}}"],
        "'x'; #@plain; 'y'; #@attr; ordinal $n less 0 other 2-4; plural $n less 1 2 0-1 one 1-2 other 4-5 | t.m 5-6",
    ),
    (
        "a translation's select",
        "{msg desc=\"\"}{select $s}{case 'a'}{$x}{default}b{/select}{/msg}{$y}",
        &["{S,select,a{{X}}other{}}"],
        "$x@attr; select $s a 0-1 other 1-1; $y@uri | t.m 1-3",
    ),
    (
        "the fallback translated",
        "{msg desc=\"\"}a{$x}{fallbackmsg desc=\"\"}b{$y}{/msg}{$z}",
        &["", "{Y}c"],
        "$y@attr; 'c'; $z@uri | t.m 0-3",
    ),
    (
        "both translated",
        "{msg desc=\"\"}a{$x}{fallbackmsg desc=\"\"}b{$y}{/msg}{$z}",
        &["d{X}", "{Y}c"],
        "'d'; $x@attr; $z@text | t.m 0-3",
    ),
    (
        "the message translated",
        "{msg desc=\"\"}a{$x}{fallbackmsg desc=\"\"}b{$y}{/msg}{$z}",
        &["d"],
        "'d'; $z@attr | t.m 0-2",
    ),
    (
        "none translated",
        "{msg desc=\"\"}a{$x}{fallbackmsg desc=\"\"}b{$y}{/msg}{$z}",
        &[],
        "'a'; $x@plain; $z@attr | t.m 0-3",
    ),
];

#[test]
fn messages_have_the_ops_of_the_chosen_text(rt: HostRuntime) {
    for (name, body, patterns, wanted) in MESSAGES {
        match program(rt.alloc(), body, "", patterns) {
            Ok(found) => assert!(rt; found.as_str() == *wanted, "{name}: {found}"),
            Err(_) => assert!(rt; false, "{name}"),
        }
    }
}
